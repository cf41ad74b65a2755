ghost use Rattle.std.specs.Prelude.{◌≡◌, IfOk};
ghost use Rattle.std.specs.Option.{option_copied};
ghost use Rattle.up_compiler.specs.Back.{entry_named, IsBack};
ghost use Rattle.up_compiler.specs.Named.{HasEntries};

use crate::back::{Back, Entry};
use indexmap::IndexMap;
use std::alloc::Global;
use std::marker::Model;
use up_text::{Memory, Name};

/// The entries of a map by the names of their actions, which contracts see as the entries.
#[derive(Drop)]
pub struct EntryTable<'a> {
    entries: &'a [Entry],
    table: IndexMap<Name, &'a Entry>,
}

impl<'a> Model for EntryTable<'a> {
    ghost use Rattle.std.specs.Prelude.{List};
    ghost use Rattle.up_compiler.specs.declared.back.Entry.{Entry};
    ghost use Rattle.up_compiler.specs.Named.{HasEntries};

    ghost Value = { List Entry };

    ghost view = { λ entries. entries.entries.now };

    ghost invariant = { λ entries. HasEntries entries.table entries.entries.now };
}

impl<'a> EntryTable<'a> {
    /// It takes memory that grows with the number of entries, and `Memory` comes where there is none.
    pub fn new(alloc: Global, back: &'a Back) -> Result<EntryTable<'a>, Memory>
        ensures same { IfOk result (λ entries. entries ≡ back.now) }
        ensures fit { IfOk result (λ _. IsBack back.now) }
    {
        let entries = back.entries().as_slice();
        let table = entries_by_name(alloc, entries)?;
        Ok(EntryTable { entries, table })
    }

    /// The entry for an action, found by one look-up.
    pub fn find(&self, action: &Name) -> Option<&'a Entry>
        ensures { option_copied result ≡ entry_named self.now action.now }
    {
        match self.table.get(action) {
            Some(entry) => Some(*entry),
            None => None,
        }
    }
}

// The entries by the names of their actions.
#[tactic(auto, using(crate::proofs::Naming::naming))]
fn entries_by_name<'a>(
    alloc: Global,
    entries: &'a [Entry],
) -> Result<IndexMap<Name, &'a Entry>, Memory>
    ensures { IfOk result (λ table. HasEntries table entries.now) }
{
    let mut table = IndexMap::new(alloc);
    let mut rest = entries;
    'naming: while let Some((entry, others)) = rest.split_last() {
        table.insert(entry.action.copy(alloc)?, entry)?;
        rest = others;
    }
    Ok(table)
}
