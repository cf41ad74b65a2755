ghost use Rattle.std.specs.Prelude.{◌≡◌, IfOk};
ghost use Rattle.std.specs.FinSet as set;
ghost use Rattle.std.specs.FinMap as table;

use crate::ground::Ground;
use crate::table::{Atoms, Table};
use std::alloc::Global;
use std::collections::{BTreeMap, BTreeSet};
use up_frac::Frac;
use up_text::{Memory, Name};

/// The atoms that are among the keys.
pub(crate) fn atoms_copy(alloc: Global, keys: &BTreeSet<Ground>) -> Result<Atoms, Memory>
    ensures { IfOk result (λ copy. copy ≡ set.from_list keys.now.keys) }
{
    let mut copy = Atoms::new(alloc);
    let mut rest = keys.iter();
    'keys: while let Some(key) = rest.next_back() {
        copy.insert(key.copy(alloc)?)?;
    }
    Ok(copy)
}

pub(crate) fn numbers_copy(
    alloc: Global,
    entries: &BTreeMap<Ground, Frac>,
) -> Result<Table<Frac>, Memory>
    ensures { IfOk result (λ copy. copy ≡ table.from_entries entries.now.entries) }
{
    let mut copy = Table::new(alloc);
    let mut rest = entries.iter();
    'entries: while let Some((term, value)) = rest.next_back() {
        copy.insert(term.copy(alloc)?, *value)?;
    }
    Ok(copy)
}

pub(crate) fn values_copy(
    alloc: Global,
    entries: &BTreeMap<Ground, Name>,
) -> Result<Table<Name>, Memory>
    ensures { IfOk result (λ copy. copy ≡ table.from_entries entries.now.entries) }
{
    let mut copy = Table::new(alloc);
    let mut rest = entries.iter();
    'entries: while let Some((term, value)) = rest.next_back() {
        let value = value.copy(alloc)?;
        copy.insert(term.copy(alloc)?, value)?;
    }
    Ok(copy)
}
