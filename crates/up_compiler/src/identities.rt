ghost use Rattle.std.specs.Prelude.{◌≡◌, IfOk, OnOk};
ghost use Rattle.up_compiler.specs.Back.{IsBack};
ghost use Rattle.up_compiler.specs.Identity.{arguments, identity_entry, identity_entries, and_entry};
ghost use Rattle.up_compiler.specs.Named.{AreNamed};

use crate::back::{Back, Entry, Item, Target};
use std::alloc::Global;
use up_text::{List, Memory, NameSet};
use up_tree::{Action, Problem};

// The arguments from 1 to this number.
#[tactic(auto, using(crate::proofs::Unchanged::identities))]
fn arguments(alloc: Global, arity: usize) -> Result<List<Item>, Memory>
    ensures { IfOk result (λ items. items ≡ arguments arity) }
{
    let mut items = List::new(alloc);
    for place in 0..arity {
        items.push(Item::Argument(place + 1))?;
    }
    Ok(items)
}

// The entry that keeps an action's steps as they are.
fn identity_entry(alloc: Global, action: &Action) -> Result<Entry, Memory>
    ensures { IfOk result (λ e. e ≡ identity_entry action.now) }
{
    let arity = action.params.len();
    Ok(Entry {
        action: action.name.copy(alloc)?,
        arity,
        target: Target::Keep(action.name.copy(alloc)?, arguments(alloc, arity)?),
    })
}

// The entry of an action, where its name has none yet.
#[tactic(auto, using(crate::proofs::Unchanged::identities))]
fn add_entry(
    alloc: Global,
    names: &mut NameSet,
    entries: &mut List<Entry>,
    action: &Action,
) -> Result<(), Memory>
    requires back { IsBack entries.old }
    requires named { AreNamed names.old entries.old }
    ensures added { OnOk result (entries.new ≡ and_entry entries.old action.now) }
    ensures fit { OnOk result (IsBack entries.new) }
    ensures named { OnOk result (AreNamed names.new entries.new) }
{
    if names.has(&action.name) {
        return Ok(());
    }
    names.add(action.name.copy(alloc)?)?;
    entries.push(identity_entry(alloc, action)?)?;
    Ok(())
}

/// The map from a problem to itself: each step stays as it is.
///
/// The answer is `Memory` where the entries and their names find no room.
#[tactic(auto, using(crate::proofs::Unchanged::identities, crate::proofs::Naming::named_none))]
pub fn identity(alloc: Global, p: &Problem) -> Result<Back, Memory>
    ensures { IfOk result (λ b. b ≡ identity_entries p.now.actions) }
{
    let mut names = NameSet::new(alloc);
    let mut entries = List::new(alloc);
    for action in p.parts().actions.as_slice() {
        add_entry(alloc, &mut names, &mut entries, action)?;
    }
    Ok(Back::new(entries))
}
