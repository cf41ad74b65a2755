ghost use Rattle.std.specs.Prelude.{◌≡◌, ◌≤◌, suc, map, IfOk};
ghost use Rattle.up_compiler.specs.Back.{IsWithin, TargetFits};
ghost use Rattle.up_compiler.specs.Compose.{resolved, through, composed_target, composed_entry, composed, Meets};

use crate::back::{Back, Entry, Item, Target};
use crate::entry_table::EntryTable;
use std::alloc::Global;
use up_text::{List, Memory, Name};

fn item_copy(alloc: Global, item: &Item) -> Result<Item, Memory>
    ensures { IfOk result (λ i. i ≡ item.now) }
{
    match item {
        Item::Argument(place) => Ok(Item::Argument(*place)),
        Item::Object(name) => Ok(Item::Object(name.copy(alloc)?)),
    }
}

// What an item of the earlier map becomes by the items of the later one.
fn resolved(alloc: Global, items: &[Item], item: &Item) -> Result<Item, Memory>
    ensures { IfOk result (λ i. i ≡ resolved items.now item.now) }
{
    match item {
        Item::Object(name) => Ok(Item::Object(name.copy(alloc)?)),
        Item::Argument(place) => argument(alloc, items, *place),
    }
}

fn argument(alloc: Global, items: &[Item], place: usize) -> Result<Item, Memory>
    ensures { IfOk result (λ i. i ≡ resolved items.now (Item.Argument place)) }
{
    if place == 0 {
        return Ok(Item::Argument(0));
    }
    match items.get(place - 1) {
        None => Ok(Item::Argument(0)),
        Some(item) => item_copy(alloc, item),
    }
}

fn all_resolved(alloc: Global, items: &[Item], others: &[Item]) -> Result<List<Item>, Memory>
    ensures { IfOk result (λ is. is ≡ map (resolved items.now) others.now) }
{
    let mut made = List::new(alloc);
    for item in others {
        made.push(resolved(alloc, items, item)?)?;
    }
    Ok(made)
}

fn through(alloc: Global, items: &[Item], target: &Target) -> Result<Target, Memory>
    ensures { IfOk result (λ t. t ≡ through items.now target.now) }
{
    match target {
        Target::Drop => Ok(Target::Drop),
        Target::Keep(name, others) => Ok(Target::Keep(
            name.copy(alloc)?,
            all_resolved(alloc, items, others.as_slice())?,
        )),
    }
}

fn composed_target(alloc: Global, earlier: &EntryTable, target: &Target) -> Result<Target, Memory>
    ensures { IfOk result (λ t. t ≡ composed_target earlier.now target.now) }
{
    match target {
        Target::Drop => Ok(Target::Drop),
        Target::Keep(name, items) => match earlier.find(name) {
            None => Ok(Target::Drop),
            Some(entry) => through(alloc, items.as_slice(), &entry.target),
        },
    }
}

fn composed_entry(alloc: Global, earlier: &EntryTable, entry: &Entry) -> Result<Entry, Memory>
    ensures { IfOk result (λ e. e ≡ composed_entry earlier.now entry.now) }
{
    Ok(Entry {
        action: entry.action.copy(alloc)?,
        arity: entry.arity,
        target: composed_target(alloc, earlier, &entry.target)?,
    })
}

/// The map by which a step is converted as by `later` and then by `earlier`.
///
/// The answer is `Memory` where the entries, or the table of the earlier ones, find no room.
#[tactic(auto, using(crate::proofs::Composed::composing))]
pub fn compose(alloc: Global, earlier: &Back, later: &Back) -> Result<Back, Memory>
    requires { Meets earlier.now later.now }
    ensures { IfOk result (λ b. b ≡ composed earlier.now later.now) }
{
    let first = EntryTable::new(alloc, earlier)?;
    let second = later.entries();
    let mut entries = List::new(alloc);
    for entry in second.as_slice() {
        entries.push(composed_entry(alloc, &first, entry)?)?;
    }
    Ok(Back::new(entries))
}
