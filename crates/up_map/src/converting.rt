ghost use Rattle.std.specs.Prelude.{◌≡◌, ◌++◌, Some, None, length, IfOk, IfErr, OnOk, option_to_list};
ghost use Rattle.indexmap.specs.IndexMap.{get};
ghost use Rattle.up_text.specs.Lists.{Every};
ghost use Rattle.up_text.specs.Names.{same_name};
ghost use Rattle.up_compiler.specs.Back.{item_object, items_objects, by_target, by_entry, back, IsWithin, TargetFits, back_steps};
ghost use Rattle.up_map.specs.Named.{HasEntries, AllFit, entry_under};
ghost use Rattle.up_map.specs.Unfit.{converted_by, unfit_by, first_unfit};

use crate::back_error::BackError;
use crate::map::Map;
use indexmap::IndexMap;
use std::alloc::Global;
use up_compiler::{Entry, Item, Target};
use up_text::{List, Memory, Name};
use up_tree::{Plan, Step};

// The entries by the names of their actions.
#[tactic(auto, using(crate::proofs::Tables::tables))]
fn entries_by_name<'m>(
    alloc: Global,
    entries: &'m [Entry],
) -> Result<IndexMap<Name, &'m Entry>, Memory>
    ensures { IfOk result (λ table. HasEntries table entries.now) }
{
    let mut table = IndexMap::new(alloc);
    let mut rest = entries;
    'naming: while let Some((entry, others)) = rest.split_last() {
        table.insert(entry.action.copy(alloc)?, entry)?;
        rest = others;
    }
    Ok(table)
}

fn entry_under<'m>(table: &IndexMap<Name, &'m Entry>, name: &Name) -> Option<&'m Entry>
    ensures { result ≡ get same_name table.now name.now }
{
    match table.get(name) {
        Some(entry) => Some(*entry),
        None => None,
    }
}

// What an item stands for.
fn item_object(alloc: Global, args: &[Name], item: &Item) -> Result<Name, Memory>
    requires { IsWithin (length args.now) item.now }
    ensures { IfOk result (λ object. item_object args.now item.now ≡ Some object) }
{
    match item {
        Item::Argument(place) => args[*place - 1].copy(alloc),
        Item::Object(name) => name.copy(alloc),
    }
}

#[tactic(auto, using(crate::proofs::Kept::objects_none))]
fn items_objects(alloc: Global, args: &[Name], items: &[Item]) -> Result<List<Name>, Memory>
    requires { Every (IsWithin (length args.now)) items.now }
    ensures { IfOk result (λ objects. items_objects args.now items.now ≡ Some objects) }
{
    let mut objects = List::new(alloc);
    for item in items {
        objects.push(item_object(alloc, args, item)?)?;
    }
    Ok(objects)
}

// The step that is kept, if one is.
fn by_target(alloc: Global, args: &[Name], target: &Target) -> Result<Option<Step>, Memory>
    requires { TargetFits (length args.now) target.now }
    ensures { IfOk result (λ kept. by_target args.now target.now ≡ Some kept) }
{
    match target {
        Target::Drop => Ok(None),
        Target::Keep(name, items) => {
            let args = items_objects(alloc, args, items.as_slice())?;
            let action = name.copy(alloc)?;
            Ok(Some(Step { action, args }))
        }
    }
}

// What the step of this number becomes by its action's entry.
fn by_entry(
    alloc: Global,
    number: usize,
    step: &Step,
    entry: &Entry,
) -> Result<Option<Step>, BackError>
    requires { TargetFits entry.now.arity entry.now.target }
    ensures kept { IfOk result (λ kept. by_entry step.now.args entry.now ≡ Some kept) }
    ensures fault { IfErr result (λ fault. ¬ (fault ≡ BackError.Memory) → unfit_by number step.now (Some entry.now) ≡ Some fault) }
{
    if entry.arity != step.args.len() {
        return Err(BackError::Arity { step: number });
    }
    match by_target(alloc, step.args.as_slice(), &entry.target) {
        Ok(kept) => Ok(kept),
        Err(Memory) => Err(BackError::Memory),
    }
}

// A step, if there is one, behind others.
fn add_kept(kept: Option<Step>, steps: &mut List<Step>) -> Result<(), Memory>
    ensures { OnOk result (steps.new ≡ steps.old ++ option_to_list kept) }
{
    if let Some(step) = kept {
        steps.push(step)?;
    }
    Ok(())
}

// What the step of this number becomes by the table's entry for its action.
fn converted(
    alloc: Global,
    table: &IndexMap<Name, &Entry>,
    number: usize,
    step: &Step,
) -> Result<Option<Step>, BackError>
    requires { AllFit table.now }
    ensures kept { IfOk result (λ kept. converted_by (entry_under table.now step.now.action) step.now ≡ Some kept) }
    ensures fault { IfErr result (λ fault. ¬ (fault ≡ BackError.Memory) → unfit_by number step.now (entry_under table.now step.now.action) ≡ Some fault) }
{
    match entry_under(table, &step.action) {
        Some(entry) => by_entry(alloc, number, step, entry),
        None => Err(BackError::UnknownAction { step: number }),
    }
}

// What the steps of a plan become.
#[tactic(auto, using(crate::proofs::Kept::at_none, crate::proofs::Tables::all_fit))]
fn back_steps(alloc: Global, entries: &[Entry], steps: &[Step]) -> Result<List<Step>, BackError>
    requires { Every (λ e. TargetFits e.arity e.target) entries.now }
    ensures kept { IfOk result (λ made. back_steps entries.now steps.now ≡ Some made) }
    ensures fit { IfOk result (λ _. first_unfit entries.now 1 steps.now ≡ None) }
    ensures unfit { IfErr result (λ fault. ¬ (fault ≡ BackError.Memory) → first_unfit entries.now 1 steps.now ≡ Some fault) }
    ensures refused { IfErr result (λ fault. ¬ (fault ≡ BackError.Memory) → back_steps entries.now steps.now ≡ None) }
{
    let table = entries_by_name(alloc, entries)?;
    let mut made = List::new(alloc);
    let mut number = 0_usize;
    for step in steps {
        number += 1;
        let kept = match converted(alloc, &table, number, step) {
            Ok(kept) => kept,
            Err(fault) => {
                drop(table);
                drop(made);
                return Err(fault);
            }
        };
        match add_kept(kept, &mut made) {
            Ok(()) => {}
            Err(Memory) => {
                drop(table);
                drop(made);
                return Err(BackError::Memory);
            }
        }
    }
    drop(table);
    Ok(made)
}

/// The plan with each step converted by the map's entry for its action, in which `$k` is the step's k-th argument. A step
/// whose entry says `drop` is left out.
///
/// Errors: at the first step that no entry fits, `UnknownAction` where no entry is for its action and `Arity` where that
/// entry is for another number of arguments; `Memory` where the plan finds no room.
///
/// The conversion is Unified Planning's way back from the plans of a compiled problem.
#[tactic(auto, using(crate::proofs::Kept::plan_some, crate::proofs::Kept::plan_none))]
pub fn back(alloc: Global, map: &Map, plan: &Plan) -> Result<Plan, BackError>
    ensures converted { IfOk result (λ made. back map.now.back plan.now ≡ Some made) }
    ensures fit { IfOk result (λ _. first_unfit map.now.back 1 plan.now.steps ≡ None) }
    ensures unfit { IfErr result (λ fault. ¬ (fault ≡ BackError.Memory) → first_unfit map.now.back 1 plan.now.steps ≡ Some fault) }
    ensures refused { IfErr result (λ fault. ¬ (fault ≡ BackError.Memory) → back map.now.back plan.now ≡ None) }
{
    match back_steps(alloc, map.back.entries().as_slice(), plan.steps.as_slice()) {
        Ok(steps) => Ok(Plan { steps }),
        Err(fault) => Err(fault),
    }
}
