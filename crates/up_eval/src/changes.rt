ghost use Rattle.std.specs.Prelude.{◌≡◌, ◌++◌, false, true, IfOk, IfErr, OnOk, OnErr, Some, map, option_map, is_none, ◌||◌};
ghost use Rattle.std.specs.List.{list_any};
ghost use Rattle.up_tree.specs.Changes.{number_change, object_change, added, deleted, of_firing};
ghost use Rattle.up_tree.specs.Faults.{OfEffect, NumberUndefined};
ghost use Rattle.up_eval.specs.Firing.{meant, meant_all};
ghost use Rattle.up_eval.specs.Effects.{at_fired, OfFired, at_most_one, lacks_object, lacks_number, lacks_old, needs_old, is_zero, divides_by_zero, number_meant, object_meant, change_of, value_of, assigned_value, IsNumberStop, IsNumbersStop};

use crate::firing::Firing;
use crate::ground::Ground;
use crate::state::State;
use crate::step_error::Why;
use crate::stop::Stop;
use std::alloc::Global;
use up_frac::Frac;
use up_text::{List, Memory, Name};
use up_tree::{Change, Effect};

/// A change of a ground numeric term, with its operand.
#[derive(Drop)]
pub(crate) struct NumberChange {
    pub(crate) target: Ground,
    pub(crate) change: Change,
    pub(crate) operand: Frac,
}

/// A ground object term, with its new object or none.
#[derive(Drop)]
pub(crate) struct ObjectChange {
    pub(crate) target: Ground,
    pub(crate) value: Option<Name>,
}

// The items, and then one more if there is one.
fn with_item<T: Drop>(items: List<T>, item: Option<T>) -> Result<List<T>, Memory>
    ensures { IfOk result (λ more. more ≡ items ++ at_most_one item) }
{
    let mut items = items;
    if let Some(item) = item {
        items.push(item)?;
    }
    Ok(items)
}

fn lacks_either(target: &Option<Ground>, value: &Option<Name>) -> bool
    ensures { result ≡ (is_none target.now || is_none value.now) }
{
    target.is_none() || value.is_none()
}

fn needs_old(change: Change) -> bool
    ensures { result ≡ needs_old change }
{
    match change {
        Change::Assign => false,
        Change::Increase | Change::Decrease | Change::ScaleUp | Change::ScaleDown => true,
    }
}

fn is_zero(number: Frac) -> bool
    ensures { result ≡ is_zero number.numerator }
{
    number.numerator() == 0
}

fn divides_by_zero(change: Change, operand: Frac) -> bool
    ensures { result ≡ divides_by_zero change operand }
{
    match change {
        Change::ScaleDown => is_zero(operand),
        _ => false,
    }
}

fn value_of(target: Option<Ground>, value: Option<Name>) -> Option<ObjectChange>
    ensures { option_map object_meant result ≡ value_of target value }
{
    match target {
        Some(target) => Some(ObjectChange { target, value }),
        None => None,
    }
}

fn assigned_value(target: Option<Ground>, value: Option<Name>) -> Option<ObjectChange>
    ensures { option_map object_meant result ≡ assigned_value target value }
{
    match value {
        Some(value) => value_of(target, Some(value)),
        None => None,
    }
}

impl State {
    // Whether an argument of the effect or an assigned object is undefined.
    fn lacks_object(&self, alloc: Global, fired: &Firing<'_>) -> Result<bool, Memory>
        ensures { IfOk result (λ lacks. lacks ≡ at_fired lacks_object self.now (meant fired.now)) }
    {
        let scope = fired.scope.as_slice();
        match fired.effect {
            Effect::Add(name, args)
            | Effect::Delete(name, args)
            | Effect::Number(_, name, args, _)
            | Effect::Undefine(name, args) => {
                Ok(self.ground(alloc, scope, name, args.as_slice())?.is_none())
            }
            Effect::Object(name, args, value) => {
                let target = self.ground(alloc, scope, name, args.as_slice())?;
                let value = self.value(alloc, scope, value)?;
                Ok(lacks_either(&target, &value))
            }
        }
    }

    /// Whether an argument of some effect or an assigned object is undefined.
    pub(crate) fn lacks_some_object(
        &self,
        alloc: Global,
        effects: &[Firing<'_>],
    ) -> Result<bool, Memory>
        ensures { IfOk result (λ lacks. lacks ≡ list_any (at_fired lacks_object self.now) (meant_all effects.now)) }
    {
        for fired in effects {
            if self.lacks_object(alloc, fired)? {
                return Ok(true);
            }
        }
        Ok(false)
    }

    fn lacks_old(&self, change: Change, target: &Ground) -> bool
        ensures { result ≡ lacks_old self.now change (Some target.now) }
    {
        needs_old(change) && self.number_at(target).is_none()
    }

    // The change, where no number that it needs is undefined.
    fn defined_change(
        &self,
        change: Change,
        target: Option<Ground>,
        operand: Option<Frac>,
    ) -> Result<Option<NumberChange>, Stop>
        ensures value { IfOk result (λ c. option_map number_meant c ≡ change_of change target operand) }
        ensures defined { OnOk result (lacks_number self.now change target operand ≡ false) }
        ensures lacks { OnErr result (lacks_number self.now change target operand ≡ true) }
        ensures stop { IfErr result (λ e. e ≡ Stop.Refused Why.NumberUndefined) }
    {
        let Some(operand) = operand else {
            return Err(Stop::Refused(Why::NumberUndefined));
        };
        if divides_by_zero(change, operand) {
            return Err(Stop::Refused(Why::NumberUndefined));
        }
        let Some(target) = target else {
            return Ok(None);
        };
        if self.lacks_old(change, &target) {
            return Err(Stop::Refused(Why::NumberUndefined));
        }
        Ok(Some(NumberChange {
            target,
            change,
            operand,
        }))
    }

    // The number that an effect changes, with its operand, if it is of that sort.
    fn number_change(&self, alloc: Global, fired: &Firing<'_>) -> Result<Option<NumberChange>, Stop>
        ensures value { IfOk result (λ c. option_map number_meant c ≡ at_fired number_change self.now (meant fired.now)) }
        ensures defined { OnOk result (¬ OfFired NumberUndefined self.now (meant fired.now)) }
        ensures stop { IfErr result (IsNumberStop self.now (meant fired.now)) }
    {
        let Effect::Number(change, name, args, operand) = fired.effect else {
            return Ok(None);
        };
        let scope = fired.scope.as_slice();
        let operand = self.number(alloc, scope, operand)?;
        let target = self.ground(alloc, scope, name, args.as_slice())?;
        self.defined_change(*change, target, operand)
    }

    /// The numbers that the effects change, with their operands.
    pub(crate) fn number_changes(
        &self,
        alloc: Global,
        effects: &[Firing<'_>],
    ) -> Result<List<NumberChange>, Stop>
        ensures value { IfOk result (λ changes. map number_meant changes ≡ of_firing number_change self.now (meant_all effects.now)) }
        ensures defined { OnOk result (¬ OfEffect NumberUndefined self.now (meant_all effects.now)) }
        ensures stop { IfErr result (IsNumbersStop self.now (meant_all effects.now)) }
    {
        let mut changes = List::new(alloc);
        for fired in effects {
            changes = with_item(changes, self.number_change(alloc, fired)?)?;
        }
        Ok(changes)
    }

    // The object that an effect assigns or takes away, if it is of that sort.
    fn object_change(
        &self,
        alloc: Global,
        fired: &Firing<'_>,
    ) -> Result<Option<ObjectChange>, Memory>
        ensures { IfOk result (λ c. option_map object_meant c ≡ at_fired object_change self.now (meant fired.now)) }
    {
        let scope = fired.scope.as_slice();
        match fired.effect {
            Effect::Object(name, args, value) => {
                let target = self.ground(alloc, scope, name, args.as_slice())?;
                let value = self.value(alloc, scope, value)?;
                Ok(assigned_value(target, value))
            }
            Effect::Undefine(name, args) => {
                let target = self.ground(alloc, scope, name, args.as_slice())?;
                Ok(value_of(target, None))
            }
            _ => Ok(None),
        }
    }

    /// The objects that the effects assign or take away.
    pub(crate) fn object_changes(
        &self,
        alloc: Global,
        effects: &[Firing<'_>],
    ) -> Result<List<ObjectChange>, Memory>
        ensures { IfOk result (λ changes. map object_meant changes ≡ of_firing object_change self.now (meant_all effects.now)) }
    {
        let mut changes = List::new(alloc);
        for fired in effects {
            changes = with_item(changes, self.object_change(alloc, fired)?)?;
        }
        Ok(changes)
    }

    fn added_atom(&self, alloc: Global, fired: &Firing<'_>) -> Result<Option<Ground>, Memory>
        ensures { IfOk result (λ atom. atom ≡ at_fired added self.now (meant fired.now)) }
    {
        match fired.effect {
            Effect::Add(name, args) => {
                self.ground(alloc, fired.scope.as_slice(), name, args.as_slice())
            }
            _ => Ok(None),
        }
    }

    fn deleted_atom(&self, alloc: Global, fired: &Firing<'_>) -> Result<Option<Ground>, Memory>
        ensures { IfOk result (λ atom. atom ≡ at_fired deleted self.now (meant fired.now)) }
    {
        match fired.effect {
            Effect::Delete(name, args) => {
                self.ground(alloc, fired.scope.as_slice(), name, args.as_slice())
            }
            _ => Ok(None),
        }
    }

    /// The atoms that the effects add.
    pub(crate) fn added_atoms(
        &self,
        alloc: Global,
        effects: &[Firing<'_>],
    ) -> Result<List<Ground>, Memory>
        ensures { IfOk result (λ atoms. atoms ≡ of_firing added self.now (meant_all effects.now)) }
    {
        let mut atoms = List::new(alloc);
        for fired in effects {
            atoms = with_item(atoms, self.added_atom(alloc, fired)?)?;
        }
        Ok(atoms)
    }

    /// The atoms that the effects delete.
    pub(crate) fn deleted_atoms(
        &self,
        alloc: Global,
        effects: &[Firing<'_>],
    ) -> Result<List<Ground>, Memory>
        ensures { IfOk result (λ atoms. atoms ≡ of_firing deleted self.now (meant_all effects.now)) }
    {
        let mut atoms = List::new(alloc);
        for fired in effects {
            atoms = with_item(atoms, self.deleted_atom(alloc, fired)?)?;
        }
        Ok(atoms)
    }
}
