ghost use Rattle.std.specs.Prelude.{◌≡◌, ◌↔◌, IfOk, IfErr, OnOk, OnErr, IsTrue, map, Some, option_map};
ghost use Rattle.std.specs.FinMap as table;
ghost use Rattle.up_tree.specs.State.{number_at};
ghost use Rattle.up_tree.specs.Big.{IsBigNumber};
ghost use Rattle.up_eval.specs.Effects.{number_meant, object_meant};
ghost use Rattle.up_eval.specs.Gathering.{is_shift, first_number, gathered_next, gathered_after, gathered_value, new_numbers, IsGatheredStop, AreGathered, IsGatherStop, GathersMore, StopsAt, settled_numbers, AreApart, AreUnanimous, FirstOfMore, DiffersFrom, IsObjectStop};

use crate::changes::{NumberChange, ObjectChange};
use crate::error::TooLarge;
use crate::ground::Ground;
use crate::number::{difference_of, product_of, quotient_of, sum_of};
use crate::state::State;
use crate::step_error::Why;
use crate::stop::Stop;
use crate::table::Table;
use std::alloc::Global;
use up_frac::Frac;
use up_text::{List, Memory, Name};
use up_tree::Change;

/// What the changes of a numeric term make so far: its new number, and whether they are increases and decreases alone.
#[derive(Clone, Copy, Debug)]
pub(crate) struct Gathered {
    pub(crate) shifts: bool,
    pub(crate) value: Option<Frac>,
}

/// A ground numeric term with its new number or none.
#[derive(Drop)]
pub(crate) struct NewNumber {
    pub(crate) target: Ground,
    pub(crate) value: Option<Frac>,
}

fn is_shift(change: Change) -> bool
    ensures { result ≡ is_shift change }
{
    match change {
        Change::Increase | Change::Decrease => true,
        Change::Assign | Change::ScaleUp | Change::ScaleDown => false,
    }
}

// The number after a term's first change.
fn first_number(change: Change, operand: Frac, old: Option<Frac>) -> Result<Option<Frac>, TooLarge>
    ensures value { IfOk result (λ n. n ≡ first_number change operand old) }
    ensures too_large { OnErr result (IsBigNumber (first_number change operand old)) }
{
    match change {
        Change::Assign => Ok(Some(operand)),
        Change::Increase => sum_of(old, Some(operand)),
        Change::Decrease => difference_of(old, Some(operand)),
        Change::ScaleUp => product_of(old, Some(operand)),
        Change::ScaleDown => quotient_of(old, Some(operand)),
    }
}

// What one more change makes of those before it.
fn gathered_next(change: Change, operand: Frac, so_far: Gathered) -> Result<Gathered, Stop>
    ensures next { IfOk result (λ g. gathered_next change operand so_far ≡ Some g) }
    ensures stop { IfErr result (IsGatheredStop (gathered_next change operand so_far)) }
{
    if !so_far.shifts {
        return Err(Stop::Refused(Why::NumberConflict));
    }
    let value = match change {
        Change::Increase => sum_of(so_far.value, Some(operand))?,
        Change::Decrease => difference_of(so_far.value, Some(operand))?,
        Change::Assign | Change::ScaleUp | Change::ScaleDown => {
            return Err(Stop::Refused(Why::NumberConflict));
        }
    };
    Ok(Gathered {
        shifts: true,
        value,
    })
}

fn same_value(first: &Option<Name>, second: &Option<Name>) -> bool
    ensures { IsTrue result ↔ (first.now ≡ second.now) }
{
    match (first, second) {
        (Some(x), Some(y)) => x == y,
        (None, None) => true,
        _ => false,
    }
}

pub(crate) fn value_copy(alloc: Global, value: &Option<Name>) -> Result<Option<Name>, Memory>
    ensures { IfOk result (λ copy. copy ≡ value.now) }
{
    match value {
        Some(name) => Ok(Some(name.copy(alloc)?)),
        None => Ok(None),
    }
}

// The first values with that of one more change, where its term has no other.
fn with_first(
    alloc: Global,
    firsts: Table<Option<Name>>,
    change: &ObjectChange,
) -> Result<Table<Option<Name>>, Stop>
    ensures more { IfOk result (FirstOfMore firsts (object_meant change.now)) }
    ensures stop { IfErr result (DiffersFrom firsts (object_meant change.now)) }
{
    let mut firsts = firsts;
    if let Some(first) = firsts.get(&change.target) {
        if !same_value(first, &change.value) {
            return Err(Stop::Refused(Why::ObjectConflict));
        }
        return Ok(firsts);
    }
    let value = value_copy(alloc, &change.value)?;
    firsts.insert(change.target.copy(alloc)?, value)?;
    Ok(firsts)
}

/// Refuses changes that give one term different objects.
pub(crate) fn check_objects(alloc: Global, changes: &[ObjectChange]) -> Result<(), Stop>
    ensures agree { OnOk result (AreUnanimous (map object_meant changes.now)) }
    ensures stop { IfErr result (IsObjectStop (map object_meant changes.now)) }
{
    let mut firsts = Table::new(alloc);
    for change in changes {
        firsts = with_first(alloc, firsts, change)?;
    }
    Ok(())
}

impl State {
    fn first_of(&self, change: &NumberChange) -> Result<Gathered, TooLarge>
        ensures value { IfOk result (λ g. gathered_after (number_at self.now change.now.target) None (number_meant change.now) ≡ Some g) }
        ensures too_large { OnErr result (IsGatheredStop (gathered_after (number_at self.now change.now.target) None (number_meant change.now)) Stop.TooLarge) }
    {
        let value = first_number(
            change.change,
            change.operand,
            self.number_at(&change.target),
        )?;
        Ok(Gathered {
            shifts: is_shift(change.change),
            value,
        })
    }

    // What the change makes of those of its term before it, if there are any.
    fn gathered_after(
        &self,
        change: &NumberChange,
        so_far: Option<Gathered>,
    ) -> Result<Gathered, Stop>
        ensures value { IfOk result (λ g. gathered_after (number_at self.now change.now.target) so_far (number_meant change.now) ≡ Some g) }
        ensures stop { IfErr result (IsGatheredStop (gathered_after (number_at self.now change.now.target) so_far (number_meant change.now))) }
    {
        match so_far {
            Some(so_far) => gathered_next(change.change, change.operand, so_far),
            None => Ok(self.first_of(change)?),
        }
    }

    // The table with one more change.
    fn with_change(
        &self,
        alloc: Global,
        gathered: Table<Gathered>,
        change: &NumberChange,
    ) -> Result<Table<Gathered>, Stop>
        ensures more { IfOk result (GathersMore self.now gathered (number_meant change.now)) }
        ensures stop { IfErr result (StopsAt self.now gathered (number_meant change.now)) }
    {
        let so_far = gathered.get(&change.target).copied();
        let next = self.gathered_after(change, so_far)?;
        let mut gathered = gathered;
        gathered.insert(change.target.copy(alloc)?, next)?;
        Ok(gathered)
    }

    // What the changes of each term make, where they can be made together.
    fn gathered(&self, alloc: Global, changes: &[NumberChange]) -> Result<Table<Gathered>, Stop>
        ensures made { IfOk result (AreGathered self.now (map number_meant changes.now)) }
        ensures stop { IfErr result (IsGatherStop self.now (map number_meant changes.now)) }
    {
        let mut gathered = Table::new(alloc);
        for change in changes {
            gathered = self.with_change(alloc, gathered, change)?;
        }
        Ok(gathered)
    }

    fn new_number(&self, gathered: &Table<Gathered>, target: &Ground) -> Option<Frac>
        ensures { result ≡ gathered_value (table.get gathered.now target.now) (number_at self.now target.now) }
    {
        match gathered.get(target) {
            Some(it) => it.value,
            None => self.number_at(target),
        }
    }

    fn new_numbers(
        &self,
        alloc: Global,
        gathered: &Table<Gathered>,
        changes: &[NumberChange],
    ) -> Result<List<NewNumber>, Memory>
        ensures { IfOk result (λ news. news ≡ new_numbers self.now gathered.now (map number_meant changes.now)) }
    {
        let mut news = List::new(alloc);
        for change in changes {
            let value = self.new_number(gathered, &change.target);
            let target = change.target.copy(alloc)?;
            news.push(NewNumber { target, value })?;
        }
        Ok(news)
    }

    /// The new number of each change's target, where the changes of each can be made together.
    #[tactic(auto, using(crate::proofs::Gathered::settles))]
    pub(crate) fn settled(
        &self,
        alloc: Global,
        changes: &[NumberChange],
    ) -> Result<List<NewNumber>, Stop>
        ensures value { IfOk result (λ news. news ≡ settled_numbers self.now (map number_meant changes.now)) }
        ensures apart { OnOk result (AreApart (map number_meant changes.now)) }
        ensures stop { IfErr result (IsGatherStop self.now (map number_meant changes.now)) }
    {
        let gathered = self.gathered(alloc, changes)?;
        let news = self.new_numbers(alloc, &gathered, changes)?;
        Ok(news)
    }
}
