ghost use Rattle.std.specs.Prelude.{◌≡◌, IfOk, IfErr, IfSome, OnOk, OnErr, map};
ghost use Rattle.up_tree.specs.Objects.{world};
ghost use Rattle.up_tree.specs.Instances.{firing};
ghost use Rattle.up_tree.specs.Changes.{number_change, object_change, added, deleted, of_firing, changed};
ghost use Rattle.up_tree.specs.Faults.{OfEffect, NumberUndefined, NumbersConflict, ObjectsConflict, CanTake, IsNext};
ghost use Rattle.up_eval.specs.Firing.{meant_all};
ghost use Rattle.up_eval.specs.Effects.{object_meant};
ghost use Rattle.up_eval.specs.Index.{IsIndexOf};
ghost use Rattle.up_eval.specs.Gathering.{settled_numbers, AreUnanimous};
ghost use Rattle.up_eval.specs.Steps.{ActionHasNone, IsStop, RefusesStep, all_faults};
ghost use Rattle.up_eval.specs.Nexts.{state_with, StaysOf, HaveNoFault, IsNewNumbersStop, IsNewObjectsStop, IsEffectsStop};

use crate::arguments::fitting_action;
use crate::changes::ObjectChange;
use crate::firing::Firing;
use crate::gathering::{NewNumber, check_objects};
use crate::ground::Ground;
use crate::index::Index;
use crate::state::State;
use crate::step_error::{StepError, Why};
use crate::stop::Stop;
use std::alloc::Global;
use up_text::{List, Memory, Name};
use up_tree::{Action, Problem, Step};

/// What the effects of a step change.
#[derive(Drop)]
pub(crate) struct Changes {
    pub(crate) deleted: List<Ground>,
    pub(crate) added: List<Ground>,
    pub(crate) numbers: List<NewNumber>,
    pub(crate) objects: List<ObjectChange>,
}

impl State {
    fn new_numbers_of(&self, alloc: Global, effects: &[Firing<'_>]) -> Result<List<NewNumber>, Stop>
        ensures value { IfOk result (λ news. news ≡ settled_numbers self.now (of_firing number_change self.now (meant_all effects.now))) }
        ensures defined { OnOk result (¬ OfEffect NumberUndefined self.now (meant_all effects.now)) }
        ensures apart { OnOk result (¬ NumbersConflict self.now (meant_all effects.now)) }
        ensures stop { IfErr result (IsNewNumbersStop self.now (meant_all effects.now)) }
    {
        let changes = self.number_changes(alloc, effects)?;
        let news = self.settled(alloc, changes.as_slice())?;
        Ok(news)
    }

    fn new_objects_of(
        &self,
        alloc: Global,
        effects: &[Firing<'_>],
    ) -> Result<List<ObjectChange>, Stop>
        ensures value { IfOk result (λ changes. map object_meant changes ≡ of_firing object_change self.now (meant_all effects.now)) }
        ensures agree { OnOk result (AreUnanimous (of_firing object_change self.now (meant_all effects.now))) }
        ensures stop { IfErr result (IsNewObjectsStop self.now (meant_all effects.now)) }
    {
        let changes = self.object_changes(alloc, effects)?;
        check_objects(alloc, changes.as_slice())?;
        Ok(changes)
    }

    // The changes with those of atoms.
    fn with_atoms(
        &self,
        alloc: Global,
        effects: &[Firing<'_>],
        numbers: List<NewNumber>,
        objects: List<ObjectChange>,
    ) -> Result<Changes, Memory>
        ensures deleted { IfOk result (λ c. c.deleted ≡ of_firing deleted self.now (meant_all effects.now)) }
        ensures added { IfOk result (λ c. c.added ≡ of_firing added self.now (meant_all effects.now)) }
        ensures numbers { IfOk result (λ c. c.numbers ≡ numbers) }
        ensures objects { IfOk result (λ c. c.objects ≡ objects) }
    {
        let deleted = self.deleted_atoms(alloc, effects)?;
        let added = self.added_atoms(alloc, effects)?;
        Ok(Changes {
            deleted,
            added,
            numbers,
            objects,
        })
    }

    // What the effects change, where what they need is defined and they don't conflict.
    fn changes_of(&self, alloc: Global, effects: &[Firing<'_>]) -> Result<Changes, Stop>
        ensures value { IfOk result (λ c. state_with self.now c ≡ changed self.now (meant_all effects.now)) }
        ensures no_fault { OnOk result (HaveNoFault self.now (meant_all effects.now)) }
        ensures stop { IfErr result (IsEffectsStop self.now (meant_all effects.now)) }
    {
        let lacks = self.lacks_some_object(alloc, effects)?;
        if lacks {
            return Err(Stop::Refused(Why::ObjectUndefined));
        }
        let numbers = self.new_numbers_of(alloc, effects)?;
        let objects = self.new_objects_of(alloc, effects)?;
        let changes = self.with_atoms(alloc, effects, numbers, objects)?;
        Ok(changes)
    }

    // What the action changes, where it can be taken.
    fn action_changes(
        &self,
        alloc: Global,
        p: &Problem,
        action: &Action,
        args: &[Name],
    ) -> Result<Changes, Stop>
        ensures value { IfOk result (λ c. state_with self.now c ≡ changed self.now (firing (world p.now) self.now action.now args.now)) }
        ensures none { OnOk result (ActionHasNone (world p.now) self.now action.now args.now all_faults) }
        ensures stop { IfErr result (IsStop (world p.now) self.now action.now args.now) }
    {
        let effects = self.effects(alloc, p, action, args)?;
        let changes = self.changes_of(alloc, effects.as_slice())?;
        Ok(changes)
    }

    // What the step changes, where it can be taken.
    fn changes(
        &self,
        alloc: Global,
        p: &Problem,
        index: Option<&Index<'_>>,
        step: &Step,
    ) -> Result<Changes, StepError>
        requires { IfSome index (λ it. IsIndexOf p.now it.now) }
        ensures next { IfOk result (λ c. IsNext p.now self.now step.now (state_with self.now c)) }
        ensures typed { IfOk result (λ c. StaysOf p.now self.now (state_with self.now c)) }
        ensures can { OnOk result (CanTake p.now self.now step.now) }
        ensures refused { IfErr result (RefusesStep p.now self.now step.now) }
    {
        let action = fitting_action(p, index, step)?;
        match self.action_changes(alloc, p, action, step.args.as_slice()) {
            Ok(changes) => Ok(changes),
            Err(stop) => Err(stop.error()),
        }
    }

    /// The state after a step (PDDL 2.1, Fox and Long 2003): a copy of this one with the step's changes.
    ///
    /// Every value is taken in this state. An atom that the step both deletes and adds holds after it.
    ///
    /// The errors come in the order of `StepError` and of `Why`. `TooLarge` comes only for a step of known names and fitting
    /// arguments, where a value that it needs or leaves is past the bound; `Memory` where an allocation failed.
    pub fn step(&self, alloc: Global, p: &Problem, step: &Step) -> Result<State, StepError>
        ensures next { IfOk result (IsNext p.now self.now step.now) }
        ensures typed { IfOk result (StaysOf p.now self.now) }
        ensures can { OnOk result (CanTake p.now self.now step.now) }
        ensures refused { IfErr result (RefusesStep p.now self.now step.now) }
    {
        let changes = self.changes(alloc, p, None, step)?;
        let next = self.copy(alloc)?;
        let next = next.changed(alloc, changes)?;
        Ok(next)
    }

    // The state after a step, in place of this one. The step's names are looked up in the index where there is one.
    fn stepped(
        self,
        alloc: Global,
        p: &Problem,
        index: Option<&Index<'_>>,
        step: &Step,
    ) -> Result<State, StepError>
        requires { IfSome index (λ it. IsIndexOf p.now it.now) }
        ensures next { IfOk result (IsNext p.now self step.now) }
        ensures typed { IfOk result (StaysOf p.now self) }
        ensures can { OnOk result (CanTake p.now self step.now) }
        ensures refused { IfErr result (RefusesStep p.now self step.now) }
    {
        let changes = self.changes(alloc, p, index, step)?;
        let next = self.changed(alloc, changes)?;
        Ok(next)
    }

    /// The state after a step, in place of this one (PDDL 2.1, Fox and Long 2003).
    ///
    /// Every value is taken in the state before. An atom that the step both deletes and adds holds after it. The memory that it takes
    /// grows with what the step changes, not with the state. The errors are those of `step`.
    pub fn after(self, alloc: Global, p: &Problem, step: &Step) -> Result<State, StepError>
        ensures next { IfOk result (IsNext p.now self step.now) }
        ensures typed { IfOk result (StaysOf p.now self) }
        ensures can { OnOk result (CanTake p.now self step.now) }
        ensures refused { IfErr result (RefusesStep p.now self step.now) }
    {
        self.stepped(alloc, p, None, step)
    }

    /// The state after a step, in place of this one, as `after` makes it. The step's names are looked up in the index, so that the time
    /// grows with what the step touches, not with the problem's objects. The errors are those of `step`.
    pub fn after_by(
        self,
        alloc: Global,
        p: &Problem,
        index: &Index<'_>,
        step: &Step,
    ) -> Result<State, StepError>
        requires { IsIndexOf p.now index.now }
        ensures next { IfOk result (IsNext p.now self step.now) }
        ensures typed { IfOk result (StaysOf p.now self) }
        ensures can { OnOk result (CanTake p.now self step.now) }
        ensures refused { IfErr result (RefusesStep p.now self step.now) }
    {
        self.stepped(alloc, p, Some(index), step)
    }

    /// Takes a step: the state becomes the one after it (PDDL 2.1, Fox and Long 2003).
    ///
    /// The errors are those of `step`, and the state is then as before. The new state is made beside the old one, by the allocator
    /// that the state keeps.
    pub fn take(&mut self, p: &Problem, step: &Step) -> Result<(), StepError>
        ensures next { OnOk result (IsNext p.now self.old step.now self.new) }
        ensures typed { OnOk result (StaysOf p.now self.old self.new) }
        ensures can { OnOk result (CanTake p.now self.old step.now) }
        ensures refused { IfErr result (RefusesStep p.now self.old step.now) }
        ensures stays { OnErr result (self.new ≡ self.old) }
    {
        let next = self.step(self.alloc, p, step)?;
        *self = next;
        Ok(())
    }
}
