ghost use Rattle.std.specs.Prelude.{◌≡◌, ◌<◌, [], IfOk, IfErr, OnOk};
ghost use Rattle.up_tree.specs.Faults.{CanTake, IsNext};
ghost use Rattle.up_tree.specs.State.{init};
ghost use Rattle.up_eval.specs.Index.{IsIndexOf};
ghost use Rattle.up_validate.specs.Runs.{AreWatches, StandsAfter, Follows, GoOn, HaltsAt, IsBigAfter, Halts, halt_of};

use crate::phase::Phase;
use crate::verdict::StepFault;
use crate::watch::{Watch, all_nexts, all_starts, watches_of};
use std::alloc::Global;
use up_eval::{Index, State, StepError, TruthError};
use up_text::{List, Memory};
use up_tree::{Problem, Step};

/// Where a run of a plan's first steps stands.
#[derive(Drop)]
pub(crate) struct Run {
    pub(crate) state: State,
    /// How each constraint stands, tuple by tuple.
    pub(crate) phases: List<List<Phase>>,
}

/// Why a run doesn't go on. Steps are counted from 1.
#[derive(Clone, Copy, Debug, PartialEq, Eq)]
pub(crate) enum Halt {
    Memory,
    BadStep { step: usize, why: StepFault },
    TooLarge { step: usize },
}

impl From<Memory> for Halt {
    ghost use Rattle.std.specs.Prelude.{◌≡◌};
    ghost use Rattle.up_validate.specs.declared.run.Halt.TheVariants.{Memory as OfMemory};

    ghost from_gives = { λ _ e. e ≡ OfMemory };

    fn from(_: Memory) -> Halt {
        Halt::Memory
    }
}

// Why the run halts at the step with this number that can't be taken.
fn halt_of(number: usize, error: StepError) -> Halt
    ensures { result ≡ halt_of number error }
{
    match error {
        StepError::Memory => Halt::Memory,
        StepError::Unknown => Halt::BadStep {
            step: number,
            why: StepFault::Unknown,
        },
        StepError::Arity => Halt::BadStep {
            step: number,
            why: StepFault::Arity,
        },
        StepError::ArgumentType => Halt::BadStep {
            step: number,
            why: StepFault::ArgumentType,
        },
        StepError::NotApplicable { why } => Halt::BadStep {
            step: number,
            why: StepFault::Not(why),
        },
        StepError::TooLarge => Halt::TooLarge { step: number },
    }
}

// The state that the step with this number leaves.
#[tactic(auto, using(crate::proofs::Running::halt_says))]
fn state_after(
    alloc: Global,
    p: &Problem,
    index: &Index<'_>,
    state: State,
    number: usize,
    step: &Step,
) -> Result<State, Halt>
    requires { IsIndexOf p.now index.now }
    ensures taken { OnOk result (CanTake p.now state step.now) }
    ensures next { IfOk result (IsNext p.now state step.now) }
    ensures halts { IfErr result (HaltsAt p.now state number step.now) }
{
    match state.after_by(alloc, p, index, step) {
        Ok(next) => Ok(next),
        Err(error) => Err(halt_of(number, error)),
    }
}

// How the constraints stand after a state, whose numbers are those of the step with this number.
#[tactic(auto, using(crate::proofs::Watching::big_in_all, crate::proofs::Watching::go_on))]
fn later_phases(
    alloc: Global,
    p: &Problem,
    watches: &[Watch],
    state: &State,
    phases: &[List<Phase>],
    number: usize,
) -> Result<List<List<Phase>>, Halt>
    requires { AreWatches p.now watches.now }
    ensures phases { IfOk result (GoOn p.now state.now phases.now) }
    ensures halts { IfErr result (IsBigAfter p.now state.now number) }
{
    match all_nexts(alloc, p, state, watches, phases) {
        Ok(later) => Ok(later),
        Err(TruthError::Memory) => Err(Halt::Memory),
        Err(TruthError::TooLarge) => Err(Halt::TooLarge { step: number }),
    }
}

// Where the run of no step stands.
#[tactic(auto, using(crate::proofs::Watching::starts_none, crate::proofs::Running::stands_first))]
fn first_run(alloc: Global, p: &Problem, watches: &[Watch]) -> Result<Run, Halt>
    requires { AreWatches p.now watches.now }
    ensures stands { IfOk result (StandsAfter p.now []) }
    ensures halts { IfErr result (IsBigAfter p.now (init p.now) 1) }
{
    let none = all_starts(alloc, p.parts().constraints.as_slice(), watches)?;
    let state = match State::init(alloc, p) {
        Ok(state) => state,
        Err(memory) => {
            drop(none);
            return Err(Halt::from(memory));
        }
    };
    let phases = later_phases(alloc, p, watches, &state, none.as_slice(), 1);
    drop(none);
    match phases {
        Ok(phases) => Ok(Run { state, phases }),
        Err(halt) => {
            drop(state);
            Err(halt)
        }
    }
}

// Where the run stands after the step with this number.
#[tactic(auto, using(crate::proofs::Running::halt_after))]
fn next_run(
    alloc: Global,
    p: &Problem,
    index: &Index<'_>,
    watches: &[Watch],
    run: Run,
    number: usize,
    step: &Step,
) -> Result<Run, Halt>
    requires index { IsIndexOf p.now index.now }
    requires watches { AreWatches p.now watches.now }
    requires number { number < usize.MAX }
    ensures follows { IfOk result (Follows p.now step.now run) }
    ensures halts { IfErr result (HaltsAt p.now run.state number step.now) }
{
    let Run { state, phases } = run;
    let state = match state_after(alloc, p, index, state, number, step) {
        Ok(state) => state,
        Err(halt) => {
            drop(phases);
            return Err(halt);
        }
    };
    let later = later_phases(alloc, p, watches, &state, phases.as_slice(), number + 1);
    drop(phases);
    match later {
        Ok(phases) => Ok(Run { state, phases }),
        Err(halt) => {
            drop(state);
            Err(halt)
        }
    }
}

// Where the run of the steps stands, by the problem's index and watches.
fn run_by(
    alloc: Global,
    p: &Problem,
    index: &Index<'_>,
    watches: &[Watch],
    steps: &[Step],
) -> Result<Run, Halt>
    requires index { IsIndexOf p.now index.now }
    requires watches { AreWatches p.now watches.now }
    ensures stands { IfOk result (StandsAfter p.now steps.now) }
    ensures halts { IfErr result (Halts p.now steps.now) }
{
    let mut run = first_run(alloc, p, watches)?;
    let mut number = 0_usize;
    for step in steps {
        number += 1;
        run = next_run(alloc, p, index, watches, run, number, step)?;
    }
    Ok(run)
}

/// Where the run of the steps stands.
pub(crate) fn run_of(alloc: Global, p: &Problem, steps: &[Step]) -> Result<Run, Halt>
    ensures stands { IfOk result (StandsAfter p.now steps.now) }
    ensures halts { IfErr result (Halts p.now steps.now) }
{
    let index = Index::new(alloc, p)?;
    match watches_of(alloc, p, p.parts().constraints.as_slice()) {
        Ok(watches) => {
            let run = run_by(alloc, p, &index, watches.as_slice(), steps);
            drop(watches);
            drop(index);
            run
        }
        Err(memory) => {
            drop(index);
            Err(Halt::from(memory))
        }
    }
}
