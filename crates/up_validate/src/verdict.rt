use thiserror::Error;
use up_eval::{Value, Why};
use up_text::Memory;

/// Why a step can't be taken.
#[derive(Clone, Copy, Debug, PartialEq, Eq, Error)]
pub enum StepFault {
    /// No action, or no object, has a name that the step uses.
    #[error("an action or an object isn't known")]
    Unknown,
    /// The step has more or fewer arguments than the action has parameters.
    #[error("the action takes another number of arguments")]
    Arity,
    /// An argument isn't of its parameter's type.
    #[error("an argument is of another type")]
    ArgumentType,
    /// The action can't be taken in the state before the step.
    #[error("{0}")]
    Not(Why),
}

/// What a plan is for a problem. Steps and constraints are counted from 1.
#[derive(Clone, Copy, Debug)]
pub enum Verdict {
    /// Each step can be taken, the goal is true in the last state and the run keeps every constraint.
    Valid {
        /// The problem's metric in the last state.
        metric: Value,
    },
    /// The first step that can't be taken.
    BadStep {
        step: usize,
        why: StepFault,
    },
    /// Each step can be taken, but the goal isn't true in the last state.
    GoalOpen,
    /// The goal is reached, and this is the first constraint that the run doesn't keep.
    Broken {
        constraint: usize,
    },
}

/// Why a plan isn't judged.
#[derive(Clone, Copy, Debug, PartialEq, Eq, Error)]
pub enum ValidateError {
    /// An allocation failed.
    #[error("out of memory")]
    Memory,
    /// A number that the step with this number needs or leaves has a numerator or denominator of at least 2^62 in size; one
    /// more than the number of steps stands for the goal and the metric.
    #[error("a number is too large at step {step}")]
    TooLarge { step: usize },
}

impl From<Memory> for ValidateError {
    ghost use Rattle.std.specs.Prelude.{◌≡◌};
    ghost use Rattle.up_validate.specs.declared.verdict.ValidateError.TheVariants.{Memory as OfMemory};

    ghost from_gives = { λ _ e. e ≡ OfMemory };

    fn from(_: Memory) -> ValidateError {
        ValidateError::Memory
    }
}
