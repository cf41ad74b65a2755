use thiserror::Error;
use up_text::Memory;

/// Why a step of known names and fitting arguments can't be taken.
#[derive(Clone, Copy, Debug, PartialEq, Eq, Error)]
pub enum Why {
    #[error("the precondition isn't true")]
    Precondition,
    #[error("an effect's condition is neither true nor false")]
    ConditionUndefined,
    #[error("an argument of an effect or an assigned object is undefined")]
    ObjectUndefined,
    #[error("an operand or an old number is undefined, or a divisor is 0")]
    NumberUndefined,
    #[error("two effects change one number, and not both by adding")]
    NumberConflict,
    #[error("two effects give one term different objects")]
    ObjectConflict,
}

/// Why a step isn't taken.
#[derive(Clone, Copy, Debug, PartialEq, Eq, Error)]
pub enum StepError {
    /// An allocation failed.
    #[error("out of memory")]
    Memory,
    /// No action, or no object, has a name that the step uses.
    #[error("an action or an object isn't known")]
    Unknown,
    /// The step has more or fewer arguments than the action has parameters.
    #[error("the action takes another number of arguments")]
    Arity,
    /// An argument isn't of its parameter's type.
    #[error("an argument is of another type")]
    ArgumentType,
    /// The action can't be taken in this state.
    #[error("{why}")]
    NotApplicable { why: Why },
    /// A value that the step needs, or a number that it leaves, has a numerator or denominator of at least 2^62 in size.
    #[error("a number is too large")]
    TooLarge,
}

impl From<Memory> for StepError {
    ghost use Rattle.std.specs.Prelude.{◌≡◌};
    ghost use Rattle.up_eval.specs.declared.step_error.StepError.TheVariants.{Memory as OfMemory};

    ghost from_gives = { λ _ e. e ≡ OfMemory };

    fn from(_: Memory) -> StepError {
        StepError::Memory
    }
}
