use thiserror::Error;
use up_text::Memory;

/// Why a plan isn't converted. Steps are counted from 1.
#[derive(Clone, Copy, Debug, PartialEq, Eq, Error)]
pub enum BackError {
    /// An allocation failed.
    #[error("out of memory")]
    Memory,
    /// No entry has the action of this step.
    #[error("step of an unknown action")]
    UnknownAction { step: usize },
    /// The entry for the action of this step has another number of arguments.
    #[error("step with a wrong number of arguments")]
    Arity { step: usize },
}

impl From<Memory> for BackError {
    ghost use Rattle.std.specs.Prelude.{◌≡◌};
    ghost use Rattle.up_map.specs.declared.back_error.BackError.TheVariants.{Memory as OutOfMemory};

    ghost from_gives = { λ _ e. e ≡ OutOfMemory };

    fn from(_: Memory) -> BackError {
        BackError::Memory
    }
}
