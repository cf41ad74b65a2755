use thiserror::Error;
use up_text::{Memory, Place};

/// Why bytes are no plan text.
#[derive(Clone, Copy, Debug, PartialEq, Eq, Error)]
pub enum PlanTextError {
    /// An allocation failed.
    #[error("out of memory")]
    Memory,
    /// The first byte at which its line can't go on, the end of a line that lacks something, or the first byte of a
    /// reserved word.
    #[error("bad plan text")]
    Bad { place: Place },
}

impl From<Memory> for PlanTextError {
    ghost use Rattle.std.specs.Prelude.{◌≡◌};
    ghost use Rattle.plan_text.specs.declared.error.PlanTextError.TheVariants.{Memory as OutOfMemory};

    ghost from_gives = { λ _ e. e ≡ OutOfMemory };

    fn from(_: Memory) -> PlanTextError {
        PlanTextError::Memory
    }
}
