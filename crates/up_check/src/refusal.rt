use thiserror::Error;
use up_phrase::Reason;
use up_text::{Memory, Name, Place};

/// Which of the two texts.
#[derive(Clone, Copy, Debug, PartialEq, Eq)]
pub enum File {
    Domain,
    Problem,
}

/// Why two texts aren't read as a problem.
#[derive(Debug, Drop, Error)]
pub enum ReadError {
    /// An allocation failed.
    #[error("out of memory")]
    Memory,
    /// The first fault of the texts, the domain's before the problem's. The name is the one at fault, folded, where there is one;
    /// of a variable it is the name without `?`.
    #[error("{}:{}: {}", .place.line, .place.column, .reason.word())]
    Refused {
        file: File,
        place: Place,
        reason: Reason,
        name: Option<Name>,
    },
}

impl From<Memory> for ReadError {
    ghost use Rattle.std.specs.Prelude.{◌≡◌};
    ghost use Rattle.up_check.specs.declared.refusal.ReadError.TheVariants.{Memory as OutOfMemory};

    ghost from_gives = { λ _ e. e ≡ OutOfMemory };

    fn from(_memory: Memory) -> ReadError {
        ReadError::Memory
    }
}
