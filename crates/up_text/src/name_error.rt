use crate::memory::Memory;
use std::alloc::AllocError;
use thiserror::Error;

/// Why bytes are not read as a name.
#[derive(Clone, Copy, Debug, PartialEq, Eq, Error)]
pub enum NameError {
    /// An allocation failed.
    #[error("out of memory")]
    Memory,
    /// The bytes are not a letter followed by letters, digits, `-` and `_`.
    #[error("not a name")]
    NotAName,
    /// The bytes are a reserved word, in any case of its letters.
    #[error("a reserved word")]
    Reserved,
}

impl From<Memory> for NameError {
    ghost use Rattle.std.specs.Prelude.{◌≡◌};
    ghost use Rattle.up_text.specs.declared.name_error.NameError.TheVariants.{Memory as OfMemory};

    ghost from_gives = { λ _ e. e ≡ OfMemory };

    fn from(_: Memory) -> NameError {
        NameError::Memory
    }
}

impl From<AllocError> for NameError {
    ghost use Rattle.std.specs.Prelude.{◌≡◌};
    ghost use Rattle.up_text.specs.declared.name_error.NameError.TheVariants.{Memory as OfMemory};

    ghost from_gives = { λ _ e. e ≡ OfMemory };

    fn from(_: AllocError) -> NameError {
        NameError::Memory
    }
}
