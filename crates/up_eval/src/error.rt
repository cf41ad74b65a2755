use thiserror::Error;
use up_text::Memory;

/// A numerator or a denominator of at least 2^62 in size was met.
#[derive(Clone, Copy, Debug, PartialEq, Eq, Error)]
#[error("a number is too large")]
pub struct TooLarge;

/// Why a condition or a number isn't evaluated.
#[derive(Clone, Copy, Debug, PartialEq, Eq, Error)]
pub enum TruthError {
    /// An allocation failed.
    #[error("out of memory")]
    Memory,
    /// A numeric expression, or a part of one, has a value whose numerator or denominator is at least 2^62 in size.
    #[error("a number is too large")]
    TooLarge,
}

impl From<Memory> for TruthError {
    ghost use Rattle.std.specs.Prelude.{◌≡◌};
    ghost use Rattle.up_eval.specs.declared.error.TruthError.TheVariants.{Memory as OfMemory};

    ghost from_gives = { λ _ e. e ≡ OfMemory };

    fn from(_: Memory) -> TruthError {
        TruthError::Memory
    }
}

impl From<TooLarge> for TruthError {
    ghost use Rattle.std.specs.Prelude.{◌≡◌};
    ghost use Rattle.up_eval.specs.declared.error.TruthError.TheVariants.{TooLarge as OfTooLarge};

    ghost from_gives = { λ _ e. e ≡ OfTooLarge };

    fn from(_: TooLarge) -> TruthError {
        TruthError::TooLarge
    }
}
