use thiserror::Error;
use up_text::Memory;

/// Why bytes are no map text. Lines are counted from 1.
#[derive(Clone, Copy, Debug, PartialEq, Eq, Error)]
pub enum MapError {
    /// An allocation failed.
    #[error("out of memory")]
    Memory,
    /// This line doesn't fit, or is missing.
    #[error("bad map line")]
    Bad { line: usize },
    /// The action of this line has an entry on an earlier one.
    #[error("second map line of an action")]
    DoubleName { line: usize },
}

impl From<Memory> for MapError {
    ghost use Rattle.std.specs.Prelude.{◌≡◌};
    ghost use Rattle.up_map.specs.declared.map_error.MapError.TheVariants.{Memory as OutOfMemory};

    ghost from_gives = { λ _ e. e ≡ OutOfMemory };

    fn from(_: Memory) -> MapError {
        MapError::Memory
    }
}
