ghost use Rattle.std.specs.Prelude.{◌≡◌};
ghost use Rattle.pddl_lex.specs.declared.error.LexError.TheVariants.{Memory};

use thiserror::Error;
use up_text::{Memory, Place};

/// Why a text has no tokens or no bracket trees.
#[derive(Clone, Copy, Debug, PartialEq, Eq, Error)]
pub enum LexError {
    /// An allocation failed.
    #[error("out of memory")]
    Memory,
    /// A byte that begins no token.
    #[error("bad byte")]
    BadByte { place: Place },
    /// A number of more than 18 digits, of more than 9 behind its point, or with a letter, a digit, `_`, `-` or `.`
    /// directly behind it.
    #[error("bad number")]
    BadNumber { place: Place },
    /// A `)` without its `(`.
    #[error("unopened bracket")]
    Unopened { place: Place },
    /// A `(` inside 200 brackets.
    #[error("brackets too deep")]
    TooDeep { place: Place },
    /// The innermost `(` that is open at the end of the text.
    #[error("unclosed bracket")]
    Unclosed { place: Place },
}

impl From<Memory> for LexError {
    ghost from_gives = { λ _ e. e ≡ Memory };

    fn from(_: Memory) -> LexError {
        LexError::Memory
    }
}
