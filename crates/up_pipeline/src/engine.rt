ghost use Rattle.std.specs.Prelude.{◌≡◌};
ghost use Rattle.up_kind.specs.Features.{has};
ghost use Rattle.up_pipeline.specs.Chains.{accepts};

use thiserror::Error;
use up_kind::Kind;
use up_text::{List, Memory};

/// What an engine takes.
#[derive(Debug, Drop)]
pub struct Engine {
    /// Its name, in UTF-8.
    pub name: List<u8>,
    /// The features that it lists, all of them visible where it was read from a text.
    pub features: Kind,
}

impl Engine {
    /// Whether the engine lists each visible feature of a kind.
    pub fn accepts(&self, kind: Kind) -> bool
        ensures { result ≡ accepts (has self.now.features.0) (has kind.0) }
    {
        kind.visible().is_subset(self.features)
    }
}

/// Why bytes are no engine text; the first cause of this order.
#[derive(Debug, Drop, Error)]
pub enum EngineError {
    /// An allocation failed.
    #[error("out of memory")]
    Memory,
    /// The bytes are no TOML document.
    #[error("toml")]
    Toml,
    /// A key is neither `name` nor `features`; the least such key in byte order.
    #[error("unknown-key")]
    UnknownKey { word: List<u8> },
    /// This key is missing.
    #[error("no-key")]
    NoKey { word: List<u8> },
    /// The value of this key isn't of its type.
    #[error("wrong-type")]
    WrongType { word: List<u8> },
    /// This string is no visible feature's name; the first such string.
    #[error("unknown-feature")]
    UnknownFeature { word: List<u8> },
}

impl From<Memory> for EngineError {
    ghost use Rattle.std.specs.Prelude.{◌≡◌};
    ghost use Rattle.up_pipeline.specs.declared.engine.EngineError.TheVariants.{Memory as OutOfMemory};

    ghost from_gives = { λ _ e. e ≡ OutOfMemory };

    fn from(_memory: Memory) -> EngineError {
        EngineError::Memory
    }
}
