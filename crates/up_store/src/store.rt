ghost use Rattle.std.specs.Prelude.{◌≡◌, ℕ, List, [], Option, IfSome, OnOk, OnErr, IsErrOf};
ghost use Rattle.up_store.specs.Outside.{Files, held_with, KeepsOrCuts, IsSuffix, ReadAnswers, Rose, NoneFalls};

use crate::{Pieces, Word};
use std::alloc::Global;
use thiserror::Error;
use up_text::Memory;

/// The longest text that a read gives, in bytes.
pub const INPUT_LIMIT: usize = 16_777_216;

/// Why a read gave no text.
#[derive(Clone, Copy, Debug, PartialEq, Eq, Error)]
pub enum ReadFail {
    /// An allocation failed.
    #[error("out of memory")]
    Memory,
    /// The store failed.
    #[error("the read failed")]
    Failed,
    /// Nothing is held under the name.
    #[error("no such file")]
    Missing,
    /// The text has more than `INPUT_LIMIT` bytes.
    #[error("the file is too large")]
    TooLarge,
}

impl From<Memory> for ReadFail {
    ghost use Rattle.std.specs.Prelude.{◌≡◌};
    ghost use Rattle.up_store.specs.declared.store.ReadFail.TheVariants.{Memory as OfMemory};

    ghost from_gives = { λ _ e. e ≡ OfMemory };

    fn from(_: Memory) -> ReadFail {
        ReadFail::Memory
    }
}

/// Why a write didn't put its text.
#[derive(Clone, Copy, Debug, PartialEq, Eq, Error)]
pub enum WriteFail {
    /// An allocation failed, and nothing was written.
    #[error("out of memory")]
    Memory,
    /// The store failed, and a prefix of the text may stand.
    #[error("the write failed")]
    Failed,
}

impl From<Memory> for WriteFail {
    ghost use Rattle.std.specs.Prelude.{◌≡◌};
    ghost use Rattle.up_store.specs.declared.store.WriteFail.TheVariants.{Memory as OfMemory};

    ghost from_gives = { λ _ e. e ≡ OfMemory };

    fn from(_: Memory) -> WriteFail {
        WriteFail::Memory
    }
}

/// Texts under names, as files in a folder.
pub trait Store {
    /// What is held under each name, where the store tells it.
    ghost held: { Self → Option Files };

    /// How often a read of each name failed.
    ghost faults: { Self → List ℕ → ℕ };

    /// How often a read of each name found nothing.
    ghost misses: { Self → List ℕ → ℕ };

    /// How often a read of each name found too long a text.
    ghost larges: { Self → List ℕ → ℕ };

    /// How often a write of each name failed.
    ghost losses: { Self → List ℕ → ℕ };

    /// The text under a name. `Memory`: an allocation failed; `Failed`: the store did; `Missing`: nothing is held under the name;
    /// `TooLarge`: the text is longer than `INPUT_LIMIT`.
    fn read(&mut self, alloc: Global, name: &Word) -> Result<Vec<u8>, ReadFail>
        ensures kept { held self.new ≡ held self.old }
        ensures answers { IfSome (held self.old) (λ files. ReadAnswers (files name.now) result) }
        ensures failed { IsErrOf result ReadFail.Failed → Rose (faults self.old name.now) (faults self.new name.now) }
        ensures missing { IsErrOf result ReadFail.Missing → Rose (misses self.old name.now) (misses self.new name.now) }
        ensures too_large { IsErrOf result ReadFail.TooLarge → Rose (larges self.old name.now) (larges self.new name.now) }
        ensures faults { NoneFalls (faults self.old) (faults self.new) }
        ensures misses { NoneFalls (misses self.old) (misses self.new) }
        ensures larges { NoneFalls (larges self.old) (larges self.new) }
        ensures losses { losses self.new ≡ losses self.old };

    /// Puts a text under a name, in place of what is held there. `Memory`: an allocation failed, and nothing was written;
    /// `Failed`: the store did, and a prefix of the text may stand.
    fn write(&mut self, alloc: Global, name: &Word, bytes: &[u8]) -> Result<(), WriteFail>
        ensures written { OnOk result (held self.new ≡ held_with name.now bytes.now (held self.old)) }
        ensures memory { IsErrOf result WriteFail.Memory → held self.new ≡ held self.old }
        ensures cut { IsErrOf result WriteFail.Failed → KeepsOrCuts name.now bytes.now (held self.old) (held self.new) }
        ensures failed { IsErrOf result WriteFail.Failed → Rose (losses self.old name.now) (losses self.new name.now) }
        ensures losses { NoneFalls (losses self.old) (losses self.new) }
        ensures faults { faults self.new ≡ faults self.old }
        ensures misses { misses self.new ≡ misses self.old }
        ensures larges { larges self.new ≡ larges self.old };

    /// Puts a text under a name, piece by piece. It is one call, and fails as `write` does.
    fn write_pieces<P: Pieces>(
        &mut self,
        alloc: Global,
        name: &Word,
        pieces: &mut P,
    ) -> Result<(), WriteFail>
        ensures written { OnOk result (held self.new ≡ held_with name.now (P.rest pieces.old) (held self.old)) }
        ensures memory { IsErrOf result WriteFail.Memory → held self.new ≡ held self.old }
        ensures cut { IsErrOf result WriteFail.Failed → KeepsOrCuts name.now (P.rest pieces.old) (held self.old) (held self.new) }
        ensures failed { IsErrOf result WriteFail.Failed → Rose (losses self.old name.now) (losses self.new name.now) }
        ensures losses { NoneFalls (losses self.old) (losses self.new) }
        ensures faults { faults self.new ≡ faults self.old }
        ensures misses { misses self.new ≡ misses self.old }
        ensures larges { larges self.new ≡ larges self.old }
        ensures end { OnOk result (P.rest pieces.new ≡ []) }
        ensures left { OnErr result (IsSuffix (P.rest pieces.new) (P.rest pieces.old)) };
}
