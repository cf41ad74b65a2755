ghost use Rattle.std.specs.Prelude.{◌≡◌, ◌↔◌, IfOk, IsErrOf, IsUtf8, string_bytes};

use std::alloc::Global;
use std::marker::Model;
use std::str;
use thiserror::Error;
use up_text::Memory;

/// A word of the command line or a file's name, which contracts see as its bytes.
#[derive(Debug, Drop)]
pub struct Word {
    text: String,
}

impl Model for Word {
    ghost use Rattle.std.specs.Prelude.{ℕ, List, string_bytes};

    ghost Value = { List ℕ };

    ghost view = { λ w. string_bytes w.text };
}

/// Why bytes are no word.
#[derive(Clone, Copy, Debug, PartialEq, Eq, Error)]
pub enum WordError {
    /// An allocation failed.
    #[error("out of memory")]
    Memory,
    /// The bytes aren't UTF-8.
    #[error("the word isn't UTF-8")]
    NotText,
}

impl From<Memory> for WordError {
    ghost use Rattle.std.specs.Prelude.{◌≡◌};
    ghost use Rattle.up_store.specs.declared.word.WordError.TheVariants.{Memory as OfMemory};

    ghost from_gives = { λ _ e. e ≡ OfMemory };

    fn from(_: Memory) -> WordError {
        WordError::Memory
    }
}

impl Word {
    /// The word with these bytes. `NotText`: they aren't UTF-8; `Memory`: an allocation failed.
    pub fn read(alloc: Global, bytes: &[u8]) -> Result<Word, WordError>
        ensures ok { IfOk result (λ word. (word ≡ bytes.now) × IsUtf8 bytes.now) }
        ensures not_text { IsErrOf result WordError.NotText ↔ (¬ IsUtf8 bytes.now) }
    {
        let Ok(text) = str::from_utf8(bytes) else {
            return Err(WordError::NotText);
        };
        match String::from_str(alloc, text) {
            Ok(text) => Ok(Word { text }),
            Err(_) => Err(WordError::Memory),
        }
    }

    /// The word with this text.
    pub fn from_text(text: String) -> Word
        ensures { result ≡ string_bytes text }
    {
        Word { text }
    }

    /// The text.
    pub fn text(&self) -> &str
        ensures { result.now ≡ self.now }
    {
        self.text.as_str()
    }

    /// The bytes of the text.
    pub fn bytes(&self) -> &[u8]
        ensures { result.now ≡ self.now }
    {
        self.text.as_bytes()
    }
}
