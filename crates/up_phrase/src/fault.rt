ghost use Rattle.std.specs.Prelude.{◌≡◌};
ghost use Rattle.up_phrase.specs.Named.{at, bare};

use crate::reason::Reason;
use std::alloc::Global;
use up_text::{Memory, Name, Place};

/// Why a text isn't checked to its end.
#[derive(Debug, Drop)]
pub enum Fault {
    Memory,
    /// The first fault of the text.
    At {
        place: Place,
        reason: Reason,
        name: Option<Name>,
    },
}

impl From<Memory> for Fault {
    ghost use Rattle.std.specs.Prelude.{◌≡◌};
    ghost use Rattle.up_phrase.specs.declared.fault.Fault.TheVariants.{Memory as OutOfMemory};

    ghost from_gives = { λ _ e. e ≡ OutOfMemory };

    fn from(_memory: Memory) -> Fault {
        Fault::Memory
    }
}

/// The fault of a name.
pub fn named(alloc: Global, place: Place, reason: Reason, name: &Name) -> Fault
    ensures { ¬ (result ≡ Fault.Memory) → result ≡ at place reason name.now }
{
    match name.copy(alloc) {
        Ok(name) => Fault::At {
            place,
            reason,
            name: Some(name),
        },
        Err(Memory) => Fault::Memory,
    }
}

/// The fault of what has no name.
pub fn bare(place: Place, reason: Reason) -> Fault
    ensures { result ≡ bare place reason }
{
    Fault::At {
        place,
        reason,
        name: None,
    }
}
