ghost use Rattle.std.specs.Prelude.{◌≡◌};
ghost use Rattle.up_eval.specs.Steps.{error_of};

use crate::error::{TooLarge, TruthError};
use crate::step_error::{StepError, Why};
use up_text::Memory;

/// What stops an action's effects from taking place.
#[derive(Clone, Copy, Debug, PartialEq, Eq)]
pub(crate) enum Stop {
    Memory,
    TooLarge,
    Refused(Why),
}

impl From<Memory> for Stop {
    ghost use Rattle.std.specs.Prelude.{◌≡◌};
    ghost use Rattle.up_eval.specs.declared.stop.Stop.TheVariants.{Memory as OfMemory};

    ghost from_gives = { λ _ e. e ≡ OfMemory };

    fn from(_: Memory) -> Stop {
        Stop::Memory
    }
}

impl From<TruthError> for Stop {
    ghost use Rattle.std.specs.Prelude.{◌≡◌};
    ghost use Rattle.up_eval.specs.Steps.{stop_of};

    ghost from_gives = { λ error e. e ≡ stop_of error };

    fn from(error: TruthError) -> Stop {
        match error {
            TruthError::Memory => Stop::Memory,
            TruthError::TooLarge => Stop::TooLarge,
        }
    }
}

impl From<TooLarge> for Stop {
    ghost use Rattle.std.specs.Prelude.{◌≡◌};
    ghost use Rattle.up_eval.specs.declared.stop.Stop.TheVariants.{TooLarge as OfTooLarge};

    ghost from_gives = { λ _ e. e ≡ OfTooLarge };

    fn from(_: TooLarge) -> Stop {
        Stop::TooLarge
    }
}

impl Stop {
    pub(crate) fn error(self) -> StepError
        ensures { result ≡ error_of self }
    {
        match self {
            Stop::Memory => StepError::Memory,
            Stop::TooLarge => StepError::TooLarge,
            Stop::Refused(why) => StepError::NotApplicable { why },
        }
    }
}
