ghost use Rattle.std.specs.Prelude.{◌≡◌};

use crate::status::Status;
use crate::verdict::verdict_status;
use up_check::{File, Reason};
use up_kind::Kind;
use up_pipeline::{Chain, EngineError};
use up_text::{Name, Place};
use up_validate::Verdict;

/// Why a run ends early, where its words and a place in them say all.
#[derive(Clone, Copy, Debug, PartialEq, Eq)]
pub enum Stop {
    Usage,
    Memory,
    Missing { word: usize },
    ReadFault { word: usize },
    WriteFault { word: usize },
    NoPipeline,
    InputTooLarge { word: usize },
}

impl Stop {
    ghost use Rattle.up_top.specs.Answers.{stop_status};

    pub fn status(self) -> Status
        ensures { result ≡ stop_status self }
    {
        match self {
            Stop::Usage => Status::Usage,
            Stop::Memory => Status::Memory,
            Stop::Missing { word } => Status::Missing { word },
            Stop::ReadFault { word } => Status::ReadFault { word },
            Stop::WriteFault { word } => Status::WriteFault { word: Some(word) },
            Stop::NoPipeline => Status::NoPipeline,
            Stop::InputTooLarge { word } => Status::InputTooLarge { word },
        }
    }
}

/// What comes of a plan that a map converts.
#[derive(Drop)]
pub enum Conversion {
    /// The line with this number is no line of a map.
    BadLine(usize),
    /// The line with this number is the second of its action.
    SecondLine(usize),
    /// The reading of the plan stops.
    Unspelled(Place),
    /// The map has no entry for the action of the step with this number, or one for another number of arguments.
    Unfit(usize),
    /// What the converted plan is for its problem.
    Judged(Verdict),
    /// A number past the bound is met before the converted plan is judged, at the step with this number.
    TooLarge(usize),
}

impl Conversion {
    ghost use Rattle.up_top.specs.Answers.{conversion_status};

    fn status(&self) -> Status
        ensures { result ≡ conversion_status self.now }
    {
        match self {
            Conversion::BadLine(_) => Status::MapRefused,
            Conversion::SecondLine(_) => Status::MapRefused,
            Conversion::Unspelled(_) => Status::PlanRefused,
            Conversion::Unfit(_) => Status::PlanUnfit,
            Conversion::Judged(verdict) => verdict_status(verdict),
            Conversion::TooLarge(_) => Status::NumberTooLarge,
        }
    }
}

/// What a run has to say, with all that its text needs besides the words.
#[derive(Drop)]
pub enum Answer {
    /// The features that a problem carries.
    Features(Kind),
    /// The chosen compilers.
    Chain(Chain),
    /// How many compiled actions were written.
    Actions(usize),
    /// The reading of a problem stops.
    Refused {
        file: File,
        place: Place,
        reason: Reason,
        name: Option<Name>,
    },
    /// The reading of an engine stops.
    Unread(EngineError),
    /// What a plan is for its problem.
    Judged(Verdict),
    /// The reading of a plan stops.
    Unspelled(Place),
    /// A number past the bound is met before a plan is judged, at the step with this number.
    TooLarge(usize),
    /// What comes of the conversion of a plan.
    Converted(Conversion),
    Stopped(Stop),
}

impl Answer {
    ghost use Rattle.up_top.specs.Answers.{status_of};

    pub fn status(&self) -> Status
        ensures { result ≡ status_of self.now }
    {
        match self {
            Answer::Features(_) => Status::Done,
            Answer::Chain(_) => Status::Done,
            Answer::Actions(_) => Status::Done,
            Answer::Refused {
                file: File::Domain,
                ..
            } => Status::DomainRefused,
            Answer::Refused {
                file: File::Problem,
                ..
            } => Status::ProblemRefused,
            Answer::Unread(EngineError::Memory) => Status::Memory,
            Answer::Unread(_) => Status::EngineRefused,
            Answer::Judged(verdict) => verdict_status(verdict),
            Answer::Unspelled(_) => Status::PlanRefused,
            Answer::TooLarge(_) => Status::NumberTooLarge,
            Answer::Converted(conversion) => conversion.status(),
            Answer::Stopped(stop) => stop.status(),
        }
    }
}
