//! Whether a plan is valid for a problem: each step can be taken, the goal is reached and every constraint is kept.
#![tactic(auto)]

mod judge;
mod phase;
mod run;
mod verdict;
mod watch;

pub use judge::validate;
pub use verdict::{StepFault, ValidateError, Verdict};
