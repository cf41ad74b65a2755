//! Texts that are written phrase by phrase, and handed out piece by piece without taking memory.
#![tactic(auto)]

mod line;
mod piecewise;
mod steps;

pub use line::Line;
pub use piecewise::Piecewise;
pub use steps::{Steps, longest_piece, whole_text};
