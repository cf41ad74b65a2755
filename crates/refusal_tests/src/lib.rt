//! Texts with a mark, and tests of refused texts, whose marks stand at the place of their first fault: its place, reason
//! and name. A crate's tests are proved together with the whole crate, so these stand apart from the reader that they run.
#![tactic(auto)]

mod mark;

pub use mark::{Marked, at_mark, without_mark};

#[cfg(test)]
mod refusals;
#[cfg(test)]
mod refused_texts;
