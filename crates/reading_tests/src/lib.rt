//! What tests look at of a problem, and tests of reading, of written texts and of states: which problem two texts read
//! as, the texts that are written of a problem, what holds where it begins, and what a step answers there. A crate's tests
//! are proved together with the whole crate, so these stand apart from the reader, the writer and the evaluator that they
//! run.
#![tactic(auto)]

mod looks;

pub use looks::{Counts, are_names, are_typed, is_name, is_text, is_typed};

#[cfg(test)]
mod reading;
#[cfg(test)]
mod states;
#[cfg(test)]
mod writing;
#[cfg(test)]
mod written_texts;
