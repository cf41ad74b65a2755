//! The run of the program, with what a compile that is done promises.
#![tactic(auto)]

mod top;

pub use top::run;
