//! The top call: words, a store and a sink in, a status out.
#![tactic(auto)]

mod answer;
mod ask;
mod back;
mod command;
mod compile;
mod converted;
mod judge;
mod limit;
mod lists;
mod put;
mod read;
mod say;
mod status;
mod top;
mod verdict;
mod whole;
mod words;
mod write;

pub use command::Command;
pub use status::Status;
pub use top::run;
pub use words::command_of;
