//! Plan files: a step a line.
#![tactic(auto)]

mod bytes;
mod error;
mod law;
mod line;
mod line_fault;
mod part;
mod read;
mod word;
mod write;

pub use error::PlanTextError;
pub use law::plan_text_law;
pub use read::read_plan;
pub use write::write_plan;
