//! Engines, and the choice of a chain of compilers for one.
#![tactic(auto)]

mod chooser;
mod engine;
mod read;
mod search;

pub use chooser::{ChooseError, choose, choose_among};
pub use engine::{Engine, EngineError};
pub use up_compiler::Chain;
