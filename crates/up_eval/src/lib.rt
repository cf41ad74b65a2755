//! States of planning problems, what conditions and metrics are in them, and the state after a step.
#![tactic(auto)]

mod arguments;
mod changes;
mod copies;
mod error;
mod firing;
mod gathering;
mod ground;
mod index;
mod metric;
mod next;
mod number;
mod scope;
mod state;
mod step;
mod step_error;
mod stop;
mod table;
mod truth;
mod unassigned;
mod value;

pub use error::{TooLarge, TruthError};
pub use index::Index;
pub use metric::Value;
pub use scope::{Binding, assigned, tuples};
pub use state::State;
pub use step_error::{StepError, Why};
pub use up_tree::Truth;
