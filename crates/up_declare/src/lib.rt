//! What a domain and a problem declare: types, constants and objects, predicates and functions.
#![tactic(auto)]

mod declare;
mod types;

pub use declare::{declare_functions, declare_objects, declare_predicates};
pub use types::declared_types;
