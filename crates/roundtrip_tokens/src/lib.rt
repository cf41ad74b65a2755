//! Laws of the tokens of written texts: they are those that stand for the problem's parts.
#![tactic(auto)]

mod laws;

pub use laws::{domain_is_spelled, problem_is_spelled};
