//! Laws of the shapes of written texts: their tokens form bracket trees, which are read as the problem's abstract syntax.
#![tactic(auto)]

mod laws;

pub use laws::{
    actions_are_formed, conditions_are_formed, domain_is_formed, domain_is_read,
    effects_are_formed, problem_is_formed, problem_is_read,
};
