//! Actions: their parameters, preconditions and the rows of their effects.
#![tactic(auto)]

mod action;
mod effect;

pub use action::checked_action;
