//! Laws of pass 3: what raw forms denote where names are declared, and that they are read so exactly.
#![tactic(auto)]

mod laws;

pub use laws::{
    action_is_read, actions_are_read, conditions_are_read, constraints_are_read,
    declarations_are_read, domains_are_read, effects_are_read, expressions_are_read,
    initial_states_are_read, metrics_are_read, objects_are_read, problems_are_read,
    symbols_are_read, terms_are_read, types_are_read,
};
