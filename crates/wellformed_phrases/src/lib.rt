//! Laws of what is read: it is well-formed.
#![tactic(auto)]

mod laws;

pub use laws::{
    read_actions_are_well_formed, read_conditions_are_well_formed,
    read_constraints_are_well_formed, read_declarations_are_sound,
    read_expressions_are_well_formed, read_forms_are_well_formed,
    read_initial_states_are_well_formed, read_metrics_are_well_formed, read_terms_are_well_formed,
    read_types_are_sound, sound_declarations_agree,
};
