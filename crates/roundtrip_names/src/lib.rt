//! Laws of what the names in written texts are read as: each phrase as itself, and what is declared as declared.
#![tactic(auto)]

mod laws;

pub use laws::{
    actions_are_named, conditions_are_named, each_function_is_named, effects_are_named,
    expressions_are_named, functions_are_named, objects_are_named, parts_are_declared,
    plain_conditions_are_named, plain_expressions_are_named, predicates_are_named, terms_are_named,
    types_are_named, types_are_written,
};
