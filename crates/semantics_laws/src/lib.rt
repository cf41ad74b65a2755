//! Laws that show that values, truth and steps are defined as they are meant.
#![tactic(auto)]

mod laws;
mod named;

pub use laws::{
    named_parts_decide, plans_depend_on_named_parts, rest_stays, steps_depend_on_named_parts,
    substitution_assigns,
};
pub use named::names_predicate;
