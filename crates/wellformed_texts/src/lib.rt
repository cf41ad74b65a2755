//! Laws of what texts are read as: their numbers are literals, their forms are lawful, and the problem is well-formed.
#![tactic(auto)]

mod laws;

pub use laws::{
    domains_are_lawful, number_tokens_are_literals, problems_are_lawful,
    read_texts_are_well_formed, trees_have_literals,
};
