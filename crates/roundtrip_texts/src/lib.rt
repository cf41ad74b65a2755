//! Laws of what written texts are read as: a domain as what is known of it, a problem as itself, and both texts as the problem.
#![tactic(auto)]

mod laws;

pub use laws::{
    domain_is_named, domain_reads_as, problem_is_named, problem_reads_as,
    written_problems_read_back,
};
