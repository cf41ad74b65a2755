//! Domains and problems as PDDL text, whole and piece by piece.
#![tactic(auto)]

mod declare;
mod domain;
mod effect;
mod expr;
mod formula;
mod number;
mod phrase;
mod problem;
mod term;
mod write;

pub use write::{
    DomainPieces, ProblemPieces, domain_pieces, problem_pieces, write_domain, write_problem,
};
