//! Tests of tokens, bracket trees and the shapes of PDDL texts. A crate's tests are proved together with the whole crate, so
//! these stand apart from what they run.
#![tactic(auto)]

#[cfg(test)]
mod lexing;
#[cfg(test)]
mod shapes;
