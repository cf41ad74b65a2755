//! Raw forms with places: the shapes of bracket trees.
#![tactic(auto)]

mod action;
mod bracket;
mod constraint;
mod domain;
mod effect;
mod formula;
mod head;
mod ident;
mod law;
mod problem;
mod raw;
mod section;
mod shape;
mod start;
mod symbol;
mod term;
mod title;
mod typed;

pub use domain::domain_form;
pub use formula::raw_formula;
pub use head::{Head, Quantifier};
pub use law::formula_law;
pub use problem::problem_form;
pub use raw::{
    DomainForm, Ident, Operator, ProblemForm, RawAction, RawCall, RawChange, RawConstraint,
    RawEffect, RawFormula, RawFunctions, RawGives, RawGround, RawGroup, RawInit, RawMetric,
    RawSymbol, RawTerm, RawValue, Relation,
};
pub use shape::ShapeError;
pub use term::raw_term;
pub use typed::variables;
