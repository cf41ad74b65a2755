//! Many fresh names, each found from where the last one over its base was.
#![tactic(auto)]

mod base;
mod fresh_names;

pub use fresh_names::FreshNames;
