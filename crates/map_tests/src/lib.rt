//! Tests of plan texts, maps, engine texts and chosen compilers, over the crates that read and write them. A crate's tests are
//! proved together with the whole crate, so these stand apart.
#![tactic(auto)]

#[cfg(test)]
mod engines;
#[cfg(test)]
mod maps;
#[cfg(test)]
mod plans;
