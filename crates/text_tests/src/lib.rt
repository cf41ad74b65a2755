//! Tests of texts, names, fractions, stores and lines. A crate's tests are proved together with the whole crate, so these
//! stand apart from what they run.
#![tactic(auto)]

#[cfg(test)]
mod fractions;
#[cfg(test)]
mod fresh_names;
#[cfg(test)]
mod lines;
#[cfg(test)]
mod storing;
#[cfg(test)]
mod text;
#[cfg(test)]
mod threes;
