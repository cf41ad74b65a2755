//! Tests of the run of the program, over a store and a sink in memory: the bytes that each command puts and writes, each status,
//! and what stands after a fault. A crate's tests are proved together with the whole crate, so these stand apart.
#![tactic(auto)]

#[cfg(test)]
mod back;
#[cfg(test)]
mod compile;
#[cfg(test)]
mod kind;
#[cfg(test)]
mod pipeline;
#[cfg(test)]
mod runs;
#[cfg(test)]
mod store;
#[cfg(test)]
mod texts;
#[cfg(test)]
mod validate;
