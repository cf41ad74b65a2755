//! Laws of reading, all passes together: what two texts spell, and at which fault they stop.
#![tactic(auto)]

mod laws;

pub use laws::{texts_are_read, texts_spell_or_stop};
