//! Maps from a compiled problem's steps back to the source's, as texts.
#![tactic(auto)]

mod back_error;
mod converting;
mod cut;
mod entry;
mod law;
mod map;
mod map_error;
mod number;
mod read;
mod steps;
mod write;

pub use back_error::BackError;
pub use converting::back;
pub use law::{map_text_law, written_map_law, written_reads_back};
pub use map::Map;
pub use map_error::MapError;
pub use read::read_map;
pub use write::{MapPieces, map_pieces, write_map};
