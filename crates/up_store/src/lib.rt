//! The outside as traits: a store of named texts and a sink of bytes.
#![tactic(auto)]

mod folder;
mod memory_sink;
mod memory_store;
mod pieces;
mod sink;
mod std_sink;
mod store;
mod word;

pub use folder::FolderStore;
pub use memory_sink::MemorySink;
pub use memory_store::{Failing, MemoryStore};
pub use pieces::Pieces;
pub use sink::{Sink, SinkFailed};
pub use std_sink::StdSink;
pub use store::{INPUT_LIMIT, ReadFail, Store, WriteFail};
pub use word::{Word, WordError};
