//! What a compiler is: its row of the table, and the map back to the source's steps.
#![tactic(auto)]

mod back;
mod composing;
mod entry_table;
mod id;
mod identities;
mod laws;
mod table;

pub use back::{Back, Compiled, Entry, Item, Target};
pub use composing::compose;
pub use entry_table::EntryTable;
pub use id::{Chain, CompilerId};
pub use identities::identity;
pub use laws::{composed_converts_twice, identity_keeps_plans, rows_keep_subsets};
pub use table::{admits, row_result};
