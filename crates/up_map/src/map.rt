ghost use Rattle.std.specs.Prelude.{◌≡◌};
ghost use Rattle.std.specs.Option.{option_copied};
ghost use Rattle.up_compiler.specs.Back.{entry_named};

use up_compiler::{Back, Chain, Entry};
use up_text::Name;

/// The compilers that ran, and what the steps of the last problem become in the first.
#[derive(Debug, Drop)]
pub struct Map {
    pub stages: Chain,
    pub back: Back,
}

impl Map {
    /// The entry for an action, found by looking through them all.
    pub fn find(&self, action: &Name) -> Option<&Entry>
        ensures { option_copied result ≡ entry_named self.now.back action.now }
    {
        let entries = self.back.entries();
        entries
            .as_slice()
            .iter()
            .find(|entry| &entry.action == action)
    }
}
