ghost use Rattle.std.specs.Prelude.{◌≡◌, ◌<◌, ◌^◌, [], length, not, IfOk, OnOk, OnErr};
ghost use Rattle.up_text.specs.Fresh.{is_among, with_name};

use crate::memory::Memory;
use crate::name::Name;
use indexmap::IndexSet;
use std::alloc::Global;
use std::marker::Model;

/// A set of names, which contracts see as the names in the order in which they were added.
#[derive(Drop)]
pub struct NameSet {
    names: IndexSet<Name>,
}

impl Model for NameSet {
    ghost use Rattle.std.specs.Prelude.{List, ℕ};

    ghost Value = { List (List ℕ) };

    ghost view = { λ set. set.names.keys };
}

impl NameSet {
    /// The empty set. It keeps `alloc` for what is added, and allocates nothing.
    pub fn new(alloc: Global) -> NameSet
        ensures { result ≡ [] }
    {
        NameSet {
            names: IndexSet::new(alloc),
        }
    }

    /// Adds the name where it is new, and says whether it was.
    pub fn add(&mut self, name: Name) -> Result<bool, Memory>
        ensures names { OnOk result (self.new ≡ with_name self.old name) }
        ensures added { IfOk result (λ added. added ≡ not (is_among self.old name)) }
        ensures err { OnErr result (self.new ≡ self.old) }
    {
        Ok(self.names.insert(name)?)
    }

    // The number of names.
    pub(crate) fn len(&self) -> usize
        ensures len { result ≡ length self.now }
        ensures small { result < 2 ^ 63 }
    {
        self.names.len()
    }

    /// Whether the name is in the set.
    pub fn has(&self, name: &Name) -> bool
        ensures { result ≡ is_among self.now name.now }
    {
        self.names.contains(name)
    }
}
