ghost use Rattle.std.specs.Prelude.{◌≡◌, [], ◌∷◌, ◌++◌, not, IsTrue, IfOk, OnOk, OnErr};
ghost use Rattle.up_text.specs.Names.{is_spelled};
ghost use Rattle.up_text.specs.Fresh.{is_among, with_name, fresh_name, AreTaken, IsFresh};

use crate::base::Base;
use indexmap::IndexMap;
use std::alloc::Global;
use std::marker::Model;
use up_text::{Memory, Name, NameSet, fresh_from};

/// A set of names that makes fresh ones, which contracts see as the names in the order in which they were added.
///
/// It keeps for each base the number of the last name made over it, and goes on from there: n names over one base take
/// at most 2n look-ups more than there were candidates among the names before.
#[derive(Drop)]
pub struct FreshNames {
    names: NameSet,
    last: IndexMap<Base, u64>,
}

impl Model for FreshNames {
    ghost use Rattle.std.specs.Prelude.{List, ℕ};
    ghost use Rattle.up_fresh.specs.Going.{IsGoing};

    ghost Value = { List (List ℕ) };

    ghost view = { λ fresh. fresh.names };

    ghost invariant = { λ fresh. IsGoing fresh.names fresh.last };
}

impl FreshNames {
    /// No names. It keeps `alloc` for what is added, and allocates nothing.
    pub fn new(alloc: Global) -> FreshNames
        ensures { result ≡ [] }
    {
        FreshNames {
            names: NameSet::new(alloc),
            last: IndexMap::new(alloc),
        }
    }

    /// Adds the name where it is new, and says whether it was. `Memory`: an allocation failed; the names are as they were.
    pub fn add(&mut self, name: Name) -> Result<bool, Memory>
        ensures names { OnOk result (self.new ≡ with_name self.old name) }
        ensures added { IfOk result (λ added. added ≡ not (is_among self.old name)) }
        ensures err { OnErr result (self.new ≡ self.old) }
    {
        self.names.add(name)
    }

    /// Whether the name is among the names.
    pub fn has(&self, name: &Name) -> bool
        ensures { result ≡ is_among self.now name.now }
    {
        self.names.has(name)
    }

    /// The first of `base`, `base-1`, `base-2`, .. that is neither among the names nor reserved, which is then among them.
    ///
    /// The base is spelled as a name in lower case, and may be a reserved word. `Memory`: an allocation failed; the names are
    /// as they were.
    pub fn next(&mut self, alloc: Global, base: &[u8]) -> Result<Name, Memory>
        requires { IsTrue (is_spelled base.now) }
        ensures fresh { IfOk result (IsFresh base.now self.old) }
        ensures value { IfOk result (λ name. name ≡ fresh_name base.now self.old) }
        ensures names { IfOk result (λ name. self.new ≡ self.old ++ name ∷ []) }
        ensures err { OnErr result (self.new ≡ self.old) }
    {
        let key = Base::of_bytes(alloc, base)?;
        let start = self.start(&key);
        let found = fresh_from(alloc, base, start, &self.names)?;
        let name = found.name.copy(alloc)?;
        self.last.insert(key, found.number)?;
        self.add(name)?;
        Ok(found.name)
    }

    // The number below which all candidates of the base are taken.
    fn start(&self, base: &Base) -> u64
        ensures { AreTaken base.now self.now result }
    {
        match self.last.get(base) {
            None => 0,
            Some(number) => *number,
        }
    }
}
