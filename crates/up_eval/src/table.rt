ghost use Rattle.std.specs.Prelude.{◌≡◌, IfOk, OnOk, OnErr, Some};
ghost use Rattle.std.specs.Option.{option_copied};
ghost use Rattle.std.specs.FinSet as set;
ghost use Rattle.std.specs.FinMap as table;
ghost use Rattle.up_tree.specs.Changes.{put};
ghost use Rattle.up_eval.specs.Gathering.{put_numbers, put_objects};

use crate::changes::ObjectChange;
use crate::copies::{atoms_copy, numbers_copy, values_copy};
use crate::gathering::{NewNumber, value_copy};
use crate::ground::Ground;
use std::alloc::Global;
use std::collections::{BTreeMap, BTreeSet};
use std::marker::Model;
use up_frac::Frac;
use up_text::{List, Memory, Name};

/// A set of ground atoms.
#[derive(Drop)]
pub(crate) struct Atoms {
    keys: BTreeSet<Ground>,
}

impl Model for Atoms {
    ghost use Rattle.up_tree.specs.State.{ground_cmp};
    ghost use Rattle.std.specs.FinSet as set;
    ghost use Rattle.std.specs.Coded.{coded_list, coded_ℕ};

    ghost Value = { set.FinSet ground_cmp };

    ghost coded = { set.code (coded_list (coded_list coded_ℕ)) };

    ghost view = { λ atoms. set.from_list atoms.keys.keys };
}

impl Atoms {
    pub(crate) fn new(alloc: Global) -> Atoms
        ensures { result ≡ set.empty }
    {
        Atoms {
            keys: BTreeSet::new(alloc),
        }
    }

    pub(crate) fn has(&self, atom: &Ground) -> bool
        ensures { result ≡ set.contains self.now atom.now }
    {
        self.keys.contains(atom)
    }

    pub(crate) fn insert(&mut self, atom: Ground) -> Result<(), Memory>
        ensures { OnOk result (self.new ≡ set.insert self.old atom) }
    {
        self.keys.insert(atom)?;
        Ok(())
    }

    fn remove(&mut self, atom: &Ground)
        ensures { self.new ≡ set.remove self.old atom.now }
    {
        self.keys.remove(atom);
    }

    pub(crate) fn copy(&self, alloc: Global) -> Result<Atoms, Memory>
        ensures { IfOk result (λ copy. copy ≡ self.now) }
    {
        atoms_copy(alloc, &self.keys)
    }

    /// The set without these atoms.
    #[tactic(auto, using(crate::proofs::Maps::puts))]
    pub(crate) fn without(self, atoms: &[Ground]) -> Atoms
        ensures { result ≡ set.difference self (set.from_list atoms.now) }
    {
        let mut left = self;
        for atom in atoms {
            left.remove(atom);
        }
        left
    }

    /// The set with these atoms.
    #[tactic(auto, using(crate::proofs::Maps::puts))]
    pub(crate) fn with(self, atoms: List<Ground>) -> Result<Atoms, Memory>
        ensures { IfOk result (λ all. all ≡ set.union self (set.from_list atoms)) }
    {
        let mut all = self;
        let mut left = atoms;
        'atoms: while let Some(atom) = left.pop() {
            all.insert(atom)?;
        }
        Ok(all)
    }
}

/// A map from ground terms.
#[derive(Drop)]
pub(crate) struct Table<V> {
    entries: BTreeMap<Ground, V>,
}

impl<V> Model for Table<V> {
    ghost use Rattle.up_tree.specs.State.{ground_cmp};
    ghost use Rattle.std.specs.FinMap as table;
    ghost use Rattle.std.specs.Coded.{coded_list, coded_ℕ};

    ghost Value = { table.FinMap ground_cmp V };

    ghost coded = { table.code (coded_list (coded_list coded_ℕ)) V.code };

    ghost view = { λ it. table.from_entries it.entries.entries };
}

impl<V> Table<V> {
    pub(crate) fn new(alloc: Global) -> Table<V>
        ensures { result ≡ table.empty }
    {
        Table {
            entries: BTreeMap::new(alloc),
        }
    }

    pub(crate) fn get(&self, term: &Ground) -> Option<&V>
        ensures { option_copied result ≡ table.get self.now term.now }
    {
        self.entries.get(term)
    }

    pub(crate) fn entries(&self) -> &BTreeMap<Ground, V>
        ensures { table.from_entries result.now.entries ≡ self.now }
    {
        &self.entries
    }
}

impl<V: Drop> Table<V> {
    pub(crate) fn insert(&mut self, term: Ground, value: V) -> Result<(), Memory>
        ensures { OnOk result (self.new ≡ table.insert self.old term value) }
    {
        self.entries.insert(term, value)?;
        Ok(())
    }

    fn remove(&mut self, term: &Ground)
        ensures { self.new ≡ table.remove self.old term.now }
    {
        self.entries.remove(term);
    }

    fn put(&mut self, term: Ground, value: Option<V>) -> Result<(), Memory>
        ensures { OnOk result (self.new ≡ put self.old term value) }
    {
        match value {
            Some(value) => self.insert(term, value)?,
            None => self.remove(&term),
        }
        Ok(())
    }
}

impl Table<Frac> {
    pub(crate) fn copy(&self, alloc: Global) -> Result<Table<Frac>, Memory>
        ensures { IfOk result (λ copy. copy ≡ self.now) }
    {
        numbers_copy(alloc, &self.entries)
    }

    /// The table with the new numbers, put in turn.
    #[tactic(auto, using(crate::proofs::Maps::puts))]
    pub(crate) fn with_numbers(
        self,
        alloc: Global,
        news: &[NewNumber],
    ) -> Result<Table<Frac>, Memory>
        ensures { IfOk result (λ all. all ≡ put_numbers self news.now) }
    {
        let mut all = self;
        for new in news {
            all.put(new.target.copy(alloc)?, new.value)?;
        }
        Ok(all)
    }
}

impl Table<Name> {
    pub(crate) fn copy(&self, alloc: Global) -> Result<Table<Name>, Memory>
        ensures { IfOk result (λ copy. copy ≡ self.now) }
    {
        values_copy(alloc, &self.entries)
    }

    /// The table with the new objects, put in turn.
    #[tactic(auto, using(crate::proofs::Maps::puts))]
    pub(crate) fn with_objects(
        self,
        alloc: Global,
        changes: &[ObjectChange],
    ) -> Result<Table<Name>, Memory>
        ensures { IfOk result (λ all. all ≡ put_objects self changes.now) }
    {
        let mut all = self;
        for change in changes {
            let value = value_copy(alloc, &change.value)?;
            all.put(change.target.copy(alloc)?, value)?;
        }
        Ok(all)
    }
}
