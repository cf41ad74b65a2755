ghost use Rattle.std.specs.Prelude.{◌≡◌, IfOk, refl, Some, nat_eq};
ghost use Rattle.std.specs.Ordering.{nat_cmp};
ghost use Rattle.std.specs.Cmp.{partial_equiv_from_equiv};
ghost use Rattle.std.specs.Cmp.Lexicographic.{pointwise, slice_cmp, lists_per, lists_equiv, lists_total, lists_ties, nat_list_eq_equiv, nat_list_cmp_total, texts_ties};
ghost use Rattle.up_eval.specs.Keys.{grounds_po};

use std::alloc::Global;
use std::cmp::Ordering;
use std::marker::Model;
use up_text::{List, Memory, Name};

/// A predicate or function before its objects, which contracts see as the list of these names.
#[derive(Debug, Drop)]
pub(crate) struct Ground {
    names: List<Name>,
}

impl Model for Ground {
    ghost use Rattle.std.specs.Prelude.{List as Sequence, ℕ};
    ghost use Rattle.std.specs.Coded.{coded_list, coded_ℕ};

    ghost Value = { Sequence (Sequence ℕ) };

    ghost coded = { coded_list (coded_list coded_ℕ) };

    ghost view = { λ key. key.names };
}

impl Ground {
    pub(crate) fn new(names: List<Name>) -> Ground
        ensures { result ≡ names }
    {
        Ground { names }
    }

    pub(crate) fn names(&self) -> &[Name]
        ensures { result.now ≡ self.now }
    {
        self.names.as_slice()
    }

    pub(crate) fn copy(&self, alloc: Global) -> Result<Ground, Memory>
        ensures { IfOk result (λ copy. copy ≡ self.now) }
    {
        let names = names_copy(alloc, self.names())?;
        Ok(Ground { names })
    }
}

pub(crate) fn names_copy(alloc: Global, names: &[Name]) -> Result<List<Name>, Memory>
    ensures { IfOk result (λ copies. copies ≡ names.now) }
{
    let mut copies = List::new(alloc);
    for name in names {
        copies.push(name.copy(alloc)?)?;
    }
    Ok(copies)
}

impl PartialEq for Ground {
    ghost eq = { pointwise (pointwise nat_eq) };

    ghost laws = { lists_per (partial_equiv_from_equiv nat_list_eq_equiv) };

    fn eq(&self, other: &Self) -> bool {
        self.names() == other.names()
    }
}

impl Eq for Ground {
    ghost laws = { lists_equiv nat_list_eq_equiv };
}

impl PartialOrd for Ground {
    ghost partial_cmp = { λ a b. Some (slice_cmp (slice_cmp nat_cmp) a b) };

    ghost laws = { grounds_po };

    fn partial_cmp(&self, other: &Self) -> Option<Ordering> {
        Some(self.cmp(other))
    }
}

impl Ord for Ground {
    ghost cmp = { slice_cmp (slice_cmp nat_cmp) };

    ghost total = { lists_total nat_list_cmp_total };

    ghost matches_partial_cmp = { λ a b. refl };

    ghost matches_eq = { lists_ties _ texts_ties };

    fn cmp(&self, other: &Self) -> Ordering {
        self.names().cmp(other.names())
    }
}
