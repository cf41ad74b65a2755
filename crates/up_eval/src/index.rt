//! The types, objects and actions of a problem by their names.
ghost use Rattle.std.specs.Prelude.{◌≡◌, IfOk, IfSome};
ghost use Rattle.std.specs.Option.{option_copied};
ghost use Rattle.std.specs.List.{list_any};
ghost use Rattle.indexmap.specs.IndexMap.{get};
ghost use Rattle.up_text.specs.Names.{same_name};
ghost use Rattle.up_tree.specs.Objects.{chain, is_below, named, action_named, world};
ghost use Rattle.up_eval.specs.Index.{HasTyped, HasActions, IsIndexOf};

use indexmap::IndexMap;
use std::alloc::Global;
use up_text::{Memory, Name};
use up_tree::{Action, Problem, Typed};

/// A problem's types, objects and actions by their names, so that a step costs what it touches, however many objects there are.
///
/// Where two have one name, it is that of the first.
#[derive(Drop)]
pub struct Index<'p> {
    pub(crate) types: IndexMap<Name, &'p Typed>,
    pub(crate) objects: IndexMap<Name, &'p Typed>,
    pub(crate) actions: IndexMap<Name, &'p Action>,
}

// The first entry of each name.
#[tactic(auto, using(crate::proofs::Indexing::entries))]
fn typed_by_name<'p>(
    alloc: Global,
    entries: &'p [Typed],
) -> Result<IndexMap<Name, &'p Typed>, Memory>
    ensures { IfOk result (λ table. HasTyped table entries.now) }
{
    let mut table = IndexMap::new(alloc);
    let mut rest = entries;
    'naming: while let Some((entry, others)) = rest.split_last() {
        table.insert(entry.name.copy(alloc)?, entry)?;
        rest = others;
    }
    Ok(table)
}

// The first action of each name.
#[tactic(auto, using(crate::proofs::Indexing::entries))]
fn actions_by_name<'p>(
    alloc: Global,
    actions: &'p [Action],
) -> Result<IndexMap<Name, &'p Action>, Memory>
    ensures { IfOk result (λ table. HasActions table actions.now) }
{
    let mut table = IndexMap::new(alloc);
    let mut rest = actions;
    'naming: while let Some((action, others)) = rest.split_last() {
        table.insert(action.name.copy(alloc)?, action)?;
        rest = others;
    }
    Ok(table)
}

impl<'p> Index<'p> {
    /// The index of a problem.
    ///
    /// `Memory` where an allocation failed.
    pub fn new(alloc: Global, p: &'p Problem) -> Result<Index<'p>, Memory>
        ensures { IfOk result (λ index. IsIndexOf p.now index) }
    {
        let parts = p.parts();
        let types = typed_by_name(alloc, parts.types.as_slice())?;
        let objects = typed_by_name(alloc, parts.objects.as_slice())?;
        let actions = actions_by_name(alloc, parts.actions.as_slice())?;
        Ok(Index {
            types,
            objects,
            actions,
        })
    }

    fn action(&self, name: &Name) -> Option<&'p Action>
        ensures { result ≡ get same_name self.now.actions name.now }
    {
        match self.actions.get(name) {
            Some(action) => Some(*action),
            None => None,
        }
    }

    fn object(&self, name: &Name) -> Option<&'p Typed>
        ensures { result ≡ get same_name self.now.objects name.now }
    {
        match self.objects.get(name) {
            Some(object) => Some(*object),
            None => None,
        }
    }

    // Whether a type or one of its next parents, at most `left` of them, is `above`.
    fn reaches(&self, p: &Problem, left: usize, below: &Name, above: &Name) -> bool
        requires { IsIndexOf p.now self.now }
        ensures { result ≡ list_any (same_name above.now) (chain p.now.types left below.now) }
    {
        if above == below {
            return true;
        }
        if left == 0 {
            return false;
        }
        match self.types.get(below) {
            None => false,
            Some(entry) => self.reaches(p, left - 1, &entry.of, above),
        }
    }
}

/// The first action of a name, looked up in the index where there is one.
pub(crate) fn action_named<'a>(
    p: &'a Problem,
    index: Option<&Index<'a>>,
    name: &Name,
) -> Option<&'a Action>
    requires { IfSome index (λ it. IsIndexOf p.now it.now) }
    ensures { option_copied result ≡ action_named p.now name.now }
{
    match index {
        Some(index) => index.action(name),
        None => listed_action(p, name),
    }
}

fn listed_action<'a>(p: &'a Problem, name: &Name) -> Option<&'a Action>
    ensures { option_copied result ≡ action_named p.now name.now }
{
    let actions = p.parts().actions.as_slice();
    actions.iter().find(|action| &action.name == name)
}

/// The first object of a name, looked up in the index where there is one.
pub(crate) fn object_named<'a>(
    p: &'a Problem,
    index: Option<&Index<'a>>,
    name: &Name,
) -> Option<&'a Typed>
    requires { IfSome index (λ it. IsIndexOf p.now it.now) }
    ensures { option_copied result ≡ named p.now.objects name.now }
{
    match index {
        Some(index) => index.object(name),
        None => listed_object(p, name),
    }
}

fn listed_object<'a>(p: &'a Problem, name: &Name) -> Option<&'a Typed>
    ensures { option_copied result ≡ named p.now.objects name.now }
{
    let objects = p.parts().objects.as_slice();
    objects.iter().find(|object| &object.name == name)
}

/// Whether a type is `above` or stands below it. Its parents are looked up in the index where there is one.
pub(crate) fn is_below(p: &Problem, index: Option<&Index<'_>>, below: &Name, above: &Name) -> bool
    requires { IfSome index (λ it. IsIndexOf p.now it.now) }
    ensures { result ≡ is_below (world p.now) below.now above.now }
{
    match index {
        Some(index) => index.reaches(p, p.parts().types.as_slice().len(), below, above),
        None => p.is_below(below, above),
    }
}
