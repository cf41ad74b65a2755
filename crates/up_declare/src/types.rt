ghost use Rattle.std.specs.Prelude.{◌≡◌, [], ◌∷◌, ◌++◌, true, false, IfOk, IfErr, OnOk, get_or, set, slice_get, replicate, Some, None, if◌then◌else◌, length};
ghost use Rattle.pddl_lex.specs.Parses.{parsed, first};
ghost use Rattle.up_phrase.specs.Named.{object, is_object};
ghost use Rattle.up_phrase.specs.Scopes.{type_named};
ghost use Rattle.up_declare.specs.Types.{types, parent_in, with_type, with_names, with_groups, with_parents, reaches, reason_at, fault_at, name_faults, type_faults};
ghost use Rattle.up_declare.specs.Marks.{Marked};

use indexmap::IndexMap;
use pddl_parse::{Ident, RawGroup};
use std::alloc::Global;
use up_phrase::{Fault, Reason, is_object, named, object};
use up_text::{Memory, Name};

/// The declared types, each with its parent.
///
/// Types that are named only as parents stand last, under `object`. The first of these faults is answered, in the order of places:
/// `Duplicate` at a name with another parent than at its first place, also at `object` with a parent beside itself; `TypeCycle` at
/// the first place of a type whose chain of parents doesn't reach `object`.
#[tactic(auto, using(crate::proofs::Faults::faults))]
pub fn declared_types(alloc: Global, groups: &[RawGroup]) -> Result<IndexMap<Name, Name>, Fault>
    ensures ok { IfOk result (λ made. types groups.now ≡ parsed made.entries) }
    ensures err { IfErr result (λ fault. ¬ (fault ≡ Fault.Memory) → first (types groups.now) ≡ Some fault) }
{
    let mut types = IndexMap::new(alloc);
    match list_types(alloc, &mut types, groups) {
        Ok(()) => Ok(types),
        Err(fault) => {
            drop(types);
            Err(fault)
        }
    }
}

// Adds the types of a typed list, and after them those that it names only as parents.
fn list_types(
    alloc: Global,
    types: &mut IndexMap<Name, Name>,
    groups: &[RawGroup],
) -> Result<(), Fault>
    ensures checked { IfOk result (λ _. type_faults (with_groups groups.now types.old.entries) [] groups.now ≡ []) }
    ensures ok { OnOk result (types.new.entries ≡ with_parents groups.now (with_groups groups.now types.old.entries)) }
    ensures err { IfErr result (λ fault. ¬ (fault ≡ Fault.Memory) →
        slice_get (type_faults (with_groups groups.now types.old.entries) [] groups.now) 0 ≡ Some fault) }
{
    list_groups(alloc, types, groups)?;
    check_groups(alloc, types, groups)?;
    list_parents(alloc, types, groups)?;
    Ok(())
}

// The parent that is stated, or `object`.
fn parent_named(alloc: Global, of: &Option<Ident>) -> Result<Name, Memory>
    ensures { IfOk result (λ name. name ≡ type_named of.now) }
{
    match of {
        None => object(alloc),
        Some(of) => of.name.copy(alloc),
    }
}

fn insert_type(types: &mut IndexMap<Name, Name>, name: Name, parent: Name) -> Result<(), Memory>
    ensures { OnOk result (parent_in types.old.entries name ≡ None → types.new.entries ≡ types.old.entries ++ (name, parent) ∷ []) }
{
    types.insert(name, parent)?;
    Ok(())
}

#[tactic(auto, using(crate::proofs::Listing::listing))]
fn add_type(
    alloc: Global,
    types: &mut IndexMap<Name, Name>,
    name: &Name,
    parent: &Name,
) -> Result<(), Memory>
    ensures { OnOk result (types.new.entries ≡ with_type name.now parent.now types.old.entries) }
{
    if is_object(name) || types.contains_key(name) {
        return Ok(());
    }
    insert_type(types, name.copy(alloc)?, parent.copy(alloc)?)
}

fn list_names(
    alloc: Global,
    types: &mut IndexMap<Name, Name>,
    idents: &[Ident],
    parent: &Name,
) -> Result<(), Memory>
    ensures { OnOk result (types.new.entries ≡ with_names parent.now idents.now types.old.entries) }
{
    for ident in idents {
        add_type(alloc, types, &ident.name, parent)?;
    }
    Ok(())
}

// The types that are listed, with their first parents.
fn list_groups(
    alloc: Global,
    types: &mut IndexMap<Name, Name>,
    groups: &[RawGroup],
) -> Result<(), Memory>
    ensures { OnOk result (types.new.entries ≡ with_groups groups.now types.old.entries) }
{
    for group in groups {
        let parent = parent_named(alloc, &group.of)?;
        list_names(alloc, types, group.names.as_slice(), &parent)?;
    }
    Ok(())
}

// Those that are named only as parents.
fn list_parents(
    alloc: Global,
    types: &mut IndexMap<Name, Name>,
    groups: &[RawGroup],
) -> Result<(), Memory>
    ensures { OnOk result (types.new.entries ≡ with_parents groups.now types.old.entries) }
{
    for group in groups {
        let parent = parent_named(alloc, &group.of)?;
        add_type(alloc, types, &parent, &object(alloc)?)?;
    }
    Ok(())
}

fn is_marked(marks: &[bool], at: usize) -> bool
    ensures { result ≡ get_or marks.now at false }
{
    match marks.get(at) {
        None => false,
        Some(mark) => *mark,
    }
}

fn set_mark(marks: &mut Vec<bool>, at: usize)
    ensures { marks.new.items ≡ set marks.old.items at true }
{
    if at < marks.len() {
        marks[at] = true;
    }
}

fn none_marked(alloc: Global, types: usize) -> Result<Vec<bool>, Memory>
    ensures { IfOk result (λ marks. marks.items ≡ replicate types false) }
{
    Ok(vec![in alloc; false; types]?)
}

// Whether the chain of a type comes to a marked one, or leaves the list.
fn reaches(types: &IndexMap<Name, Name>, marks: &[bool], name: &Name) -> bool
    ensures { Marked types.now.entries marks.now → result ≡ reaches types.now.entries name.now }
{
    let mut here = name;
    let mut left = types.len();
    'up: while left > 0 {
        match types.get_full(here) {
            None => return true,
            Some((at, _, parent)) => {
                if is_marked(marks, at) {
                    return true;
                }
                here = parent;
            }
        }
        left -= 1;
    }
    !types.contains_key(here)
}

// Marks the types of a chain, up to one that is marked.
fn mark(types: &IndexMap<Name, Name>, marks: &mut Vec<bool>, name: &Name)
    ensures { Marked types.now.entries marks.old.items → reaches types.now.entries name.now ≡ true → Marked types.now.entries marks.new.items }
{
    let mut here = name;
    let mut left = types.len();
    'up: while left > 0 {
        match types.get_full(here) {
            None => return,
            Some((at, _, parent)) => {
                if is_marked(marks.as_slice(), at) {
                    return;
                }
                set_mark(marks, at);
                here = parent;
            }
        }
        left -= 1;
    }
}

// Whether a type reaches `object`; the types of its chain are then marked, so that each chain is traversed once.
fn reach(types: &IndexMap<Name, Name>, marks: &mut Vec<bool>, name: &Name) -> bool
    ensures reaches { Marked types.now.entries marks.old.items → result ≡ reaches types.now.entries name.now }
    ensures marked { Marked types.now.entries marks.old.items → Marked types.now.entries marks.new.items }
{
    if !reaches(types, marks.as_slice(), name) {
        return false;
    }
    mark(types, marks, name);
    true
}

fn reason_unless(holds: bool, reason: Reason) -> Option<Reason>
    ensures { result ≡ (if holds then None else Some reason) }
{
    if holds { None } else { Some(reason) }
}

// What is wrong where a name stands with this parent, after the places of the types that are seen.
fn reason_at(
    types: &IndexMap<Name, Name>,
    seen: &IndexMap<Name, Name>,
    marks: &mut Vec<bool>,
    name: &Name,
    parent: &Name,
) -> Option<Reason>
    ensures reason { Marked types.now.entries marks.old.items → result ≡ reason_at types.now.entries seen.now.entries parent.now name.now }
    ensures marked { Marked types.now.entries marks.old.items → Marked types.now.entries marks.new.items }
{
    if is_object(name) {
        return reason_unless(is_object(parent), Reason::Duplicate);
    }
    match seen.get(name) {
        Some(first) => reason_unless(first == parent, Reason::Duplicate),
        None => reason_unless(reach(types, marks, name), Reason::TypeCycle),
    }
}

fn check_name(
    alloc: Global,
    types: &IndexMap<Name, Name>,
    seen: &IndexMap<Name, Name>,
    marks: &mut Vec<bool>,
    ident: &Ident,
    parent: &Name,
) -> Result<(), Fault>
    ensures ok { IfOk result (λ _. Marked types.now.entries marks.old.items → fault_at types.now.entries seen.now.entries parent.now ident.now ≡ []) }
    ensures err { IfErr result (λ fault. Marked types.now.entries marks.old.items → ¬ (fault ≡ Fault.Memory) →
        fault_at types.now.entries seen.now.entries parent.now ident.now ≡ fault ∷ []) }
    ensures marked { Marked types.now.entries marks.old.items → Marked types.now.entries marks.new.items }
{
    match reason_at(types, seen, marks, &ident.name, parent) {
        None => Ok(()),
        Some(reason) => Err(named(alloc, ident.place, reason, &ident.name)),
    }
}

fn check_names(
    alloc: Global,
    types: &IndexMap<Name, Name>,
    seen: &mut IndexMap<Name, Name>,
    marks: &mut Vec<bool>,
    idents: &[Ident],
    parent: &Name,
) -> Result<(), Fault>
    ensures ok { IfOk result (λ _. Marked types.now.entries marks.old.items → name_faults types.now.entries seen.old.entries parent.now idents.now ≡ []) }
    ensures seen { OnOk result (seen.new.entries ≡ with_names parent.now idents.now seen.old.entries) }
    ensures err { IfErr result (λ fault. Marked types.now.entries marks.old.items → ¬ (fault ≡ Fault.Memory) →
        slice_get (name_faults types.now.entries seen.old.entries parent.now idents.now) 0 ≡ Some fault) }
    ensures marked { Marked types.now.entries marks.old.items → Marked types.now.entries marks.new.items }
{
    for ident in idents {
        check_name(alloc, types, seen, marks, ident, parent)?;
        add_type(alloc, seen, &ident.name, parent)?;
    }
    Ok(())
}

fn check_groups(
    alloc: Global,
    types: &IndexMap<Name, Name>,
    groups: &[RawGroup],
) -> Result<(), Fault>
    ensures ok { IfOk result (λ _. type_faults types.now.entries [] groups.now ≡ []) }
    ensures err { IfErr result (λ fault. ¬ (fault ≡ Fault.Memory) → slice_get (type_faults types.now.entries [] groups.now) 0 ≡ Some fault) }
{
    let mut marks = none_marked(alloc, types.len())?;
    let mut seen = IndexMap::new(alloc);
    let checked = check_each_group(alloc, types, &mut seen, &mut marks, groups);
    drop(seen);
    checked
}

fn check_each_group(
    alloc: Global,
    types: &IndexMap<Name, Name>,
    seen: &mut IndexMap<Name, Name>,
    marks: &mut Vec<bool>,
    groups: &[RawGroup],
) -> Result<(), Fault>
    ensures ok { IfOk result (λ _. Marked types.now.entries marks.old.items → type_faults types.now.entries seen.old.entries groups.now ≡ []) }
    ensures err { IfErr result (λ fault. Marked types.now.entries marks.old.items → ¬ (fault ≡ Fault.Memory) →
        slice_get (type_faults types.now.entries seen.old.entries groups.now) 0 ≡ Some fault) }
{
    for group in groups {
        let parent = parent_named(alloc, &group.of)?;
        check_names(alloc, types, seen, marks, group.names.as_slice(), &parent)?;
    }
    Ok(())
}
