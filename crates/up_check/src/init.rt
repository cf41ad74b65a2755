ghost use Rattle.std.specs.Prelude.{◌≡◌, ◌==◌, [], ◌∷◌, map, true, Some, IfOk, IfErr, OnOk};
ghost use Rattle.pddl_lex.specs.Parses.{parsed, first};
ghost use Rattle.up_phrase.specs.Declarations.{declarations};
ghost use Rattle.up_phrase.specs.Exprs.{no_number};
ghost use Rattle.up_phrase.specs.Lookups.{type_of, predicate_of, function_of};
ghost use Rattle.up_phrase.specs.Named.{at};
ghost use Rattle.up_phrase.specs.Walks.{unless};
ghost use Rattle.indexmap.specs.IndexMap.{insert_entry};
ghost use Rattle.up_check.specs.Held.{same_ground, fact, number_fact, value_fact, held};
ghost use Rattle.up_check.specs.Initial.{foremost, object_faults, argument_faults, bracket_faults, atom_faults, arguments, number_at, object_at, keeps_number, keeps_object, second_value, value_faults, term_faults, member_faults, with_atom, with_number, with_object, with_value, with_member, stated, initial};

use indexmap::{IndexMap, IndexSet};
use pddl_parse::{Ident, RawGround, RawInit, RawValue};
use std::alloc::Global;
use std::cmp::Ordering;
use up_frac::Frac;
use up_phrase::{Fault, Names, Reason, bare, named};
use up_text::{Memory, Name, Place};
use up_tree::Gives;

/// A predicate or a function at objects.
#[derive(PartialEq, Eq, Hash, Debug, Drop)]
pub struct Ground {
    pub name: Name,
    pub args: Vec<Name>,
}

/// The initial state: what holds, and the values of functions.
#[derive(Drop)]
pub struct Init {
    pub atoms: IndexSet<Ground>,
    pub numbers: IndexMap<Ground, Frac>,
    pub values: IndexMap<Ground, Name>,
}

/// The initial state that a problem text lists. What it lists twice counts once.
///
/// Errors, in the order of places: `UnknownName` at a predicate, function or object; `Arity` at a bracket; `TypeMismatch` at an
/// argument or value; `Duplicate` at the bracket of a value whose term has another one before it.
pub fn checked_init(alloc: Global, names: &Names, members: &[RawInit]) -> Result<Init, Fault>
    ensures ok { IfOk result (λ init. initial (declarations names.now) members.now ≡ parsed (held init)) }
    ensures err { IfErr result (λ fault. ¬ (fault ≡ Fault.Memory) → first (initial (declarations names.now) members.now) ≡ Some fault) }
{
    let mut init = Init {
        atoms: IndexSet::new(alloc),
        numbers: IndexMap::new(alloc),
        values: IndexMap::new(alloc),
    };
    match add_members(alloc, names, members, &mut init) {
        Ok(()) => Ok(init),
        Err(fault) => {
            drop(init);
            Err(fault)
        }
    }
}

#[tactic(auto, using(crate::proofs::Stating::stating))]
fn add_members(
    alloc: Global,
    names: &Names,
    members: &[RawInit],
    init: &mut Init,
) -> Result<(), Fault>
    ensures ok { OnOk result (stated (declarations names.now) (held init.old) members.now ≡ parsed (held init.new)) }
    ensures err { IfErr result (λ fault. ¬ (fault ≡ Fault.Memory) → first (stated (declarations names.now) (held init.old) members.now) ≡ Some fault) }
{
    for member in members {
        add_member(alloc, names, member, init)?;
    }
    Ok(())
}

#[tactic(auto, using(crate::proofs::Stating::stating))]
fn add_member(alloc: Global, names: &Names, member: &RawInit, init: &mut Init) -> Result<(), Fault>
    ensures parsed { IfOk result (λ _. member_faults (declarations names.now) (held init.old) member.now ≡ []) }
    ensures ok { OnOk result (held init.new ≡ with_member (held init.old) member.now) }
    ensures err { IfErr result (λ fault. ¬ (fault ≡ Fault.Memory) → foremost (member_faults (declarations names.now) (held init.old) member.now) ≡ Some fault) }
{
    match member {
        RawInit::Atom(atom) => {
            check_atom(alloc, names, atom)?;
            Ok(add_atom(alloc, atom, &mut init.atoms)?)
        }
        RawInit::Absent(atom) => check_atom(alloc, names, atom),
        RawInit::Value(place, term, value) => add_value(alloc, names, *place, term, value, init),
    }
}

#[tactic(auto, using(crate::proofs::Stating::stating))]
fn check_atom(alloc: Global, names: &Names, atom: &RawGround) -> Result<(), Fault>
    ensures ok { IfOk result (λ _. atom_faults (declarations names.now) atom.now (predicate_of (declarations names.now) atom.now.name.name) ≡ []) }
    ensures err { IfErr result (λ fault. ¬ (fault ≡ Fault.Memory) →
        foremost (atom_faults (declarations names.now) atom.now (predicate_of (declarations names.now) atom.now.name.name)) ≡ Some fault) }
{
    let Ident { name, place } = &atom.name;
    match names.predicate(name) {
        None => Err(named(alloc, *place, Reason::UnknownName, name)),
        Some(types) => check_bracket(alloc, names, atom, types),
    }
}

// The number of arguments, then each of them.
#[tactic(auto, using(crate::proofs::Stating::stating))]
fn check_bracket(
    alloc: Global,
    names: &Names,
    bracket: &RawGround,
    types: &[Name],
) -> Result<(), Fault>
    ensures ok { IfOk result (λ _. bracket_faults (declarations names.now) bracket.now types.now ≡ []) }
    ensures err { IfErr result (λ fault. ¬ (fault ≡ Fault.Memory) → foremost (bracket_faults (declarations names.now) bracket.now types.now) ≡ Some fault) }
{
    if bracket.args.len() != types.len() {
        return Err(named(alloc, bracket.place, Reason::Arity, &bracket.name.name));
    }
    check_arguments(alloc, names, bracket.args.as_slice(), types)
}

fn check_arguments(
    alloc: Global,
    names: &Names,
    args: &[Ident],
    declared: &[Name],
) -> Result<(), Fault>
    ensures ok { IfOk result (λ _. argument_faults (declarations names.now) declared.now args.now ≡ []) }
    ensures err { IfErr result (λ fault. ¬ (fault ≡ Fault.Memory) → foremost (argument_faults (declarations names.now) declared.now args.now) ≡ Some fault) }
{
    let mut types = declared;
    for arg in args {
        let Some((due, others)) = types.split_first() else {
            return Ok(());
        };
        check_object(alloc, names, arg, due)?;
        types = others;
    }
    Ok(())
}

// An object of a type.
fn check_object(alloc: Global, names: &Names, object: &Ident, due: &Name) -> Result<(), Fault>
    ensures ok { IfOk result (λ _. object_faults (declarations names.now) due.now object.now (type_of (declarations names.now) object.now.name) ≡ []) }
    ensures err { IfErr result (λ fault. ¬ (fault ≡ Fault.Memory) →
        object_faults (declarations names.now) due.now object.now (type_of (declarations names.now) object.now.name) ≡ fault ∷ []) }
{
    let Ident { name, place } = object;
    match names.type_of(name) {
        None => Err(named(alloc, *place, Reason::UnknownName, name)),
        Some(of) if names.is_under(of, due) => Ok(()),
        Some(_) => Err(named(alloc, *place, Reason::TypeMismatch, name)),
    }
}

fn ground_of(alloc: Global, bracket: &RawGround) -> Result<Ground, Memory>
    ensures name { IfOk result (λ made. made.name ≡ bracket.now.name.name) }
    ensures args { IfOk result (λ made. made.args.items ≡ arguments bracket.now.args) }
{
    let args = names_of(alloc, bracket.args.as_slice())?;
    Ok(Ground {
        name: bracket.name.name.copy(alloc)?,
        args,
    })
}

fn names_of(alloc: Global, idents: &[Ident]) -> Result<Vec<Name>, Memory>
    ensures { IfOk result (λ made. made.items ≡ arguments idents.now) }
{
    let mut names = Vec::with_capacity(alloc, idents.len())?;
    for ident in idents {
        names.push(ident.name.copy(alloc)?)?;
    }
    Ok(names)
}

fn add_atom(alloc: Global, atom: &RawGround, atoms: &mut IndexSet<Ground>) -> Result<(), Memory>
    ensures { OnOk result (map fact atoms.new.keys ≡ with_atom (map fact atoms.old.keys) atom.now) }
{
    atoms.insert(ground_of(alloc, atom)?)?;
    Ok(())
}

#[tactic(auto, using(crate::proofs::Stating::stating))]
fn add_value(
    alloc: Global,
    names: &Names,
    place: Place,
    term: &RawGround,
    value: &RawValue,
    init: &mut Init,
) -> Result<(), Fault>
    ensures parsed { IfOk result (λ _. term_faults (declarations names.now) (held init.old) place term.now value.now (function_of (declarations names.now) term.now.name.name) ≡ []) }
    ensures ok { OnOk result (held init.new ≡ with_value (held init.old) term.now value.now) }
    ensures err { IfErr result (λ fault. ¬ (fault ≡ Fault.Memory) →
        foremost (term_faults (declarations names.now) (held init.old) place term.now value.now (function_of (declarations names.now) term.now.name.name)) ≡ Some fault) }
{
    let Ident { name, place: at } = &term.name;
    let Some(function) = names.function(name) else {
        return Err(named(alloc, *at, Reason::UnknownName, name));
    };
    check_bracket(alloc, names, term, function.args.as_slice())?;
    keep_value(alloc, names, place, term, value, &function.gives, init)
}

// Notes a value of a function that gives such.
#[tactic(auto, using(crate::proofs::Stating::stating))]
fn keep_value(
    alloc: Global,
    names: &Names,
    place: Place,
    term: &RawGround,
    value: &RawValue,
    gives: &Gives,
    init: &mut Init,
) -> Result<(), Fault>
    ensures parsed { IfOk result (λ _. value_faults (declarations names.now) (held init.old) place term.now value.now gives.now ≡ []) }
    ensures ok { OnOk result (held init.new ≡ with_value (held init.old) term.now value.now) }
    ensures err { IfErr result (λ fault. ¬ (fault ≡ Fault.Memory) →
        foremost (value_faults (declarations names.now) (held init.old) place term.now value.now gives.now) ≡ Some fault) }
{
    match (gives, value) {
        (Gives::Number, RawValue::Number(_, number)) => {
            keep_number(alloc, place, term, *number, &mut init.numbers)
        }
        (Gives::Number, RawValue::Object(object)) => Err(no_number(alloc, names, object)),
        (Gives::Object(_), RawValue::Number(here, _)) => Err(bare(*here, Reason::TypeMismatch)),
        (Gives::Object(of), RawValue::Object(object)) => {
            check_object(alloc, names, object, of)?;
            keep_object(alloc, place, term, &object.name, &mut init.values)
        }
    }
}

// The fault of a name where a number is due.
fn no_number(alloc: Global, names: &Names, object: &Ident) -> Fault
    ensures { ¬ (result ≡ Fault.Memory) → result ≡ no_number object.now (type_of (declarations names.now) object.now.name) }
{
    let Ident { name, place } = object;
    match names.type_of(name) {
        None => named(alloc, *place, Reason::UnknownName, name),
        Some(_) => named(alloc, *place, Reason::TypeMismatch, name),
    }
}

// Refuses another number than the first.
fn same_number(
    alloc: Global,
    place: Place,
    term: &RawGround,
    first: Frac,
    number: Frac,
) -> Result<(), Fault>
    ensures ok { IfOk result (λ _. keeps_number (Some first) number ≡ true) }
    ensures err { IfErr result (λ fault. ¬ (fault ≡ Fault.Memory) → unless (keeps_number (Some first) number) (second_value place term.now) ≡ fault ∷ []) }
{
    match first.compare(number) {
        Ordering::Equal => Ok(()),
        Ordering::Less => Err(named(alloc, place, Reason::Duplicate, &term.name.name)),
        Ordering::Greater => Err(named(alloc, place, Reason::Duplicate, &term.name.name)),
    }
}

// Refuses another object than the first.
fn same_object(
    alloc: Global,
    place: Place,
    term: &RawGround,
    first: &Name,
    object: &Name,
) -> Result<(), Fault>
    ensures ok { IfOk result (λ _. keeps_object (Some first.now) object.now ≡ true) }
    ensures err { IfErr result (λ fault. ¬ (fault ≡ Fault.Memory) → unless (keeps_object (Some first.now) object.now) (second_value place term.now) ≡ fault ∷ []) }
{
    if first == object {
        Ok(())
    } else {
        Err(named(alloc, place, Reason::Duplicate, &term.name.name))
    }
}

fn add_number(
    term: Ground,
    number: Frac,
    numbers: &mut IndexMap<Ground, Frac>,
) -> Result<(), Memory>
    ensures { OnOk result (numbers.new.entries ≡ insert_entry same_ground numbers.old.entries term number) }
{
    numbers.insert(term, number)?;
    Ok(())
}

fn add_object(term: Ground, object: Name, values: &mut IndexMap<Ground, Name>) -> Result<(), Memory>
    ensures { OnOk result (values.new.entries ≡ insert_entry same_ground values.old.entries term object) }
{
    values.insert(term, object)?;
    Ok(())
}

// Notes a number, and refuses another one than that which the term has.
fn keep_number(
    alloc: Global,
    place: Place,
    term: &RawGround,
    number: Frac,
    numbers: &mut IndexMap<Ground, Frac>,
) -> Result<(), Fault>
    ensures parsed { IfOk result (λ _. keeps_number (number_at term.now (map number_fact numbers.old.entries)) number ≡ true) }
    ensures ok { OnOk result (map number_fact numbers.new.entries ≡ with_number (map number_fact numbers.old.entries) term.now number) }
    ensures err { IfErr result (λ fault. ¬ (fault ≡ Fault.Memory) →
        unless (keeps_number (number_at term.now (map number_fact numbers.old.entries)) number) (second_value place term.now) ≡ fault ∷ []) }
{
    let ground = ground_of(alloc, term)?;
    if let Some(first) = numbers.get(&ground) {
        return same_number(alloc, place, term, *first, number);
    }
    Ok(add_number(ground, number, numbers)?)
}

// Notes an object, and refuses another one than that which the term has.
fn keep_object(
    alloc: Global,
    place: Place,
    term: &RawGround,
    object: &Name,
    values: &mut IndexMap<Ground, Name>,
) -> Result<(), Fault>
    ensures parsed { IfOk result (λ _. keeps_object (object_at term.now (map value_fact values.old.entries)) object.now ≡ true) }
    ensures ok { OnOk result (map value_fact values.new.entries ≡ with_object (map value_fact values.old.entries) term.now object.now) }
    ensures err { IfErr result (λ fault. ¬ (fault ≡ Fault.Memory) →
        unless (keeps_object (object_at term.now (map value_fact values.old.entries)) object.now) (second_value place term.now) ≡ fault ∷ []) }
{
    let ground = ground_of(alloc, term)?;
    if let Some(first) = values.get(&ground) {
        return same_object(alloc, place, term, first, object);
    }
    Ok(add_object(ground, object.copy(alloc)?, values)?)
}
