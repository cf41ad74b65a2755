ghost use Rattle.std.specs.Prelude.{◌≡◌, ◌∷◌, [], length, IfOk, IfErr};
ghost use Rattle.std.specs.Option.{option_copied};
ghost use Rattle.up_phrase.specs.Declarations.{declarations, types_alone};
ghost use Rattle.up_phrase.specs.Lookups.{parent_of, type_of, is_type, is_under, climbs, predicate_of, function_of};
ghost use Rattle.up_phrase.specs.Named.{object, is_object, at};
ghost use Rattle.up_phrase.specs.Walks.{unless};

use crate::fault::{Fault, named};
use crate::reason::Reason;
use indexmap::IndexMap;
use pddl_parse::Ident;
use std::alloc::Global;
use up_text::{List, Memory, Name};
use up_tree::Gives;

/// What a function takes and gives.
#[derive(Debug, Drop)]
pub struct Signature {
    pub args: List<Name>,
    pub gives: Gives,
}

/// What is declared, by name.
#[derive(Drop)]
pub struct Names {
    /// Each type's parent.
    pub types: IndexMap<Name, Name>,
    /// Each constant's and object's type.
    pub objects: IndexMap<Name, Name>,
    /// The types of each predicate's arguments.
    pub predicates: IndexMap<Name, List<Name>>,
    pub functions: IndexMap<Name, Signature>,
}

/// The name of the type that is above all others.
pub fn is_object(name: &Name) -> bool
    ensures { result ≡ is_object name.now }
{
    name.bytes() == b"object".as_slice()
}

/// `object` as a name.
pub fn object(alloc: Global) -> Result<Name, Memory>
    ensures { IfOk result (λ name. name ≡ object) }
{
    Name::read(alloc, b"object".as_slice()).map_err(|_| Memory)
}

impl Names {
    /// These types, each with its parent, and nothing else.
    pub fn new(alloc: Global, types: IndexMap<Name, Name>) -> Names
        ensures { declarations result ≡ types_alone types.entries }
    {
        Names {
            types,
            objects: IndexMap::new(alloc),
            predicates: IndexMap::new(alloc),
            functions: IndexMap::new(alloc),
        }
    }

    /// The type of a constant or object.
    pub fn type_of(&self, object: &Name) -> Option<&Name>
        ensures { option_copied result ≡ type_of (declarations self.now) object.now }
    {
        self.objects.get(object)
    }

    fn parent_of(&self, name: &Name) -> Option<&Name>
        ensures { option_copied result ≡ parent_of (declarations self.now) name.now }
    {
        self.types.get(name)
    }

    /// Whether a type is declared or is `object`.
    pub fn is_type(&self, name: &Name) -> bool
        ensures { result ≡ is_type (declarations self.now) name.now }
    {
        is_object(name) || self.types.contains_key(name)
    }

    /// Whether the type `due` is `of` or stands above it.
    pub fn is_under(&self, of: &Name, due: &Name) -> bool
        ensures { result ≡ is_under (declarations self.now) of.now due.now }
    {
        is_object(due) || self.climbs(of, due)
    }

    // Whether a type is `due` or has it among its parents.
    #[tactic(auto, using(crate::proofs::Climbing::climbing))]
    fn climbs(&self, of: &Name, due: &Name) -> bool
        ensures { result ≡ climbs (declarations self.now) due.now (length self.now.types.entries) of.now }
    {
        let mut here = of;
        let mut left = self.types.len();
        'up: while left > 0 {
            if here == due {
                return true;
            }
            match self.parent_of(here) {
                None => return false,
                Some(parent) => here = parent,
            }
            left -= 1;
        }
        here == due
    }

    /// The types of a predicate's arguments.
    pub fn predicate(&self, name: &Name) -> Option<&[Name]>
        ensures { option_copied result ≡ predicate_of (declarations self.now) name.now }
    {
        match self.predicates.get(name) {
            None => None,
            Some(args) => Some(args.as_slice()),
        }
    }

    pub fn function(&self, name: &Name) -> Option<&Signature>
        ensures { option_copied result ≡ function_of (declarations self.now) name.now }
    {
        self.functions.get(name)
    }
}

/// Answers `UnknownName` at a type that isn't declared.
pub fn check_type(alloc: Global, names: &Names, of: &Ident) -> Result<(), Fault>
    ensures ok { IfOk result (λ _. unless (is_type (declarations names.now) of.now.name) (at of.now.place Reason.UnknownName of.now.name) ≡ []) }
    ensures err { IfErr result (λ fault. ¬ (fault ≡ Fault.Memory) →
        unless (is_type (declarations names.now) of.now.name) (at of.now.place Reason.UnknownName of.now.name) ≡ fault ∷ []) }
{
    if names.is_type(&of.name) {
        Ok(())
    } else {
        Err(named(alloc, of.place, Reason::UnknownName, &of.name))
    }
}
