ghost use Rattle.std.specs.Prelude.{◌≡◌, ◌∷◌, [], ◌++◌, Some, None, IfOk, IfErr, OnOk, length, map, flat_map, take, drop};
ghost use Rattle.std.specs.Option.{option_copied};
ghost use Rattle.pddl_lex.specs.Parses.{parsed, first};
ghost use Rattle.up_phrase.specs.Barred.{names_of, binds, each_once};
ghost use Rattle.up_phrase.specs.Declarations.{declarations};
ghost use Rattle.up_phrase.specs.Scopes.{variables, barred, variable_type, barred_to, is_taken, entered, entered_groups, type_named, type_fault, typed};

use crate::fault::{Fault, named};
use crate::names::{Names, check_type, object};
use crate::reason::Reason;
use indexmap::{IndexMap, IndexSet};
use pddl_parse::{Ident, RawGroup};
use std::alloc::Global;
use up_text::{List, Memory, Name};
use up_tree::{Formula, Typed};

/// What brings variables into scope.
#[derive(Clone, Copy, Debug, PartialEq, Eq)]
pub enum Binder {
    /// The parameters of an action, a quantifier, or a `forall` in a constraint.
    Plain,
    /// A `forall` in an effect, which names no variable that the condition of a `when` around it binds.
    Effect,
}

/// The variables in scope with their types, from the outside in.
#[derive(Drop)]
pub struct Scope {
    types: IndexMap<Name, Name>,
    // What the conditions around an effect bind.
    barred: IndexSet<Name>,
}

/// The type that is stated, or `object`.
pub fn type_named(alloc: Global, of: &Option<Ident>) -> Result<Name, Memory>
    ensures { IfOk result (λ name. name ≡ type_named of.now) }
{
    match of {
        None => object(alloc),
        Some(of) => of.name.copy(alloc),
    }
}

/// Answers `UnknownName` at a type that is stated and not declared.
pub fn known_type(alloc: Global, names: &Names, of: &Option<Ident>) -> Result<(), Fault>
    ensures ok { IfOk result (λ _. type_fault (declarations names.now) of.now ≡ []) }
    ensures err { IfErr result (λ fault. ¬ (fault ≡ Fault.Memory) → type_fault (declarations names.now) of.now ≡ fault ∷ []) }
{
    match of {
        None => Ok(()),
        Some(of) => check_type(alloc, names, of),
    }
}

impl Scope {
    pub fn new(alloc: Global) -> Scope
        ensures variables { variables result ≡ [] }
        ensures barred { barred result ≡ [] }
    {
        Scope {
            types: IndexMap::new(alloc),
            barred: IndexSet::new(alloc),
        }
    }

    /// The type of a variable in scope.
    pub fn type_of(&self, variable: &Name) -> Option<&Name>
        ensures { option_copied result ≡ variable_type (variables self.now) variable.now }
    {
        self.types.get(variable)
    }

    /// How many variables are in scope.
    pub fn len(&self) -> usize
        ensures { result ≡ length (variables self.now) }
    {
        self.types.len()
    }

    /// Brings the variables of a list into scope.
    ///
    /// Of a group the faults of the variables come first, then that of their type: `Duplicate` at a variable that is in scope or
    /// barred, `UnknownName` at a type that isn't declared.
    pub fn enter(
        &mut self,
        alloc: Global,
        names: &Names,
        binder: Binder,
        groups: &[RawGroup],
    ) -> Result<(), Fault>
        ensures ok { OnOk result (entered_groups (declarations names.now) (barred_to binder (barred self.old)) groups.now (variables self.old) ≡ parsed (variables self.new)) }
        ensures err { IfErr result (λ fault. ¬ (fault ≡ Fault.Memory) →
            first (entered_groups (declarations names.now) (barred_to binder (barred self.old)) groups.now (variables self.old)) ≡ Some fault) }
        ensures barred { barred self.new ≡ barred self.old }
    {
        for group in groups {
            self.enter_group(alloc, binder, &group.of, group.names.as_slice())?;
            known_type(alloc, names, &group.of)?;
        }
        Ok(())
    }

    fn enter_group(
        &mut self,
        alloc: Global,
        binder: Binder,
        of: &Option<Ident>,
        group: &[Ident],
    ) -> Result<(), Fault>
        ensures ok { OnOk result (entered (barred_to binder (barred self.old)) (type_named of.now) group.now (variables self.old) ≡ parsed (variables self.new)) }
        ensures err { IfErr result (λ fault. ¬ (fault ≡ Fault.Memory) →
            first (entered (barred_to binder (barred self.old)) (type_named of.now) group.now (variables self.old)) ≡ Some fault) }
        ensures barred { barred self.new ≡ barred self.old }
    {
        for variable in group {
            if self.is_taken(binder, &variable.name) {
                return Err(named(alloc, variable.place, Reason::Duplicate, &variable.name));
            }
            self.add(variable.name.copy(alloc)?, type_named(alloc, of)?)?;
        }
        Ok(())
    }

    #[tactic(auto, using(crate::proofs::Entering::entering))]
    fn is_taken(&self, binder: Binder, variable: &Name) -> bool
        ensures { result ≡ is_taken (barred_to binder (barred self.now)) (variables self.now) variable.now }
    {
        match binder {
            Binder::Plain => self.types.contains_key(variable),
            Binder::Effect => self.types.contains_key(variable) || self.barred.contains(variable),
        }
    }

    #[tactic(auto, using(crate::proofs::Entering::entering))]
    fn add(&mut self, variable: Name, of: Name) -> Result<(), Memory>
        ensures ok { OnOk result (variable_type (variables self.old) variable ≡ None → variables self.new ≡ variables self.old ++ (variable, of) ∷ []) }
        ensures barred { barred self.new ≡ barred self.old }
    {
        self.types.insert(variable, of)?;
        Ok(())
    }

    /// The variables but the outermost `from`.
    pub fn since(&self, alloc: Global, from: usize) -> Result<List<Typed>, Memory>
        ensures { IfOk result (λ vars. vars ≡ map typed (drop from (variables self.now))) }
    {
        let mut variables = List::new(alloc);
        for at in from..self.types.len() {
            let Some((name, of)) = self.types.get_index(at) else {
                return Ok(variables);
            };
            variables.push(typed(alloc, name, of)?)?;
        }
        Ok(variables)
    }

    /// Takes all variables out of scope but the outermost `len`.
    pub fn leave(&mut self, len: usize)
        ensures variables { variables self.new ≡ take len (variables self.old) }
        ensures barred { barred self.new ≡ barred self.old }
    {
        self.types.truncate(len);
    }

    /// How many names are barred.
    pub fn barred_len(&self) -> usize
        ensures { result ≡ length (barred self.now) }
    {
        self.barred.len()
    }

    /// Bars the variables that a condition binds.
    #[cycle(bar)]
    #[tactic(auto, using(crate::proofs::Barring::barring))]
    pub fn bar(&mut self, alloc: Global, condition: &Formula) -> Result<(), Memory>
        ensures barred { OnOk result (barred self.new ≡ each_once (barred self.old) (binds condition.now)) }
        ensures variables { variables self.new ≡ variables self.old }
    {
        match condition {
            Formula::And(members) | Formula::Or(members) => self.bar_all(alloc, members.as_slice()),
            Formula::Not(f) => self.bar(alloc, f.get()),
            Formula::Imply(f, g) => {
                self.bar(alloc, f.get())?;
                self.bar(alloc, g.get())
            }
            Formula::Exists(variables, f) | Formula::Forall(variables, f) => {
                self.bar_names(alloc, variables.as_slice())?;
                self.bar(alloc, f.get())
            }
            Formula::Atom(_, _) | Formula::Equal(_, _) | Formula::Compare(_, _, _) => Ok(()),
        }
    }

    #[cycle(bar)]
    #[tactic(auto, using(crate::proofs::Barring::barring))]
    fn bar_all(&mut self, alloc: Global, conditions: &[Formula]) -> Result<(), Memory>
        ensures barred { OnOk result (barred self.new ≡ each_once (barred self.old) (flat_map binds conditions.now)) }
        ensures variables { variables self.new ≡ variables self.old }
    {
        for condition in conditions {
            self.bar(alloc, condition)?;
        }
        Ok(())
    }

    fn bar_names(&mut self, alloc: Global, vars: &[Typed]) -> Result<(), Memory>
        ensures barred { OnOk result (barred self.new ≡ each_once (barred self.old) (names_of vars.now)) }
        ensures variables { variables self.new ≡ variables self.old }
    {
        for variable in vars {
            self.barred.insert(variable.name.copy(alloc)?)?;
        }
        Ok(())
    }

    /// Bars the first `len` names alone.
    pub fn unbar(&mut self, len: usize)
        ensures barred { barred self.new ≡ take len (barred self.old) }
        ensures variables { variables self.new ≡ variables self.old }
    {
        self.barred.truncate(len);
    }
}

fn typed(alloc: Global, name: &Name, of: &Name) -> Result<Typed, Memory>
    ensures { IfOk result (λ variable. variable ≡ typed (name.now, of.now)) }
{
    Ok(Typed {
        name: name.copy(alloc)?,
        of: of.copy(alloc)?,
    })
}
