ghost use Rattle.std.specs.Prelude.{◌≡◌, ◌==◌, [], ◌∷◌, ◌++◌, Some, IfOk, IfErr, map, length};
ghost use Rattle.std.specs.Option.{option_copied};
ghost use Rattle.pddl_lex.specs.Parses.{parsed, first, all};
ghost use Rattle.up_phrase.specs.Declarations.{declarations};
ghost use Rattle.up_phrase.specs.Lookups.{type_of, function_of, fits};
ghost use Rattle.up_phrase.specs.Named.{at};
ghost use Rattle.up_phrase.specs.Scopes.{variables, variable_type};
ghost use Rattle.up_phrase.specs.Terms.{of_type, unadmitted, object_function, each_due, term};
ghost use Rattle.up_phrase.specs.Walks.{unless};

use crate::fault::{Fault, bare, named};
use crate::names::Names;
use crate::reason::Reason;
use crate::scope::Scope;
use pddl_parse::{Ident, RawTerm};
use std::alloc::Global;
use up_text::{List, Name, Place};
use up_tree::{Gives, Term};

/// What a term or a condition is a part of.
#[derive(Clone, Copy, Debug, PartialEq, Eq)]
pub enum Setting {
    /// An action or a goal.
    Plain,
    /// A constraint, which holds no comparison and no fluent object term.
    Constraint,
    /// A metric, which holds no fluent object term, and where a bare name is a function where a number is due.
    Metric,
}

// A type is due or below it; where none is due any type fits.
fn fits(names: &Names, of: &Name, due: Option<&Name>) -> bool
    ensures { result ≡ fits (declarations names.now) of.now (option_copied due.entry) }
{
    match due {
        None => true,
        Some(due) => names.is_under(of, due),
    }
}

/// Refuses another number of arguments than that of the declared types: `Arity` at the bracket.
pub fn same_count(
    alloc: Global,
    place: Place,
    name: &Name,
    declared: &[Name],
    args: &[RawTerm],
) -> Result<(), Fault>
    ensures ok { IfOk result (λ _. unless (length args.now == length declared.now) (at place Reason.Arity name.now) ≡ []) }
    ensures err { IfErr result (λ fault. ¬ (fault ≡ Fault.Memory) →
        unless (length args.now == length declared.now) (at place Reason.Arity name.now) ≡ fault ∷ []) }
{
    if args.len() == declared.len() {
        Ok(())
    } else {
        Err(named(alloc, place, Reason::Arity, name))
    }
}

#[tactic(auto, using(crate::proofs::Steps::steps))]
fn object(alloc: Global, names: &Names, it: &Ident, due: Option<&Name>) -> Result<Term, Fault>
    ensures ok { IfOk result (λ made. of_type (declarations names.now) it.now (Term.Object it.now.name) (option_copied due.entry) (type_of (declarations names.now) it.now.name) ≡ parsed made) }
    ensures err { IfErr result (λ fault. ¬ (fault ≡ Fault.Memory) →
        first (of_type (declarations names.now) it.now (Term.Object it.now.name) (option_copied due.entry) (type_of (declarations names.now) it.now.name)) ≡ Some fault) }
{
    let Some(of) = names.type_of(&it.name) else {
        return Err(named(alloc, it.place, Reason::UnknownName, &it.name));
    };
    if !fits(names, of, due) {
        return Err(named(alloc, it.place, Reason::TypeMismatch, &it.name));
    }
    Ok(Term::Object(it.name.copy(alloc)?))
}

#[tactic(auto, using(crate::proofs::Steps::steps))]
fn variable(
    alloc: Global,
    names: &Names,
    scope: &Scope,
    it: &Ident,
    due: Option<&Name>,
) -> Result<Term, Fault>
    ensures ok { IfOk result (λ made.
        of_type (declarations names.now) it.now (Term.Var it.now.name) (option_copied due.entry) (variable_type (variables scope.now) it.now.name) ≡ parsed made) }
    ensures err { IfErr result (λ fault. ¬ (fault ≡ Fault.Memory) →
        first (of_type (declarations names.now) it.now (Term.Var it.now.name) (option_copied due.entry) (variable_type (variables scope.now) it.now.name)) ≡ Some fault) }
{
    let Some(of) = scope.type_of(&it.name) else {
        return Err(named(alloc, it.place, Reason::UnknownName, &it.name));
    };
    if !fits(names, of, due) {
        return Err(named(alloc, it.place, Reason::TypeMismatch, &it.name));
    }
    Ok(Term::Var(it.name.copy(alloc)?))
}

// Refuses the bracket of an object function where none may stand.
fn admitted(alloc: Global, setting: Setting, place: Place, function: &Name) -> Result<(), Fault>
    ensures ok { IfOk result (λ _. unadmitted setting place function.now ≡ []) }
    ensures err { IfErr result (λ fault. ¬ (fault ≡ Fault.Memory) → unadmitted setting place function.now ≡ fault ∷ []) }
{
    match setting {
        Setting::Plain => Ok(()),
        Setting::Constraint => Err(bare(place, Reason::LeftOut)),
        Setting::Metric => Err(named(alloc, place, Reason::MetricTerm, function)),
    }
}

/// An object term where an object of a type is due, or of any type.
///
/// A name or variable that isn't declared is `UnknownName`, and one of another type `TypeMismatch`; so is a number. Of a function at
/// arguments the faults come in this order: that of its name, `LeftOut` or `MetricTerm` at its bracket where none may stand,
/// `TypeMismatch` there by what it gives, `Arity` there, and those of its arguments.
#[cycle(term)]
#[tactic(auto, using(crate::proofs::TermNodes::term_nodes, crate::proofs::Steps::steps))]
pub fn checked_term(
    alloc: Global,
    names: &Names,
    scope: &Scope,
    setting: Setting,
    raw: &RawTerm,
    due: Option<&Name>,
) -> Result<Term, Fault>
    ensures ok { IfOk result (λ made. term (declarations names.now) (variables scope.now) setting raw.now (option_copied due.entry) ≡ parsed made) }
    ensures err { IfErr result (λ fault. ¬ (fault ≡ Fault.Memory) →
        first (term (declarations names.now) (variables scope.now) setting raw.now (option_copied due.entry)) ≡ Some fault) }
{
    match raw {
        RawTerm::Name(it) => object(alloc, names, it, due),
        RawTerm::Variable(it) => variable(alloc, names, scope, it, due),
        RawTerm::Number(place, _) | RawTerm::Arithmetic(place, _, _) => {
            Err(bare(*place, Reason::TypeMismatch))
        }
        RawTerm::Call(place, f, args) => {
            let declared = object_function(alloc, names, setting, *place, f, due)?;
            same_count(alloc, *place, &f.name, declared, args.as_slice())?;
            let args = checked_terms(alloc, names, scope, setting, declared, args.as_slice())?;
            Ok(Term::Fluent(f.name.copy(alloc)?, args))
        }
    }
}

// The types of the arguments of an object function that may stand at the place.
#[tactic(auto, using(crate::proofs::Steps::steps))]
fn object_function<'n>(
    alloc: Global,
    names: &'n Names,
    setting: Setting,
    place: Place,
    f: &Ident,
    due: Option<&Name>,
) -> Result<&'n [Name], Fault>
    ensures ok { IfOk result (λ args. object_function (declarations names.now) setting place f.now (option_copied due.entry) (function_of (declarations names.now) f.now.name) ≡ parsed args.now) }
    ensures err { IfErr result (λ fault. ¬ (fault ≡ Fault.Memory) →
        first (object_function (declarations names.now) setting place f.now (option_copied due.entry) (function_of (declarations names.now) f.now.name)) ≡ Some fault) }
{
    let Some(function) = names.function(&f.name) else {
        return Err(named(alloc, f.place, Reason::UnknownName, &f.name));
    };
    let Gives::Object(of) = &function.gives else {
        return Err(named(alloc, f.place, Reason::TypeMismatch, &f.name));
    };
    admitted(alloc, setting, place, &f.name)?;
    if !fits(names, of, due) {
        return Err(named(alloc, place, Reason::TypeMismatch, &f.name));
    }
    Ok(function.args.as_slice())
}

/// Arguments, as many as there are declared types, each of its type.
#[cycle(term)]
#[tactic(auto, using(crate::proofs::Steps::steps))]
pub fn checked_terms(
    alloc: Global,
    names: &Names,
    scope: &Scope,
    setting: Setting,
    declared: &[Name],
    args: &[RawTerm],
) -> Result<List<Term>, Fault>
    ensures ok { IfOk result (λ made. all (each_due declared.now (map (term (declarations names.now) (variables scope.now) setting) args.now)) ≡ parsed made) }
    ensures err { IfErr result (λ fault. ¬ (fault ≡ Fault.Memory) →
        first (all (each_due declared.now (map (term (declarations names.now) (variables scope.now) setting) args.now))) ≡ Some fault) }
{
    let mut made = List::new(alloc);
    let mut types = declared;
    for arg in args {
        let Some((due, others)) = types.split_first() else {
            return Ok(made);
        };
        made.push(checked_term(alloc, names, scope, setting, arg, Some(due))?)?;
        types = others;
    }
    Ok(made)
}
