ghost use Rattle.std.specs.Prelude.{◌≡◌, ◌∷◌, [], Some, IfOk, IfErr, OnOk, not};
ghost use Rattle.up_text.specs.Fresh.{is_among, with_name};
ghost use Rattle.pddl_lex.specs.Parses.{parsed, first};
ghost use Rattle.up_phrase.specs.Declarations.{declarations};
ghost use Rattle.up_check.specs.Constraints.{constraints};
ghost use Rattle.up_check.specs.Domains.{actions, declared, domain_names, known, known_of, second, symbols};

use crate::constraint::push_constraints;
use pddl_parse::{DomainForm, Ident, RawAction};
use std::alloc::Global;
use up_declare::{declare_functions, declare_objects, declare_predicates, declared_types};
use up_effect::checked_action;
use up_phrase::{Fault, Names, Reason, named};
use up_text::{List, Memory, Name, NameSet};
use up_tree::{Action, Constraint};

/// What a domain text gives.
#[derive(Drop)]
pub struct Domain {
    pub name: Name,
    /// What it declares; the objects are its constants.
    pub names: Names,
    pub actions: List<Action>,
    pub constraints: List<Constraint>,
}

/// The domain of a form, by its sections in the order types, constants, predicates, functions, actions, constraints.
#[tactic(auto, using(up_phrase::proofs::Steps::steps))]
pub fn checked_domain(alloc: Global, form: &DomainForm) -> Result<Domain, Fault>
    ensures ok { IfOk result (λ made. domain_names form.now ≡ parsed (known_of made)) }
    ensures err { IfErr result (λ fault. ¬ (fault ≡ Fault.Memory) → first (domain_names form.now) ≡ Some fault) }
{
    match declared_names(alloc, form) {
        Ok(names) => in_names(alloc, form, names),
        Err(fault) => Err(fault),
    }
}

// Types, then constants, then predicates, then functions.
#[tactic(auto, using(crate::proofs::Declaring::declaring, up_phrase::proofs::Steps::steps))]
fn declared_names(alloc: Global, form: &DomainForm) -> Result<Names, Fault>
    ensures ok { IfOk result (λ names. declared form.now ≡ parsed (declarations names)) }
    ensures err { IfErr result (λ fault. ¬ (fault ≡ Fault.Memory) → first (declared form.now) ≡ Some fault) }
{
    let types = declared_types(alloc, form.types.as_slice())?;
    let mut names = Names::new(alloc, types);
    match declare_symbols(alloc, form, &mut names) {
        Ok(()) => Ok(names),
        Err(fault) => {
            drop(names);
            Err(fault)
        }
    }
}

// Constants, then predicates, then functions.
#[tactic(auto, using(up_phrase::proofs::Steps::steps))]
fn declare_symbols(alloc: Global, form: &DomainForm, names: &mut Names) -> Result<(), Fault>
    ensures ok { OnOk result (symbols form.now (declarations names.old) ≡ parsed (declarations names.new)) }
    ensures err { IfErr result (λ fault. ¬ (fault ≡ Fault.Memory) → first (symbols form.now (declarations names.old)) ≡ Some fault) }
{
    declare_objects(alloc, names, form.constants.as_slice())?;
    declare_predicates(alloc, names, form.predicates.as_slice())?;
    declare_functions(alloc, names, form.functions.as_slice())
}

// Actions, then constraints.
#[tactic(auto, using(up_phrase::proofs::Steps::steps))]
fn in_names(alloc: Global, form: &DomainForm, names: Names) -> Result<Domain, Fault>
    ensures ok { IfOk result (λ made. known form.now (declarations names) ≡ parsed (known_of made)) }
    ensures err { IfErr result (λ fault. ¬ (fault ≡ Fault.Memory) → first (known form.now (declarations names)) ≡ Some fault) }
{
    match checked_sections(alloc, form, &names) {
        Ok(
            Sections {
                name,
                actions,
                constraints,
            },
        ) => Ok(Domain {
            name,
            names,
            actions,
            constraints,
        }),
        Err(fault) => {
            drop(names);
            Err(fault)
        }
    }
}

// What a domain holds beside what it declares.
#[derive(Drop)]
struct Sections {
    name: Name,
    actions: List<Action>,
    constraints: List<Constraint>,
}

#[tactic(auto, using(up_phrase::proofs::Steps::steps))]
fn checked_sections(alloc: Global, form: &DomainForm, names: &Names) -> Result<Sections, Fault>
    ensures name { IfOk result (λ made. made.name ≡ form.now.name.name) }
    ensures actions { IfOk result (λ made. actions (declarations names.now) [] form.now.actions ≡ parsed made.actions) }
    ensures constraints { IfOk result (λ made. constraints (declarations names.now) [] form.now.constraints ≡ parsed made.constraints) }
    ensures err { IfErr result (λ fault. ¬ (fault ≡ Fault.Memory) → first (known form.now (declarations names.now)) ≡ Some fault) }
{
    let actions = checked_actions(alloc, names, form.actions.as_slice())?;
    let constraints = push_constraints(alloc, names, &form.constraints, List::new(alloc))?;
    Ok(Sections {
        name: form.name.name.copy(alloc)?,
        actions,
        constraints,
    })
}

fn checked_actions(alloc: Global, names: &Names, raws: &[RawAction]) -> Result<List<Action>, Fault>
    ensures ok { IfOk result (λ made. actions (declarations names.now) [] raws.now ≡ parsed made) }
    ensures err { IfErr result (λ fault. ¬ (fault ≡ Fault.Memory) → first (actions (declarations names.now) [] raws.now) ≡ Some fault) }
{
    let mut declared = NameSet::new(alloc);
    let actions = actions_after(alloc, names, &mut declared, raws);
    drop(declared);
    actions
}

// Actions after those of these names.
#[tactic(auto, using(crate::proofs::Declaring::declaring, up_phrase::proofs::Steps::steps))]
fn actions_after(
    alloc: Global,
    names: &Names,
    declared: &mut NameSet,
    raws: &[RawAction],
) -> Result<List<Action>, Fault>
    ensures ok { IfOk result (λ made. actions (declarations names.now) declared.old raws.now ≡ parsed made) }
    ensures err { IfErr result (λ fault. ¬ (fault ≡ Fault.Memory) → first (actions (declarations names.now) declared.old raws.now) ≡ Some fault) }
{
    let mut actions = List::new(alloc);
    for raw in raws {
        declare_action(alloc, &raw.name, declared)?;
        actions.push(checked_action(alloc, names, raw)?)?;
    }
    Ok(actions)
}

// Answers `Duplicate` at a name that is declared.
fn declare_action(alloc: Global, it: &Ident, declared: &mut NameSet) -> Result<(), Fault>
    ensures ok { OnOk result (second declared.old it.now ≡ []) }
    ensures added { OnOk result (declared.new ≡ with_name declared.old it.now.name) }
    ensures err { IfErr result (λ fault. ¬ (fault ≡ Fault.Memory) → second declared.old it.now ≡ fault ∷ []) }
{
    if is_added(alloc, &it.name, declared)? {
        Ok(())
    } else {
        Err(named(alloc, it.place, Reason::Duplicate, &it.name))
    }
}

fn is_added(alloc: Global, name: &Name, names: &mut NameSet) -> Result<bool, Memory>
    ensures names { OnOk result (names.new ≡ with_name names.old name.now) }
    ensures added { IfOk result (λ added. added ≡ not (is_among names.old name.now)) }
{
    names.add(name.copy(alloc)?)
}
