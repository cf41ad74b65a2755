ghost use Rattle.std.specs.Prelude.{◌≡◌, [], ◌∷◌, Some, IfOk, IfErr};
ghost use Rattle.pddl_lex.specs.Parses.{parsed, first};
ghost use Rattle.pddl_parse.specs.Shapes.{ident};
ghost use Rattle.pddl_parse.specs.Actions.{condition};
ghost use Rattle.pddl_parse.specs.Constraints.{whole_constraint};
ghost use Rattle.pddl_parse.specs.Sections.{is_known, refusal, keyword_of, requirements, alone, domain_key, stands_once, domain_body, domain_known, in_domain_section, domain_section, problem_key, problem_body, problem_known, in_problem_section, problem_section};

use crate::action::{action, boxed_condition};
use crate::bracket::has_section;
use crate::constraint::whole_constraint;
use crate::ident::ident;
use crate::raw::{
    Ident, RawAction, RawConstraint, RawFormula, RawFunctions, RawGroup, RawInit, RawMetric,
    RawSymbol,
};
use crate::shape::{ShapeError, misfit, no_extra};
use crate::start::{metric, start};
use crate::symbol::{functions, predicates};
use crate::typed::{Item, typed_list};
use pddl_lex::{Sexp, TokenKind};
use std::alloc::Global;
use up_text::{Box, List, Place};

fn is_known(word: &[u8]) -> bool
    ensures { result ≡ is_known word.now }
{
    word == b"strips".as_slice()
        || word == b"typing".as_slice()
        || word == b"negative-preconditions".as_slice()
        || word == b"disjunctive-preconditions".as_slice()
        || word == b"equality".as_slice()
        || word == b"existential-preconditions".as_slice()
        || word == b"universal-preconditions".as_slice()
        || word == b"quantified-preconditions".as_slice()
        || word == b"conditional-effects".as_slice()
        || word == b"fluents".as_slice()
        || word == b"numeric-fluents".as_slice()
        || word == b"object-fluents".as_slice()
        || word == b"adl".as_slice()
        || word == b"action-costs".as_slice()
        || word == b"constraints".as_slice()
}

// Refuses what is no known requirement.
#[tactic(auto, using(crate::proofs::Nodes::section_nodes))]
fn requirement(tree: &Sexp) -> Result<(), ShapeError>
    ensures ok { IfOk result (λ _. refusal (keyword_of tree.now) tree.now ≡ []) }
    ensures err { IfErr result (λ fault. refusal (keyword_of tree.now) tree.now ≡ fault ∷ []) }
{
    match tree {
        Sexp::Leaf(token) => match &token.kind {
            TokenKind::Keyword(word) => {
                if is_known(word.as_slice()) {
                    Ok(())
                } else {
                    Err(ShapeError::LeftOut {
                        place: tree.place(),
                    })
                }
            }
            _ => Err(misfit(tree)),
        },
        Sexp::Group(_, _) => Err(misfit(tree)),
    }
}

fn requirements(items: &[Sexp]) -> Result<(), ShapeError>
    ensures ok { IfOk result (λ _. requirements DomainSection.Requirements items.now ≡ parsed DomainSection.Requirements) }
    ensures ok_of_problem { IfOk result (λ _. requirements ProblemSection.Requirements items.now ≡ parsed ProblemSection.Requirements) }
    ensures err { IfErr result (λ e. first (requirements DomainSection.Requirements items.now) ≡ Some e) }
    ensures err_of_problem { IfErr result (λ e. first (requirements ProblemSection.Requirements items.now) ≡ Some e) }
{
    let mut rest = items;
    'reading: while let Some((tree, behind)) = rest.split_first() {
        requirement(tree)?;
        rest = behind;
    }
    Ok(())
}

#[tactic(auto, using(crate::proofs::Steps::steps))]
fn constraint_alone(alloc: Global, place: Place, rest: &[Sexp]) -> Result<RawConstraint, ShapeError>
    ensures ok { IfOk result (λ it. alone place whole_constraint rest.now ≡ parsed it) }
    ensures err { IfErr result (λ e. ¬ (e ≡ ShapeError.Memory) → first (alone place whole_constraint rest.now) ≡ Some e) }
{
    let Some((tree, others)) = rest.split_first() else {
        return Err(ShapeError::Expected { place });
    };
    let read = whole_constraint(alloc, tree)?;
    match no_extra(others) {
        Ok(()) => Ok(read),
        Err(fault) => {
            drop(read);
            Err(fault)
        }
    }
}

#[tactic(auto, using(crate::proofs::Steps::steps))]
fn condition_alone(
    alloc: Global,
    place: Place,
    rest: &[Sexp],
) -> Result<Box<RawFormula>, ShapeError>
    ensures ok { IfOk result (λ it. alone place condition rest.now ≡ parsed it) }
    ensures err { IfErr result (λ e. ¬ (e ≡ ShapeError.Memory) → first (alone place condition rest.now) ≡ Some e) }
{
    let Some((tree, others)) = rest.split_first() else {
        return Err(ShapeError::Expected { place });
    };
    let read = boxed_condition(alloc, tree)?;
    no_extra(others)?;
    Ok(read)
}

#[tactic(auto, using(crate::proofs::Steps::steps))]
fn name_alone(alloc: Global, place: Place, rest: &[Sexp]) -> Result<Ident, ShapeError>
    ensures ok { IfOk result (λ it. alone place ident rest.now ≡ parsed it) }
    ensures err { IfErr result (λ e. ¬ (e ≡ ShapeError.Memory) → first (alone place ident rest.now) ≡ Some e) }
{
    let Some((tree, others)) = rest.split_first() else {
        return Err(ShapeError::Expected { place });
    };
    let read = ident(alloc, tree)?;
    no_extra(others)?;
    Ok(read)
}

/// What a section of a domain is of.
#[derive(Clone, Copy, Debug, PartialEq, Eq)]
pub enum DomainKey {
    Requirements,
    Types,
    Constants,
    Predicates,
    Functions,
    Action,
    Constraints,
}

/// A section of a domain.
#[derive(Drop)]
pub enum DomainSection {
    Requirements,
    Types(List<RawGroup>),
    Constants(List<RawGroup>),
    Predicates(List<RawSymbol>),
    Functions(List<RawFunctions>),
    Action(RawAction),
    Constraints(RawConstraint),
}

fn domain_key(word: &[u8]) -> Option<DomainKey>
    ensures { result ≡ domain_key word.now }
{
    if word == b"requirements".as_slice() {
        Some(DomainKey::Requirements)
    } else if word == b"types".as_slice() {
        Some(DomainKey::Types)
    } else if word == b"constants".as_slice() {
        Some(DomainKey::Constants)
    } else if word == b"predicates".as_slice() {
        Some(DomainKey::Predicates)
    } else if word == b"functions".as_slice() {
        Some(DomainKey::Functions)
    } else if word == b"action".as_slice() {
        Some(DomainKey::Action)
    } else if word == b"constraints".as_slice() {
        Some(DomainKey::Constraints)
    } else {
        None
    }
}

fn stands_once(key: DomainKey) -> bool
    ensures { result ≡ stands_once key }
{
    match key {
        DomainKey::Action => false,
        _ => true,
    }
}

#[tactic(auto, using(crate::proofs::Steps::steps))]
fn domain_body(
    alloc: Global,
    key: DomainKey,
    place: Place,
    rest: &[Sexp],
) -> Result<DomainSection, ShapeError>
    ensures ok { IfOk result (λ it. domain_body key place rest.now ≡ parsed it) }
    ensures err { IfErr result (λ e. ¬ (e ≡ ShapeError.Memory) → first (domain_body key place rest.now) ≡ Some e) }
{
    match key {
        DomainKey::Requirements => {
            requirements(rest)?;
            Ok(DomainSection::Requirements)
        }
        DomainKey::Types => Ok(DomainSection::Types(typed_list(alloc, Item::Name, place, rest)?)),
        DomainKey::Constants => Ok(DomainSection::Constants(typed_list(
            alloc,
            Item::Name,
            place,
            rest,
        )?)),
        DomainKey::Predicates => Ok(DomainSection::Predicates(predicates(alloc, rest)?)),
        DomainKey::Functions => Ok(DomainSection::Functions(functions(alloc, place, rest)?)),
        DomainKey::Action => Ok(DomainSection::Action(action(alloc, place, rest)?)),
        DomainKey::Constraints => Ok(DomainSection::Constraints(constraint_alone(
            alloc, place, rest,
        )?)),
    }
}

#[tactic(auto, using(crate::proofs::Steps::steps))]
fn domain_known(
    alloc: Global,
    word: &[u8],
    before: &[Sexp],
    place: Place,
    rest: &[Sexp],
) -> Result<DomainSection, ShapeError>
    ensures ok { IfOk result (λ it. domain_known (domain_key word.now) word.now before.now place rest.now ≡ parsed it) }
    ensures err { IfErr result (λ e. ¬ (e ≡ ShapeError.Memory) → first (domain_known (domain_key word.now) word.now before.now place rest.now) ≡ Some e) }
{
    match domain_key(word) {
        None => Err(ShapeError::LeftOut { place }),
        Some(key) => {
            if stands_once(key) && has_section(word, before) {
                Err(ShapeError::Duplicate { place })
            } else {
                domain_body(alloc, key, place, rest)
            }
        }
    }
}

#[tactic(auto, using(crate::proofs::Nodes::section_nodes))]
fn in_domain_section(
    alloc: Global,
    before: &[Sexp],
    place: Place,
    items: &[Sexp],
) -> Result<DomainSection, ShapeError>
    ensures ok { IfOk result (λ it. in_domain_section before.now place items.now ≡ parsed it) }
    ensures err { IfErr result (λ e. ¬ (e ≡ ShapeError.Memory) → first (in_domain_section before.now place items.now) ≡ Some e) }
{
    let Some((head, rest)) = items.split_first() else {
        return Err(ShapeError::Expected { place });
    };
    match head {
        Sexp::Leaf(token) => match &token.kind {
            TokenKind::Keyword(word) => domain_known(alloc, word.as_slice(), before, place, rest),
            _ => Err(misfit(head)),
        },
        Sexp::Group(_, _) => Err(misfit(head)),
    }
}

/// A section of a domain behind others.
#[tactic(auto, using(crate::proofs::Nodes::section_nodes))]
pub fn domain_section(
    alloc: Global,
    before: &[Sexp],
    tree: &Sexp,
) -> Result<DomainSection, ShapeError>
    ensures ok { IfOk result (λ it. domain_section before.now tree.now ≡ parsed it) }
    ensures err { IfErr result (λ e. ¬ (e ≡ ShapeError.Memory) → first (domain_section before.now tree.now) ≡ Some e) }
{
    match tree {
        Sexp::Leaf(_) => Err(misfit(tree)),
        Sexp::Group(place, items) => in_domain_section(alloc, before, *place, items.as_slice()),
    }
}

/// What a section of a problem is of.
#[derive(Clone, Copy, Debug, PartialEq, Eq)]
pub enum ProblemKey {
    Domain,
    Requirements,
    Objects,
    Init,
    Goal,
    Constraints,
    Metric,
}

/// A section of a problem.
#[derive(Drop)]
pub enum ProblemSection {
    Domain(Ident),
    Requirements,
    Objects(List<RawGroup>),
    Init(List<RawInit>),
    Goal(Box<RawFormula>),
    Constraints(RawConstraint),
    Metric(RawMetric),
}

fn problem_key(word: &[u8]) -> Option<ProblemKey>
    ensures { result ≡ problem_key word.now }
{
    if word == b"domain".as_slice() {
        Some(ProblemKey::Domain)
    } else if word == b"requirements".as_slice() {
        Some(ProblemKey::Requirements)
    } else if word == b"objects".as_slice() {
        Some(ProblemKey::Objects)
    } else if word == b"init".as_slice() {
        Some(ProblemKey::Init)
    } else if word == b"goal".as_slice() {
        Some(ProblemKey::Goal)
    } else if word == b"constraints".as_slice() {
        Some(ProblemKey::Constraints)
    } else if word == b"metric".as_slice() {
        Some(ProblemKey::Metric)
    } else {
        None
    }
}

#[tactic(auto, using(crate::proofs::Steps::steps))]
fn problem_body(
    alloc: Global,
    key: ProblemKey,
    place: Place,
    rest: &[Sexp],
) -> Result<ProblemSection, ShapeError>
    ensures ok { IfOk result (λ it. problem_body key place rest.now ≡ parsed it) }
    ensures err { IfErr result (λ e. ¬ (e ≡ ShapeError.Memory) → first (problem_body key place rest.now) ≡ Some e) }
{
    match key {
        ProblemKey::Domain => Ok(ProblemSection::Domain(name_alone(alloc, place, rest)?)),
        ProblemKey::Requirements => {
            requirements(rest)?;
            Ok(ProblemSection::Requirements)
        }
        ProblemKey::Objects => Ok(ProblemSection::Objects(typed_list(
            alloc,
            Item::Name,
            place,
            rest,
        )?)),
        ProblemKey::Init => Ok(ProblemSection::Init(start(alloc, rest)?)),
        ProblemKey::Goal => Ok(ProblemSection::Goal(condition_alone(alloc, place, rest)?)),
        ProblemKey::Constraints => Ok(ProblemSection::Constraints(constraint_alone(
            alloc, place, rest,
        )?)),
        ProblemKey::Metric => Ok(ProblemSection::Metric(metric(alloc, place, rest)?)),
    }
}

#[tactic(auto, using(crate::proofs::Steps::steps))]
fn problem_known(
    alloc: Global,
    word: &[u8],
    before: &[Sexp],
    place: Place,
    rest: &[Sexp],
) -> Result<ProblemSection, ShapeError>
    ensures ok { IfOk result (λ it. problem_known (problem_key word.now) word.now before.now place rest.now ≡ parsed it) }
    ensures err { IfErr result (λ e. ¬ (e ≡ ShapeError.Memory) → first (problem_known (problem_key word.now) word.now before.now place rest.now) ≡ Some e) }
{
    match problem_key(word) {
        None => Err(ShapeError::LeftOut { place }),
        Some(key) => {
            if has_section(word, before) {
                Err(ShapeError::Duplicate { place })
            } else {
                problem_body(alloc, key, place, rest)
            }
        }
    }
}

#[tactic(auto, using(crate::proofs::Nodes::section_nodes))]
fn in_problem_section(
    alloc: Global,
    before: &[Sexp],
    place: Place,
    items: &[Sexp],
) -> Result<ProblemSection, ShapeError>
    ensures ok { IfOk result (λ it. in_problem_section before.now place items.now ≡ parsed it) }
    ensures err { IfErr result (λ e. ¬ (e ≡ ShapeError.Memory) → first (in_problem_section before.now place items.now) ≡ Some e) }
{
    let Some((head, rest)) = items.split_first() else {
        return Err(ShapeError::Expected { place });
    };
    match head {
        Sexp::Leaf(token) => match &token.kind {
            TokenKind::Keyword(word) => problem_known(alloc, word.as_slice(), before, place, rest),
            _ => Err(misfit(head)),
        },
        Sexp::Group(_, _) => Err(misfit(head)),
    }
}

/// A section of a problem behind others.
#[tactic(auto, using(crate::proofs::Nodes::section_nodes))]
pub fn problem_section(
    alloc: Global,
    before: &[Sexp],
    tree: &Sexp,
) -> Result<ProblemSection, ShapeError>
    ensures ok { IfOk result (λ it. problem_section before.now tree.now ≡ parsed it) }
    ensures err { IfErr result (λ e. ¬ (e ≡ ShapeError.Memory) → first (problem_section before.now tree.now) ≡ Some e) }
{
    match tree {
        Sexp::Leaf(_) => Err(misfit(tree)),
        Sexp::Group(place, items) => in_problem_section(alloc, before, *place, items.as_slice()),
    }
}
