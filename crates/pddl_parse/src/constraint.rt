ghost use Rattle.std.specs.Prelude.{◌≡◌, Some, IfOk, IfErr, map};
ghost use Rattle.pddl_lex.specs.Parses.{parsed, first, all, followed};
ghost use Rattle.pddl_parse.specs.Shapes.{extra};
ghost use Rattle.pddl_parse.specs.Constraints.{unknown_kind, unknown, of_one, of_two, of_each, on_one, on_two, constraint, whole_constraint};

use crate::bracket::is_empty;
use crate::formula::boxed_formula;
use crate::head::{ConstraintHead, Paired, Single, constraint_head};
use crate::raw::{RawConstraint, RawFormula, RawGroup};
use crate::shape::{ShapeError, is_left_out, misfit, no_extra};
use crate::typed::variables;
use pddl_lex::{Sexp, TokenKind};
use std::alloc::Global;
use up_text::{Box, List, Place};

fn unknown_kind(place: Place, at: Place, kind: &TokenKind) -> ShapeError
    ensures { result ≡ unknown_kind place at kind.now }
{
    match kind {
        TokenKind::Word(word) => {
            if is_left_out(word.as_slice()) {
                ShapeError::LeftOut { place: at }
            } else {
                ShapeError::LeftOut { place }
            }
        }
        _ => ShapeError::LeftOut { place },
    }
}

// The fault of a bracket that begins with another tree.
#[tactic(auto, using(crate::proofs::Nodes::constraint_nodes))]
fn unknown(place: Place, head: &Sexp) -> ShapeError
    ensures { result ≡ unknown place head.now }
{
    match head {
        Sexp::Leaf(token) => unknown_kind(place, token.place, &token.kind),
        Sexp::Group(_, _) => ShapeError::LeftOut { place },
    }
}

fn of_one(single: Single, f: Box<RawFormula>) -> RawConstraint
    ensures { result ≡ of_one single f }
{
    match single {
        Single::Always => RawConstraint::Always(f),
        Single::Sometime => RawConstraint::Sometime(f),
        Single::AtMostOnce => RawConstraint::AtMostOnce(f),
    }
}

fn of_two(paired: Paired, f: Box<RawFormula>, g: Box<RawFormula>) -> RawConstraint
    ensures { result ≡ of_two paired f g }
{
    match paired {
        Paired::SometimeAfter => RawConstraint::SometimeAfter(f, g),
        Paired::SometimeBefore => RawConstraint::SometimeBefore(f, g),
    }
}

#[tactic(auto, using(crate::proofs::Steps::steps))]
fn on_one(
    alloc: Global,
    place: Place,
    single: Single,
    rest: &[Sexp],
) -> Result<RawConstraint, ShapeError>
    ensures ok { IfOk result (λ it. on_one place single rest.now ≡ parsed it) }
    ensures err { IfErr result (λ e. ¬ (e ≡ ShapeError.Memory) → first (on_one place single rest.now) ≡ Some e) }
{
    let Some((tree, others)) = rest.split_first() else {
        return Err(ShapeError::Expected { place });
    };
    let f = boxed_formula(alloc, tree)?;
    no_extra(others)?;
    Ok(of_one(single, f))
}

#[tactic(auto, using(crate::proofs::Steps::steps))]
fn on_two(
    alloc: Global,
    place: Place,
    paired: Paired,
    rest: &[Sexp],
) -> Result<RawConstraint, ShapeError>
    ensures ok { IfOk result (λ it. on_two place paired rest.now ≡ parsed it) }
    ensures err { IfErr result (λ e. ¬ (e ≡ ShapeError.Memory) → first (on_two place paired rest.now) ≡ Some e) }
{
    let Some((one, others)) = rest.split_first() else {
        return Err(ShapeError::Expected { place });
    };
    let Some((two, others)) = others.split_first() else {
        return Err(ShapeError::Expected { place });
    };
    let f = boxed_formula(alloc, one)?;
    let g = boxed_formula(alloc, two)?;
    no_extra(others)?;
    Ok(of_two(paired, f, g))
}

fn boxed(alloc: Global, body: RawConstraint) -> Result<Box<RawConstraint>, ShapeError>
    ensures ok { IfOk result (λ it. it ≡ body) }
    ensures err { IfErr result (λ e. e ≡ ShapeError.Memory) }
{
    Ok(Box::new(alloc, body)?)
}

#[tactic(auto, using(crate::proofs::Steps::steps))]
fn each_of(
    vars: List<RawGroup>,
    body: Box<RawConstraint>,
    others: &[Sexp],
) -> Result<RawConstraint, ShapeError>
    ensures ok { IfOk result (λ it. followed (parsed (RawConstraint.Forall vars body)) (extra others.now) ≡ parsed it) }
    ensures err { IfErr result (λ e. ¬ (e ≡ ShapeError.Memory) → first (followed (parsed (RawConstraint.Forall vars body)) (extra others.now)) ≡ Some e) }
{
    no_extra(others)?;
    Ok(RawConstraint::Forall(vars, body))
}

#[cycle(constraint)]
#[tactic(auto, using(crate::proofs::Steps::steps))]
fn for_all(alloc: Global, place: Place, rest: &[Sexp]) -> Result<RawConstraint, ShapeError>
    ensures ok { IfOk result (λ it. of_each place rest.now (map constraint rest.now) ≡ parsed it) }
    ensures err { IfErr result (λ e. ¬ (e ≡ ShapeError.Memory) → first (of_each place rest.now (map constraint rest.now)) ≡ Some e) }
{
    let Some((one, others)) = rest.split_first() else {
        return Err(ShapeError::Expected { place });
    };
    let Some((two, others)) = others.split_first() else {
        return Err(ShapeError::Expected { place });
    };
    let vars = variables(alloc, one)?;
    let body = boxed(alloc, raw_constraint(alloc, two)?)?;
    each_of(vars, body, others)
}

#[cycle(constraint)]
#[tactic(auto, using(crate::proofs::Steps::steps))]
fn raw_constraints(alloc: Global, items: &[Sexp]) -> Result<List<RawConstraint>, ShapeError>
    ensures ok { IfOk result (λ them. all (map constraint items.now) ≡ parsed them) }
    ensures err { IfErr result (λ e. ¬ (e ≡ ShapeError.Memory) → first (all (map constraint items.now)) ≡ Some e) }
{
    let mut made = List::new(alloc);
    for tree in items {
        made.push(raw_constraint(alloc, tree)?)?;
    }
    Ok(made)
}

#[cycle(constraint)]
#[tactic(auto, using(crate::proofs::Nodes::constraint_nodes, crate::proofs::Steps::steps))]
fn raw_constraint(alloc: Global, tree: &Sexp) -> Result<RawConstraint, ShapeError>
    ensures ok { IfOk result (λ it. constraint tree.now ≡ parsed it) }
    ensures err { IfErr result (λ e. ¬ (e ≡ ShapeError.Memory) → first (constraint tree.now) ≡ Some e) }
{
    let (place, items) = match tree {
        Sexp::Leaf(_) => return Err(misfit(tree)),
        Sexp::Group(place, items) => (*place, items.as_slice()),
    };
    let Some((head, rest)) = items.split_first() else {
        return Err(ShapeError::Expected { place });
    };
    match constraint_head(head) {
        ConstraintHead::And => Ok(RawConstraint::And(raw_constraints(alloc, rest)?)),
        ConstraintHead::Forall => for_all(alloc, place, rest),
        ConstraintHead::Single(single) => on_one(alloc, place, single, rest),
        ConstraintHead::Paired(paired) => on_two(alloc, place, paired, rest),
        ConstraintHead::Other => Err(unknown(place, head)),
    }
}

/// The constraint of a section.
#[tactic(auto, using(crate::proofs::Steps::steps))]
pub fn whole_constraint(alloc: Global, tree: &Sexp) -> Result<RawConstraint, ShapeError>
    ensures ok { IfOk result (λ it. whole_constraint tree.now ≡ parsed it) }
    ensures err { IfErr result (λ e. ¬ (e ≡ ShapeError.Memory) → first (whole_constraint tree.now) ≡ Some e) }
{
    if is_empty(tree) {
        return Ok(RawConstraint::And(List::new(alloc)));
    }
    raw_constraint(alloc, tree)
}
