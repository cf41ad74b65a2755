ghost use Rattle.std.specs.Prelude.{◌≡◌, Some, IfOk, IfErr, map};
ghost use Rattle.pddl_lex.specs.Parses.{parsed, first, all, followed};
ghost use Rattle.pddl_parse.specs.Formulas.{formula, negation, implication, quantified, quantify, comparison};
ghost use Rattle.pddl_parse.specs.Shapes.{extra};

use crate::head::{Head, Quantifier, head_of};
use crate::ident::ident;
use crate::raw::{RawFormula, RawGroup, Relation};
use crate::shape::{ShapeError, misfit, no_extra};
use crate::term::{raw_term, raw_terms};
use crate::typed::variables;
use pddl_lex::Sexp;
use std::alloc::Global;
use up_text::{Box, List, Place};

/// A condition.
#[cycle(formula)]
#[tactic(auto, using(crate::proofs::Nodes::nodes, crate::proofs::Steps::steps))]
pub fn raw_formula(alloc: Global, tree: &Sexp) -> Result<RawFormula, ShapeError>
    ensures ok { IfOk result (λ it. formula tree.now ≡ parsed it) }
    ensures err { IfErr result (λ e. ¬ (e ≡ ShapeError.Memory) → first (formula tree.now) ≡ Some e) }
{
    let (place, items) = match tree {
        Sexp::Leaf(_) => return Err(misfit(tree)),
        Sexp::Group(place, items) => (*place, items.as_slice()),
    };
    let Some((head, rest)) = items.split_first() else {
        return Err(ShapeError::Expected { place });
    };
    match head_of(head) {
        Head::And => Ok(RawFormula::And(raw_formulas(alloc, rest)?)),
        Head::Or => Ok(RawFormula::Or(raw_formulas(alloc, rest)?)),
        Head::Not => negation(alloc, place, rest),
        Head::Imply => implication(alloc, place, rest),
        Head::Quantifier(quantifier) => quantified(alloc, place, quantifier, rest),
        Head::Compare(relation) => comparison(alloc, place, relation, rest),
        Head::Other => {
            let name = ident(alloc, head)?;
            let args = raw_terms(alloc, rest)?;
            Ok(RawFormula::Atom(place, name, args))
        }
    }
}

#[cycle(formula)]
#[tactic(auto, using(crate::proofs::Steps::steps))]
fn negation(alloc: Global, place: Place, rest: &[Sexp]) -> Result<RawFormula, ShapeError>
    ensures ok { IfOk result (λ it. negation place rest.now (map formula rest.now) ≡ parsed it) }
    ensures err { IfErr result (λ e. ¬ (e ≡ ShapeError.Memory) → first (negation place rest.now (map formula rest.now)) ≡ Some e) }
{
    let Some((tree, others)) = rest.split_first() else {
        return Err(ShapeError::Expected { place });
    };
    let body = raw_formula(alloc, tree)?;
    negated(alloc, body, others)
}

#[tactic(auto, using(crate::proofs::Steps::steps))]
fn negated(alloc: Global, body: RawFormula, others: &[Sexp]) -> Result<RawFormula, ShapeError>
    ensures ok { IfOk result (λ it. followed (parsed (RawFormula.Not body)) (extra others.now) ≡ parsed it) }
    ensures err { IfErr result (λ e. ¬ (e ≡ ShapeError.Memory) → first (followed (parsed (RawFormula.Not body)) (extra others.now)) ≡ Some e) }
{
    match no_extra(others) {
        Ok(()) => Ok(RawFormula::Not(Box::new(alloc, body)?)),
        Err(fault) => {
            drop(body);
            Err(fault)
        }
    }
}

#[cycle(formula)]
#[tactic(auto, using(crate::proofs::Steps::steps))]
fn implication(alloc: Global, place: Place, rest: &[Sexp]) -> Result<RawFormula, ShapeError>
    ensures ok { IfOk result (λ it. implication place rest.now (map formula rest.now) ≡ parsed it) }
    ensures err { IfErr result (λ e. ¬ (e ≡ ShapeError.Memory) → first (implication place rest.now (map formula rest.now)) ≡ Some e) }
{
    let Some((one, others)) = rest.split_first() else {
        return Err(ShapeError::Expected { place });
    };
    let Some((two, others)) = others.split_first() else {
        return Err(ShapeError::Expected { place });
    };
    let a = boxed(alloc, raw_formula(alloc, one)?)?;
    let b = boxed(alloc, raw_formula(alloc, two)?)?;
    implied(a, b, others)
}

fn boxed(alloc: Global, body: RawFormula) -> Result<Box<RawFormula>, ShapeError>
    ensures ok { IfOk result (λ it. it ≡ body) }
    ensures err { IfErr result (λ e. e ≡ ShapeError.Memory) }
{
    Ok(Box::new(alloc, body)?)
}

#[tactic(auto, using(crate::proofs::Steps::steps))]
fn implied(
    a: Box<RawFormula>,
    b: Box<RawFormula>,
    others: &[Sexp],
) -> Result<RawFormula, ShapeError>
    ensures ok { IfOk result (λ it. followed (parsed (RawFormula.Imply a b)) (extra others.now) ≡ parsed it) }
    ensures err { IfErr result (λ e. ¬ (e ≡ ShapeError.Memory) → first (followed (parsed (RawFormula.Imply a b)) (extra others.now)) ≡ Some e) }
{
    no_extra(others)?;
    Ok(RawFormula::Imply(a, b))
}

#[cycle(formula)]
#[tactic(auto, using(crate::proofs::Steps::steps))]
fn quantified(
    alloc: Global,
    place: Place,
    quantifier: Quantifier,
    rest: &[Sexp],
) -> Result<RawFormula, ShapeError>
    ensures ok { IfOk result (λ it. quantified place quantifier rest.now (map formula rest.now) ≡ parsed it) }
    ensures err { IfErr result (λ e. ¬ (e ≡ ShapeError.Memory) → first (quantified place quantifier rest.now (map formula rest.now)) ≡ Some e) }
{
    let Some((one, others)) = rest.split_first() else {
        return Err(ShapeError::Expected { place });
    };
    let Some((two, others)) = others.split_first() else {
        return Err(ShapeError::Expected { place });
    };
    let vars = variables(alloc, one)?;
    let body = raw_formula(alloc, two)?;
    quantify(alloc, quantifier, vars, body, others)
}

#[tactic(auto, using(crate::proofs::Steps::steps))]
fn quantify(
    alloc: Global,
    quantifier: Quantifier,
    vars: List<RawGroup>,
    body: RawFormula,
    others: &[Sexp],
) -> Result<RawFormula, ShapeError>
    ensures ok { IfOk result (λ it. followed (parsed (quantify quantifier vars body)) (extra others.now) ≡ parsed it) }
    ensures err { IfErr result (λ e. ¬ (e ≡ ShapeError.Memory) → first (followed (parsed (quantify quantifier vars body)) (extra others.now)) ≡ Some e) }
{
    if let Err(fault) = no_extra(others) {
        drop(body);
        return Err(fault);
    }
    let body = Box::new(alloc, body)?;
    match quantifier {
        Quantifier::Exists => Ok(RawFormula::Exists(vars, body)),
        Quantifier::Forall => Ok(RawFormula::Forall(vars, body)),
    }
}

#[tactic(auto, using(crate::proofs::Steps::steps))]
fn comparison(
    alloc: Global,
    place: Place,
    relation: Relation,
    rest: &[Sexp],
) -> Result<RawFormula, ShapeError>
    ensures ok { IfOk result (λ it. comparison place relation rest.now ≡ parsed it) }
    ensures err { IfErr result (λ e. ¬ (e ≡ ShapeError.Memory) → first (comparison place relation rest.now) ≡ Some e) }
{
    let Some((one, others)) = rest.split_first() else {
        return Err(ShapeError::Expected { place });
    };
    let Some((two, others)) = others.split_first() else {
        return Err(ShapeError::Expected { place });
    };
    let a = raw_term(alloc, one)?;
    let b = match raw_term(alloc, two) {
        Ok(b) => b,
        Err(fault) => {
            drop(a);
            return Err(fault);
        }
    };
    match no_extra(others) {
        Ok(()) => Ok(RawFormula::Compare(place, relation, a, b)),
        Err(fault) => {
            drop(a);
            drop(b);
            Err(fault)
        }
    }
}

/// A condition in a box.
#[tactic(auto, using(crate::proofs::Steps::steps))]
pub fn boxed_formula(alloc: Global, tree: &Sexp) -> Result<Box<RawFormula>, ShapeError>
    ensures ok { IfOk result (λ it. formula tree.now ≡ parsed it) }
    ensures err { IfErr result (λ e. ¬ (e ≡ ShapeError.Memory) → first (formula tree.now) ≡ Some e) }
{
    boxed(alloc, raw_formula(alloc, tree)?)
}

#[cycle(formula)]
#[tactic(auto, using(crate::proofs::Steps::steps))]
fn raw_formulas(alloc: Global, items: &[Sexp]) -> Result<List<RawFormula>, ShapeError>
    ensures ok { IfOk result (λ them. all (map formula items.now) ≡ parsed them) }
    ensures err { IfErr result (λ e. ¬ (e ≡ ShapeError.Memory) → first (all (map formula items.now)) ≡ Some e) }
{
    let mut made = List::new(alloc);
    for tree in items {
        made.push(raw_formula(alloc, tree)?)?;
    }
    Ok(made)
}
