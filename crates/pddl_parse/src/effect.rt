ghost use Rattle.std.specs.Prelude.{◌≡◌, Some, IfOk, IfErr, map};
ghost use Rattle.pddl_lex.specs.Parses.{parsed, first, all, followed};
ghost use Rattle.pddl_parse.specs.Shapes.{extra};
ghost use Rattle.pddl_parse.specs.Effects.{in_call, call, is_undefined, new_value, changed, change_effect, deletion, for_all, conditional, effect, whole_effect};

use crate::bracket::{is_empty, is_word};
use crate::formula::raw_formula;
use crate::head::{EffectHead, effect_head};
use crate::ident::ident;
use crate::raw::{RawCall, RawChange, RawEffect, RawFormula, RawGroup, RawTerm};
use crate::shape::{ShapeError, misfit, no_extra};
use crate::term::{raw_term, raw_terms};
use crate::typed::variables;
use pddl_lex::Sexp;
use std::alloc::Global;
use up_text::{Box, List, Place};

#[tactic(auto, using(crate::proofs::Steps::steps))]
fn in_call(alloc: Global, place: Place, items: &[Sexp]) -> Result<RawCall, ShapeError>
    ensures ok { IfOk result (λ it. in_call place items.now ≡ parsed it) }
    ensures err { IfErr result (λ e. ¬ (e ≡ ShapeError.Memory) → first (in_call place items.now) ≡ Some e) }
{
    let Some((head, rest)) = items.split_first() else {
        return Err(ShapeError::Expected { place });
    };
    let name = ident(alloc, head)?;
    let args = raw_terms(alloc, rest)?;
    Ok(RawCall { place, name, args })
}

#[tactic(auto, using(crate::proofs::Nodes::marks))]
fn call(alloc: Global, tree: &Sexp) -> Result<RawCall, ShapeError>
    ensures ok { IfOk result (λ it. call tree.now ≡ parsed it) }
    ensures err { IfErr result (λ e. ¬ (e ≡ ShapeError.Memory) → first (call tree.now) ≡ Some e) }
{
    match tree {
        Sexp::Leaf(_) => Err(misfit(tree)),
        Sexp::Group(place, items) => in_call(alloc, *place, items.as_slice()),
    }
}

// What an effect gives a function.
#[derive(Drop)]
pub enum NewValue {
    Value(RawTerm),
    Undefined(Place),
}

fn is_undefined(c: RawChange, tree: &Sexp) -> bool
    ensures { result ≡ is_undefined c tree.now }
{
    match c {
        RawChange::Assign => is_word(b"undefined".as_slice(), tree),
        _ => false,
    }
}

#[tactic(auto, using(crate::proofs::Steps::steps))]
fn new_value(alloc: Global, c: RawChange, tree: &Sexp) -> Result<NewValue, ShapeError>
    ensures ok { IfOk result (λ it. new_value c tree.now ≡ parsed it) }
    ensures err { IfErr result (λ e. ¬ (e ≡ ShapeError.Memory) → first (new_value c tree.now) ≡ Some e) }
{
    if is_undefined(c, tree) {
        return Ok(NewValue::Undefined(tree.place()));
    }
    Ok(NewValue::Value(raw_term(alloc, tree)?))
}

fn changed(c: RawChange, target: RawCall, value: NewValue) -> RawEffect
    ensures { result ≡ changed c target value }
{
    match value {
        NewValue::Value(value) => RawEffect::Change(c, target, value),
        NewValue::Undefined(place) => RawEffect::Undefine(target, place),
    }
}

#[tactic(auto, using(crate::proofs::Steps::steps))]
fn change_effect(
    alloc: Global,
    place: Place,
    c: RawChange,
    rest: &[Sexp],
) -> Result<RawEffect, ShapeError>
    ensures ok { IfOk result (λ it. change_effect place c rest.now ≡ parsed it) }
    ensures err { IfErr result (λ e. ¬ (e ≡ ShapeError.Memory) → first (change_effect place c rest.now) ≡ Some e) }
{
    let Some((one, others)) = rest.split_first() else {
        return Err(ShapeError::Expected { place });
    };
    let Some((two, others)) = others.split_first() else {
        return Err(ShapeError::Expected { place });
    };
    let target = call(alloc, one)?;
    let value = match new_value(alloc, c, two) {
        Ok(value) => value,
        Err(fault) => {
            drop(target);
            return Err(fault);
        }
    };
    match no_extra(others) {
        Ok(()) => Ok(changed(c, target, value)),
        Err(fault) => {
            drop(target);
            drop(value);
            Err(fault)
        }
    }
}

#[tactic(auto, using(crate::proofs::Steps::steps))]
fn deletion(alloc: Global, place: Place, rest: &[Sexp]) -> Result<RawEffect, ShapeError>
    ensures ok { IfOk result (λ it. deletion place rest.now ≡ parsed it) }
    ensures err { IfErr result (λ e. ¬ (e ≡ ShapeError.Memory) → first (deletion place rest.now) ≡ Some e) }
{
    let Some((tree, others)) = rest.split_first() else {
        return Err(ShapeError::Expected { place });
    };
    let atom = call(alloc, tree)?;
    no_extra(others)?;
    Ok(RawEffect::Delete(atom))
}

fn boxed(alloc: Global, body: RawEffect) -> Result<Box<RawEffect>, ShapeError>
    ensures ok { IfOk result (λ it. it ≡ body) }
    ensures err { IfErr result (λ e. e ≡ ShapeError.Memory) }
{
    Ok(Box::new(alloc, body)?)
}

#[tactic(auto, using(crate::proofs::Steps::steps))]
fn each_of(
    vars: List<RawGroup>,
    body: Box<RawEffect>,
    others: &[Sexp],
) -> Result<RawEffect, ShapeError>
    ensures ok { IfOk result (λ it. followed (parsed (RawEffect.Forall vars body)) (extra others.now) ≡ parsed it) }
    ensures err { IfErr result (λ e. ¬ (e ≡ ShapeError.Memory) → first (followed (parsed (RawEffect.Forall vars body)) (extra others.now)) ≡ Some e) }
{
    no_extra(others)?;
    Ok(RawEffect::Forall(vars, body))
}

#[tactic(auto, using(crate::proofs::Steps::steps))]
fn where_true(
    condition: RawFormula,
    body: Box<RawEffect>,
    others: &[Sexp],
) -> Result<RawEffect, ShapeError>
    ensures ok { IfOk result (λ it. followed (parsed (RawEffect.When condition body)) (extra others.now) ≡ parsed it) }
    ensures err { IfErr result (λ e. ¬ (e ≡ ShapeError.Memory) → first (followed (parsed (RawEffect.When condition body)) (extra others.now)) ≡ Some e) }
{
    match no_extra(others) {
        Ok(()) => Ok(RawEffect::When(condition, body)),
        Err(fault) => {
            drop(condition);
            Err(fault)
        }
    }
}

#[cycle(effect)]
#[tactic(auto, using(crate::proofs::Steps::steps))]
fn for_all(alloc: Global, place: Place, rest: &[Sexp]) -> Result<RawEffect, ShapeError>
    ensures ok { IfOk result (λ it. for_all place rest.now (map effect rest.now) ≡ parsed it) }
    ensures err { IfErr result (λ e. ¬ (e ≡ ShapeError.Memory) → first (for_all place rest.now (map effect rest.now)) ≡ Some e) }
{
    let Some((one, others)) = rest.split_first() else {
        return Err(ShapeError::Expected { place });
    };
    let Some((two, others)) = others.split_first() else {
        return Err(ShapeError::Expected { place });
    };
    let vars = variables(alloc, one)?;
    let body = boxed(alloc, raw_effect(alloc, two)?)?;
    each_of(vars, body, others)
}

#[cycle(effect)]
#[tactic(auto, using(crate::proofs::Steps::steps))]
fn conditional(alloc: Global, place: Place, rest: &[Sexp]) -> Result<RawEffect, ShapeError>
    ensures ok { IfOk result (λ it. conditional place rest.now (map effect rest.now) ≡ parsed it) }
    ensures err { IfErr result (λ e. ¬ (e ≡ ShapeError.Memory) → first (conditional place rest.now (map effect rest.now)) ≡ Some e) }
{
    let Some((one, others)) = rest.split_first() else {
        return Err(ShapeError::Expected { place });
    };
    let Some((two, others)) = others.split_first() else {
        return Err(ShapeError::Expected { place });
    };
    let condition = raw_formula(alloc, one)?;
    let body = match raw_effect(alloc, two) {
        Ok(body) => body,
        Err(fault) => {
            drop(condition);
            return Err(fault);
        }
    };
    match boxed(alloc, body) {
        Ok(body) => where_true(condition, body, others),
        Err(fault) => {
            drop(condition);
            Err(fault)
        }
    }
}

#[cycle(effect)]
#[tactic(auto, using(crate::proofs::Steps::steps))]
fn raw_effects(alloc: Global, items: &[Sexp]) -> Result<List<RawEffect>, ShapeError>
    ensures ok { IfOk result (λ them. all (map effect items.now) ≡ parsed them) }
    ensures err { IfErr result (λ e. ¬ (e ≡ ShapeError.Memory) → first (all (map effect items.now)) ≡ Some e) }
{
    let mut made = List::new(alloc);
    for tree in items {
        made.push(raw_effect(alloc, tree)?)?;
    }
    Ok(made)
}

#[cycle(effect)]
#[tactic(auto, using(crate::proofs::Nodes::effect_nodes, crate::proofs::Steps::steps))]
fn raw_effect(alloc: Global, tree: &Sexp) -> Result<RawEffect, ShapeError>
    ensures ok { IfOk result (λ it. effect tree.now ≡ parsed it) }
    ensures err { IfErr result (λ e. ¬ (e ≡ ShapeError.Memory) → first (effect tree.now) ≡ Some e) }
{
    let (place, items) = match tree {
        Sexp::Leaf(_) => return Err(misfit(tree)),
        Sexp::Group(place, items) => (*place, items.as_slice()),
    };
    let Some((head, rest)) = items.split_first() else {
        return Err(ShapeError::Expected { place });
    };
    match effect_head(head) {
        EffectHead::And => Ok(RawEffect::And(raw_effects(alloc, rest)?)),
        EffectHead::Forall => for_all(alloc, place, rest),
        EffectHead::When => conditional(alloc, place, rest),
        EffectHead::Not => deletion(alloc, place, rest),
        EffectHead::Change(c) => change_effect(alloc, place, c, rest),
        EffectHead::Other => Ok(RawEffect::Add(in_call(alloc, place, items)?)),
    }
}

/// The effect of an action.
#[tactic(auto, using(crate::proofs::Steps::steps))]
pub fn whole_effect(alloc: Global, tree: &Sexp) -> Result<RawEffect, ShapeError>
    ensures ok { IfOk result (λ it. whole_effect tree.now ≡ parsed it) }
    ensures err { IfErr result (λ e. ¬ (e ≡ ShapeError.Memory) → first (whole_effect tree.now) ≡ Some e) }
{
    if is_empty(tree) {
        return Ok(RawEffect::And(List::new(alloc)));
    }
    raw_effect(alloc, tree)
}
