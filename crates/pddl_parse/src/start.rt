ghost use Rattle.std.specs.Prelude.{◌≡◌, Some, IfOk, IfErr, map};
ghost use Rattle.pddl_lex.specs.Parses.{parsed, first, all};
ghost use Rattle.pddl_parse.specs.Shapes.{ident};
ghost use Rattle.pddl_parse.specs.Starts.{in_ground, ground, kind_value, initial_value, absent, assigned, in_init, initial, minimizes, metric};

use crate::bracket::is_word;
use crate::head::{InitHead, init_head};
use crate::ident::{ident, kind_ident};
use crate::raw::{Ident, RawGround, RawInit, RawMetric, RawValue};
use crate::shape::{ShapeError, misfit, no_extra};
use crate::term::raw_term;
use pddl_lex::{Sexp, TokenKind};
use std::alloc::Global;
use up_text::{List, Place};

#[tactic(auto, using(crate::proofs::Steps::steps))]
fn idents(alloc: Global, items: &[Sexp]) -> Result<List<Ident>, ShapeError>
    ensures ok { IfOk result (λ them. all (map ident items.now) ≡ parsed them) }
    ensures err { IfErr result (λ e. ¬ (e ≡ ShapeError.Memory) → first (all (map ident items.now)) ≡ Some e) }
{
    let mut made = List::new(alloc);
    for tree in items {
        made.push(ident(alloc, tree)?)?;
    }
    Ok(made)
}

#[tactic(auto, using(crate::proofs::Steps::steps))]
fn in_ground(alloc: Global, place: Place, items: &[Sexp]) -> Result<RawGround, ShapeError>
    ensures ok { IfOk result (λ it. in_ground place items.now ≡ parsed it) }
    ensures err { IfErr result (λ e. ¬ (e ≡ ShapeError.Memory) → first (in_ground place items.now) ≡ Some e) }
{
    let Some((head, rest)) = items.split_first() else {
        return Err(ShapeError::Expected { place });
    };
    let name = ident(alloc, head)?;
    let args = idents(alloc, rest)?;
    Ok(RawGround { place, name, args })
}

#[tactic(auto, using(crate::proofs::Nodes::marks))]
fn ground(alloc: Global, tree: &Sexp) -> Result<RawGround, ShapeError>
    ensures ok { IfOk result (λ it. ground tree.now ≡ parsed it) }
    ensures err { IfErr result (λ e. ¬ (e ≡ ShapeError.Memory) → first (ground tree.now) ≡ Some e) }
{
    match tree {
        Sexp::Leaf(_) => Err(misfit(tree)),
        Sexp::Group(place, items) => in_ground(alloc, *place, items.as_slice()),
    }
}

#[tactic(auto, using(crate::proofs::Steps::steps))]
fn kind_value(alloc: Global, place: Place, kind: &TokenKind) -> Result<RawValue, ShapeError>
    ensures ok { IfOk result (λ it. kind_value place kind.now ≡ parsed it) }
    ensures err { IfErr result (λ e. ¬ (e ≡ ShapeError.Memory) → first (kind_value place kind.now) ≡ Some e) }
{
    match kind {
        TokenKind::Number(number) => Ok(RawValue::Number(place, *number)),
        _ => Ok(RawValue::Object(kind_ident(alloc, place, kind)?)),
    }
}

#[tactic(auto, using(crate::proofs::Nodes::start_nodes))]
fn initial_value(alloc: Global, tree: &Sexp) -> Result<RawValue, ShapeError>
    ensures ok { IfOk result (λ it. initial_value tree.now ≡ parsed it) }
    ensures err { IfErr result (λ e. ¬ (e ≡ ShapeError.Memory) → first (initial_value tree.now) ≡ Some e) }
{
    match tree {
        Sexp::Leaf(token) => kind_value(alloc, token.place, &token.kind),
        Sexp::Group(_, _) => Err(misfit(tree)),
    }
}

#[tactic(auto, using(crate::proofs::Steps::steps))]
fn absent(alloc: Global, place: Place, rest: &[Sexp]) -> Result<RawInit, ShapeError>
    ensures ok { IfOk result (λ it. absent place rest.now ≡ parsed it) }
    ensures err { IfErr result (λ e. ¬ (e ≡ ShapeError.Memory) → first (absent place rest.now) ≡ Some e) }
{
    let Some((tree, others)) = rest.split_first() else {
        return Err(ShapeError::Expected { place });
    };
    let atom = ground(alloc, tree)?;
    no_extra(others)?;
    Ok(RawInit::Absent(atom))
}

#[tactic(auto, using(crate::proofs::Steps::steps))]
fn assigned(alloc: Global, place: Place, rest: &[Sexp]) -> Result<RawInit, ShapeError>
    ensures ok { IfOk result (λ it. assigned place rest.now ≡ parsed it) }
    ensures err { IfErr result (λ e. ¬ (e ≡ ShapeError.Memory) → first (assigned place rest.now) ≡ Some e) }
{
    let Some((one, others)) = rest.split_first() else {
        return Err(ShapeError::Expected { place });
    };
    let Some((two, others)) = others.split_first() else {
        return Err(ShapeError::Expected { place });
    };
    let term = ground(alloc, one)?;
    let value = initial_value(alloc, two)?;
    no_extra(others)?;
    Ok(RawInit::Value(place, term, value))
}

#[tactic(auto, using(crate::proofs::Steps::steps))]
fn in_init(alloc: Global, place: Place, items: &[Sexp]) -> Result<RawInit, ShapeError>
    ensures ok { IfOk result (λ it. in_init place items.now ≡ parsed it) }
    ensures err { IfErr result (λ e. ¬ (e ≡ ShapeError.Memory) → first (in_init place items.now) ≡ Some e) }
{
    let Some((head, rest)) = items.split_first() else {
        return Err(ShapeError::Expected { place });
    };
    match init_head(head) {
        InitHead::Not => absent(alloc, place, rest),
        InitHead::Same => assigned(alloc, place, rest),
        InitHead::Other => Ok(RawInit::Atom(in_ground(alloc, place, items)?)),
    }
}

#[tactic(auto, using(crate::proofs::Nodes::marks))]
fn initial(alloc: Global, tree: &Sexp) -> Result<RawInit, ShapeError>
    ensures ok { IfOk result (λ it. initial tree.now ≡ parsed it) }
    ensures err { IfErr result (λ e. ¬ (e ≡ ShapeError.Memory) → first (initial tree.now) ≡ Some e) }
{
    match tree {
        Sexp::Leaf(_) => Err(misfit(tree)),
        Sexp::Group(place, items) => in_init(alloc, *place, items.as_slice()),
    }
}

/// The members of an initial state.
#[tactic(auto, using(crate::proofs::Steps::steps))]
pub fn start(alloc: Global, items: &[Sexp]) -> Result<List<RawInit>, ShapeError>
    ensures ok { IfOk result (λ them. all (map initial items.now) ≡ parsed them) }
    ensures err { IfErr result (λ e. ¬ (e ≡ ShapeError.Memory) → first (all (map initial items.now)) ≡ Some e) }
{
    let mut made = List::new(alloc);
    for tree in items {
        made.push(initial(alloc, tree)?)?;
    }
    Ok(made)
}

fn minimizes(tree: &Sexp) -> Result<bool, ShapeError>
    ensures ok { IfOk result (λ it. minimizes tree.now ≡ parsed it) }
    ensures err { IfErr result (λ e. first (minimizes tree.now) ≡ Some e) }
{
    if is_word(b"minimize".as_slice(), tree) {
        Ok(true)
    } else if is_word(b"maximize".as_slice(), tree) {
        Ok(false)
    } else {
        Err(misfit(tree))
    }
}

/// What a metric's section at this place says.
#[tactic(auto, using(crate::proofs::Steps::steps))]
pub fn metric(alloc: Global, place: Place, rest: &[Sexp]) -> Result<RawMetric, ShapeError>
    ensures ok { IfOk result (λ it. metric place rest.now ≡ parsed it) }
    ensures err { IfErr result (λ e. ¬ (e ≡ ShapeError.Memory) → first (metric place rest.now) ≡ Some e) }
{
    let Some((one, others)) = rest.split_first() else {
        return Err(ShapeError::Expected { place });
    };
    let Some((two, others)) = others.split_first() else {
        return Err(ShapeError::Expected { place });
    };
    let minimize = minimizes(one)?;
    let value = raw_term(alloc, two)?;
    no_extra(others)?;
    Ok(RawMetric { minimize, value })
}
