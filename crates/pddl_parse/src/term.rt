ghost use Rattle.std.specs.Prelude.{◌≡◌, ◌≤◌, nat_lt, [], ◌∷◌, Some, IfOk, IfErr, map, length};
ghost use Rattle.pddl_lex.specs.Parses.{parsed, first, all};
ghost use Rattle.pddl_parse.specs.Shapes.{lacking};
ghost use Rattle.pddl_parse.specs.Terms.{term, kind_term, kind_operator, sign_operator, operator_of, least, most};

use crate::ident::{ident, kind_ident, kind_variable};
use crate::raw::{Operator, RawTerm};
use crate::shape::{ShapeError, no_extra};
use pddl_lex::{Sexp, Sign, TokenKind};
use std::alloc::Global;
use up_text::{List, Place};

fn sign_operator(sign: Sign) -> Option<Operator>
    ensures { result ≡ sign_operator sign }
{
    match sign {
        Sign::Plus => Some(Operator::Sum),
        Sign::Minus => Some(Operator::Difference),
        Sign::Times => Some(Operator::Product),
        Sign::Slash => Some(Operator::Quotient),
        _ => None,
    }
}

// The operator at the head of a bracket.
#[tactic(auto, using(crate::proofs::Nodes::nodes))]
fn operator_of(tree: &Sexp) -> Option<Operator>
    ensures { result ≡ operator_of tree.now }
{
    match tree {
        Sexp::Leaf(token) => match &token.kind {
            TokenKind::Sign(sign) => sign_operator(*sign),
            _ => None,
        },
        Sexp::Group(_, _) => None,
    }
}

fn least(op: Operator) -> usize
    ensures { result ≡ least op }
{
    match op {
        Operator::Difference => 1,
        _ => 2,
    }
}

// How many of the operands that stand there may stand there.
fn most(op: Operator, count: usize) -> usize
    ensures value { result ≡ most op count }
    ensures within { result ≤ count }
{
    match op {
        Operator::Difference | Operator::Quotient => count.min(2),
        _ => count,
    }
}

fn enough(op: Operator, place: Place, rest: &[Sexp]) -> Result<(), ShapeError>
    ensures ok { IfOk result (λ _. lacking (nat_lt (length rest.now) (least op)) place ≡ []) }
    ensures err { IfErr result (λ fault. lacking (nat_lt (length rest.now) (least op)) place ≡ fault ∷ []) }
{
    if rest.len() < least(op) {
        Err(ShapeError::Expected { place })
    } else {
        Ok(())
    }
}

#[tactic(auto, using(crate::proofs::Steps::steps))]
fn kind_term(alloc: Global, place: Place, kind: &TokenKind) -> Result<RawTerm, ShapeError>
    ensures ok { IfOk result (λ it. kind_term place kind.now ≡ parsed it) }
    ensures err { IfErr result (λ e. ¬ (e ≡ ShapeError.Memory) → first (kind_term place kind.now) ≡ Some e) }
{
    match kind {
        TokenKind::Word(_) => Ok(RawTerm::Name(kind_ident(alloc, place, kind)?)),
        TokenKind::Variable(_) => Ok(RawTerm::Variable(kind_variable(alloc, place, kind)?)),
        TokenKind::Number(number) => Ok(RawTerm::Number(place, *number)),
        _ => Err(ShapeError::Expected { place }),
    }
}

/// An object term or an expression.
#[cycle(term)]
#[tactic(auto, using(crate::proofs::Nodes::nodes, crate::proofs::Steps::steps))]
pub fn raw_term(alloc: Global, tree: &Sexp) -> Result<RawTerm, ShapeError>
    ensures ok { IfOk result (λ it. term tree.now ≡ parsed it) }
    ensures err { IfErr result (λ e. ¬ (e ≡ ShapeError.Memory) → first (term tree.now) ≡ Some e) }
{
    let (place, items) = match tree {
        Sexp::Leaf(token) => return kind_term(alloc, token.place, &token.kind),
        Sexp::Group(place, items) => (*place, items.as_slice()),
    };
    let Some((head, rest)) = items.split_first() else {
        return Err(ShapeError::Expected { place });
    };
    match operator_of(head) {
        None => {
            let function = ident(alloc, head)?;
            let args = raw_terms(alloc, rest)?;
            Ok(RawTerm::Call(place, function, args))
        }
        Some(op) => {
            enough(op, place, rest)?;
            let most = most(op, rest.len());
            let operands = raw_terms(alloc, &rest[..most])?;
            no_extra(&rest[most..])?;
            Ok(RawTerm::Arithmetic(place, op, operands))
        }
    }
}

#[cycle(term)]
#[tactic(auto, using(crate::proofs::Steps::steps))]
pub fn raw_terms(alloc: Global, items: &[Sexp]) -> Result<List<RawTerm>, ShapeError>
    ensures ok { IfOk result (λ them. all (map term items.now) ≡ parsed them) }
    ensures err { IfErr result (λ e. ¬ (e ≡ ShapeError.Memory) → first (all (map term items.now)) ≡ Some e) }
{
    let mut made = List::new(alloc);
    for tree in items {
        made.push(raw_term(alloc, tree)?)?;
    }
    Ok(made)
}
