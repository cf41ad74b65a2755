ghost use Rattle.std.specs.Prelude.{◌≡◌, Some, IfOk, IfErr};
ghost use Rattle.pddl_lex.specs.Parses.{parsed, first};
ghost use Rattle.pddl_parse.specs.Shapes.{ident, variable, named, kind_ident, kind_variable};
ghost use Rattle.up_text.specs.Names.{name_of};

use crate::raw::Ident;
use crate::shape::{ShapeError, misfit, word_fault};
use pddl_lex::{Sexp, TokenKind};
use std::alloc::Global;
use up_text::{Name, Place};

fn named(alloc: Global, place: Place, fault: ShapeError, bytes: &[u8]) -> Result<Ident, ShapeError>
    ensures ok { IfOk result (λ it. named place fault (name_of bytes.now) ≡ parsed it) }
    ensures err { IfErr result (λ e. ¬ (e ≡ ShapeError.Memory) → first (named place fault (name_of bytes.now)) ≡ Some e) }
{
    match Name::of_bytes(alloc, bytes)? {
        Some(name) => Ok(Ident { name, place }),
        None => Err(fault),
    }
}

pub fn kind_ident(alloc: Global, place: Place, kind: &TokenKind) -> Result<Ident, ShapeError>
    ensures ok { IfOk result (λ it. kind_ident place kind.now ≡ parsed it) }
    ensures err { IfErr result (λ e. ¬ (e ≡ ShapeError.Memory) → first (kind_ident place kind.now) ≡ Some e) }
{
    match kind {
        TokenKind::Word(word) => named(
            alloc,
            place,
            word_fault(word.as_slice(), place),
            word.as_slice(),
        ),
        _ => Err(ShapeError::Expected { place }),
    }
}

pub fn kind_variable(alloc: Global, place: Place, kind: &TokenKind) -> Result<Ident, ShapeError>
    ensures ok { IfOk result (λ it. kind_variable place kind.now ≡ parsed it) }
    ensures err { IfErr result (λ e. ¬ (e ≡ ShapeError.Memory) → first (kind_variable place kind.now) ≡ Some e) }
{
    match kind {
        TokenKind::Variable(name) => named(
            alloc,
            place,
            ShapeError::Expected { place },
            name.as_slice(),
        ),
        TokenKind::Word(word) => Err(word_fault(word.as_slice(), place)),
        _ => Err(ShapeError::Expected { place }),
    }
}

/// A name.
#[tactic(auto, using(crate::proofs::Nodes::nodes))]
pub fn ident(alloc: Global, tree: &Sexp) -> Result<Ident, ShapeError>
    ensures ok { IfOk result (λ it. ident tree.now ≡ parsed it) }
    ensures err { IfErr result (λ e. ¬ (e ≡ ShapeError.Memory) → first (ident tree.now) ≡ Some e) }
{
    match tree {
        Sexp::Leaf(token) => kind_ident(alloc, token.place, &token.kind),
        Sexp::Group(_, _) => Err(misfit(tree)),
    }
}

/// A variable.
#[tactic(auto, using(crate::proofs::Nodes::nodes))]
pub fn variable(alloc: Global, tree: &Sexp) -> Result<Ident, ShapeError>
    ensures ok { IfOk result (λ it. variable tree.now ≡ parsed it) }
    ensures err { IfErr result (λ e. ¬ (e ≡ ShapeError.Memory) → first (variable tree.now) ≡ Some e) }
{
    match tree {
        Sexp::Leaf(token) => kind_variable(alloc, token.place, &token.kind),
        Sexp::Group(_, _) => Err(misfit(tree)),
    }
}
