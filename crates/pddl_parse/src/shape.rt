ghost use Rattle.std.specs.Prelude.{◌≡◌, [], ◌∷◌, IfOk, IfErr};
ghost use Rattle.pddl_parse.specs.Shapes.{extra, misfit, misfit_group, misfit_head, misfit_token, is_left_out, word_fault};

use pddl_lex::{Sexp, Token, TokenKind};
use up_text::{Memory, Place};

#[derive(Clone, Copy, Debug, PartialEq, Eq)]
pub enum ShapeError {
    Memory,
    Expected { place: Place },
    LeftOut { place: Place },
    Duplicate { place: Place },
}

impl From<Memory> for ShapeError {
    ghost use Rattle.pddl_parse.specs.declared.shape.ShapeError.TheVariants.{Memory as OutOfMemory};

    ghost from_gives = { λ _ e. e ≡ OutOfMemory };

    fn from(_memory: Memory) -> ShapeError {
        ShapeError::Memory
    }
}

// One of the words that are left out wherever they stand.
pub fn is_left_out(word: &[u8]) -> bool
    ensures { result ≡ is_left_out word.now }
{
    word == b"either".as_slice()
        || word == b"preference".as_slice()
        || word == b"undefined".as_slice()
        || word == b"total-time".as_slice()
}

// The fault of a word that doesn't fit.
pub fn word_fault(word: &[u8], place: Place) -> ShapeError
    ensures { result ≡ word_fault word.now place }
{
    if is_left_out(word) {
        ShapeError::LeftOut { place }
    } else {
        ShapeError::Expected { place }
    }
}

// The fault of a tree at this place that doesn't fit and begins with this token.
pub fn misfit_token(place: Place, token: &Token) -> ShapeError
    ensures { result ≡ misfit_token place token.now }
{
    match &token.kind {
        TokenKind::Word(word) => {
            if is_left_out(word.as_slice()) {
                ShapeError::LeftOut { place: token.place }
            } else {
                ShapeError::Expected { place }
            }
        }
        _ => ShapeError::Expected { place },
    }
}

fn misfit_head(place: Place, tree: &Sexp) -> ShapeError
    ensures { result ≡ misfit_head place tree.now }
{
    match tree {
        Sexp::Leaf(token) => misfit_token(place, token),
        Sexp::Group(_, _) => ShapeError::Expected { place },
    }
}

// The fault of a bracket that doesn't fit, or that lacks something.
pub fn misfit_group(place: Place, items: &[Sexp]) -> ShapeError
    ensures { result ≡ misfit_group place items.now }
{
    match items.split_first() {
        None => ShapeError::Expected { place },
        Some((head, _)) => misfit_head(place, head),
    }
}

/// The fault of a tree that doesn't fit where it stands.
#[tactic(auto, using(crate::proofs::Nodes::nodes))]
pub fn misfit(tree: &Sexp) -> ShapeError
    ensures { result ≡ misfit tree.now }
{
    match tree {
        Sexp::Leaf(token) => misfit_token(token.place, token),
        Sexp::Group(place, items) => misfit_group(*place, items.as_slice()),
    }
}

/// Answers the fault of a tree that stands where the bracket should end.
pub fn no_extra(rest: &[Sexp]) -> Result<(), ShapeError>
    ensures ok { IfOk result (λ _. extra rest.now ≡ []) }
    ensures err { IfErr result (λ fault. extra rest.now ≡ fault ∷ []) }
{
    match rest.split_first() {
        None => Ok(()),
        Some((tree, _)) => Err(misfit(tree)),
    }
}
