ghost use Rattle.std.specs.Prelude.{◌≡◌};
ghost use Rattle.pddl_lex.specs.Trees.{place_of};

use up_frac::Frac;
use up_text::{List, Place};

/// A sign: `-`, `+`, `*`, `/`, `<`, `<=`, `=`, `>=` or `>`.
#[derive(Clone, Copy, Debug, PartialEq, Eq)]
pub enum Sign {
    Minus,
    Plus,
    Times,
    Slash,
    Less,
    LessEqual,
    Same,
    GreaterEqual,
    Greater,
}

/// What a token is. Letters are in lower case; the `?` of a variable and the `:` of a keyword are left out.
#[derive(Drop)]
pub enum TokenKind {
    Open,
    Close,
    Word(List<u8>),
    Variable(List<u8>),
    Keyword(List<u8>),
    Number(Frac),
    Sign(Sign),
}

/// A token, and the place of its first byte.
#[derive(Drop)]
pub struct Token {
    pub kind: TokenKind,
    pub place: Place,
}

/// A bracket tree: a token, or a group with the place of its `(`.
#[derive(Drop)]
pub enum Sexp {
    Leaf(Token),
    Group(Place, List<Sexp>),
}

impl Sexp {
    /// Where it begins.
    #[tactic(auto, unfolding(crate::specs::Trees::place_of))]
    pub fn place(&self) -> Place
        ensures { result ≡ place_of self.now }
    {
        match self {
            Sexp::Leaf(token) => token.place,
            Sexp::Group(place, _) => *place,
        }
    }
}
