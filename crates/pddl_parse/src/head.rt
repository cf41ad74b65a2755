ghost use Rattle.std.specs.Prelude.{◌≡◌};
ghost use Rattle.pddl_parse.specs.Formulas.{head_of, word_head, sign_head, kind_head};
ghost use Rattle.pddl_parse.specs.Effects.{effect_word, effect_kind, effect_head};
ghost use Rattle.pddl_parse.specs.Constraints.{constraint_word, constraint_kind, constraint_head};
ghost use Rattle.pddl_parse.specs.Starts.{is_same_kind, is_same, init_head};

use crate::bracket::is_word;
use crate::raw::{RawChange, Relation};
use pddl_lex::{Sexp, Sign, TokenKind};

#[derive(Clone, Copy, Debug, PartialEq, Eq)]
pub enum Quantifier {
    Exists,
    Forall,
}

/// What a condition's first tree says of it.
#[derive(Clone, Copy, Debug, PartialEq, Eq)]
pub enum Head {
    And,
    Or,
    Not,
    Imply,
    Quantifier(Quantifier),
    Compare(Relation),
    Other,
}

fn word_head(word: &[u8]) -> Head
    ensures { result ≡ word_head word.now }
{
    if word == b"and".as_slice() {
        Head::And
    } else if word == b"or".as_slice() {
        Head::Or
    } else if word == b"not".as_slice() {
        Head::Not
    } else if word == b"imply".as_slice() {
        Head::Imply
    } else if word == b"exists".as_slice() {
        Head::Quantifier(Quantifier::Exists)
    } else if word == b"forall".as_slice() {
        Head::Quantifier(Quantifier::Forall)
    } else {
        Head::Other
    }
}

fn sign_head(sign: Sign) -> Head
    ensures { result ≡ sign_head sign }
{
    match sign {
        Sign::Less => Head::Compare(Relation::Less),
        Sign::LessEqual => Head::Compare(Relation::LessEqual),
        Sign::Same => Head::Compare(Relation::Same),
        Sign::GreaterEqual => Head::Compare(Relation::GreaterEqual),
        Sign::Greater => Head::Compare(Relation::Greater),
        Sign::Minus | Sign::Plus | Sign::Times | Sign::Slash => Head::Other,
    }
}

fn kind_head(kind: &TokenKind) -> Head
    ensures { result ≡ kind_head kind.now }
{
    match kind {
        TokenKind::Word(word) => word_head(word.as_slice()),
        TokenKind::Sign(sign) => sign_head(*sign),
        _ => Head::Other,
    }
}

#[tactic(auto, using(crate::proofs::Nodes::nodes))]
pub fn head_of(tree: &Sexp) -> Head
    ensures { result ≡ head_of tree.now }
{
    match tree {
        Sexp::Leaf(token) => kind_head(&token.kind),
        Sexp::Group(_, _) => Head::Other,
    }
}

/// What an effect's first tree says of it.
#[derive(Clone, Copy, Debug, PartialEq, Eq)]
pub enum EffectHead {
    And,
    Forall,
    When,
    Not,
    Change(RawChange),
    Other,
}

fn effect_word(word: &[u8]) -> EffectHead
    ensures { result ≡ effect_word word.now }
{
    if word == b"and".as_slice() {
        EffectHead::And
    } else if word == b"forall".as_slice() {
        EffectHead::Forall
    } else if word == b"when".as_slice() {
        EffectHead::When
    } else if word == b"not".as_slice() {
        EffectHead::Not
    } else if word == b"assign".as_slice() {
        EffectHead::Change(RawChange::Assign)
    } else if word == b"increase".as_slice() {
        EffectHead::Change(RawChange::Increase)
    } else if word == b"decrease".as_slice() {
        EffectHead::Change(RawChange::Decrease)
    } else if word == b"scale-up".as_slice() {
        EffectHead::Change(RawChange::ScaleUp)
    } else if word == b"scale-down".as_slice() {
        EffectHead::Change(RawChange::ScaleDown)
    } else {
        EffectHead::Other
    }
}

fn effect_kind(kind: &TokenKind) -> EffectHead
    ensures { result ≡ effect_kind kind.now }
{
    match kind {
        TokenKind::Word(word) => effect_word(word.as_slice()),
        _ => EffectHead::Other,
    }
}

#[tactic(auto, using(crate::proofs::Nodes::effect_nodes))]
pub fn effect_head(tree: &Sexp) -> EffectHead
    ensures { result ≡ effect_head tree.now }
{
    match tree {
        Sexp::Leaf(token) => effect_kind(&token.kind),
        Sexp::Group(_, _) => EffectHead::Other,
    }
}

/// A constraint on one condition.
#[derive(Clone, Copy, Debug, PartialEq, Eq)]
pub enum Single {
    Always,
    Sometime,
    AtMostOnce,
}

/// A constraint on two conditions.
#[derive(Clone, Copy, Debug, PartialEq, Eq)]
pub enum Paired {
    SometimeAfter,
    SometimeBefore,
}

/// What a constraint's first tree says of it.
#[derive(Clone, Copy, Debug, PartialEq, Eq)]
pub enum ConstraintHead {
    And,
    Forall,
    Single(Single),
    Paired(Paired),
    Other,
}

fn constraint_word(word: &[u8]) -> ConstraintHead
    ensures { result ≡ constraint_word word.now }
{
    if word == b"and".as_slice() {
        ConstraintHead::And
    } else if word == b"forall".as_slice() {
        ConstraintHead::Forall
    } else if word == b"always".as_slice() {
        ConstraintHead::Single(Single::Always)
    } else if word == b"sometime".as_slice() {
        ConstraintHead::Single(Single::Sometime)
    } else if word == b"at-most-once".as_slice() {
        ConstraintHead::Single(Single::AtMostOnce)
    } else if word == b"sometime-after".as_slice() {
        ConstraintHead::Paired(Paired::SometimeAfter)
    } else if word == b"sometime-before".as_slice() {
        ConstraintHead::Paired(Paired::SometimeBefore)
    } else {
        ConstraintHead::Other
    }
}

fn constraint_kind(kind: &TokenKind) -> ConstraintHead
    ensures { result ≡ constraint_kind kind.now }
{
    match kind {
        TokenKind::Word(word) => constraint_word(word.as_slice()),
        _ => ConstraintHead::Other,
    }
}

#[tactic(auto, using(crate::proofs::Nodes::constraint_nodes))]
pub fn constraint_head(tree: &Sexp) -> ConstraintHead
    ensures { result ≡ constraint_head tree.now }
{
    match tree {
        Sexp::Leaf(token) => constraint_kind(&token.kind),
        Sexp::Group(_, _) => ConstraintHead::Other,
    }
}

/// What the first tree of a member of the initial state says of it.
#[derive(Clone, Copy, Debug, PartialEq, Eq)]
pub enum InitHead {
    Not,
    Same,
    Other,
}

fn is_same_kind(kind: &TokenKind) -> bool
    ensures { result ≡ is_same_kind kind.now }
{
    match kind {
        TokenKind::Sign(Sign::Same) => true,
        _ => false,
    }
}

#[tactic(auto, using(crate::proofs::Nodes::start_nodes))]
fn is_same(tree: &Sexp) -> bool
    ensures { result ≡ is_same tree.now }
{
    match tree {
        Sexp::Leaf(token) => is_same_kind(&token.kind),
        Sexp::Group(_, _) => false,
    }
}

pub fn init_head(tree: &Sexp) -> InitHead
    ensures { result ≡ init_head tree.now }
{
    if is_word(b"not".as_slice(), tree) {
        InitHead::Not
    } else if is_same(tree) {
        InitHead::Same
    } else {
        InitHead::Other
    }
}
