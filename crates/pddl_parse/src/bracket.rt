ghost use Rattle.std.specs.Prelude.{◌≡◌};
ghost use Rattle.pddl_parse.specs.Brackets.{is_none, is_empty, is_keyword_kind, is_keyword, is_headed, is_section, has_section, is_word_kind, is_word};

use pddl_lex::{Sexp, TokenKind};

fn is_none(items: &[Sexp]) -> bool
    ensures { result ≡ is_none items.now }
{
    match items.split_first() {
        None => true,
        Some(_) => false,
    }
}

/// The bracket `()`.
#[tactic(auto, using(crate::proofs::Nodes::marks))]
pub fn is_empty(tree: &Sexp) -> bool
    ensures { result ≡ is_empty tree.now }
{
    match tree {
        Sexp::Leaf(_) => false,
        Sexp::Group(_, items) => is_none(items.as_slice()),
    }
}

fn is_keyword_kind(word: &[u8], kind: &TokenKind) -> bool
    ensures { result ≡ is_keyword_kind word.now kind.now }
{
    match kind {
        TokenKind::Keyword(own) => own.as_slice() == word,
        _ => false,
    }
}

/// A keyword, whose colon `word` lacks.
#[tactic(auto, using(crate::proofs::Nodes::marks))]
pub fn is_keyword(word: &[u8], tree: &Sexp) -> bool
    ensures { result ≡ is_keyword word.now tree.now }
{
    match tree {
        Sexp::Leaf(token) => is_keyword_kind(word, &token.kind),
        Sexp::Group(_, _) => false,
    }
}

fn is_headed(word: &[u8], items: &[Sexp]) -> bool
    ensures { result ≡ is_headed word.now items.now }
{
    match items.split_first() {
        None => false,
        Some((head, _)) => is_keyword(word, head),
    }
}

#[tactic(auto, using(crate::proofs::Nodes::marks))]
fn is_section(word: &[u8], tree: &Sexp) -> bool
    ensures { result ≡ is_section word.now tree.now }
{
    match tree {
        Sexp::Leaf(_) => false,
        Sexp::Group(_, items) => is_headed(word, items.as_slice()),
    }
}

/// Whether one of the trees is a bracket that begins with this keyword.
pub fn has_section(word: &[u8], items: &[Sexp]) -> bool
    ensures { result ≡ has_section word.now items.now }
{
    let mut rest = items;
    'seeking: while let Some((tree, behind)) = rest.split_first() {
        if is_section(word, tree) {
            return true;
        }
        rest = behind;
    }
    false
}

fn is_word_kind(word: &[u8], kind: &TokenKind) -> bool
    ensures { result ≡ is_word_kind word.now kind.now }
{
    match kind {
        TokenKind::Word(own) => own.as_slice() == word,
        _ => false,
    }
}

/// Whether the tree is this word.
#[tactic(auto, using(crate::proofs::Nodes::marks))]
pub fn is_word(word: &[u8], tree: &Sexp) -> bool
    ensures { result ≡ is_word word.now tree.now }
{
    match tree {
        Sexp::Leaf(token) => is_word_kind(word, &token.kind),
        Sexp::Group(_, _) => false,
    }
}
