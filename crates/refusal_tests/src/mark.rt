ghost use Rattle.std.specs.Prelude.{◌≡◌, ◌↔◌, List, ℕ, ◌++◌, None, IfOk, IfSome, position};
ghost use Rattle.pddl_lex.specs.Places.{start, after_bytes};
ghost use Rattle.refusal_tests.specs.Marks.{is_mark, HasMark, IsDivided};

use pddl_lex::{after_bytes, start};
use std::alloc::{AllocError, Global};
use up_text::Place;

// The byte that marks the place of a text's first fault.
const MARK: u8 = b'@';

/// The two sides of a text's first mark, and the place where it stands.
#[derive(Clone, Copy)]
pub struct Marked<'a> {
    pub before: &'a [u8],
    pub after: &'a [u8],
    pub place: Place,
}

fn index_of_mark(text: &[u8]) -> Option<usize>
    ensures { result ≡ position is_mark text.now }
{
    text.iter().position(|byte| *byte == MARK)
}

/// A text at its first mark, if it has one.
pub fn at_mark(text: &[u8]) -> Option<Marked<'_>>
    ensures none { result ≡ None ↔ (¬ HasMark text.now) }
    ensures sides { IfSome result (λ marked. IsDivided text.now marked.before.now marked.after.now) }
    ensures place { IfSome result (λ marked. marked.place ≡ after_bytes start marked.before.now) }
{
    let index = index_of_mark(text)?;
    let before = &text[..index];
    Some(Marked {
        before,
        after: &text[index + 1..],
        place: after_bytes(start(), before),
    })
}

fn joined(alloc: Global, before: &[u8], after: &[u8]) -> Result<Vec<u8>, AllocError>
    ensures { IfOk result (λ made. made.items ≡ before.now ++ after.now) }
{
    let mut made = Vec::new(alloc);
    made.extend_from_slice(before)?;
    made.extend_from_slice(after)?;
    Ok(made)
}

/// The text without its first mark.
pub fn without_mark(alloc: Global, text: &[u8]) -> Result<Vec<u8>, AllocError>
    ensures marked { (before after : List ℕ) → IsDivided text.now before after → IfOk result (λ made. made.items ≡ before ++ after) }
    ensures unmarked { ¬ HasMark text.now → IfOk result (λ made. made.items ≡ text.now) }
{
    match at_mark(text) {
        Some(marked) => joined(alloc, marked.before, marked.after),
        None => joined(alloc, text, &[]),
    }
}
