ghost use Rattle.std.specs.Prelude.{◌≡◌, [], ◌++◌, OnOk, Ok, Some, Err, map, IfOk, IfErr};
ghost use Rattle.pddl_lex.specs.Brackets.{Trees};
ghost use Rattle.pddl_lex.specs.Spells.{SpelledBy};
ghost use Rattle.pddl_lex.specs.Items.{items, item_of};
ghost use Rattle.pddl_lex.specs.Faults.{byte_faults, faults_to_depth, first_of, is_too_deep};
ghost use Rattle.pddl_lex.specs.Nesting.{nested, empty_nest};

use crate::found::{Found, found_at};
use crate::nest::Nest;
use crate::place::{after_byte, after_bytes, start};
use crate::{LexError, Sexp, Token};
use std::alloc::Global;
use up_text::{List, Memory};

// A token, if there is one, behind others.
fn add_token(token: Option<Token>, tokens: &mut List<Token>) -> Result<(), Memory>
    ensures { OnOk result (map Ok tokens.new ≡ map Ok tokens.old ++ item_of token) }
{
    if let Some(token) = token {
        tokens.push(token)?;
    }
    Ok(())
}

/// The tokens of a text, each with its place: names, variables, keywords, numbers and signs of PDDL (PDDL 2.1, Fox and
/// Long 2003, appendix A), with letters in lower case. A comment runs from `;` to the end of its line and may hold
/// any bytes.
///
/// A byte that begins no token is a BadByte. A number of more than 18 digits or more than 9 behind its point, or one
/// directly followed by a letter, a digit, `_`, `-` or `.`, is a BadNumber.
#[tactic(auto, unfolding(crate::specs::Items::items), using(crate::proofs::Lexing::first_behind))]
pub fn tokens(alloc: Global, text: &[u8]) -> Result<List<Token>, LexError>
    ensures tokens { IfOk result (SpelledBy text.now) }
    ensures fault { IfErr result (λ fault. ¬ (fault ≡ LexError.Memory) → first_of (byte_faults text.now) ≡ Some fault) }
{
    let mut tokens = List::new(alloc);
    let mut rest = text;
    let mut place = start();
    'reading: while let Some((byte, behind)) = rest.split_first() {
        let Found { token, more } = found_at(alloc, place, *byte, behind)?;
        add_token(token, &mut tokens)?;
        place = after_bytes(after_byte(place, *byte), &behind[..more]);
        rest = &behind[more..];
    }
    Ok(tokens)
}

/// The bracket trees of a text. Beside the faults of its bytes and numbers, a `)` without its `(` is Unopened, the first
/// `(` inside 200 others TooDeep, and where brackets are open at the end the innermost is Unclosed.
pub fn brackets(alloc: Global, text: &[u8]) -> Result<List<Sexp>, LexError>
    ensures trees { IfOk result (Trees text.now) }
    ensures depth { OnOk result (faults_to_depth text.now ≡ []) }
    ensures fault { IfErr result (λ fault. ¬ (fault ≡ LexError.Memory) → first_of (faults_to_depth text.now) ≡ Some fault) }
{
    nested(alloc, text)
}

// The trees, token by token.
#[tactic(auto, unfolding(crate::specs::Items::items), using(crate::proofs::Lexing::nested_found))]
fn nested(alloc: Global, text: &[u8]) -> Result<List<Sexp>, LexError>
    ensures { ¬ (result ≡ Err LexError.Memory) → result ≡ nested is_too_deep (items text.now) empty_nest }
{
    let mut nest = Nest::new(alloc);
    let mut rest = text;
    let mut place = start();
    'reading: while let Some((byte, behind)) = rest.split_first() {
        let Found { token, more } = found_at(alloc, place, *byte, behind)?;
        nest = nest.with_found(alloc, token)?;
        place = after_bytes(after_byte(place, *byte), &behind[..more]);
        rest = &behind[more..];
    }
    nest.ended()
}
