ghost use Rattle.std.specs.Prelude.{◌≡◌, ◌∷◌, ◌++◌, map, IfOk, OnOk};
ghost use Rattle.pddl_lex.specs.Bytes.{fold_byte};
ghost use Rattle.pddl_lex.specs.Items.{kind_of};
ghost use Rattle.pddl_lex.specs.Spells.{HasShape};

use crate::TokenKind;
use crate::decimal::literal;
use crate::shape::Shape;
use std::alloc::Global;
use up_text::{List, Memory, fold_byte};

// Some bytes in lower case behind others.
fn add_folded(bytes: &[u8], folded: &mut List<u8>) -> Result<(), Memory>
    ensures { OnOk result (folded.new ≡ folded.old ++ map fold_byte bytes.now) }
{
    for byte in bytes {
        folded.push(fold_byte(*byte))?;
    }
    Ok(())
}

fn folded(alloc: Global, bytes: &[u8]) -> Result<List<u8>, Memory>
    ensures { IfOk result (λ folded. folded ≡ map fold_byte bytes.now) }
{
    let mut folded = List::new(alloc);
    add_folded(bytes, &mut folded)?;
    Ok(folded)
}

fn word_of(alloc: Global, byte: u8, behind: &[u8]) -> Result<List<u8>, Memory>
    ensures { IfOk result (λ word. word ≡ fold_byte byte ∷ map fold_byte behind.now) }
{
    let mut word = List::new(alloc);
    word.push(fold_byte(byte))?;
    add_folded(behind, &mut word)?;
    Ok(word)
}

/// The kind of a token of this shape, by its first byte and those behind.
pub fn kind_of(alloc: Global, shape: Shape, byte: u8, behind: &[u8]) -> Result<TokenKind, Memory>
    requires { HasShape shape byte behind.now }
    ensures { IfOk result (λ kind. kind ≡ kind_of shape byte behind.now) }
{
    match shape {
        Shape::Open => Ok(TokenKind::Open),
        Shape::Close => Ok(TokenKind::Close),
        Shape::Word => Ok(TokenKind::Word(word_of(alloc, byte, behind)?)),
        Shape::Variable => Ok(TokenKind::Variable(folded(alloc, behind)?)),
        Shape::Keyword => Ok(TokenKind::Keyword(folded(alloc, behind)?)),
        Shape::Number => Ok(TokenKind::Number(literal(byte, behind))),
        Shape::Sign(sign) => Ok(TokenKind::Sign(sign)),
    }
}
