ghost use Rattle.std.specs.Prelude.{◌≡◌, ◌<◌, Ok, Err, IfOk, IfErr, length};
ghost use Rattle.plan_text.specs.Steps.{word, words};
ghost use Rattle.plan_text.specs.Seen.{seen_word, seen_words};

use crate::bytes::{behind_blanks, first, is_name_byte, name_length};
use crate::line_fault::LineFault;
use crate::part::stuck;
use std::alloc::Global;
use up_text::{List, Name, NameError};

/// A name and what is left of the line behind it and blanks.
#[derive(Drop)]
pub struct Word<'t> {
    pub name: Name,
    pub left: &'t [u8],
}

/// Names and what is left of the line behind them and blanks.
#[derive(Drop)]
pub struct Words<'t> {
    pub names: List<Name>,
    pub left: &'t [u8],
}

/// The name in front of a line.
pub fn read_word(alloc: Global, line: &[u8]) -> Result<Word<'_>, LineFault>
    ensures read { IfOk result (λ read. word line.now ≡ Ok (seen_word read)) }
    ensures left { IfOk result (λ read. length read.left.now < length line.now) }
    ensures fault { IfErr result (λ fault. ¬ (fault ≡ LineFault.Memory) → word line.now ≡ Err fault) }
{
    let (bytes, rest) = line.split_at(name_length(line));
    match Name::read(alloc, bytes) {
        Ok(name) => Ok(Word {
            name,
            left: behind_blanks(rest),
        }),
        Err(NameError::Memory) => Err(LineFault::Memory),
        Err(NameError::NotAName | NameError::Reserved) => Err(stuck(line)),
    }
}

/// The names in front of a line, up to what is no byte of a name.
pub fn read_words(alloc: Global, line: &[u8]) -> Result<Words<'_>, LineFault>
    ensures read { IfOk result (λ read. words line.now ≡ Ok (seen_words read)) }
    ensures fault { IfErr result (λ fault. ¬ (fault ≡ LineFault.Memory) → words line.now ≡ Err fault) }
{
    let mut names = List::new(alloc);
    let mut left = line;
    'reading: while is_name_byte(first(left)) {
        match read_word(alloc, left) {
            Ok(word) => {
                names.push(word.name)?;
                left = word.left;
            }
            Err(fault) => return Err(fault),
        }
    }
    Ok(Words { names, left })
}
