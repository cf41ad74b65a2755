ghost use Rattle.std.specs.Prelude.{◌≡◌, ◌∷◌, IfOk};
ghost use Rattle.std.specs.Option.{option_copied};
ghost use Rattle.up_map.specs.Splits.{words, pieces};
ghost use Rattle.up_map.specs.Entries.{item_of, items_of, kept_of, drop_alone, target_of, arity_of, action_of, entry_of};

use crate::cut::{Cut, cut_at};
use crate::number::read_number;
use std::alloc::Global;
use up_compiler::{Entry, Item, Target};
use up_text::{List, Memory, Name};

// The argument at a place that is written so.
fn read_argument(arity: usize, digits: &[u8]) -> Option<Item>
    ensures { result ≡ item_of arity (36 ∷ digits.now) }
{
    match read_number(digits) {
        Some(place) if 1 <= place && place <= arity => Some(Item::Argument(place)),
        _ => None,
    }
}

fn read_item(alloc: Global, arity: usize, word: &[u8]) -> Result<Option<Item>, Memory>
    ensures { IfOk result (λ item. item ≡ item_of arity word.now) }
{
    match word {
        [] => Ok(None),
        [b'$', digits @ ..] => Ok(read_argument(arity, digits)),
        _ => match Name::of_bytes(alloc, word)? {
            Some(name) => Ok(Some(Item::Object(name))),
            None => Ok(None),
        },
    }
}

// The items of an entry with so many arguments.
fn read_items(
    alloc: Global,
    arity: usize,
    words: Option<&[u8]>,
) -> Result<Option<List<Item>>, Memory>
    ensures { IfOk result (λ items. items ≡ items_of arity (pieces 32 (option_copied words.entry))) }
{
    let mut items = List::new(alloc);
    let mut rest = words;
    'reading: while let Some(text) = rest {
        let Cut { front, behind } = cut_at(b' ', text);
        match read_item(alloc, arity, front)? {
            Some(item) => {
                items.push(item)?;
                rest = behind;
            }
            None => return Ok(None),
        }
    }
    Ok(Some(items))
}

// A name and items.
fn read_kept(alloc: Global, arity: usize, words: Option<&[u8]>) -> Result<Option<Target>, Memory>
    ensures { IfOk result (λ target. target ≡ kept_of arity (pieces 32 (option_copied words.entry))) }
{
    let word = match words {
        Some(text) => cut_at(b' ', text),
        None => return Ok(None),
    };
    let items = match read_items(alloc, arity, word.behind)? {
        Some(items) => items,
        None => return Ok(None),
    };
    match Name::of_bytes(alloc, word.front)? {
        Some(name) => Ok(Some(Target::Keep(name, items))),
        None => Ok(None),
    }
}

// `drop` with nothing behind it.
fn read_drop(words: Option<&[u8]>) -> Option<Target>
    ensures { result ≡ drop_alone (pieces 32 (option_copied words.entry)) }
{
    match words {
        None => Some(Target::Drop),
        Some(_) => None,
    }
}

// `drop`, or `keep`, a name and items.
fn read_target(alloc: Global, arity: usize, words: Option<&[u8]>) -> Result<Option<Target>, Memory>
    ensures { IfOk result (λ target. target ≡ target_of arity (pieces 32 (option_copied words.entry))) }
{
    let word = match words {
        Some(text) => cut_at(b' ', text),
        None => return Ok(None),
    };
    if word.front == b"keep".as_slice() {
        read_kept(alloc, arity, word.behind)
    } else if word.front == b"drop".as_slice() {
        Ok(read_drop(word.behind))
    } else {
        Ok(None)
    }
}

// A number of arguments and a target.
fn read_arity(alloc: Global, action: Name, words: Option<&[u8]>) -> Result<Option<Entry>, Memory>
    ensures { IfOk result (λ entry. entry ≡ arity_of (pieces 32 (option_copied words.entry)) action) }
{
    let word = match words {
        Some(text) => cut_at(b' ', text),
        None => return Ok(None),
    };
    let arity = match read_number(word.front) {
        Some(arity) => arity,
        None => return Ok(None),
    };
    match read_target(alloc, arity, word.behind)? {
        Some(target) => Ok(Some(Entry {
            action,
            arity,
            target,
        })),
        None => Ok(None),
    }
}

// A name, a number of arguments and a target.
fn read_action(alloc: Global, words: Option<&[u8]>) -> Result<Option<Entry>, Memory>
    ensures { IfOk result (λ entry. entry ≡ action_of (pieces 32 (option_copied words.entry))) }
{
    let word = match words {
        Some(text) => cut_at(b' ', text),
        None => return Ok(None),
    };
    match Name::of_bytes(alloc, word.front)? {
        Some(action) => read_arity(alloc, action, word.behind),
        None => Ok(None),
    }
}

/// The entry of a line, if the line fits.
pub fn read_entry(alloc: Global, line: &[u8]) -> Result<Option<Entry>, Memory>
    ensures { IfOk result (λ entry. entry ≡ entry_of (words line.now)) }
{
    let word = cut_at(b' ', line);
    if word.front == b"action".as_slice() {
        read_action(alloc, word.behind)
    } else {
        Ok(None)
    }
}
