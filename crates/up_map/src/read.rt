ghost use Rattle.std.specs.Prelude.{◌≡◌, ◌++◌, ◌∷◌, ◌≤◌, ◌+◌, ◌<◌, ◌^◌, [], length, Ok, Err, Some, IfOk, IfErr, OnOk};
ghost use Rattle.std.specs.Option.{option_copied};
ghost use Rattle.up_compiler.specs.Back.{IsBack};
ghost use Rattle.up_map.specs.Splits.{words, lines, pieces};
ghost use Rattle.up_map.specs.Entries.{entry_of, stages_of, chain_of};
ghost use Rattle.up_map.specs.Reading.{new_entry, ended, entries_from, chain_from, map_of, first_fault};
ghost use Rattle.up_map.specs.Spells.{MapText};

use crate::cut::{Cut, cut_at};
use crate::entry::read_entry;
use crate::map::Map;
use crate::map_error::MapError;
use std::alloc::Global;
use up_compiler::{Back, Chain, CompilerId, Entry};
use up_text::{List, Memory, NameSet};

// Compilers by their names.
fn read_stages(alloc: Global, words: Option<&[u8]>) -> Result<Option<List<CompilerId>>, Memory>
    ensures { IfOk result (λ stages. stages ≡ stages_of (pieces 32 (option_copied words.entry))) }
{
    let mut stages = List::new(alloc);
    let mut rest = words;
    'reading: while let Some(text) = rest {
        let Cut { front, behind } = cut_at(b' ', text);
        match CompilerId::read(front) {
            Some(stage) => {
                stages.push(stage)?;
                rest = behind;
            }
            None => return Ok(None),
        }
    }
    Ok(Some(stages))
}

// The compilers of the line that names them, if the line fits.
fn read_chain_line(alloc: Global, line: &[u8]) -> Result<Option<List<CompilerId>>, Memory>
    ensures { IfOk result (λ stages. stages ≡ chain_of (words line.now)) }
{
    let word = cut_at(b' ', line);
    if word.front == b"chain".as_slice() {
        read_stages(alloc, word.behind)
    } else {
        Ok(None)
    }
}

// The entry of the line with this number, for an action that has none yet.
fn read_new_entry(
    alloc: Global,
    number: usize,
    line: &[u8],
    actions: &mut NameSet,
) -> Result<Entry, MapError>
    ensures read { IfOk result (λ e. new_entry number actions.old (entry_of (words line.now)) ≡ Ok e) }
    ensures actions { IfOk result (λ e. actions.new ≡ actions.old ++ e.action ∷ []) }
    ensures fault { IfErr result (λ fault. ¬ (fault ≡ MapError.Memory) → new_entry number actions.old (entry_of (words line.now)) ≡ Err fault) }
{
    let entry = match read_entry(alloc, line) {
        Ok(Some(entry)) => entry,
        Ok(None) => return Err(MapError::Bad { line: number }),
        Err(Memory) => return Err(MapError::Memory),
    };
    let action = entry.action.copy(alloc)?;
    if actions.add(action)? {
        Ok(entry)
    } else {
        Err(MapError::DoubleName { line: number })
    }
}

// The entries, where nothing stands behind the last line.
fn ended(number: usize, entries: List<Entry>, behind: &[u8]) -> Result<List<Entry>, MapError>
    ensures read { IfOk result (λ all. ended number entries (lines behind.now) ≡ Ok all) }
    ensures fault { IfErr result (λ fault. ended number entries (lines behind.now) ≡ Err fault) }
{
    match behind {
        [] => Ok(entries),
        _ => Err(MapError::Bad { line: number }),
    }
}

// The entries of the lines up to `end`, the first of which is the third of the text.
#[tactic(auto, using(crate::proofs::Splitting::split_some))]
fn read_entries(alloc: Global, text: &[u8]) -> Result<List<Entry>, MapError>
    ensures read { IfOk result (λ entries. entries_from (lines text.now) 3 [] ≡ Ok entries) }
    ensures fault { IfErr result (λ fault. ¬ (fault ≡ MapError.Memory) → entries_from (lines text.now) 3 [] ≡ Err fault) }
{
    let mut entries = List::new(alloc);
    let mut actions = NameSet::new(alloc);
    let mut rest = text;
    let mut number = 3_usize;
    'reading: loop {
        let Cut { front, behind } = cut_at(b'\n', rest);
        let behind = match behind {
            Some(behind) => behind,
            None => {
                drop(actions);
                drop(entries);
                return Err(MapError::Bad { line: number });
            }
        };
        if front == b"end".as_slice() {
            drop(actions);
            return ended(number + 1, entries, behind);
        }
        let entry = match read_new_entry(alloc, number, front, &mut actions) {
            Ok(entry) => entry,
            Err(fault) => {
                drop(actions);
                drop(entries);
                return Err(fault);
            }
        };
        match entries.push(entry) {
            Ok(()) => {
                rest = behind;
                number += 1;
            }
            Err(Memory) => {
                drop(actions);
                drop(entries);
                return Err(MapError::Memory);
            }
        }
    }
}

// The map whose text goes on so behind its first line.
#[tactic(auto, using(crate::proofs::Splitting::split_some))]
fn read_chain(alloc: Global, text: &[u8]) -> Result<Map, MapError>
    ensures read { IfOk result (λ map. chain_from (lines text.now) ≡ Ok map) }
    ensures fault { IfErr result (λ fault. ¬ (fault ≡ MapError.Memory) → chain_from (lines text.now) ≡ Err fault) }
{
    let Cut { front, behind } = cut_at(b'\n', text);
    let behind = match behind {
        Some(behind) => behind,
        None => return Err(MapError::Bad { line: 2 }),
    };
    let stages = match read_chain_line(alloc, front) {
        Ok(Some(stages)) => stages,
        Ok(None) => return Err(MapError::Bad { line: 2 }),
        Err(Memory) => return Err(MapError::Memory),
    };
    match read_entries(alloc, behind) {
        Ok(entries) => Ok(Map {
            stages: Chain { stages },
            back: Back::new(entries),
        }),
        Err(fault) => Err(fault),
    }
}

// The map of the lines of a text.
#[tactic(auto, using(crate::proofs::Splitting::split_some), unfolding(crate::specs::Reading::map_of))]
fn read_lines(alloc: Global, text: &[u8]) -> Result<Map, MapError>
    ensures read { IfOk result (λ map. map_of text.now ≡ Ok map) }
    ensures fault { IfErr result (λ fault. ¬ (fault ≡ MapError.Memory) → map_of text.now ≡ Err fault) }
{
    let Cut { front, behind } = cut_at(b'\n', text);
    match behind {
        Some(behind) if front == b"up-map 1".as_slice() => read_chain(alloc, behind),
        _ => Err(MapError::Bad { line: 1 }),
    }
}

/// The map that a text spells.
///
/// Its lines, each ended by one line feed, are `up-map 1`, `chain` with the names of the compilers that ran, a line
/// `action NAME ARITY drop` or `action NAME ARITY keep NAME ITEM ..` for each action, and `end`. Single spaces separate
/// words, numbers have no leading zeros, and names are in lower case. An item is `$k`, the k-th of the ARITY arguments, or
/// an object, which isn't looked up.
///
/// Errors: at the first line that doesn't fit, `Bad`, also where a line is missing or one stands behind `end`; where a line
/// fits and its action has an entry already, `DoubleName`; `Memory` where the map finds no room.
#[tactic(auto, using(crate::proofs::Laws::first_there))]
pub fn read_map(alloc: Global, bytes: &[u8]) -> Result<Map, MapError>
    ensures map { IfOk result (MapText bytes.now) }
    ensures fault { IfErr result (λ fault. ¬ (fault ≡ MapError.Memory) → first_fault bytes.now ≡ Some fault) }
{
    match read_lines(alloc, bytes) {
        Ok(map) => Ok(map),
        Err(fault) => Err(fault),
    }
}
