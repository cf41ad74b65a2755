ghost use Rattle.std.specs.Prelude.{◌≡◌, IfOk};
ghost use Rattle.std.specs.List.{concat};
ghost use Rattle.up_text.specs.Lists.{Every};
ghost use Rattle.up_line.specs.Sheet.{after};
ghost use Rattle.up_line.specs.Steps.{longest};
ghost use Rattle.up_map.specs.Texts.{entry_lines, pieces_of_map, map_text};
ghost use Rattle.up_map.specs.Walk.{map_left};
ghost use Rattle.up_map.specs.Spells.{IsEntry, IsMap, MapText};

use crate::map::Map;
use crate::steps::{MapPlace, MapSteps, put_chain, put_entry};
use std::alloc::Global;
use up_compiler::Entry;
use up_line::{Line, Piecewise};
use up_text::Memory;

/// A map that is written piece by piece.
pub type MapPieces<'p> = Piecewise<MapSteps<'p>>;

#[tactic(auto, unfolding(crate::specs::Texts::pieces_of_map))]
fn map_steps(map: &Map) -> MapSteps<'_>
    ensures { map_left result ≡ pieces_of_map map.now }
{
    MapSteps {
        map,
        place: MapPlace::Head,
    }
}

// The length of the longest of the lines for entries and the last.
#[tactic(auto, using(up_line::proofs::Sheets::measures), unfolding(up_line::specs::Steps::longest))]
fn longest_entry(alloc: Global, entries: &[Entry]) -> Result<usize, Memory>
    ensures length { IfOk result (λ n. n ≡ longest (entry_lines entries.now)) }
    ensures entries { IfOk result (λ _. Every IsEntry entries.now) }
{
    let mut line = Line::measuring(alloc);
    let mut most = 0;
    let mut rest = entries;
    'measuring: while let Some((entry, others)) = rest.split_first() {
        put_entry(&mut line, entry);
        let count = match line.count() {
            Some(count) => count,
            None => return Err(Memory),
        };
        most = count.max(most);
        line.clear();
        rest = others;
    }
    Ok(most.max(b"end\n".len()))
}

// The length of the longest line of a map's text.
#[tactic(auto, using(up_line::proofs::Sheets::measures), unfolding(crate::specs::Texts::pieces_of_map, up_line::specs::Steps::longest))]
fn longest_line(alloc: Global, map: &Map) -> Result<usize, Memory>
    ensures length { IfOk result (λ n. n ≡ longest (pieces_of_map map.now)) }
    ensures is_map { IfOk result (λ _. IsMap map.now) }
{
    let mut line = Line::measuring(alloc);
    put_chain(&mut line, map.stages.stages.as_slice());
    let chain = match line.count() {
        Some(count) => count,
        None => return Err(Memory),
    };
    let entries = longest_entry(alloc, map.back.entries().as_slice())?;
    Ok(b"up-map 1\n".len().max(chain.max(entries)))
}

/// The lines of the map's text. Room for the longest of them is taken here, and none later.
///
/// Errors: `Memory` where that room can't be had.
#[tactic(auto, unfolding(crate::specs::Texts::map_text))]
pub fn map_pieces<'p>(alloc: Global, map: &'p Map) -> Result<MapPieces<'p>, Memory>
    ensures text { IfOk result (λ m. m.rest ≡ map_text map.now) }
    ensures spells { IfOk result (λ m. MapText m.rest map.now) }
{
    let most = longest_line(alloc, map)?;
    Piecewise::with_longest(alloc, map_steps(map), most)
}

// The lines for entries, and the last.
#[tactic(auto, using(up_line::proofs::Sheets::puts))]
fn put_entries(line: &mut Line, entries: &[Entry])
    ensures text { line.new ≡ after line.old (concat (entry_lines entries.now)) }
    ensures entries { Every IsEntry entries.now }
{
    let mut rest = entries;
    'putting: while let Some((entry, others)) = rest.split_first() {
        put_entry(line, entry);
        rest = others;
    }
    line.put(b"end\n");
}

// All lines of a map.
#[tactic(auto, using(up_line::proofs::Sheets::puts), unfolding(crate::specs::Texts::map_text, crate::specs::Texts::pieces_of_map))]
fn put_map(line: &mut Line, map: &Map)
    ensures text { line.new ≡ after line.old (map_text map.now) }
    ensures is_map { IsMap map.now }
{
    line.put(b"up-map 1\n");
    put_chain(line, map.stages.stages.as_slice());
    put_entries(line, map.back.entries().as_slice());
}

/// The map as a text: a line for the compilers, one for each action, and `end`. It spells that map, so it is read as it.
///
/// Errors: `Memory` where the text finds no room.
#[tactic(auto, using(up_line::proofs::Sheets::measures))]
pub fn write_map(alloc: Global, map: &Map) -> Result<Vec<u8>, Memory>
    ensures text { IfOk result (λ text. text.items ≡ map_text map.now) }
    ensures spells { IfOk result (λ text. MapText text.items map.now) }
{
    let mut measure = Line::measuring(alloc);
    put_map(&mut measure, map);
    let room = match measure.count() {
        Some(count) => count,
        None => return Err(Memory),
    };
    let mut line = Line::with_room(alloc, room)?;
    put_map(&mut line, map);
    Ok(line.into_bytes())
}
