ghost use Rattle.std.specs.Prelude.{◌≡◌, None, Ok, IfOk, IfErr};
ghost use Rattle.up_map.specs.declared.map.Map.{Map as SpelledMap};
ghost use Rattle.up_map.specs.Reading.{map_of, first_fault};
ghost use Rattle.up_map.specs.Spells.{IsMap, MapText};
ghost use Rattle.up_map.specs.Texts.{map_text};

use crate::map::Map;
use crate::map_error::MapError;
use crate::read::read_map;
use crate::write::write_map;
use std::alloc::Global;

/// A law: a text spells a map exactly where it has no faulty line, and one map at most.
#[tactic(auto, using(crate::proofs::Laws::spelled_faultless, crate::proofs::Laws::faultless_spelled, crate::proofs::Laws::spelled_one))]
pub fn map_text_law(text: &[u8])
    ensures spelled { (m : SpelledMap) → MapText text.now m → first_fault text.now ≡ None }
    ensures faultless { first_fault text.now ≡ None → (m : SpelledMap) × MapText text.now m }
    ensures one { (m other : SpelledMap) → MapText text.now m → MapText text.now other → m ≡ other }
{
    let _ = text;
}

/// A law: a map's text spells that map and no other, and what is read of it is that map.
#[tactic(auto, using(crate::proofs::Spelling::written_spelled, crate::proofs::Spelling::written_one, crate::proofs::Spelling::written_read))]
pub fn written_map_law()
    ensures spells { (m : SpelledMap) → IsMap m → MapText (map_text m) m }
    ensures alone { (m other : SpelledMap) → IsMap m → MapText (map_text m) other → other ≡ m }
    ensures read { (m : SpelledMap) → IsMap m → map_of (map_text m) ≡ Ok m }
{}

/// A law: the text that is written of a map is read as that map again.
///
/// Errors: `Memory` alone, where the text or the map finds no room.
#[tactic(auto, using(crate::proofs::Laws::spelled_one, crate::proofs::Spelling::memory_alone))]
pub fn written_reads_back(alloc: Global, map: &Map) -> Result<Map, MapError>
    ensures same { IfOk result (λ read. read ≡ map.now) }
    ensures memory { IfErr result (λ fault. fault ≡ MapError.Memory) }
{
    let text = write_map(alloc, map)?;
    match read_map(alloc, text.as_slice()) {
        Ok(read) => Ok(read),
        Err(fault) => Err(fault),
    }
}
