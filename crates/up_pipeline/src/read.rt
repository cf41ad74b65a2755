ghost use Rattle.std.specs.Prelude.{◌≡◌, Err, option_map, option_copied, find, not, string_bytes, IfOk};
ghost use Rattle.std.specs.BTreeMap.{keys};
ghost use Rattle.toml.specs.View.{view, items_view, members_view, table_view};
ghost use Rattle.toml.specs.Data.{as_array, get_member};
ghost use Rattle.up_pipeline.specs.Document.{document, is_known, unknown_key, are_strings};
ghost use Rattle.up_pipeline.specs.Engine.{engine_of, with_keys, with_items, add_feature, add_words, Gives};
ghost use Rattle.up_kind.specs.Features.{feature_of};

use crate::{Engine, EngineError};
use std::alloc::Global;
use toml::{Table, Value};
use up_kind::{Feature, Kind};
use up_text::{List, Memory};

// A copy of some bytes.
fn copy_of(alloc: Global, bytes: &[u8]) -> Result<List<u8>, Memory>
    ensures { IfOk result (λ copy. copy ≡ bytes.now) }
{
    Ok(List::from_vec(bytes.to_vec(alloc)?))
}

fn is_known(key: &str) -> bool
    ensures { result ≡ is_known key.now }
{
    key == "name" || key == "features"
}

// The first key that the table may not have.
#[tactic(auto, using(crate::proofs::Keys::unknown_key_keys))]
fn unknown_key(table: &Table) -> Option<&str>
    ensures { option_copied result ≡ unknown_key (table_view table.now) }
{
    match first_unknown(table) {
        Some(key) => Some(key.as_str()),
        None => None,
    }
}

fn first_unknown(table: &Table) -> Option<&String>
    ensures { option_copied result ≡ find (λ key. not (is_known (string_bytes key))) (keys table.now) }
{
    table.keys().find(|key| !is_known(key.as_str()))
}

fn are_strings(values: &[Value]) -> bool
    ensures { result ≡ are_strings (items_view values.now) }
{
    for value in values {
        if value.as_str().is_none() {
            return false;
        }
    }
    true
}

// The kind with the feature of a word besides.
fn add_word(alloc: Global, kind: Kind, word: &str) -> Result<Kind, EngineError>
    ensures { Gives (add_feature word.now (feature_of word.now) kind) result }
{
    match Feature::read(word) {
        Some(feature) if feature.is_visible() => Ok(Kind(kind.0 | feature.only().0)),
        _ => match copy_of(alloc, word.as_bytes()) {
            Ok(word) => Err(EngineError::UnknownFeature { word }),
            Err(Memory) => Err(EngineError::Memory),
        },
    }
}

// The kind of these words.
fn kind_of(alloc: Global, values: &[Value]) -> Result<Kind, EngineError>
    ensures { Gives (add_words (items_view values.now) (record { 0 = 0 })) result }
{
    let mut kind = Kind(0);
    for value in values {
        if let Some(word) = value.as_str() {
            kind = add_word(alloc, kind, word)?;
        }
    }
    Ok(kind)
}

// A refusal for the key of this name.
fn no_key(alloc: Global, key: &str) -> EngineError
    ensures { ¬ (result ≡ EngineError.Memory) → result ≡ EngineError.NoKey key.now }
{
    match copy_of(alloc, key.as_bytes()) {
        Ok(word) => EngineError::NoKey { word },
        Err(Memory) => EngineError::Memory,
    }
}

fn wrong_type(alloc: Global, key: &str) -> EngineError
    ensures { ¬ (result ≡ EngineError.Memory) → result ≡ EngineError.WrongType key.now }
{
    match copy_of(alloc, key.as_bytes()) {
        Ok(word) => EngineError::WrongType { word },
        Err(Memory) => EngineError::Memory,
    }
}

// The engine of two values.
fn engine_of_values(alloc: Global, features: &Value, name: &Value) -> Result<Engine, EngineError>
    ensures { Gives (with_items (as_array (view features.now)) (view name.now)) result }
{
    let Some(words) = features.as_array() else {
        return Err(wrong_type(alloc, "features"));
    };
    if !are_strings(words.as_slice()) {
        return Err(wrong_type(alloc, "features"));
    }
    let Some(name) = name.as_str() else {
        return Err(wrong_type(alloc, "name"));
    };
    let features = kind_of(alloc, words.as_slice())?;
    match copy_of(alloc, name.as_bytes()) {
        Ok(name) => Ok(Engine { name, features }),
        Err(Memory) => Err(EngineError::Memory),
    }
}

fn engine_of_table(alloc: Global, table: &Table) -> Result<Engine, EngineError>
    ensures { Gives (with_keys (table_view table.now) (unknown_key (table_view table.now))) result }
{
    if let Some(key) = unknown_key(table) {
        return match copy_of(alloc, key.as_bytes()) {
            Ok(word) => Err(EngineError::UnknownKey { word }),
            Err(Memory) => Err(EngineError::Memory),
        };
    }
    let Some(features) = value_of(table, "features") else {
        return Err(no_key(alloc, "features"));
    };
    let Some(name) = value_of(table, "name") else {
        return Err(no_key(alloc, "name"));
    };
    engine_of_values(alloc, features, name)
}

// The value of a key.
#[tactic(auto, using(toml::proofs::Views::table_get))]
fn value_of<'t>(table: &'t Table, key: &str) -> Option<&'t Value>
    ensures { option_map (λ value. view value.now) result ≡ get_member key.now (table_view table.now) }
{
    table.get(key)
}

impl Engine {
    /// The engine that the bytes say, or the first refusal.
    #[tactic(auto, using(crate::proofs::Keys::documents))]
    pub fn read(alloc: Global, bytes: &[u8]) -> Result<Engine, EngineError>
        ensures { Gives (engine_of bytes.now) result }
    {
        match toml::table_from_slice(alloc, bytes) {
            Ok(table) => engine_of_table(alloc, &table),
            Err(error) => {
                if error.is_memory() {
                    return Err(EngineError::Memory);
                }
                Err(EngineError::Toml)
            }
        }
    }
}
