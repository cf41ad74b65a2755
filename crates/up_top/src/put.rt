ghost use Rattle.std.specs.Prelude.{◌≡◌, ◌≤◌, ◌++◌, ◌<◌, length, codes, decimal, OnOk, OnErr, Some, None};
ghost use Rattle.std.specs.Option.{option_copied};
ghost use Rattle.up_store.specs.Outside.{Rose, written_with, GotPrefix};
ghost use Rattle.up_top.specs.Answers.{place_text, reason_text, named_text, front_text, refused_text, engine_text, actions_text};

use itoa::Buffer;
use up_check::{File, Reason};
use up_pipeline::EngineError;
use up_store::{Sink, SinkFailed};
use up_text::{List, Name, Place};

/// Puts a line: two pieces and a line feed.
#[tactic(auto, using(crate::proofs::Puts::puts))]
pub(crate) fn put_line<K: Sink>(out: &mut K, front: &[u8], behind: &[u8]) -> Result<(), SinkFailed>
    ensures whole { OnOk result (K.written out.new ≡ written_with (front.now ++ behind.now ++ codes "\n") (K.written out.old)) }
    ensures prefix { OnErr result (GotPrefix (front.now ++ behind.now ++ codes "\n") (K.written out.old) (K.written out.new)) }
    ensures failed { OnErr result (Rose (K.faults out.old) (K.faults out.new)) }
    ensures counts { K.faults out.old ≤ K.faults out.new }
{
    out.put(front)?;
    out.put(behind)?;
    out.put(b"\n")
}

/// Puts two pieces.
#[tactic(auto, using(crate::proofs::Puts::puts))]
pub(crate) fn put_both<K: Sink>(out: &mut K, front: &[u8], behind: &[u8]) -> Result<(), SinkFailed>
    ensures whole { OnOk result (K.written out.new ≡ written_with (front.now ++ behind.now) (K.written out.old)) }
    ensures prefix { OnErr result (GotPrefix (front.now ++ behind.now) (K.written out.old) (K.written out.new)) }
    ensures failed { OnErr result (Rose (K.faults out.old) (K.faults out.new)) }
    ensures counts { K.faults out.old ≤ K.faults out.new }
{
    out.put(front)?;
    out.put(behind)
}

/// Puts a number in decimal and what stands behind it.
#[tactic(auto, using(crate::proofs::Puts::puts))]
pub(crate) fn put_number<K: Sink>(out: &mut K, number: u32, behind: &[u8]) -> Result<(), SinkFailed>
    ensures whole { OnOk result (K.written out.new ≡ written_with (decimal number ++ behind.now) (K.written out.old)) }
    ensures prefix { OnErr result (GotPrefix (decimal number ++ behind.now) (K.written out.old) (K.written out.new)) }
    ensures failed { OnErr result (Rose (K.faults out.old) (K.faults out.new)) }
    ensures counts { K.faults out.old ≤ K.faults out.new }
{
    let mut buffer = Buffer::new();
    put_both(out, buffer.format(number).as_bytes(), behind)
}

#[tactic(auto, using(crate::proofs::Puts::puts))]
fn put_place<K: Sink>(out: &mut K, place: Place) -> Result<(), SinkFailed>
    ensures whole { OnOk result (K.written out.new ≡ written_with (place_text place) (K.written out.old)) }
    ensures prefix { OnErr result (GotPrefix (place_text place) (K.written out.old) (K.written out.new)) }
    ensures failed { OnErr result (Rose (K.faults out.old) (K.faults out.new)) }
    ensures counts { K.faults out.old ≤ K.faults out.new }
{
    put_number(out, place.line, b":")?;
    put_number(out, place.column, b" ")
}

// Puts a reason and what it names, and ends the line.
#[tactic(auto, using(crate::proofs::Puts::puts))]
fn put_named<K: Sink>(out: &mut K, reason: &[u8], name: &[u8]) -> Result<(), SinkFailed>
    ensures whole { OnOk result (K.written out.new ≡ written_with (named_text reason.now name.now) (K.written out.old)) }
    ensures prefix { OnErr result (GotPrefix (named_text reason.now name.now) (K.written out.old) (K.written out.new)) }
    ensures failed { OnErr result (Rose (K.faults out.old) (K.faults out.new)) }
    ensures counts { K.faults out.old ≤ K.faults out.new }
{
    out.put(reason)?;
    put_line(out, b" ", name)
}

// Puts a reason and what it may name, and ends the line.
#[tactic(auto, using(crate::proofs::Puts::puts))]
fn put_reason<K: Sink>(out: &mut K, reason: &[u8], name: Option<&Name>) -> Result<(), SinkFailed>
    ensures whole { OnOk result (K.written out.new ≡ written_with (reason_text reason.now (option_copied name.entry)) (K.written out.old)) }
    ensures prefix { OnErr result (GotPrefix (reason_text reason.now (option_copied name.entry)) (K.written out.old) (K.written out.new)) }
    ensures failed { OnErr result (Rose (K.faults out.old) (K.faults out.new)) }
    ensures counts { K.faults out.old ≤ K.faults out.new }
{
    match name {
        Some(name) => put_named(out, reason, name.bytes()),
        None => put_both(out, reason, b"\n"),
    }
}

fn front_of(file: File) -> &'static [u8]
    ensures { result.now ≡ front_text file }
{
    match file {
        File::Domain => b"domain refused ",
        File::Problem => b"problem refused ",
    }
}

/// Puts where a reading stops, and why.
#[tactic(auto, using(crate::proofs::Puts::puts))]
pub(crate) fn put_refused<K: Sink>(
    out: &mut K,
    file: File,
    place: Place,
    reason: Reason,
    name: Option<&Name>,
) -> Result<(), SinkFailed>
    ensures whole { OnOk result (K.written out.new ≡ written_with (refused_text file place reason (option_copied name.entry)) (K.written out.old)) }
    ensures prefix { OnErr result (GotPrefix (refused_text file place reason (option_copied name.entry)) (K.written out.old) (K.written out.new)) }
    ensures failed { OnErr result (Rose (K.faults out.old) (K.faults out.new)) }
    ensures counts { K.faults out.old ≤ K.faults out.new }
{
    out.put(front_of(file))?;
    put_place(out, place)?;
    put_reason(out, reason.word().as_bytes(), name)
}

// Puts a front, a reason and what it names, and ends the line.
#[tactic(auto, using(crate::proofs::Puts::puts))]
fn put_front_named<K: Sink>(
    out: &mut K,
    front: &[u8],
    reason: &[u8],
    name: &[u8],
) -> Result<(), SinkFailed>
    ensures whole { OnOk result (K.written out.new ≡ written_with (front.now ++ named_text reason.now name.now) (K.written out.old)) }
    ensures prefix { OnErr result (GotPrefix (front.now ++ named_text reason.now name.now) (K.written out.old) (K.written out.new)) }
    ensures failed { OnErr result (Rose (K.faults out.old) (K.faults out.new)) }
    ensures counts { K.faults out.old ≤ K.faults out.new }
{
    out.put(front)?;
    put_named(out, reason, name)
}

// Puts why an engine is refused, and the word at fault.
fn put_engine_word<K: Sink>(out: &mut K, reason: &[u8], word: &List<u8>) -> Result<(), SinkFailed>
    ensures whole { OnOk result (K.written out.new ≡ written_with (codes "engine refused " ++ named_text reason.now word.now) (K.written out.old)) }
    ensures prefix { OnErr result (GotPrefix (codes "engine refused " ++ named_text reason.now word.now) (K.written out.old) (K.written out.new)) }
    ensures failed { OnErr result (Rose (K.faults out.old) (K.faults out.new)) }
    ensures counts { K.faults out.old ≤ K.faults out.new }
{
    put_front_named(out, b"engine refused ", reason, word.as_slice())
}

/// Puts why an engine is refused.
pub(crate) fn put_engine<K: Sink>(out: &mut K, error: &EngineError) -> Result<(), SinkFailed>
    ensures whole { OnOk result (K.written out.new ≡ written_with (engine_text error.now) (K.written out.old)) }
    ensures prefix { OnErr result (GotPrefix (engine_text error.now) (K.written out.old) (K.written out.new)) }
    ensures failed { OnErr result (Rose (K.faults out.old) (K.faults out.new)) }
    ensures counts { K.faults out.old ≤ K.faults out.new }
{
    match error {
        EngineError::Memory => out.put(b"out of memory\n"),
        EngineError::Toml => out.put(b"engine refused toml\n"),
        EngineError::UnknownKey { word } => put_engine_word(out, b"unknown-key", word),
        EngineError::NoKey { word } => put_engine_word(out, b"no-key", word),
        EngineError::WrongType { word } => put_engine_word(out, b"wrong-type", word),
        EngineError::UnknownFeature { word } => put_engine_word(out, b"unknown-feature", word),
    }
}

/// Puts a line that ends in a count.
#[tactic(auto, using(crate::proofs::Puts::puts))]
pub(crate) fn put_count<K: Sink>(out: &mut K, front: &[u8], count: usize) -> Result<(), SinkFailed>
    ensures whole { OnOk result (K.written out.new ≡ written_with (front.now ++ decimal count ++ codes "\n") (K.written out.old)) }
    ensures prefix { OnErr result (GotPrefix (front.now ++ decimal count ++ codes "\n") (K.written out.old) (K.written out.new)) }
    ensures failed { OnErr result (Rose (K.faults out.old) (K.faults out.new)) }
    ensures counts { K.faults out.old ≤ K.faults out.new }
{
    let mut buffer = Buffer::new();
    put_line(out, front, buffer.format(count).as_bytes())
}

/// Puts how many actions were compiled.
pub(crate) fn put_actions<K: Sink>(out: &mut K, count: usize) -> Result<(), SinkFailed>
    ensures whole { OnOk result (K.written out.new ≡ written_with (actions_text count) (K.written out.old)) }
    ensures prefix { OnErr result (GotPrefix (actions_text count) (K.written out.old) (K.written out.new)) }
    ensures failed { OnErr result (Rose (K.faults out.old) (K.faults out.new)) }
    ensures counts { K.faults out.old ≤ K.faults out.new }
{
    put_count(out, b"done actions ", count)
}
