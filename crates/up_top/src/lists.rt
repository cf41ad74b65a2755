ghost use Rattle.std.specs.Prelude.{◌≡◌, ◌≤◌, ◌++◌, codes, map, OnOk, OnErr};
ghost use Rattle.up_map.specs.Texts.{chain_line};
ghost use Rattle.up_store.specs.Outside.{Rose, written_with, GotPrefix};
ghost use Rattle.up_top.specs.Answers.{features_text, fronted, flag_row, row_text, rows_text};

use bitflags::{Flag, Flags};
use up_compiler::CompilerId;
use up_kind::Kind;
use up_store::{Sink, SinkFailed};

// Puts the names of compilers, each behind a front.
#[tactic(auto, using(crate::proofs::Puts::puts))]
fn put_each<K: Sink>(out: &mut K, front: &[u8], stages: &[CompilerId]) -> Result<(), SinkFailed>
    ensures whole { OnOk result (K.written out.new ≡ written_with (fronted front.now stages.now) (K.written out.old)) }
    ensures prefix { OnErr result (GotPrefix (fronted front.now stages.now) (K.written out.old) (K.written out.new)) }
    ensures failed { OnErr result (Rose (K.faults out.old) (K.faults out.new)) }
    ensures counts { K.faults out.old ≤ K.faults out.new }
{
    match stages.split_first() {
        None => Ok(()),
        Some((stage, stages)) => {
            out.put(front)?;
            out.put(stage.name().as_bytes())?;
            put_each(out, front, stages)
        }
    }
}

// Puts a front, the names of compilers, each behind one of its own, and an end.
#[tactic(auto, using(crate::proofs::Puts::puts))]
fn put_between<K: Sink>(
    out: &mut K,
    head: &[u8],
    front: &[u8],
    stages: &[CompilerId],
    end: &[u8],
) -> Result<(), SinkFailed>
    ensures whole { OnOk result (K.written out.new ≡ written_with (head.now ++ fronted front.now stages.now ++ end.now) (K.written out.old)) }
    ensures prefix { OnErr result (GotPrefix (head.now ++ fronted front.now stages.now ++ end.now) (K.written out.old) (K.written out.new)) }
    ensures failed { OnErr result (Rose (K.faults out.old) (K.faults out.new)) }
    ensures counts { K.faults out.old ≤ K.faults out.new }
{
    out.put(head)?;
    put_each(out, front, stages)?;
    out.put(end)
}

/// Puts the line of a chain.
pub(crate) fn put_chain<K: Sink>(out: &mut K, stages: &[CompilerId]) -> Result<(), SinkFailed>
    ensures whole { OnOk result (K.written out.new ≡ written_with (chain_line stages.now) (K.written out.old)) }
    ensures prefix { OnErr result (GotPrefix (chain_line stages.now) (K.written out.old) (K.written out.new)) }
    ensures failed { OnErr result (Rose (K.faults out.old) (K.faults out.new)) }
    ensures counts { K.faults out.old ≤ K.faults out.new }
{
    put_between(out, b"chain", b" ", stages, b"\n")
}

// Puts the line of a feature, where the kind has it.
#[tactic(auto, using(crate::proofs::Puts::puts))]
fn put_flag<K: Sink>(out: &mut K, kind: Kind, flag: &Flag<Kind>) -> Result<(), SinkFailed>
    ensures whole { OnOk result (K.written out.new ≡ written_with (row_text kind.0 (flag_row flag.now)) (K.written out.old)) }
    ensures prefix { OnErr result (GotPrefix (row_text kind.0 (flag_row flag.now)) (K.written out.old) (K.written out.new)) }
    ensures failed { OnErr result (Rose (K.faults out.old) (K.faults out.new)) }
    ensures counts { K.faults out.old ≤ K.faults out.new }
{
    if !kind.contains(flag.value) {
        return Ok(());
    }
    out.put(flag.name.as_bytes())?;
    out.put(b"\n")
}

#[tactic(auto, using(crate::proofs::Puts::puts))]
fn put_flags<K: Sink>(out: &mut K, kind: Kind, flags: &[Flag<Kind>]) -> Result<(), SinkFailed>
    ensures whole { OnOk result (K.written out.new ≡ written_with (rows_text kind.0 (map flag_row flags.now)) (K.written out.old)) }
    ensures prefix { OnErr result (GotPrefix (rows_text kind.0 (map flag_row flags.now)) (K.written out.old) (K.written out.new)) }
    ensures failed { OnErr result (Rose (K.faults out.old) (K.faults out.new)) }
    ensures counts { K.faults out.old ≤ K.faults out.new }
{
    match flags.split_first() {
        None => Ok(()),
        Some((flag, flags)) => {
            put_flag(out, kind, flag)?;
            put_flags(out, kind, flags)
        }
    }
}

/// Puts the features of a kind.
#[tactic(auto, using(crate::proofs::Puts::puts))]
pub(crate) fn put_features<K: Sink>(out: &mut K, kind: Kind) -> Result<(), SinkFailed>
    ensures whole { OnOk result (K.written out.new ≡ written_with (features_text kind.0) (K.written out.old)) }
    ensures prefix { OnErr result (GotPrefix (features_text kind.0) (K.written out.old) (K.written out.new)) }
    ensures failed { OnErr result (Rose (K.faults out.old) (K.faults out.new)) }
    ensures counts { K.faults out.old ≤ K.faults out.new }
{
    put_flags(out, kind, Kind::flags())
}
