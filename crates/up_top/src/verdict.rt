ghost use Rattle.std.specs.Prelude.{◌≡◌, ◌≤◌, ◌++◌, codes, decimal, OnOk, OnErr};
ghost use Rattle.up_store.specs.Outside.{Rose, written_with, GotPrefix};
ghost use Rattle.up_top.specs.Answers.{place_behind, too_large_text, unspelled_text, verdict_status};
ghost use Rattle.up_top.specs.Verdicts.{numbered_text, divisor_text, fault_word, fraction_text, metric_text, verdict_text, why_word};

use crate::put::{put_both, put_count, put_line, put_number};
use crate::status::Status;
use itoa::Buffer;
use up_eval::{Value, Why};
use up_frac::Frac;
use up_store::{Sink, SinkFailed};
use up_text::Place;
use up_validate::{StepFault, Verdict};

pub(crate) fn verdict_status(verdict: &Verdict) -> Status
    ensures { result ≡ verdict_status verdict.now }
{
    match verdict {
        Verdict::Valid { .. } => Status::Done,
        Verdict::BadStep { .. } => Status::PlanInvalid,
        Verdict::GoalOpen => Status::PlanInvalid,
        Verdict::Broken { .. } => Status::PlanInvalid,
    }
}

fn why_word(why: Why) -> &'static [u8]
    ensures { result.now ≡ why_word why }
{
    match why {
        Why::Precondition => b"precondition",
        Why::ConditionUndefined => b"condition-undefined",
        Why::ObjectUndefined => b"object-undefined",
        Why::NumberUndefined => b"number-undefined",
        Why::NumberConflict => b"number-conflict",
        Why::ObjectConflict => b"object-conflict",
    }
}

fn fault_word(fault: StepFault) -> &'static [u8]
    ensures { result.now ≡ fault_word fault }
{
    match fault {
        StepFault::Unknown => b"unknown",
        StepFault::Arity => b"arity",
        StepFault::ArgumentType => b"argument-type",
        StepFault::Not(why) => why_word(why),
    }
}

// Puts what divides a fraction, if it isn't a whole number.
#[tactic(auto, using(crate::proofs::Puts::puts))]
fn put_divisor<K: Sink>(out: &mut K, divisor: u64) -> Result<(), SinkFailed>
    ensures whole { OnOk result (K.written out.new ≡ written_with (divisor_text divisor) (K.written out.old)) }
    ensures prefix { OnErr result (GotPrefix (divisor_text divisor) (K.written out.old) (K.written out.new)) }
    ensures failed { OnErr result (Rose (K.faults out.old) (K.faults out.new)) }
    ensures counts { K.faults out.old ≤ K.faults out.new }
{
    if divisor == 1 {
        return Ok(());
    }
    let mut buffer = Buffer::new();
    put_both(out, b"/", buffer.format(divisor).as_bytes())
}

#[tactic(auto, using(crate::proofs::Puts::puts))]
fn put_fraction<K: Sink>(out: &mut K, number: Frac) -> Result<(), SinkFailed>
    ensures whole { OnOk result (K.written out.new ≡ written_with (fraction_text number) (K.written out.old)) }
    ensures prefix { OnErr result (GotPrefix (fraction_text number) (K.written out.old) (K.written out.new)) }
    ensures failed { OnErr result (Rose (K.faults out.old) (K.faults out.new)) }
    ensures counts { K.faults out.old ≤ K.faults out.new }
{
    let mut buffer = Buffer::new();
    out.put(buffer.format(number.numerator()).as_bytes())?;
    put_divisor(out, number.denominator() as u64)
}

// Puts a fraction between a front and an end.
#[tactic(auto, using(crate::proofs::Puts::puts))]
fn put_measured<K: Sink>(
    out: &mut K,
    front: &[u8],
    number: Frac,
    end: &[u8],
) -> Result<(), SinkFailed>
    ensures whole { OnOk result (K.written out.new ≡ written_with (front.now ++ (fraction_text number ++ end.now)) (K.written out.old)) }
    ensures prefix { OnErr result (GotPrefix (front.now ++ (fraction_text number ++ end.now)) (K.written out.old) (K.written out.new)) }
    ensures failed { OnErr result (Rose (K.faults out.old) (K.faults out.new)) }
    ensures counts { K.faults out.old ≤ K.faults out.new }
{
    out.put(front)?;
    put_fraction(out, number)?;
    out.put(end)
}

// Puts the line of a metric, if there is one.
#[tactic(auto, using(crate::proofs::Puts::puts))]
fn put_metric<K: Sink>(out: &mut K, metric: Value) -> Result<(), SinkFailed>
    ensures whole { OnOk result (K.written out.new ≡ written_with (metric_text metric) (K.written out.old)) }
    ensures prefix { OnErr result (GotPrefix (metric_text metric) (K.written out.old) (K.written out.new)) }
    ensures failed { OnErr result (Rose (K.faults out.old) (K.faults out.new)) }
    ensures counts { K.faults out.old ≤ K.faults out.new }
{
    match metric {
        Value::None => Ok(()),
        Value::Undefined => out.put(b"metric undefined\n"),
        Value::Number(number) => put_measured(out, b"metric ", number, b"\n"),
    }
}

// Puts a front and the line of a metric.
#[tactic(auto, using(crate::proofs::Puts::puts))]
fn put_valid<K: Sink>(out: &mut K, front: &[u8], metric: Value) -> Result<(), SinkFailed>
    ensures whole { OnOk result (K.written out.new ≡ written_with (front.now ++ metric_text metric) (K.written out.old)) }
    ensures prefix { OnErr result (GotPrefix (front.now ++ metric_text metric) (K.written out.old) (K.written out.new)) }
    ensures failed { OnErr result (Rose (K.faults out.old) (K.faults out.new)) }
    ensures counts { K.faults out.old ≤ K.faults out.new }
{
    out.put(front)?;
    put_metric(out, metric)
}

/// Puts a front, a number and a word, and ends the line.
#[tactic(auto, using(crate::proofs::Puts::puts))]
pub(crate) fn put_numbered<K: Sink>(
    out: &mut K,
    front: &[u8],
    number: usize,
    word: &[u8],
) -> Result<(), SinkFailed>
    ensures whole { OnOk result (K.written out.new ≡ written_with (numbered_text front.now number word.now) (K.written out.old)) }
    ensures prefix { OnErr result (GotPrefix (numbered_text front.now number word.now) (K.written out.old) (K.written out.new)) }
    ensures failed { OnErr result (Rose (K.faults out.old) (K.faults out.new)) }
    ensures counts { K.faults out.old ≤ K.faults out.new }
{
    let mut buffer = Buffer::new();
    put_both(out, front, buffer.format(number).as_bytes())?;
    put_line(out, b" ", word)
}

/// Puts a verdict.
pub(crate) fn put_verdict<K: Sink>(out: &mut K, verdict: &Verdict) -> Result<(), SinkFailed>
    ensures whole { OnOk result (K.written out.new ≡ written_with (verdict_text verdict.now) (K.written out.old)) }
    ensures prefix { OnErr result (GotPrefix (verdict_text verdict.now) (K.written out.old) (K.written out.new)) }
    ensures failed { OnErr result (Rose (K.faults out.old) (K.faults out.new)) }
    ensures counts { K.faults out.old ≤ K.faults out.new }
{
    match verdict {
        Verdict::Valid { metric } => put_valid(out, b"valid\n", *metric),
        Verdict::BadStep { step, why } => {
            put_numbered(out, b"plan invalid step ", *step, fault_word(*why))
        }
        Verdict::GoalOpen => out.put(b"plan invalid goal\n"),
        Verdict::Broken { constraint } => {
            put_count(out, b"plan invalid constraint ", *constraint)
        }
    }
}

// Puts a front and a place, and ends the line.
#[tactic(auto, using(crate::proofs::Puts::puts))]
fn put_place_behind<K: Sink>(out: &mut K, front: &[u8], place: Place) -> Result<(), SinkFailed>
    ensures whole { OnOk result (K.written out.new ≡ written_with (place_behind front.now place) (K.written out.old)) }
    ensures prefix { OnErr result (GotPrefix (place_behind front.now place) (K.written out.old) (K.written out.new)) }
    ensures failed { OnErr result (Rose (K.faults out.old) (K.faults out.new)) }
    ensures counts { K.faults out.old ≤ K.faults out.new }
{
    out.put(front)?;
    put_number(out, place.line, b":")?;
    put_number(out, place.column, b"\n")
}

/// Puts where a plan text has its first fault.
pub(crate) fn put_unspelled<K: Sink>(out: &mut K, place: Place) -> Result<(), SinkFailed>
    ensures whole { OnOk result (K.written out.new ≡ written_with (unspelled_text place) (K.written out.old)) }
    ensures prefix { OnErr result (GotPrefix (unspelled_text place) (K.written out.old) (K.written out.new)) }
    ensures failed { OnErr result (Rose (K.faults out.old) (K.faults out.new)) }
    ensures counts { K.faults out.old ≤ K.faults out.new }
{
    put_place_behind(out, b"plan refused ", place)
}

/// Puts at which step a number past the bound is met.
pub(crate) fn put_too_large<K: Sink>(out: &mut K, step: usize) -> Result<(), SinkFailed>
    ensures whole { OnOk result (K.written out.new ≡ written_with (too_large_text step) (K.written out.old)) }
    ensures prefix { OnErr result (GotPrefix (too_large_text step) (K.written out.old) (K.written out.new)) }
    ensures failed { OnErr result (Rose (K.faults out.old) (K.faults out.new)) }
    ensures counts { K.faults out.old ≤ K.faults out.new }
{
    put_count(out, b"number too large step ", step)
}
