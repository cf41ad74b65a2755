ghost use Rattle.std.specs.Prelude.{◌≡◌, ◌≤◌, ◌<◌, ◌++◌, length, codes, OnOk, OnErr};
ghost use Rattle.up_store.specs.Outside.{Rose, written_with, GotPrefix};
ghost use Rattle.up_top.specs.Answers.{answer_text, status_of, stop_status, stop_text};
ghost use Rattle.up_top.specs.Run.{HasPlace};

use crate::answer::{Answer, Stop};
use crate::converted::put_conversion;
use crate::lists::{put_chain, put_features};
use crate::put::{put_actions, put_engine, put_line, put_refused};
use crate::verdict::{put_too_large, put_unspelled, put_verdict};
use crate::words::name_at;
use up_store::{Sink, SinkFailed, Word};

// Puts the text of a run that ends early.
fn put_stop<K: Sink>(words: &[Word], stop: Stop, out: &mut K) -> Result<(), SinkFailed>
    requires { HasPlace words.now (stop_status stop) }
    ensures whole { OnOk result (K.written out.new ≡ written_with (stop_text words.now stop) (K.written out.old)) }
    ensures prefix { OnErr result (GotPrefix (stop_text words.now stop) (K.written out.old) (K.written out.new)) }
    ensures failed { OnErr result (Rose (K.faults out.old) (K.faults out.new)) }
    ensures counts { K.faults out.old ≤ K.faults out.new }
{
    match stop {
        Stop::Usage => out.put(b"usage\n"),
        Stop::Memory => out.put(b"out of memory\n"),
        Stop::Missing { word } => put_line(out, b"missing ", name_at(words, word).bytes()),
        Stop::ReadFault { word } => put_line(out, b"read fault ", name_at(words, word).bytes()),
        Stop::WriteFault { .. } => out.put(b"write fault\n"),
        Stop::NoPipeline => out.put(b"no pipeline\n"),
        Stop::InputTooLarge { word } => put_line(out, b"too large ", name_at(words, word).bytes()),
    }
}

/// Puts the text of an answer.
pub(crate) fn put_answer<K: Sink>(
    words: &[Word],
    answer: &Answer,
    out: &mut K,
) -> Result<(), SinkFailed>
    requires { HasPlace words.now (status_of answer.now) }
    ensures whole { OnOk result (K.written out.new ≡ written_with (answer_text words.now answer.now) (K.written out.old)) }
    ensures prefix { OnErr result (GotPrefix (answer_text words.now answer.now) (K.written out.old) (K.written out.new)) }
    ensures failed { OnErr result (Rose (K.faults out.old) (K.faults out.new)) }
    ensures counts { K.faults out.old ≤ K.faults out.new }
{
    match answer {
        Answer::Features(kind) => put_features(out, *kind),
        Answer::Chain(chain) => put_chain(out, chain.stages.as_slice()),
        Answer::Actions(count) => put_actions(out, *count),
        Answer::Refused {
            file,
            place,
            reason,
            name,
        } => put_refused(out, *file, *place, *reason, name.as_ref()),
        Answer::Unread(error) => put_engine(out, error),
        Answer::Judged(verdict) => put_verdict(out, verdict),
        Answer::Unspelled(place) => put_unspelled(out, *place),
        Answer::TooLarge(step) => put_too_large(out, *step),
        Answer::Converted(conversion) => put_conversion(out, conversion),
        Answer::Stopped(stop) => put_stop(words, *stop, out),
    }
}
