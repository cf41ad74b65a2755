ghost use Rattle.std.specs.Prelude.{◌≡◌, ◌↔◌, ◌≤◌, None, Some, IfSome, OnOk, OnErr, is_ok, is_some, true};
ghost use Rattle.up_store.specs.Outside.{Rose, written_with, GotPrefix};
ghost use Rattle.up_top.specs.Answers.{answer_text, status_of, stop_text, stop_status};
ghost use Rattle.up_top.specs.Cause.{ReadCause, WriteCause, StopsAt, StopsFirst, IsPlaced, IsOutcome, IsBack, IsCompile, AllWell};
ghost use Rattle.up_top.specs.Inputs.{Tells};
ghost use Rattle.up_top.specs.Run.{CarriesAt, CarriesDone, CompilesAt, CompilesDone, HasPlace, Leaves};
ghost use Rattle.up_top.specs.Says.{IsOf, PutsAnswer, ended};
ghost use Rattle.up_top.specs.Words.{command_of};

use crate::answer::{Answer, Stop};
use crate::ask::{features, pipeline};
use crate::back::back;
use crate::command::Command;
use crate::compile::compile;
use crate::judge::validate;
use crate::say::put_answer;
use crate::status::Status;
use crate::words::command_of;
use std::alloc::Global;
use up_store::{Sink, SinkFailed, Store, Word};

// All that a run does before it puts its text.
fn work<W: Store>(alloc: Global, words: &[Word], store: &mut W) -> Answer
    ensures usage { (status_of result ≡ Status.Usage) ↔ (command_of words.now ≡ None) }
    ensures of { IsOf (command_of words.now) result }
    ensures place { IsPlaced (command_of words.now) (status_of result) }
    ensures within { HasPlace words.now (status_of result) }
    ensures put { ¬ (status_of result ≡ Status.WriteFault None) }
    ensures held { Leaves words.now (W.held store.old) (W.held store.new) (status_of result) }
    ensures tells { IfSome (W.held store.old) (Tells words.now result) }
    ensures compiles { CompilesAt words.now (W.held store.old) (W.held store.new) result }
    ensures carries { IsBack (command_of words.now) → CarriesAt words.now (W.held store.old) (W.held store.new) result }
    ensures read { ReadCause W.faults W.misses W.larges words.now store.old store.new (status_of result) }
    ensures write { WriteCause W.losses words.now store.old store.new (status_of result) }
    ensures told { IfSome (W.held store.old) (StopsAt words.now (status_of result)) }
    ensures first { IfSome (W.held store.old) (StopsFirst words.now (status_of result)) }
{
    match command_of(words) {
        None => Answer::Stopped(Stop::Usage),
        Some(Command::Kind) => features(alloc, words, store),
        Some(Command::Pipeline) => pipeline(alloc, words, store),
        Some(Command::Compile { .. }) => compile(alloc, words, store),
        Some(Command::Validate) => validate(alloc, words, store),
        Some(Command::Back) => back(alloc, words, store),
    }
}

// A failed put makes done a write fault, and changes no other status.
fn end(status: Status, put: Result<(), SinkFailed>) -> Status
    ensures { result ≡ ended status (is_ok put) }
{
    match status {
        Status::Done => match put {
            Ok(()) => Status::Done,
            Err(SinkFailed) => Status::WriteFault { word: None },
        },
        status => status,
    }
}

// The run, without the clause that follows from the others.
#[tactic(auto, using(crate::proofs::Answered::answers))]
fn attempt<W: Store, K: Sink>(alloc: Global, words: &[Word], store: &mut W, out: &mut K) -> Status
    ensures usage { (result ≡ Status.Usage) ↔ (command_of words.now ≡ None) }

    // What is held afterwards. No name but the outputs' changes.
    ensures held { Leaves words.now (W.held store.old) (W.held store.new) result }

    // Each status has its cause.
    ensures place { IsPlaced (command_of words.now) result }
    ensures read { ReadCause W.faults W.misses W.larges words.now store.old store.new result }
    ensures write { WriteCause W.losses words.now store.old store.new result }
    ensures put { result ≡ Status.WriteFault None → Rose (K.faults out.old) (K.faults out.new) }
    ensures told { IfSome (W.held store.old) (StopsAt words.now result) }
    ensures first { IfSome (W.held store.old) (StopsFirst words.now result) }

    // The text of an answer is put that has the status and holds of the held texts, or a prefix where the sink failed.
    ensures text { PutsAnswer words.now (W.held store.old) result (K.faults out.old) (K.faults out.new) (K.written out.old) (K.written out.new) }

    // A compile that is done holds the texts of the problem that the held texts read as, and its map, and puts the number of
    // its actions.
    ensures compiles { result ≡ Status.Done → IsCompile (command_of words.now)
        → CompilesDone words.now (W.held store.old) (W.held store.new) (K.written out.old) (K.written out.new) }

    // A back that is done holds the text of the plan that the held map makes of the held plan, which is valid for the
    // problem that the held texts read as, and puts that verdict.
    ensures carries { result ≡ Status.Done → IsBack (command_of words.now)
        → CarriesDone words.now (W.held store.old) (W.held store.new) (K.written out.old) (K.written out.new) }
{
    let answer = work(alloc, words, store);
    let put = put_answer(words, &answer, out);
    end(answer.status(), put)
}

/// Does what the words ask for with the texts of the store, and puts one text.
///
/// The inputs are read in the order of the words; the outputs are written after all of their pieces are made.
pub fn run<W: Store, K: Sink>(alloc: Global, words: &[Word], store: &mut W, out: &mut K) -> Status
    ensures usage { (result ≡ Status.Usage) ↔ (command_of words.now ≡ None) }

    // What is held afterwards. No name but the outputs' changes.
    ensures held { Leaves words.now (W.held store.old) (W.held store.new) result }

    // Each status has its cause.
    ensures place { IsPlaced (command_of words.now) result }
    ensures read { ReadCause W.faults W.misses W.larges words.now store.old store.new result }
    ensures write { WriteCause W.losses words.now store.old store.new result }
    ensures put { result ≡ Status.WriteFault None → Rose (K.faults out.old) (K.faults out.new) }
    ensures told { IfSome (W.held store.old) (StopsAt words.now result) }
    ensures first { IfSome (W.held store.old) (StopsFirst words.now result) }

    // The text of an answer is put that has the status and holds of the held texts, or a prefix where the sink failed.
    ensures text { PutsAnswer words.now (W.held store.old) result (K.faults out.old) (K.faults out.new) (K.written out.old) (K.written out.new) }

    // A compile that is done holds the texts of the problem that the held texts read as, and its map, and puts the number of
    // its actions.
    ensures compiles { result ≡ Status.Done → IsCompile (command_of words.now)
        → CompilesDone words.now (W.held store.old) (W.held store.new) (K.written out.old) (K.written out.new) }

    // A back that is done holds the text of the plan that the held map makes of the held plan, which is valid for the
    // problem that the held texts read as, and puts that verdict.
    ensures carries { result ≡ Status.Done → IsBack (command_of words.now)
        → CarriesDone words.now (W.held store.old) (W.held store.new) (K.written out.old) (K.written out.new) }

    // Where the words fit and nothing fails, the run is done, refuses a text or wants memory.
    ensures complete { is_some (command_of words.now) ≡ true → IfSome (W.held store.old) (λ files.
        AllWell W.faults W.losses words.now store.old store.new (K.faults out.old) (K.faults out.new) files
        → IsOutcome (command_of words.now) result) }
{
    attempt(alloc, words, store, out)
}
