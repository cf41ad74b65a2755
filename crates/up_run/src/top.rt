ghost use Rattle.std.specs.Prelude.{◌≡◌, ◌↔◌, None, IfSome, IsSomeAnd, is_some, true};
ghost use Rattle.up_store.specs.Outside.{Rose};
ghost use Rattle.up_top.specs.Cause.{ReadCause, WriteCause, StopsAt, StopsFirst, IsPlaced, IsOutcome, IsBack, IsCompile, AllWell};
ghost use Rattle.up_top.specs.Run.{CarriesDone, CompilesDone, Leaves};
ghost use Rattle.up_top.specs.Says.{PutsAnswer};
ghost use Rattle.up_top.specs.Words.{command_of};
ghost use Rattle.up_run.specs.Due.{IsDueAt, IsOrMemory, WasDue};
ghost use Rattle.up_run.specs.Headline.{Headline};
ghost use Rattle.up_top.specs.declared.status.Status.{Status};

use std::alloc::Global;
use up_store::{Sink, Store, Word};
use up_top::Status;

/// The run of the program: `up_top::run`, and what its clauses make certain of a compile that is done.
pub fn run<W: Store, K: Sink>(alloc: Global, words: &[Word], store: &mut W, out: &mut K) -> Status
    ensures usage { (result ≡ Status.Usage) ↔ (command_of words.now ≡ None) }

    // What is held afterwards. No name but the outputs' changes.
    ensures held { Leaves words.now (W.held store.old) (W.held store.new) result }

    // Each status has its cause.
    ensures place { IsPlaced (command_of words.now) result }
    ensures read { ReadCause W.faults W.misses W.larges words.now store.old store.new result }
    ensures write { WriteCause W.losses words.now store.old store.new result }
    ensures put { result ≡ Status.WriteFault None → Rose (K.faults out.old) (K.faults out.new) }
    ensures told { IfSome (W.held store.old) (StopsAt words.now result) }
    ensures first { IfSome (W.held store.old) (StopsFirst words.now result) }

    // The text of an answer is put that has the status and holds of the held texts, or a prefix where the sink failed.
    ensures text { PutsAnswer words.now (W.held store.old) result (K.faults out.old) (K.faults out.new) (K.written out.old) (K.written out.new) }

    // A compile that is done holds the texts of the problem that the held texts read as, and its map, and puts the number of
    // its actions.
    ensures compiles { result ≡ Status.Done → IsCompile (command_of words.now)
        → CompilesDone words.now (W.held store.old) (W.held store.new) (K.written out.old) (K.written out.new) }

    // A back that is done holds the text of the plan that the held map makes of the held plan, which is valid for the
    // problem that the held texts read as, and puts that verdict.
    ensures carries { result ≡ Status.Done → IsBack (command_of words.now)
        → CarriesDone words.now (W.held store.old) (W.held store.new) (K.written out.old) (K.written out.new) }

    // Where the words fit and nothing fails, the run is done, refuses a text or wants memory.
    ensures complete { is_some (command_of words.now) ≡ true → IfSome (W.held store.old) (λ files.
        AllWell W.faults W.losses words.now store.old store.new (K.faults out.old) (K.faults out.new) files
        → IsOutcome (command_of words.now) result) }

    // A compile that is done, or that refused a text or found no chain that fits, was due to: a text is refused exactly at
    // its first fault, and no chain is found exactly where none fits.
    ensures caused { IsCompile (command_of words.now) → IfSome (W.held store.old) (λ files. WasDue words.now files result) }

    // Where nothing fails, a compile ends with the status that is due, or for want of memory: done where the texts read, open
    // no bracket too deep, and a chain fits.
    ensures due { IsCompile (command_of words.now) → IfSome (W.held store.old) (λ files.
        AllWell W.faults W.losses words.now store.old store.new (K.faults out.old) (K.faults out.new) files
        → (status : Status) → IsDueAt words.now files status → IsOrMemory status result) }

    // A compile that is done has written a problem that the engine accepts, and a map that makes of its plans exactly the
    // plans of the source, at the same metric.
    ensures headline { result ≡ Status.Done → IsCompile (command_of words.now)
        → IfSome (W.held store.old) (λ before. IsSomeAnd (W.held store.new) (Headline words.now before)) }
{
    up_top::run(alloc, words, store, out)
}
