ghost use Rattle.std.specs.Prelude.{◌≡◌, ◌≤◌, ◌<◌, [], ◌∷◌, length};
ghost use Rattle.up_store.specs.Outside.{NoneFalls};
ghost use Rattle.up_top.specs.Cause.{WriteCause, IsWriteStatus};
ghost use Rattle.up_top.specs.Run.{HeldAfter, outputs_of, write_status};

use crate::answer::Stop;
use crate::words::name_at;
use std::alloc::Global;
use up_store::{Pieces, Store, Word, WriteFail};

// Writes a text under the output name at a place.
fn write_output<W: Store, P: Pieces>(
    alloc: Global,
    words: &[Word],
    at: usize,
    pieces: &mut P,
    store: &mut W,
) -> Result<(), Stop>
    requires { at < length words.now }
    ensures held { HeldAfter words.now (record { place = at; text = P.rest pieces.old } ∷ []) (W.held store.old) (W.held store.new) (write_status result) }
    ensures stop { IsWriteStatus at at (write_status result) }
    ensures cause { WriteCause W.losses words.now store.old store.new (write_status result) }
    ensures losses { NoneFalls (W.losses store.old) (W.losses store.new) }
    ensures faults { W.faults store.new ≡ W.faults store.old }
    ensures misses { W.misses store.new ≡ W.misses store.old }
    ensures larges { W.larges store.new ≡ W.larges store.old }
{
    match store.write_pieces(alloc, name_at(words, at), pieces) {
        Ok(()) => Ok(()),
        Err(WriteFail::Memory) => Err(Stop::Memory),
        Err(WriteFail::Failed) => Err(Stop::WriteFault { word: at }),
    }
}

/// Writes the three texts in the order of the words.
#[tactic(auto, using(crate::proofs::Outputs::writes))]
pub(crate) fn write_outputs<W: Store, D: Pieces, P: Pieces, M: Pieces>(
    alloc: Global,
    words: &[Word],
    domain: &mut D,
    problem: &mut P,
    map: &mut M,
    store: &mut W,
) -> Result<(), Stop>
    requires { 7 ≤ length words.now }
    ensures held { HeldAfter words.now (outputs_of (D.rest domain.old) (P.rest problem.old) (M.rest map.old)) (W.held store.old) (W.held store.new) (write_status result) }
    ensures stop { IsWriteStatus 4 6 (write_status result) }
    ensures cause { WriteCause W.losses words.now store.old store.new (write_status result) }
    ensures losses { NoneFalls (W.losses store.old) (W.losses store.new) }
    ensures faults { W.faults store.new ≡ W.faults store.old }
    ensures misses { W.misses store.new ≡ W.misses store.old }
    ensures larges { W.larges store.new ≡ W.larges store.old }
{
    write_output(alloc, words, 4, domain, store)?;
    write_output(alloc, words, 5, problem, store)?;
    write_output(alloc, words, 6, map, store)
}
