ghost use Rattle.std.specs.Prelude.{◌≡◌, ◌≤◌, ◌<◌, length, IfOk, IfErr, IfSome};
ghost use Rattle.up_store.specs.Outside.{NoneFalls};
ghost use Rattle.up_top.specs.Answers.{stop_status};
ghost use Rattle.up_top.specs.Cause.{ReadCause, StopsAt, IsReadStop, IsInputStop, IsHeld, AreReadable, FirstStop};
ghost use Rattle.up_top.specs.Inputs.{AreFour, AreInputs, AreSources};

use crate::answer::Stop;
use crate::words::name_at;
use std::alloc::Global;
use up_store::{ReadFail, Store, Word};

// The text of the input whose name stands at a place.
fn read_input<W: Store>(
    alloc: Global,
    words: &[Word],
    at: usize,
    store: &mut W,
) -> Result<Vec<u8>, Stop>
    requires { at < length words.now }
    ensures kept { W.held store.new ≡ W.held store.old }
    ensures text { IfOk result (λ text. IfSome (W.held store.old) (IsHeld words.now at text.items)) }
    ensures stop { IfErr result (λ stop. IsReadStop at (stop_status stop)) }
    ensures cause { IfErr result (λ stop. ReadCause W.faults W.misses W.larges words.now store.old store.new (stop_status stop)) }
    ensures told { IfErr result (λ stop. IfSome (W.held store.old) (StopsAt words.now (stop_status stop))) }
    ensures faults { NoneFalls (W.faults store.old) (W.faults store.new) }
    ensures misses { NoneFalls (W.misses store.old) (W.misses store.new) }
    ensures larges { NoneFalls (W.larges store.old) (W.larges store.new) }
    ensures losses { W.losses store.new ≡ W.losses store.old }
{
    match store.read(alloc, name_at(words, at)) {
        Ok(text) => Ok(text),
        Err(ReadFail::Memory) => Err(Stop::Memory),
        Err(ReadFail::Failed) => Err(Stop::ReadFault { word: at }),
        Err(ReadFail::Missing) => Err(Stop::Missing { word: at }),
        Err(ReadFail::TooLarge) => Err(Stop::InputTooLarge { word: at }),
    }
}

/// The texts of a domain and a problem.
#[derive(Drop)]
pub(crate) struct Sources {
    pub domain: Vec<u8>,
    pub problem: Vec<u8>,
}

/// The texts of a problem, and of an engine or a plan.
#[derive(Drop)]
pub(crate) struct Inputs {
    pub sources: Sources,
    pub third: Vec<u8>,
}

/// Reads the domain and the problem.
#[tactic(auto, using(crate::proofs::Inputs::held))]
pub(crate) fn read_sources<W: Store>(
    alloc: Global,
    words: &[Word],
    store: &mut W,
) -> Result<Sources, Stop>
    requires { 3 ≤ length words.now }
    ensures kept { W.held store.new ≡ W.held store.old }
    ensures readable { IfOk result (λ sources. IfSome (W.held store.old) (AreReadable words.now 3)) }
    ensures texts { IfOk result (λ sources. IfSome (W.held store.old) (AreSources words.now sources.domain.items sources.problem.items)) }
    ensures stop { IfErr result (λ stop. IsInputStop 3 (stop_status stop)) }
    ensures cause { IfErr result (λ stop. ReadCause W.faults W.misses W.larges words.now store.old store.new (stop_status stop)) }
    ensures told { IfErr result (λ stop. IfSome (W.held store.old) (StopsAt words.now (stop_status stop))) }
    ensures first { IfErr result (λ stop. IfSome (W.held store.old) (FirstStop words.now (stop_status stop))) }
    ensures faults { NoneFalls (W.faults store.old) (W.faults store.new) }
    ensures misses { NoneFalls (W.misses store.old) (W.misses store.new) }
    ensures larges { NoneFalls (W.larges store.old) (W.larges store.new) }
    ensures losses { W.losses store.new ≡ W.losses store.old }
{
    let domain = read_input(alloc, words, 1, store)?;
    let problem = read_input(alloc, words, 2, store)?;
    Ok(Sources { domain, problem })
}

/// Reads the domain, the problem, and the engine or the plan.
#[tactic(auto, using(crate::proofs::Inputs::held))]
pub(crate) fn read_inputs<W: Store>(
    alloc: Global,
    words: &[Word],
    store: &mut W,
) -> Result<Inputs, Stop>
    requires { 4 ≤ length words.now }
    ensures kept { W.held store.new ≡ W.held store.old }
    ensures readable { IfOk result (λ inputs. IfSome (W.held store.old) (AreReadable words.now 4)) }
    ensures texts { IfOk result (λ inputs. IfSome (W.held store.old) (AreInputs words.now inputs.sources.domain.items inputs.sources.problem.items inputs.third.items)) }
    ensures third { IfOk result (λ inputs. IfSome (W.held store.old) (IsHeld words.now 3 inputs.third.items)) }
    ensures stop { IfErr result (λ stop. IsInputStop 4 (stop_status stop)) }
    ensures cause { IfErr result (λ stop. ReadCause W.faults W.misses W.larges words.now store.old store.new (stop_status stop)) }
    ensures told { IfErr result (λ stop. IfSome (W.held store.old) (StopsAt words.now (stop_status stop))) }
    ensures first { IfErr result (λ stop. IfSome (W.held store.old) (FirstStop words.now (stop_status stop))) }
    ensures faults { NoneFalls (W.faults store.old) (W.faults store.new) }
    ensures misses { NoneFalls (W.misses store.old) (W.misses store.new) }
    ensures larges { NoneFalls (W.larges store.old) (W.larges store.new) }
    ensures losses { W.losses store.new ≡ W.losses store.old }
{
    let sources = read_sources(alloc, words, store)?;
    let third = read_input(alloc, words, 3, store)?;
    Ok(Inputs { sources, third })
}

/// The texts of a problem, of a map, which is the third, and of a plan.
#[derive(Drop)]
pub(crate) struct BackInputs {
    pub inputs: Inputs,
    pub plan: Vec<u8>,
}

/// Reads the domain, the problem, the map and the plan.
#[tactic(auto, using(crate::proofs::Inputs::held))]
pub(crate) fn read_back_inputs<W: Store>(
    alloc: Global,
    words: &[Word],
    store: &mut W,
) -> Result<BackInputs, Stop>
    requires { 5 ≤ length words.now }
    ensures kept { W.held store.new ≡ W.held store.old }
    ensures readable { IfOk result (λ four. IfSome (W.held store.old) (AreReadable words.now 5)) }
    ensures inputs { IfOk result (λ four. IfSome (W.held store.old) (AreInputs words.now four.inputs.sources.domain.items four.inputs.sources.problem.items four.inputs.third.items)) }
    ensures texts { IfOk result (λ four. IfSome (W.held store.old) (AreFour words.now four.inputs.sources.domain.items four.inputs.sources.problem.items four.inputs.third.items four.plan.items)) }
    ensures stop { IfErr result (λ stop. IsInputStop 5 (stop_status stop)) }
    ensures cause { IfErr result (λ stop. ReadCause W.faults W.misses W.larges words.now store.old store.new (stop_status stop)) }
    ensures told { IfErr result (λ stop. IfSome (W.held store.old) (StopsAt words.now (stop_status stop))) }
    ensures first { IfErr result (λ stop. IfSome (W.held store.old) (FirstStop words.now (stop_status stop))) }
    ensures faults { NoneFalls (W.faults store.old) (W.faults store.new) }
    ensures misses { NoneFalls (W.misses store.old) (W.misses store.new) }
    ensures larges { NoneFalls (W.larges store.old) (W.larges store.new) }
    ensures losses { W.losses store.new ≡ W.losses store.old }
{
    let inputs = read_inputs(alloc, words, store)?;
    let plan = read_input(alloc, words, 4, store)?;
    Ok(BackInputs { inputs, plan })
}
