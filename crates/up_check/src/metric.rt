ghost use Rattle.std.specs.Prelude.{◌≡◌, Some, IfOk, IfErr};
ghost use Rattle.pddl_lex.specs.Parses.{parsed, first};
ghost use Rattle.up_phrase.specs.Declarations.{declarations};
ghost use Rattle.up_check.specs.Metrics.{metric};

use pddl_parse::RawMetric;
use std::alloc::Global;
use up_phrase::{Fault, Names, Scope, Setting, checked_expr};
use up_tree::Metric;

/// The metric of a problem, in which a bare name is a function without arguments.
#[tactic(auto, using(up_phrase::proofs::Steps::steps))]
pub fn checked_metric(alloc: Global, names: &Names, raw: &RawMetric) -> Result<Metric, Fault>
    ensures ok { IfOk result (λ made. metric (declarations names.now) raw.now ≡ parsed made) }
    ensures err { IfErr result (λ fault. ¬ (fault ≡ Fault.Memory) → first (metric (declarations names.now) raw.now) ≡ Some fault) }
{
    let scope = Scope::new(alloc);
    let checked = checked_expr(alloc, names, &scope, Setting::Metric, &raw.value);
    drop(scope);
    match checked {
        Ok(value) => Ok(Metric {
            minimize: raw.minimize,
            value,
        }),
        Err(fault) => Err(fault),
    }
}
