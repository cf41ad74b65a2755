ghost use Rattle.std.specs.Prelude.{◌≡◌, IfOk, IfErr, OnOk};
ghost use Rattle.up_tree.specs.Objects.{world};
ghost use Rattle.up_tree.specs.Instances.{firing};
ghost use Rattle.up_eval.specs.Firing.{meant_all};
ghost use Rattle.up_eval.specs.Steps.{ActionHasNone, IsStop, before};

use crate::firing::Firing;
use crate::scope::assigned;
use crate::state::State;
use crate::step_error::Why;
use crate::stop::Stop;
use std::alloc::Global;
use up_text::{List, Name};
use up_tree::{Action, Problem, Truth};

impl State {
    // The effects that take place, where the precondition is true and each condition is true or false.
    pub(crate) fn effects<'e>(
        &self,
        alloc: Global,
        p: &Problem,
        action: &'e Action,
        args: &[Name],
    ) -> Result<List<Firing<'e>>, Stop>
        ensures effects { IfOk result (λ effects. meant_all effects ≡ firing (world p.now) self.now action.now args.now) }
        ensures none { OnOk result (ActionHasNone (world p.now) self.now action.now args.now (before Why.ObjectUndefined)) }
        ensures stop { IfErr result (IsStop (world p.now) self.now action.now args.now) }
    {
        let scope = assigned(alloc, action.params.as_slice(), args, &[])?;
        if self.truth_in(alloc, p, scope.as_slice(), &action.pre)? != Truth::True {
            return Err(Stop::Refused(Why::Precondition));
        }
        self.fire(alloc, p, scope.as_slice(), action.rows.as_slice())
    }
}
