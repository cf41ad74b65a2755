ghost use Rattle.std.specs.Prelude.{IfOk, IfErr};
ghost use Rattle.up_tree.specs.Objects.{world, unassigned};
ghost use Rattle.up_tree.specs.Judged.{Judges};
ghost use Rattle.up_tree.specs.Truth.{True};
ghost use Rattle.up_validate.specs.Runs.{StandsAfter, Halts};
ghost use Rattle.up_validate.specs.Verdicts.{IsVerdict, IsUnjudged};

use crate::run::{Halt, Run, run_of};
use crate::verdict::{ValidateError, Verdict};
use crate::watch::first_unkept;
use std::alloc::Global;
use up_eval::{Truth, TruthError};
use up_tree::{Plan, Problem};

/// Whether the plan is valid for the problem: sequential validity (PDDL 2.1, Fox and Long 2003, section 4), where a step whose
/// effects need an undefined value or conflict can't be taken, with the trajectory constraints of PDDL 3.0 (Gerevini and
/// Long 2005) over the run's states.
///
/// Errors: `TooLarge` where a number past the bound is met before the plan is judged; `Memory` where an allocation failed.
pub fn validate(alloc: Global, p: &Problem, plan: &Plan) -> Result<Verdict, ValidateError>
    ensures verdict { IfOk result (IsVerdict p.now plan.now) }
    ensures unjudged { IfErr result (IsUnjudged p.now plan.now) }
{
    match run_of(alloc, p, plan.steps.as_slice()) {
        Ok(run) => {
            let verdict = judged(alloc, p, plan, &run);
            drop(run);
            verdict
        }
        Err(halt) => halted(p, plan, halt),
    }
}

// What a plan is whose run halts.
fn halted(p: &Problem, plan: &Plan, halt: Halt) -> Result<Verdict, ValidateError>
    requires { Halts p.now plan.now.steps halt }
    ensures verdict { IfOk result (IsVerdict p.now plan.now) }
    ensures unjudged { IfErr result (IsUnjudged p.now plan.now) }
{
    match halt {
        Halt::Memory => Err(ValidateError::Memory),
        Halt::BadStep { step, why } => Ok(Verdict::BadStep { step, why }),
        Halt::TooLarge { step } => Err(ValidateError::TooLarge { step }),
    }
}

// What a plan is whose steps can all be taken.
fn judged(alloc: Global, p: &Problem, plan: &Plan, run: &Run) -> Result<Verdict, ValidateError>
    requires { StandsAfter p.now plan.now.steps run.now }
    ensures verdict { IfOk result (IsVerdict p.now plan.now) }
    ensures unjudged { IfErr result (IsUnjudged p.now plan.now) }
{
    match run.state.truth(alloc, p, &p.parts().goal) {
        Ok(truth) => ended(p, plan, run, truth),
        Err(TruthError::Memory) => Err(ValidateError::Memory),
        Err(TruthError::TooLarge) => Err(ValidateError::TooLarge {
            step: plan.steps.as_slice().len() + 1,
        }),
    }
}

// What a plan is in whose last state the goal has this truth.
fn ended(p: &Problem, plan: &Plan, run: &Run, goal: Truth) -> Result<Verdict, ValidateError>
    requires stands { StandsAfter p.now plan.now.steps run.now }
    requires judges { Judges (world p.now) run.now.state unassigned p.now.goal goal }
    ensures verdict { IfOk result (IsVerdict p.now plan.now) }
    ensures unjudged { IfErr result (IsUnjudged p.now plan.now) }
{
    match goal {
        Truth::True => reached(p, plan, run),
        Truth::False => Ok(Verdict::GoalOpen),
        Truth::Undefined => Ok(Verdict::GoalOpen),
    }
}

// What a plan is that reaches the goal.
fn reached(p: &Problem, plan: &Plan, run: &Run) -> Result<Verdict, ValidateError>
    requires stands { StandsAfter p.now plan.now.steps run.now }
    requires goal { True (world p.now) run.now.state unassigned p.now.goal }
    ensures verdict { IfOk result (IsVerdict p.now plan.now) }
    ensures unjudged { IfErr result (IsUnjudged p.now plan.now) }
{
    if let Some(constraint) = first_unkept(run.phases.as_slice()) {
        return Ok(Verdict::Broken { constraint });
    }
    match run.state.metric(p) {
        Ok(metric) => Ok(Verdict::Valid { metric }),
        Err(_) => Err(ValidateError::TooLarge {
            step: plan.steps.as_slice().len() + 1,
        }),
    }
}
