ghost use Rattle.std.specs.Prelude.{◌≡◌, IfOk, IsErrOf, map};
ghost use Rattle.up_text.specs.Lists.{Somewhere};
ghost use Rattle.up_tree.specs.Objects.{world, assign, unassigned};
ghost use Rattle.up_tree.specs.Big.{BigFormula};
ghost use Rattle.up_eval.specs.Scope.{assignment_of};
ghost use Rattle.up_validate.specs.Verdicts.{BigRule, BigConstraint};
ghost use Rattle.up_validate.specs.Watching.{assignments, start, next, holds_in, all_after};
ghost use Rattle.up_validate.specs.Watches.{meant, meant_all, starts, nexts, all_starts, all_nexts, BigAmong, BigInAll, are_kept, first_unkept};

use crate::phase::Phase;
use std::alloc::Global;
use up_eval::{Binding, State, TruthError, assigned, tuples};
use up_text::{List, Memory, Name};
use up_tree::{Constraint, Formula, Problem, Rule, Truth, Typed};

/// What the variables of a constraint can stand for, tuple by tuple.
#[derive(Drop)]
pub(crate) struct Watch {
    pub(crate) scopes: List<List<Binding>>,
}

fn scopes_at(
    alloc: Global,
    vars: &[Typed],
    tuples: &[List<Name>],
) -> Result<List<List<Binding>>, Memory>
    ensures { IfOk result (λ scopes. map assignment_of scopes ≡ map (λ tuple. assign vars.now tuple unassigned) tuples.now) }
{
    let mut scopes = List::new(alloc);
    for tuple in tuples {
        scopes.push(scope_of(alloc, vars, tuple.as_slice())?)?;
    }
    Ok(scopes)
}

fn scope_of(alloc: Global, vars: &[Typed], objects: &[Name]) -> Result<List<Binding>, Memory>
    ensures { IfOk result (λ scope. assignment_of scope ≡ assign vars.now objects.now unassigned) }
{
    let none = List::new(alloc);
    assigned(alloc, vars, objects, none.as_slice())
}

fn watch_of(alloc: Global, p: &Problem, constraint: &Constraint) -> Result<Watch, Memory>
    ensures { IfOk result (λ watch. meant watch ≡ assignments (world p.now) constraint.now) }
{
    let vars = constraint.vars.as_slice();
    let them = tuples(alloc, p, vars)?;
    let scopes = scopes_at(alloc, vars, them.as_slice())?;
    Ok(Watch { scopes })
}

/// A watch for each constraint.
pub(crate) fn watches_of(
    alloc: Global,
    p: &Problem,
    constraints: &[Constraint],
) -> Result<List<Watch>, Memory>
    ensures { IfOk result (λ watches. meant_all watches ≡ map (assignments (world p.now)) constraints.now) }
{
    let mut watches = List::new(alloc);
    for constraint in constraints {
        watches.push(watch_of(alloc, p, constraint)?)?;
    }
    Ok(watches)
}

fn starts(alloc: Global, rule: &Rule, scopes: &[List<Binding>]) -> Result<List<Phase>, Memory>
    ensures { IfOk result (λ phases. phases ≡ starts rule.now (map assignment_of scopes.now)) }
{
    let mut phases = List::new(alloc);
    for _scope in scopes {
        phases.push(Phase::start(rule))?;
    }
    Ok(phases)
}

/// How the constraints stand before the first state.
pub(crate) fn all_starts(
    alloc: Global,
    constraints: &[Constraint],
    watches: &[Watch],
) -> Result<List<List<Phase>>, Memory>
    ensures { IfOk result (λ all. all ≡ all_starts constraints.now (meant_all watches.now)) }
{
    let mut all = List::new(alloc);
    let mut left = watches;
    for constraint in constraints {
        let Some((watch, behind)) = left.split_first() else {
            return Ok(all);
        };
        all.push(starts(alloc, &constraint.rule, watch.scopes.as_slice())?)?;
        left = behind;
    }
    Ok(all)
}

// Whether a condition is true in a state.
fn holds(
    alloc: Global,
    p: &Problem,
    state: &State,
    scope: &[Binding],
    formula: &Formula,
) -> Result<bool, TruthError>
    ensures value { IfOk result (λ holds. holds ≡ holds_in (world p.now) state.now (assignment_of scope.now) formula.now) }
    ensures too_large { IsErrOf result TruthError.TooLarge → BigFormula (world p.now) state.now (assignment_of scope.now) formula.now }
{
    let truth = state.truth_in(alloc, p, scope, formula)?;
    Ok(truth == Truth::True)
}

// How a rule stands after one more state.
fn next(
    alloc: Global,
    p: &Problem,
    state: &State,
    scope: &[Binding],
    rule: &Rule,
    phase: Phase,
) -> Result<Phase, TruthError>
    ensures value { IfOk result (λ later. later ≡ next (world p.now) (assignment_of scope.now) rule.now phase state.now) }
    ensures too_large { IsErrOf result TruthError.TooLarge → BigRule (world p.now) state.now (assignment_of scope.now) rule.now }
{
    match rule {
        Rule::Always(f) => Ok(phase.always(holds(alloc, p, state, scope, f)?)),
        Rule::Sometime(f) => Ok(phase.sometime(holds(alloc, p, state, scope, f)?)),
        Rule::AtMostOnce(f) => Ok(phase.at_most_once(holds(alloc, p, state, scope, f)?)),
        Rule::SometimeAfter(f, g) => {
            let first = holds(alloc, p, state, scope, f)?;
            let second = holds(alloc, p, state, scope, g)?;
            Ok(phase.sometime_after(first, second))
        }
        Rule::SometimeBefore(f, g) => {
            let first = holds(alloc, p, state, scope, f)?;
            let second = holds(alloc, p, state, scope, g)?;
            Ok(phase.sometime_before(first, second))
        }
    }
}

// How a constraint stands after one more state, tuple by tuple.
#[tactic(auto, using(crate::proofs::Going::big_scope))]
fn nexts(
    alloc: Global,
    p: &Problem,
    state: &State,
    rule: &Rule,
    scopes: &[List<Binding>],
    phases: &[Phase],
) -> Result<List<Phase>, TruthError>
    ensures value { IfOk result (λ later. later ≡ nexts (world p.now) state.now rule.now (map assignment_of scopes.now) phases.now) }
    ensures too_large { IsErrOf result TruthError.TooLarge → BigAmong (world p.now) state.now rule.now (map assignment_of scopes.now) }
{
    let mut later = List::new(alloc);
    let mut left = phases;
    for scope in scopes {
        let Some((phase, behind)) = left.split_first() else {
            return Ok(later);
        };
        later.push(next(alloc, p, state, scope.as_slice(), rule, *phase)?)?;
        left = behind;
    }
    Ok(later)
}

/// How the constraints stand after one more state.
pub(crate) fn all_nexts(
    alloc: Global,
    p: &Problem,
    state: &State,
    watches: &[Watch],
    phases: &[List<Phase>],
) -> Result<List<List<Phase>>, TruthError>
    ensures value { IfOk result (λ later. later ≡ all_nexts (world p.now) state.now p.now.constraints (meant_all watches.now) phases.now) }
    ensures too_large { IsErrOf result TruthError.TooLarge → BigInAll (world p.now) state.now p.now.constraints (meant_all watches.now) }
{
    let mut later = List::new(alloc);
    let mut left = watches;
    let mut olds = phases;
    for constraint in p.parts().constraints.as_slice() {
        let Some((watch, behind)) = left.split_first() else {
            return Ok(later);
        };
        let Some((old, others)) = olds.split_first() else {
            return Ok(later);
        };
        later.push(nexts(
            alloc,
            p,
            state,
            &constraint.rule,
            watch.scopes.as_slice(),
            old.as_slice(),
        )?)?;
        left = behind;
        olds = others;
    }
    Ok(later)
}

fn are_kept(phases: &[Phase]) -> bool
    ensures { result ≡ are_kept phases.now }
{
    for phase in phases {
        if !phase.is_kept() {
            return false;
        }
    }
    true
}

/// The number of the first constraint that isn't kept, counted from 1.
pub(crate) fn first_unkept(all: &[List<Phase>]) -> Option<usize>
    ensures { result ≡ first_unkept 1 all.now }
{
    let mut number = 0;
    for phases in all {
        number += 1;
        if !are_kept(phases.as_slice()) {
            return Some(number);
        }
    }
    None
}
