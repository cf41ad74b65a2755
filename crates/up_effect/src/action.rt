ghost use Rattle.std.specs.Prelude.{◌≡◌, [], Some, IfOk, IfErr};
ghost use Rattle.pddl_lex.specs.Parses.{parsed, first};
ghost use Rattle.up_phrase.specs.Declarations.{declarations};
ghost use Rattle.up_phrase.specs.Scopes.{variables, barred, entered_groups};
ghost use Rattle.up_effect.specs.Actions.{with_parameters, with_precondition, with_effect, action_of, action};

use crate::effect::checked_rows;
use pddl_parse::{RawAction, RawGroup};
use std::alloc::Global;
use up_phrase::{Binder, Fault, Names, Scope, Setting, boxed_formula};
use up_text::{Box, List, Memory, Name};
use up_tree::{Action, Formula, Row, Typed};

fn parameters(alloc: Global, names: &Names, groups: &[RawGroup]) -> Result<Scope, Fault>
    ensures ok { IfOk result (λ scope. entered_groups (declarations names.now) [] groups.now [] ≡ parsed (variables scope)) }
    ensures err { IfErr result (λ fault. ¬ (fault ≡ Fault.Memory) → first (entered_groups (declarations names.now) [] groups.now []) ≡ Some fault) }
    ensures barred { IfOk result (λ scope. barred scope ≡ []) }
{
    let mut scope = Scope::new(alloc);
    match scope.enter(alloc, names, Binder::Plain, groups) {
        Ok(()) => Ok(scope),
        Err(fault) => {
            drop(scope);
            Err(fault)
        }
    }
}

/// An action, whose own name isn't looked at: parameters, then precondition, then effect.
///
/// A row of the effect comes of each simple effect in it. The row's variables are those of the `forall`s around the simple effect, from
/// the outside in, and its condition is the `and` of the conditions of the `when`s around it that aren't the empty `and`, or the only
/// such condition itself. Faults come from left to right and from the outside in: those of conditions, terms and typed lists, `Duplicate`
/// at a variable of a `forall` that is in scope or that the condition of a `when` around it binds, and `TypeMismatch` at the word
/// `undefined` after the faults of a target that is a number.
#[tactic(auto, using(up_phrase::proofs::Steps::steps))]
pub fn checked_action(alloc: Global, names: &Names, raw: &RawAction) -> Result<Action, Fault>
    ensures ok { IfOk result (λ made. action (declarations names.now) raw.now ≡ parsed made) }
    ensures err { IfErr result (λ fault. ¬ (fault ≡ Fault.Memory) → first (action (declarations names.now) raw.now) ≡ Some fault) }
{
    let scope = parameters(alloc, names, raw.params.as_slice())?;
    with_parameters(alloc, names, scope, raw)
}

#[tactic(auto, using(up_phrase::proofs::Steps::steps))]
fn with_parameters(
    alloc: Global,
    names: &Names,
    mut scope: Scope,
    raw: &RawAction,
) -> Result<Action, Fault>
    ensures ok { IfOk result (λ made. with_parameters (declarations names.now) raw.now (barred scope) (variables scope) ≡ parsed made) }
    ensures err { IfErr result (λ fault. ¬ (fault ≡ Fault.Memory) → first (with_parameters (declarations names.now) raw.now (barred scope) (variables scope)) ≡ Some fault) }
{
    match boxed_formula(alloc, names, &mut scope, Setting::Plain, &raw.pre) {
        Ok(pre) => with_precondition(alloc, names, scope, pre, raw),
        Err(fault) => {
            drop(scope);
            Err(fault)
        }
    }
}

#[tactic(auto, using(up_phrase::proofs::Steps::steps))]
fn with_precondition(
    alloc: Global,
    names: &Names,
    scope: Scope,
    pre: Box<Formula>,
    raw: &RawAction,
) -> Result<Action, Fault>
    ensures ok { IfOk result (λ made. with_precondition (declarations names.now) raw.now (barred scope) (variables scope) pre ≡ parsed made) }
    ensures err { IfErr result (λ fault. ¬ (fault ≡ Fault.Memory) → first (with_precondition (declarations names.now) raw.now (barred scope) (variables scope) pre) ≡ Some fault) }
{
    match scope.since(alloc, 0) {
        Ok(params) => with_effect(alloc, names, scope, pre, params, raw),
        Err(Memory) => {
            drop(scope);
            Err(Fault::Memory)
        }
    }
}

#[tactic(auto, using(up_phrase::proofs::Steps::steps))]
fn with_effect(
    alloc: Global,
    names: &Names,
    scope: Scope,
    pre: Box<Formula>,
    params: List<Typed>,
    raw: &RawAction,
) -> Result<Action, Fault>
    ensures ok { IfOk result (λ made. with_effect (declarations names.now) raw.now (barred scope) (variables scope) pre params ≡ parsed made) }
    ensures err { IfErr result (λ fault. ¬ (fault ≡ Fault.Memory) → first (with_effect (declarations names.now) raw.now (barred scope) (variables scope) pre params) ≡ Some fault) }
{
    match checked_rows(alloc, names, scope, &raw.effect) {
        Ok(rows) => with_name(alloc, &raw.name.name, params, pre, rows),
        Err(fault) => Err(fault),
    }
}

fn with_name(
    alloc: Global,
    name: &Name,
    params: List<Typed>,
    pre: Box<Formula>,
    rows: List<Row>,
) -> Result<Action, Fault>
    ensures ok { IfOk result (λ made. made ≡ action_of name.now params pre rows) }
    ensures err { IfErr result (λ fault. fault ≡ Fault.Memory) }
{
    match name.copy(alloc) {
        Ok(name) => Ok(Action {
            name,
            params,
            pre: pre.into_inner(),
            rows,
        }),
        Err(Memory) => Err(Fault::Memory),
    }
}
