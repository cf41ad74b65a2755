ghost use Rattle.std.specs.Prelude.{◌≡◌, IfOk};
ghost use Rattle.up_text.specs.Names.{same_name};
ghost use Rattle.up_tree.specs.WellFormed.{top_type};
ghost use Rattle.up_kind.specs.Carried.{carries};
ghost use Rattle.up_kind.specs.Features.{has, over};
ghost use Rattle.up_kind.specs.Gathered.{of_action, of_constraint, of_type, of_function, of_problem};
ghost use Rattle.up_kind.specs.Values.{HasValues};

use crate::condition::of_condition;
use crate::ground::Ground;
use crate::kind::only_if;
use crate::meeting::has_meeting_rows;
use crate::row::{is_empty, of_rows};
use crate::tables::Tables;
use crate::values::{gives_an_object, is_total, values_of};
use crate::{Feature, Kind};
use indexmap::IndexSet;
use std::alloc::Global;
use up_text::{Memory, Name};
use up_tree::{Action, Constraint, Function, Parts, Problem, Rule, Typed};

#[tactic(auto, unfolding(crate::specs::Gathered::of_action))]
fn of_action(alloc: Global, tables: &Tables, action: &Action) -> Result<Kind, Memory>
    ensures { IfOk result (λ kind. has kind.0 ≡ of_action tables.now action.now) }
{
    let parameters = only_if(
        !is_empty(action.params.as_slice()),
        Feature::ActionParameters,
    );
    let overlap = only_if(
        has_meeting_rows(alloc, tables, action)?,
        Feature::EffectOverlap,
    );
    let conditions = of_condition(&action.pre).with(of_rows(action.rows.as_slice()));
    Ok(parameters.with(overlap.with(conditions)))
}

#[tactic(auto, using(crate::proofs::Sets::sets))]
fn of_actions(alloc: Global, tables: &Tables) -> Result<Kind, Memory>
    ensures { IfOk result (λ kind. has kind.0 ≡ over (of_action tables.now) tables.now.actions) }
{
    let mut kind = Kind(0);
    for action in tables.parts().actions.as_slice() {
        kind = kind.with(of_action(alloc, tables, action)?);
    }
    Ok(kind)
}

#[tactic(auto, using(crate::proofs::Sets::overs), unfolding(crate::specs::Gathered::of_constraint))]
fn of_constraint(constraint: &Constraint) -> Kind
    ensures { has result.0 ≡ of_constraint constraint.now }
{
    match &constraint.rule {
        Rule::Always(f) => of_condition(f),
        Rule::Sometime(f) => of_condition(f),
        Rule::AtMostOnce(f) => of_condition(f),
        Rule::SometimeAfter(f, g) => of_condition(f).with(of_condition(g)),
        Rule::SometimeBefore(f, g) => of_condition(f).with(of_condition(g)),
    }
}

#[tactic(auto, using(crate::proofs::Sets::sets))]
fn of_constraints(constraints: &[Constraint]) -> Kind
    ensures { has result.0 ≡ over of_constraint constraints.now }
{
    let mut kind = Kind(0);
    for constraint in constraints {
        kind = kind.with(of_constraint(constraint));
    }
    kind
}

// The type that stands above all others.
fn is_top(of: &Name) -> bool
    ensures { result ≡ same_name of.now top_type }
{
    of.bytes() == b"object".as_slice()
}

#[tactic(auto, unfolding(crate::specs::Gathered::of_type))]
fn of_type(declared: &Typed) -> Kind
    ensures { has result.0 ≡ of_type declared.now }
{
    let flat = Feature::FlatTyping.only();
    flat.with(only_if(!is_top(&declared.of), Feature::HierarchicalTyping))
}

#[tactic(auto, using(crate::proofs::Sets::sets))]
fn of_types(types: &[Typed]) -> Kind
    ensures { has result.0 ≡ over of_type types.now }
{
    let mut kind = Kind(0);
    for declared in types {
        kind = kind.with(of_type(declared));
    }
    kind
}

#[tactic(auto, unfolding(crate::specs::Gathered::of_function))]
fn of_function(
    alloc: Global,
    tables: &Tables,
    values: &IndexSet<Ground>,
    function: &Function,
) -> Result<Kind, Memory>
    requires { HasValues values.now tables.now.values }
    ensures { IfOk result (λ kind. has kind.0 ≡ of_function tables.now function.now) }
{
    let object = gives_an_object(function);
    let total = !object || is_total(alloc, tables, values, function)?;
    let partial = only_if(!total, Feature::PartialFluents);
    let number = only_if(!object, Feature::NumericFluents);
    Ok(only_if(object, Feature::ObjectFluents).with(number.with(partial)))
}

#[tactic(auto, using(crate::proofs::Sets::sets))]
fn of_functions(alloc: Global, tables: &Tables) -> Result<Kind, Memory>
    ensures { IfOk result (λ kind. has kind.0 ≡ over (of_function tables.now) tables.now.functions) }
{
    let values = values_of(alloc, tables.parts().values.as_slice())?;
    let mut kind = Kind(0);
    for function in tables.parts().functions.as_slice() {
        kind = kind.with(of_function(alloc, tables, &values, function)?);
    }
    Ok(kind)
}

// What a problem carries, of whose actions and functions it is known.
#[tactic(auto, using(crate::proofs::Whole::whole), unfolding(crate::specs::Gathered::of_problem))]
fn joined(parts: &Parts, actions: Kind, functions: Kind) -> Kind
    requires actions { has actions.0 ≡ over (of_action parts.now) parts.now.actions }
    requires functions { has functions.0 ≡ over (of_function parts.now) parts.now.functions }
    ensures { has result.0 ≡ carries parts.now }
{
    let constraints = parts.constraints.as_slice();
    let conditions = of_condition(&parts.goal).with(of_constraints(constraints));
    let acting = actions.with(conditions);
    let declared = of_types(parts.types.as_slice()).with(functions.with(acting));
    let constrained = only_if(!is_empty(constraints), Feature::TrajectoryConstraints);
    let metric = only_if(parts.metric.is_some(), Feature::Metric);
    metric.with(constrained.with(declared))
}

/// The features that a problem carries.
///
/// Rows of an action are compared only where they add and delete atoms of one predicate, and where objects stand first in both
/// only where these are one. The answer is `Memory` where the tables of rows, values and types find no room.
///
/// The features are those of Unified Planning's `ProblemKind`, and three of our own.
pub fn kind_of(alloc: Global, p: &Problem) -> Result<Kind, Memory>
    ensures { IfOk result (λ kind. has kind.0 ≡ carries p.now) }
{
    let tables = Tables::new(alloc, p.parts())?;
    let actions = of_actions(alloc, &tables)?;
    let functions = of_functions(alloc, &tables)?;
    Ok(joined(tables.parts(), actions, functions))
}
