ghost use Rattle.std.specs.Prelude.{◌≡◌};
ghost use Rattle.up_kind.specs.Features.{has, over};
ghost use Rattle.up_kind.specs.Gathered.{of_condition, of_not};

use crate::{Feature, Kind};
use up_tree::Formula;

// What a condition carries.
#[cycle(conditions)]
#[tactic(auto, using(crate::proofs::Shapes::shapes, crate::proofs::Sets::sets))]
pub(crate) fn of_condition(f: &Formula) -> Kind
    ensures { has result.0 ≡ of_condition f.now }
{
    match f {
        Formula::And(members) => of_conditions(members.as_slice()),
        Formula::Or(members) => {
            let node = Feature::DisjunctiveConditions.only();
            node.with(of_conditions(members.as_slice()))
        }
        Formula::Not(f) => of_not(f.get()).with(of_condition(f.get())),
        Formula::Imply(f, g) => {
            let members = of_condition(f.get()).with(of_condition(g.get()));
            Feature::DisjunctiveConditions.only().with(members)
        }
        Formula::Exists(_, f) => {
            let node = Feature::ExistentialConditions.only();
            node.with(of_condition(f.get()))
        }
        Formula::Forall(_, f) => {
            let node = Feature::UniversalConditions.only();
            node.with(of_condition(f.get()))
        }
        Formula::Atom(..) => Kind(0),
        Formula::Equal(..) => Feature::Equalities.only(),
        Formula::Compare(..) => Feature::NumericConditions.only(),
    }
}

#[cycle(conditions)]
#[tactic(auto, using(crate::proofs::Sets::sets))]
pub(crate) fn of_conditions(members: &[Formula]) -> Kind
    ensures { has result.0 ≡ over of_condition members.now }
{
    let mut kind = Kind(0);
    for member in members {
        kind = kind.with(of_condition(member));
    }
    kind
}

// What a `not` carries by its operand.
fn of_not(operand: &Formula) -> Kind
    ensures { has result.0 ≡ of_not operand.now }
{
    match operand {
        Formula::Atom(..) | Formula::Equal(..) => Feature::NegativeConditions.only(),
        _ => {
            let negative = Feature::NegativeConditions.only();
            negative.with(Feature::DisjunctiveConditions.only())
        }
    }
}
