//! Laws of the definition, each the contract of a function that does nothing.
ghost use Rattle.std.specs.Prelude.{◌≡◌, ◌↔◌, Bool, Some};
ghost use Rattle.up_tree.specs.declared.problem.Plan.{Plan};
ghost use Rattle.up_tree.specs.Plans.{Plans};
ghost use Rattle.up_compiler.specs.Back.{back};
ghost use Rattle.up_compiler.specs.Compose.{composed, Meets};
ghost use Rattle.up_compiler.specs.Identity.{identity_entries, IsOfActions};
ghost use Rattle.same_plans.specs.SamePlans.{MetricValue, SameMetric, SamePlans, HasPlan, HasPlanAt, IsBest};

use up_compiler::Back;
use up_tree::Problem;

/// A plan's steps are of the problem's actions, each with as many arguments as its action has parameters.
pub fn plans_are_of_actions(_p: &Problem)
    ensures { (plan : Plan) → Plans _p.now plan → IsOfActions _p.now plan }
{}

/// A problem has the same plans as itself, by the map that changes nothing.
pub fn identity_has_same_plans(_p: &Problem)
    ensures { SamePlans _p.now _p.now (identity_entries _p.now.actions) }
{}

/// What a chain of two maps needs: where each has the same plans, the composed map has.
pub fn composed_has_same_plans(
    _p: &Problem,
    _q: &Problem,
    _r: &Problem,
    earlier: &Back,
    _later: &Back,
)
    requires meets { Meets earlier.now _later.now }
    requires first { SamePlans _p.now _q.now earlier.now }
    requires second { SamePlans _q.now _r.now _later.now }
    ensures { SamePlans _p.now _r.now (composed earlier.now _later.now) }
{
    let _entries = earlier.entries();
}

/// Whatever a plan of the second problem is converted to is a plan of the first, of the same metric.
pub fn converted_plan_is_plan(_p: &Problem, _q: &Problem, _m: &Back)
    requires { SamePlans _p.now _q.now _m.now }
    ensures plan { (b a : Plan) → Plans _q.now b → back _m.now b ≡ Some a → Plans _p.now a }
    ensures metric { (b a : Plan) → Plans _q.now b → back _m.now b ≡ Some a → SameMetric _p.now a _q.now b }
{}

/// Both problems have a plan or neither has, and the same of a plan of any one metric.
pub fn plans_exist_together(_p: &Problem, _q: &Problem, _m: &Back)
    requires { SamePlans _p.now _q.now _m.now }
    ensures plan { HasPlan _p.now ↔ HasPlan _q.now }
    ensures metric { (v : MetricValue) → HasPlanAt _p.now v ↔ HasPlanAt _q.now v }
{}

/// However metrics are compared, the best plans of the first problem are what the best plans of the second become.
pub fn best_plans_stay_best(_p: &Problem, _q: &Problem, _m: &Back)
    requires { SamePlans _p.now _q.now _m.now }
    ensures sound { (better : MetricValue → MetricValue → Bool) (b a : Plan) → IsBest better _q.now b → back _m.now b ≡ Some a → IsBest better _p.now a }
    ensures complete { (better : MetricValue → MetricValue → Bool) (a : Plan) → IsBest better _p.now a → (b : Plan) × IsBest better _q.now b × (back _m.now b ≡ Some a) }
{}
