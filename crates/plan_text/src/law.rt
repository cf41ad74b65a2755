ghost use Rattle.std.specs.Prelude.{◌≡◌, None};
ghost use Rattle.up_tree.specs.declared.problem.Plan.{Plan};
ghost use Rattle.plan_text.specs.Spells.{PlanText};
ghost use Rattle.plan_text.specs.Texts.{first_fault};

/// A law: a text spells a plan exactly where it has no fault, and one plan at most.
#[tactic(auto, using(crate::proofs::Laws::spelled_faultless, crate::proofs::Laws::faultless_spelled, crate::proofs::Laws::spelled_one))]
pub fn plan_text_law(text: &[u8])
    ensures spelled { (plan : Plan) → PlanText text.now plan → first_fault text.now ≡ None }
    ensures faultless { first_fault text.now ≡ None → (plan : Plan) × PlanText text.now plan }
    ensures one { (plan other : Plan) → PlanText text.now plan → PlanText text.now other → plan ≡ other }
{
    let _ = text;
}
