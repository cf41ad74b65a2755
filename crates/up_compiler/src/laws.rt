ghost use Rattle.std.specs.Prelude.{◌≡◌, IsTrue, Some};
ghost use Rattle.up_kind.specs.Features.{has, IsSubset};
ghost use Rattle.up_tree.specs.declared.problem.Plan.{Plan};
ghost use Rattle.up_compiler.specs.Back.{back};
ghost use Rattle.up_compiler.specs.Compose.{composed, Meets};
ghost use Rattle.up_compiler.specs.Identity.{identity_entries, IsOfActions};
ghost use Rattle.up_compiler.specs.Table.{admits, row_result};

use crate::back::Back;
use crate::id::CompilerId;
use up_kind::Kind;
use up_tree::Problem;

/// A compiler accepts the subsets of what it accepts, and keeps subsets.
#[tactic(auto, using(crate::proofs::Rows::rows))]
pub fn rows_keep_subsets(_id: CompilerId, _small: Kind, _large: Kind)
    requires { IsSubset (has _small.0) (has _large.0) }
    ensures admitted { IsTrue (admits _id (has _large.0)) → IsTrue (admits _id (has _small.0)) }
    ensures kept { IsSubset (row_result _id (has _small.0)) (row_result _id (has _large.0)) }
{}

/// The identity's entries give each plan of a problem's actions back as it is.
pub fn identity_keeps_plans(_p: &Problem)
    ensures { (plan : Plan) → IsOfActions _p.now plan → back (identity_entries _p.now.actions) plan ≡ Some plan }
{}

/// Composed entries convert a plan as the later ones and then the earlier ones do.
pub fn composed_converts_twice(earlier: &Back, _later: &Back)
    requires { Meets earlier.now _later.now }
    ensures { (plan middle : Plan) → back _later.now plan ≡ Some middle → back (composed earlier.now _later.now) plan ≡ back earlier.now middle }
{
    let _entries = earlier.entries();
}
