ghost use Rattle.std.specs.Prelude.{◌≡◌, []};
ghost use Rattle.pddl_lex.specs.Parses.{parsed, faults};
ghost use Rattle.pddl_parse.specs.declared.raw.RawFormula.{RawFormula};
ghost use Rattle.pddl_parse.specs.Formulas.{formula};
ghost use Rattle.pddl_parse.specs.Forms.{IsFormula, IsSpelled};

use pddl_lex::Sexp;

/// A law: a tree spells a condition exactly where it is read as it, and where it has no fault.
pub fn formula_law(tree: &Sexp)
    ensures spelled { (f : RawFormula) → IsFormula tree.now f → formula tree.now ≡ parsed f }
    ensures read { (f : RawFormula) → formula tree.now ≡ parsed f → IsFormula tree.now f }
    ensures faultless { faults (formula tree.now) ≡ [] → IsSpelled tree.now }
{
    let _ = tree;
}
