//! Laws of the definitions, each the contract of a function that does nothing.
ghost use Rattle.std.specs.Prelude.{◌≡◌, List, ◌↔◌};
ghost use Rattle.up_text.specs.declared.name.Name.{Name};
ghost use Rattle.up_tree.specs.declared.term.Typed.{Typed};
ghost use Rattle.up_tree.specs.Objects.{Assignment, assign, World};
ghost use Rattle.up_tree.specs.State.{State};
ghost use Rattle.up_tree.specs.Value.{term_value, number};
ghost use Rattle.up_tree.specs.Faults.{Fault, Applies, IsNext};
ghost use Rattle.up_tree.specs.declared.problem.Step.{Step};
ghost use Rattle.semantics_laws.specs.Replaced.{substituted_term, substituted_expr, substituted};
ghost use Rattle.semantics_laws.specs.SameTruth.{SameTruth};
ghost use Rattle.semantics_laws.specs.Symbols.{TermNames, AgreeOn, AgreeOnAll, AreNamed, ExprNames, FormulaNames, StepNames, Symbol, StepChanges, ProblemNames};
ghost use Rattle.semantics_laws.specs.StepsReachGoal.{StepsReachGoal};

use up_tree::{Expr, Formula, Problem, Step, Term};

/// Objects put in the place of variables give what the objects assigned to the variables give: the same objects of
/// terms, numbers of expressions and truth of formulas. Of lists of different lengths the longer one's rest counts
/// for nothing on both sides.
pub fn substitution_assigns(_t: &Term, _x: &Expr, _f: &Formula)
    ensures terms { (s : State) (e : Assignment) (vars : List Typed) (objects : List Name) → term_value s e (substituted_term vars objects _t.now) ≡ term_value s (assign vars objects e) _t.now }
    ensures exprs { (s : State) (e : Assignment) (vars : List Typed) (objects : List Name) → number s e (substituted_expr vars objects _x.now) ≡ number s (assign vars objects e) _x.now }
    ensures formulas { (w : World) (s : State) (e : Assignment) (vars : List Typed) (objects : List Name) → SameTruth w s e (substituted vars objects _f.now) s (assign vars objects e) _f.now }
{}

/// States that agree on the predicates and functions that a term, an expression or a formula names give it the same
/// object, number or truth.
pub fn named_parts_decide(_u: &Term, _x: &Expr, _f: &Formula)
    ensures terms { (s t : State) (e : Assignment) → AgreeOn (TermNames _u.now) s t → term_value s e _u.now ≡ term_value t e _u.now }
    ensures exprs { (s t : State) (e : Assignment) → AgreeOn (ExprNames _x.now) s t → number s e _x.now ≡ number t e _x.now }
    ensures formulas { (w : World) (s t : State) (e : Assignment) → AgreeOn (FormulaNames _f.now) s t → SameTruth w s e _f.now t e _f.now }
{}

/// In states that agree on what a step's action names, the same faults apply, and the states that the step leaves
/// agree on it again, and on all else on which the states agreed.
pub fn steps_depend_on_named_parts(_p: &Problem, _step: &Step)
    ensures faults { (s t : State) → AgreeOn (StepNames _p.now _step.now) s t → (fault : Fault) → Applies _p.now s _step.now fault ↔ Applies _p.now t _step.now fault }
    ensures next { (s t next_s next_t : State) → AgreeOn (StepNames _p.now _step.now) s t → IsNext _p.now s _step.now next_s → IsNext _p.now t _step.now next_t → AgreeOn (StepNames _p.now _step.now) next_s next_t }
    ensures wider { (symbols : List Symbol) (s t next_s next_t : State) → AreNamed _p.now _step.now symbols → AgreeOnAll symbols s t → IsNext _p.now s _step.now next_s → IsNext _p.now t _step.now next_t → AgreeOnAll symbols next_s next_t }
{}

/// A step leaves all atoms, numbers and objects as they were but those of predicates and functions that an effect of
/// its action is about.
pub fn rest_stays(_p: &Problem, _step: &Step)
    ensures { (s next : State) → IsNext _p.now s _step.now next → AgreeOn (λ x. ¬ StepChanges _p.now _step.now x) s next }
{}

/// From states that agree on what the actions and the goal of a problem name, the same steps lead to the goal.
pub fn plans_depend_on_named_parts(_p: &Problem)
    ensures { (s t : State) → AgreeOn (ProblemNames _p.now) s t → (steps : List Step) → StepsReachGoal _p.now s steps → StepsReachGoal _p.now t steps }
{}
