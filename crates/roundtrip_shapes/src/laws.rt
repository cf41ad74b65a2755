//! Laws of the definitions, each the contract of a function that does nothing.
ghost use Rattle.std.specs.Prelude.{Bool, List};
ghost use Rattle.up_text.specs.Lists.{Every};
ghost use Rattle.up_text.specs.Names.{IsName};
ghost use Rattle.up_tree.specs.WellFormed.{IsAction, IsFormula, IsRow, IsWellFormed};
ghost use Rattle.up_tree.specs.declared.action.Action.{Action};
ghost use Rattle.up_tree.specs.declared.action.Row.{Row};
ghost use Rattle.up_tree.specs.declared.formula.Formula.{Formula};
ghost use Rattle.up_tree.specs.declared.term.Typed.{Typed};
ghost use Rattle.pddl_lex.specs.declared.tree.Token.{Token};
ghost use Rattle.roundtrip_tokens.specs.EffectTokens.{action_tokens, whole_effect_tokens};
ghost use Rattle.roundtrip_tokens.specs.FileTokens.{domain_tokens, problem_tokens};
ghost use Rattle.roundtrip_tokens.specs.Spelled.{AreOfKinds};
ghost use Rattle.roundtrip_tokens.specs.Tokens.{formula_tokens};
ghost use Rattle.roundtrip_shapes.specs.Formed.{AllNamed, FormsAction, FormsCondition, FormsDomain, FormsProblem, FormsRows, ReadsDomain, ReadsProblem};

use up_tree::Problem;

/// Tokens of the kinds that are written for a condition are those of one bracket tree, which spells the condition's abstract
/// syntax, where the objects and variables that it may name have names.
pub fn conditions_are_formed(_p: &Problem)
    ensures { IsWellFormed _p.now → (objects scope : List Typed) → AllNamed objects → AllNamed scope
        → (typed : Bool) (f : Formula) → IsFormula _p.now objects scope f
        → (tokens : List Token) → AreOfKinds tokens (formula_tokens typed f) → FormsCondition typed f tokens }
{}

/// Tokens of the kinds that are written for an effect, the rows of an action, are those of one bracket tree, which is read as
/// the effect's abstract syntax, where the objects and variables that it may name have names.
pub fn effects_are_formed(_p: &Problem)
    ensures { IsWellFormed _p.now → (objects scope : List Typed) → AllNamed objects → AllNamed scope
        → (typed : Bool) (rows : List Row) → Every (IsRow _p.now objects scope) rows
        → (tokens : List Token) → AreOfKinds tokens (whole_effect_tokens typed rows) → FormsRows typed rows tokens }
{}

/// Tokens of the kinds that are written for an action of a well-formed problem are those of one bracket, which is read as the
/// action's abstract syntax.
pub fn actions_are_formed(_p: &Problem)
    ensures { IsWellFormed _p.now → (typed : Bool) (a : Action) → IsName a.name → IsAction _p.now a
        → (tokens : List Token) → AreOfKinds tokens (action_tokens typed a) → FormsAction typed a tokens }
{}

/// Tokens of the kinds that are written for the domain of a well-formed problem are those of one bracket tree, which is read
/// as the domain's abstract syntax.
pub fn domain_is_formed(_p: &Problem)
    ensures { IsWellFormed _p.now → (tokens : List Token) → AreOfKinds tokens (domain_tokens _p.now) → FormsDomain _p.now tokens }
{}

/// Tokens of the kinds that are written for a well-formed problem are those of one bracket tree, which is read as the
/// problem's abstract syntax.
pub fn problem_is_formed(_p: &Problem)
    ensures { IsWellFormed _p.now → (tokens : List Token) → AreOfKinds tokens (problem_tokens _p.now) → FormsProblem _p.now tokens }
{}

/// The domain text of a well-formed problem has bracket trees, which are read as the domain's abstract syntax.
pub fn domain_is_read(_p: &Problem)
    ensures { IsWellFormed _p.now → ReadsDomain _p.now }
{}

/// The problem text of a well-formed problem has bracket trees, which are read as the problem's abstract syntax.
pub fn problem_is_read(_p: &Problem)
    ensures { IsWellFormed _p.now → ReadsProblem _p.now }
{}
