//! Laws of the definitions, each the contract of a function that does nothing.
ghost use Rattle.std.specs.Prelude.{◌≡◌, ◌↔◌, List as Sequence, [], map};
ghost use Rattle.pddl_lex.specs.Parses.{all, faults, parsed};
ghost use Rattle.pddl_parse.specs.Actions.{action, condition};
ghost use Rattle.pddl_parse.specs.Constraints.{constraint};
ghost use Rattle.pddl_parse.specs.Effects.{call, effect, whole_effect};
ghost use Rattle.pddl_parse.specs.Starts.{initial, metric};
ghost use Rattle.pddl_parse.specs.Symbols.{functions, predicates};
ghost use Rattle.pddl_parse.specs.Texts.{domain, problem};
ghost use Rattle.pddl_parse.specs.TypedLists.{typed_list};
ghost use Rattle.pddl_parse.specs.declared.raw.DomainForm.{DomainForm};
ghost use Rattle.pddl_parse.specs.declared.raw.ProblemForm.{ProblemForm};
ghost use Rattle.pddl_parse.specs.declared.raw.RawAction.{RawAction};
ghost use Rattle.pddl_parse.specs.declared.raw.RawCall.{RawCall};
ghost use Rattle.pddl_parse.specs.declared.raw.RawConstraint.{RawConstraint};
ghost use Rattle.pddl_parse.specs.declared.raw.RawEffect.{RawEffect};
ghost use Rattle.pddl_parse.specs.declared.raw.RawFormula.{RawFormula};
ghost use Rattle.pddl_parse.specs.declared.raw.RawFunctions.{RawFunctions};
ghost use Rattle.pddl_parse.specs.declared.raw.RawGroup.{RawGroup};
ghost use Rattle.pddl_parse.specs.declared.raw.RawInit.{RawInit};
ghost use Rattle.pddl_parse.specs.declared.raw.RawMetric.{RawMetric};
ghost use Rattle.pddl_parse.specs.declared.raw.RawSymbol.{RawSymbol};
ghost use Rattle.pddl_parse.specs.declared.typed.Item.TheVariants as item;
ghost use Rattle.grammar_shapes.specs.Actions.{IsAction, IsCondition};
ghost use Rattle.grammar_shapes.specs.Constraints.{HasConstraint, IsConstraint};
ghost use Rattle.grammar_shapes.specs.Effects.{IsCall, IsEffect, IsWholeEffect};
ghost use Rattle.grammar_shapes.specs.Lists.{AreListed};
ghost use Rattle.grammar_shapes.specs.Starts.{AreInits, IsInit, IsMetric};
ghost use Rattle.grammar_shapes.specs.Symbols.{AreFunctions, ArePredicates};
ghost use Rattle.grammar_shapes.specs.Texts.{HasDomainForm, HasProblemForm, IsDomain, IsProblem};

use pddl_lex::Sexp;
use up_text::Place;

/// The trees of `:types`, `:constants` or `:objects` spell names with their types exactly where they are read as them.
pub fn typed_list_law(_place: Place, _trees: &[Sexp])
    ensures { (groups : Sequence RawGroup) → AreListed _trees.now groups ↔ (typed_list item.Name _place _trees.now ≡ parsed groups) }
{}

/// A tree spells a precondition or a goal, for which `()` may stand, exactly where it is read as it.
pub fn condition_law(_tree: &Sexp)
    ensures { (f : RawFormula) → IsCondition _tree.now f ↔ (condition _tree.now ≡ parsed f) }
{}

/// A tree spells a predicate or a function at arguments exactly where it is read as it.
pub fn call_law(_tree: &Sexp)
    ensures { (it : RawCall) → IsCall _tree.now it ↔ (call _tree.now ≡ parsed it) }
{}

/// A tree spells an effect exactly where it is read as it.
pub fn effect_law(_tree: &Sexp)
    ensures { (e : RawEffect) → IsEffect _tree.now e ↔ (effect _tree.now ≡ parsed e) }
{}

/// A tree spells the effect of an action, for which `()` may stand, exactly where it is read as it.
pub fn whole_effect_law(_tree: &Sexp)
    ensures { (e : RawEffect) → IsWholeEffect _tree.now e ↔ (whole_effect _tree.now ≡ parsed e) }
{}

/// The trees after `:action` in a bracket at some place spell an action exactly where they are read as it.
pub fn action_law(_place: Place, _trees: &[Sexp])
    ensures { (a : RawAction) → IsAction _trees.now a ↔ (action _place _trees.now ≡ parsed a) }
{}

/// Trees spell declarations of predicates exactly where they are read as them.
pub fn predicates_law(_trees: &[Sexp])
    ensures { (symbols : Sequence RawSymbol) → ArePredicates _trees.now symbols ↔ (predicates _trees.now ≡ parsed symbols) }
{}

/// Trees spell declarations of functions with their types exactly where they are read as them.
pub fn functions_law(_place: Place, _trees: &[Sexp])
    ensures { (groups : Sequence RawFunctions) → AreFunctions _trees.now groups ↔ (functions _place _trees.now ≡ parsed groups) }
{}

/// A tree spells a member of an initial state exactly where it is read as it.
pub fn init_law(_tree: &Sexp)
    ensures { (member : RawInit) → IsInit _tree.now member ↔ (initial _tree.now ≡ parsed member) }
{}

/// Trees spell the members of an initial state exactly where they are read as them.
pub fn inits_law(_trees: &[Sexp])
    ensures { (members : Sequence RawInit) → AreInits _trees.now members ↔ (all (map initial _trees.now) ≡ parsed members) }
{}

/// Trees spell a metric exactly where they are read as it.
pub fn metric_law(_place: Place, _trees: &[Sexp])
    ensures { (m : RawMetric) → IsMetric _trees.now m ↔ (metric _place _trees.now ≡ parsed m) }
{}

/// A tree spells a trajectory constraint exactly where it is read as it, and spells some constraint exactly where no fault is
/// found in it.
pub fn constraint_law(_tree: &Sexp)
    ensures read { (c : RawConstraint) → IsConstraint _tree.now c ↔ (constraint _tree.now ≡ parsed c) }
    ensures faultless { HasConstraint _tree.now ↔ (faults (constraint _tree.now) ≡ []) }
{}

/// The trees of a text spell a domain exactly where they are read as it, and spell some domain exactly where no fault is
/// found in them.
pub fn domain_law(_trees: &[Sexp])
    ensures read { (form : DomainForm) → IsDomain _trees.now form ↔ (domain _trees.now ≡ parsed form) }
    ensures faultless { HasDomainForm _trees.now ↔ (faults (domain _trees.now) ≡ []) }
{}

/// The trees of a text spell a problem exactly where they are read as it, and spell some problem exactly where no fault is
/// found in them.
pub fn problem_law(_trees: &[Sexp])
    ensures read { (form : ProblemForm) → IsProblem _trees.now form ↔ (problem _trees.now ≡ parsed form) }
    ensures faultless { HasProblemForm _trees.now ↔ (faults (problem _trees.now) ≡ []) }
{}
