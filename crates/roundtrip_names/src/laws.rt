//! Laws of the definitions, each the contract of a function that does nothing.
ghost use Rattle.std.specs.Prelude.{◌≡◌, Bool, true, List, [], Option, drop, map, take};
ghost use Rattle.up_text.specs.Lists.{Every};
ghost use Rattle.up_text.specs.declared.name.Name.{Name};
ghost use Rattle.up_tree.specs.WellFormed.{IsAction, IsExpr, IsFormula, IsPlain, IsPlainExpr, IsRow, IsTerm, IsWellFormed, OfGives, term_type};
ghost use Rattle.up_tree.specs.declared.action.Action.{Action};
ghost use Rattle.up_tree.specs.declared.action.Row.{Row};
ghost use Rattle.up_tree.specs.declared.expr.Expr.{Expr};
ghost use Rattle.up_tree.specs.declared.formula.Formula.{Formula};
ghost use Rattle.up_tree.specs.declared.problem.Function.{Function};
ghost use Rattle.up_tree.specs.declared.term.Term.{Term};
ghost use Rattle.up_tree.specs.declared.term.Typed.{Typed};
ghost use Rattle.up_kind.specs.Carried.{carries};
ghost use Rattle.up_kind.specs.declared.feature.Feature.TheVariants.{FlatTyping};
ghost use Rattle.pddl_lex.specs.Parses.{parsed};
ghost use Rattle.pddl_parse.specs.declared.raw.RawAction.{RawAction};
ghost use Rattle.pddl_parse.specs.declared.raw.RawEffect.{RawEffect};
ghost use Rattle.pddl_parse.specs.declared.raw.RawFormula.{RawFormula};
ghost use Rattle.pddl_parse.specs.declared.raw.RawFunctions.{RawFunctions};
ghost use Rattle.pddl_parse.specs.declared.raw.RawGives.{RawGives};
ghost use Rattle.pddl_parse.specs.declared.raw.RawGroup.{RawGroup};
ghost use Rattle.pddl_parse.specs.declared.raw.RawSymbol.{RawSymbol};
ghost use Rattle.pddl_parse.specs.declared.raw.RawTerm.{RawTerm};
ghost use Rattle.up_phrase.specs.Conditions.{formula};
ghost use Rattle.up_phrase.specs.Declarations.{Declarations};
ghost use Rattle.up_phrase.specs.Exprs.{expr};
ghost use Rattle.up_phrase.specs.Scopes.{Variables};
ghost use Rattle.up_phrase.specs.Terms.{term};
ghost use Rattle.up_phrase.specs.declared.term.Setting.{Setting};
ghost use Rattle.up_phrase.specs.declared.term.Setting.TheVariants.{Plain};
ghost use Rattle.up_declare.specs.Declaring.{given, with_function_group, with_functions, with_objects, with_predicates};
ghost use Rattle.up_declare.specs.Types.{types};
ghost use Rattle.up_effect.specs.Actions.{action};
ghost use Rattle.up_effect.specs.Effects.{rows, within};
ghost use Rattle.roundtrip_shapes.specs.Raw.{AreRawGroups, IsRawExpr, IsRawFormula, IsRawTerm};
ghost use Rattle.roundtrip_shapes.specs.RawEffects.{AreRawRows, IsRawAction, IsRawAll};
ghost use Rattle.roundtrip_names.specs.Declared.{Declares, SameScope, TypesWritten, and_objects, domain_declarations, entry, with_each};
ghost use Rattle.roundtrip_names.specs.Due.{IsDue};
ghost use Rattle.roundtrip_names.specs.New.{AreNewFunctions, AreNewObjects, AreNewSymbols};
ghost use Rattle.roundtrip_names.specs.Symbols.{AreOwnGroups, AreSymbols, and_functions, and_predicates, group_of};

use up_tree::Problem;

/// The abstract syntax of a term is read as the term, where an object of its type or of one above it is due.
pub fn terms_are_named(_p: &Problem)
    ensures { (names : Declarations) (objects : List Typed) → Declares names _p.now objects
        → (scope : List Typed) (vars : Variables) → SameScope scope vars
        → (t : Term) → IsTerm _p.now objects scope t → (due : Option Name) → IsDue _p.now (term_type _p.now scope t) due
        → (raw : RawTerm) → IsRawTerm t raw → term names vars Plain raw due ≡ parsed t }
{}

/// The abstract syntax of an expression is read as the expression.
pub fn expressions_are_named(_p: &Problem)
    ensures { (names : Declarations) (objects : List Typed) → Declares names _p.now objects
        → (scope : List Typed) (vars : Variables) → SameScope scope vars
        → (x : Expr) → IsExpr _p.now objects scope x → (raw : RawTerm) → IsRawExpr x raw → expr names vars Plain raw ≡ parsed x }
{}

/// The abstract syntax of a condition is read as the condition.
pub fn conditions_are_named(_p: &Problem)
    ensures { (names : Declarations) (objects : List Typed) → Declares names _p.now objects → (typed : Bool) → TypesWritten typed _p.now
        → (scope : List Typed) (vars : Variables) → SameScope scope vars
        → (f : Formula) → IsFormula _p.now objects scope f
        → (raw : RawFormula) → IsRawFormula typed f raw → formula names vars Plain raw ≡ parsed f }
{}

/// An expression without an object function's value is read as itself in any setting, a metric too.
pub fn plain_expressions_are_named(_p: &Problem)
    ensures { (names : Declarations) (objects : List Typed) → Declares names _p.now objects → (s : Setting)
        → (scope : List Typed) (vars : Variables) → SameScope scope vars
        → (x : Expr) → IsExpr _p.now objects scope x → IsPlainExpr x → (raw : RawTerm) → IsRawExpr x raw → expr names vars s raw ≡ parsed x }
{}

/// A condition without comparisons and without an object function's value is read as itself in any setting, a constraint too.
pub fn plain_conditions_are_named(_p: &Problem)
    ensures { (names : Declarations) (objects : List Typed) → Declares names _p.now objects → (s : Setting) (typed : Bool) → TypesWritten typed _p.now
        → (scope : List Typed) (vars : Variables) → SameScope scope vars
        → (f : Formula) → IsFormula _p.now objects scope f → IsPlain f
        → (raw : RawFormula) → IsRawFormula typed f raw → formula names vars s raw ≡ parsed f }
{}

/// The abstract syntax of an action's effect is read as the action's rows, where the variables in scope are its parameters.
pub fn effects_are_named(_p: &Problem)
    ensures { (names : Declarations) (objects : List Typed) → Declares names _p.now objects → (typed : Bool) → TypesWritten typed _p.now
        → (params : List Typed) (vars : Variables) → SameScope params vars
        → (rs : List Row) → Every (IsRow _p.now objects params) rs
        → (raw : RawEffect) → IsRawAll (AreRawRows typed rs) raw → rows names (within vars []) raw ≡ parsed rs }
{}

/// The abstract syntax of an action is read as the action, where the constants alone are declared among the objects.
pub fn actions_are_named(_p: &Problem)
    ensures { (names : Declarations) → Declares names _p.now (take _p.now.constants _p.now.objects) → (typed : Bool) → TypesWritten typed _p.now
        → (a : Action) → IsAction _p.now a → (raw : RawAction) → IsRawAction typed a raw → action names raw ≡ parsed a }
{}

/// The types that a written domain lists with their parents are read as those of the problem.
pub fn types_are_named(_p: &Problem)
    ensures { IsWellFormed _p.now → (groups : List RawGroup) → AreRawGroups true _p.now.types groups → types groups ≡ parsed (map entry _p.now.types) }
{}

/// Written constants and objects that are new are declared after the others, with their types.
pub fn objects_are_named(_p: &Problem)
    ensures { (typed : Bool) → TypesWritten typed _p.now → (names : Declarations) (new : List Typed) → AreNewObjects _p.now names new
        → (groups : List RawGroup) → AreRawGroups typed new groups → with_objects groups names ≡ parsed (and_objects names new) }
{}

/// Written predicates that are new are declared after the others, with the types of their arguments.
pub fn predicates_are_named(_p: &Problem)
    ensures { (typed : Bool) → TypesWritten typed _p.now → (names : Declarations) (entries : List (Name × List Name)) → AreNewSymbols _p.now names entries
        → (symbols : List RawSymbol) → AreSymbols typed entries symbols → with_predicates symbols names ≡ parsed (and_predicates names entries) }
{}

/// A written group of new functions that give the same is declared after the others, with the types of their arguments and
/// what they give.
pub fn functions_are_named(_p: &Problem)
    ensures { (typed : Bool) → TypesWritten typed _p.now → (names : Declarations) (entries : List (Name × List Name)) → AreNewSymbols _p.now names entries
        → (of : RawGives) → OfGives _p.now (given of) → (symbols : List RawSymbol) → AreSymbols typed entries symbols
        → with_function_group (group_of symbols of) names ≡ parsed (and_functions names (given of) entries) }
{}

/// Written functions that are new, each in a group of its own, are declared after the others, with the types of their
/// arguments and what they give.
pub fn each_function_is_named(_p: &Problem)
    ensures { (typed : Bool) → TypesWritten typed _p.now → (names : Declarations) (ds : List Function) → AreNewFunctions _p.now names ds
        → (groups : List RawFunctions) → AreOwnGroups typed ds groups → with_functions groups names ≡ parsed (with_each names ds) }
{}

/// What a problem's domain declares are the problem's parts with its constants, and with its other objects after them they
/// are its parts with all its objects.
pub fn parts_are_declared(_p: &Problem)
    ensures constants { Declares (domain_declarations _p.now) _p.now (take _p.now.constants _p.now.objects) }
    ensures objects { Declares (and_objects (domain_declarations _p.now) (drop _p.now.constants _p.now.objects)) _p.now _p.now.objects }
{}

/// The writer leaves types out only where the problem declares none.
pub fn types_are_written(_p: &Problem)
    ensures { TypesWritten (carries _p.now FlatTyping) _p.now }
{}
