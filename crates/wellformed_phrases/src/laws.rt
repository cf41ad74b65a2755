//! Laws of the definitions, each the contract of a function that does nothing.
ghost use Rattle.std.specs.Prelude.{◌≡◌, List, [], Option, map, take};
ghost use Rattle.up_text.specs.Lists.{Every};
ghost use Rattle.up_text.specs.declared.name.Name.{Name};
ghost use Rattle.up_tree.specs.WellFormed.{IsAction, IsConstraint, IsExpr, IsFormula, IsWellFormed, OnMetric};
ghost use Rattle.up_tree.specs.declared.term.Typed.{Typed};
ghost use Rattle.pddl_lex.specs.Parses.{parsed};
ghost use Rattle.pddl_parse.specs.declared.raw.DomainForm.{DomainForm};
ghost use Rattle.pddl_parse.specs.declared.raw.ProblemForm.{ProblemForm};
ghost use Rattle.pddl_parse.specs.declared.raw.RawAction.{RawAction};
ghost use Rattle.pddl_parse.specs.declared.raw.RawConstraint.{RawConstraint};
ghost use Rattle.pddl_parse.specs.declared.raw.RawFormula.{RawFormula};
ghost use Rattle.pddl_parse.specs.declared.raw.RawFunctions.{RawFunctions};
ghost use Rattle.pddl_parse.specs.declared.raw.RawGroup.{RawGroup};
ghost use Rattle.pddl_parse.specs.declared.raw.RawInit.{RawInit};
ghost use Rattle.pddl_parse.specs.declared.raw.RawMetric.{RawMetric};
ghost use Rattle.pddl_parse.specs.declared.raw.RawSymbol.{RawSymbol};
ghost use Rattle.pddl_parse.specs.declared.raw.RawTerm.{RawTerm};
ghost use Rattle.up_phrase.specs.Conditions.{formula};
ghost use Rattle.up_phrase.specs.Declarations.{Declarations};
ghost use Rattle.up_phrase.specs.Exprs.{expr};
ghost use Rattle.up_phrase.specs.Scopes.{Variables, typed};
ghost use Rattle.up_phrase.specs.Terms.{term};
ghost use Rattle.up_phrase.specs.declared.term.Setting.{Setting};
ghost use Rattle.up_declare.specs.Declaring.{with_functions, with_objects, with_predicates};
ghost use Rattle.up_declare.specs.Types.{types};
ghost use Rattle.up_effect.specs.Actions.{action};
ghost use Rattle.up_check.specs.Constraints.{constraints};
ghost use Rattle.up_check.specs.Domains.{Known, domain_names};
ghost use Rattle.up_check.specs.Initial.{initial};
ghost use Rattle.up_check.specs.Metrics.{metric_of};
ghost use Rattle.up_check.specs.Problems.{problem_names};
ghost use Rattle.wellformed_phrases.specs.Agreement.{Agree, AgreeInScope, IfParsed, IsTermDue};
ghost use Rattle.wellformed_phrases.specs.Initial.{IsInitial, IsLawfulInit};
ghost use Rattle.wellformed_phrases.specs.LawfulForms.{IsLawfulDomain, IsLawfulProblem};
ghost use Rattle.wellformed_phrases.specs.LawfulPhrases.{HasLiterals, HaveNames, IsLawful, IsLawfulAction, IsLawfulConstraint, IsLawfulMetric};
ghost use Rattle.wellformed_phrases.specs.Sound.{AreNamed, AreNamedFunctions, AreSound, HasDeclared};
ghost use Rattle.wellformed_phrases.specs.SoundTypes.{AreSoundTypes, HaveNamedTypes};

use up_tree::Problem;

/// A raw term that is read as an object term is one, of the type that is due.
pub fn read_terms_are_well_formed(_p: &Problem)
    ensures { (names : Declarations) (objects : List Typed) → Agree names _p.now objects
        → (vars : Variables) (scope : List Typed) → AgreeInScope _p.now vars scope
        → (s : Setting) (raw : RawTerm) (due : Option Name) → IfParsed (term names vars s raw due) (IsTermDue _p.now objects scope due) }
{}

/// A raw term with literals for its numbers that is read as an expression is one.
pub fn read_expressions_are_well_formed(_p: &Problem)
    ensures { (names : Declarations) (objects : List Typed) → Agree names _p.now objects
        → (vars : Variables) (scope : List Typed) → AgreeInScope _p.now vars scope
        → (s : Setting) (raw : RawTerm) → HasLiterals raw → IfParsed (expr names vars s raw) (IsExpr _p.now objects scope) }
{}

/// A lawful raw condition that is read is a condition: one that compares literals and binds names that may be declared.
pub fn read_conditions_are_well_formed(_p: &Problem)
    ensures { (names : Declarations) (objects : List Typed) → Agree names _p.now objects
        → (vars : Variables) (scope : List Typed) → AgreeInScope _p.now vars scope
        → (s : Setting) (raw : RawFormula) → IsLawful raw → IfParsed (formula names vars s raw) (IsFormula _p.now objects scope) }
{}

/// A lawful raw action that is read is an action, where the objects that may be named are the domain's constants.
pub fn read_actions_are_well_formed(_p: &Problem)
    ensures { (names : Declarations) → Agree names _p.now (take _p.now.constants _p.now.objects)
        → (raw : RawAction) → IsLawfulAction raw → IfParsed (action names raw) (IsAction _p.now) }
{}

/// Lawful raw constraints that are read are constraints, each without a comparison and without an object function's value.
pub fn read_constraints_are_well_formed(_p: &Problem)
    ensures { (names : Declarations) → Agree names _p.now _p.now.objects
        → (raw : RawConstraint) → IsLawfulConstraint raw → IfParsed (constraints names [] raw) (Every (IsConstraint _p.now)) }
{}

/// A lawful raw metric that is read is a metric, no argument of whose functions is an object function's value.
pub fn read_metrics_are_well_formed(_p: &Problem)
    ensures { (names : Declarations) → Agree names _p.now _p.now.objects
        → (raw : Option RawMetric) → IsLawfulMetric raw → IfParsed (metric_of names raw) (OnMetric _p.now) }
{}

/// The lawful members of an initial state that are read are facts of the problem, of which each atom and the value of each
/// term is stated once.
pub fn read_initial_states_are_well_formed(_p: &Problem)
    ensures { (names : Declarations) → Agree names _p.now _p.now.objects
        → (members : List RawInit) → Every IsLawfulInit members → IfParsed (initial names members) (IsInitial _p.now) }
{}

/// Where objects, predicates or functions with names that may be declared are read after sound declarations, the names
/// differ still, and the types are declared.
pub fn read_declarations_are_sound()
    ensures objects { (names : Declarations) → AreSound names → (groups : List RawGroup) → HaveNames groups → IfParsed (with_objects groups names) AreSound }
    ensures predicates { (names : Declarations) → AreSound names → (symbols : List RawSymbol) → AreNamed symbols → IfParsed (with_predicates symbols names) AreSound }
    ensures functions { (names : Declarations) → AreSound names → (groups : List RawFunctions) → AreNamedFunctions groups → IfParsed (with_functions groups names) AreSound }
{}

/// The names of types that are read differ, none is `object`, and all have it above them.
pub fn read_types_are_sound()
    ensures { (groups : List RawGroup) → HaveNames groups → HaveNamedTypes groups → IfParsed (types groups) AreSoundTypes }
{}

/// Sound declarations agree with a problem that has them, where its further objects stand after theirs.
pub fn sound_declarations_agree(_p: &Problem)
    ensures { (names : Declarations) → AreSoundTypes names.types → AreSound names
        → (more : List (Name × Name)) → HasDeclared _p.now names more → Agree names _p.now (map typed names.objects) }
{}

/// Where the lawful form of a domain is read, and the lawful form of a problem is read in that domain, the problem is
/// well-formed.
pub fn read_forms_are_well_formed(_p: &Problem)
    ensures { (domain : DomainForm) → IsLawfulDomain domain → (problem : ProblemForm) → IsLawfulProblem problem
        → (known : Known) → domain_names domain ≡ parsed known → problem_names known problem ≡ parsed _p.now → IsWellFormed _p.now }
{}
