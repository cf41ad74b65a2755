//! Laws of the definitions, each the contract of a function that does nothing.
ghost use Rattle.std.specs.Prelude.{◌≡◌, ◌↔◌, List, [], Option};
ghost use Rattle.up_text.specs.declared.name.Name.{Name};
ghost use Rattle.up_tree.specs.declared.action.Action.{Action};
ghost use Rattle.up_tree.specs.declared.action.Row.{Row};
ghost use Rattle.up_tree.specs.declared.expr.Expr.{Expr};
ghost use Rattle.up_tree.specs.declared.formula.Formula.{Formula};
ghost use Rattle.up_tree.specs.declared.problem.Constraint.{Constraint};
ghost use Rattle.up_tree.specs.declared.problem.Metric.{Metric};
ghost use Rattle.up_tree.specs.declared.problem.Parts.{Parts};
ghost use Rattle.up_tree.specs.declared.term.Term.{Term};
ghost use Rattle.pddl_lex.specs.Parses.{faults, parsed};
ghost use Rattle.pddl_parse.specs.declared.raw.DomainForm.{DomainForm};
ghost use Rattle.pddl_parse.specs.declared.raw.ProblemForm.{ProblemForm};
ghost use Rattle.pddl_parse.specs.declared.raw.RawAction.{RawAction};
ghost use Rattle.pddl_parse.specs.declared.raw.RawConstraint.{RawConstraint};
ghost use Rattle.pddl_parse.specs.declared.raw.RawEffect.{RawEffect};
ghost use Rattle.pddl_parse.specs.declared.raw.RawFormula.{RawFormula};
ghost use Rattle.pddl_parse.specs.declared.raw.RawFunctions.{RawFunctions};
ghost use Rattle.pddl_parse.specs.declared.raw.RawGroup.{RawGroup};
ghost use Rattle.pddl_parse.specs.declared.raw.RawInit.{RawInit};
ghost use Rattle.pddl_parse.specs.declared.raw.RawMetric.{RawMetric};
ghost use Rattle.pddl_parse.specs.declared.raw.RawSymbol.{RawSymbol};
ghost use Rattle.pddl_parse.specs.declared.raw.RawTerm.{RawTerm};
ghost use Rattle.up_phrase.specs.Conditions.{formula};
ghost use Rattle.up_phrase.specs.Declarations.{Declarations};
ghost use Rattle.up_phrase.specs.Exprs.{expr};
ghost use Rattle.up_phrase.specs.Scopes.{Variables};
ghost use Rattle.up_phrase.specs.Terms.{term};
ghost use Rattle.up_phrase.specs.declared.term.Setting.{Setting};
ghost use Rattle.up_declare.specs.Declaring.{with_functions, with_objects, with_predicates};
ghost use Rattle.up_declare.specs.Types.{types};
ghost use Rattle.up_effect.specs.Actions.{action};
ghost use Rattle.up_effect.specs.Effects.{rows};
ghost use Rattle.up_check.specs.Constraints.{constraints};
ghost use Rattle.up_check.specs.Domains.{Known, actions, declared, domain_names};
ghost use Rattle.up_check.specs.Initial.{initial};
ghost use Rattle.up_check.specs.Metrics.{metric_of};
ghost use Rattle.up_check.specs.Problems.{problem_names};
ghost use Rattle.up_check.specs.declared.lists.Initial.{Initial};
ghost use Rattle.grammar_names.specs.Actions.{DenoteActions, DenotesAction};
ghost use Rattle.grammar_names.specs.Around.{around};
ghost use Rattle.grammar_names.specs.Constraints.{DenoteConstraints};
ghost use Rattle.grammar_names.specs.DeclaredTypes.{DeclareTypes, Parents};
ghost use Rattle.grammar_names.specs.Declares.{DeclareAll, DeclareFunctions, DeclareObjects, DeclarePredicates};
ghost use Rattle.grammar_names.specs.Effects.{DenotesEffect};
ghost use Rattle.grammar_names.specs.Initial.{DenoteInitial};
ghost use Rattle.grammar_names.specs.Metrics.{DenotesMetric};
ghost use Rattle.grammar_names.specs.Phrases.{DenotesExpr, DenotesFormula, DenotesTerm};
ghost use Rattle.grammar_names.specs.Problems.{DenotesDomain, DenotesProblem};

/// A raw term denotes an object term, where an object of any type or of one type is due, exactly where it is read as it.
pub fn terms_are_read()
    ensures { (names : Declarations) (vars : Variables) (s : Setting) (due : Option Name) (raw : RawTerm) (t : Term)
        → DenotesTerm names vars s due raw t ↔ (term names vars s raw due ≡ parsed t) }
{}

/// A raw term denotes a numeric expression exactly where it is read as it.
pub fn expressions_are_read()
    ensures { (names : Declarations) (vars : Variables) (s : Setting) (raw : RawTerm) (e : Expr)
        → DenotesExpr names vars s raw e ↔ (expr names vars s raw ≡ parsed e) }
{}

/// A raw condition denotes a condition exactly where it is read as it.
pub fn conditions_are_read()
    ensures { (names : Declarations) (vars : Variables) (s : Setting) (raw : RawFormula) (f : Formula)
        → DenotesFormula names vars s raw f ↔ (formula names vars s raw ≡ parsed f) }
{}

/// A raw effect, inside `forall`s and `when`s or none, denotes rows exactly where it is read as them.
pub fn effects_are_read()
    ensures { (names : Declarations) (params bound : Variables) (conditions : List Formula) (raw : RawEffect) (rs : List Row)
        → DenotesEffect names params bound conditions raw rs ↔ (rows names (around params bound conditions) raw ≡ parsed rs) }
{}

/// A raw action denotes an action exactly where it is read as it.
pub fn action_is_read()
    ensures { (names : Declarations) (raw : RawAction) (act : Action) → DenotesAction names raw act ↔ (action names raw ≡ parsed act) }
{}

/// The raw actions of a domain denote actions, whose names differ, exactly where they are read as them.
pub fn actions_are_read()
    ensures { (names : Declarations) (raws : List RawAction) (acts : List Action) → DenoteActions names raws acts ↔ (actions names [] raws ≡ parsed acts) }
{}

/// A list of types declares types exactly where it is read as them, and declares some types exactly where no fault is found
/// in it.
pub fn types_are_read()
    ensures read { (groups : List RawGroup) (all : Parents) → DeclareTypes groups all ↔ (types groups ≡ parsed all) }
    ensures faultless { (groups : List RawGroup) → ((all : Parents) × DeclareTypes groups all) ↔ (faults (types groups) ≡ []) }
{}

/// A typed list declares constants or objects, after what is declared already, exactly where it is read so.
pub fn objects_are_read()
    ensures { (groups : List RawGroup) (names more : Declarations) → DeclareObjects groups names more ↔ (with_objects groups names ≡ parsed more) }
{}

/// Lists of predicates and of functions declare them, after what is declared already, exactly where they are read so.
pub fn symbols_are_read()
    ensures predicates { (symbols : List RawSymbol) (names more : Declarations) → DeclarePredicates symbols names more ↔ (with_predicates symbols names ≡ parsed more) }
    ensures functions { (groups : List RawFunctions) (names more : Declarations) → DeclareFunctions groups names more ↔ (with_functions groups names ≡ parsed more) }
{}

/// The form of a domain declares types, constants, predicates and functions exactly where they are read of it.
pub fn declarations_are_read()
    ensures { (form : DomainForm) (names : Declarations) → DeclareAll form names ↔ (declared form ≡ parsed names) }
{}

/// Raw members denote an initial state exactly where they are read as it.
pub fn initial_states_are_read()
    ensures { (names : Declarations) (members : List RawInit) (init : Initial) → DenoteInitial names members init ↔ (initial names members ≡ parsed init) }
{}

/// A raw constraint denotes constraints exactly where it is read as them.
pub fn constraints_are_read()
    ensures { (names : Declarations) (vars : Variables) (raw : RawConstraint) (cs : List Constraint)
        → DenoteConstraints names vars raw cs ↔ (constraints names vars raw ≡ parsed cs) }
{}

/// A raw metric, or none, denotes a metric, or none, exactly where it is read as it.
pub fn metrics_are_read()
    ensures { (names : Declarations) (raw : Option RawMetric) (m : Option Metric) → DenotesMetric names raw m ↔ (metric_of names raw ≡ parsed m) }
{}

/// The form of a domain denotes a domain exactly where it is read as it, and denotes some domain exactly where no fault is
/// found in it.
pub fn domains_are_read()
    ensures read { (form : DomainForm) (domain : Known) → DenotesDomain form domain ↔ (domain_names form ≡ parsed domain) }
    ensures faultless { (form : DomainForm) → ((domain : Known) × DenotesDomain form domain) ↔ (faults (domain_names form) ≡ []) }
{}

/// The form of a problem denotes a problem of a domain exactly where it is read as it, and denotes some problem of the domain
/// exactly where no fault is found in it.
pub fn problems_are_read()
    ensures read { (domain : Known) (form : ProblemForm) (problem : Parts) → DenotesProblem domain form problem ↔ (problem_names domain form ≡ parsed problem) }
    ensures faultless { (domain : Known) (form : ProblemForm) → ((problem : Parts) × DenotesProblem domain form problem) ↔ (faults (problem_names domain form) ≡ []) }
{}
