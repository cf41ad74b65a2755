//! Laws of the definitions, each the contract of a function that does nothing.
ghost use Rattle.std.specs.Prelude.{ℕ, List};
ghost use Rattle.up_text.specs.Lists.{Every};
ghost use Rattle.up_tree.specs.WellFormed.{IsWellFormed};
ghost use Rattle.pddl_lex.specs.Brackets.{Trees};
ghost use Rattle.pddl_lex.specs.Spells.{SpelledBy};
ghost use Rattle.pddl_lex.specs.declared.tree.Sexp.{Sexp};
ghost use Rattle.pddl_lex.specs.declared.tree.Token.{Token};
ghost use Rattle.pddl_parse.specs.Texts.{domain, problem};
ghost use Rattle.up_check.specs.Passes.{Reads};
ghost use Rattle.wellformed_phrases.specs.Agreement.{IfParsed};
ghost use Rattle.wellformed_phrases.specs.LawfulForms.{IsLawfulDomain, IsLawfulProblem};
ghost use Rattle.wellformed_texts.specs.Literals.{HasLiteralLeaves, IsLiteralToken};

use up_tree::Problem;

/// Where tokens spell a text, each number among them is a literal: it has a decimal spelling of at most 18 digits, at most
/// 9 of which stand after the point.
pub fn number_tokens_are_literals()
    ensures { (text : List ℕ) (tokens : List Token) → SpelledBy text tokens → Every IsLiteralToken tokens }
{}

/// So is each number among the leaves of the bracket trees of a text.
pub fn trees_have_literals()
    ensures { (text : List ℕ) (trees : List Sexp) → Trees text trees → Every HasLiteralLeaves trees }
{}

/// Where bracket trees with literals for their numbers are read as a domain, its form is lawful: its numbers are literals,
/// and all that it declares and binds has names that may be declared.
pub fn domains_are_lawful()
    ensures { (trees : List Sexp) → Every HasLiteralLeaves trees → IfParsed (domain trees) IsLawfulDomain }
{}

/// Where such trees are read as a problem, its form is lawful too.
pub fn problems_are_lawful()
    ensures { (trees : List Sexp) → Every HasLiteralLeaves trees → IfParsed (problem trees) IsLawfulProblem }
{}

/// What two texts read as, a domain and a problem in it, is a well-formed problem.
pub fn read_texts_are_well_formed(_p: &Problem)
    ensures { (first second : List ℕ) → Reads first second _p.now → IsWellFormed _p.now }
{}
