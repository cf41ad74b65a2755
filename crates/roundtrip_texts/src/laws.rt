//! Laws of the definitions, each the contract of a function that does nothing.
ghost use Rattle.std.specs.Prelude.{◌≡◌};
ghost use Rattle.up_tree.specs.WellFormed.{IsWellFormed};
ghost use Rattle.pddl_lex.specs.Parses.{parsed};
ghost use Rattle.pddl_parse.specs.Texts.{domain, problem};
ghost use Rattle.pddl_parse.specs.declared.raw.DomainForm.{DomainForm};
ghost use Rattle.pddl_parse.specs.declared.raw.ProblemForm.{ProblemForm};
ghost use Rattle.pddl_write.specs.Files.{domain_text, problem_text};
ghost use Rattle.up_check.specs.Domains.{domain_names};
ghost use Rattle.up_check.specs.Passes.{Reads, ReadsAs};
ghost use Rattle.up_check.specs.Problems.{problem_names};
ghost use Rattle.roundtrip_shapes.specs.RawFiles.{IsRawDomain, IsRawProblem};
ghost use Rattle.roundtrip_texts.specs.Known.{known_of_parts};

use up_tree::Problem;

/// The abstract syntax of a well-formed problem's domain is read as the domain's name, its declarations and its actions.
pub fn domain_is_named(_p: &Problem)
    ensures { IsWellFormed _p.now → (form : DomainForm) → IsRawDomain _p.now form → domain_names form ≡ parsed (known_of_parts _p.now) }
{}

/// The domain text of a well-formed problem reads as the domain's name, its declarations and its actions, however deep it
/// nests brackets.
pub fn domain_reads_as(_p: &Problem)
    ensures { IsWellFormed _p.now → ReadsAs domain domain_names (domain_text _p.now) (known_of_parts _p.now) }
{}

/// In the domain of a well-formed problem, the problem's abstract syntax is read as the problem.
pub fn problem_is_named(_p: &Problem)
    ensures { IsWellFormed _p.now → (form : ProblemForm) → IsRawProblem _p.now form → problem_names (known_of_parts _p.now) form ≡ parsed _p.now }
{}

/// In the domain of a well-formed problem, the problem text reads as the problem, however deep it nests brackets.
pub fn problem_reads_as(_p: &Problem)
    ensures { IsWellFormed _p.now → ReadsAs problem (problem_names (known_of_parts _p.now)) (problem_text _p.now) _p.now }
{}

/// The domain text and the problem text of a well-formed problem read as the problem.
pub fn written_problems_read_back(_p: &Problem)
    ensures { IsWellFormed _p.now → Reads (domain_text _p.now) (problem_text _p.now) _p.now }
{}
