//! Laws of the definitions, each the contract of a function that does nothing.
ghost use Rattle.up_tree.specs.WellFormed.{IsWellFormed};
ghost use Rattle.pddl_write.specs.Files.{domain_text, problem_text};
ghost use Rattle.roundtrip_tokens.specs.FileTokens.{domain_tokens, problem_tokens};
ghost use Rattle.roundtrip_tokens.specs.Spelled.{SpelledByKinds};

use up_tree::Problem;

/// Tokens of the kinds that stand for the parts of a well-formed problem's domain, in order, spell the domain text.
pub fn domain_is_spelled(_p: &Problem)
    ensures { IsWellFormed _p.now → SpelledByKinds (domain_text _p.now) (domain_tokens _p.now) }
{}

/// Tokens of the kinds that stand for the parts of a well-formed problem, in order, spell the problem text.
pub fn problem_is_spelled(_p: &Problem)
    ensures { IsWellFormed _p.now → SpelledByKinds (problem_text _p.now) (problem_tokens _p.now) }
{}
