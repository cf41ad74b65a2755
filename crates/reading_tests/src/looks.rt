ghost use Rattle.std.specs.Prelude.{◌≡◌, ◌↔◌, IsTrue, map, zip};
ghost use Rattle.std.specs.Result.{IsOkAnd};
ghost use Rattle.std.specs.List.{list_all};
ghost use Rattle.reading_tests.specs.Looks.{entry, is_entry, counts};

use up_text::{Memory, Name};
use up_tree::{Parts, Problem, Typed};

/// How much a problem holds of each kind.
#[derive(Clone, Copy, Debug, PartialEq, Eq)]
pub struct Counts {
    pub constants: usize,
    pub predicates: usize,
    pub functions: usize,
    pub atoms: usize,
    pub actions: usize,
    /// The nodes of the actions and of the goal, up to the greatest `u64`.
    pub nodes: u64,
}

impl Counts {
    /// What the problem holds.
    pub fn of(problem: &Problem) -> Counts
        ensures { result ≡ counts problem.now }
    {
        let parts = problem.parts();
        Counts {
            constants: parts.constants,
            predicates: parts.predicates.len(),
            functions: parts.functions.len(),
            atoms: parts.atoms.len(),
            actions: parts.actions.len(),
            nodes: problem.size(),
        }
    }
}

/// Whether the name is spelled so.
pub fn is_name(name: &Name, text: &str) -> bool
    ensures { IsTrue result ↔ (name.now ≡ text.now) }
{
    name.bytes() == text.as_bytes()
}

/// Whether an entry has this name and this type.
pub fn is_typed(typed: &Typed, due: (&str, &str)) -> bool
    ensures { result ≡ is_entry typed.now due.entry }
{
    let (name, of) = due;
    is_name(&typed.name, name) && is_name(&typed.of, of)
}

// The same of each entry, as far as both go.
fn each_is_typed(entries: &[Typed], due: &[(&str, &str)]) -> bool
    ensures { result ≡ list_all (λ (typed, due). is_entry typed due) (zip entries.now due.now) }
{
    entries
        .iter()
        .zip(due)
        .all(|(typed, due)| is_typed(typed, *due))
}

/// Whether the entries have these names and these types, in this order.
pub fn are_typed(entries: &[Typed], due: &[(&str, &str)]) -> bool
    ensures { IsTrue result ↔ (entries.now ≡ map entry due.now) }
{
    entries.len() == due.len() && each_is_typed(entries, due)
}

/// Whether the problem and its domain have these names.
pub fn are_names(parts: &Parts, domain: &str, problem: &str) -> bool
    ensures { IsTrue result ↔ ((parts.now.domain ≡ domain.now) × (parts.now.name ≡ problem.now)) }
{
    is_name(&parts.domain, domain) && is_name(&parts.name, problem)
}

/// Whether this text was made.
pub fn is_text(made: &Result<Vec<u8>, Memory>, due: &str) -> bool
    ensures { IsTrue result ↔ IsOkAnd made.now (λ text. text.items ≡ due.now) }
{
    match made {
        Ok(text) => text.as_slice() == due.as_bytes(),
        Err(_) => false,
    }
}
