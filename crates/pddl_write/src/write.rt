ghost use Rattle.std.specs.Prelude.{◌≡◌, IfOk};
ghost use Rattle.pddl_write.specs.Files.{pieces_of_domain, pieces_of_problem, domain_text, problem_text, declares_type};
ghost use Rattle.pddl_write.specs.Walks.{domain_left, problem_left};

use crate::domain::{DomainPlace, DomainSteps};
use crate::problem::{ProblemPlace, ProblemSteps};
use std::alloc::Global;
use up_kind::kind_of;
use up_line::{Piecewise, whole_text};
use up_text::Memory;
use up_tree::{Parts, Problem};

/// A domain that is written piece by piece.
pub type DomainPieces<'p> = Piecewise<DomainSteps<'p>>;

/// A problem that is written piece by piece.
pub type ProblemPieces<'p> = Piecewise<ProblemSteps<'p>>;

fn domain_steps<'p>(alloc: Global, p: &'p Problem) -> Result<DomainSteps<'p>, Memory>
    ensures { IfOk result (λ steps. domain_left steps ≡ pieces_of_domain p.now) }
{
    let kind = kind_of(alloc, p)?;
    Ok(DomainSteps {
        parts: p.parts(),
        kind,
        place: DomainPlace::Define,
    })
}

fn declares_type(parts: &Parts) -> bool
    ensures { result ≡ declares_type parts.now }
{
    match parts.types.as_slice().split_first() {
        None => false,
        Some(_) => true,
    }
}

#[tactic(auto, unfolding(crate::specs::Files::pieces_of_problem))]
fn problem_steps(p: &Problem) -> ProblemSteps<'_>
    ensures { problem_left result ≡ pieces_of_problem p.now }
{
    let parts = p.parts();
    ProblemSteps {
        parts,
        typed: declares_type(parts),
        place: ProblemPlace::Define,
    }
}

/// The pieces of the problem's domain as PDDL text (PDDL 2.1, Fox and Long 2003, and 3.1). Room for the longest of
/// them is taken here, and none later.
///
/// Errors: `Memory` where that room, or the tables that tell the domain's requirements, can't be had.
#[tactic(auto, unfolding(crate::specs::Files::domain_text))]
pub fn domain_pieces<'p>(alloc: Global, p: &'p Problem) -> Result<DomainPieces<'p>, Memory>
    ensures { IfOk result (λ d. d.rest ≡ domain_text p.now) }
{
    Piecewise::new(alloc, domain_steps(alloc, p)?)
}

/// The pieces of the problem as PDDL text, as those of `domain_pieces`.
///
/// Errors: `Memory` where the room for the longest piece can't be had.
#[tactic(auto, unfolding(crate::specs::Files::problem_text))]
pub fn problem_pieces<'p>(alloc: Global, p: &'p Problem) -> Result<ProblemPieces<'p>, Memory>
    ensures { IfOk result (λ d. d.rest ≡ problem_text p.now) }
{
    Piecewise::new(alloc, problem_steps(p))
}

/// The problem's domain as PDDL text: one line for each action.
///
/// Errors: `Memory` where the text, or the tables that tell its requirements, find no room.
#[tactic(auto, unfolding(crate::specs::Files::domain_text))]
pub fn write_domain(alloc: Global, p: &Problem) -> Result<Vec<u8>, Memory>
    ensures { IfOk result (λ text. text.items ≡ domain_text p.now) }
{
    whole_text(alloc, domain_steps(alloc, p)?)
}

/// The problem as PDDL text, without its domain.
///
/// Errors: `Memory` where the text finds no room.
#[tactic(auto, unfolding(crate::specs::Files::problem_text))]
pub fn write_problem(alloc: Global, p: &Problem) -> Result<Vec<u8>, Memory>
    ensures { IfOk result (λ text. text.items ≡ problem_text p.now) }
{
    whole_text(alloc, problem_steps(p))
}
