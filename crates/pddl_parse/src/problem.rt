ghost use Rattle.std.specs.Prelude.{◌≡◌, [], Some, IfOk, IfErr};
ghost use Rattle.pddl_lex.specs.Parses.{parsed, first, over};
ghost use Rattle.pddl_parse.specs.Sections.{problem_section, problem_sections};
ghost use Rattle.pddl_parse.specs.Texts.{bare_problem, put_section, put_sections, complete, whole, lacks_section, in_problem_text, problem_text, problem};

use crate::bracket::has_section;
use crate::raw::{Ident, ProblemForm, RawConstraint, RawFormula, RawGroup, RawInit, RawMetric};
use crate::section::{ProblemSection, problem_section};
use crate::shape::{ShapeError, misfit, misfit_group, no_extra};
use crate::title::{expect_word, title};
use pddl_lex::Sexp;
use std::alloc::Global;
use std::mem::replace;
use up_text::{Box, List, Place};

/// What has been read of a problem text.
#[derive(Drop)]
pub struct ProblemParts {
    pub name: Ident,
    pub domain: Option<Ident>,
    pub objects: List<RawGroup>,
    pub init: List<RawInit>,
    pub goal: Option<Box<RawFormula>>,
    pub constraints: RawConstraint,
    pub metric: Option<RawMetric>,
}

fn bare_problem(alloc: Global, name: Ident) -> ProblemParts
    ensures { result ≡ bare_problem name }
{
    ProblemParts {
        name,
        domain: None,
        objects: List::new(alloc),
        init: List::new(alloc),
        goal: None,
        constraints: RawConstraint::And(List::new(alloc)),
        metric: None,
    }
}

fn put_section(parts: ProblemParts, section: ProblemSection) -> ProblemParts
    ensures { result ≡ put_section parts section }
{
    let mut parts = parts;
    match section {
        ProblemSection::Requirements => parts,
        ProblemSection::Domain(name) => {
            parts.domain = Some(name);
            parts
        }
        ProblemSection::Objects(objects) => {
            parts.objects = objects;
            parts
        }
        ProblemSection::Init(init) => {
            parts.init = init;
            parts
        }
        ProblemSection::Goal(goal) => {
            parts.goal = Some(goal);
            parts
        }
        ProblemSection::Constraints(constraints) => {
            drop(replace(&mut parts.constraints, constraints));
            parts
        }
        ProblemSection::Metric(metric) => {
            drop(replace(&mut parts.metric, Some(metric)));
            parts
        }
    }
}

// One more section.
fn put_next(
    alloc: Global,
    parts: ProblemParts,
    before: &[Sexp],
    item: &Sexp,
) -> Result<ProblemParts, ShapeError>
    ensures ok { IfOk result (λ it. over (put_section parts) (problem_section before.now item.now) ≡ parsed it) }
    ensures err { IfErr result (λ e. ¬ (e ≡ ShapeError.Memory) → first (problem_section before.now item.now) ≡ Some e) }
{
    match problem_section(alloc, before, item) {
        Ok(section) => Ok(put_section(parts, section)),
        Err(fault) => {
            drop(parts);
            Err(fault)
        }
    }
}

#[tactic(auto, using(crate::proofs::Steps::steps, crate::proofs::Filling::putting))]
fn put_sections(
    alloc: Global,
    start: ProblemParts,
    items: &[Sexp],
) -> Result<ProblemParts, ShapeError>
    ensures ok { IfOk result (λ it. over (put_sections start) (problem_sections [] items.now) ≡ parsed it) }
    ensures err { IfErr result (λ e. ¬ (e ≡ ShapeError.Memory) → first (over (put_sections start) (problem_sections [] items.now)) ≡ Some e) }
{
    let mut parts = start;
    for at in 0..items.len() {
        parts = put_next(alloc, parts, &items[..at], &items[at])?;
    }
    Ok(parts)
}

fn complete(place: Place, parts: ProblemParts) -> Result<ProblemForm, ShapeError>
    ensures ok { IfOk result (λ it. complete place parts.domain parts.goal parts ≡ parsed it) }
    ensures err { IfErr result (λ e. first (complete place parts.domain parts.goal parts) ≡ Some e) }
{
    let ProblemParts {
        name,
        domain,
        objects,
        init,
        goal,
        constraints,
        metric,
    } = parts;
    let Some(domain) = domain else {
        drop(constraints);
        drop(metric);
        return Err(ShapeError::Expected { place });
    };
    let Some(goal) = goal else {
        drop(constraints);
        drop(metric);
        return Err(ShapeError::Expected { place });
    };
    Ok(ProblemForm {
        name,
        domain,
        objects,
        init,
        goal: goal.into_inner(),
        constraints,
        metric,
    })
}

fn lacks_section(items: &[Sexp]) -> bool
    ensures { result ≡ lacks_section items.now }
{
    !has_section(b"domain".as_slice(), items) || !has_section(b"goal".as_slice(), items)
}

#[tactic(auto, using(crate::proofs::Steps::steps, crate::proofs::Filling::first_whole))]
fn in_problem_text(alloc: Global, place: Place, items: &[Sexp]) -> Result<ProblemForm, ShapeError>
    ensures ok { IfOk result (λ it. in_problem_text place items.now ≡ parsed it) }
    ensures err { IfErr result (λ e. ¬ (e ≡ ShapeError.Memory) → first (in_problem_text place items.now) ≡ Some e) }
{
    let Some((head, rest)) = items.split_first() else {
        return Err(ShapeError::Expected { place });
    };
    let Some((second, rest)) = rest.split_first() else {
        return Err(misfit_group(place, items));
    };
    if lacks_section(rest) {
        return Err(misfit_group(place, items));
    }
    expect_word(b"define".as_slice(), head)?;
    let name = title(alloc, b"problem".as_slice(), second)?;
    let parts = put_sections(alloc, bare_problem(alloc, name), rest)?;
    complete(place, parts)
}

#[tactic(auto, using(crate::proofs::Nodes::section_nodes))]
fn problem_text(alloc: Global, tree: &Sexp) -> Result<ProblemForm, ShapeError>
    ensures ok { IfOk result (λ it. problem_text tree.now ≡ parsed it) }
    ensures err { IfErr result (λ e. ¬ (e ≡ ShapeError.Memory) → first (problem_text tree.now) ≡ Some e) }
{
    match tree {
        Sexp::Leaf(_) => Err(misfit(tree)),
        Sexp::Group(place, items) => in_problem_text(alloc, *place, items.as_slice()),
    }
}

/// The shape of a problem text (PDDL 2.1, Fox and Long 2003, appendix A; PDDL 3.1 for functions and constraints).
///
/// Errors: as those of `domain_form`.
#[tactic(auto, using(crate::proofs::Steps::steps))]
pub fn problem_form(alloc: Global, trees: &List<Sexp>) -> Result<ProblemForm, ShapeError>
    ensures form { IfOk result (λ it. problem trees.now ≡ parsed it) }
    ensures fault { IfErr result (λ e. ¬ (e ≡ ShapeError.Memory) → first (problem trees.now) ≡ Some e) }
{
    let Some((tree, others)) = trees.as_slice().split_first() else {
        return Err(ShapeError::Expected {
            place: Place { line: 1, column: 1 },
        });
    };
    let form = problem_text(alloc, tree)?;
    match no_extra(others) {
        Ok(()) => Ok(form),
        Err(fault) => {
            drop(form);
            Err(fault)
        }
    }
}
