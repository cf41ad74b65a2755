ghost use Rattle.std.specs.Prelude.{◌≡◌, [], Some, IfOk, IfErr, OnOk, OnErr};
ghost use Rattle.pddl_lex.specs.Parses.{parsed, first, over};
ghost use Rattle.pddl_parse.specs.Sections.{domain_section, domain_sections};
ghost use Rattle.pddl_parse.specs.Texts.{bare_domain, with_section, with_sections, in_domain_text, domain_text, domain};

use crate::raw::{DomainForm, Ident, RawAction, RawConstraint};
use crate::section::{DomainSection, domain_section};
use crate::shape::{ShapeError, misfit, misfit_group, no_extra};
use crate::title::{expect_word, title};
use pddl_lex::Sexp;
use std::alloc::Global;
use std::mem::replace;
use up_text::{List, Place};

fn bare_domain(alloc: Global, name: Ident) -> DomainForm
    ensures { result ≡ bare_domain name }
{
    DomainForm {
        name,
        types: List::new(alloc),
        constants: List::new(alloc),
        predicates: List::new(alloc),
        functions: List::new(alloc),
        actions: List::new(alloc),
        constraints: RawConstraint::And(List::new(alloc)),
    }
}

fn with_action(form: DomainForm, action: RawAction) -> Result<DomainForm, ShapeError>
    ensures ok { IfOk result (λ new. new ≡ with_section form (DomainSection.Action action)) }
    ensures err { IfErr result (λ e. e ≡ ShapeError.Memory) }
{
    let mut form = form;
    match form.actions.push(action) {
        Ok(()) => Ok(form),
        Err(_) => {
            drop(form);
            Err(ShapeError::Memory)
        }
    }
}

fn with_section(form: DomainForm, section: DomainSection) -> Result<DomainForm, ShapeError>
    ensures ok { IfOk result (λ new. new ≡ with_section form section) }
    ensures err { IfErr result (λ e. e ≡ ShapeError.Memory) }
{
    let mut form = form;
    match section {
        DomainSection::Requirements => Ok(form),
        DomainSection::Types(types) => {
            form.types = types;
            Ok(form)
        }
        DomainSection::Constants(constants) => {
            form.constants = constants;
            Ok(form)
        }
        DomainSection::Predicates(predicates) => {
            form.predicates = predicates;
            Ok(form)
        }
        DomainSection::Functions(functions) => {
            form.functions = functions;
            Ok(form)
        }
        DomainSection::Action(action) => with_action(form, action),
        DomainSection::Constraints(constraints) => {
            drop(replace(&mut form.constraints, constraints));
            Ok(form)
        }
    }
}

// One more section, behind others.
fn with_next(
    alloc: Global,
    form: DomainForm,
    before: &[Sexp],
    item: &Sexp,
) -> Result<DomainForm, ShapeError>
    ensures ok { IfOk result (λ it. over (with_section form) (domain_section before.now item.now) ≡ parsed it) }
    ensures err { IfErr result (λ e. ¬ (e ≡ ShapeError.Memory) → first (domain_section before.now item.now) ≡ Some e) }
{
    match domain_section(alloc, before, item) {
        Ok(section) => with_section(form, section),
        Err(fault) => {
            drop(form);
            Err(fault)
        }
    }
}

#[tactic(auto, using(crate::proofs::Steps::steps, crate::proofs::Filling::filling))]
fn with_sections(alloc: Global, start: DomainForm, items: &[Sexp]) -> Result<DomainForm, ShapeError>
    ensures ok { IfOk result (λ it. over (with_sections start) (domain_sections [] items.now) ≡ parsed it) }
    ensures err { IfErr result (λ e. ¬ (e ≡ ShapeError.Memory) → first (over (with_sections start) (domain_sections [] items.now)) ≡ Some e) }
{
    let mut form = start;
    for at in 0..items.len() {
        form = with_next(alloc, form, &items[..at], &items[at])?;
    }
    Ok(form)
}

#[tactic(auto, using(crate::proofs::Steps::steps))]
fn in_domain_text(alloc: Global, place: Place, items: &[Sexp]) -> Result<DomainForm, ShapeError>
    ensures ok { IfOk result (λ it. in_domain_text place items.now ≡ parsed it) }
    ensures err { IfErr result (λ e. ¬ (e ≡ ShapeError.Memory) → first (in_domain_text place items.now) ≡ Some e) }
{
    let Some((head, rest)) = items.split_first() else {
        return Err(ShapeError::Expected { place });
    };
    let Some((second, rest)) = rest.split_first() else {
        return Err(misfit_group(place, items));
    };
    expect_word(b"define".as_slice(), head)?;
    let name = title(alloc, b"domain".as_slice(), second)?;
    with_sections(alloc, bare_domain(alloc, name), rest)
}

#[tactic(auto, using(crate::proofs::Nodes::section_nodes))]
fn domain_text(alloc: Global, tree: &Sexp) -> Result<DomainForm, ShapeError>
    ensures ok { IfOk result (λ it. domain_text tree.now ≡ parsed it) }
    ensures err { IfErr result (λ e. ¬ (e ≡ ShapeError.Memory) → first (domain_text tree.now) ≡ Some e) }
{
    match tree {
        Sexp::Leaf(_) => Err(misfit(tree)),
        Sexp::Group(place, items) => in_domain_text(alloc, *place, items.as_slice()),
    }
}

/// The shape of a domain text (PDDL 2.1, Fox and Long 2003, appendix A; PDDL 3.1 for functions and constraints).
///
/// Errors: `Expected` at the first token or bracket that doesn't fit, at the bracket that lacks something, or at 1:1
/// where there is no tree; `LeftOut` at what isn't read; `Duplicate` at a second section or key that may stand once;
/// `Memory`.
#[tactic(auto, using(crate::proofs::Steps::steps))]
pub fn domain_form(alloc: Global, trees: &List<Sexp>) -> Result<DomainForm, ShapeError>
    ensures form { IfOk result (λ it. domain trees.now ≡ parsed it) }
    ensures fault { IfErr result (λ e. ¬ (e ≡ ShapeError.Memory) → first (domain trees.now) ≡ Some e) }
{
    let Some((tree, others)) = trees.as_slice().split_first() else {
        return Err(ShapeError::Expected {
            place: Place { line: 1, column: 1 },
        });
    };
    let form = domain_text(alloc, tree)?;
    match no_extra(others) {
        Ok(()) => Ok(form),
        Err(fault) => {
            drop(form);
            Err(fault)
        }
    }
}
