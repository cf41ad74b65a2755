ghost use Rattle.std.specs.Prelude.{◌≡◌, [], IfOk, IfErr, OnOk};
ghost use Rattle.pddl_lex.specs.Faults.{faults_to_depth};
ghost use Rattle.pddl_lex.specs.Parses.{parsed};
ghost use Rattle.pddl_parse.specs.Texts.{domain, problem};
ghost use Rattle.up_check.specs.Domains.{domain_names, known_of};
ghost use Rattle.up_check.specs.Passes.{AreShallow, FirstFault, FormStops, HasDomain, HasForm, HaveForms, IsForm, NamesStop, ReadsAs, Reads, StopsInDomain, StopsInProblem};
ghost use Rattle.up_check.specs.Problems.{problem_names};
ghost use Rattle.up_check.specs.Refusals.{bare_refused, bytes_refused, refused, shape_refused};

use crate::domain::{Domain, checked_domain};
use crate::problem::checked_problem;
use crate::refusal::{File, ReadError};
use pddl_lex::{LexError, brackets};
use pddl_parse::{DomainForm, ProblemForm, ShapeError, domain_form, problem_form};
use std::alloc::Global;
use up_phrase::{Fault, Reason};
use up_text::Place;
use up_tree::Problem;

/// The problem that two texts of PDDL read as (PDDL 2.1, Fox and Long 2003; PDDL 3.1).
///
/// Errors: `Refused` with the first fault, of the domain text before the problem text and of its bytes and brackets before its
/// forms before its names; `Memory`.
pub fn read_problem(alloc: Global, domain: &[u8], problem: &[u8]) -> Result<Problem, ReadError>
    ensures reads { IfOk result (Reads domain.now problem.now) }
    ensures depth { OnOk result (AreShallow domain.now problem.now) }
    ensures forms { OnOk result (HaveForms domain.now problem.now) }
    ensures refused { IfErr result (λ refusal. ¬ (refusal ≡ ReadError.Memory) → FirstFault domain.now problem.now refusal) }
{
    match domain_of(alloc, domain) {
        Ok(domain) => problem_of(alloc, domain, problem),
        Err(refusal) => Err(refusal),
    }
}

// The domain of a text.
fn domain_of(alloc: Global, text: &[u8]) -> Result<Domain, ReadError>
    ensures reads { IfOk result (λ made. HasDomain text.now (known_of made)) }
    ensures form { OnOk result (IsForm domain text.now) }
    ensures refused { IfErr result (λ refusal. ¬ (refusal ≡ ReadError.Memory) → StopsInDomain text.now refusal) }
{
    match domain_form_of(alloc, text) {
        Ok(form) => {
            let made = named_domain(alloc, &form);
            drop(form);
            made
        }
        Err(refusal) => Err(refusal),
    }
}

// The problem of a text, whose domain was read.
fn problem_of(alloc: Global, domain: Domain, text: &[u8]) -> Result<Problem, ReadError>
    ensures reads { IfOk result (ReadsAs problem (problem_names (known_of domain)) text.now) }
    ensures depth { OnOk result (faults_to_depth text.now ≡ []) }
    ensures form { OnOk result (IsForm problem text.now) }
    ensures refused { IfErr result (λ refusal. ¬ (refusal ≡ ReadError.Memory) → StopsInProblem (known_of domain) text.now refusal) }
{
    match problem_form_of(alloc, text) {
        Ok(form) => {
            let made = named_problem(alloc, domain, &form);
            drop(form);
            made
        }
        Err(refusal) => {
            drop(domain);
            Err(refusal)
        }
    }
}

#[tactic(auto, using(crate::proofs::Passes::naming))]
fn named_domain(alloc: Global, form: &DomainForm) -> Result<Domain, ReadError>
    ensures ok { IfOk result (λ made. domain_names form.now ≡ parsed (known_of made)) }
    ensures refused { IfErr result (λ refusal. ¬ (refusal ≡ ReadError.Memory) → NamesStop domain_names File.Domain form.now refusal) }
{
    match checked_domain(alloc, form) {
        Ok(domain) => Ok(domain),
        Err(fault) => Err(refused(File::Domain, fault)),
    }
}

#[tactic(auto, using(crate::proofs::Passes::naming))]
fn named_problem(alloc: Global, domain: Domain, form: &ProblemForm) -> Result<Problem, ReadError>
    ensures ok { IfOk result (λ made. problem_names (known_of domain) form.now ≡ parsed made) }
    ensures refused { IfErr result (λ refusal. ¬ (refusal ≡ ReadError.Memory) → NamesStop (problem_names (known_of domain)) File.Problem form.now refusal) }
{
    match checked_problem(alloc, domain, form) {
        Ok(problem) => Ok(problem),
        Err(fault) => Err(refused(File::Problem, fault)),
    }
}

// The form of a domain text.
#[tactic(auto, using(crate::proofs::Passes::passes))]
fn domain_form_of(alloc: Global, text: &[u8]) -> Result<DomainForm, ReadError>
    ensures form { IfOk result (HasForm domain text.now) }
    ensures refused { IfErr result (λ refusal. ¬ (refusal ≡ ReadError.Memory) → FormStops domain File.Domain text.now refusal) }
{
    let trees = match brackets(alloc, text) {
        Ok(trees) => trees,
        Err(fault) => return Err(bytes_refused(File::Domain, fault)),
    };
    match domain_form(alloc, &trees) {
        Ok(form) => Ok(form),
        Err(fault) => Err(shape_refused(File::Domain, fault)),
    }
}

// The form of a problem text.
#[tactic(auto, using(crate::proofs::Passes::passes))]
fn problem_form_of(alloc: Global, text: &[u8]) -> Result<ProblemForm, ReadError>
    ensures form { IfOk result (HasForm problem text.now) }
    ensures refused { IfErr result (λ refusal. ¬ (refusal ≡ ReadError.Memory) → FormStops problem File.Problem text.now refusal) }
{
    let trees = match brackets(alloc, text) {
        Ok(trees) => trees,
        Err(fault) => return Err(bytes_refused(File::Problem, fault)),
    };
    match problem_form(alloc, &trees) {
        Ok(form) => Ok(form),
        Err(fault) => Err(shape_refused(File::Problem, fault)),
    }
}

fn bare_refused(file: File, place: Place, reason: Reason) -> ReadError
    ensures { result ≡ bare_refused file place reason }
{
    ReadError::Refused {
        file,
        place,
        reason,
        name: None,
    }
}

fn bytes_refused(file: File, fault: LexError) -> ReadError
    ensures { result ≡ bytes_refused file fault }
{
    match fault {
        LexError::Memory => ReadError::Memory,
        LexError::BadByte { place } => bare_refused(file, place, Reason::BadByte),
        LexError::BadNumber { place } => bare_refused(file, place, Reason::BadNumber),
        LexError::Unopened { place } => bare_refused(file, place, Reason::Unopened),
        LexError::TooDeep { place } => bare_refused(file, place, Reason::TooDeep),
        LexError::Unclosed { place } => bare_refused(file, place, Reason::Unclosed),
    }
}

fn shape_refused(file: File, fault: ShapeError) -> ReadError
    ensures { result ≡ shape_refused file fault }
{
    match fault {
        ShapeError::Memory => ReadError::Memory,
        ShapeError::Expected { place } => bare_refused(file, place, Reason::Expected),
        ShapeError::LeftOut { place } => bare_refused(file, place, Reason::LeftOut),
        ShapeError::Duplicate { place } => bare_refused(file, place, Reason::Duplicate),
    }
}

fn refused(file: File, fault: Fault) -> ReadError
    ensures { result ≡ refused file fault }
{
    match fault {
        Fault::Memory => ReadError::Memory,
        Fault::At {
            place,
            reason,
            name,
        } => ReadError::Refused {
            file,
            place,
            reason,
            name,
        },
    }
}
