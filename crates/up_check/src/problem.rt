ghost use Rattle.std.specs.Prelude.{◌≡◌, ◌∷◌, [], Some, IfOk, IfErr};
ghost use Rattle.pddl_lex.specs.Parses.{parsed, first};
ghost use Rattle.up_phrase.specs.Conditions.{formula};
ghost use Rattle.up_phrase.specs.Declarations.{declarations};
ghost use Rattle.up_declare.specs.Declaring.{with_objects};
ghost use Rattle.up_check.specs.Domains.{known_of};
ghost use Rattle.up_check.specs.Metrics.{metric_of};
ghost use Rattle.up_check.specs.Problems.{composed, in_names, objects_on, parts, problem_names, stated, titles, wrong_domain};

use crate::constraint::push_constraints;
use crate::domain::Domain;
use crate::lists::{Declared, Initial, declared_lists, init_of};
use crate::metric::checked_metric;
use pddl_parse::{Ident, ProblemForm, RawFormula, RawGroup, RawMetric};
use std::alloc::Global;
use up_declare::declare_objects;
use up_phrase::{Fault, Names, Reason, Setting, checked_goal, named};
use up_text::{Box, List, Memory, Name};
use up_tree::{Action, Constraint, Formula, Metric, Parts, Problem};

/// What a problem text states beside its objects, after its domain's constraints. Boxes keep what is dropped at a fault small.
#[derive(Drop)]
pub struct Stated {
    pub init: Initial,
    pub goal: Box<Formula>,
    pub constraints: List<Constraint>,
    pub metric: Option<Box<Metric>>,
}

/// The names of a domain and a problem.
#[derive(Drop)]
pub struct Titles {
    pub domain: Name,
    pub problem: Name,
}

/// The problem of a form, by its sections in the order `:domain`, objects, init, goal, constraints, metric.
#[tactic(auto, using(up_phrase::proofs::Steps::steps))]
pub fn checked_problem(alloc: Global, domain: Domain, form: &ProblemForm) -> Result<Problem, Fault>
    ensures ok { IfOk result (λ made. problem_names (known_of domain) form.now ≡ parsed made) }
    ensures err { IfErr result (λ fault. ¬ (fault ≡ Fault.Memory) → first (problem_names (known_of domain) form.now) ≡ Some fault) }
{
    match check_domain(alloc, &domain.name, &form.domain) {
        Ok(()) => in_domain(alloc, domain, form),
        Err(fault) => {
            drop(domain);
            Err(fault)
        }
    }
}

// Answers `WrongDomain` at the name of another domain.
fn check_domain(alloc: Global, name: &Name, stated: &Ident) -> Result<(), Fault>
    ensures ok { IfOk result (λ _. wrong_domain name.now stated.now ≡ []) }
    ensures err { IfErr result (λ fault. ¬ (fault ≡ Fault.Memory) → wrong_domain name.now stated.now ≡ fault ∷ []) }
{
    if &stated.name == name {
        Ok(())
    } else {
        Err(named(alloc, stated.place, Reason::WrongDomain, &stated.name))
    }
}

#[tactic(auto, using(up_phrase::proofs::Steps::steps))]
fn in_domain(alloc: Global, domain: Domain, form: &ProblemForm) -> Result<Problem, Fault>
    ensures ok { IfOk result (λ made. objects_on (declarations domain.names) domain.actions domain.constraints form.now ≡ parsed made) }
    ensures err { IfErr result (λ fault. ¬ (fault ≡ Fault.Memory) →
        first (objects_on (declarations domain.names) domain.actions domain.constraints form.now) ≡ Some fault) }
{
    let Domain {
        names,
        actions,
        constraints,
        ..
    } = domain;
    let constants = names.objects.len();
    match with_objects(alloc, names, form.objects.as_slice()) {
        Ok(names) => in_names(alloc, constants, actions, constraints, form, names),
        Err(fault) => Err(fault),
    }
}

fn with_objects(alloc: Global, names: Names, groups: &[RawGroup]) -> Result<Names, Fault>
    ensures ok { IfOk result (λ made. with_objects groups.now (declarations names) ≡ parsed (declarations made)) }
    ensures err { IfErr result (λ fault. ¬ (fault ≡ Fault.Memory) → first (with_objects groups.now (declarations names)) ≡ Some fault) }
{
    let mut names = names;
    match declare_objects(alloc, &mut names, groups) {
        Ok(()) => Ok(names),
        Err(fault) => {
            drop(names);
            Err(fault)
        }
    }
}

// The problem where all objects are declared.
#[tactic(auto, using(up_phrase::proofs::Steps::steps))]
fn in_names(
    alloc: Global,
    constants: usize,
    actions: List<Action>,
    constraints: List<Constraint>,
    form: &ProblemForm,
    names: Names,
) -> Result<Problem, Fault>
    ensures ok { IfOk result (λ made. in_names constants actions constraints form.now (declarations names) ≡ parsed made) }
    ensures err { IfErr result (λ fault. ¬ (fault ≡ Fault.Memory) →
        first (in_names constants actions constraints form.now (declarations names)) ≡ Some fault) }
{
    match checked_statements(alloc, &names, constraints, form) {
        Ok(stated) => Ok(with_statements(alloc, constants, actions, form, names, stated)?),
        Err(fault) => {
            drop(names);
            Err(fault)
        }
    }
}

#[tactic(auto, using(crate::proofs::Following::following, up_phrase::proofs::Steps::steps))]
fn checked_statements(
    alloc: Global,
    names: &Names,
    constraints: List<Constraint>,
    form: &ProblemForm,
) -> Result<Stated, Fault>
    ensures ok { IfOk result (λ made. stated (declarations names.now) constraints form.now ≡ parsed made) }
    ensures err { IfErr result (λ fault. ¬ (fault ≡ Fault.Memory) → first (stated (declarations names.now) constraints form.now) ≡ Some fault) }
{
    let init = init_of(alloc, names, form.init.as_slice())?;
    let goal = goal_of(alloc, names, &form.goal)?;
    let constraints = push_constraints(alloc, names, &form.constraints, constraints)?;
    let metric = metric_of(alloc, names, &form.metric)?;
    Ok(Stated {
        init,
        goal,
        constraints,
        metric,
    })
}

fn goal_of(alloc: Global, names: &Names, goal: &RawFormula) -> Result<Box<Formula>, Fault>
    ensures ok { IfOk result (λ made. formula (declarations names.now) [] Setting.Plain goal.now ≡ parsed made) }
    ensures err { IfErr result (λ fault. ¬ (fault ≡ Fault.Memory) → first (formula (declarations names.now) [] Setting.Plain goal.now) ≡ Some fault) }
{
    Ok(Box::new(alloc, checked_goal(alloc, names, goal)?)?)
}

#[tactic(auto, using(up_phrase::proofs::Steps::steps))]
fn metric_of(
    alloc: Global,
    names: &Names,
    metric: &Option<RawMetric>,
) -> Result<Option<Box<Metric>>, Fault>
    ensures ok { IfOk result (λ made. metric_of (declarations names.now) metric.now ≡ parsed made) }
    ensures err { IfErr result (λ fault. ¬ (fault ≡ Fault.Memory) → first (metric_of (declarations names.now) metric.now) ≡ Some fault) }
{
    match metric {
        None => Ok(None),
        Some(raw) => Ok(Some(Box::new(alloc, checked_metric(alloc, names, raw)?)?)),
    }
}

fn with_statements(
    alloc: Global,
    constants: usize,
    actions: List<Action>,
    form: &ProblemForm,
    names: Names,
    stated: Stated,
) -> Result<Problem, Memory>
    ensures { IfOk result (λ made. made ≡ parts constants actions form.now (declarations names) stated) }
{
    match declared_lists(alloc, names) {
        Ok(declared) => with_lists(alloc, constants, actions, form, declared, stated),
        Err(memory) => {
            drop(stated);
            Err(memory)
        }
    }
}

fn with_lists(
    alloc: Global,
    constants: usize,
    actions: List<Action>,
    form: &ProblemForm,
    declared: Declared,
    stated: Stated,
) -> Result<Problem, Memory>
    ensures { IfOk result (λ made. made ≡ composed (titles form.now) constants declared actions stated) }
{
    match titles_of(alloc, form) {
        Ok(titles) => Ok(problem_of(titles, constants, declared, actions, stated)),
        Err(memory) => {
            drop(declared);
            drop(stated);
            Err(memory)
        }
    }
}

// The domain is the one that the form names.
fn titles_of(alloc: Global, form: &ProblemForm) -> Result<Titles, Memory>
    ensures { IfOk result (λ made. made ≡ titles form.now) }
{
    Ok(Titles {
        domain: form.domain.name.copy(alloc)?,
        problem: form.name.name.copy(alloc)?,
    })
}

fn problem_of(
    titles: Titles,
    constants: usize,
    declared: Declared,
    actions: List<Action>,
    stated: Stated,
) -> Problem
    ensures { result ≡ composed titles constants declared actions stated }
{
    let goal = stated.goal.into_inner();
    let metric = unboxed(stated.metric);
    Problem::new(Parts {
        domain: titles.domain,
        name: titles.problem,
        types: declared.types,
        constants,
        objects: declared.objects,
        predicates: declared.predicates,
        functions: declared.functions,
        atoms: stated.init.atoms,
        numbers: stated.init.numbers,
        values: stated.init.values,
        actions,
        goal,
        metric,
        constraints: stated.constraints,
    })
}

fn unboxed(metric: Option<Box<Metric>>) -> Option<Metric>
    ensures { result ≡ metric }
{
    match metric {
        None => None,
        Some(metric) => Some(metric.into_inner()),
    }
}
