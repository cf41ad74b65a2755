ghost use Rattle.std.specs.Prelude.{◌≡◌, sum_by};
ghost use Rattle.std.specs.Option.{option_copied};
ghost use Rattle.up_tree.specs.Objects.{world, is_below, is_of, chain, type_in};
ghost use Rattle.up_tree.specs.Sizes.{cut, action_size, problem_size};
ghost use Rattle.up_text.specs.Names.{same_name};
ghost use Rattle.std.specs.List.{list_any};

use crate::action::Action;
use crate::expr::Expr;
use crate::formula::Formula;
use crate::term::Typed;
use std::marker::Model;
use up_frac::Frac;
use up_text::{List, Name};

/// A predicate, with the types of its arguments.
#[derive(Debug, Drop)]
pub struct Predicate {
    pub name: Name,
    pub args: List<Name>,
}

/// What a function gives: a number, or an object of a type.
#[derive(Debug, Drop)]
pub enum Gives {
    Number,
    Object(Name),
}

/// A function, with the types of its arguments.
#[derive(Debug, Drop)]
pub struct Function {
    pub name: Name,
    pub args: List<Name>,
    pub gives: Gives,
}

/// An atom that is true initially.
#[derive(Debug, Drop)]
pub struct Fact {
    pub predicate: Name,
    pub args: List<Name>,
}

/// The number that a function has initially.
#[derive(Drop)]
pub struct NumberFact {
    pub function: Name,
    pub args: List<Name>,
    pub value: Frac,
}

/// The object that a function has initially.
#[derive(Debug, Drop)]
pub struct ValueFact {
    pub function: Name,
    pub args: List<Name>,
    pub value: Name,
}

/// What a plan is to make least or greatest: the value of an expression in its last state.
#[derive(Drop)]
pub struct Metric {
    pub minimize: bool,
    pub value: Expr,
}

/// A trajectory constraint (PDDL 3.0 and 3.1: `always`, `sometime`, `at-most-once`, `sometime-after`, `sometime-before`), which
/// the states of a plan's run have to keep.
#[derive(Drop)]
pub enum Rule {
    Always(Formula),
    Sometime(Formula),
    AtMostOnce(Formula),
    SometimeAfter(Formula, Formula),
    SometimeBefore(Formula, Formula),
}

/// A trajectory constraint for each typed tuple of `vars`.
#[derive(Drop)]
pub struct Constraint {
    pub vars: List<Typed>,
    pub rule: Rule,
}

/// The parts of a problem. Types stand beside their parents, objects beside their types.
#[derive(Drop)]
pub struct Parts {
    pub domain: Name,
    pub name: Name,
    pub types: List<Typed>,
    /// How many of the objects are the domain's.
    pub constants: usize,
    pub objects: List<Typed>,
    pub predicates: List<Predicate>,
    pub functions: List<Function>,
    pub atoms: List<Fact>,
    pub numbers: List<NumberFact>,
    pub values: List<ValueFact>,
    pub actions: List<Action>,
    pub goal: Formula,
    pub metric: Option<Metric>,
    pub constraints: List<Constraint>,
}

/// A problem, which contracts see as its parts.
#[derive(Drop)]
pub struct Problem {
    parts: Parts,
}

impl Model for Problem {
    ghost use Rattle.up_tree.specs.declared.problem.Parts.{Parts};

    ghost Value = { Parts };

    ghost use Rattle.std.specs.Coded.{codes};
    ghost use Rattle.up_tree.specs.contracts.expr.Expr as expr;
    ghost use Rattle.up_tree.specs.contracts.formula.Formula as formula;
    ghost use Rattle.up_tree.specs.contracts.term.Term as term;

    ghost coded = { Prim.hlevel (codes, expr.the_row.coded, formula.the_row.coded, term.the_row.coded) };

    ghost view = { λ problem. problem.parts };
}

impl Problem {
    /// The problem of these parts.
    pub fn new(parts: Parts) -> Problem
        ensures { result ≡ parts }
    {
        Problem { parts }
    }

    /// Its parts.
    pub fn parts(&self) -> &Parts
        ensures { result.now ≡ self.now }
    {
        &self.parts
    }

    /// How many nodes its actions and its goal have, up to the greatest `u64`.
    pub fn size(&self) -> u64
        ensures { result ≡ cut (problem_size self.now) }
    {
        action_sizes(self.parts().actions.as_slice()).saturating_add(self.parts().goal.size())
    }

    /// Whether the type `below` is `above`, or has it among its parents.
    pub fn is_below(&self, below: &Name, above: &Name) -> bool
        ensures { result ≡ is_below (world self.now) below.now above.now }
    {
        let types = self.parts().types.as_slice();
        reaches(types, types.len(), below, above)
    }

    /// Whether an object's type is `of` or stands below it. No for what is no object.
    pub fn is_of(&self, object: &Name, of: &Name) -> bool
        ensures { result ≡ is_of (world self.now) object.now of.now }
    {
        match type_in(self.parts().objects.as_slice(), object) {
            None => false,
            Some(below) => self.is_below(below, of),
        }
    }
}

fn action_sizes(actions: &[Action]) -> u64
    ensures { result ≡ cut (sum_by action_size actions.now) }
{
    let mut size = 0;
    for action in actions {
        size = action.size().saturating_add(size);
    }
    size
}

/// The type beside a name.
fn type_in<'a>(entries: &'a [Typed], name: &Name) -> Option<&'a Name>
    ensures { option_copied result ≡ type_in entries.now name.now }
{
    for entry in entries {
        if &entry.name == name {
            return Some(&entry.of);
        }
    }
    None
}

/// Whether a type or one of its next parents, at most `left` of them, is `above`.
fn reaches(types: &[Typed], left: usize, below: &Name, above: &Name) -> bool
    ensures { result ≡ list_any (same_name above.now) (chain types.now left below.now) }
{
    if above == below {
        return true;
    }
    if left == 0 {
        return false;
    }
    match type_in(types, below) {
        None => false,
        Some(parent) => reaches(types, left - 1, parent, above),
    }
}

/// A step of a plan: an action at objects.
#[derive(Debug, Drop)]
pub struct Step {
    pub action: Name,
    pub args: List<Name>,
}

/// A plan: its steps in order.
#[derive(Debug, Drop)]
pub struct Plan {
    pub steps: List<Step>,
}
