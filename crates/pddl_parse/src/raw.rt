use up_frac::Frac;
use up_text::{Box, List, Name, Place};

/// A name that stands in a text.
#[derive(Debug, Drop)]
pub struct Ident {
    pub name: Name,
    pub place: Place,
}

#[derive(Clone, Copy, Debug, PartialEq, Eq)]
pub enum Operator {
    Sum,
    Difference,
    Product,
    Quotient,
}

#[derive(Clone, Copy, Debug, PartialEq, Eq)]
pub enum Relation {
    Less,
    LessEqual,
    Same,
    GreaterEqual,
    Greater,
}

/// Names with one type, which is `object` where none is stated.
#[derive(Debug, Drop)]
pub struct RawGroup {
    pub names: List<Ident>,
    pub of: Option<Ident>,
}

/// An object term or an expression: which of these is due is not looked at.
#[derive(Drop)]
pub enum RawTerm {
    Name(Ident),
    Variable(Ident),
    Number(Place, Frac),
    Call(Place, Ident, List<RawTerm>),
    Arithmetic(Place, Operator, List<RawTerm>),
}

/// A condition.
#[derive(Drop)]
pub enum RawFormula {
    And(List<RawFormula>),
    Or(List<RawFormula>),
    Not(Box<RawFormula>),
    Imply(Box<RawFormula>, Box<RawFormula>),
    Exists(List<RawGroup>, Box<RawFormula>),
    Forall(List<RawGroup>, Box<RawFormula>),
    Atom(Place, Ident, List<RawTerm>),
    Compare(Place, Relation, RawTerm, RawTerm),
}

/// A predicate or a function at arguments, with the place of its bracket.
#[derive(Drop)]
pub struct RawCall {
    pub place: Place,
    pub name: Ident,
    pub args: List<RawTerm>,
}

/// How an effect changes the value of a function.
#[derive(Clone, Copy, Debug, PartialEq, Eq)]
pub enum RawChange {
    Assign,
    Increase,
    Decrease,
    ScaleUp,
    ScaleDown,
}

/// An effect, nested as it is written.
#[derive(Drop)]
pub enum RawEffect {
    And(List<RawEffect>),
    Forall(List<RawGroup>, Box<RawEffect>),
    When(RawFormula, Box<RawEffect>),
    Add(RawCall),
    Delete(RawCall),
    Change(RawChange, RawCall, RawTerm),
    /// The place is that of the word `undefined`.
    Undefine(RawCall, Place),
}

/// An action, in which a missing key is empty.
#[derive(Drop)]
pub struct RawAction {
    pub name: Ident,
    pub params: List<RawGroup>,
    pub pre: RawFormula,
    pub effect: RawEffect,
}

/// A predicate or a function as it is declared.
#[derive(Debug, Drop)]
pub struct RawSymbol {
    pub name: Ident,
    pub params: List<RawGroup>,
}

/// The type that a function is declared with.
#[derive(Debug, Drop)]
pub enum RawGives {
    Number,
    Object(Ident),
}

/// Functions with one type, which is `number` where none is stated.
#[derive(Debug, Drop)]
pub struct RawFunctions {
    pub functions: List<RawSymbol>,
    pub gives: RawGives,
}

/// A constraint, nested as it is written.
#[derive(Drop)]
pub enum RawConstraint {
    And(List<RawConstraint>),
    Forall(List<RawGroup>, Box<RawConstraint>),
    Always(Box<RawFormula>),
    Sometime(Box<RawFormula>),
    AtMostOnce(Box<RawFormula>),
    SometimeAfter(Box<RawFormula>, Box<RawFormula>),
    SometimeBefore(Box<RawFormula>, Box<RawFormula>),
}

/// A predicate or a function at names, with the place of its bracket.
#[derive(Debug, Drop)]
pub struct RawGround {
    pub place: Place,
    pub name: Ident,
    pub args: List<Ident>,
}

#[derive(Debug, Drop)]
pub enum RawValue {
    Number(Place, Frac),
    Object(Ident),
}

/// A member of the initial state.
#[derive(Debug, Drop)]
pub enum RawInit {
    Atom(RawGround),
    /// `(not (p ..))`, which states nothing.
    Absent(RawGround),
    /// `(= (f ..) v)`, with the place of its bracket.
    Value(Place, RawGround, RawValue),
}

#[derive(Drop)]
pub struct RawMetric {
    pub minimize: bool,
    pub value: RawTerm,
}

/// The shape of a domain text; sections that aren't there are empty.
#[derive(Drop)]
pub struct DomainForm {
    pub name: Ident,
    pub types: List<RawGroup>,
    pub constants: List<RawGroup>,
    pub predicates: List<RawSymbol>,
    pub functions: List<RawFunctions>,
    pub actions: List<RawAction>,
    pub constraints: RawConstraint,
}

/// The shape of a problem text; sections that aren't there are empty.
#[derive(Drop)]
pub struct ProblemForm {
    pub name: Ident,
    pub domain: Ident,
    pub objects: List<RawGroup>,
    pub init: List<RawInit>,
    pub goal: RawFormula,
    pub constraints: RawConstraint,
    pub metric: Option<RawMetric>,
}
