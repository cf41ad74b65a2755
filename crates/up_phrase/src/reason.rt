ghost use Rattle.std.specs.Prelude.{◌≡◌};
ghost use Rattle.up_phrase.specs.Reasons.{reason_word};

/// Why a text is refused.
#[derive(Clone, Copy, Debug, PartialEq, Eq)]
pub enum Reason {
    /// A byte that begins no token.
    BadByte,
    /// A number with too many digits, or with a byte of a name or a point directly after it.
    BadNumber,
    /// The innermost bracket that is open at the end.
    Unclosed,
    /// A `)` without its `(`.
    Unopened,
    /// The first `(` inside 200 brackets.
    TooDeep,
    /// What doesn't fit the form.
    Expected,
    /// A part of PDDL that isn't read.
    LeftOut,
    /// A name or variable that isn't declared.
    UnknownName,
    /// A second declaration, or a second value of one term.
    Duplicate,
    /// Another number of arguments than declared.
    Arity,
    /// A type that isn't under the declared one, or a number in the place of an object or the other way round.
    TypeMismatch,
    /// A type whose chain of parents doesn't reach `object`.
    TypeCycle,
    /// An object function in a metric.
    MetricTerm,
    /// The problem names another domain.
    WrongDomain,
}

impl Reason {
    /// The reason as it is printed: its words in lower case, joined by `-`.
    pub fn word(self) -> &'static str
        ensures { result.now ≡ reason_word self }
    {
        match self {
            Reason::BadByte => "bad-byte",
            Reason::BadNumber => "bad-number",
            Reason::Unclosed => "unclosed",
            Reason::Unopened => "unopened",
            Reason::TooDeep => "too-deep",
            Reason::Expected => "expected",
            Reason::LeftOut => "left-out",
            Reason::UnknownName => "unknown-name",
            Reason::Duplicate => "duplicate",
            Reason::Arity => "arity",
            Reason::TypeMismatch => "type-mismatch",
            Reason::TypeCycle => "type-cycle",
            Reason::MetricTerm => "metric-term",
            Reason::WrongDomain => "wrong-domain",
        }
    }
}
