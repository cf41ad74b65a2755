ghost use Rattle.std.specs.Prelude.{◌≡◌};
ghost use Rattle.up_validate.specs.Watching.{start, always_next, sometime_next, once_next, after_next, before_next, is_kept};

use up_tree::Rule;

/// How a rule stands after some states of a run.
#[derive(Clone, Copy, Debug, PartialEq, Eq)]
pub(crate) enum Phase {
    /// It is kept where the run ends here.
    Fine,
    /// It is broken where the run ends here.
    Waiting,
    /// What may be true once is true now.
    Holding,
    /// It is kept where the run ends here, and is past its first time.
    Over,
    /// It is broken, whatever comes.
    Broken,
}

impl Phase {
    /// Before the first state.
    pub(crate) fn start(rule: &Rule) -> Phase
        ensures { result ≡ start rule.now }
    {
        match rule {
            Rule::Sometime(_) => Phase::Waiting,
            _ => Phase::Fine,
        }
    }

    pub(crate) fn always(self, holds: bool) -> Phase
        ensures { result ≡ always_next self holds }
    {
        match (self, holds) {
            (Phase::Fine, true) => Phase::Fine,
            _ => Phase::Broken,
        }
    }

    pub(crate) fn sometime(self, holds: bool) -> Phase
        ensures { result ≡ sometime_next self holds }
    {
        if holds { Phase::Fine } else { self }
    }

    pub(crate) fn at_most_once(self, holds: bool) -> Phase
        ensures { result ≡ once_next self holds }
    {
        match (self, holds) {
            (Phase::Fine, true) => Phase::Holding,
            (Phase::Holding, false) => Phase::Over,
            (Phase::Over, true) => Phase::Broken,
            _ => self,
        }
    }

    pub(crate) fn sometime_after(self, holds: bool, other: bool) -> Phase
        ensures { result ≡ after_next self holds other }
    {
        if other {
            Phase::Fine
        } else if holds {
            Phase::Waiting
        } else {
            self
        }
    }

    pub(crate) fn sometime_before(self, holds: bool, other: bool) -> Phase
        ensures { result ≡ before_next self holds other }
    {
        match (self, holds, other) {
            (Phase::Fine, true, _) => Phase::Broken,
            (Phase::Fine, false, true) => Phase::Over,
            _ => self,
        }
    }

    pub(crate) fn is_kept(self) -> bool
        ensures { result ≡ is_kept self }
    {
        !matches!(self, Phase::Waiting | Phase::Broken)
    }
}
