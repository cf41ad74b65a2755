ghost use Rattle.std.specs.Prelude.{◌≡◌, IfOk, option_and_then};
ghost use Rattle.std.specs.Option.{option_copied};
ghost use Rattle.up_tree.specs.State.{object_at};
ghost use Rattle.up_tree.specs.Value.{term_value, ground_at};
ghost use Rattle.up_eval.specs.Scope.{assignment_of};

use crate::ground::Ground;
use crate::scope::{Binding, bound};
use crate::state::State;
use std::alloc::Global;
use up_text::{List, Memory, Name};
use up_tree::Term;

fn option_copy(alloc: Global, name: Option<&Name>) -> Result<Option<Name>, Memory>
    ensures { IfOk result (λ copy. copy ≡ option_copied name.entry) }
{
    match name {
        Some(name) => Ok(Some(name.copy(alloc)?)),
        None => Ok(None),
    }
}

impl State {
    fn object_copy(&self, alloc: Global, term: Option<Ground>) -> Result<Option<Name>, Memory>
        ensures { IfOk result (λ object. object ≡ option_and_then (object_at self.now) term) }
    {
        match term {
            Some(term) => option_copy(alloc, self.object_at(&term)),
            None => Ok(None),
        }
    }

    /// The object that a term stands for, if it is defined.
    #[cycle(value)]
    #[tactic(auto, using(up_tree::proofs::Values::values))]
    pub(crate) fn value(
        &self,
        alloc: Global,
        scope: &[Binding],
        term: &Term,
    ) -> Result<Option<Name>, Memory>
        ensures { IfOk result (λ object. object ≡ term_value self.now (assignment_of scope.now) term.now) }
    {
        match term {
            Term::Var(name) => option_copy(alloc, bound(scope, name)),
            Term::Object(name) => Ok(Some(name.copy(alloc)?)),
            Term::Fluent(name, args) => {
                let ground = self.ground(alloc, scope, name, args.as_slice())?;
                self.object_copy(alloc, ground)
            }
        }
    }

    /// A name before the objects of its arguments, if they are defined.
    #[cycle(value)]
    pub(crate) fn ground(
        &self,
        alloc: Global,
        scope: &[Binding],
        name: &Name,
        args: &[Term],
    ) -> Result<Option<Ground>, Memory>
        ensures { IfOk result (λ key. key ≡ ground_at self.now (assignment_of scope.now) name.now args.now) }
    {
        let mut names = List::new(alloc);
        names.push(name.copy(alloc)?)?;
        for arg in args {
            match self.value(alloc, scope, arg)? {
                Some(object) => names.push(object)?,
                None => return Ok(None),
            }
        }
        Ok(Some(Ground::new(names)))
    }
}
