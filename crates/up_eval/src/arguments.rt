ghost use Rattle.std.specs.Prelude.{◌≡◌, ◌&&◌, IfOk, IfErr, IfSome, OnOk, Some, is_some};
ghost use Rattle.up_text.specs.Names.{same_name};
ghost use Rattle.up_tree.specs.Objects.{world, named, is_below, action_named};
ghost use Rattle.up_eval.specs.Arguments.{are_known, is_object_of, are_typed};
ghost use Rattle.up_eval.specs.Index.{IsIndexOf};
ghost use Rattle.up_eval.specs.Steps.{Fits, IsIllTyped};

use crate::index::{Index, action_named, is_below, object_named};
use crate::step_error::StepError;
use up_text::Name;
use up_tree::{Action, Problem, Step, Typed};

fn are_known(p: &Problem, index: Option<&Index<'_>>, args: &[Name]) -> bool
    requires { IfSome index (λ it. IsIndexOf p.now it.now) }
    ensures { result ≡ are_known (world p.now) args.now }
{
    for arg in args {
        if object_named(p, index, arg).is_none() {
            return false;
        }
    }
    true
}

// Whether an object has the name, and stands at or below the type.
fn is_named_below(p: &Problem, object: &Typed, name: &Name, of: &Name) -> bool
    ensures { result ≡ (same_name object.now.name name.now && is_below (world p.now) object.now.of of.now) }
{
    &object.name == name && p.is_below(&object.of, of)
}

// Whether the list of objects has one of the name at or below the type.
fn is_listed_below(p: &Problem, name: &Name, of: &Name) -> bool
    ensures { result ≡ is_object_of (world p.now) of.now p.now.objects name.now }
{
    let objects = p.parts().objects.as_slice();
    objects
        .iter()
        .any(|object| is_named_below(p, object, name, of))
}

// Whether a type has an object of the name. The list is searched only where the first object of the name is of another type, which
// in a well-formed problem is the only one.
#[tactic(auto, using(crate::proofs::Indexing::by_first))]
fn is_object_of(p: &Problem, index: Option<&Index<'_>>, name: &Name, of: &Name) -> bool
    requires { IfSome index (λ it. IsIndexOf p.now it.now) }
    ensures { result ≡ is_object_of (world p.now) of.now p.now.objects name.now }
{
    match object_named(p, index, name) {
        Some(object) => is_below(p, index, &object.of, of) || is_listed_below(p, name, of),
        None => false,
    }
}

// Whether each argument is of the type of the parameter at its place.
fn are_typed(p: &Problem, index: Option<&Index<'_>>, args: &[Name], params: &[Typed]) -> bool
    requires { IfSome index (λ it. IsIndexOf p.now it.now) }
    ensures { result ≡ are_typed (world p.now) args.now params.now }
{
    let mut left = params;
    for arg in args {
        let Some((param, others)) = left.split_first() else {
            return true;
        };
        if !is_object_of(p, index, arg, &param.of) {
            return false;
        }
        left = others;
    }
    true
}

/// The action that the step names, where each argument is known and they fit its parameters.
#[tactic(auto, using(crate::proofs::Fitting::fitting))]
pub(crate) fn fitting_action<'a>(
    p: &'a Problem,
    index: Option<&Index<'a>>,
    step: &Step,
) -> Result<&'a Action, StepError>
    requires { IfSome index (λ it. IsIndexOf p.now it.now) }
    ensures action { IfOk result (λ action. action_named p.now step.now.action ≡ Some action.now) }
    ensures fits { OnOk result (Fits p.now step.now) }
    ensures refused { IfErr result (IsIllTyped p.now step.now) }
{
    let args = step.args.as_slice();
    let Some(action) = action_named(p, index, &step.action) else {
        return Err(StepError::Unknown);
    };
    if !are_known(p, index, args) {
        return Err(StepError::Unknown);
    }
    if args.len() != action.params.len() {
        return Err(StepError::Arity);
    }
    if !are_typed(p, index, args, action.params.as_slice()) {
        return Err(StepError::ArgumentType);
    }
    Ok(action)
}
