ghost use Rattle.std.specs.Prelude.{◌≡◌, [], ◌∷◌, IfOk};

use std::alloc::Global;
use up_text::{Memory, Name};

/// A predicate or a function at objects.
#[derive(PartialEq, Eq, Hash, Debug, Drop)]
pub(crate) struct Ground {
    pub(crate) name: Name,
    pub(crate) args: Vec<Name>,
}

impl Ground {
    // The name with no object.
    pub(crate) fn bare(alloc: Global, name: &Name) -> Result<Ground, Memory>
        ensures name { IfOk result (λ made. made.name ≡ name.now) }
        ensures args { IfOk result (λ made. made.args.items ≡ []) }
    {
        Ok(Ground {
            name: name.copy(alloc)?,
            args: Vec::new(alloc),
        })
    }

    pub(crate) fn at(alloc: Global, name: &Name, args: &[Name]) -> Result<Ground, Memory>
        ensures name { IfOk result (λ made. made.name ≡ name.now) }
        ensures args { IfOk result (λ made. made.args.items ≡ args.now) }
    {
        let mut made = Vec::new(alloc);
        for arg in args {
            made.push(arg.copy(alloc)?)?;
        }
        Ok(Ground {
            name: name.copy(alloc)?,
            args: made,
        })
    }
}
