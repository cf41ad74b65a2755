ghost use Rattle.std.specs.Prelude.{◌≡◌, [], ◌∷◌, ◌++◌, IfOk};
ghost use Rattle.std.specs.Option.{option_copied};
ghost use Rattle.up_tree.specs.Objects.{world, assign, objects_of, tuples};
ghost use Rattle.up_eval.specs.Scope.{assignment_of, with_first, products};

use std::alloc::Global;
use up_text::{List, Memory, Name};
use up_tree::{Problem, Typed};

/// A variable with its object.
#[derive(Debug, Drop)]
pub struct Binding {
    pub variable: Name,
    pub object: Name,
}

impl Binding {
    fn copy(&self, alloc: Global) -> Result<Binding, Memory>
        ensures { IfOk result (λ copy. copy ≡ self.now) }
    {
        Binding::new(alloc, &self.variable, &self.object)
    }

    fn new(alloc: Global, variable: &Name, object: &Name) -> Result<Binding, Memory>
        ensures variable { IfOk result (λ b. b.variable ≡ variable.now) }
        ensures object { IfOk result (λ b. b.object ≡ object.now) }
    {
        let variable = variable.copy(alloc)?;
        match object.copy(alloc) {
            Ok(object) => Ok(Binding { variable, object }),
            Err(memory) => {
                drop(variable);
                Err(memory)
            }
        }
    }
}

/// The object of the last binding of a variable.
pub(crate) fn bound<'a>(scope: &'a [Binding], name: &Name) -> Option<&'a Name>
    ensures { option_copied result ≡ assignment_of scope.now name.now }
{
    let mut found = None;
    for binding in scope {
        if &binding.variable == name {
            found = Some(&binding.object);
        }
    }
    found
}

fn copies(alloc: Global, scope: &[Binding]) -> Result<List<Binding>, Memory>
    ensures { IfOk result (λ copies. copies ≡ scope.now) }
{
    let mut copies = List::new(alloc);
    for binding in scope {
        copies.push(binding.copy(alloc)?)?;
    }
    Ok(copies)
}

/// The scope with each variable bound to the object at its place, as far as both lists go.
pub fn assigned(
    alloc: Global,
    vars: &[Typed],
    objects: &[Name],
    scope: &[Binding],
) -> Result<List<Binding>, Memory>
    ensures { IfOk result (λ inner. assignment_of inner ≡ assign vars.now objects.now (assignment_of scope.now)) }
{
    let mut inner = copies(alloc, scope)?;
    let mut left = objects;
    for var in vars {
        let Some((object, behind)) = left.split_first() else {
            return Ok(inner);
        };
        inner.push(Binding::new(alloc, &var.name, object)?)?;
        left = behind;
    }
    Ok(inner)
}

// The objects of a type, in the order of their declarations.
fn objects_of(alloc: Global, problem: &Problem, of: &Name) -> Result<List<Name>, Memory>
    ensures { IfOk result (λ objects. objects ≡ objects_of (world problem.now) of.now) }
{
    let mut objects = List::new(alloc);
    for object in problem.parts().objects.as_slice() {
        if problem.is_below(&object.of, of) {
            objects.push(object.name.copy(alloc)?)?;
        }
    }
    Ok(objects)
}

// An object before a tuple.
fn before(alloc: Global, object: &Name, rest: &[Name]) -> Result<List<Name>, Memory>
    ensures { IfOk result (λ tuple. tuple ≡ object.now ∷ rest.now) }
{
    let mut tuple = List::new(alloc);
    tuple.push(object.copy(alloc)?)?;
    for other in rest {
        tuple.push(other.copy(alloc)?)?;
    }
    Ok(tuple)
}

// The tuples that were there, and then the object before each of `rests`.
fn extended(
    alloc: Global,
    tuples: List<List<Name>>,
    object: &Name,
    rests: &[List<Name>],
) -> Result<List<List<Name>>, Memory>
    ensures { IfOk result (λ more. more ≡ tuples ++ with_first object.now rests.now) }
{
    let mut tuples = tuples;
    for rest in rests {
        tuples.push(before(alloc, object, rest.as_slice())?)?;
    }
    Ok(tuples)
}

fn products(
    alloc: Global,
    objects: &[Name],
    rests: &[List<Name>],
) -> Result<List<List<Name>>, Memory>
    ensures { IfOk result (λ tuples. tuples ≡ products objects.now rests.now) }
{
    let mut tuples = List::new(alloc);
    for object in objects {
        tuples = extended(alloc, tuples, object, rests)?;
    }
    Ok(tuples)
}

/// The lists with an object of each variable's type at its place, the last place varying fastest.
pub fn tuples(alloc: Global, problem: &Problem, vars: &[Typed]) -> Result<List<List<Name>>, Memory>
    ensures { IfOk result (λ them. them ≡ tuples (world problem.now) vars.now) }
{
    let Some((var, others)) = vars.split_first() else {
        return no_variables(alloc);
    };
    let rests = tuples(alloc, problem, others)?;
    let objects = objects_of(alloc, problem, &var.of)?;
    products(alloc, objects.as_slice(), rests.as_slice())
}

// The empty tuple alone.
fn no_variables(alloc: Global) -> Result<List<List<Name>>, Memory>
    ensures { IfOk result (λ them. them ≡ [] ∷ []) }
{
    let mut tuples = List::new(alloc);
    tuples.push(List::new(alloc))?;
    Ok(tuples)
}
