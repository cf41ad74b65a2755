ghost use Rattle.std.specs.Prelude.{◌≡◌, ◌++◌, option_copied};
ghost use Rattle.up_tree.specs.Objects.{world, type_in, is_below};
ghost use Rattle.up_tree.specs.WellFormed.{term_type, gives_object};

use crate::tables::Tables;
use up_text::Name;
use up_tree::{Function, Gives, Term, Typed};

// The type that stands beside a name.
fn type_in<'a>(entries: &'a [Typed], name: &Name) -> Option<&'a Name>
    ensures { option_copied result ≡ type_in entries.now name.now }
{
    for entry in entries {
        if &entry.name == name {
            return Some(&entry.of);
        }
    }
    None
}

// Whether a type has the other among itself and its parents.
#[tactic(auto, using(crate::proofs::Chains::chains))]
pub(crate) fn is_below<'a>(tables: &Tables<'a>, of: &'a Name, above: &Name) -> bool
    ensures { result ≡ is_below (world tables.now) of.now above.now }
{
    let mut here = of;
    let mut steps = tables.parts().types.as_slice();
    'up: while let Some((_step, left)) = steps.split_first() {
        if above == here {
            return true;
        }
        match tables.parent_of(here) {
            None => return false,
            Some(parent) => {
                here = parent;
                steps = left;
            }
        }
    }
    above == here
}

fn gives_object(function: &Function) -> Option<&Name>
    ensures { option_copied result ≡ gives_object function.now.gives }
{
    match &function.gives {
        Gives::Number => None,
        Gives::Object(of) => Some(of),
    }
}

// The type of a term's value.
#[tactic(auto, using(crate::proofs::Chains::scopes))]
pub(crate) fn term_type<'a>(
    tables: &Tables<'a>,
    vars: &'a [Typed],
    params: &'a [Typed],
    term: &Term,
) -> Option<&'a Name>
    ensures { option_copied result ≡ term_type tables.now (vars.now ++ params.now) term.now }
{
    match term {
        Term::Var(name) => match type_in(vars, name) {
            Some(of) => Some(of),
            None => type_in(params, name),
        },
        Term::Object(name) => tables.type_of(name),
        Term::Fluent(name, _) => match tables.function_named(name) {
            Some(function) => gives_object(function),
            None => None,
        },
    }
}
