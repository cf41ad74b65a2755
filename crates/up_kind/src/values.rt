ghost use Rattle.std.specs.Prelude.{◌≡◌, IfOk, OnOk};
ghost use Rattle.up_kind.specs.Carried.{has_value, is_total, gives_an_object};
ghost use Rattle.up_kind.specs.Values.{are_inhabited, covers, covers_with, HasValues};

use crate::ground::Ground;
use crate::tables::Tables;
use crate::types::is_below;
use indexmap::IndexSet;
use std::alloc::Global;
use up_text::{Memory, Name};
use up_tree::{Function, Gives, Typed, ValueFact};

// The functions at objects that have a value.
pub(crate) fn values_of(alloc: Global, values: &[ValueFact]) -> Result<IndexSet<Ground>, Memory>
    ensures { IfOk result (λ set. HasValues set values.now) }
{
    let mut set = IndexSet::new(alloc);
    for value in values {
        let key = Ground::at(alloc, &value.function, value.args.as_slice())?;
        set.insert(key)?;
    }
    Ok(set)
}

#[tactic(auto, using(crate::proofs::Totals::totals))]
fn are_inhabited(tables: &Tables, types: &[Name]) -> bool
    ensures { result ≡ are_inhabited tables.now types.now }
{
    for of in types {
        if !tables.has_object(of) {
            return false;
        }
    }
    true
}

// Whether each list that the arguments so far and objects of these types make has a value. It stops at the first that has none.
#[cycle(covering)]
#[tactic(auto, using(crate::proofs::Totals::totals))]
fn covers(
    alloc: Global,
    tables: &Tables,
    values: &IndexSet<Ground>,
    so_far: &mut Ground,
    types: &[Name],
) -> Result<bool, Memory>
    requires { HasValues values.now tables.now.values }
    ensures covers { IfOk result (λ all. all ≡ covers tables.now so_far.old.name so_far.old.args.items types.now) }
    ensures name { OnOk result (so_far.new.name ≡ so_far.old.name) }
    ensures args { OnOk result (so_far.new.args.items ≡ so_far.old.args.items) }
{
    match types.split_first() {
        None => Ok(values.contains(&*so_far)),
        Some((of, behind)) => {
            for object in tables.parts().objects.as_slice() {
                if !covers_with(alloc, tables, values, so_far, object, of, behind)? {
                    return Ok(false);
                }
            }
            Ok(true)
        }
    }
}

// The same of the arguments so far with an object besides, where that is of the type.
#[cycle(covering)]
#[tactic(auto, using(crate::proofs::Totals::totals))]
fn covers_with(
    alloc: Global,
    tables: &Tables,
    values: &IndexSet<Ground>,
    so_far: &mut Ground,
    object: &Typed,
    of: &Name,
    types: &[Name],
) -> Result<bool, Memory>
    requires { HasValues values.now tables.now.values }
    ensures covers { IfOk result (λ all. all ≡ covers_with tables.now so_far.old.name so_far.old.args.items types.now of.now object.now) }
    ensures name { OnOk result (so_far.new.name ≡ so_far.old.name) }
    ensures args { OnOk result (so_far.new.args.items ≡ so_far.old.args.items) }
{
    if !is_below(tables, &object.of, of) {
        return Ok(true);
    }
    so_far.args.push(object.name.copy(alloc)?)?;
    let all = covers(alloc, tables, values, so_far, types)?;
    drop(so_far.args.pop());
    Ok(all)
}

pub(crate) fn gives_an_object(function: &Function) -> bool
    ensures { result ≡ gives_an_object function.now }
{
    match &function.gives {
        Gives::Number => false,
        Gives::Object(_) => true,
    }
}

// Whether each typed ground instance of the function has an initial value.
#[tactic(auto, using(crate::proofs::Totals::totals), unfolding(crate::specs::Values::covers))]
pub(crate) fn is_total(
    alloc: Global,
    tables: &Tables,
    values: &IndexSet<Ground>,
    function: &Function,
) -> Result<bool, Memory>
    requires { HasValues values.now tables.now.values }
    ensures { IfOk result (λ total. total ≡ is_total tables.now function.now) }
{
    let types = function.args.as_slice();
    if !are_inhabited(tables, types) {
        return Ok(true);
    }
    let mut so_far = Ground::bare(alloc, &function.name)?;
    covers(alloc, tables, values, &mut so_far, types)
}
