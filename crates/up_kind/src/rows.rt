ghost use Rattle.std.specs.Prelude.{◌≡◌, true, false, IfOk, OnOk, option_copied};
ghost use Rattle.std.specs.Prelude.{option_to_list};
ghost use Rattle.indexmap.specs.IndexMap.{get};
ghost use Rattle.up_kind.specs.Rows.{first_object, filed_by, is_delete, rows_of, HasAdds, Removes, AddsRow, Files};
ghost use Rattle.std.specs.Prelude.{map};
ghost use Rattle.std.specs.Borrow.{Bor};
ghost use Rattle.up_kind.specs.Keys.{same_ground};
ghost use Rattle.up_tree.specs.declared.action.Row.{Row};
ghost use Rattle.std.specs.List.{list_any};

use crate::ground::Ground;
use indexmap::IndexMap;
use std::alloc::Global;
use up_text::{List, Memory, Name};
use up_tree::{Effect, Row, Term};

/// The rows of an action that add atoms, by predicate, and by predicate with the object that stands first.
#[derive(Drop)]
pub(crate) struct Adds<'a> {
    pub(crate) by_predicate: IndexMap<Ground, List<&'a Row>>,
    pub(crate) by_object: IndexMap<Ground, List<&'a Row>>,
}

impl<'a> Adds<'a> {
    pub(crate) fn new(alloc: Global, rows: &'a [Row]) -> Result<Adds<'a>, Memory>
        ensures predicate { IfOk result (λ adds. HasAdds false adds.by_predicate rows.now) }
        ensures object { IfOk result (λ adds. HasAdds true adds.by_object rows.now) }
    {
        Ok(Adds {
            by_predicate: filed(alloc, false, rows)?,
            by_object: filed(alloc, true, rows)?,
        })
    }
}

// The object that stands first.
pub(crate) fn first_object(args: &[Term]) -> Option<&Name>
    ensures { option_to_list (option_copied result) ≡ first_object args.now }
{
    match args {
        [Term::Object(name), ..] => Some(name),
        _ => None,
    }
}

pub(crate) fn key_of(
    alloc: Global,
    split: bool,
    name: &Name,
    args: &[Term],
) -> Result<Ground, Memory>
    ensures name { IfOk result (λ key. key.name ≡ name.now) }
    ensures args { IfOk result (λ key. key.args.items ≡ filed_by split args.now) }
{
    let mut key = Ground::bare(alloc, name)?;
    if split {
        if let Some(object) = first_object(args) {
            key.args.push(object.copy(alloc)?)?;
        }
    }
    Ok(key)
}

// Takes the rows under a key out of a table.
#[tactic(auto, using(crate::proofs::Filing::removing))]
fn take_rows<'a>(
    alloc: Global,
    table: &mut IndexMap<Ground, List<&'a Row>>,
    key: &Ground,
) -> List<&'a Row>
    ensures rows { map (λ (r : Bor Row). r.now) result ≡ rows_of (get same_ground table.old key.now) }
    ensures others { Removes table.old table.new key.now }
{
    match table.swap_remove(key) {
        Some(rows) => rows,
        None => List::new(alloc),
    }
}

fn add_row<'a>(
    alloc: Global,
    table: &mut IndexMap<Ground, List<&'a Row>>,
    key: Ground,
    row: &'a Row,
) -> Result<(), Memory>
    ensures { OnOk result (AddsRow table.old table.new key row.now) }
{
    let mut rows = take_rows(alloc, table, &key);
    rows.push(row)?;
    table.insert(key, rows)?;
    Ok(())
}

// Files a row that adds an atom.
#[tactic(auto, using(crate::proofs::Filing::filing))]
fn file<'a>(
    alloc: Global,
    split: bool,
    table: &mut IndexMap<Ground, List<&'a Row>>,
    row: &'a Row,
) -> Result<(), Memory>
    ensures { OnOk result (Files split table.old table.new row.now) }
{
    match &row.effect {
        Effect::Add(name, args) => {
            let key = key_of(alloc, split, name, args.as_slice())?;
            add_row(alloc, table, key, row)?;
            Ok(())
        }
        Effect::Delete(..) => Ok(()),
        Effect::Number(..) => Ok(()),
        Effect::Object(..) => Ok(()),
        Effect::Undefine(..) => Ok(()),
    }
}

#[tactic(auto, using(crate::proofs::Filing::filing))]
fn filed<'a>(
    alloc: Global,
    split: bool,
    rows: &'a [Row],
) -> Result<IndexMap<Ground, List<&'a Row>>, Memory>
    ensures { IfOk result (λ table. HasAdds split table rows.now) }
{
    let mut table = IndexMap::new(alloc);
    for row in rows {
        file(alloc, split, &mut table, row)?;
    }
    Ok(table)
}

// Whether some row deletes an atom.
pub(crate) fn deletes_some(rows: &[Row]) -> bool
    ensures { result ≡ list_any (λ r. is_delete r.effect) rows.now }
{
    rows.iter().any(|row| is_delete(&row.effect))
}

fn is_delete(effect: &Effect) -> bool
    ensures { result ≡ is_delete effect.now }
{
    match effect {
        Effect::Delete(..) => true,
        _ => false,
    }
}
