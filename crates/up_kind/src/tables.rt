ghost use Rattle.std.specs.Prelude.{◌≡◌, ◌||◌, ◌++◌, ◌∷◌, [], IfOk, OnOk};
ghost use Rattle.std.specs.Option.{option_copied, option_map};
ghost use Rattle.up_tree.specs.declared.term.Typed.{Typed};
ghost use Rattle.up_text.specs.Fresh.{is_among};
ghost use Rattle.up_tree.specs.Objects.{type_in, function_named};
ghost use Rattle.up_kind.specs.Values.{has_object};
ghost use Rattle.up_kind.specs.Tables.{under, HasTyped, HasFunctions, HasInhabited, Reaches, Marks, AddsNames};

use indexmap::IndexMap;
use std::alloc::Global;
use std::marker::Model;
use up_text::{List, Memory, Name, NameSet};
use up_tree::{Function, Parts, Typed};

/// A problem with its types, objects and functions by name, and the types that have an object.
#[derive(Drop)]
pub(crate) struct Tables<'a> {
    parts: &'a Parts,
    types: IndexMap<Name, &'a Typed>,
    objects: IndexMap<Name, &'a Typed>,
    functions: IndexMap<Name, &'a Function>,
    inhabited: NameSet,
}

impl<'a> Model for Tables<'a> {
    ghost use Rattle.up_tree.specs.declared.problem.Parts.{Parts};
    ghost use Rattle.std.specs.Coded.{codes};
    ghost use Rattle.up_tree.specs.contracts.expr.Expr as expr;
    ghost use Rattle.up_tree.specs.contracts.formula.Formula as formula;
    ghost use Rattle.up_tree.specs.contracts.term.Term as term;
    ghost use Rattle.up_kind.specs.Tables.{AreTables};

    ghost Value = { Parts };

    ghost coded = { Prim.hlevel (codes, expr.the_row.coded, formula.the_row.coded, term.the_row.coded) };

    ghost view = { λ tables. tables.parts.now };

    ghost invariant = { λ tables. AreTables tables.parts.now tables.types tables.objects tables.functions tables.inhabited };
}

impl<'a> Tables<'a> {
    pub(crate) fn new(alloc: Global, parts: &'a Parts) -> Result<Tables<'a>, Memory>
        ensures { IfOk result (λ tables. tables ≡ parts.now) }
    {
        let types = typed_by_name(alloc, parts.types.as_slice())?;
        let objects = typed_by_name(alloc, parts.objects.as_slice())?;
        let functions = functions_by_name(alloc, parts)?;
        let inhabited = inhabited_types(alloc, parts, &types)?;
        Ok(Tables {
            parts,
            types,
            objects,
            functions,
            inhabited,
        })
    }

    pub(crate) fn parts(&self) -> &'a Parts
        ensures { result.now ≡ self.now }
    {
        self.parts
    }

    // The type that stands beside a type.
    pub(crate) fn parent_of(&self, of: &Name) -> Option<&'a Name>
        ensures { option_copied result ≡ type_in self.now.types of.now }
    {
        type_under(&self.types, of)
    }

    // The type that stands beside an object.
    pub(crate) fn type_of(&self, object: &Name) -> Option<&'a Name>
        ensures { option_copied result ≡ type_in self.now.objects object.now }
    {
        type_under(&self.objects, object)
    }

    pub(crate) fn function_named(&self, name: &Name) -> Option<&'a Function>
        ensures { option_copied result ≡ function_named self.now name.now }
    {
        match self.functions.get(name) {
            None => None,
            Some(function) => Some(*function),
        }
    }

    // Whether an object is of the type or of one below it.
    pub(crate) fn has_object(&self, of: &Name) -> bool
        ensures { result ≡ has_object self.now of.now }
    {
        self.inhabited.has(of)
    }
}

fn type_under<'a>(table: &IndexMap<Name, &'a Typed>, name: &Name) -> Option<&'a Name>
    ensures { option_copied result ≡ option_map (λ (e : Typed). e.of) (under table.now name.now) }
{
    match table.get(name) {
        None => None,
        Some(entry) => Some(&entry.of),
    }
}

// Entries by their names, of each name the first. The last is put in first.
fn typed_by_name<'a>(
    alloc: Global,
    entries: &'a [Typed],
) -> Result<IndexMap<Name, &'a Typed>, Memory>
    ensures { IfOk result (λ table. HasTyped table entries.now) }
{
    let mut table = IndexMap::new(alloc);
    let mut rest = entries;
    'naming: while let Some((entry, others)) = rest.split_last() {
        table.insert(entry.name.copy(alloc)?, entry)?;
        rest = others;
    }
    Ok(table)
}

fn functions_by_name<'a>(
    alloc: Global,
    parts: &'a Parts,
) -> Result<IndexMap<Name, &'a Function>, Memory>
    ensures { IfOk result (λ table. HasFunctions table parts.now) }
{
    let mut table = IndexMap::new(alloc);
    let mut rest = parts.functions.as_slice();
    'naming: while let Some((function, others)) = rest.split_last() {
        table.insert(function.name.copy(alloc)?, function)?;
        rest = others;
    }
    Ok(table)
}

// The types that an object is of.
fn inhabited_types<'a>(
    alloc: Global,
    parts: &'a Parts,
    types: &IndexMap<Name, &'a Typed>,
) -> Result<NameSet, Memory>
    requires { HasTyped types.now parts.now.types }
    ensures { IfOk result (λ marks. HasInhabited parts.now marks) }
{
    let mut marks = NameSet::new(alloc);
    for object in parts.objects.as_slice() {
        mark(alloc, types, parts.types.as_slice(), &mut marks, &object.of)?;
    }
    Ok(marks)
}

// Marks a type and those above it.
fn mark<'a>(
    alloc: Global,
    types: &IndexMap<Name, &'a Typed>,
    declared: &'a [Typed],
    marks: &mut NameSet,
    of: &'a Name,
) -> Result<(), Memory>
    requires { HasTyped types.now declared.now }
    ensures { OnOk result (Marks declared.now marks.old marks.new of.now) }
{
    let path = path_to_marked(alloc, types, declared, marks, of)?;
    add_names(marks, path)
}

// A type and those above it, up to one that is marked.
fn path_to_marked<'a>(
    alloc: Global,
    types: &IndexMap<Name, &'a Typed>,
    declared: &'a [Typed],
    marks: &NameSet,
    of: &'a Name,
) -> Result<List<Name>, Memory>
    requires { HasTyped types.now declared.now }
    ensures { IfOk result (λ path. Reaches declared.now marks.now path of.now) }
{
    let mut path = List::new(alloc);
    let mut here = of;
    let mut steps = declared;
    'up: while let Some((_step, left)) = steps.split_first() {
        if marks.has(here) {
            return Ok(path);
        }
        add_copy(alloc, &mut path, here)?;
        match type_under(types, here) {
            None => return Ok(path),
            Some(parent) => {
                here = parent;
                steps = left;
            }
        }
    }
    add_copy(alloc, &mut path, here)?;
    Ok(path)
}

fn add_copy(alloc: Global, names: &mut List<Name>, name: &Name) -> Result<(), Memory>
    ensures { OnOk result (names.new ≡ names.old ++ name.now ∷ []) }
{
    let copy = name.copy(alloc)?;
    names.push(copy)
}

fn add_names(marks: &mut NameSet, names: List<Name>) -> Result<(), Memory>
    ensures { OnOk result (AddsNames marks.old names marks.new) }
{
    let mut names = names;
    'adding: while let Some(name) = names.pop() {
        marks.add(name)?;
    }
    Ok(())
}
