ghost use Rattle.std.specs.Prelude.{◌≡◌, List as Sequence, [], ◌∷◌, true, false, Some, IfOk, IfErr, map};
ghost use Rattle.pddl_lex.specs.declared.tree.Sexp.{Sexp};
ghost use Rattle.up_text.specs.declared.place.Place.{Place};
ghost use Rattle.pddl_lex.specs.Parses.{parsed, first, all, before};
ghost use Rattle.pddl_parse.specs.Symbols.{GoOn, in_symbol, symbol, predicates, gives, declared, declared_step, minus_after, one_more, last_functions, functions};

use crate::bracket::is_word;
use crate::ident::ident;
use crate::raw::{RawFunctions, RawGives, RawSymbol};
use crate::shape::{ShapeError, misfit, misfit_group};
use crate::typed::{Item, ends_in_minus, is_minus, typed};
use pddl_lex::Sexp;
use std::alloc::Global;
use up_text::{List, Place};

#[tactic(auto, using(crate::proofs::Steps::steps))]
fn in_symbol(alloc: Global, place: Place, items: &[Sexp]) -> Result<RawSymbol, ShapeError>
    ensures ok { IfOk result (λ it. in_symbol place items.now ≡ parsed it) }
    ensures err { IfErr result (λ e. ¬ (e ≡ ShapeError.Memory) → first (in_symbol place items.now) ≡ Some e) }
{
    let Some((head, rest)) = items.split_first() else {
        return Err(ShapeError::Expected { place });
    };
    if ends_in_minus(rest) {
        return Err(misfit_group(place, items));
    }
    let name = ident(alloc, head)?;
    let params = typed(alloc, Item::Variable, place, rest)?;
    Ok(RawSymbol { name, params })
}

#[tactic(auto, using(crate::proofs::Nodes::marks))]
fn symbol(alloc: Global, tree: &Sexp) -> Result<RawSymbol, ShapeError>
    ensures ok { IfOk result (λ it. symbol tree.now ≡ parsed it) }
    ensures err { IfErr result (λ e. ¬ (e ≡ ShapeError.Memory) → first (symbol tree.now) ≡ Some e) }
{
    match tree {
        Sexp::Leaf(_) => Err(misfit(tree)),
        Sexp::Group(place, items) => in_symbol(alloc, *place, items.as_slice()),
    }
}

/// The predicates of a section.
#[tactic(auto, using(crate::proofs::Steps::steps))]
pub fn predicates(alloc: Global, items: &[Sexp]) -> Result<List<RawSymbol>, ShapeError>
    ensures ok { IfOk result (λ them. predicates items.now ≡ parsed them) }
    ensures err { IfErr result (λ e. ¬ (e ≡ ShapeError.Memory) → first (predicates items.now) ≡ Some e) }
{
    let mut made = List::new(alloc);
    for tree in items {
        made.push(symbol(alloc, tree)?)?;
    }
    Ok(made)
}

#[tactic(auto, using(crate::proofs::Steps::steps))]
fn gives(alloc: Global, tree: &Sexp) -> Result<RawGives, ShapeError>
    ensures ok { IfOk result (λ it. gives tree.now ≡ parsed it) }
    ensures err { IfErr result (λ e. ¬ (e ≡ ShapeError.Memory) → first (gives tree.now) ≡ Some e) }
{
    if is_word(b"number".as_slice(), tree) {
        return Ok(RawGives::Number);
    }
    Ok(RawGives::Object(ident(alloc, tree)?))
}

// What has been read of a list of functions.
#[derive(Drop)]
struct Declaring {
    groups: List<RawFunctions>,
    functions: List<RawSymbol>,
    due: bool,
}

impl Declaring {
    // Goes on behind one tree.
    #[tactic(auto, using(crate::proofs::Steps::steps))]
    fn step(self, alloc: Global, tree: &Sexp) -> Result<Declaring, ShapeError>
        ensures ok { IfOk result (λ new. (place : Place) (rest : Sequence Sexp) → before self.groups (declared place (tree.now ∷ rest) self.functions self.due) ≡ before new.groups (declared place rest new.functions new.due)) }
        ensures err { IfErr result (λ e. ¬ (e ≡ ShapeError.Memory) → (place : Place) (rest : Sequence Sexp) → first (declared place (tree.now ∷ rest) self.functions self.due) ≡ Some e) }
    {
        if self.due {
            self.of_type(alloc, tree)
        } else if is_minus(tree) {
            self.minus(tree)
        } else {
            self.function(alloc, tree)
        }
    }

    #[tactic(auto, using(crate::proofs::Steps::steps))]
    fn of_type(self, alloc: Global, tree: &Sexp) -> Result<Declaring, ShapeError>
        ensures ok { IfOk result (λ new. (go : GoOn) → before self.groups (declared_step tree.now self.functions true go) ≡ before new.groups (go new.functions new.due)) }
        ensures err { IfErr result (λ e. ¬ (e ≡ ShapeError.Memory) → (go : GoOn) → first (declared_step tree.now self.functions true go) ≡ Some e) }
    {
        let Declaring {
            mut groups,
            functions,
            due: _,
        } = self;
        let gives = gives(alloc, tree)?;
        groups.push(RawFunctions { functions, gives })?;
        Ok(Declaring {
            groups,
            functions: List::new(alloc),
            due: false,
        })
    }

    fn minus(self, tree: &Sexp) -> Result<Declaring, ShapeError>
        ensures ok { IfOk result (λ new. (go : GoOn) → before self.groups (minus_after tree.now self.functions go) ≡ before new.groups (go new.functions new.due)) }
        ensures err { IfErr result (λ e. (go : GoOn) → first (minus_after tree.now self.functions go) ≡ Some e) }
    {
        let Declaring {
            groups,
            functions,
            due: _,
        } = self;
        if functions.len() == 0 {
            return Err(misfit(tree));
        }
        Ok(Declaring {
            groups,
            functions,
            due: true,
        })
    }

    fn function(self, alloc: Global, tree: &Sexp) -> Result<Declaring, ShapeError>
        ensures ok { IfOk result (λ new. (go : GoOn) → before self.groups (one_more (symbol tree.now) self.functions go) ≡ before new.groups (go new.functions new.due)) }
        ensures err { IfErr result (λ e. ¬ (e ≡ ShapeError.Memory) → (go : GoOn) → first (one_more (symbol tree.now) self.functions go) ≡ Some e) }
    {
        let Declaring {
            groups,
            mut functions,
            due: _,
        } = self;
        functions.push(symbol(alloc, tree)?)?;
        Ok(Declaring {
            groups,
            functions,
            due: false,
        })
    }

    fn end(self, place: Place) -> Result<List<RawFunctions>, ShapeError>
        ensures ok { IfOk result (λ them. before self.groups (last_functions place self.functions self.due) ≡ parsed them) }
        ensures err { IfErr result (λ e. ¬ (e ≡ ShapeError.Memory) → first (last_functions place self.functions self.due) ≡ Some e) }
    {
        let Declaring {
            mut groups,
            functions,
            due,
        } = self;
        if due {
            return Err(ShapeError::Expected { place });
        }
        if functions.len() == 0 {
            return Ok(groups);
        }
        groups.push(RawFunctions {
            functions,
            gives: RawGives::Number,
        })?;
        Ok(groups)
    }
}

#[tactic(auto, using(crate::proofs::Steps::steps))]
fn declared(alloc: Global, place: Place, items: &[Sexp]) -> Result<List<RawFunctions>, ShapeError>
    ensures ok { IfOk result (λ them. declared place items.now [] false ≡ parsed them) }
    ensures err { IfErr result (λ e. ¬ (e ≡ ShapeError.Memory) → first (declared place items.now [] false) ≡ Some e) }
{
    let mut declaring = Declaring {
        groups: List::new(alloc),
        functions: List::new(alloc),
        due: false,
    };
    let mut rest = items;
    'reading: while let Some((tree, behind)) = rest.split_first() {
        declaring = declaring.step(alloc, tree)?;
        rest = behind;
    }
    declaring.end(place)
}

/// The functions of a section at this place.
#[tactic(auto, using(crate::proofs::Steps::steps))]
pub fn functions(
    alloc: Global,
    place: Place,
    items: &[Sexp],
) -> Result<List<RawFunctions>, ShapeError>
    ensures ok { IfOk result (λ them. functions place items.now ≡ parsed them) }
    ensures err { IfErr result (λ e. ¬ (e ≡ ShapeError.Memory) → first (functions place items.now) ≡ Some e) }
{
    if ends_in_minus(items) {
        return Err(ShapeError::Expected { place });
    }
    declared(alloc, place, items)
}
