ghost use Rattle.std.specs.Prelude.{◌≡◌, List as Sequence, [], ◌∷◌, true, false, Some, IfOk, IfErr};
ghost use Rattle.pddl_lex.specs.declared.tree.Sexp.{Sexp};
ghost use Rattle.up_text.specs.declared.place.Place.{Place};
ghost use Rattle.pddl_lex.specs.Parses.{parsed, first, before};
ghost use Rattle.pddl_parse.specs.TypedLists.{Go, listed, typed_list, variable_list, is_minus, ends_in_minus, typed, typed_step, on_minus, on_name, variables, last_group};

use crate::ident::{ident, variable};
use crate::raw::{Ident, RawGroup};
use crate::shape::{ShapeError, misfit, misfit_group};
use pddl_lex::{Sexp, Sign, TokenKind};
use std::alloc::Global;
use up_text::{List, Place};

/// What stands in a typed list.
#[derive(Clone, Copy, Debug, PartialEq, Eq)]
pub enum Item {
    Name,
    Variable,
}

fn listed(alloc: Global, what: Item, tree: &Sexp) -> Result<Ident, ShapeError>
    ensures ok { IfOk result (λ it. listed what tree.now ≡ parsed it) }
    ensures err { IfErr result (λ e. ¬ (e ≡ ShapeError.Memory) → first (listed what tree.now) ≡ Some e) }
{
    match what {
        Item::Name => ident(alloc, tree),
        Item::Variable => variable(alloc, tree),
    }
}

#[tactic(auto, using(crate::proofs::Nodes::nodes))]
pub fn is_minus(tree: &Sexp) -> bool
    ensures { result ≡ is_minus tree.now }
{
    match tree {
        Sexp::Leaf(token) => match &token.kind {
            TokenKind::Sign(Sign::Minus) => true,
            _ => false,
        },
        Sexp::Group(_, _) => false,
    }
}

pub fn ends_in_minus(items: &[Sexp]) -> bool
    ensures { result ≡ ends_in_minus items.now }
{
    let mut ends = false;
    let mut rest = items;
    'reading: while let Some((tree, behind)) = rest.split_first() {
        ends = is_minus(tree);
        rest = behind;
    }
    ends
}

// What has been read of a typed list.
#[derive(Drop)]
struct Typing {
    groups: List<RawGroup>,
    names: List<Ident>,
    due: bool,
}

impl Typing {
    // Goes on behind one tree.
    #[tactic(auto, using(crate::proofs::Steps::steps))]
    fn step(self, alloc: Global, what: Item, tree: &Sexp) -> Result<Typing, ShapeError>
        ensures ok { IfOk result (λ new. (place : Place) (rest : Sequence Sexp) → before self.groups (typed what place (tree.now ∷ rest) self.names self.due) ≡ before new.groups (typed what place rest new.names new.due)) }
        ensures err { IfErr result (λ e. ¬ (e ≡ ShapeError.Memory) → (place : Place) (rest : Sequence Sexp) → first (typed what place (tree.now ∷ rest) self.names self.due) ≡ Some e) }
    {
        if self.due {
            self.of_type(alloc, what, tree)
        } else if is_minus(tree) {
            self.minus(tree)
        } else {
            self.name(alloc, what, tree)
        }
    }

    #[tactic(auto, using(crate::proofs::Steps::steps))]
    fn of_type(self, alloc: Global, what: Item, tree: &Sexp) -> Result<Typing, ShapeError>
        ensures ok { IfOk result (λ new. (go : Go) → before self.groups (typed_step what tree.now self.names true go) ≡ before new.groups (go new.names new.due)) }
        ensures err { IfErr result (λ e. ¬ (e ≡ ShapeError.Memory) → (go : Go) → first (typed_step what tree.now self.names true go) ≡ Some e) }
    {
        let Typing {
            mut groups,
            names,
            due: _,
        } = self;
        let of = ident(alloc, tree)?;
        groups.push(RawGroup {
            names,
            of: Some(of),
        })?;
        Ok(Typing {
            groups,
            names: List::new(alloc),
            due: false,
        })
    }

    fn minus(self, tree: &Sexp) -> Result<Typing, ShapeError>
        ensures ok { IfOk result (λ new. (go : Go) → before self.groups (on_minus tree.now self.names go) ≡ before new.groups (go new.names new.due)) }
        ensures err { IfErr result (λ e. (go : Go) → first (on_minus tree.now self.names go) ≡ Some e) }
    {
        let Typing {
            groups,
            names,
            due: _,
        } = self;
        if names.len() == 0 {
            return Err(misfit(tree));
        }
        Ok(Typing {
            groups,
            names,
            due: true,
        })
    }

    fn name(self, alloc: Global, what: Item, tree: &Sexp) -> Result<Typing, ShapeError>
        ensures ok { IfOk result (λ new. (go : Go) → before self.groups (on_name (listed what tree.now) self.names go) ≡ before new.groups (go new.names new.due)) }
        ensures err { IfErr result (λ e. ¬ (e ≡ ShapeError.Memory) → (go : Go) → first (on_name (listed what tree.now) self.names go) ≡ Some e) }
    {
        let Typing {
            groups,
            mut names,
            due: _,
        } = self;
        names.push(listed(alloc, what, tree)?)?;
        Ok(Typing {
            groups,
            names,
            due: false,
        })
    }

    fn end(self, place: Place) -> Result<List<RawGroup>, ShapeError>
        ensures ok { IfOk result (λ them. before self.groups (last_group place self.names self.due) ≡ parsed them) }
        ensures err { IfErr result (λ e. ¬ (e ≡ ShapeError.Memory) → first (last_group place self.names self.due) ≡ Some e) }
    {
        let Typing {
            mut groups,
            names,
            due,
        } = self;
        if due {
            return Err(ShapeError::Expected { place });
        }
        if names.len() == 0 {
            return Ok(groups);
        }
        groups.push(RawGroup { names, of: None })?;
        Ok(groups)
    }
}

#[tactic(auto, using(crate::proofs::Steps::steps))]
pub fn typed(
    alloc: Global,
    what: Item,
    place: Place,
    items: &[Sexp],
) -> Result<List<RawGroup>, ShapeError>
    ensures ok { IfOk result (λ them. typed what place items.now [] false ≡ parsed them) }
    ensures err { IfErr result (λ e. ¬ (e ≡ ShapeError.Memory) → first (typed what place items.now [] false) ≡ Some e) }
{
    let mut typing = Typing {
        groups: List::new(alloc),
        names: List::new(alloc),
        due: false,
    };
    let mut rest = items;
    'reading: while let Some((tree, behind)) = rest.split_first() {
        typing = typing.step(alloc, what, tree)?;
        rest = behind;
    }
    typing.end(place)
}

/// The items of a section at this place, with their types.
#[tactic(auto, using(crate::proofs::Steps::steps))]
pub fn typed_list(
    alloc: Global,
    what: Item,
    place: Place,
    items: &[Sexp],
) -> Result<List<RawGroup>, ShapeError>
    ensures ok { IfOk result (λ them. typed_list what place items.now ≡ parsed them) }
    ensures err { IfErr result (λ e. ¬ (e ≡ ShapeError.Memory) → first (typed_list what place items.now) ≡ Some e) }
{
    if ends_in_minus(items) {
        return Err(ShapeError::Expected { place });
    }
    typed(alloc, what, place, items)
}

#[tactic(auto, using(crate::proofs::Steps::steps))]
fn variable_list(alloc: Global, place: Place, items: &[Sexp]) -> Result<List<RawGroup>, ShapeError>
    ensures ok { IfOk result (λ them. variable_list place items.now ≡ parsed them) }
    ensures err { IfErr result (λ e. ¬ (e ≡ ShapeError.Memory) → first (variable_list place items.now) ≡ Some e) }
{
    if ends_in_minus(items) {
        return Err(misfit_group(place, items));
    }
    typed(alloc, Item::Variable, place, items)
}

/// A list of variables with types.
#[tactic(auto, using(crate::proofs::Nodes::nodes, crate::proofs::Steps::steps))]
pub fn variables(alloc: Global, tree: &Sexp) -> Result<List<RawGroup>, ShapeError>
    ensures ok { IfOk result (λ them. variables tree.now ≡ parsed them) }
    ensures err { IfErr result (λ e. ¬ (e ≡ ShapeError.Memory) → first (variables tree.now) ≡ Some e) }
{
    match tree {
        Sexp::Leaf(_) => Err(misfit(tree)),
        Sexp::Group(place, items) => { variable_list(alloc, *place, items.as_slice()) }
    }
}
