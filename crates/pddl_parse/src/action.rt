ghost use Rattle.std.specs.Prelude.{◌≡◌, [], Some, IfOk, IfErr};
ghost use Rattle.pddl_lex.specs.Parses.{parsed, rejected, first, over};
ghost use Rattle.pddl_parse.specs.Effects.{whole_effect};
ghost use Rattle.pddl_parse.specs.Actions.{condition, key_word, key_kind, action_head, no_keys, has_key, with_key, by_head, fresh_key, lacks_value, part_of, parts, put, filled, bare, as_action, action};

use crate::bracket::is_empty;
use crate::effect::whole_effect;
use crate::formula::raw_formula;
use crate::ident::ident;
use crate::raw::{Ident, RawAction, RawEffect, RawFormula, RawGroup};
use crate::shape::{ShapeError, misfit};
use crate::typed::variables;
use pddl_lex::{Sexp, TokenKind};
use std::alloc::Global;
use up_text::{Box, List, Place};

#[derive(Clone, Copy, Debug, PartialEq, Eq)]
pub enum ActionKey {
    Parameters,
    Precondition,
    Effect,
}

/// What a tree is where a key is due.
#[derive(Clone, Copy, Debug, PartialEq, Eq)]
pub enum ActionHead {
    Key(ActionKey),
    Unknown,
    NoKey,
}

/// Which keys have stood.
#[derive(Clone, Copy, Debug, PartialEq, Eq)]
pub struct ActionKeys {
    pub parameters: bool,
    pub precondition: bool,
    pub effect: bool,
}

/// A key with its value.
#[derive(Drop)]
pub enum ActionPart {
    Parameters(List<RawGroup>),
    Precondition(Box<RawFormula>),
    Effect(Box<RawEffect>),
}

/// What has been read of an action.
#[derive(Drop)]
pub struct ActionParts {
    pub name: Ident,
    pub params: List<RawGroup>,
    pub pre: Box<RawFormula>,
    pub effect: Box<RawEffect>,
}

/// A condition as the whole value of a key or a section.
#[tactic(auto, using(crate::proofs::Steps::steps))]
pub fn condition(alloc: Global, tree: &Sexp) -> Result<RawFormula, ShapeError>
    ensures ok { IfOk result (λ it. condition tree.now ≡ parsed it) }
    ensures err { IfErr result (λ e. ¬ (e ≡ ShapeError.Memory) → first (condition tree.now) ≡ Some e) }
{
    if is_empty(tree) {
        return Ok(RawFormula::And(List::new(alloc)));
    }
    raw_formula(alloc, tree)
}

/// The same in a box.
pub fn boxed_condition(alloc: Global, tree: &Sexp) -> Result<Box<RawFormula>, ShapeError>
    ensures ok { IfOk result (λ it. condition tree.now ≡ parsed it) }
    ensures err { IfErr result (λ e. ¬ (e ≡ ShapeError.Memory) → first (condition tree.now) ≡ Some e) }
{
    let read = condition(alloc, tree)?;
    Ok(Box::new(alloc, read)?)
}

fn boxed_effect(alloc: Global, tree: &Sexp) -> Result<Box<RawEffect>, ShapeError>
    ensures ok { IfOk result (λ it. whole_effect tree.now ≡ parsed it) }
    ensures err { IfErr result (λ e. ¬ (e ≡ ShapeError.Memory) → first (whole_effect tree.now) ≡ Some e) }
{
    let read = whole_effect(alloc, tree)?;
    Ok(Box::new(alloc, read)?)
}

fn key_word(word: &[u8]) -> ActionHead
    ensures { result ≡ key_word word.now }
{
    if word == b"parameters".as_slice() {
        ActionHead::Key(ActionKey::Parameters)
    } else if word == b"precondition".as_slice() {
        ActionHead::Key(ActionKey::Precondition)
    } else if word == b"effect".as_slice() {
        ActionHead::Key(ActionKey::Effect)
    } else {
        ActionHead::Unknown
    }
}

fn key_kind(kind: &TokenKind) -> ActionHead
    ensures { result ≡ key_kind kind.now }
{
    match kind {
        TokenKind::Keyword(word) => key_word(word.as_slice()),
        _ => ActionHead::NoKey,
    }
}

#[tactic(auto, using(crate::proofs::Nodes::section_nodes))]
fn action_head(tree: &Sexp) -> ActionHead
    ensures { result ≡ action_head tree.now }
{
    match tree {
        Sexp::Leaf(token) => key_kind(&token.kind),
        Sexp::Group(_, _) => ActionHead::NoKey,
    }
}

impl ActionKeys {
    fn none() -> ActionKeys
        ensures { result ≡ no_keys }
    {
        ActionKeys {
            parameters: false,
            precondition: false,
            effect: false,
        }
    }

    fn has(self, key: ActionKey) -> bool
        ensures { result ≡ has_key self key }
    {
        match key {
            ActionKey::Parameters => self.parameters,
            ActionKey::Precondition => self.precondition,
            ActionKey::Effect => self.effect,
        }
    }

    fn with(self, key: ActionKey) -> ActionKeys
        ensures { result ≡ with_key self key }
    {
        match key {
            ActionKey::Parameters => ActionKeys {
                parameters: true,
                precondition: self.precondition,
                effect: self.effect,
            },
            ActionKey::Precondition => ActionKeys {
                parameters: self.parameters,
                precondition: true,
                effect: self.effect,
            },
            ActionKey::Effect => ActionKeys {
                parameters: self.parameters,
                precondition: self.precondition,
                effect: true,
            },
        }
    }
}

fn by_head(head: ActionHead, keys: ActionKeys, tree: &Sexp) -> Result<ActionKey, ShapeError>
    ensures ok { IfOk result (λ key. by_head head keys tree.now ≡ parsed key) }
    ensures err { IfErr result (λ e. by_head head keys tree.now ≡ rejected e []) }
{
    match head {
        ActionHead::Key(key) => {
            if keys.has(key) {
                Err(ShapeError::Duplicate {
                    place: tree.place(),
                })
            } else {
                Ok(key)
            }
        }
        ActionHead::Unknown => Err(ShapeError::LeftOut {
            place: tree.place(),
        }),
        ActionHead::NoKey => Err(misfit(tree)),
    }
}

fn fresh_key(keys: ActionKeys, tree: &Sexp) -> Result<ActionKey, ShapeError>
    ensures ok { IfOk result (λ key. fresh_key keys tree.now ≡ parsed key) }
    ensures err { IfErr result (λ e. fresh_key keys tree.now ≡ rejected e []) }
{
    by_head(action_head(tree), keys, tree)
}

#[tactic(auto, using(crate::proofs::Pairing::pairing))]
fn lacks_value(items: &[Sexp]) -> bool
    ensures { result ≡ lacks_value no_keys items.now }
{
    let mut keys = ActionKeys::none();
    let mut rest = items;
    'pairing: while let Some((tree, behind)) = rest.split_first() {
        let Ok(key) = fresh_key(keys, tree) else {
            return false;
        };
        let Some((_, behind)) = behind.split_first() else {
            return true;
        };
        keys = keys.with(key);
        rest = behind;
    }
    false
}

#[tactic(auto, using(crate::proofs::Steps::steps))]
fn part_of(alloc: Global, key: ActionKey, tree: &Sexp) -> Result<ActionPart, ShapeError>
    ensures ok { IfOk result (λ it. part_of key tree.now ≡ parsed it) }
    ensures err { IfErr result (λ e. ¬ (e ≡ ShapeError.Memory) → first (part_of key tree.now) ≡ Some e) }
{
    match key {
        ActionKey::Parameters => Ok(ActionPart::Parameters(variables(alloc, tree)?)),
        ActionKey::Precondition => Ok(ActionPart::Precondition(boxed_condition(alloc, tree)?)),
        ActionKey::Effect => Ok(ActionPart::Effect(boxed_effect(alloc, tree)?)),
    }
}

fn put(action: ActionParts, part: ActionPart) -> ActionParts
    ensures { result ≡ put action part }
{
    let ActionParts {
        name,
        params,
        pre,
        effect,
    } = action;
    match part {
        ActionPart::Parameters(params) => ActionParts {
            name,
            params,
            pre,
            effect,
        },
        ActionPart::Precondition(pre) => ActionParts {
            name,
            params,
            pre,
            effect,
        },
        ActionPart::Effect(effect) => ActionParts {
            name,
            params,
            pre,
            effect,
        },
    }
}

#[tactic(auto, using(crate::proofs::Pairing::pairing))]
fn parts(
    alloc: Global,
    place: Place,
    start: ActionParts,
    items: &[Sexp],
) -> Result<ActionParts, ShapeError>
    ensures ok { IfOk result (λ it. over (filled start) (parts place no_keys items.now) ≡ parsed it) }
    ensures err { IfErr result (λ e. ¬ (e ≡ ShapeError.Memory) → first (over (filled start) (parts place no_keys items.now)) ≡ Some e) }
{
    let mut action = start;
    let mut keys = ActionKeys::none();
    let mut rest = items;
    'reading: while let Some((tree, behind)) = rest.split_first() {
        let key = fresh_key(keys, tree)?;
        let Some((value, behind)) = behind.split_first() else {
            return Err(ShapeError::Expected { place });
        };
        action = put(action, part_of(alloc, key, value)?);
        keys = keys.with(key);
        rest = behind;
    }
    Ok(action)
}

fn bare(alloc: Global, name: Ident) -> Result<ActionParts, ShapeError>
    ensures ok { IfOk result (λ it. it ≡ bare name) }
    ensures err { IfErr result (λ e. e ≡ ShapeError.Memory) }
{
    let pre = Box::new(alloc, RawFormula::And(List::new(alloc)))?;
    let effect = Box::new(alloc, RawEffect::And(List::new(alloc)))?;
    Ok(ActionParts {
        name,
        params: List::new(alloc),
        pre,
        effect,
    })
}

fn as_action(parts: ActionParts) -> RawAction
    ensures { result ≡ as_action parts }
{
    let ActionParts {
        name,
        params,
        pre,
        effect,
    } = parts;
    RawAction {
        name,
        params,
        pre: pre.into_inner(),
        effect: effect.into_inner(),
    }
}

/// What stands in an action's bracket at this place behind its keyword.
#[tactic(auto, using(crate::proofs::Steps::steps))]
pub fn action(alloc: Global, place: Place, items: &[Sexp]) -> Result<RawAction, ShapeError>
    ensures ok { IfOk result (λ it. action place items.now ≡ parsed it) }
    ensures err { IfErr result (λ e. ¬ (e ≡ ShapeError.Memory) → first (action place items.now) ≡ Some e) }
{
    let Some((head, rest)) = items.split_first() else {
        return Err(ShapeError::Expected { place });
    };
    if lacks_value(rest) {
        return Err(ShapeError::Expected { place });
    }
    let name = ident(alloc, head)?;
    let parts = parts(alloc, place, bare(alloc, name)?, rest)?;
    Ok(as_action(parts))
}
