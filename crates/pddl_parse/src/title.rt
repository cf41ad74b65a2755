ghost use Rattle.std.specs.Prelude.{◌≡◌, [], ◌∷◌, Some, IfOk, IfErr};
ghost use Rattle.pddl_lex.specs.Parses.{parsed, first};
ghost use Rattle.pddl_parse.specs.Texts.{unlike, in_title, title};

use crate::bracket::is_word;
use crate::ident::ident;
use crate::raw::Ident;
use crate::shape::{ShapeError, misfit, misfit_group, no_extra};
use pddl_lex::Sexp;
use std::alloc::Global;
use up_text::Place;

/// Refuses a tree that isn't this word.
pub fn expect_word(word: &[u8], tree: &Sexp) -> Result<(), ShapeError>
    ensures ok { IfOk result (λ _. unlike word.now tree.now ≡ []) }
    ensures err { IfErr result (λ fault. unlike word.now tree.now ≡ fault ∷ []) }
{
    if is_word(word, tree) {
        Ok(())
    } else {
        Err(misfit(tree))
    }
}

#[tactic(auto, using(crate::proofs::Steps::steps))]
fn in_title(alloc: Global, word: &[u8], place: Place, items: &[Sexp]) -> Result<Ident, ShapeError>
    ensures ok { IfOk result (λ it. in_title word.now place items.now ≡ parsed it) }
    ensures err { IfErr result (λ e. ¬ (e ≡ ShapeError.Memory) → first (in_title word.now place items.now) ≡ Some e) }
{
    let Some((head, rest)) = items.split_first() else {
        return Err(ShapeError::Expected { place });
    };
    let Some((second, others)) = rest.split_first() else {
        return Err(misfit_group(place, items));
    };
    expect_word(word, head)?;
    let name = ident(alloc, second)?;
    no_extra(others)?;
    Ok(name)
}

/// The name that a bracket with this word gives a text.
#[tactic(auto, using(crate::proofs::Nodes::section_nodes))]
pub fn title(alloc: Global, word: &[u8], tree: &Sexp) -> Result<Ident, ShapeError>
    ensures ok { IfOk result (λ it. title word.now tree.now ≡ parsed it) }
    ensures err { IfErr result (λ e. ¬ (e ≡ ShapeError.Memory) → first (title word.now tree.now) ≡ Some e) }
{
    match tree {
        Sexp::Leaf(_) => Err(misfit(tree)),
        Sexp::Group(place, items) => in_title(alloc, word, *place, items.as_slice()),
    }
}
