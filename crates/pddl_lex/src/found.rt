ghost use Rattle.std.specs.Prelude.{◌≡◌, ◌≤◌, ◌∷◌, [], length, Err, IfOk, IfErr};
ghost use Rattle.pddl_lex.specs.Items.{items_at, item_of};
ghost use Rattle.pddl_lex.specs.Next.{next, more_of};

use crate::next::next;
use crate::shape::Next;
use crate::token::kind_of;
use crate::{LexError, Token};
use std::alloc::Global;
use up_text::Place;

/// The token at a byte, if there is one, and how many bytes behind this byte belong to what stands there.
#[derive(Drop)]
pub struct Found {
    pub token: Option<Token>,
    pub more: usize,
}

/// Reads what stands at a byte.
pub fn found_at(alloc: Global, place: Place, byte: u8, behind: &[u8]) -> Result<Found, LexError>
    ensures more { IfOk result (λ found. found.more ≡ more_of (next byte behind.now)) }
    ensures within { IfOk result (λ found. found.more ≤ length behind.now) }
    ensures token { IfOk result (λ found. item_of found.token ≡ items_at (next byte behind.now) place byte behind.now) }
    ensures fault { IfErr result (λ fault. ¬ (fault ≡ LexError.Memory) → items_at (next byte behind.now) place byte behind.now ≡ Err fault ∷ []) }
{
    match next(byte, behind) {
        Next::Blank(more) => Ok(Found { token: None, more }),
        Next::Piece(shape, more) => {
            let kind = kind_of(alloc, shape, byte, &behind[..more])?;
            let token = Some(Token { kind, place });
            Ok(Found { token, more })
        }
        Next::BadByte => Err(LexError::BadByte { place }),
        Next::BadNumber(_) => Err(LexError::BadNumber { place }),
    }
}
