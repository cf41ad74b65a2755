ghost use Rattle.std.specs.Prelude.{◌≡◌, ◌∷◌, ◌≤◌, ◌<◌, length, take_while, IfSome};
ghost use Rattle.std.specs.Option.{option_copied};
ghost use Rattle.up_map.specs.Splits.{split, pieces, is_other};

/// A text that is cut at a byte.
#[derive(Clone, Copy)]
pub struct Cut<'t> {
    /// What stands before the first byte of the kind.
    pub front: &'t [u8],
    /// What stands behind it, if there is one.
    pub behind: Option<&'t [u8]>,
}

fn front_length(at: u8, text: &[u8]) -> usize
    ensures value { result ≡ length (take_while (is_other at) text.now) }
    ensures within { result ≤ length text.now }
{
    text.iter().take_while(|byte| **byte != at).count()
}

/// Cuts a text at the first byte of this kind.
pub fn cut_at(at: u8, text: &[u8]) -> Cut<'_>
    ensures pieces { split at text.now ≡ result.front.now ∷ pieces at (option_copied result.behind) }
    ensures shorter { IfSome result.behind (λ behind. length behind.now < length text.now) }
{
    let (front, rest) = text.split_at(front_length(at, text));
    match rest.split_first() {
        None => Cut {
            front,
            behind: None,
        },
        Some((_, behind)) => Cut {
            front,
            behind: Some(behind),
        },
    }
}
