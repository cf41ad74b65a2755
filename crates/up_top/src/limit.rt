ghost use Rattle.std.specs.Prelude.{◌≡◌, ◌≤◌};
ghost use Rattle.up_top.specs.Words.{is_digit, limit_from, limit_of};

/// The greatest limit.
pub(crate) const MOST: u64 = 5_000_000;

fn is_digit(byte: u8) -> bool
    ensures { result ≡ is_digit byte }
{
    48 <= byte && byte <= 57
}

// A limit whose first digits are read already.
fn limit_from(first: u64, digits: &[u8]) -> Option<u64>
    requires { first ≤ 5000000 }
    ensures { result ≡ limit_from first digits.now }
{
    let mut limit = first;
    for digit in digits {
        if !is_digit(*digit) {
            return None;
        }
        limit = 10 * limit + (*digit - 48) as u64;
        if limit > MOST {
            return None;
        }
    }
    Some(limit)
}

/// The limit that a word spells in decimal, from 1 to 5,000,000.
pub(crate) fn limit_of(word: &[u8]) -> Option<u64>
    ensures { result ≡ limit_of word.now }
{
    match word.split_first() {
        Some((first, _)) if *first != 48 => limit_from(0, word),
        _ => None,
    }
}
