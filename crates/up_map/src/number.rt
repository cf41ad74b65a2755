ghost use Rattle.std.specs.Prelude.{◌≡◌};
ghost use Rattle.up_map.specs.Entries.{more_digits, number_of};

// The number of these digits, where it is below 2^64.
fn digits_value(digits: &[u8]) -> Option<usize>
    ensures { result ≡ more_digits 0 digits.now }
{
    let mut value = 0_usize;
    for byte in digits {
        if !byte.is_ascii_digit() {
            return None;
        }
        value = value
            .checked_mul(10)?
            .checked_add(usize::from(*byte - b'0'))?;
    }
    Some(value)
}

/// The number of a decimal without leading zeros.
pub fn read_number(word: &[u8]) -> Option<usize>
    ensures { result ≡ number_of word.now }
{
    match word {
        [] => None,
        [b'0'] => Some(0),
        [b'0', ..] => None,
        _ => digits_value(word),
    }
}
