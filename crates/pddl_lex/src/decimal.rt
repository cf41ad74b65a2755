ghost use Rattle.std.specs.Prelude.{◌≡◌, ◌≤◌, ◌<◌, ◌^◌, ◌++◌, true, drop, nat_abs};
ghost use Rattle.std.specs.List.{list_all};
ghost use Rattle.pddl_lex.specs.Bytes.{is_digit};
ghost use Rattle.pddl_lex.specs.Decimals.{literal, over_tens, signed, first_digit, with_digits};
ghost use Rattle.pddl_lex.specs.Spells.{IsNumber, IsNumberByte};

use up_frac::Frac;
use up_text::digit_length;

// A number with more digits behind its own.
fn with_digits(number: u64, digits: &[u8]) -> u64
    requires digits { list_all is_digit digits.now ≡ true }
    requires few { with_digits number digits.now < 10 ^ 18 }
    ensures { result ≡ with_digits number digits.now }
{
    let mut all = number;
    for digit in digits {
        all = 10 * all + (*digit - 48) as u64;
    }
    all
}

// A number with the digits before and behind a point behind its own.
fn with_both(number: u64, whole: &[u8], decimals: &[u8]) -> u64
    requires whole { list_all is_digit whole.now ≡ true }
    requires decimals { list_all is_digit decimals.now ≡ true }
    requires few { with_digits number (whole.now ++ decimals.now) < 10 ^ 18 }
    ensures { result ≡ with_digits number (whole.now ++ decimals.now) }
{
    with_digits(with_digits(number, whole), decimals)
}

// The number of a first byte, which may be `-`.
fn first_digit(byte: u8) -> u64
    requires { IsNumberByte byte }
    ensures { result ≡ first_digit byte }
{
    if byte == 45 { 0 } else { (byte - 48) as u64 }
}

fn signed(byte: u8, number: u64) -> i64
    requires { number < 10 ^ 18 }
    ensures value { result ≡ signed byte number }
    ensures size { nat_abs result < 10 ^ 18 }
{
    let number = number as i64;
    if byte == 45 { -number } else { number }
}

// What stands behind a point.
fn behind_point(bytes: &[u8]) -> &[u8]
    ensures { result.now ≡ drop 1 bytes.now }
{
    match bytes {
        [] => bytes,
        [_, digits @ ..] => digits,
    }
}

// A whole number over so many tens.
fn over_tens(number: i64, count: usize) -> Frac
    requires few { count ≤ 9 }
    requires size { nat_abs number < 10 ^ 18 }
    ensures { result ≡ over_tens number count }
{
    let tens = 10_u64.pow(count as u32);
    Frac::new(number, tens as i64).unwrap()
}

/// The number of a literal, by its first byte and those behind.
#[tactic(auto, unfolding(crate::specs::Decimals::literal))]
pub fn literal(byte: u8, behind: &[u8]) -> Frac
    requires { IsNumber byte behind.now }
    ensures { result ≡ literal byte behind.now }
{
    let (whole, fraction) = behind.split_at(digit_length(behind));
    let decimals = behind_point(fraction);
    let number = with_both(first_digit(byte), whole, decimals);
    over_tens(signed(byte, number), decimals.len())
}
