ghost use Rattle.std.specs.Prelude.{◌≡◌, ◌≤◌, length};
ghost use Rattle.pddl_lex.specs.Next.{next, name_behind, number, fraction_length, sign_or, sign, minus, more_of};

use crate::Sign;
use crate::bytes::line_length;
use crate::shape::{Next, Shape};
use up_text::{digit_length, first, is_blank, is_digit, is_letter, is_name_byte, name_length};

// A name behind its mark.
#[tactic(auto, unfolding(crate::specs::Next::name_behind))]
fn name_behind(shape: Shape, behind: &[u8]) -> Next
    ensures value { result ≡ name_behind shape behind.now }
    ensures within { more_of result ≤ length behind.now }
{
    if is_letter(first(behind)) {
        Next::Piece(shape, name_length(behind))
    } else {
        Next::BadByte
    }
}

// How many bytes of a fraction stand in front: a point and digits, or none.
#[tactic(auto, unfolding(crate::specs::Next::fraction_length))]
fn fraction_length(bytes: &[u8]) -> usize
    ensures value { result ≡ fraction_length bytes.now }
    ensures within { result ≤ length bytes.now }
{
    match bytes {
        [46, digits @ ..] => {
            let count = digit_length(digits);
            if count == 0 { 0 } else { 1 + count }
        }
        _ => 0,
    }
}

// A number, with so many of its digits before these bytes.
#[tactic(auto, unfolding(crate::specs::Next::number))]
fn number(before: usize, behind: &[u8]) -> Next
    requires { before ≤ 1 }
    ensures value { result ≡ number before behind.now }
    ensures within { more_of result ≤ length behind.now }
{
    let whole = digit_length(behind);
    let fraction = fraction_length(&behind[whole..]);
    let next = first(&behind[whole + fraction..]);
    let digits = before + whole + (fraction - fraction.min(1));
    if is_name_byte(next) || next == 46 || digits > 18 || fraction > 10 {
        Next::BadNumber(whole + fraction)
    } else {
        Next::Piece(Shape::Number, whole + fraction)
    }
}

// A number with its sign, or the sign alone.
#[tactic(auto, unfolding(crate::specs::Next::minus))]
fn minus(behind: &[u8]) -> Next
    ensures value { result ≡ minus behind.now }
    ensures within { more_of result ≤ length behind.now }
{
    if is_digit(first(behind)) {
        number(0, behind)
    } else {
        Next::Piece(Shape::Sign(Sign::Minus), 0)
    }
}

// The sign with `=` behind, or without.
#[tactic(auto, unfolding(crate::specs::Next::sign_or))]
fn sign_or(plain: Sign, equal: Sign, behind: &[u8]) -> Next
    ensures value { result ≡ sign_or plain equal behind.now }
    ensures within { more_of result ≤ length behind.now }
{
    if first(behind) == 61 {
        Next::Piece(Shape::Sign(equal), 1)
    } else {
        Next::Piece(Shape::Sign(plain), 0)
    }
}

// What stands at a byte that is no blank, letter or digit.
#[tactic(auto, unfolding(crate::specs::Next::sign))]
fn sign(byte: u8, behind: &[u8]) -> Next
    ensures value { result ≡ sign byte behind.now }
    ensures within { more_of result ≤ length behind.now }
{
    match byte {
        40 => Next::Piece(Shape::Open, 0),
        41 => Next::Piece(Shape::Close, 0),
        42 => Next::Piece(Shape::Sign(Sign::Times), 0),
        43 => Next::Piece(Shape::Sign(Sign::Plus), 0),
        45 => minus(behind),
        47 => Next::Piece(Shape::Sign(Sign::Slash), 0),
        58 => name_behind(Shape::Keyword, behind),
        59 => Next::Blank(line_length(behind)),
        60 => sign_or(Sign::Less, Sign::LessEqual, behind),
        61 => Next::Piece(Shape::Sign(Sign::Same), 0),
        62 => sign_or(Sign::Greater, Sign::GreaterEqual, behind),
        63 => name_behind(Shape::Variable, behind),
        _ => Next::BadByte,
    }
}

/// What stands at a byte, where these bytes are behind it.
#[tactic(auto, unfolding(crate::specs::Next::next))]
pub fn next(byte: u8, behind: &[u8]) -> Next
    ensures value { result ≡ next byte behind.now }
    ensures within { more_of result ≤ length behind.now }
{
    if is_blank(byte) {
        Next::Blank(0)
    } else if is_letter(byte) {
        Next::Piece(Shape::Word, name_length(behind))
    } else if is_digit(byte) {
        number(1, behind)
    } else {
        sign(byte, behind)
    }
}
