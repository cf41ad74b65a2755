ghost use Rattle.std.specs.Prelude.{◌≡◌, ◌≤◌, length};
ghost use Rattle.up_text.specs.Bytes.{is_blank, is_line_blank, is_lower, is_letter, is_digit, is_name_byte, fold_byte, front_length, first};

/// White space of a PDDL text: a tab, line feed, form feed, carriage return or space.
pub fn is_blank(byte: u8) -> bool
    ensures { result ≡ is_blank byte }
{
    matches!(byte, 9 | 10 | 12 | 13 | 32)
}

/// A space or a tab.
pub fn is_line_blank(byte: u8) -> bool
    ensures { result ≡ is_line_blank byte }
{
    byte == b' ' || byte == b'\t'
}

/// A letter in lower case.
pub fn is_lower(byte: u8) -> bool
    ensures { result ≡ is_lower byte }
{
    97 <= byte && byte <= 122
}

/// A letter of either case.
pub fn is_letter(byte: u8) -> bool
    ensures { result ≡ is_letter byte }
{
    (65 <= byte && byte <= 90) || (97 <= byte && byte <= 122)
}

/// A decimal digit.
pub fn is_digit(byte: u8) -> bool
    ensures { result ≡ is_digit byte }
{
    48 <= byte && byte <= 57
}

/// A byte that may stand in a name behind its first letter: a letter of either case, a digit, `-` or `_`.
pub fn is_name_byte(byte: u8) -> bool
    ensures { result ≡ is_name_byte byte }
{
    is_letter(byte) || is_digit(byte) || byte == b'-' || byte == b'_'
}

/// A letter in lower case, and any other byte as it is.
pub fn fold_byte(byte: u8) -> u8
    ensures { result ≡ fold_byte byte }
{
    if 65 <= byte && byte <= 90 {
        byte + 32
    } else {
        byte
    }
}

/// The first byte, or 0 where there is none.
pub fn first(bytes: &[u8]) -> u8
    ensures { result ≡ first bytes.now }
{
    match bytes {
        [] => 0,
        [byte, ..] => *byte,
    }
}

/// How many bytes of a name stand in front.
pub fn name_length(bytes: &[u8]) -> usize
    ensures value { result ≡ front_length is_name_byte bytes.now }
    ensures within { result ≤ length bytes.now }
{
    bytes.iter().take_while(|byte| is_name_byte(**byte)).count()
}

/// How many digits stand in front.
pub fn digit_length(bytes: &[u8]) -> usize
    ensures value { result ≡ front_length is_digit bytes.now }
    ensures within { result ≤ length bytes.now }
{
    bytes.iter().take_while(|byte| is_digit(**byte)).count()
}
