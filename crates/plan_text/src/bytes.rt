ghost use Rattle.std.specs.Prelude.{◌≡◌, ◌≤◌, length};
ghost use Rattle.plan_text.specs.Bytes.{is_blank, is_digit, is_letter, is_name_byte, first, front_length, behind};

/// A space or a tab.
pub fn is_blank(byte: u8) -> bool
    ensures { result ≡ is_blank byte }
{
    byte == b' ' || byte == b'\t'
}

pub fn is_digit(byte: u8) -> bool
    ensures { result ≡ is_digit byte }
{
    48 <= byte && byte <= 57
}

fn is_letter(byte: u8) -> bool
    ensures { result ≡ is_letter byte }
{
    (65 <= byte && byte <= 90) || (97 <= byte && byte <= 122)
}

pub fn is_name_byte(byte: u8) -> bool
    ensures { result ≡ is_name_byte byte }
{
    is_letter(byte) || is_digit(byte) || byte == b'-' || byte == b'_'
}

/// The first byte, or 0 where there is none.
pub fn first(bytes: &[u8]) -> u8
    ensures { result ≡ first bytes.now }
{
    match bytes {
        [] => 0,
        [byte, ..] => *byte,
    }
}

/// How many bytes of a name stand in front.
pub fn name_length(bytes: &[u8]) -> usize
    ensures value { result ≡ front_length is_name_byte bytes.now }
    ensures within { result ≤ length bytes.now }
{
    bytes.iter().take_while(|byte| is_name_byte(**byte)).count()
}

fn blank_length(bytes: &[u8]) -> usize
    ensures value { result ≡ front_length is_blank bytes.now }
    ensures within { result ≤ length bytes.now }
{
    bytes.iter().take_while(|byte| is_blank(**byte)).count()
}

fn digit_length(bytes: &[u8]) -> usize
    ensures value { result ≡ front_length is_digit bytes.now }
    ensures within { result ≤ length bytes.now }
{
    bytes.iter().take_while(|byte| is_digit(**byte)).count()
}

/// What stands behind the blanks in front.
pub fn behind_blanks(bytes: &[u8]) -> &[u8]
    ensures { result.now ≡ behind is_blank bytes.now }
{
    &bytes[blank_length(bytes)..]
}

/// What stands behind the digits in front.
pub fn behind_digits(bytes: &[u8]) -> &[u8]
    ensures { result.now ≡ behind is_digit bytes.now }
{
    &bytes[digit_length(bytes)..]
}
