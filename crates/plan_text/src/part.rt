ghost use Rattle.std.specs.Prelude.{◌≡◌, Ok, Err, IfOk, IfErr, length};
ghost use Rattle.plan_text.specs.Steps.{past, past_digits, past_fraction, past_number, past_label, past_cost};

use crate::bytes::{behind_blanks, behind_digits, first, is_digit};
use crate::line_fault::LineFault;

/// The fault at what is left of a line.
pub fn stuck(left: &[u8]) -> LineFault
    ensures { result ≡ LineFault.Stuck (length left.now) }
{
    LineFault::Stuck { left: left.len() }
}

/// What stands behind this byte and the blanks behind it.
pub fn past(byte: u8, line: &[u8]) -> Result<&[u8], LineFault>
    ensures read { IfOk result (λ rest. past byte line.now ≡ Ok rest.now) }
    ensures fault { IfErr result (λ fault. past byte line.now ≡ Err fault) }
{
    match line.split_first() {
        None => Err(stuck(line)),
        Some((other, rest)) => {
            if *other == byte {
                Ok(behind_blanks(rest))
            } else {
                Err(stuck(line))
            }
        }
    }
}

fn past_digits(line: &[u8]) -> Result<&[u8], LineFault>
    ensures read { IfOk result (λ rest. past_digits line.now ≡ Ok rest.now) }
    ensures fault { IfErr result (λ fault. past_digits line.now ≡ Err fault) }
{
    if is_digit(first(line)) {
        Ok(behind_digits(line))
    } else {
        Err(stuck(line))
    }
}

// What stands behind a point and digits, or the line itself where there is no point.
fn past_fraction(line: &[u8]) -> Result<&[u8], LineFault>
    ensures read { IfOk result (λ rest. past_fraction line.now ≡ Ok rest.now) }
    ensures fault { IfErr result (λ fault. past_fraction line.now ≡ Err fault) }
{
    match line {
        [b'.', digits @ ..] => past_digits(digits),
        _ => Ok(line),
    }
}

// What stands behind a number and blanks.
fn past_number(line: &[u8]) -> Result<&[u8], LineFault>
    ensures read { IfOk result (λ rest. past_number line.now ≡ Ok rest.now) }
    ensures fault { IfErr result (λ fault. past_number line.now ≡ Err fault) }
{
    let rest = past_fraction(past_digits(line)?)?;
    Ok(behind_blanks(rest))
}

/// What stands behind a number and `:`, or the line itself where there is no number.
pub fn past_label(line: &[u8]) -> Result<&[u8], LineFault>
    ensures read { IfOk result (λ rest. past_label line.now ≡ Ok rest.now) }
    ensures fault { IfErr result (λ fault. past_label line.now ≡ Err fault) }
{
    if is_digit(first(line)) {
        past(b':', past_number(line)?)
    } else {
        Ok(line)
    }
}

/// What stands behind `[`, a number and `]`, or the line itself where there is no `[`.
pub fn past_cost(line: &[u8]) -> Result<&[u8], LineFault>
    ensures read { IfOk result (λ rest. past_cost line.now ≡ Ok rest.now) }
    ensures fault { IfErr result (λ fault. past_cost line.now ≡ Err fault) }
{
    match line {
        [b'[', number @ ..] => past(b']', past_number(behind_blanks(number))?),
        _ => Ok(line),
    }
}
