ghost use Rattle.std.specs.Prelude.{◌≡◌, ◌<◌, decimal};
ghost use Rattle.up_line.specs.Sheet.{after};
ghost use Rattle.pddl_write.specs.Numbers.{decimals, point_text, sign_text, number_text};

use itoa::Buffer;
use up_frac::Frac;
use up_line::Line;

/// A count in decimal.
pub fn put_count(line: &mut Line, count: usize)
    ensures { line.new ≡ after line.old (decimal count) }
{
    let mut buffer = Buffer::new();
    line.put(buffer.format(count).as_bytes());
}

/// A number in decimal with the fewest digits.
#[tactic(auto, using(up_line::proofs::Sheets::puts, crate::proofs::Numbers::numbers), unfolding(crate::specs::Numbers::number_text))]
pub fn put_number(line: &mut Line, number: Frac)
    ensures { line.new ≡ after line.old (number_text number) }
{
    let size = number.numerator().unsigned_abs();
    let divisor = number.denominator() as u64;
    put_sign(line, number.numerator());
    put_large(line, size / divisor);
    put_point(line, size % divisor, divisor);
}

#[tactic(auto, using(up_line::proofs::Sheets::puts))]
fn put_sign(line: &mut Line, numerator: i64)
    ensures { line.new ≡ after line.old (sign_text numerator) }
{
    if numerator < 0 {
        line.put(b"-");
    }
}

fn put_large(line: &mut Line, number: u64)
    ensures { line.new ≡ after line.old (decimal number) }
{
    let mut buffer = Buffer::new();
    line.put(buffer.format(number).as_bytes());
}

#[tactic(auto, using(up_line::proofs::Sheets::puts))]
fn put_point(line: &mut Line, rest: u64, divisor: u64)
    requires divisor { 0 < divisor }
    requires rest { rest < divisor }
    ensures { line.new ≡ after line.old (point_text rest divisor) }
{
    if rest != 0 {
        line.put(b".");
        put_decimals(line, 9, rest, divisor);
    }
}

// The digits after the point, by long division.
#[tactic(auto, using(up_line::proofs::Sheets::puts, crate::proofs::Numbers::numbers))]
fn put_decimals(line: &mut Line, places: u8, rest: u64, divisor: u64)
    requires divisor { 0 < divisor }
    requires rest { rest < divisor }
    ensures { line.new ≡ after line.old (decimals places rest divisor) }
{
    if places == 0 {
        return;
    }
    if rest == 0 {
        return;
    }
    let more = 10 * (rest as u128);
    put_large(line, (more / (divisor as u128)) as u64);
    put_decimals(line, places - 1, (more % (divisor as u128)) as u64, divisor);
}
