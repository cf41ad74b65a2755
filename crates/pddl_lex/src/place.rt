ghost use Rattle.std.specs.Prelude.{◌≡◌};
ghost use Rattle.pddl_lex.specs.Places.{start, after_byte, after_bytes};

use up_text::Place;

/// Where a text begins.
pub fn start() -> Place
    ensures { result ≡ start }
{
    Place { line: 1, column: 1 }
}

/// The place behind a byte.
pub fn after_byte(place: Place, byte: u8) -> Place
    ensures { result ≡ after_byte place byte }
{
    if byte == 10 {
        Place {
            line: place.line.saturating_add(1),
            column: 1,
        }
    } else {
        Place {
            line: place.line,
            column: place.column.saturating_add(1),
        }
    }
}

/// The place behind some bytes.
pub fn after_bytes(place: Place, bytes: &[u8]) -> Place
    ensures { result ≡ after_bytes place bytes.now }
{
    let mut behind = place;
    for byte in bytes {
        behind = after_byte(behind, *byte);
    }
    behind
}
