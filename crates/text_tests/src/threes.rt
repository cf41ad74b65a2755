ghost use Rattle.std.specs.Prelude.{◌≡◌, ◌≢◌, ◌↔◌, [], ◌++◌, IsTrue};

use up_store::Pieces;

/// A text in pieces of three bytes.
#[derive(Drop)]
pub struct Threes<'a> {
    left: &'a [u8],
    piece: &'a [u8],
}

impl<'a> Threes<'a> {
    pub fn new(text: &'a [u8]) -> Threes<'a> {
        Threes {
            left: text,
            piece: b"",
        }
    }
}

impl<'a> Pieces for Threes<'a> {
    ghost rest = { λ s. s.left.now };

    ghost current = { λ s. s.piece.now };

    fn advance(&mut self) -> bool {
        let count = self.left.len().min(3);
        if count == 0 {
            return false;
        }
        let (piece, left) = self.left.split_at(count);
        self.piece = piece;
        self.left = left;
        true
    }

    fn piece(&self) -> &[u8] {
        self.piece
    }
}
