ghost use Rattle.std.specs.Prelude.{◌≡◌, ◌≤◌, IfOk};
ghost use Rattle.std.specs.List.{concat};
ghost use Rattle.up_line.specs.Steps.{longest};

use crate::line::Line;
use crate::steps::{Steps, longest_piece};
use std::alloc::Global;
use std::marker::Model;
use up_store::Pieces;
use up_text::Memory;

/// A text that is written by steps and handed out piece by piece, without taking memory after it was made.
///
/// Contracts see it as the bytes that are still to come and the piece that was gone to last.
#[derive(Drop)]
pub struct Piecewise<S: Steps> {
    steps: S,
    line: Line,
}

impl<S: Steps> Model for Piecewise<S> {
    ghost use Rattle.std.specs.Prelude.{◌≤◌};
    ghost use Rattle.std.specs.List.{concat};
    ghost use Rattle.up_line.specs.Piecewise.{Handed};
    ghost use Rattle.up_line.specs.Sheet.{room};
    ghost use Rattle.up_line.specs.Steps.{longest};

    ghost Value = { Handed };

    ghost view = { λ p. record { rest = concat (S.pieces p.steps); current = p.line.text } };

    ghost invariant = { λ p. longest (S.pieces p.steps) ≤ room p.line };
}

impl<S: Steps> Piecewise<S> {
    /// The text of these steps, with room for the longest piece: the steps are gone through once to measure it.
    ///
    /// `Memory`: an allocation failed, or a piece is longer than can be counted.
    pub fn new(alloc: Global, steps: S) -> Result<Piecewise<S>, Memory>
        ensures { IfOk result (λ text. text.rest ≡ concat (S.pieces steps)) }
    {
        let most = longest_piece(alloc, steps)?;
        Piecewise::with_longest(alloc, steps, most)
    }

    /// The same, where no piece is longer than `most` bytes.
    #[tactic(auto, using(crate::proofs::Sheets::measures))]
    pub fn with_longest(alloc: Global, steps: S, most: usize) -> Result<Piecewise<S>, Memory>
        requires { longest (S.pieces steps) ≤ most }
        ensures { IfOk result (λ text. text.rest ≡ concat (S.pieces steps)) }
    {
        let line = Line::with_room(alloc, most)?;
        Ok(Piecewise { steps, line })
    }
}

impl<S: Steps> Pieces for Piecewise<S> {
    ghost rest = { λ text. text.rest };

    ghost current = { λ text. text.current };

    #[tactic(auto, using(crate::proofs::Sheets::fits))]
    fn advance(&mut self) -> bool {
        self.line.clear();
        self.steps.step(&mut self.line)
    }

    fn piece(&self) -> &[u8] {
        self.line.bytes()
    }
}
