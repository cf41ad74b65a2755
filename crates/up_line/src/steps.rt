ghost use Rattle.std.specs.Prelude.{◌≡◌, ◌≢◌, ◌∷◌, [], ◌≤◌, ℕ, List, IsTrue, IfOk};
ghost use Rattle.std.specs.List.{concat};
ghost use Rattle.up_line.specs.Sheet.{after};
ghost use Rattle.up_line.specs.Steps.{longest};

use crate::line::Line;
use std::alloc::Global;
use up_text::Memory;

/// A text that is written a piece at a step.
pub trait Steps: Copy {
    /// The pieces that are still to come.
    ghost pieces: { Self → List (List ℕ) };

    /// The next piece, where there is one.
    ghost piece: { Self → List ℕ };

    /// Puts the next piece and goes on, or answers false where none is left.
    fn step(&mut self, line: &mut Line) -> bool
        ensures end { ¬ IsTrue result → pieces self.old ≡ [] }
        ensures over { ¬ IsTrue result → pieces self.new ≡ [] }
        ensures kept { ¬ IsTrue result → line.new ≡ line.old }
        ensures more { IsTrue result → pieces self.old ≡ piece self.old ∷ pieces self.new }
        ensures some { IsTrue result → piece self.old ≢ [] }
        ensures put { IsTrue result → line.new ≡ after line.old (piece self.old) };
}

/// The length of the longest piece, in bytes, or 0 where there is none. `Memory`: a piece is longer than can be counted.
#[tactic(auto, using(crate::proofs::Sheets::measures), unfolding(crate::specs::Steps::longest))]
pub fn longest_piece<S: Steps>(alloc: Global, steps: S) -> Result<usize, Memory>
    ensures { IfOk result (λ n. n ≡ longest (S.pieces steps)) }
{
    let mut steps = steps;
    let mut line = Line::measuring(alloc);
    let mut most = 0;
    while steps.step(&mut line) {
        let count = match line.count() {
            Some(count) => count,
            None => return Err(Memory),
        };
        most = count.max(most);
        line.clear();
    }
    Ok(most)
}

/// The whole text, in one allocation. `Memory`: it failed, or the text is longer than can be counted.
#[tactic(auto, using(crate::proofs::Sheets::measures))]
pub fn whole_text<S: Steps>(alloc: Global, steps: S) -> Result<Vec<u8>, Memory>
    ensures { IfOk result (λ text. text.items ≡ concat (S.pieces steps)) }
{
    let mut measure = Line::measuring(alloc);
    put_all(steps, &mut measure);
    let room = match measure.count() {
        Some(count) => count,
        None => return Err(Memory),
    };
    let mut line = Line::with_room(alloc, room)?;
    put_all(steps, &mut line);
    Ok(line.into_bytes())
}

#[tactic(auto, using(crate::proofs::Sheets::measures))]
fn put_all<S: Steps>(steps: S, line: &mut Line)
    ensures { line.new ≡ after line.old (concat (S.pieces steps)) }
{
    let mut steps = steps;
    while steps.step(line) {}
}
