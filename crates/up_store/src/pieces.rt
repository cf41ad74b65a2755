ghost use Rattle.std.specs.Prelude.{◌≡◌, ◌≢◌, ◌↔◌, ℕ, List, [], ◌++◌, IsTrue};

/// A text that is handed out piece by piece.
///
/// `advance` goes to the next piece and `piece` lends it, since the piece may stand in the value itself.
pub trait Pieces {
    /// The bytes that are still to come.
    ghost rest: { Self → List ℕ };

    /// The piece that was gone to last.
    ghost current: { Self → List ℕ };

    /// Goes to the next piece, or answers false where nothing is left. It takes no memory.
    fn advance(&mut self) -> bool
        ensures piece { IsTrue result → rest self.old ≡ current self.new ++ rest self.new }
        ensures some { IsTrue result → current self.new ≢ [] }
        ensures more { IsTrue result ↔ (rest self.old ≢ []) }
        ensures end { ¬ IsTrue result → rest self.new ≡ [] };

    /// The piece that was gone to last.
    fn piece(&self) -> &[u8]
        ensures { result.now ≡ current self.now };
}
