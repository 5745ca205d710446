//! The list of the pieces that a sink was handed. Only contracts know it, and it takes no memory.

ghost use Rattle.std.specs.Prelude.{◌≡◌, ℕ, List, [], ◌∷◌, ◌++◌};
ghost use Rattle.std.specs.Borrow.{ftrue};

use std::marker::Model;

/// A list that contracts read as `pieces`.
#[derive(Drop)]
pub struct HandedPieces {
    pub ghost pieces: { List (List ℕ) },
}

impl Model for HandedPieces {
    ghost also_owns = { λ _. ftrue };
}

impl HandedPieces {
    /// No piece yet.
    pub fn new() -> HandedPieces
        ensures { result.pieces ≡ [] }
    {
        HandedPieces {}
    }

    /// Puts a piece at the end.
    pub fn note(&mut self, _piece: &[u8])
        ensures { self.new.pieces ≡ self.old.pieces ++ _piece.now ∷ [] }
    {}
}
