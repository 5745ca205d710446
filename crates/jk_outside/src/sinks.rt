//! A sink, as something that takes bytes.

ghost use Rattle.std.specs.Prelude.{◌≡◌, ℕ, ◌<◌, ◌^◌, List, [], ◌∷◌, ◌++◌, Option, OnOk, OnErr, length};
ghost use Rattle.jk_model.specs.Outside.{Appends, AppendsPart, HasRisen, NeverFalls};

use thiserror::Error;

/// The sink did not take all of a piece. The fault was counted.
#[derive(Clone, Copy, Debug, PartialEq, Eq, Error)]
#[error("cannot write")]
pub struct SinkFailed;

/// Something that takes bytes, one piece after another.
pub trait Sink {
    /// All bytes so far, where they are told.
    ghost bytes: { Self → Option (List ℕ) };

    /// The pieces that it was handed so far, those among them that it did not take whole.
    ghost pieces: { Self → List (List ℕ) };

    /// How many faults there were. At its last value, 2 ^ 64 - 1, it stands still.
    ghost faults: { Self → ℕ };

    /// Appends a piece. Where it fails, a part of the piece, from the front on, was appended. A write
    /// that counts a fault fails.
    fn write(&mut self, piece: &[u8]) -> Result<(), SinkFailed>
        requires { 0 < length piece.now }
        ensures handed { pieces self.new ≡ pieces self.old ++ piece.now ∷ [] }
        ensures ok { OnOk result (Appends (bytes self.old) (bytes self.new) piece.now) }
        ensures part { OnErr result (AppendsPart (bytes self.old) (bytes self.new) piece.now) }
        ensures cause { OnErr result (HasRisen (faults self.old) (faults self.new)) }
        ensures calm { OnOk result (faults self.new ≡ faults self.old) }
        ensures faults { NeverFalls (faults self.old) (faults self.new) };

    /// A count of 64 bits.
    ghost faults_fit: { (s : Self) → faults s < 2 ^ 64 };
}
