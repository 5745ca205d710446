//! A sink over a writer of the system.

ghost use Rattle.std.specs.Prelude.{◌≡◌, ◌<◌, ◌^◌, ◌+◌, ◌-◌, [], ◌∷◌, ◌++◌, length, min, OnOk, OnErr, None};
ghost use Rattle.std.specs.Bool.{OnTrue, OnFalse};
ghost use Rattle.jk_model.specs.Outside.{Appends, AppendsPart, HasRisen, NeverFalls};
ghost use Rattle.jk_outside.specs.Counts.{min_fits};
ghost use Rattle.jk_outside.specs.Streams.{Takes, TakesPart};

use crate::handed_pieces::HandedPieces;
use crate::sinks::{Sink, SinkFailed};
use std::io::{ErrorKind, Write};
use std::marker::Model;

/// A sink that gives each piece to a writer and flushes it. An error of the writer is a fault, and so
/// is a write that takes nothing; one that was interrupted is tried again.
#[derive(Drop)]
pub struct StreamSink<W: Write> {
    writer: W,
    handed: HandedPieces,
    faults: u64,
}

/// Contracts see what its writer holds, its pieces and its count of faults, which stands still at
/// 2 ^ 64 - 1.
impl<W: Write> Model for StreamSink<W> {
    ghost use Rattle.jk_outside.specs.Streams.{StreamState};

    ghost Value = { StreamState };

    ghost view = { λ s. record {
      contents = W.contents s.writer;
      pieces = s.handed.pieces;
      faults = s.faults;
    } };
}

impl<W: Write> StreamSink<W> {
    /// A sink over a writer, with no fault yet.
    pub fn new(writer: W) -> StreamSink<W>
        ensures { result ≡ record { contents = W.contents writer; pieces = []; faults = 0 } }
    {
        StreamSink {
            writer,
            handed: HandedPieces::new(),
            faults: 0,
        }
    }

    /// How many faults there were.
    pub fn faults(&self) -> u64
        ensures { result ≡ self.now.faults }
    {
        self.faults
    }

    /// The writer.
    pub fn into_writer(self) -> W
        ensures { W.contents result ≡ self.contents }
    {
        let StreamSink {
            writer,
            handed: _,
            faults: _,
        } = self;
        writer
    }
}

impl<W: Write> Sink for StreamSink<W> {
    ghost bytes = { λ _. None };

    ghost pieces = { λ s. s.pieces };

    ghost faults = { λ s. min s.faults (2 ^ 64 - 1) };

    ghost faults_fit = { λ s. min_fits s.faults };

    fn write(&mut self, piece: &[u8]) -> Result<(), SinkFailed>
        requires { 0 < length piece.now }
        ensures handed { self.new.pieces ≡ self.old.pieces ++ piece.now ∷ [] }
        ensures ok { OnOk result (Appends None None piece.now) }
        ensures part { OnErr result (AppendsPart None None piece.now) }
        ensures cause { OnErr result
            (HasRisen (min self.old.faults (2 ^ 64 - 1)) (min self.new.faults (2 ^ 64 - 1))) }
        ensures calm { OnOk result (min self.new.faults (2 ^ 64 - 1) ≡ min self.old.faults (2 ^ 64 - 1)) }
        ensures faults { NeverFalls (min self.old.faults (2 ^ 64 - 1)) (min self.new.faults (2 ^ 64 - 1)) }

        // The writer took all of the piece, or a part of it.
        ensures taken { OnOk result (Takes self.old.contents self.new.contents piece.now) }
        ensures taken_part { OnErr result (TakesPart self.old.contents self.new.contents piece.now) }

        // The count rises at each fault and nowhere else.
        ensures quiet { OnOk result (self.new.faults ≡ self.old.faults) }
        ensures counted { OnErr result (self.new.faults ≡ min (self.old.faults + 1) (2 ^ 64 - 1)) }
    {
        self.handed.note(piece);
        if is_taken(&mut self.writer, piece) {
            return Ok(());
        }
        self.faults = self.faults.saturating_add(1);
        Err(SinkFailed)
    }
}

/// Gives a piece to a writer and flushes it. Whether that went well.
fn is_taken<W: Write>(writer: &mut W, piece: &[u8]) -> bool
    ensures whole { OnTrue result (Takes (W.contents writer.old) (W.contents writer.new) piece.now) }
    ensures part { OnFalse result (TakesPart (W.contents writer.old) (W.contents writer.new) piece.now) }
{
    let mut rest = piece;
    for _try in 0..u64::MAX {
        if rest.is_empty() {
            return writer.flush().is_ok();
        }
        match writer.write(rest) {
            Ok(0) => return false,
            Ok(taken) => rest = rest.split_at(taken).1,
            Err(error) => {
                if error.kind() != ErrorKind::Interrupted {
                    return false;
                }
            }
        }
    }
    false
}
