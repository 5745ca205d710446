//! A line of parts, written to a sink.

ghost use Rattle.std.specs.Prelude.{◌≡◌, ◌<◌, ◌++◌, ◌∷◌, [], length, OnOk, OnErr};
ghost use Rattle.jk_model.specs.Outside.{Appends, AppendsPart, HasRisen, NeverFalls};
ghost use Rattle.jk_outside.specs.CutTexts.{cut_text, whole_pieces, rest_of_pieces, Sends, BreaksOff};
ghost use Rattle.jk_outside.specs.Lines.{part_text, parts_text, Prints};

use crate::line_buffer::LineBuffer;
use crate::parts::Part;
use crate::sinks::{Sink, SinkFailed};

/// Puts one part of a line.
fn put_part<S: Sink>(buffer: &mut LineBuffer, part: &Part, sink: &mut S) -> Result<(), SinkFailed>
    ensures sent { OnOk result (Sends (S.bytes sink.old) (S.bytes sink.new)
        (S.pieces sink.old) (S.pieces sink.new) (whole_pieces (buffer.old ++ part_text part.now))) }
    ensures held { OnOk result (buffer.new ≡ rest_of_pieces (buffer.old ++ part_text part.now)) }
    ensures part { OnErr result (BreaksOff (S.bytes sink.old) (S.bytes sink.new)
        (S.pieces sink.old) (S.pieces sink.new) (whole_pieces (buffer.old ++ part_text part.now))) }
    ensures cause { OnErr result (HasRisen (S.faults sink.old) (S.faults sink.new)) }
    ensures calm { OnOk result (S.faults sink.new ≡ S.faults sink.old) }
    ensures faults { NeverFalls (S.faults sink.old) (S.faults sink.new) }
    ensures few { length buffer.new < 256 }
{
    match part {
        Part::Bytes(bytes) => buffer.put_bytes(bytes, sink),
        Part::Escaped(units) => buffer.put_escaped(units, sink),
        Part::Path(path) => buffer.put_path(path, sink),
        Part::Number(n) => buffer.put_number(*n, sink),
    }
}

/// Prints a line of these parts and its line feed.
pub(crate) fn print_parts<S: Sink>(sink: &mut S, parts: &[Part]) -> Result<(), SinkFailed>
    ensures { Prints (S.bytes sink.old) (S.bytes sink.new) (S.pieces sink.old) (S.pieces sink.new)
        (S.faults sink.old) (S.faults sink.new) result (parts_text parts.now) }
{
    let mut buffer = LineBuffer::new();
    for part in parts {
        put_part(&mut buffer, part, sink)?;
    }
    buffer.end_line(sink)
}

/// Writes a line of these parts and its line feed. The sink is handed its text in pieces of 256 bytes
/// and a shorter rest, up to a piece that fails.
pub fn write_line<S: Sink>(sink: &mut S, parts: &[Part]) -> Result<(), SinkFailed>
    ensures ok { OnOk result (Appends (S.bytes sink.old) (S.bytes sink.new) (parts_text parts.now)) }
    ensures pieces { OnOk result (S.pieces sink.new ≡ S.pieces sink.old ++ cut_text (parts_text parts.now)) }
    ensures part { OnErr result (AppendsPart (S.bytes sink.old) (S.bytes sink.new) (parts_text parts.now)) }
    ensures pieces_part { OnErr result (BreaksOff (S.bytes sink.old) (S.bytes sink.new)
        (S.pieces sink.old) (S.pieces sink.new) (cut_text (parts_text parts.now))) }
    ensures cause { OnErr result (HasRisen (S.faults sink.old) (S.faults sink.new)) }
    ensures calm { OnOk result (S.faults sink.new ≡ S.faults sink.old) }
    ensures faults { NeverFalls (S.faults sink.old) (S.faults sink.new) }
{
    print_parts(sink, parts)
}
