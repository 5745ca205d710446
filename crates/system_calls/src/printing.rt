//! The line that `println` of java/io/PrintStream prints.

ghost use Rattle.std.specs.Prelude.{◌≡◌, ◌++◌, ◌<◌, ◌≤◌, ◌∷◌, [], ℕ, List, length, take, OnOk, OnErr};
ghost use Rattle.jk_model.specs.declared.output.Line.TheVariants as line;
ghost use Rattle.jk_model.specs.Outside.{HasRisen, NeverFalls};
ghost use Rattle.jk_model.specs.Text.{shown};
ghost use Rattle.jk_model_domains.specs.Objects.{Text};
ghost use Rattle.jk_outside.specs.CutTexts.{BreaksOff, Sends, rest_of_pieces, whole_pieces};
ghost use Rattle.jk_outside.specs.SeveralLines.{PrintsLines};
ghost use Rattle.object_store.specs.HeapContents.{IsLive};
ghost use Rattle.heap_loops.specs.TextChanges.{HasUnits};
ghost use Rattle.system_calls.specs.Wordings.{IsWorded};

use crate::units::read_units;
use crate::wordings::Wording;
use class_table::ClassTable;
use heap_loops::text_len;
use jk_model::DomainId;
use jk_outside::{LineBuffer, Sink, SinkFailed};
use object_store::ObjectStore;

/// How many units of a text are read at once.
const CHUNK: usize = 64;

/// Prints a line of what a domain of this name says: its name, `: ` and the wording.
pub(crate) fn print_said<H: ObjectStore, S: Sink>(
    heap: &H,
    t: &ClassTable,
    d: DomainId,
    name: &[u8],
    said: &Wording,
    out: &mut S,
) -> Result<(), SinkFailed>
    requires { (text : List ℕ) × IsWorded ((H.content heap.now).heap d) said.now text }
    ensures { (text : List ℕ) → IsWorded ((H.content heap.now).heap d) said.now text
        → PrintsLines (S.bytes out.old) (S.bytes out.new) (S.pieces out.old) (S.pieces out.new) (S.faults out.old) (S.faults out.new) result
        (line.Said name.now text ∷ []) }
{
    let mut buffer = LineBuffer::new();
    buffer.put_bytes(name, out)?;
    buffer.put_bytes(b": ", out)?;
    put_wording(&mut buffer, heap, t, d, said, out)?;
    buffer.end_line(out)
}

/// Puts a wording into a line.
fn put_wording<H: ObjectStore, S: Sink>(
    buffer: &mut LineBuffer,
    heap: &H,
    t: &ClassTable,
    d: DomainId,
    said: &Wording,
    out: &mut S,
) -> Result<(), SinkFailed>
    requires few { length buffer.old < 256 }
    requires words { (text : List ℕ) × IsWorded ((H.content heap.now).heap d) said.now text }
    ensures sent { (text : List ℕ) → IsWorded ((H.content heap.now).heap d) said.now text → OnOk result (Sends (S.bytes out.old) (S.bytes out.new)
        (S.pieces out.old) (S.pieces out.new) (whole_pieces (buffer.old ++ shown text))) }
    ensures held { (text : List ℕ) → IsWorded ((H.content heap.now).heap d) said.now text
        → OnOk result (buffer.new ≡ rest_of_pieces (buffer.old ++ shown text)) }
    ensures part { (text : List ℕ) → IsWorded ((H.content heap.now).heap d) said.now text → OnErr result (BreaksOff (S.bytes out.old) (S.bytes out.new)
        (S.pieces out.old) (S.pieces out.new) (whole_pieces (buffer.old ++ shown text))) }
    ensures cause { OnErr result (HasRisen (S.faults out.old) (S.faults out.new)) }
    ensures calm { OnOk result (S.faults out.new ≡ S.faults out.old) }
    ensures faults { NeverFalls (S.faults out.old) (S.faults out.new) }
    ensures kept { length buffer.new < 256 }
{
    match said {
        Wording::Short(text) => buffer.put_escaped(text.as_slice(), out),
        Wording::Text(a) => put_text(buffer, heap, t, d, *a, out),
    }
}

/// Puts the units of a text into a line, chunk by chunk.
fn put_text<H: ObjectStore, S: Sink>(
    buffer: &mut LineBuffer,
    heap: &H,
    t: &ClassTable,
    d: DomainId,
    text: u32,
    out: &mut S,
) -> Result<(), SinkFailed>
    requires few { length buffer.old < 256 }
    requires text { HasUnits (H.content heap.now) d text 0 }
    ensures sent { (units : List ℕ) → IsLive (H.content heap.now) d text (Text units) → OnOk result (Sends (S.bytes out.old) (S.bytes out.new)
        (S.pieces out.old) (S.pieces out.new) (whole_pieces (buffer.old ++ shown units))) }
    ensures held { (units : List ℕ) → IsLive (H.content heap.now) d text (Text units)
        → OnOk result (buffer.new ≡ rest_of_pieces (buffer.old ++ shown units)) }
    ensures part { (units : List ℕ) → IsLive (H.content heap.now) d text (Text units) → OnErr result (BreaksOff (S.bytes out.old) (S.bytes out.new)
        (S.pieces out.old) (S.pieces out.new) (whole_pieces (buffer.old ++ shown units))) }
    ensures cause { OnErr result (HasRisen (S.faults out.old) (S.faults out.new)) }
    ensures calm { OnOk result (S.faults out.new ≡ S.faults out.old) }
    ensures faults { NeverFalls (S.faults out.old) (S.faults out.new) }
    ensures kept { length buffer.new < 256 }
{
    let len = text_len(heap, d, text);
    let mut chunk = [0; CHUNK];
    let mut from = 0;
    while from < len {
        let count = read_units(heap, t, d, text, from, len, &mut chunk);
        let units = front_of(&chunk, count);
        buffer.put_escaped(units, out)?;
        from += count as u32;
    }
    Ok(())
}

/// So many units from the front on.
fn front_of(units: &[u16], count: usize) -> &[u16]
    requires { count ≤ length units.now }
    ensures { result.now ≡ take count units.now }
{
    &units[..count]
}
