//! Units of texts.

ghost use Rattle.std.specs.Prelude.{◌≡◌, ◌≢◌, ℕ, ◌+◌, ◌^◌, ◌<◌, ◌≤◌, List, length, IfOk, OnErr, OnOk};
ghost use Rattle.jk_model_domains.specs.Objects.{Text};
ghost use Rattle.object_store.specs.HeapContents.{IsAdmitted, IsLive, IsSame, MakesObject, words_left};
ghost use Rattle.heap_loops.specs.TextChanges.{CopiesUnits, HasUnits, WritesUnits};

use class_table::ClassTable;
use jk_model::{DomainId, NoRoom, Value};
use jk_model_heaps::Shape;
use object_store::ObjectStore;

/// How many units a text has.
pub fn text_len<H: ObjectStore>(heap: &H, d: DomainId, a: u32) -> u32
    requires { HasUnits (H.content heap.now) d a 0 }
    ensures { (text : List ℕ) → IsLive (H.content heap.now) d a (Text text) → result ≡ length text }
{
    match heap.shape(d, a) {
        Shape::Text(len) => len,
        _ => unreachable!(),
    }
}

/// Sets the units of a text from a place on. They end within the text.
pub fn write_units<H: ObjectStore>(
    heap: &mut H,
    t: &ClassTable,
    d: DomainId,
    a: u32,
    from: u32,
    units: &[u16],
)
    requires { HasUnits (H.content heap.old) d a (from + length units.now) }
    ensures { WritesUnits (H.content heap.old) (H.content heap.new) d a from units.now }
{
    for (i, unit) in units.iter().enumerate() {
        let v = Value::Int(i32::from(*unit));
        heap.write(t, d, a, from + i as u32, v);
    }
}

/// Makes a text of these units. It fails exactly where the text costs more words than are free, and then all is as before.
pub fn make_text<H: ObjectStore>(
    heap: &mut H,
    t: &ClassTable,
    d: DomainId,
    units: &[u16],
) -> Result<u32, NoRoom>
    requires admitted { IsAdmitted (H.content heap.old) d }
    requires few { length units.now < 2 ^ 32 }
    ensures ok { IfOk result (λ a. MakesObject (H.content heap.old) (H.content heap.new) t.now d a (Text units.now)) }
    ensures err { OnErr result (IsSame (H.content heap.old) (H.content heap.new)) }
    ensures room { OnOk result (4 + length units.now ≤ words_left (H.content heap.old) d) }
    ensures no_room { OnErr result (words_left (H.content heap.old) d < 4 + length units.now) }
{
    let a = heap.make(t, d, Shape::Text(units.len() as u32))?;
    write_units(heap, t, d, a, 0, units);
    Ok(a)
}

/// Copies so many units of a text, from a place on, into another text at a place. Both ranges end within their texts.
pub fn copy_units<H: ObjectStore>(
    heap: &mut H,
    t: &ClassTable,
    d: DomainId,
    source: u32,
    from: u32,
    target: u32,
    to: u32,
    count: u32,
)
    requires differ { source ≢ target }
    requires source { HasUnits (H.content heap.old) d source (from + count) }
    requires target { HasUnits (H.content heap.old) d target (to + count) }
    ensures { CopiesUnits (H.content heap.old) (H.content heap.new) d source from target to count }
{
    for i in 0..count {
        let unit = heap.read(t, d, source, from + i);
        heap.write(t, d, target, to + i, unit);
    }
}
