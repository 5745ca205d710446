//! The units of a text in a heap.

ghost use Rattle.std.specs.Prelude.{◌≡◌, ◌-◌, ◌+◌, ◌≤◌, ℕ, List, bytes_eq, length, take, drop, slice_get, Some, min};
ghost use Rattle.jk_model_domains.specs.Objects.{Text};
ghost use Rattle.object_store.specs.HeapContents.{IsLive};
ghost use Rattle.heap_loops.specs.TextChanges.{HasUnits};

use class_table::ClassTable;
use jk_model::{DomainId, Value};
use object_store::ObjectStore;

/// The unit at a place of a text.
pub(crate) fn unit_at<H: ObjectStore>(
    heap: &H,
    t: &ClassTable,
    d: DomainId,
    text: u32,
    i: u32,
) -> u16
    requires { HasUnits (H.content heap.now) d text (i + 1) }
    ensures { (units : List ℕ) → IsLive (H.content heap.now) d text (Text units) → slice_get units i ≡ Some result }
{
    match heap.read(t, d, text, i) {
        Value::Int(unit) => unit as u16,
        _ => unreachable!(),
    }
}

/// Fills a buffer with the units of a text from a place on, and answers how many they are: all that are left, or as many as the
/// buffer has room for.
pub(crate) fn read_units<H: ObjectStore>(
    heap: &H,
    t: &ClassTable,
    d: DomainId,
    text: u32,
    from: u32,
    len: u32,
    buffer: &mut [u16],
) -> usize
    requires units { HasUnits (H.content heap.now) d text len }
    requires within { from ≤ len }
    ensures count { result ≡ min (length buffer.old) (len - from) }
    ensures read { (units : List ℕ) → IsLive (H.content heap.now) d text (Text units) → take result buffer.new ≡ take result (drop from units) }
{
    let count = buffer.len().min((len - from) as usize);
    for i in 0..count {
        buffer[i] = unit_at(heap, t, d, text, from + i as u32);
    }
    count
}

/// Whether two texts of this length have the same units.
pub(crate) fn have_same_units<H: ObjectStore>(
    heap: &H,
    t: &ClassTable,
    d: DomainId,
    a: u32,
    b: u32,
    len: u32,
) -> bool
    requires first { HasUnits (H.content heap.now) d a len }
    requires second { HasUnits (H.content heap.now) d b len }
    ensures { (units others : List ℕ) → IsLive (H.content heap.now) d a (Text units) → IsLive (H.content heap.now) d b (Text others)
        → result ≡ bytes_eq (take len units) (take len others) }
{
    for i in 0..len {
        if unit_at(heap, t, d, a, i) != unit_at(heap, t, d, b, i) {
            return false;
        }
    }
    true
}
