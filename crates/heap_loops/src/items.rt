//! Items of arrays.

ghost use Rattle.std.specs.Prelude.{◌≡◌, ◌+◌, ◌≤◌};
ghost use Rattle.heap_loops.specs.ItemChanges.{AreOfOneKind, HasItems, ItemMove, MovesItems};

use class_table::ClassTable;
use jk_model::DomainId;
use object_store::ObjectStore;

/// Copies so many items of an array, from a place on, into an array at a place, which may be the same one: the target has the
/// items that the source had before. Both ranges end within their arrays, whose elements are of one kind.
pub fn copy_items<H: ObjectStore>(
    heap: &mut H,
    t: &ClassTable,
    d: DomainId,
    source: u32,
    from: u32,
    target: u32,
    to: u32,
    count: u32,
)
    requires source { HasItems (H.content heap.old) d source (from + count) }
    requires target { HasItems (H.content heap.old) d target (to + count) }
    requires kind { AreOfOneKind (H.content heap.old) d source target }
    ensures { let moved : ItemMove = record { source = source; from = from; target = target; to = to; count = count } in
        MovesItems (H.content heap.old) (H.content heap.new) d moved }
{
    if source == target && from < to {
        copy_backwards(heap, t, d, source, from, target, to, count);
    } else {
        copy_forwards(heap, t, d, source, from, target, to, count);
    }
}

/// As `copy_items`, the first item first: of one array, to no later place.
fn copy_forwards<H: ObjectStore>(
    heap: &mut H,
    t: &ClassTable,
    d: DomainId,
    source: u32,
    from: u32,
    target: u32,
    to: u32,
    count: u32,
)
    requires source { HasItems (H.content heap.old) d source (from + count) }
    requires target { HasItems (H.content heap.old) d target (to + count) }
    requires kind { AreOfOneKind (H.content heap.old) d source target }
    requires way { source ≡ target → to ≤ from }
    ensures { let moved : ItemMove = record { source = source; from = from; target = target; to = to; count = count } in
        MovesItems (H.content heap.old) (H.content heap.new) d moved }
{
    for i in 0..count {
        let item = heap.read(t, d, source, from + i);
        heap.write(t, d, target, to + i, item);
    }
}

/// As `copy_items`, the last item first: of one array, to no earlier place.
fn copy_backwards<H: ObjectStore>(
    heap: &mut H,
    t: &ClassTable,
    d: DomainId,
    source: u32,
    from: u32,
    target: u32,
    to: u32,
    count: u32,
)
    requires source { HasItems (H.content heap.old) d source (from + count) }
    requires target { HasItems (H.content heap.old) d target (to + count) }
    requires kind { AreOfOneKind (H.content heap.old) d source target }
    requires way { source ≡ target → from ≤ to }
    ensures { let moved : ItemMove = record { source = source; from = from; target = target; to = to; count = count } in
        MovesItems (H.content heap.old) (H.content heap.new) d moved }
{
    for i in (0..count).rev() {
        let item = heap.read(t, d, source, from + i);
        heap.write(t, d, target, to + i, item);
    }
}
