//! How many items of an array may be copied into an array of an element type.

ghost use Rattle.std.specs.Prelude.{◌≡◌, ◌+◌, ◌↔◌, IsTrue, IsSome, List, take, drop};
ghost use Rattle.jk_model.specs.declared.values.Value.{Value as AValue};
ghost use Rattle.jk_model_classes.specs.declared.records.TypeRef.{TypeRef as AType};
ghost use Rattle.jk_model_domains.specs.Objects.{Array};
ghost use Rattle.jk_model_heaps.specs.Workings.{Setting};
ghost use Rattle.jk_model_system_rows.specs.ArrayCopies.{IsFront, number_kind};
ghost use Rattle.object_store.specs.HeapContents.{IsLive};
ghost use Rattle.heap_loops.specs.ItemChanges.{HasItems};
ghost use Rattle.heap_loops.specs.KnownItems.{HasKnownItems};

use class_table::ClassTable;
use instance_tests::{CapabilityTests, is_null_or_instance};
use jk_model::DomainId;
use jk_model_classes::{BaseRef, TypeRef};
use object_store::ObjectStore;

/// How many of so many items of an array, from a place on, stand before the first that doesn't fit an element type: null fits, and an
/// instance does. All of them where each fits, and where they are whole numbers.
pub fn fitting_items<H: ObjectStore, C: CapabilityTests>(
    heap: &H,
    caps: &C,
    t: &ClassTable,
    d: DomainId,
    source: u32,
    from: u32,
    count: u32,
    kind: &TypeRef,
) -> u32
    requires source { HasItems (H.content heap.now) d source (from + count) }
    requires known { HasKnownItems (H.content heap.now) (C.known caps.now).ranges d source kind.now }
    requires right { C.agrees caps.now t.now }
    ensures { (x : Setting) (u : AType) (items : List AValue) → x.classes ≡ t.now → x.caps ≡ C.known caps.now
        → IsLive (H.content heap.now) d source (Array u items)
        → IsFront x ((H.content heap.now).heap d) kind.now (take count (drop from items)) result }
{
    if are_numbers(kind) {
        return count;
    }
    for i in 0..count {
        let item = heap.read(t, d, source, from + i);
        if !is_null_or_instance(heap, caps, t, d, item, kind) {
            return i;
        }
    }
    count
}

/// Whether values of a type are whole numbers.
fn are_numbers(t: &TypeRef) -> bool
    ensures { IsTrue result ↔ IsSome (number_kind t.now) }
{
    t.dims == 0 && !matches!(t.base, BaseRef::Class(_))
}
