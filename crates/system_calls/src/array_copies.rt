//! `arraycopy` of java/lang/System.

ghost use Rattle.std.specs.Prelude.{◌≡◌, ◌+◌, ◌≤◌, ◌↔◌, IsTrue, pos, [], ◌∷◌, MatchOption};
ghost use Rattle.jk_model.specs.declared.values.Value.TheVariants as Held;
ghost use Rattle.jk_model_domains.specs.NumberRows.{is_null};
ghost use Rattle.jk_model_heaps.specs.Heaps.{heap_words};
ghost use Rattle.jk_model_heaps.specs.References.{IsHeapArray};
ghost use Rattle.jk_model_heaps.specs.Workings.{Inside, Setting, with_heap};
ghost use Rattle.jk_model_system_rows.specs.Answers.{with_answer};
ghost use Rattle.jk_model_system_rows.specs.ArrayCopies.{CopiesArray, number_kind};
ghost use Rattle.object_store.specs.HeapContents.{HeapBecomes};
ghost use Rattle.system_calls.specs.DoneRows.{IsFor, IsReady, answer_of};
ghost use Rattle.system_calls.specs.FoundArrays.{IsAsFound, IsRange, KnowsItems, NamesObject};

use crate::answers::Answer;
use class_table::ClassTable;
use heap_loops::{copy_items, fitting_items};
use instance_tests::CapabilityTests;
use jk_model::{DomainId, Raise, Value};
use jk_model_classes::{BaseRef, TypeRef};
use jk_model_heaps::Shape;
use jk_model_heaps::system_classes::{
    ARRAY_INDEX_EXCEPTION, ARRAY_STORE_EXCEPTION, NULL_POINTER_EXCEPTION,
};
use object_store::ObjectStore;

/// What is raised where an array doesn't take the other's elements.
const NO_STORE: Raise = Raise::Fresh(ARRAY_STORE_EXCEPTION);

/// What is raised where a place or the count is negative, or a range passes its array's end.
const OUTSIDE: Raise = Raise::Fresh(ARRAY_INDEX_EXCEPTION);

/// An array, the type of its elements and how many it has.
#[derive(Clone, Copy)]
pub(crate) struct FoundArray {
    pub(crate) name: u32,
    pub(crate) element: TypeRef,
    pub(crate) len: u32,
}

/// Copies elements of an array into another as if through a third: so many from a place of the source on, to a place of the target. Of
/// references, those in front of the first that doesn't fit the target are copied, and then ArrayStoreException is raised.
pub(crate) fn copy_array<H: ObjectStore, C: CapabilityTests>(
    heap: &mut H,
    caps: &C,
    t: &ClassTable,
    d: DomainId,
    source: Value,
    from: i32,
    target: Value,
    to: i32,
    count: i32,
) -> Answer
    requires ready { IsReady (H.content heap.old) t.now d }
    requires source { NamesObject (H.content heap.old) d source }
    requires target { NamesObject (H.content heap.old) d target }
    requires known { KnowsItems (H.content heap.old) (C.known caps.now).ranges d }
    requires right { C.agrees caps.now t.now }
    ensures becomes { HeapBecomes (H.content heap.old) (H.content heap.new) d ((H.content heap.new).heap d)
        (heap_words t.now ((H.content heap.new).heap d)) }
    ensures row { (x : Setting) (inside : Inside) → IsFor (H.content heap.old) t.now d x inside → x.caps ≡ C.known caps.now
        → CopiesArray x (source ∷ Held.Int from ∷ target ∷ Held.Int to ∷ Held.Int count ∷ []) inside
        (with_answer (with_heap inside ((H.content heap.new).heap d)) (answer_of result)) }
{
    if is_null(source) {
        return Err(Raise::Fresh(NULL_POINTER_EXCEPTION));
    }
    if is_null(target) {
        return Err(Raise::Fresh(NULL_POINTER_EXCEPTION));
    }
    let Some(a) = array_at(heap, d, source) else {
        return Err(NO_STORE);
    };
    let Some(b) = array_at(heap, d, target) else {
        return Err(NO_STORE);
    };
    if !are_of_one_kind(&a.element, &b.element) {
        return Err(NO_STORE);
    }
    copy_range(heap, caps, t, d, &a, from, &b, to, count)
}

/// Whether a value is null.
fn is_null(v: Value) -> bool
    ensures { result ≡ is_null v }
{
    matches!(v, Value::Null)
}

/// As `copy_array`, between two arrays whose elements are of one kind.
fn copy_range<H: ObjectStore, C: CapabilityTests>(
    heap: &mut H,
    caps: &C,
    t: &ClassTable,
    d: DomainId,
    source: &FoundArray,
    from: i32,
    target: &FoundArray,
    to: i32,
    count: i32,
) -> Answer
    requires ready { IsReady (H.content heap.old) t.now d }
    requires source { IsAsFound (H.content heap.old) d source.now }
    requires target { IsAsFound (H.content heap.old) d target.now }
    requires kind { number_kind source.now.element ≡ number_kind target.now.element }
    requires known { KnowsItems (H.content heap.old) (C.known caps.now).ranges d }
    requires right { C.agrees caps.now t.now }
    ensures becomes { HeapBecomes (H.content heap.old) (H.content heap.new) d ((H.content heap.new).heap d)
        (heap_words t.now ((H.content heap.new).heap d)) }
    ensures row { (x : Setting) (inside : Inside) → IsFor (H.content heap.old) t.now d x inside → x.caps ≡ C.known caps.now
        → CopiesArray x (Held.Obj source.now.name ∷ Held.Int from ∷ Held.Obj target.now.name ∷ Held.Int to ∷ Held.Int count ∷ []) inside
        (with_answer (with_heap inside ((H.content heap.new).heap d)) (answer_of result)) }
{
    let Some((first, many)) = range_in(from, count, source.len) else {
        return Err(OUTSIDE);
    };
    let Some((place, _)) = range_in(to, count, target.len) else {
        return Err(OUTSIDE);
    };
    let fitting = fitting_items(heap, caps, t, d, source.name, first, many, &target.element);
    copy_items(heap, t, d, source.name, first, target.name, place, fitting);
    if fitting == many {
        Ok(None)
    } else {
        Err(NO_STORE)
    }
}

/// An array by a reference to it. None where the reference is to anything else.
fn array_at<H: ObjectStore>(heap: &H, d: DomainId, v: Value) -> Option<FoundArray>
    requires { NamesObject (H.content heap.now) d v }
    ensures { MatchOption result (IsHeapArray ((H.content heap.now).heap d) v → ⊥)
        (λ f. (v ≡ Held.Obj f.name) × IsAsFound (H.content heap.now) d f) }
{
    let Value::Obj(name) = v else {
        return None;
    };
    match heap.shape(d, name) {
        Shape::Array(element, len) => Some(FoundArray { name, element, len }),
        _ => None,
    }
}

/// Whether elements of two types are of one whole-number kind, or both references.
fn are_of_one_kind(a: &TypeRef, b: &TypeRef) -> bool
    ensures { IsTrue result ↔ (number_kind a.now ≡ number_kind b.now) }
{
    match (kind_of(a), kind_of(b)) {
        (Some(k), Some(l)) => k == l,
        (None, None) => true,
        _ => false,
    }
}

/// Which whole numbers values of a type are; none where they are references.
fn kind_of(t: &TypeRef) -> Option<BaseRef>
    ensures { result ≡ number_kind t.now }
{
    match t.base {
        BaseRef::Class(_) => None,
        base if t.dims == 0 => Some(base),
        _ => None,
    }
}

/// Where so many elements from a place on begin in an array of this length, and how many they are; none where it hasn't all of these
/// places.
fn range_in(place: i32, count: i32, len: u32) -> Option<(u32, u32)>
    requires { len ≤ 16777216 }
    ensures { MatchOption result (IsRange place count len → ⊥)
        (λ range. (place ≡ pos range.0) × (count ≡ pos range.1) × (range.0 + range.1 ≤ len)) }
{
    if place < 0 || count < 0 {
        return None;
    }
    let first = place as u32;
    let many = count as u32;
    if first <= len && many <= len - first {
        Some((first, many))
    } else {
        None
    }
}
