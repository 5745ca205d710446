//! Arrays whose items are arrays, made together.

ghost use Rattle.std.specs.Prelude.{◌≡◌, ◌+◌, ◌*◌, ◌^◌, ◌<◌, ◌≤◌, List, length, MatchOption};
ghost use Rattle.jk_model.specs.declared.values.Value.TheVariants as Held;
ghost use Rattle.jk_model_classes.specs.Layouts.{type_words};
ghost use Rattle.jk_model_domains.specs.Objects.{NamedObject};
ghost use Rattle.jk_model_heap_rows.specs.ArrayTrees.{IsTree, element_type, tree_words};
ghost use Rattle.object_store.specs.HeapContents.{HasBase, IsAdmitted, words_left};
ghost use Rattle.heap_loops.specs.ObjectsMade.{MakesObjects};

use class_table::ClassTable;
use jk_model::{DomainId, Value};
use jk_model_classes::{BaseRef, TypeRef};
use jk_model_heaps::Shape;
use object_store::ObjectStore;

/// The most words that a heap has.
const MOST_WORDS: u64 = 16_777_216;

/// What an object costs beside its payload.
const HEADER_WORDS: u64 = 4;

/// The element type of an array type.
pub fn element_of(t: &TypeRef) -> TypeRef
    requires { 0 < t.now.dims }
    ensures { result ≡ element_type t.now }
{
    TypeRef {
        dims: t.dims - 1,
        base: t.base,
    }
}

/// How many words an element of a type takes.
fn element_words(t: &TypeRef) -> u64
    ensures { result ≡ type_words t.now }
{
    match t.base {
        BaseRef::Long if t.dims == 0 => 2,
        _ => 1,
    }
}

/// How many words an array of so many elements costs.
fn array_words(element: &TypeRef, count: u32) -> u64
    ensures cost { result ≡ 4 + type_words element.now * count }
    ensures least { count ≤ result }
    ensures most { result < 2 ^ 34 }
{
    HEADER_WORDS + element_words(element) * u64::from(count)
}

/// How many words the arrays cost together that `make_arrays` makes; none only where they pass the most that a heap has. The array type
/// has as many dimensions as there are counts, or more. It takes one step for each count.
pub fn arrays_words(t: &TypeRef, counts: &[u32]) -> Option<u64>
    requires { length counts.now ≤ t.now.dims }
    ensures { MatchOption result (16777216 < tree_words t.now counts.now) (λ words. words ≡ tree_words t.now counts.now) }
{
    let mut kind = *t;
    let mut arrays = 1u64;
    let mut words = 0u64;
    for count in counts {
        kind = element_of(&kind);
        words += arrays * array_words(&kind, *count);
        if words > MOST_WORDS {
            return None;
        }
        arrays *= u64::from(*count);
    }
    Some(words)
}

/// Makes an array of this type whose length is the first count; where there are more counts, its items are such arrays of these,
/// and else zeros or nulls. The answer is its name. The array type has as many dimensions as there are counts, or more, there is a
/// count, and all of the arrays fit the heap together. It goes as deep as there are counts, of which there are at most 255.
pub fn make_arrays<H: ObjectStore>(
    heap: &mut H,
    t: &ClassTable,
    d: DomainId,
    kind: &TypeRef,
    counts: &[u32],
) -> u32
    requires admitted { IsAdmitted (H.content heap.old) d }
    requires class { HasBase t.now kind.now.base }
    requires some { 0 < length counts.now }
    requires few { length counts.now ≤ kind.now.dims }
    requires room { tree_words kind.now counts.now ≤ words_left (H.content heap.old) d }
    ensures made { (made : List NamedObject) × IsTree kind.now counts.now (record { value = Held.Obj result; objects = made })
        × MakesObjects (H.content heap.old) (H.content heap.new) t.now d made }
    ensures small { result < 2 ^ 30 }
{
    let Some((count, more)) = counts.split_first() else {
        unreachable!();
    };
    let element = element_of(kind);
    let Ok(a) = heap.make(t, d, Shape::Array(element, *count)) else {
        unreachable!();
    };
    if more.is_empty() {
        return a;
    }
    for i in 0..*count {
        let item = make_arrays(heap, t, d, &element, more);
        heap.write(t, d, a, i, Value::Obj(item));
    }
    a
}
