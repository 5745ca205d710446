//! Objects that are met on the way, put on the queue of those whose values are still to be walked over.

ghost use Rattle.std.specs.Prelude.{◌≡◌, ℕ, ⊤, ◌^◌, ◌<◌, [], ◌∷◌, None, MatchOption};
ghost use Rattle.jk_model_domains.specs.Objects.{Object as AnObject};
ghost use Rattle.jk_model_graphs.specs.Followed.{followed};
ghost use Rattle.object_store.specs.HeapContents.{IsLive, IsName};
ghost use Rattle.graph_copy.specs.Kinds.{IsKindOf};
ghost use Rattle.graph_copy.specs.MetObjects.{AreNamed, HasMet, Meets, MeetsOne};
ghost use Rattle.graph_copy.specs.Places.{IsWalked, followed_at, reference_count};

use crate::kinds::{Kind, is_kept};
use crate::marks::link;
use class_table::ClassTable;
use jk_model::{Args, DomainId, Value};
use jk_model_heaps::Shape;
use object_store::ObjectStore;

/// Puts an object at the head of the queue, unless it is on a queue already.
fn meet<H: ObjectStore>(store: &mut H, d: DomainId, b: u32, head: Option<u32>) -> Option<u32>
    requires named { IsName (H.content store.old) d b }
    requires small { MatchOption head ⊤ (λ a. a < 2 ^ 30) }
    ensures { MeetsOne (H.content store.old) (H.content store.new) d b head result }
{
    if store.mark(d, b) != 0 {
        return head;
    }
    store.set_mark(d, b, link(head));
    Some(b)
}

/// Puts the object that a value names, if it names one, on the queue.
pub(crate) fn meet_value<H: ObjectStore>(
    store: &mut H,
    d: DomainId,
    v: Value,
    head: Option<u32>,
) -> Option<u32>
    requires queue { HasMet (H.content store.old) d head }
    requires named { AreNamed (H.content store.old) d (v ∷ []) }
    ensures { Meets (H.content store.old) (H.content store.new) d (v ∷ []) head result }
{
    match v {
        Value::Obj(b) => meet(store, d, b, head),
        _ => head,
    }
}

/// The queue of the objects that the given values name.
pub(crate) fn meet_given<H: ObjectStore>(store: &mut H, d: DomainId, values: &Args) -> Option<u32>
    requires queue { HasMet (H.content store.old) d None }
    requires named { AreNamed (H.content store.old) d values.now }
    ensures { Meets (H.content store.old) (H.content store.new) d values.now None result }
{
    let mut head = None;
    for i in 0..values.len() {
        head = meet_value(store, d, values.get(i), head);
    }
    head
}

/// Puts the object to which an object of this shape and kind leads at a place, if it leads to one there, on the queue.
fn meet_place<H: ObjectStore>(
    store: &mut H,
    t: &ClassTable,
    d: DomainId,
    a: u32,
    shape: &Shape,
    kind: &Kind,
    i: u32,
    head: Option<u32>,
) -> Option<u32>
    requires queue { HasMet (H.content store.old) d head }
    requires walked { IsWalked (H.content store.old) t.now d a shape.now }
    requires kind { IsKindOf t.now shape.now kind.now }
    requires place { i < reference_count t.now shape.now }
    ensures { (object : AnObject) → IsLive (H.content store.old) d a object
        → Meets (H.content store.old) (H.content store.new) d (followed_at t.now object i) head result }
{
    if !is_kept(t, shape, kind, i) {
        return head;
    }
    let v = store.read(t, d, a, i);
    meet_value(store, d, v, head)
}

/// Puts the objects to which an object of this shape and kind leads on the queue. It takes one step for each place that may hold a reference.
pub(crate) fn meet_places<H: ObjectStore>(
    store: &mut H,
    t: &ClassTable,
    d: DomainId,
    a: u32,
    shape: &Shape,
    kind: &Kind,
    head: Option<u32>,
) -> Option<u32>
    requires queue { HasMet (H.content store.old) d head }
    requires walked { IsWalked (H.content store.old) t.now d a shape.now }
    requires kind { IsKindOf t.now shape.now kind.now }
    ensures { (object : AnObject) → IsLive (H.content store.old) d a object
        → Meets (H.content store.old) (H.content store.new) d (followed t.now object) head result }
{
    let mut next = head;
    for i in 0..kind.references {
        next = meet_place(store, t, d, a, shape, kind, i, next);
    }
    next
}
