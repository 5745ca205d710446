//! Copies are filled with what their sources have, but for transient fields.

ghost use Rattle.std.specs.Prelude.{◌≡◌, ℕ, List, [], ◌∷◌, map};
ghost use Rattle.jk_model_domains.specs.Objects.{Object as AnObject};
ghost use Rattle.object_store.specs.HeapContents.{IsLive, WritesObject};
ghost use Rattle.graph_copy.specs.Chains.{IsChain, first_source};
ghost use Rattle.graph_copy.specs.Filled.{Fills, HaveImages, MayFill, MayFillOne, copied_object, image_of};
ghost use Rattle.graph_copy.specs.Kinds.{IsKnown};

use crate::kinds::{KnownClass, is_kept, kind_of};
use crate::marks::{copy_of, next_of};
use class_table::ClassTable;
use jk_model::{Args, DomainId, Value};
use object_store::ObjectStore;

/// What stands in a copy for a value: the copy of an object, and any other value itself.
fn image<H: ObjectStore>(store: &H, from: DomainId, v: Value) -> Value
    requires { HaveImages (H.content store.now) from (v ∷ []) }
    ensures { result ≡ image_of ((H.content store.now).mark from) v }
{
    match v {
        Value::Obj(a) => Value::Obj(copy_of(store, from, a)),
        _ => v,
    }
}

/// Fills the copy of an object. It takes one step for each place, and as `kind_of`.
fn fill_one<H: ObjectStore>(
    store: &mut H,
    t: &ClassTable,
    from: DomainId,
    to: DomainId,
    a: u32,
    b: u32,
    last: &mut Option<KnownClass>,
)
    requires may { MayFillOne (H.content store.old) t.now from to a b }
    requires known { IsKnown t.now last.old }
    ensures known { IsKnown t.now last.new }
    ensures written { (object : AnObject) → IsLive (H.content store.old) from a object
        → WritesObject (H.content store.old) (H.content store.new) to b (copied_object t.now ((H.content store.old).mark from) object) }
{
    let shape = store.shape(from, a);
    let kind = kind_of(t, &shape, last);
    for i in 0..kind.places {
        if !is_kept(t, &shape, &kind, i) {
            continue;
        }
        let v = image(store, from, store.read(t, from, a, i));
        store.write(t, to, b, i, v);
    }
}

/// Fills the copies of a chain, from its first source on.
pub(crate) fn fill<H: ObjectStore>(
    store: &mut H,
    t: &ClassTable,
    from: DomainId,
    to: DomainId,
    first: Option<u32>,
)
    requires { MayFill (H.content store.old) t.now from to first }
    ensures { (pairs : List (ℕ × ℕ)) → IsChain (H.content store.old) from to pairs → first ≡ first_source pairs
        → Fills (H.content store.old) (H.content store.new) t.now from to pairs }
{
    let mut last = None;
    let mut next = first;
    while let Some(a) = next {
        let b = copy_of(store, from, a);
        fill_one(store, t, from, to, a, b, &mut last);
        next = next_of(store.mark(to, b));
    }
}

/// Replaces values by what stands for them in copies.
pub(crate) fn replace<H: ObjectStore>(store: &H, from: DomainId, values: &mut Args)
    requires { HaveImages (H.content store.now) from values.old }
    ensures { values.new ≡ map (image_of ((H.content store.now).mark from)) values.old }
{
    for i in 0..values.len() {
        let v = image(store, from, values.get(i));
        values.set(i, v);
    }
}
