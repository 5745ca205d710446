//! Two heaps whose objects are read and written only where they may be, so that a mistake in a test stops it.

ghost use Rattle.std.specs.Prelude.{◌≡◌, ℕ, ◌<◌, List, None, IfOk, IsTrue, Some, slice_get};
ghost use Rattle.jk_model.specs.declared.identifiers.DomainId.{DomainId as Domain};
ghost use Rattle.jk_model.specs.declared.values.Value.{Value as AValue};
ghost use Rattle.jk_model_domains.specs.Objects.{Text};
ghost use Rattle.object_store.specs.HeapContents.{HasShapeClasses, IsLive, IsName, IsSmall};
ghost use Rattle.graph_copy.specs.AskedOfCopies.{MayBeGiven};
ghost use Rattle.copy_check.specs.ReadyHeaps.{HasValue, IsReady, IsReadyWorld, IsUnit};

use crate::places::{are_of_kind, has_classes, is_unit, places};
use class_table::ClassTable;
use domain_resolver::World;
use graph_copy::{CopyAnswer, copy, would_copy};
use jk_model::{Args, DomainId, Value};
use jk_model_heaps::Shape;
use object_store::ObjectStore;
use std::process::Abort;
use std::test::Fail;

pub(crate) const A: DomainId = DomainId(0);

pub(crate) const B: DomainId = DomainId(1);

/// Gives both domains empty heaps of so many words.
pub(crate) fn open_heaps<H: ObjectStore>(
    rt: &impl Abort,
    store: &mut H,
    t: &ClassTable,
    words: (u32, u32),
) -> Result<(), Fail>
    requires { (d : Domain) → (H.content store.old).quota d ≡ None }
    ensures { IfOk result (λ _. IsReady (H.content store.new) t.now) }
{
    let (a, b) = words;
    assert!(rt; 0 < a && a < 10_000);
    assert!(rt; 0 < b && b < 10_000);
    store.admit(A, a)?;
    store.admit(B, b)?;
    Ok(())
}

/// Whether a domain has an object of this name.
pub(crate) fn is_name<H: ObjectStore>(store: &H, t: &ClassTable, d: DomainId, a: u32) -> bool
    requires domain { d.0 < 2 }
    requires ready { IsReady (H.content store.now) t.now }
    ensures { IsTrue result → IsName (H.content store.now) d a }
{
    let above = if a == 0 { None } else { Some(a - 1) };
    match store.next_name(d, above) {
        Some(b) => a == b,
        None => false,
    }
}

/// Makes an object of zeros and nulls.
pub(crate) fn make<H: ObjectStore>(
    rt: &impl Abort,
    store: &mut H,
    t: &ClassTable,
    d: DomainId,
    shape: Shape,
) -> Result<u32, Fail>
    requires domain { d.0 < 2 }
    requires ready { IsReady (H.content store.old) t.now }
    ensures { IfOk result (λ _. IsReady (H.content store.new) t.now) }
{
    if !has_classes(t, &shape) {
        panic!(rt; "no class of {shape:?}");
    }
    Ok(store.make(t, d, shape)?)
}

/// The shape of an object.
pub(crate) fn shape<H: ObjectStore>(
    rt: &impl Abort,
    store: &H,
    t: &ClassTable,
    d: DomainId,
    a: u32,
) -> Shape
    requires domain { d.0 < 2 }
    requires ready { IsReady (H.content store.now) t.now }
    ensures { HasShapeClasses t.now result }
{
    if !is_name(store, t, d, a) {
        panic!(rt; "no object {a}");
    }
    store.shape(d, a)
}

/// How many places an object has.
pub(crate) fn size<H: ObjectStore>(
    rt: &impl Abort,
    store: &H,
    t: &ClassTable,
    d: DomainId,
    a: u32,
) -> u32
    requires domain { d.0 < 2 }
    requires ready { IsReady (H.content store.now) t.now }
{
    let count = places(t, &shape(rt, store, t, d, a));
    assert!(rt; count < 10_000);
    count as u32
}

/// The value at a place of an object.
pub(crate) fn item<H: ObjectStore>(
    rt: &impl Abort,
    store: &H,
    t: &ClassTable,
    d: DomainId,
    a: u32,
    i: u32,
) -> Value
    requires domain { d.0 < 2 }
    requires ready { IsReady (H.content store.now) t.now }
    ensures named { IsName (H.content store.now) d a }
    ensures value { HasValue (H.content store.now) d a i result }
{
    if !is_name(store, t, d, a) {
        panic!(rt; "no object {a}");
    }
    let shape = store.shape(d, a);
    let count = places(t, &shape);
    if count <= i as usize {
        panic!(rt; "no place {i}");
    }
    store.read(t, d, a, i)
}

/// Whether a value may stand in a heap: an object that it names is there.
fn is_known<H: ObjectStore>(store: &H, t: &ClassTable, d: DomainId, v: Value) -> bool
    requires domain { d.0 < 2 }
    requires ready { IsReady (H.content store.now) t.now }
    ensures { IsTrue result → MayBeGiven ((H.content store.now).heap d) v × IsSmall v }
{
    match v {
        Value::Obj(b) => is_name(store, t, d, b),
        Value::Cap(k) => k.0 < 0x0100_0000,
        _ => true,
    }
}

/// Whether a value may stand in an object as far as that is a text.
fn may_stand<H: ObjectStore>(store: &H, d: DomainId, a: u32, v: Value) -> bool
    requires { IsName (H.content store.now) d a }
    ensures { IsTrue result → (units : List ℕ) → IsLive (H.content store.now) d a (Text units) → IsUnit v }
{
    match store.shape(d, a) {
        Shape::Text(_) => is_unit(v),
        _ => true,
    }
}

/// Sets the value at a place of an object.
pub(crate) fn write<H: ObjectStore>(
    rt: &impl Abort,
    store: &mut H,
    t: &ClassTable,
    place: (DomainId, u32, u32),
    v: Value,
)
    requires domain { place.0.0 < 2 }
    requires ready { IsReady (H.content store.old) t.now }
    ensures { IsReady (H.content store.new) t.now }
{
    let (d, a, i) = place;
    let before = item(rt, store, t, d, a, i);
    if !are_of_kind(before, v) {
        panic!(rt; "{v:?} for {before:?}");
    }
    if !is_known(store, t, d, v) {
        panic!(rt; "{v:?} names nothing");
    }
    if !may_stand(store, d, a, v) {
        panic!(rt; "{v:?} in a text");
    }
    store.write(t, d, a, i, v);
}

/// How many objects a heap has, each of which has the mark 0.
pub(crate) fn calm_objects<H: ObjectStore>(
    rt: &impl Abort,
    store: &H,
    t: &ClassTable,
    d: DomainId,
) -> u32
    requires domain { d.0 < 2 }
    requires ready { IsReady (H.content store.now) t.now }
{
    let mut next = store.next_name(d, None);
    for count in 0..100_000 {
        let Some(a) = next else {
            return count;
        };
        assert!(rt; is_name(store, t, d, a) && store.mark(d, a) == 0, "at {a}");
        next = store.next_name(d, Some(a));
    }
    100_000
}

/// Copies, and sees that `would_copy` answers the same.
pub(crate) fn copied<H: ObjectStore>(
    rt: &impl Abort,
    store: &mut H,
    w: &World,
    between: (DomainId, DomainId),
    values: &mut Args,
) -> CopyAnswer
    requires domains { (between.0.0 < 2) × (between.1.0 < 2) }
    requires world { IsReadyWorld w.now }
    requires ready { IsReady (H.content store.old) w.now.classes }
    ensures { IsReady (H.content store.new) w.now.classes }
{
    let (from, to) = between;
    check_given(rt, store, w.classes(), from, values);
    let expected = would_copy(store, w, from, to, values);
    let answer = copy(store, w, from, to, values);
    assert!(rt; answer == expected, "{answer:?} after {expected:?}");
    answer
}

/// Sees that values may be given.
fn check_given<H: ObjectStore>(
    rt: &impl Abort,
    store: &H,
    t: &ClassTable,
    d: DomainId,
    values: &Args,
)
    requires domain { d.0 < 2 }
    requires ready { IsReady (H.content store.now) t.now }
    ensures { (i : ℕ) (v : AValue) → slice_get values.now i ≡ Some v → MayBeGiven ((H.content store.now).heap d) v }
{
    for i in 0..values.len() {
        let v = values.get(i);
        if !is_known(store, t, d, v) {
            panic!(rt; "{v:?} names nothing");
        }
    }
}
