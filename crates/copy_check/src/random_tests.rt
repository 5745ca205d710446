//! Random graphs, copied into the other heap and into their own.

ghost use Rattle.std.specs.Prelude.{◌<◌, IfOk};
ghost use Rattle.copy_check.specs.ReadyHeaps.{IsReady, IsReadyWorld};

use crate::heaps::{A, B, make, open_heaps, shape, size, write};
use crate::pairs::{checked_copy, zero};
use crate::worlds::{BAG, INT, NODE, OBJECT, SUB_BAG, of, world};
use class_table::ClassTable;
use domain_resolver::World;
use graph_copy::CopyAnswer;
use jk_model::{CapId, DomainId, Value};
use jk_model_heaps::Shape;
use object_store::ObjectStore;
use plain_store::PlainStore;
use std::alloc::Global;
use std::process::Abort;
use std::test::Fail;

/// Numbers that follow no simple rule.
#[derive(Drop)]
struct Numbers {
    state: u64,
}

impl Numbers {
    /// The next number below this one.
    fn below(&mut self, end: u32) -> u32
        requires { 0 < end }
        ensures { result < end }
    {
        self.state = self
            .state
            .wrapping_mul(6_364_136_223_846_793_005)
            .wrapping_add(1_442_695_040_888_963_407);
        (self.state >> 33) as u32 % end
    }
}

fn random_shape(numbers: &mut Numbers) -> Shape {
    match numbers.below(6) {
        0 => Shape::Plain(BAG),
        1 => Shape::Plain(SUB_BAG),
        2 => Shape::Text(numbers.below(4)),
        3 => Shape::Array(INT, numbers.below(4)),
        4 => Shape::Array(of(OBJECT), numbers.below(5)),
        _ => Shape::Plain(NODE),
    }
}

/// A value of the kind of another one; a reference is to one of so many objects.
fn random_value(numbers: &mut Numbers, names: &[u32], like: Value) -> Value {
    match like {
        Value::Int(_) => Value::Int(numbers.below(65_536) as i32),
        Value::Long(_) => Value::Long(i64::from(numbers.below(99))),
        _ => match numbers.below(6) {
            0 => Value::Cap(CapId(numbers.below(40))),
            1 => Value::Null,
            _ => random_object(numbers, names),
        },
    }
}

/// One of these objects, or null where there is none.
fn random_object(numbers: &mut Numbers, names: &[u32]) -> Value {
    if names.is_empty() {
        return Value::Null;
    }
    let k = numbers.below(names.len().min(1000) as u32);
    match names.get(k as usize) {
        Some(a) => Value::Obj(*a),
        None => Value::Null,
    }
}

/// Makes so many objects of random shapes, and answers their names.
fn make_some<H: ObjectStore>(
    rt: &impl Abort,
    alloc: Global,
    store: &mut H,
    t: &ClassTable,
    numbers: &mut Numbers,
) -> Result<Vec<u32>, Fail>
    requires { IsReady (H.content store.old) t.now }
    ensures { IfOk result (λ _. IsReady (H.content store.new) t.now) }
{
    let mut names = Vec::new(alloc);
    for _ in 0..1 + numbers.below(30) {
        names.push(make(rt, store, t, A, random_shape(numbers))?)?;
    }
    Ok(names)
}

/// Sets all values of an object.
fn fill<H: ObjectStore>(
    rt: &impl Abort,
    store: &mut H,
    t: &ClassTable,
    numbers: &mut Numbers,
    names: &[u32],
    a: u32,
)
    requires { IsReady (H.content store.old) t.now }
    ensures { IsReady (H.content store.new) t.now }
{
    let made = shape(rt, store, t, A, a);
    for i in 0..size(rt, store, t, A, a) {
        let v = random_value(numbers, names, zero(&made, i));
        write(rt, store, t, (A, a, i), v);
    }
}

/// Sets all values of all these objects.
fn fill_all<H: ObjectStore>(
    rt: &impl Abort,
    store: &mut H,
    t: &ClassTable,
    numbers: &mut Numbers,
    names: &[u32],
)
    requires { IsReady (H.content store.old) t.now }
    ensures { IsReady (H.content store.new) t.now }
{
    for a in names {
        fill(rt, store, t, numbers, names, *a);
    }
}

/// A random heap, and a copy of a part of it.
fn copy_some(
    rt: &impl Abort,
    alloc: Global,
    w: &World,
    numbers: &mut Numbers,
    to: DomainId,
) -> Result<bool, Fail>
    requires domain { to.0 < 2 }
    requires world { IsReadyWorld w.now }
{
    let t = w.classes();
    let mut store = PlainStore::new(alloc);
    open_heaps(rt, &mut store, t, (600, 12 + numbers.below(120)))?;
    let names = make_some(rt, alloc, &mut store, t, numbers)?;
    fill_all(rt, &mut store, t, numbers, &names);
    let first = random_object(numbers, &names);
    let second = random_object(numbers, &names);
    let values = [first, Value::Int(3), second];
    let answer = checked_copy(rt, alloc, &mut store, w, to, &values)?;
    Ok(answer == CopyAnswer::Copied)
}

#[test]
fn random_graphs_are_copied(rt: HostRuntime) -> Result<(), Fail> {
    let w = world(&rt, rt.alloc())?;
    let mut numbers = Numbers { state: 3 };
    let mut copied = 0u32;
    for round in 0..1000u32 {
        let to = if round % 3 == 0 { A } else { B };
        if copy_some(&rt, rt.alloc(), &w, &mut numbers, to)? {
            copied = copied.wrapping_add(1);
        }
    }
    // Both answers came often.
    assert!(rt; copied > 500 && copied < 960, "{copied} copies");
    Ok(())
}
