//! What a copy is to be, found by going over source and copy side by side: each object that is met for the first time makes a pair.

ghost use Rattle.std.specs.Prelude.{◌<◌, IfOk};
ghost use Rattle.copy_check.specs.ReadyHeaps.{IsReady, IsReadyWorld};

use crate::heaps::{A, calm_objects, copied, item, shape, size};
use crate::worlds::{BAG, NODE, SUB_BAG};
use class_table::ClassTable;
use domain_resolver::World;
use graph_copy::CopyAnswer;
use jk_model::{Args, DomainId, Value};
use jk_model_classes::BaseRef;
use jk_model_heaps::Shape;
use object_costs::shape_words;
use object_store::ObjectStore;
use std::alloc::Global;
use std::process::Abort;
use std::test::Fail;

/// The value of the sort that stands at a place of a new object.
pub(crate) fn zero(shape: &Shape, i: u32) -> Value {
    match shape {
        Shape::Plain(c) if *c == NODE => match i {
            0 => Value::Null,
            _ => Value::Int(0),
        },
        Shape::Plain(c) if *c == BAG || *c == SUB_BAG => match i {
            0 | 1 | 6 => Value::Null,
            3 | 4 => Value::Long(0),
            _ => Value::Int(0),
        },
        Shape::Array(element, _) if matches!(element.base, BaseRef::Class(_)) => Value::Null,
        Shape::Array(element, _) if matches!(element.base, BaseRef::Long) => Value::Long(0),
        _ => Value::Int(0),
    }
}

/// Whether a copy leaves a place empty.
fn is_left_empty(shape: &Shape, i: u32) -> bool {
    match shape {
        Shape::Plain(c) if *c == BAG || *c == SUB_BAG => matches!(i, 1 | 2 | 4),
        _ => false,
    }
}

/// Sources in the first heap and their copies, in the order in which they are met.
#[derive(Drop)]
pub(crate) struct Pairs {
    pairs: Vec<(u32, u32)>,
    /// What the sources cost.
    words: u64,
}

impl Pairs {
    pub(crate) fn new(alloc: Global) -> Pairs {
        Pairs {
            pairs: Vec::new(alloc),
            words: 0,
        }
    }

    /// How many pairs there are.
    pub(crate) fn len(&self) -> usize {
        self.pairs.len()
    }

    /// What the sources cost.
    pub(crate) fn words(&self) -> u64 {
        self.words
    }

    /// Two objects are a pair, or are one already; neither stands in another one.
    fn meet(&mut self, rt: &impl Abort, a: u32, b: u32) -> Result<(), Fail> {
        for (x, y) in &self.pairs {
            assert!(rt; (*x == a) == (*y == b), "{a} and {b}");
            if *x == a {
                return Ok(());
            }
        }
        self.pairs.push((a, b))?;
        Ok(())
    }

    /// Compares two values.
    fn compare(&mut self, rt: &impl Abort, v: Value, copied: Value) -> Result<(), Fail> {
        match (v, copied) {
            (Value::Obj(a), Value::Obj(b)) => self.meet(rt, a, b)?,
            _ => assert!(rt;
                v == copied && !matches!(v, Value::Obj(_)),
                "{v:?}, {copied:?}"
            ),
        }
        Ok(())
    }

    /// Compares the objects of a pair.
    fn compare_objects<H: ObjectStore>(
        &mut self,
        rt: &impl Abort,
        store: &H,
        t: &ClassTable,
        to: DomainId,
        pair: (u32, u32),
    ) -> Result<(), Fail>
        requires domain { to.0 < 2 }
        requires ready { IsReady (H.content store.now) t.now }
    {
        let (a, b) = pair;
        let source = shape(rt, store, t, A, a);
        assert!(rt; shape(rt, store, t, to, b) == source, "{a} and {b}");
        self.words = self.words.saturating_add(shape_words(t, &source));
        for i in 0..size(rt, store, t, A, a) {
            let copied = item(rt, store, t, to, b, i);
            if is_left_empty(&source, i) {
                assert!(rt; copied == zero(&source, i), "{i} of {b}");
            } else {
                self.compare(rt, item(rt, store, t, A, a, i), copied)?;
            }
        }
        Ok(())
    }

    /// Compares all that is reached from values of the first heap and from what stands for them in the other.
    pub(crate) fn compare_all<H: ObjectStore>(
        &mut self,
        rt: &impl Abort,
        store: &H,
        t: &ClassTable,
        to: DomainId,
        values: (&Args, &Args),
    ) -> Result<(), Fail>
        requires domain { to.0 < 2 }
        requires ready { IsReady (H.content store.now) t.now }
    {
        let (given, copied) = values;
        assert!(rt; given.len() == copied.len());
        for i in 0..given.len() {
            self.compare(rt, given.get(i), copied.get(i))?;
        }
        for k in 0..100_000 {
            let Some(pair) = self.pairs.get(k) else {
                return Ok(());
            };
            let pair = *pair;
            self.compare_objects(rt, store, t, to, pair)?;
        }
        panic!(rt; "too many pairs")
    }
}

/// Values to be handed over.
fn args_of(rt: &impl Abort, values: &[Value]) -> Args {
    let mut args = Args::new();
    for v in values {
        assert!(rt; args.len() < 255);
        args.put(*v);
    }
    args
}

/// Sees that two lists of values are one.
fn are_as_before(rt: &impl Abort, before: &Args, after: &Args) {
    assert!(rt; before.len() == after.len());
    for i in 0..before.len() {
        assert!(rt; before.get(i) == after.get(i), "at {i}");
    }
}

/// Copies what values of the first heap reach. A copy is held beside its source, and has as many objects and words. All marks are 0 after
/// it, and after a refusal the words, the objects and the values are as before.
pub(crate) fn checked_copy<H: ObjectStore>(
    rt: &impl Abort,
    alloc: Global,
    store: &mut H,
    w: &World,
    to: DomainId,
    values: &[Value],
) -> Result<CopyAnswer, Fail>
    requires domain { to.0 < 2 }
    requires world { IsReadyWorld w.now }
    requires ready { IsReady (H.content store.old) w.now.classes }
    ensures { IfOk result (λ _. IsReady (H.content store.new) w.now.classes) }
{
    let t = w.classes();
    let source = args_of(rt, values);
    let mut args = args_of(rt, values);
    let before = (state(rt, store, t, A), state(rt, store, t, to));
    let answer = copied(rt, store, w, (A, to), &mut args);
    let after = (state(rt, store, t, A), state(rt, store, t, to));
    if answer != CopyAnswer::Copied {
        assert!(rt; before == after, "{answer:?}: {before:?}, {after:?}");
        are_as_before(rt, &source, &args);
        return Ok(answer);
    }
    assert!(rt; to == A || before.0 == after.0);
    let mut pairs = Pairs::new(alloc);
    pairs.compare_all(rt, store, t, to, (&source, &args))?;
    let (old, new) = (before.1, after.1);
    assert!(rt;
        u64::from(old.0).saturating_add(pairs.len() as u64) == u64::from(new.0),
        "{old:?}, {new:?}"
    );
    assert!(rt;
        u64::from(new.1).saturating_add(pairs.words()) == u64::from(old.1),
        "{old:?}, {new:?}"
    );
    Ok(answer)
}

/// How many objects a heap has, each of which has the mark 0, and how many words are free.
fn state<H: ObjectStore>(rt: &impl Abort, store: &H, t: &ClassTable, d: DomainId) -> (u32, u32)
    requires domain { d.0 < 2 }
    requires ready { IsReady (H.content store.now) t.now }
{
    (calm_objects(rt, store, t, d), store.free(d))
}
