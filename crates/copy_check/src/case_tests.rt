//! Cases in a table: what is given, and what is answered.

ghost use Rattle.std.specs.Prelude.{◌≡◌, ◌<◌, IfOk};
ghost use Rattle.copy_check.specs.ReadyHeaps.{IsReady, IsReadyWorld};

use crate::heaps::{A, B, make, open_heaps, write};
use crate::pairs::checked_copy;
use crate::worlds::{BAG, HID, INT, LONG, NODE, OBJECT, OWN, SHOWN, STRING, SUB_BAG, world};
use class_table::ClassTable;
use domain_resolver::World;
use graph_copy::CopyAnswer;
use jk_model::{CapId, ClassId, DomainId, SegmentNo, Value};
use jk_model_classes::{BaseRef, TypeRef};
use jk_model_heaps::Shape;
use object_store::ObjectStore;
use plain_store::PlainStore;
use std::alloc::Global;
use std::process::Abort;
use std::test::Fail;

/// A shape, and the values at its first places, in which an object is named by its place in the case.
type Made<'a> = (Shape, &'a [Value]);

/// What is to be answered.
#[derive(Clone, Copy, Debug)]
enum Wanted {
    Copied,
    /// By its place in the case.
    NotCopiable(u32),
    NoRoom(u64),
}

/// Objects of the first heap, and a copy of what some values reach.
#[derive(Clone, Copy)]
struct Case<'a> {
    name: &'a str,
    /// The words of the heap into which is copied.
    words: u32,
    objects: &'a [Made<'a>],
    given: &'a [Value],
    to: DomainId,
    wanted: Wanted,
}

const OBJECTS: TypeRef = TypeRef {
    dims: 0,
    base: BaseRef::Class(OBJECT),
};

const OWNS: TypeRef = TypeRef {
    dims: 0,
    base: BaseRef::Class(OWN),
};

const PAIR: Shape = Shape::Array(OBJECTS, 2);

const RING: &[Made<'static>] = &[
    (Shape::Plain(NODE), &[Value::Obj(1), Value::Int(1)]),
    (Shape::Plain(NODE), &[Value::Obj(0), Value::Int(2)]),
];

const DIAMOND: &[Made<'static>] = &[
    (Shape::Text(2), &[Value::Int(7), Value::Int(65_535)]),
    (PAIR, &[Value::Obj(0), Value::Cap(CapId(9))]),
    (PAIR, &[Value::Obj(0), Value::Obj(0)]),
    (PAIR, &[Value::Obj(1), Value::Obj(2)]),
];

const HOLDS_ITSELF: &[Made<'static>] = &[
    (
        Shape::Array(OBJECTS, 3),
        &[Value::Null, Value::Obj(0), Value::Obj(1)],
    ),
    (Shape::Array(LONG, 2), &[Value::Long(3)]),
];

/// What may not be copied stands behind a transient field alone.
const TRANSIENTS: &[Made<'static>] = &[
    (Shape::Plain(OWN), &[]),
    (Shape::Array(INT, 0), &[]),
    (
        Shape::Plain(SUB_BAG),
        &[
            Value::Obj(1),
            Value::Obj(0),
            Value::Int(4),
            Value::Long(5),
            Value::Long(6),
            Value::Int(7),
            Value::Obj(1),
        ],
    ),
];

/// A node that leads to itself, and an array of a class that only the first domain knows.
const OWN_THINGS: &[Made<'static>] = &[
    (Shape::Plain(NODE), &[Value::Obj(0), Value::Int(3)]),
    (Shape::Array(OWNS, 1), &[]),
];

/// A large array beside an object that may not be copied.
const LARGE_AND_OWN: &[Made<'static>] = &[
    (Shape::Array(INT, 40), &[]),
    (Shape::Plain(OWN), &[]),
    (PAIR, &[Value::Obj(0), Value::Obj(1)]),
];

const CASES: &[Case<'static>] = &[
    Case {
        name: "a ring",
        words: 12,
        objects: RING,
        given: &[Value::Obj(0), Value::Int(5), Value::Obj(1), Value::Null],
        to: B,
        wanted: Wanted::Copied,
    },
    Case {
        name: "a ring, for which a word is missing",
        words: 11,
        objects: RING,
        given: &[Value::Obj(0)],
        to: B,
        wanted: Wanted::NoRoom(12),
    },
    Case {
        name: "a diamond",
        words: 64,
        objects: DIAMOND,
        given: &[Value::Obj(3)],
        to: B,
        wanted: Wanted::Copied,
    },
    Case {
        name: "an array that holds itself",
        words: 15,
        objects: HOLDS_ITSELF,
        given: &[Value::Obj(0), Value::Obj(0)],
        to: B,
        wanted: Wanted::Copied,
    },
    Case {
        name: "transient fields",
        words: 17,
        objects: TRANSIENTS,
        given: &[Value::Obj(2)],
        to: B,
        wanted: Wanted::Copied,
    },
    Case {
        name: "transient fields, whose words count",
        words: 16,
        objects: TRANSIENTS,
        given: &[Value::Obj(2)],
        to: B,
        wanted: Wanted::NoRoom(17),
    },
    Case {
        name: "one heap into itself",
        words: 22,
        objects: OWN_THINGS,
        given: &[Value::Obj(0), Value::Obj(1)],
        to: A,
        wanted: Wanted::Copied,
    },
    Case {
        name: "one heap into itself, for which a word is missing",
        words: 21,
        objects: OWN_THINGS,
        given: &[Value::Obj(0), Value::Obj(1)],
        to: A,
        wanted: Wanted::NoRoom(11),
    },
    Case {
        name: "an array of a class that the other domain doesn't know",
        words: 64,
        objects: OWN_THINGS,
        given: &[Value::Obj(0), Value::Obj(1)],
        to: B,
        wanted: Wanted::NotCopiable(1),
    },
    Case {
        name: "what may not be copied comes before room",
        words: 20,
        objects: LARGE_AND_OWN,
        given: &[Value::Obj(2)],
        to: B,
        wanted: Wanted::NotCopiable(1),
    },
    Case {
        name: "what is given twice costs once",
        words: 20,
        objects: LARGE_AND_OWN,
        given: &[Value::Obj(0), Value::Obj(0)],
        to: B,
        wanted: Wanted::NoRoom(44),
    },
    Case {
        name: "nothing is reached",
        words: 1,
        objects: &[],
        given: &[Value::Cap(CapId(3)), Value::Long(9)],
        to: B,
        wanted: Wanted::Copied,
    },
];

/// Shapes, and whether an object of each may be copied from the first domain to the second.
const SHAPES: &[(Shape, bool)] = &[
    (Shape::Plain(OBJECT), false),
    // java/lang/StringBuffer, java/io/PrintStream and java/lang/Throwable
    (Shape::Plain(ClassId(4)), true),
    (Shape::Plain(ClassId(6)), false),
    (Shape::Plain(ClassId(9)), true),
    (Shape::Plain(OWN), false),
    (Shape::Plain(HID), false),
    (Shape::Plain(SHOWN), true),
    (Shape::Plain(SUB_BAG), true),
    (Shape::Task(SegmentNo(1)), false),
    (Shape::Text(0), true),
    (Shape::Array(INT, 3), true),
    (Shape::Array(OBJECTS, 0), true),
    (
        Shape::Array(
            TypeRef {
                dims: 1,
                base: BaseRef::Class(STRING),
            },
            0,
        ),
        true,
    ),
    (Shape::Array(OWNS, 0), false),
    (
        Shape::Array(
            TypeRef {
                dims: 2,
                base: BaseRef::Class(OWN),
            },
            0,
        ),
        false,
    ),
    (
        Shape::Array(
            TypeRef {
                dims: 2,
                base: BaseRef::Int,
            },
            0,
        ),
        true,
    ),
    (
        Shape::Array(
            TypeRef {
                dims: 0,
                base: BaseRef::Class(HID),
            },
            1,
        ),
        true,
    ),
];

/// The value in which an object has its own name in the place of its place in the case.
fn named(rt: &impl Abort, names: &[u32], v: Value) -> Value {
    match v {
        Value::Obj(k) => match names.get(k as usize) {
            Some(a) => Value::Obj(*a),
            None => panic!(rt; "the case has no object {k}"),
        },
        _ => v,
    }
}

/// Makes the objects of a case, and answers their names.
fn make_all<H: ObjectStore>(
    rt: &impl Abort,
    alloc: Global,
    store: &mut H,
    t: &ClassTable,
    objects: &[Made],
) -> Result<Vec<u32>, Fail>
    requires { IsReady (H.content store.old) t.now }
    ensures { IfOk result (λ _. IsReady (H.content store.new) t.now) }
{
    let mut names = Vec::new(alloc);
    for (shape, _) in objects {
        names.push(make(rt, store, t, A, *shape)?)?;
    }
    Ok(names)
}

/// Sets the values of the objects of a case.
fn write_all<H: ObjectStore>(
    rt: &impl Abort,
    store: &mut H,
    t: &ClassTable,
    objects: &[Made],
    names: &[u32],
)
    requires { IsReady (H.content store.old) t.now }
    ensures { IsReady (H.content store.new) t.now }
{
    for ((_, values), a) in objects.iter().zip(names) {
        write_values(rt, store, t, *a, values, names);
    }
}

/// Sets the values at the first places of an object.
fn write_values<H: ObjectStore>(
    rt: &impl Abort,
    store: &mut H,
    t: &ClassTable,
    a: u32,
    values: &[Value],
    names: &[u32],
)
    requires { IsReady (H.content store.old) t.now }
    ensures { IsReady (H.content store.new) t.now }
{
    let mut place = 0u32;
    for v in values {
        write(rt, store, t, (A, a, place), named(rt, names, *v));
        place = place.wrapping_add(1);
    }
}

/// The values that are given, with the names that the objects have.
fn all_named(
    rt: &impl Abort,
    alloc: Global,
    names: &[u32],
    values: &[Value],
) -> Result<Vec<Value>, Fail> {
    let mut list = Vec::new(alloc);
    for v in values {
        list.push(named(rt, names, *v))?;
    }
    Ok(list)
}

/// What is to be answered, with the names that the objects have.
fn answer_of(rt: &impl Abort, names: &[u32], wanted: Wanted) -> CopyAnswer {
    match wanted {
        Wanted::Copied => CopyAnswer::Copied,
        Wanted::NotCopiable(k) => match named(rt, names, Value::Obj(k)) {
            Value::Obj(a) => CopyAnswer::NotCopiable(a),
            _ => panic!(rt; "no object"),
        },
        Wanted::NoRoom(words) => CopyAnswer::NoRoom(words),
    }
}

/// Sees what is answered of a case.
fn check_case(rt: &impl Abort, alloc: Global, w: &World, case: &Case) -> Result<(), Fail>
    requires { IsReadyWorld w.now }
{
    assert!(rt; case.to.0 < 2);
    let t = w.classes();
    let mut store = PlainStore::new(alloc);
    let words = if case.to == A {
        (case.words, 1)
    } else {
        (1000, case.words)
    };
    open_heaps(rt, &mut store, t, words)?;
    let names = make_all(rt, alloc, &mut store, t, case.objects)?;
    write_all(rt, &mut store, t, case.objects, &names);
    let given = all_named(rt, alloc, &names, case.given)?;
    let answer = checked_copy(rt, alloc, &mut store, w, case.to, &given)?;
    let wanted = answer_of(rt, &names, case.wanted);
    assert!(rt; answer == wanted, "{}: {answer:?}", case.name);
    Ok(())
}

/// Sees whether an object of a shape may be copied, given by itself, in an array, or in a field of what an array holds.
fn check_shape(
    rt: &impl Abort,
    alloc: Global,
    w: &World,
    shape: Shape,
    is_copiable: bool,
) -> Result<(), Fail>
    requires { IsReadyWorld w.now }
{
    let objects: [Made; 3] = [
        (shape, &[]),
        (Shape::Plain(BAG), &[Value::Obj(0)]),
        (Shape::Array(OBJECTS, 1), &[Value::Obj(1)]),
    ];
    for depth in 0..3 {
        let case = Case {
            name: "a shape",
            words: 64,
            objects: &objects,
            given: &[Value::Null, Value::Obj(depth)],
            to: B,
            wanted: if is_copiable {
                Wanted::Copied
            } else {
                Wanted::NotCopiable(0)
            },
        };
        check_case(rt, alloc, w, &case)?;
    }
    Ok(())
}

#[test]
fn cases_are_answered(rt: HostRuntime) -> Result<(), Fail> {
    let w = world(&rt, rt.alloc())?;
    for case in CASES {
        check_case(&rt, rt.alloc(), &w, case)?;
    }
    for (shape, is_copiable) in SHAPES {
        check_shape(&rt, rt.alloc(), &w, *shape, *is_copiable)?;
    }
    Ok(())
}
