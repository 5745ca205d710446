//! Stubs of classes below jk/Remote, and what calls through them run. What is wanted is worked out by hand from the rules in
//! words.

use crate::class_rows::MethodSort::{OfSystem, Plain};
use crate::class_rows::{Place, Row, member, place, table};
use class_table::ClassTable;
use jk_model::{ClassId, MemberId, OutOfMemory};
use std::alloc::Global;
use std::test::Fail;
use stub_maker::*;

const PUBLIC: u16 = 0x0001;
/// Public and abstract.
const ABSTRACT: u16 = 0x0401;

const INTERFACE: u16 = 0x0601;

/// jk/Remote is the 11th of the 45 system classes, which come first.
const REMOTE: u32 = 10;

const PING: u32 = 45;

const PLAIN: u32 = 46;

const PONG: u32 = 47;

const LATE: u32 = 48;

const WORKER: u32 = 49;

const SUB: u32 = 50;

const ASIDE: u32 = 51;

const IDLE: u32 = 52;

/// Ping and Late are below jk/Remote, and Pong is below Ping. Worker has Pong and Plain, and Sub below it has Late. Aside has
/// Plain alone. Idle has Late and Ping; its ping is the system's, and its late is abstract.
const ROWS: &[Row<'static>] = &[
    Row {
        name: "Ping",
        home: 0,
        flags: INTERFACE,
        parent: 0,
        interfaces: &[REMOTE],
        fields: &[],
        methods: &[("ping", ABSTRACT, 0, Plain)],
    },
    Row {
        name: "Plain",
        home: 0,
        flags: INTERFACE,
        parent: 0,
        interfaces: &[],
        fields: &[],
        methods: &[("plain", ABSTRACT, 0, Plain)],
    },
    Row {
        name: "Pong",
        home: 0,
        flags: INTERFACE,
        parent: 0,
        interfaces: &[PING],
        fields: &[],
        methods: &[("pong", ABSTRACT, 0, Plain)],
    },
    Row {
        name: "Late",
        home: 0,
        flags: INTERFACE,
        parent: 0,
        interfaces: &[REMOTE],
        fields: &[],
        methods: &[("late", ABSTRACT, 0, Plain)],
    },
    Row {
        name: "Worker",
        home: 0,
        flags: PUBLIC,
        parent: 0,
        interfaces: &[PONG, PLAIN],
        fields: &[],
        methods: &[
            ("ping", PUBLIC, 0, Plain),
            ("plain", PUBLIC, 0, Plain),
            ("pong", PUBLIC, 0, Plain),
        ],
    },
    Row {
        name: "Sub",
        home: 0,
        flags: PUBLIC,
        parent: WORKER,
        interfaces: &[LATE],
        fields: &[],
        methods: &[("late", PUBLIC, 0, Plain), ("pong", PUBLIC, 0, Plain)],
    },
    Row {
        name: "Aside",
        home: 0,
        flags: PUBLIC,
        parent: 0,
        interfaces: &[PLAIN],
        fields: &[],
        methods: &[("plain", PUBLIC, 0, Plain)],
    },
    Row {
        name: "Idle",
        home: 0,
        flags: PUBLIC,
        parent: 0,
        interfaces: &[LATE, PING],
        fields: &[],
        methods: &[("ping", PUBLIC, 0, OfSystem), ("late", ABSTRACT, 0, Plain)],
    },
];

/// Classes with the interfaces of their stubs, or without a stub.
const STUBS: &[(u32, &[u32])] = &[
    (WORKER, &[REMOTE, PING, PONG]),
    (SUB, &[REMOTE, PING, PONG, LATE]),
    // In rising number, though Late is listed first.
    (IDLE, &[REMOTE, PING, LATE]),
    (PONG, &[REMOTE, PING, PONG]),
    (REMOTE, &[REMOTE]),
    (ASIDE, &[]),
    (PLAIN, &[]),
    (0, &[]),
    (1000, &[]),
];

/// Whether the stub of a class has these interfaces; with none, whether there is no stub.
fn has_stub(
    alloc: Global,
    t: &ClassTable,
    class: ClassId,
    wanted: &[u32],
) -> Result<bool, OutOfMemory> {
    let Some(stub) = stub_of(alloc, t, class)? else {
        return Ok(wanted.is_empty());
    };
    let found = stub.interfaces.as_slice();
    let are_same = found.iter().zip(wanted).all(|(i, n)| i.0 == *n);
    Ok(stub.class == class && found.len() == wanted.len() && are_same)
}

#[test]
fn stubs(rt: HostRuntime) -> Result<(), Fail> {
    let t = table(rt.alloc(), ROWS)?;
    for (class, wanted) in STUBS {
        assert!(rt; has_stub(rt.alloc(), &t, ClassId(*class), wanted)?);
    }
    Ok(())
}

/// Classes of objects with a method that is called through their stub, and what runs.
const TARGETS: &[(u32, Place, Option<Place>)] = &[
    (WORKER, (PING, 0), Some((WORKER, 0))),
    (WORKER, (PONG, 0), Some((WORKER, 2))),
    (SUB, (PING, 0), Some((WORKER, 0))),
    (SUB, (PONG, 0), Some((SUB, 1))),
    (SUB, (LATE, 0), Some((SUB, 0))),
    // No interface of the stub.
    (SUB, (PLAIN, 0), None),
    (WORKER, (LATE, 0), None),
    (SUB, (WORKER, 0), None),
    // A method of the system, and an abstract one.
    (IDLE, (PING, 0), None),
    (IDLE, (LATE, 0), None),
];

/// What a call of a method runs through the stub of a class.
fn target(
    alloc: Global,
    t: &ClassTable,
    class: u32,
    m: MemberId,
) -> Result<Option<MemberId>, Fail> {
    match stub_of(alloc, t, ClassId(class))? {
        Some(stub) => Ok(target_of(t, &stub, m)),
        None => Err(Fail::from("no stub")),
    }
}

#[test]
fn targets(rt: HostRuntime) -> Result<(), Fail> {
    let t = table(rt.alloc(), ROWS)?;
    for (class, m, wanted) in TARGETS {
        let found = target(rt.alloc(), &t, *class, member(*m))?;
        assert!(rt; place(found) == *wanted);
    }
    Ok(())
}
