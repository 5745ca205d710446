//! Types and frames made by hand, with what they join to by the rules in words.

use crate::class_rows::{Row, table};
use class_table::ClassTable;
use jk_model::{ClassId, List, OutOfMemory};
use jk_model_classes::{BaseRef, TypeRef};
use jk_model_typing::{FrameType, VType};
use std::alloc::Global;
use std::test::Fail;
use type_frames::*;

// The numbers after those of the 45 system classes.
const PARENT: u32 = 45;

const LEFT: u32 = 46;

const RIGHT: u32 = 47;

const BELOW_LEFT: u32 = 48;

const SHAPE: u32 = 49;

const NO_CLASS: u32 = 50;

/// Two classes below one, a class below the first of them, and an interface.
const FIVE: &[Row<'static>] = &[
    Row {
        name: "Parent",
        home: 0,
        flags: 1,
        parent: 0,
        interfaces: &[],
        fields: &[],
        methods: &[],
    },
    Row {
        name: "Left",
        home: 0,
        flags: 1,
        parent: PARENT,
        interfaces: &[],
        fields: &[],
        methods: &[],
    },
    Row {
        name: "Right",
        home: 0,
        flags: 1,
        parent: PARENT,
        interfaces: &[],
        fields: &[],
        methods: &[],
    },
    Row {
        name: "BelowLeft",
        home: 0,
        flags: 1,
        parent: LEFT,
        interfaces: &[],
        fields: &[],
        methods: &[],
    },
    Row {
        name: "Shape",
        home: 0,
        flags: 0x0600,
        parent: 0,
        interfaces: &[],
        fields: &[],
        methods: &[],
    },
];

/// A type of the verifier's, in few words.
#[derive(Clone, Copy)]
enum Of {
    Class(u32),
    /// An array of a class, by its dimensions.
    Classes(u8, u32),
    /// One of another base.
    Array(u8, BaseRef),
    Other(VType),
}

const OBJECT: Of = Of::Class(0);

const STRING: u32 = 3;

const INT: Of = Of::Other(VType::Int);

const LONG: Of = Of::Other(VType::Long);

const NULL: Of = Of::Other(VType::Null);

const UNUSABLE: Of = Of::Other(VType::Unusable);

const FRESH_3: Of = Of::Other(VType::Fresh(3));

const FRESH_4: Of = Of::Other(VType::Fresh(4));

const FRESH_THIS: Of = Of::Other(VType::FreshThis);

const INTS: Of = Of::Array(1, BaseRef::Int);

const INT_ROWS: Of = Of::Array(2, BaseRef::Int);

fn array(dims: u8, base: BaseRef) -> VType {
    VType::Ref(TypeRef { dims, base })
}

fn vtype(of: Of) -> VType {
    match of {
        Of::Class(c) => array(0, BaseRef::Class(ClassId(c))),
        Of::Classes(dims, c) => array(dims, BaseRef::Class(ClassId(c))),
        Of::Array(dims, base) => array(dims, base),
        Of::Other(other) => other,
    }
}

/// Two types, and what they join to.
const JOINS: &[(Of, Of, Of)] = &[
    (Of::Class(LEFT), Of::Class(RIGHT), Of::Class(PARENT)),
    (Of::Class(BELOW_LEFT), Of::Class(RIGHT), Of::Class(PARENT)),
    (Of::Class(BELOW_LEFT), Of::Class(LEFT), Of::Class(LEFT)),
    (Of::Class(LEFT), Of::Class(STRING), OBJECT),
    (Of::Class(LEFT), Of::Class(NO_CLASS), UNUSABLE),
    (
        Of::Classes(1, LEFT),
        Of::Classes(1, RIGHT),
        Of::Classes(1, PARENT),
    ),
    (
        Of::Classes(2, LEFT),
        Of::Classes(1, RIGHT),
        Of::Classes(1, 0),
    ),
    (Of::Classes(1, LEFT), Of::Class(LEFT), OBJECT),
    (INTS, Of::Array(1, BaseRef::Long), OBJECT),
    (INTS, Of::Classes(1, 0), OBJECT),
    (INT_ROWS, INTS, OBJECT),
    (INT_ROWS, Of::Classes(1, STRING), Of::Classes(1, 0)),
    (INT_ROWS, Of::Array(2, BaseRef::Bool), Of::Classes(1, 0)),
    (NULL, Of::Class(LEFT), Of::Class(LEFT)),
    (NULL, INTS, INTS),
    (NULL, FRESH_3, UNUSABLE),
    (INT, Of::Class(LEFT), UNUSABLE),
    (INT, LONG, UNUSABLE),
    (LONG, LONG, LONG),
    (FRESH_3, FRESH_3, FRESH_3),
    (FRESH_3, FRESH_4, UNUSABLE),
    (FRESH_THIS, Of::Class(LEFT), UNUSABLE),
    (UNUSABLE, INTS, UNUSABLE),
];

/// Whether two types join to a third in both orders, which both of them fit, and they fit one another only so.
fn join_to(t: &ClassTable, a: VType, b: VType, c: VType) -> bool {
    let are_joined = join(t, &a, &b) == c && join(t, &b, &a) == c;
    are_joined && fits(t, &a, &c) && fits(t, &b, &c) && fits(t, &a, &b) == (b == c)
}

#[test]
fn joins(rt: HostRuntime) -> Result<(), Fail> {
    let t = table(rt.alloc(), FIVE)?;
    for (a, b, c) in JOINS {
        assert!(rt; join_to(&t, vtype(*a), vtype(*b), vtype(*c)));
    }
    Ok(())
}

/// Types of fields, and those of their values.
const VALUES: &[(u8, BaseRef, Of)] = &[
    (0, BaseRef::Byte, INT),
    (0, BaseRef::Char, INT),
    (0, BaseRef::Short, INT),
    (0, BaseRef::Bool, INT),
    (0, BaseRef::Int, INT),
    (0, BaseRef::Long, LONG),
    (0, BaseRef::Class(ClassId(LEFT)), Of::Class(LEFT)),
    (0, BaseRef::Class(ClassId(SHAPE)), OBJECT),
    (1, BaseRef::Class(ClassId(SHAPE)), Of::Classes(1, 0)),
    (2, BaseRef::Byte, Of::Array(2, BaseRef::Byte)),
];

#[test]
fn values(rt: HostRuntime) -> Result<(), Fail> {
    let t = table(rt.alloc(), FIVE)?;
    for (dims, base, value) in VALUES {
        let (dims, base) = (*dims, *base);
        assert!(rt; value_of(&t, &TypeRef { dims, base }) == vtype(*value));
    }
    assert!(rt; of_class(&t, ClassId(SHAPE)) == vtype(OBJECT));
    assert!(rt; of_class(&t, ClassId(RIGHT)) == vtype(Of::Class(RIGHT)));
    Ok(())
}

/// A frame: its locals, its stack, and whether its object is fresh.
type Frame<'a> = (&'a [Of], &'a [Of], bool);

const FRONT: Frame<'static> = (&[Of::Class(LEFT), INT, LONG, UNUSABLE], &[NULL], false);

const BEHIND: &[Of] = &[Of::Class(RIGHT), NULL, LONG, UNUSABLE];

const JOINED: Frame<'static> = (
    &[Of::Class(PARENT), UNUSABLE, LONG, UNUSABLE],
    &[Of::Class(LEFT)],
    true,
);

/// Frames, each with one that is joined into it, and whether it changes; where there is an answer, it is the joined one afterwards.
const RAISES: &[(Frame, Frame, Option<bool>)] = &[
    (FRONT, (BEHIND, &[Of::Class(LEFT)], true), Some(true)),
    (JOINED, (BEHIND, &[Of::Class(LEFT)], true), Some(false)),
    (JOINED, (BEHIND, &[], true), None),
    (JOINED, (BEHIND, &[INT], true), None),
];

fn vtypes(alloc: Global, types: &[Of]) -> Result<List<VType>, OutOfMemory> {
    let mut list = List::new(alloc);
    for of in types {
        list.push(vtype(*of))?;
    }
    Ok(list)
}

fn frame(alloc: Global, (locals, stack, fresh): Frame) -> Result<FrameType, OutOfMemory> {
    Ok(FrameType {
        locals: vtypes(alloc, locals)?,
        stack: vtypes(alloc, stack)?,
        fresh,
    })
}

fn are_same(a: &FrameType, b: &FrameType) -> bool {
    a.locals.as_slice() == b.locals.as_slice()
        && a.stack.as_slice() == b.stack.as_slice()
        && a.fresh == b.fresh
}

/// Joins a whole frame into another of as many locals.
fn raise_whole(t: &ClassTable, into: &mut FrameType, from: FrameRef<'_>) -> Option<bool> {
    let end = from.locals.len();
    if into.locals.len() != end {
        return None;
    }
    raise(t, into, from, 0, end)
}

/// What comes of joining a frame into another.
fn raised(t: &ClassTable, into: &mut FrameType, from: &FrameType) -> Option<bool> {
    let from = FrameRef {
        locals: from.locals.as_slice(),
        stack: from.stack.as_slice(),
        fresh: from.fresh,
    };
    raise_whole(t, into, from)
}

#[test]
fn frames(rt: HostRuntime) -> Result<(), Fail> {
    let t = table(rt.alloc(), FIVE)?;
    let joined = frame(rt.alloc(), JOINED)?;
    for (into, from, wanted) in RAISES {
        let mut into = frame(rt.alloc(), *into)?;
        let from = frame(rt.alloc(), *from)?;
        assert!(rt; raised(&t, &mut into, &from) == *wanted);
        assert!(rt; wanted.is_none() || are_same(&into, &joined));
    }
    Ok(())
}
