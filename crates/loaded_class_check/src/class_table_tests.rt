//! Classes made by hand, and what stands above them.

use crate::class_rows::{INT, LONG, Place, Row, add, class, member, table, units};
use class_table::*;
use jk_model::{ClassId, List, OutOfMemory};
use jk_model_classes::{BaseRef, Link, TypeRef};
use std::alloc::Global;
use std::test::Fail;

const OBJECT: u32 = 0;

// The numbers after those of the 45 system classes.
const I0: u32 = 45;

const I1: u32 = 46;

const I2: u32 = 47;

const I3: u32 = 48;

const A: u32 = 49;

const B: u32 = 50;

const C: u32 = 51;

const NO_CLASS: u32 = 52;

const STATIC: u16 = 8;

const INTERFACE: u16 = 0x0600;

const LONGS: TypeRef = TypeRef {
    dims: 1,
    base: BaseRef::Long,
};

/// I1 and I2 list I0, and I3 lists both of them. A lists I3, and has a static field, an `int` and a `long`. B stands below
/// A, lists I0, and has a `long`, a static one and an array of `long`. C stands below B and lists I2 and I3.
const SEVEN: &[Row<'static>] = &[
    Row {
        name: "I0",
        home: 0,
        flags: INTERFACE,
        parent: OBJECT,
        interfaces: &[],
        fields: &[],
        methods: &[],
    },
    Row {
        name: "I1",
        home: 0,
        flags: INTERFACE,
        parent: OBJECT,
        interfaces: &[I0],
        fields: &[],
        methods: &[],
    },
    Row {
        name: "I2",
        home: 0,
        flags: INTERFACE,
        parent: OBJECT,
        interfaces: &[I0],
        fields: &[],
        methods: &[],
    },
    Row {
        name: "I3",
        home: 0,
        flags: INTERFACE,
        parent: OBJECT,
        interfaces: &[I1, I2],
        fields: &[],
        methods: &[],
    },
    Row {
        name: "A",
        home: 0,
        flags: 1,
        parent: OBJECT,
        interfaces: &[I3],
        fields: &[("s", STATIC, LONG), ("x", 0, INT), ("y", 0, LONG)],
        methods: &[],
    },
    Row {
        name: "B",
        home: 0,
        flags: 1,
        parent: A,
        interfaces: &[I0],
        fields: &[("x", 0, LONG), ("s", STATIC, LONG), ("z", 0, LONGS)],
        methods: &[],
    },
    Row {
        name: "C",
        home: 0,
        flags: 1,
        parent: B,
        interfaces: &[I2, I3, I2],
        fields: &[],
        methods: &[],
    },
];

/// Classes with all that stand above them in their order, and how many of these its own interfaces bring.
const WALKS: &[(u32, &[u32], usize)] = &[
    (I0, &[I0, OBJECT], 1),
    (I3, &[I3, I1, I0, I2, OBJECT], 4),
    (A, &[A, I3, I1, I0, I2, OBJECT], 5),
    (B, &[B, I0, A, I3, I1, I2, OBJECT], 2),
    (C, &[C, I2, I0, I3, I1, B, A, OBJECT], 5),
    (OBJECT, &[OBJECT], 1),
];

fn are(found: &[ClassId], wanted: &[u32]) -> bool {
    found.len() == wanted.len() && found.iter().zip(wanted).all(|(c, n)| c.0 == *n)
}

fn walks_to(t: &ClassTable, c: ClassId, walk: &[u32], own: usize) -> bool {
    match (t.walk(c), t.interface_walk(c)) {
        (Some(found), Some(interfaces)) => are(found, walk) && interfaces.len() == own,
        _ => false,
    }
}

#[test]
fn walks(rt: HostRuntime) -> Result<(), Fail> {
    let t = table(rt.alloc(), SEVEN)?;
    for (c, walk, own) in WALKS {
        assert!(rt; walks_to(&t, ClassId(*c), walk, *own));
    }
    assert!(rt; t.walk(ClassId(NO_CLASS)).is_none() && t.len() == 52);
    Ok(())
}

/// Classes, and whether the one is a subclass of the other.
const SUBCLASSES: &[(u32, u32, bool)] = &[
    (C, A, true),
    (C, OBJECT, true),
    (B, B, true),
    (A, C, false),
    (C, I3, false),
    (NO_CLASS, OBJECT, false),
];

/// Classes and interfaces, and whether the one implements the other.
const INTERFACES: &[(u32, u32, bool)] = &[
    (C, I1, true),
    (B, I3, true),
    (I3, I0, true),
    (I3, I3, true),
    (I1, I2, false),
    (A, A, false),
    (NO_CLASS, I0, false),
];

#[test]
fn stands_above(rt: HostRuntime) -> Result<(), Fail> {
    let t = table(rt.alloc(), SEVEN)?;
    for (a, b, wanted) in SUBCLASSES {
        assert!(rt; t.is_subclass(ClassId(*a), ClassId(*b)) == *wanted);
    }
    for (a, i, wanted) in INTERFACES {
        assert!(rt; t.implements(ClassId(*a), ClassId(*i)) == *wanted);
    }
    Ok(())
}

/// The fields of an object of class C, in their order, with the words before each.
const PLACES: &[(Place, u32)] = &[((A, 1), 0), ((A, 2), 1), ((B, 0), 3), ((B, 2), 5)];

/// Whether a field stands at a place of a class's objects, after so many words.
fn stands_at(t: &ClassTable, c: ClassId, i: usize, field: Place, words: u32) -> bool {
    let Some(layout) = t.layout(c) else {
        return false;
    };
    let m = member(field);
    i < layout.len()
        && layout.field(i) == Some(m)
        && layout.words_before(i) == words
        && t.place_of(m) == Some(i)
}

/// Whether the objects of a class have so many fields, of so many words.
fn has_size(t: &ClassTable, c: ClassId, fields: usize, words: u32) -> bool {
    match t.layout(c) {
        Some(layout) => {
            layout.len() == fields && layout.words() == words && layout.field(fields).is_none()
        }
        None => false,
    }
}

/// What an object of each class costs.
const COSTS: &[(u32, Option<u32>)] = &[(B, Some(10)), (A, Some(7)), (NO_CLASS, None)];

/// Fields that objects don't have: a static one, and one past all.
const NO_PLACES: &[Place] = &[(B, 1), (B, 3)];

#[test]
fn layouts(rt: HostRuntime) -> Result<(), Fail> {
    let t = table(rt.alloc(), SEVEN)?;
    for (i, (field, words)) in PLACES.iter().enumerate() {
        assert!(rt; stands_at(&t, ClassId(C), i, *field, *words));
    }
    assert!(rt; has_size(&t, ClassId(C), 4, 6));
    for field in NO_PLACES {
        assert!(rt; t.place_of(member(*field)).is_none());
    }
    for (c, wanted) in COSTS {
        assert!(rt; t.cost(ClassId(*c)) == *wanted);
    }
    Ok(())
}

/// Classes with the name and the type of a field and a place, and the first place from there on of such a field.
const OWN_FIELDS: &[(u32, &str, TypeRef, u16, Option<u16>)] = &[
    (A, "x", INT, 0, Some(1)),
    (A, "x", INT, 2, None),
    (A, "x", LONG, 0, None),
    (B, "s", LONG, 1, Some(1)),
    (C, "x", LONG, 0, None),
    (NO_CLASS, "x", LONG, 0, None),
];

fn own_field(
    alloc: Global,
    t: &ClassTable,
    c: ClassId,
    name: &str,
    kind: TypeRef,
    from: u16,
) -> Result<Option<u16>, OutOfMemory> {
    let name = units(alloc, name)?;
    Ok(t.own_field(c, &FieldKey::new(name.as_slice(), kind), from))
}

#[test]
fn own_members(rt: HostRuntime) -> Result<(), Fail> {
    let t = table(rt.alloc(), SEVEN)?;
    for (c, name, kind, from, wanted) in OWN_FIELDS {
        assert!(rt; own_field(rt.alloc(), &t, ClassId(*c), name, *kind, *from)? == *wanted);
    }
    Ok(())
}

/// Twenty classes one below the other, with a field each.
fn twenty(alloc: Global) -> Result<ClassTable, Fail> {
    let mut t = table(alloc, &[])?;
    for i in 0..20 {
        let row = Row {
            name: "c",
            home: 0,
            flags: 1,
            parent: if i == 0 { OBJECT } else { I0 + i - 1 },
            interfaces: &[],
            fields: &[("x", 0, INT)],
            methods: &[],
        };
        add(&mut t, class(alloc, &row)?)?;
    }
    Ok(t)
}

/// The field of each of twenty classes stands at its own place.
#[test]
fn a_long_way_up(rt: HostRuntime) -> Result<(), Fail> {
    let t = twenty(rt.alloc())?;
    let last = ClassId(64);
    for i in 0..20 {
        assert!(rt; stands_at(&t, last, i as usize, (45 + i, 0), i));
        assert!(rt; t.is_subclass(last, ClassId(45 + i)));
    }
    assert!(rt; has_size(&t, last, 20, 20));
    Ok(())
}

/// Whether class A gets a link.
fn gets_link(alloc: Global, t: &mut ClassTable) -> Result<bool, OutOfMemory> {
    let mut links = List::new(alloc);
    links.push(Link::Int(7))?;
    if t.class(ClassId(A)).is_none() {
        return Ok(false);
    }
    t.set_links(ClassId(A), links);
    Ok(t.class(ClassId(A)).map(|c| c.links.len()) == Some(1))
}

#[test]
fn changes(rt: HostRuntime) -> Result<(), Fail> {
    let mut t = table(rt.alloc(), SEVEN)?;
    assert!(rt; gets_link(rt.alloc(), &mut t)?);
    t.cut(ClassId(B));
    assert!(rt; t.len() == 50 && t.class(ClassId(B)).is_none());
    assert!(rt; t.cost(ClassId(A)) == Some(7));
    Ok(())
}
