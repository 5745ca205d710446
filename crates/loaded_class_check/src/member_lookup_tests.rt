//! Look-ups, access and selection among a few classes. What is found is worked out by hand from the rules in words.

use crate::class_rows::MethodSort::Plain;
use crate::class_rows::{INT, Place, Row, kind, member, place, table, units};
use class_table::ClassTable;
use jk_model::ClassId;
use member_lookup::*;
use std::alloc::Global;
use std::test::Fail;

const PUBLIC: u16 = 0x0001;

const PRIVATE: u16 = 0x0002;

const PROTECTED: u16 = 0x0004;

const STATIC: u16 = 0x0008;
/// Public, static and final.
const CONSTANT: u16 = 0x0019;

const INTERFACE: u16 = 0x0601;
/// Public and abstract.
const ABSTRACT: u16 = 0x0401;

/// The 45 system classes come first.
const TOP: u32 = 45;

const LEFT: u32 = 46;

const RIGHT: u32 = 47;

const NAMED: u32 = 48;

const BASE: u32 = 49;

const SUB: u32 = 50;

const BELOW: u32 = 51;

const ASIDE: u32 = 52;

const NEAR: u32 = 53;

const FAR: u32 = 54;

/// Left and Right are both below Top, and Base lists them. Sub, Below and Near are below Base.
const ROWS: &[Row<'static>] = &[
    Row {
        name: "p/Top",
        home: 0,
        flags: INTERFACE,
        parent: 0,
        interfaces: &[],
        fields: &[("x", CONSTANT, INT)],
        methods: &[("run", ABSTRACT, 0, Plain), ("top", ABSTRACT, 0, Plain)],
    },
    Row {
        name: "p/Left",
        home: 0,
        flags: INTERFACE,
        parent: 0,
        interfaces: &[TOP],
        fields: &[],
        methods: &[("left", ABSTRACT, 0, Plain)],
    },
    Row {
        name: "p/Right",
        home: 0,
        flags: INTERFACE,
        parent: 0,
        interfaces: &[TOP],
        fields: &[("x", CONSTANT, INT), ("y", CONSTANT, INT)],
        methods: &[("run", ABSTRACT, 0, Plain), ("right", ABSTRACT, 0, Plain)],
    },
    Row {
        name: "p/Named",
        home: 0,
        flags: INTERFACE,
        parent: 0,
        interfaces: &[],
        fields: &[("z", CONSTANT, INT)],
        methods: &[],
    },
    Row {
        name: "p/Base",
        home: 0,
        flags: PUBLIC,
        parent: 0,
        interfaces: &[LEFT, RIGHT],
        fields: &[("y", PUBLIC, INT), ("z", PUBLIC, INT)],
        methods: &[
            ("<init>", PUBLIC, 0, Plain),
            ("work", PUBLIC, 0, Plain),
            ("work", PROTECTED, 1, Plain),
            ("plain", 0, 0, Plain),
            ("tick", PUBLIC, 0, Plain),
            ("own", PRIVATE, 0, Plain),
        ],
    },
    Row {
        name: "p/Sub",
        home: 0,
        flags: PUBLIC,
        parent: BASE,
        interfaces: &[NAMED],
        fields: &[],
        methods: &[("left", PUBLIC, 0, Plain), ("work", PRIVATE, 0, Plain)],
    },
    Row {
        name: "q/Below",
        home: 0,
        flags: 0,
        parent: BASE,
        interfaces: &[],
        fields: &[],
        methods: &[
            ("plain", PUBLIC, 0, Plain),
            ("tick", STATIC, 0, Plain),
            ("work", PUBLIC, 1, Plain),
        ],
    },
    Row {
        name: "q/Aside",
        home: 0,
        flags: 0,
        parent: 0,
        interfaces: &[],
        fields: &[],
        methods: &[],
    },
    Row {
        name: "p/Near",
        home: 0,
        flags: 0,
        parent: BASE,
        interfaces: &[],
        fields: &[],
        methods: &[
            ("plain", PUBLIC, 0, Plain),
            ("work", ABSTRACT, 0, Plain),
            ("own", PUBLIC, 0, Plain),
        ],
    },
    Row {
        name: "p/Far",
        home: 1,
        flags: 0,
        parent: 0,
        interfaces: &[],
        fields: &[],
        methods: &[],
    },
];

/// Fields of a name, each with the class that it is looked for in and where it is found.
const FIELDS: &[(u32, &str, Option<Place>)] = &[
    // Left comes before Right, and with it Top.
    (BASE, "x", Some((TOP, 0))),
    (RIGHT, "x", Some((RIGHT, 0))),
    // A class comes before its interfaces.
    (BASE, "y", Some((BASE, 0))),
    // An interface comes before the parent.
    (SUB, "z", Some((NAMED, 0))),
    (BELOW, "z", Some((BASE, 1))),
    (SUB, "x", Some((TOP, 0))),
    (ASIDE, "x", None),
    (1000, "x", None),
];

fn found_field(
    alloc: Global,
    t: &ClassTable,
    class: u32,
    name: &str,
) -> Result<Option<Place>, Fail> {
    let name = units(alloc, name)?;
    Ok(place(find_field(t, ClassId(class), name.as_slice(), &INT)))
}

#[test]
fn fields_are_found(rt: HostRuntime) -> Result<(), Fail> {
    let t = table(rt.alloc(), ROWS)?;
    for (class, name, wanted) in FIELDS {
        assert!(rt; found_field(rt.alloc(), &t, *class, name)? == *wanted);
    }
    Ok(())
}

/// The same of methods, with how many ints they take.
const METHODS: &[(u32, &str, u8, Option<Place>)] = &[
    (BASE, "run", 0, Some((TOP, 0))),
    (BASE, "work", 1, Some((BASE, 2))),
    (BASE, "work", 2, None),
    // The private method hides the public one of the parent.
    (SUB, "work", 0, Some((SUB, 1))),
    // The parent lists the interface.
    (BELOW, "left", 0, Some((LEFT, 0))),
    (SUB, "right", 0, Some((RIGHT, 1))),
    // A parent comes before an interface.
    (BELOW, "<init>", 0, Some((BASE, 0))),
    (ASIDE, "<init>", 0, Some((0, 0))),
    (LEFT, "top", 0, Some((TOP, 1))),
    (LEFT, "right", 0, None),
    // java/lang/Object comes after the interfaces.
    (LEFT, "<init>", 0, Some((0, 0))),
    (1000, "<init>", 0, None),
];

fn found_method(
    alloc: Global,
    t: &ClassTable,
    class: u32,
    name: &str,
    ints: u8,
) -> Result<Option<Place>, Fail> {
    let name = units(alloc, name)?;
    let kind = kind(alloc, ints, false)?;
    Ok(place(find_method(t, ClassId(class), name.as_slice(), &kind)))
}

#[test]
fn methods_are_found(rt: HostRuntime) -> Result<(), Fail> {
    let t = table(rt.alloc(), ROWS)?;
    for (class, name, ints, wanted) in METHODS {
        assert!(rt; found_method(rt.alloc(), &t, *class, name, *ints)? == *wanted);
    }
    Ok(())
}

/// Classes, each with a method and whether the class may access it.
const ACCESSES: &[(u32, Place, bool)] = &[
    // A public method.
    (FAR, (BASE, 1), true),
    // A protected one, from a class below in another package, from the package, and from elsewhere.
    (BELOW, (BASE, 2), true),
    (NEAR, (BASE, 2), true),
    (TOP, (BASE, 2), true),
    (ASIDE, (BASE, 2), false),
    (FAR, (BASE, 2), false),
    // One without a mark: the package has a home.
    (TOP, (BASE, 3), true),
    (BELOW, (BASE, 3), false),
    (FAR, (BASE, 3), false),
    // A private one.
    (BASE, (BASE, 5), true),
    (SUB, (BASE, 5), false),
    // None.
    (BASE, (BASE, 6), false),
    (BASE, (1000, 0), false),
];

/// The same of fields: one that is there, and one that isn't.
const FIELD_ACCESSES: &[(u32, Place, bool)] = &[(FAR, (BASE, 0), true), (FAR, (BASE, 2), false)];

/// The same of classes.
const CLASS_ACCESSES: &[(u32, u32, bool)] = &[
    (FAR, BASE, true),
    (BASE, NEAR, true),
    (BELOW, ASIDE, true),
    (BASE, ASIDE, false),
    (BASE, FAR, false),
    (FAR, FAR, true),
    (BASE, 1000, false),
];

#[test]
fn access_is_given(rt: HostRuntime) -> Result<(), Fail> {
    let t = table(rt.alloc(), ROWS)?;
    for (from, m, wanted) in ACCESSES {
        assert!(rt; may_access(&t, ClassId(*from), Member::Method(member(*m))) == *wanted);
    }
    for (from, m, wanted) in FIELD_ACCESSES {
        assert!(rt; may_access(&t, ClassId(*from), Member::Field(member(*m))) == *wanted);
    }
    for (from, class, wanted) in CLASS_ACCESSES {
        assert!(rt; may_access_class(&t, ClassId(*from), ClassId(*class)) == *wanted);
    }
    Ok(())
}

/// Methods, each with the class of an object at which it is called and what runs.
const SELECTIONS: &[(u32, Place, Option<Place>)] = &[
    // Sub overrides a public method, though its own is private.
    (SUB, (BASE, 1), Some((SUB, 1))),
    (BELOW, (BASE, 1), Some((BASE, 1))),
    // A protected one is overridden from another package, and one without a mark from its own alone.
    (BELOW, (BASE, 2), Some((BELOW, 2))),
    (BELOW, (BASE, 3), Some((BASE, 3))),
    (NEAR, (BASE, 3), Some((NEAR, 0))),
    // A private one runs itself.
    (NEAR, (BASE, 5), Some((BASE, 5))),
    // A static one doesn't run.
    (BELOW, (BASE, 4), Some((BASE, 4))),
    // The first is abstract.
    (NEAR, (BASE, 1), None),
    // One of an interface, which Sub has and Base has not.
    (SUB, (LEFT, 0), Some((SUB, 0))),
    (BASE, (LEFT, 0), None),
    (SUB, (BASE, 6), None),
    (1000, (BASE, 1), None),
];

/// Methods, each with a class and whether a method there of the same name and type overrides it.
const OVERRIDING: &[(u32, Place, bool)] = &[
    (ASIDE, (BASE, 1), true),
    (BELOW, (BASE, 3), false),
    (NEAR, (BASE, 3), true),
    (NEAR, (BASE, 5), false),
    (NEAR, (BASE, 6), false),
];

#[test]
fn methods_are_selected(rt: HostRuntime) -> Result<(), Fail> {
    let t = table(rt.alloc(), ROWS)?;
    for (receiver, m, wanted) in SELECTIONS {
        assert!(rt; place(select(&t, ClassId(*receiver), member(*m))) == *wanted);
    }
    for (class, m, wanted) in OVERRIDING {
        assert!(rt; overrides(&t, ClassId(*class), member(*m)) == *wanted);
    }
    Ok(())
}
