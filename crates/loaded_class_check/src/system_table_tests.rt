//! Entries of the table as its rules give them, and names that are found and not found.

use crate::class_rows::units;
use jk_model::OutOfMemory;
use std::alloc::Global;
use std::test::Fail;
use system_table::*;

/// A member by its name, its descriptor and its flags.
type MemberRow = (&'static str, &'static str, u16);

/// What the rules say of a class. Its methods have numbers from the first one on; where a row doesn't say them, it has some.
struct Row {
    number: u16,
    name: &'static str,
    parent: u16,
    interfaces: &'static [u16],
    flags: u16,
    closed: bool,
    copiable: bool,
    fields: &'static [MemberRow],
    methods: Option<(u16, &'static [MemberRow])>,
}

const STRING: Row = Row {
    number: 3,
    name: "java/lang/String",
    parent: 0,
    interfaces: &[1],
    flags: 0x0001,
    closed: true,
    copiable: true,
    fields: &[],
    methods: Some((
        2,
        &[
            ("length", "()I", 0x0001),
            ("charAt", "(I)C", 0x0001),
            ("equals", "(Ljava/lang/Object;)Z", 0x0001),
            ("concat", "(Ljava/lang/String;)Ljava/lang/String;", 0x0001),
            ("substring", "(II)Ljava/lang/String;", 0x0001),
            ("valueOf", "(I)Ljava/lang/String;", 0x0009),
            ("valueOf", "(J)Ljava/lang/String;", 0x0009),
            ("valueOf", "(C)Ljava/lang/String;", 0x0009),
            ("valueOf", "(Z)Ljava/lang/String;", 0x0009),
        ],
    )),
};

const STRING_BUILDER: Row = Row {
    number: 5,
    name: "java/lang/StringBuilder",
    parent: 0,
    interfaces: &[1],
    flags: 0x0001,
    closed: true,
    copiable: true,
    fields: &[(".text", "Ljava/lang/String;", 0x0001)],
    methods: Some((
        20,
        &[
            ("<init>", "()V", 0x0001),
            ("<init>", "(Ljava/lang/String;)V", 0x0001),
            ("length", "()I", 0x0001),
            ("toString", "()Ljava/lang/String;", 0x0001),
            (
                "append",
                "(Ljava/lang/String;)Ljava/lang/StringBuilder;",
                0x0001,
            ),
            ("append", "(I)Ljava/lang/StringBuilder;", 0x0001),
            ("append", "(J)Ljava/lang/StringBuilder;", 0x0001),
            ("append", "(C)Ljava/lang/StringBuilder;", 0x0001),
            ("append", "(Z)Ljava/lang/StringBuilder;", 0x0001),
        ],
    )),
};

const SYSTEM: Row = Row {
    number: 7,
    name: "java/lang/System",
    parent: 0,
    interfaces: &[],
    flags: 0x0001,
    closed: true,
    copiable: false,
    fields: &[("out", "Ljava/io/PrintStream;", 0x0019)],
    methods: Some((
        35,
        &[(
            "arraycopy",
            "(Ljava/lang/Object;ILjava/lang/Object;II)V",
            0x0009,
        )],
    )),
};

const CAPABILITY: Row = Row {
    number: 11,
    name: "jk/Capability",
    parent: 0,
    interfaces: &[],
    flags: 0x0401,
    closed: true,
    copiable: false,
    fields: &[],
    methods: Some((
        40,
        &[
            ("create", "(Ljk/Remote;)Ljk/Capability;", 0x0009),
            ("revoke", "()V", 0x0011),
        ],
    )),
};

const THROWABLE: Row = Row {
    number: 9,
    name: "java/lang/Throwable",
    parent: 0,
    interfaces: &[1],
    flags: 0x0001,
    closed: false,
    copiable: true,
    fields: &[(".message", "Ljava/lang/String;", 0x0001)],
    methods: Some((
        37,
        &[
            ("<init>", "()V", 0x0001),
            ("<init>", "(Ljava/lang/String;)V", 0x0001),
            ("getMessage", "()Ljava/lang/String;", 0x0001),
        ],
    )),
};

/// Below java/lang/Error, which is 16.
const MACHINE_ERROR: Row = Row {
    number: 33,
    name: "java/lang/VirtualMachineError",
    parent: 16,
    interfaces: &[],
    flags: 0x0401,
    closed: false,
    copiable: true,
    fields: &[],
    methods: None,
};

const DEATH: Row = Row {
    number: 34,
    name: "java/lang/ThreadDeath",
    parent: 16,
    interfaces: &[],
    flags: 0x0001,
    closed: false,
    copiable: true,
    fields: &[],
    methods: Some((90, &[("<init>", "()V", 0x0001)])),
};

/// Below jk/RemoteException, which is 18.
const QUOTA: Row = Row {
    number: 43,
    name: "jk/QuotaException",
    parent: 18,
    interfaces: &[],
    flags: 0x0001,
    closed: false,
    copiable: true,
    fields: &[],
    methods: Some((
        107,
        &[
            ("<init>", "()V", 0x0001),
            ("<init>", "(Ljava/lang/String;)V", 0x0001),
        ],
    )),
};

const CLASSES: &[Row] = &[
    STRING,
    STRING_BUILDER,
    SYSTEM,
    CAPABILITY,
    THROWABLE,
    MACHINE_ERROR,
    DEATH,
    QUOTA,
];

/// The class of a number.
fn class(n: u16) -> Result<SystemClass, Fail> {
    if n >= count() {
        return Err(Fail::from("no class"));
    }
    Ok(system_class(n))
}

/// Whether the methods are these, with numbers from the first one on.
fn are_methods(methods: &[SystemMethod], first: u16, rows: &[MemberRow]) -> bool {
    let mut number = first;
    for (method, row) in methods.iter().zip(rows) {
        if (method.name, method.descriptor, method.flags) != *row || method.number != number {
            return false;
        }
        number = number.wrapping_add(1);
    }
    methods.len() == rows.len()
}

fn are_fields(fields: &[SystemField], rows: &[MemberRow]) -> bool {
    let are_same = fields.iter().zip(rows).all(|(field, row)| (
        field.name,
        field.descriptor,
        field.flags,
    ) == *row);
    are_same && fields.len() == rows.len()
}

fn has_members(class: SystemClass, row: &Row) -> bool {
    let has_methods = match row.methods {
        Some((first, rows)) => are_methods(class.methods, first, rows),
        None => !class.methods.is_empty(),
    };
    has_methods && are_fields(class.fields, row.fields)
}

fn is_of(class: SystemClass, row: &Row) -> bool {
    class.name == row.name
        && class.parent == Some(row.parent)
        && class.interfaces == row.interfaces
        && class.flags == row.flags
        && class.closed == row.closed
        && class.copiable == row.copiable
}

/// Whether a class is an interface without members.
fn is_interface(class: SystemClass) -> bool {
    let is_open = class.flags == 0x0201 && !class.closed && !class.copiable;
    is_open && class.parent == Some(0) && class.methods.is_empty() && class.fields.is_empty()
}

/// Whether the class of a row's number is as the row says.
fn has_row(row: &Row) -> Result<bool, Fail> {
    let class = class(row.number)?;
    Ok(is_of(class, row) && has_members(class, row))
}

/// The numbers of interfaces without members.
const INTERFACES: &[u16] = &[1, 2, 10];

#[test]
fn classes(rt: HostRuntime) -> Result<(), Fail> {
    for row in CLASSES {
        assert!(rt; has_row(row)?, "{}", row.name);
    }
    for n in INTERFACES {
        assert!(rt; is_interface(class(*n)?), "class {n}");
    }
    Ok(())
}

/// How many methods there are, where their numbers are those from 0 on.
fn methods_in_order() -> Option<u16> {
    let mut next = 0u16;
    for n in 0..count() {
        for method in system_class(n).methods {
            if method.number != next {
                return None;
            }
            next = next.wrapping_add(1);
        }
    }
    Some(next)
}

/// The number of the class of a name, given as its ASCII text.
fn number(alloc: Global, name: &str) -> Result<Option<u16>, OutOfMemory> {
    let units = units(alloc, name)?;
    Ok(class_named(units.as_slice()))
}

/// Names, and the numbers of their classes.
const NAMES: &[(&str, Option<u16>)] = &[
    ("java/lang/Object", Some(0)),
    ("java/io/Serializable", Some(1)),
    ("java/lang/Cloneable", Some(2)),
    ("java/lang/StringBuffer", Some(4)),
    ("java/lang/StringBuilder", Some(5)),
    ("jk/Remote", Some(10)),
    ("jk/Task", Some(14)),
    ("java/lang/Error", Some(16)),
    ("jk/RemoteException", Some(18)),
    ("jk/NotCopiableException", Some(44)),
    ("", None),
    ("java/lang/Class", None),
    ("java/lang/Objec", None),
    ("java/lang/Objects", None),
    ("java/lang/object", None),
    ("java.lang.Object", None),
    ("Object", None),
];

/// A name with a unit past one byte, which is none of ASCII. The low bytes are those of jk/Task.
const WIDE: [u16; 7] = [0x016a, 0x6b, 0x2f, 0x54, 0x61, 0x73, 0x6b];

#[test]
fn numbers(rt: HostRuntime) -> Result<(), Fail> {
    assert!(rt; count() == 45 && methods_in_order() == Some(111));
    for (name, wanted) in NAMES {
        assert!(rt; number(rt.alloc(), name)? == *wanted, "of {name}");
    }
    assert!(rt; class_named(&WIDE).is_none());
    Ok(())
}
