//! Records of the table, as the rules of the system classes give them.

use jk_model::ClassId;
use jk_model_classes::{BaseRef, Body, ClassRecord, FieldRecord, MethodRecord, TypeRef};
use shared_values::Text;
use std::alloc::Global;
use std::test::Fail;
use system_records::*;
use system_table::count;

/// What the rules say of a class: its name, its flags, its parent, and how many interfaces, fields and
/// methods it has.
#[derive(Clone, Copy)]
struct Row(&'static str, u16, Option<u16>, usize, usize, usize);

const CLASSES: &[(u16, Row)] = &[
    (0, Row("java/lang/Object", 0x0001, None, 0, 0, 2)),
    (1, Row("java/io/Serializable", 0x0201, Some(0), 0, 0, 0)),
    (3, Row("java/lang/String", 0x0001, Some(0), 1, 0, 9)),
    (9, Row("java/lang/Throwable", 0x0001, Some(0), 1, 1, 3)),
    (11, Row("jk/Capability", 0x0401, Some(0), 0, 0, 2)),
    (14, Row("jk/Task", 0x0001, Some(0), 0, 0, 4)),
    (
        33,
        Row("java/lang/VirtualMachineError", 0x0401, Some(16), 0, 0, 2),
    ),
    (34, Row("java/lang/ThreadDeath", 0x0001, Some(16), 0, 0, 1)),
    (43, Row("jk/QuotaException", 0x0001, Some(18), 0, 0, 2)),
];

/// Whether a text is this ASCII text.
fn reads(text: &Text, expected: &str) -> bool {
    let mut bytes = expected.bytes();
    text.len() == expected.len()
        && text
            .as_slice()
            .iter()
            .all(|unit| bytes.next().map(u16::from) == Some(*unit))
}

/// Whether a record is of the class of this row. The record is of no domain, and has no links.
fn is_of(made: &ClassRecord, row: &Row) -> bool {
    let Row(name, flags, parent, interfaces, fields, methods) = row;
    reads(&made.name, name)
        && made.flags == *flags
        && made.parent == parent.map(|n| ClassId(u32::from(n)))
        && made.interfaces.len() == *interfaces
        && made.fields.len() == *fields
        && made.methods.len() == *methods
        && made.home.is_none()
        && made.links.is_empty()
        && made.references.is_empty()
}

/// The record of a class of the table.
fn record(alloc: Global, n: u16) -> Result<ClassRecord, Fail> {
    if n >= count() {
        return Err(Fail::from("no class"));
    }
    Ok(system_record(alloc, n)?)
}

/// Whether the record of a class is of this row.
fn has_row(alloc: Global, n: u16, row: &Row) -> Result<bool, Fail> {
    let made = record(alloc, n)?;
    Ok(is_of(&made, row))
}

/// Whether the record of a class is of no domain.
fn has_no_home(alloc: Global, n: u16) -> Result<bool, Fail> {
    let made = record(alloc, n)?;
    Ok(made.home.is_none())
}

#[test]
fn classes(rt: HostRuntime) -> Result<(), Fail> {
    for n in 0..count() {
        assert!(rt; has_no_home(rt.alloc(), n)?);
    }
    for (n, row) in CLASSES {
        assert!(rt; has_row(rt.alloc(), *n, row)?, "class {n}");
    }
    Ok(())
}

/// The type of objects of class java/lang/String.
const STRING: TypeRef = TypeRef {
    dims: 0,
    base: BaseRef::Class(ClassId(3)),
};

const INT: TypeRef = TypeRef {
    dims: 0,
    base: BaseRef::Int,
};

/// What the rules say of a method: its name, its flags, which one of the system it runs, and the types that it takes and answers.
struct MethodRow(&'static str, u16, u16, &'static [TypeRef], Option<TypeRef>);

/// Methods by their class and their place there.
const METHODS: &[(u16, usize, MethodRow)] = &[
    (
        3,
        3,
        MethodRow("concat", 0x0001, 5, &[STRING], Some(STRING)),
    ),
    (
        3,
        4,
        MethodRow("substring", 0x0001, 6, &[INT, INT], Some(STRING)),
    ),
    (11, 1, MethodRow("revoke", 0x0011, 41, &[], None)),
];

/// Whether a method takes and answers these types.
fn has_types(method: &MethodRecord, params: &[TypeRef], answer: Option<TypeRef>) -> bool {
    let kind = method.kind.get();
    method.params.get().as_slice() == params
        && method.result == answer
        && kind.params.len() == params.len()
        && kind.result.is_some() == answer.is_some()
}

fn runs(method: &MethodRecord, number: u16) -> bool {
    match method.body {
        Body::System(n) => n == number,
        _ => false,
    }
}

fn is_method(method: &MethodRecord, row: &MethodRow) -> bool {
    let MethodRow(name, flags, number, params, answer) = row;
    reads(&method.name, name)
        && method.flags == *flags
        && runs(method, *number)
        && has_types(method, params, *answer)
}

/// Whether a class has the method of a row at a place.
fn has_method(alloc: Global, n: u16, place: usize, row: &MethodRow) -> Result<bool, Fail> {
    let made = record(alloc, n)?;
    match made.methods.get(place) {
        Some(method) => Ok(is_method(method, row)),
        None => Ok(false),
    }
}

/// Whether a field is the public text of a throwable.
fn is_message(field: &FieldRecord) -> bool {
    reads(&field.name, ".message") && field.flags == 0x0001 && field.kind == STRING
}

/// Whether a class begins with such a field.
fn has_message(alloc: Global, n: u16) -> Result<bool, Fail> {
    let made = record(alloc, n)?;
    match made.fields.get(0) {
        Some(field) => Ok(is_message(field)),
        None => Ok(false),
    }
}

#[test]
fn members(rt: HostRuntime) -> Result<(), Fail> {
    for (n, place, row) in METHODS {
        assert!(rt; has_method(rt.alloc(), *n, *place, row)?, "class {n}");
    }
    assert!(rt; has_message(rt.alloc(), 9)?);
    Ok(())
}
