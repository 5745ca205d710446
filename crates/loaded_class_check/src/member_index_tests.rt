//! What is found in a class with several members of one name.

use crate::class_rows::MethodSort::{Giving, Plain};
use crate::class_rows::{FieldRow, INT, LONG, MethodRow, fields, kind, methods, units};
use jk_model::ClassId;
use jk_model_classes::{BaseRef, FieldRecord, MethodRecord, TypeRef};
use member_index::*;
use std::alloc::Global;
use std::test::Fail;

const INTS: TypeRef = TypeRef {
    dims: 1,
    base: BaseRef::Int,
};

const SEVEN: TypeRef = TypeRef {
    dims: 0,
    base: BaseRef::Class(ClassId(7)),
};

const FIELDS: &[FieldRow<'static>] = &[
    ("a", 0, INT),
    ("b", 0, INT),
    ("a", 0, LONG),
    ("a", 0, INT),
    ("ab", 0, INT),
    ("a", 0, SEVEN),
    ("a", 0, INTS),
];

/// Names and types of fields with a place, and the first place from there on of such a field.
const FIELD_CASES: &[(&str, TypeRef, u16, Option<u16>)] = &[
    ("a", INT, 0, Some(0)),
    ("a", INT, 1, Some(3)),
    ("a", INT, 3, Some(3)),
    ("a", INT, 4, None),
    ("a", INT, 65_535, None),
    ("a", LONG, 0, Some(2)),
    ("a", SEVEN, 0, Some(5)),
    ("a", INTS, 0, Some(6)),
    ("ab", INT, 0, Some(4)),
    ("b", INT, 0, Some(1)),
    ("b", LONG, 0, None),
    ("c", INT, 0, None),
    ("", INT, 0, None),
];

/// The first place from a place on of a field of a name and a type, by an index that is made of these fields.
fn found_field(
    alloc: Global,
    fields: &[FieldRecord],
    name: &str,
    kind: TypeRef,
    from: u16,
) -> Result<Option<u16>, Fail> {
    if fields.len() > 1000 {
        return Err(Fail::from("many fields"));
    }
    let name = units(alloc, name)?;
    let index = FieldIndex::new(alloc, fields)?;
    Ok(index.find(fields, &FieldKey::new(name.as_slice(), kind), from))
}

#[test]
fn fields_are_found(rt: HostRuntime) -> Result<(), Fail> {
    let alloc = rt.alloc();
    let fields = fields(alloc, FIELDS)?;
    for (name, kind, from, wanted) in FIELD_CASES {
        assert!(rt; found_field(alloc, fields.as_slice(), name, *kind, *from)? == *wanted);
    }
    assert!(rt; found_field(alloc, &[], "a", INT, 0)?.is_none());
    Ok(())
}

const METHODS: &[MethodRow<'static>] = &[
    ("a", 0x0400, 1, Plain),
    ("b", 0x0400, 1, Plain),
    ("a", 0x0400, 0, Giving),
    ("a", 0x0400, 1, Plain),
    ("a", 0x0400, 0, Plain),
];

/// Names of methods with how many ints they take, whether they answer one, and a place, and the first place from there on of such a
/// method.
const METHOD_CASES: &[(&str, u8, bool, u16, Option<u16>)] = &[
    ("a", 1, false, 0, Some(0)),
    ("a", 1, false, 1, Some(3)),
    ("a", 1, false, 3, Some(3)),
    ("a", 1, false, 4, None),
    ("a", 0, true, 0, Some(2)),
    ("a", 0, false, 0, Some(4)),
    ("a", 1, true, 0, None),
    ("b", 1, false, 0, Some(1)),
    ("b", 0, false, 0, None),
    ("c", 1, false, 0, None),
];

/// The first place from a place on of a method of a name and a type, by an index that is made of these methods.
fn found_method(
    alloc: Global,
    methods: &[MethodRecord],
    name: &str,
    (ints, gives): (u8, bool),
    from: u16,
) -> Result<Option<u16>, Fail> {
    let name = units(alloc, name)?;
    let kind = kind(alloc, ints, gives)?;
    found(
        alloc,
        methods,
        &MethodKey::new(name.as_slice(), &kind),
        from,
    )
}

fn found(
    alloc: Global,
    methods: &[MethodRecord],
    key: &MethodKey<'_>,
    from: u16,
) -> Result<Option<u16>, Fail> {
    if methods.len() > 1000 {
        return Err(Fail::from("many methods"));
    }
    let index = MethodIndex::new(alloc, methods)?;
    Ok(index.find(methods, key, from))
}

/// The same of a method of the class by its own key.
fn found_own(
    alloc: Global,
    methods: &[MethodRecord],
    place: usize,
    from: u16,
) -> Result<Option<u16>, Fail> {
    match methods.get(place) {
        Some(own) => found(alloc, methods, &MethodKey::of_method(own), from),
        None => Err(Fail::from("no method")),
    }
}

#[test]
fn methods_are_found(rt: HostRuntime) -> Result<(), Fail> {
    let alloc = rt.alloc();
    let methods = methods(alloc, METHODS)?;
    for (name, ints, gives, from, wanted) in METHOD_CASES {
        let found = found_method(alloc, methods.as_slice(), name, (*ints, *gives), *from)?;
        assert!(rt; found == *wanted);
    }
    assert!(rt; found_own(alloc, methods.as_slice(), 3, 1)? == Some(3));
    assert!(rt; found_method(alloc, &[], "a", (1, false), 0)?.is_none());
    Ok(())
}
