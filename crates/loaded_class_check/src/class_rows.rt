//! Classes for the tests, written as rows of a table.

ghost use Rattle.std.specs.Prelude.{IsTrue};
ghost use Rattle.jk_model_classes.specs.Classes.{StandsAbove};

use class_table::ClassTable;
use jk_model::{Base, ClassId, DomainId, FieldType, List, MemberId, MethodType, OutOfMemory};
use jk_model_classes::{BaseRef, Body, ClassRecord, FieldRecord, Link, MethodRecord, TypeRef};
use shared_values::{Shared, SharedKind, Text};
use std::alloc::Global;
use std::test::Fail;

/// A class or an interface, by its name and the domain that it is at home in.
#[derive(Clone, Copy)]
pub(crate) struct Row<'a> {
    pub name: &'a str,
    pub home: u32,
    pub flags: u16,
    pub parent: u32,
    pub interfaces: &'a [u32],
    pub fields: &'a [FieldRow<'a>],
    pub methods: &'a [MethodRow<'a>],
}

/// A field: its name, its flags and its type.
pub(crate) type FieldRow<'a> = (&'a str, u16, TypeRef);

/// A method: its name, its flags, how many ints it takes, and its sort.
pub(crate) type MethodRow<'a> = (&'a str, u16, u8, MethodSort);

#[derive(Clone, Copy, PartialEq, Eq)]
pub(crate) enum MethodSort {
    /// It answers nothing.
    Plain,
    /// It answers an int.
    Giving,
    /// It answers nothing, and is one of the system's.
    OfSystem,
}

pub(crate) const INT: TypeRef = TypeRef {
    dims: 0,
    base: BaseRef::Int,
};

pub(crate) const LONG: TypeRef = TypeRef {
    dims: 0,
    base: BaseRef::Long,
};

/// The units of an ASCII text.
pub(crate) fn units(alloc: Global, text: &str) -> Result<Vec<u16>, OutOfMemory> {
    let units = text.bytes().map(u16::from).collect(alloc)?;
    Ok(units)
}

pub(crate) fn text(alloc: Global, text: &str) -> Result<Text, OutOfMemory> {
    let units = units(alloc, text)?;
    Text::new(alloc, units.as_slice())
}

/// A member, by its class and its place there.
pub(crate) type Place = (u32, u16);

pub(crate) fn member((class, index): Place) -> MemberId {
    MemberId {
        class: ClassId(class),
        index,
    }
}

pub(crate) fn place(found: Option<MemberId>) -> Option<Place> {
    match found {
        Some(m) => Some((m.class.0, m.index)),
        None => None,
    }
}

const AN_INT: FieldType = FieldType {
    dims: 0,
    base: Base::Int,
};

/// The type of a method that takes so many ints, and answers an int or nothing.
pub(crate) fn kind(alloc: Global, ints: u8, gives: bool) -> Result<MethodType, OutOfMemory> {
    let mut params = List::new(alloc);
    for _ in 0..ints {
        params.push(AN_INT)?;
    }
    let result = if gives { Some(AN_INT) } else { None };
    Ok(MethodType { params, result })
}

pub(crate) fn field(alloc: Global, row: &FieldRow) -> Result<FieldRecord, OutOfMemory> {
    Ok(FieldRecord {
        name: text(alloc, row.0)?,
        flags: row.1,
        kind: row.2,
        constant: Link::Nothing,
    })
}

pub(crate) fn fields(alloc: Global, rows: &[FieldRow]) -> Result<List<FieldRecord>, OutOfMemory> {
    let mut fields = List::new(alloc);
    for row in rows {
        fields.push(field(alloc, row)?)?;
    }
    Ok(fields)
}

pub(crate) fn method(alloc: Global, row: &MethodRow) -> Result<MethodRecord, OutOfMemory> {
    let (name, flags, ints, sort) = row;
    let kind = kind(alloc, *ints, *sort == MethodSort::Giving)?;
    let body = match sort {
        MethodSort::OfSystem => Body::System(0),
        _ => Body::Absent,
    };
    Ok(MethodRecord {
        name: text(alloc, name)?,
        flags: *flags,
        kind: SharedKind::new(alloc, kind)?,
        params: Shared::new(alloc, List::new(alloc))?,
        result: None,
        body,
    })
}

pub(crate) fn methods(
    alloc: Global,
    rows: &[MethodRow],
) -> Result<List<MethodRecord>, OutOfMemory> {
    let mut methods = List::new(alloc);
    for row in rows {
        methods.push(method(alloc, row)?)?;
    }
    Ok(methods)
}

fn classes(alloc: Global, numbers: &[u32]) -> Result<List<ClassId>, OutOfMemory> {
    let mut classes = List::new(alloc);
    for n in numbers {
        classes.push(ClassId(*n))?;
    }
    Ok(classes)
}

/// The class of a row.
pub(crate) fn class(alloc: Global, row: &Row) -> Result<ClassRecord, OutOfMemory> {
    Ok(ClassRecord {
        name: text(alloc, row.name)?,
        home: Some(DomainId(row.home)),
        flags: row.flags,
        parent: Some(ClassId(row.parent)),
        interfaces: classes(alloc, row.interfaces)?,
        fields: fields(alloc, row.fields)?,
        methods: methods(alloc, row.methods)?,
        links: List::new(alloc),
        references: List::new(alloc),
    })
}

/// Whether the parent and the interfaces have lower numbers.
pub(crate) fn stands_above(n: usize, c: &ClassRecord) -> bool
    ensures { IsTrue result → StandsAbove n c.now }
{
    let Some(parent) = c.parent else {
        return false;
    };
    (parent.0 as usize) < n && c.interfaces.as_slice().iter().all(|i| (i.0 as usize) < n)
}

/// Puts a class after the others.
pub(crate) fn add(t: &mut ClassTable, c: ClassRecord) -> Result<(), Fail> {
    let few = t.len() < 1000 && c.fields.len() < 1000 && c.methods.len() < 1000;
    if !few || !stands_above(t.len(), &c) {
        return Err(Fail::from("no place for the class"));
    }
    t.add(c)?;
    Ok(())
}

/// The system classes, and then those of the rows.
pub(crate) fn table(alloc: Global, rows: &[Row]) -> Result<ClassTable, Fail> {
    let mut t = ClassTable::new(alloc)?;
    for row in rows {
        add(&mut t, class(alloc, row)?)?;
    }
    Ok(t)
}
