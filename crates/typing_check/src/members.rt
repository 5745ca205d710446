//! The records of a class's fields and methods.

use crate::classes::LinkError;
use crate::codes::linked_code;
use crate::scope::Scope;
use class_reader::{CodeRefusal, read_code};
use jk_model::{Attribute, ClassFile, Code, List, MemberInfo};
use jk_model_classes::{Body, FieldRecord, Link, MethodRecord};
use shared_values::{Shared, SharedKind, Text};
use std::alloc::Global;

/// `<clinit>`, whose flags don't count, and the name of the attribute that has a code.
const CLASS_INIT: &str = "<clinit>";

const CODE: &str = "Code";

const STATIC: u16 = 0x0008;

/// A longer body of an attribute is not read.
const MOST_BYTES: usize = 1 << 20;

/// Whether units spell an ASCII text.
fn spell(units: &[u16], text: &str) -> bool {
    let bytes = text.as_bytes();
    units.len() == bytes.len()
        && units
            .iter()
            .zip(bytes.iter())
            .all(|(unit, byte)| *unit == u16::from(*byte))
}

/// The record of a field. Its constant doesn't matter for typing.
fn field_record(scope: &Scope<'_>, field: &MemberInfo) -> Result<FieldRecord, LinkError> {
    let name = scope.units(field.name)?;
    Ok(FieldRecord {
        name: Text::new(scope.alloc, name.as_slice())?,
        flags: field.flags,
        kind: scope.field_type(field.descriptor)?,
        constant: Link::Nothing,
    })
}

/// The records of a class's fields, in their order.
pub(crate) fn field_records(
    scope: &Scope<'_>,
    file: &ClassFile,
) -> Result<List<FieldRecord>, LinkError> {
    let mut records = List::new(scope.alloc);
    for field in file.fields.as_slice() {
        records.push(field_record(scope, field)?)?;
    }
    Ok(records)
}

/// What the body of a Code attribute says.
fn code_of(alloc: Global, attribute: &Attribute) -> Result<Code, LinkError> {
    let body = attribute.body.as_slice();
    if body.len() > MOST_BYTES {
        return Err(LinkError::Unlinked(attribute.name));
    }
    match read_code(alloc, body) {
        Ok(code) => Ok(code),
        Err(CodeRefusal::OutOfMemory) => Err(LinkError::OutOfMemory),
        Err(_) => Err(LinkError::Unlinked(attribute.name)),
    }
}

/// What a method runs: the code of its first Code attribute, or nothing.
fn body_of(scope: &Scope<'_>, method: &MemberInfo) -> Result<Body, LinkError> {
    for attribute in method.attributes.as_slice() {
        let name = scope.units(attribute.name)?;
        if spell(name.as_slice(), CODE) {
            let code = code_of(scope.alloc, attribute)?;
            return Ok(Body::Linked(linked_code(scope, &code)?));
        }
    }
    Ok(Body::Absent)
}

/// The record of a method.
fn method_record(scope: &Scope<'_>, method: &MemberInfo) -> Result<MethodRecord, LinkError> {
    let name = scope.units(method.name)?;
    let flags = if spell(name.as_slice(), CLASS_INIT) {
        STATIC
    } else {
        method.flags
    };
    let kind = scope.method_type(method.descriptor)?;
    let params = scope.param_refs(&kind, method.descriptor)?;
    let result = scope.result_ref(&kind, method.descriptor)?;
    Ok(MethodRecord {
        name: Text::new(scope.alloc, name.as_slice())?,
        flags,
        kind: SharedKind::new(scope.alloc, kind)?,
        params: Shared::new(scope.alloc, params)?,
        result,
        body: body_of(scope, method)?,
    })
}

/// The records of a class's methods, in their order.
pub(crate) fn method_records(
    scope: &Scope<'_>,
    file: &ClassFile,
) -> Result<List<MethodRecord>, LinkError> {
    let mut records = List::new(scope.alloc);
    for method in file.methods.as_slice() {
        records.push(method_record(scope, method)?)?;
    }
    Ok(records)
}
