//! The records of the fields and methods of a system class.

ghost use Rattle.std.specs.Prelude.{IfOk};
ghost use Rattle.std.specs.List.{AllByRecursion, AllZip};
ghost use Rattle.jk_model_classes.specs.SystemRecords.{IsSystemField, IsSystemMethodAt};
ghost use Rattle.system_records.specs.KnownTypes.{IsKnownField, IsKnownMethod};
ghost use Rattle.system_table.specs.Entry.{field_of, method_of};

use crate::texts::text_of;
use crate::types::{result_ref, type_of_field, type_of_method, type_ref, type_refs};
use jk_model::{List, OutOfMemory};
use jk_model_classes::{Body, FieldRecord, Link, MethodRecord};
use shared_values::{Shared, SharedKind};
use std::alloc::Global;
use system_table::{SystemField, SystemMethod};

/// The record of a field.
fn field_record(alloc: Global, field: SystemField) -> Result<FieldRecord, OutOfMemory>
    requires { IsKnownField field.descriptor.now }
    ensures { IfOk result (λ made. IsSystemField (field_of field) made) }
{
    let name = text_of(alloc, field.name)?;
    let kind = type_of_field(alloc, field.descriptor)?;
    Ok(FieldRecord {
        name,
        flags: field.flags,
        kind: type_ref(&kind),
        constant: Link::Nothing,
    })
}

/// The record of a method.
fn method_record(alloc: Global, method: SystemMethod) -> Result<MethodRecord, OutOfMemory>
    requires { IsKnownMethod method.descriptor.now }
    ensures { IfOk result (λ made. IsSystemMethodAt method.number (method_of method) made) }
{
    let name = text_of(alloc, method.name)?;
    let kind = type_of_method(alloc, method.descriptor)?;
    let params = type_refs(alloc, kind.params.as_slice())?;
    let result = result_ref(&kind.result);
    Ok(MethodRecord {
        name,
        flags: method.flags,
        kind: SharedKind::new(alloc, kind)?,
        params: Shared::new(alloc, params)?,
        result,
        body: Body::System(method.number),
    })
}

/// The records of fields, in their order.
pub(crate) fn field_records(
    alloc: Global,
    fields: &[SystemField],
) -> Result<List<FieldRecord>, OutOfMemory>
    requires { AllByRecursion (λ f. IsKnownField f.descriptor.now) fields.now }
    ensures { IfOk result (λ made. AllZip (λ f r. IsSystemField (field_of f) r) fields.now made) }
{
    let mut made = List::new(alloc);
    for field in fields {
        made.push(field_record(alloc, *field)?)?;
    }
    Ok(made)
}

/// The records of methods, in their order.
pub(crate) fn method_records(
    alloc: Global,
    methods: &[SystemMethod],
) -> Result<List<MethodRecord>, OutOfMemory>
    requires { AllByRecursion (λ m. IsKnownMethod m.descriptor.now) methods.now }
    ensures { IfOk result (λ made. AllZip (λ m r. IsSystemMethodAt m.number (method_of m) r) methods.now made) }
{
    let mut made = List::new(alloc);
    for method in methods {
        made.push(method_record(alloc, *method)?)?;
    }
    Ok(made)
}
