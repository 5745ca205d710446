//! The types that descriptors of the table say, with numbers of classes in place of their names.

ghost use Rattle.std.specs.Prelude.{◌≡◌, IfOk, IsSome, Some};
ghost use Rattle.std.specs.List.{AllZip};
ghost use Rattle.jk_model.specs.Descriptors.{IsFieldText, IsMethodText};
ghost use Rattle.jk_model_classes.specs.SystemRecords.{IsBaseFor, IsResultFor, IsTypeFor};
ghost use Rattle.system_records.specs.KnownTypes.{AreKnownTypes, IsKnownBase, IsKnownField, IsKnownMethod, IsKnownResult, IsKnownType, class_called};

use crate::numbers::class_id;
use crate::texts::units_of;
use descriptors::{DescriptorError, field_type, method_type};
use jk_model::{Base, ClassId, FieldType, List, MethodType, OutOfMemory};
use jk_model_classes::{BaseRef, TypeRef};
use std::alloc::Global;
use system_table::class_named;

/// The type that a descriptor of a field says.
pub(crate) fn type_of_field(alloc: Global, descriptor: &str) -> Result<FieldType, OutOfMemory>
    requires { IsKnownField descriptor.now }
    ensures text { IfOk result (λ t. IsFieldText descriptor.now t) }
    ensures known { IfOk result (λ t. IsKnownType t) }
{
    let units = units_of(alloc, descriptor)?;
    match field_type(alloc, units.as_slice()) {
        Ok(found) => Ok(found),
        Err(DescriptorError::OutOfMemory) => Err(OutOfMemory),
        Err(DescriptorError::BadDescriptor(_)) => unreachable!(),
    }
}

/// The type that a descriptor of a method says.
pub(crate) fn type_of_method(alloc: Global, descriptor: &str) -> Result<MethodType, OutOfMemory>
    requires { IsKnownMethod descriptor.now }
    ensures text { IfOk result (λ m. IsMethodText descriptor.now m) }
    ensures params { IfOk result (λ m. AreKnownTypes m.params) }
    ensures answer { IfOk result (λ m. IsKnownResult m.result) }
{
    let units = units_of(alloc, descriptor)?;
    match method_type(alloc, units.as_slice()) {
        Ok(found) => Ok(found),
        Err(DescriptorError::OutOfMemory) => Err(OutOfMemory),
        Err(DescriptorError::BadDescriptor(_)) => unreachable!(),
    }
}

/// The system class of a name.
fn class_of(name: &[u16]) -> ClassId
    requires { IsSome (class_called name.now) }
    ensures { class_called name.now ≡ Some result }
{
    class_id(class_named(name).unwrap())
}

/// What an array's elements, or a value that is no array, are of.
fn base_ref(base: &Base) -> BaseRef
    requires { IsKnownBase base.now }
    ensures { IsBaseFor class_called base.now result }
{
    match base {
        Base::Byte => BaseRef::Byte,
        Base::Char => BaseRef::Char,
        Base::Int => BaseRef::Int,
        Base::Long => BaseRef::Long,
        Base::Short => BaseRef::Short,
        Base::Bool => BaseRef::Bool,
        Base::Class(name) => BaseRef::Class(class_of(name.as_slice())),
        Base::Double | Base::Float => unreachable!(),
    }
}

/// A type with the numbers of its classes.
pub(crate) fn type_ref(t: &FieldType) -> TypeRef
    requires { IsKnownType t.now }
    ensures { IsTypeFor class_called t.now result }
{
    TypeRef {
        dims: t.dims,
        base: base_ref(&t.base),
    }
}

/// Types with the numbers of their classes, in their order.
pub(crate) fn type_refs(alloc: Global, types: &[FieldType]) -> Result<List<TypeRef>, OutOfMemory>
    requires { AreKnownTypes types.now }
    ensures { IfOk result (λ refs. AllZip (IsTypeFor class_called) types.now refs) }
{
    let mut refs = List::new(alloc);
    for t in types {
        refs.push(type_ref(t))?;
    }
    Ok(refs)
}

/// The type of a method's result, if it has one.
pub(crate) fn result_ref(of: &Option<FieldType>) -> Option<TypeRef>
    requires { IsKnownResult of.now }
    ensures { IsResultFor class_called of.now result }
{
    match of {
        Some(t) => Some(type_ref(t)),
        None => None,
    }
}
