//! The types that descriptors say, with numbers of classes in place of their names.

ghost use Rattle.std.specs.Prelude.{◌≡◌, ◌<◌, ◌^◌, IfOk, length};
ghost use Rattle.std.specs.List.{AllZip};
ghost use Rattle.jk_model.specs.Descriptors.{IsMethodText};
ghost use Rattle.jk_model.specs.declared.descriptors.MethodType.{MethodType};
ghost use Rattle.jk_model_classes.specs.SystemRecords.{IsBaseFor, IsResultFor, IsTypeFor};
ghost use Rattle.jk_model_classes.specs.Worlds.{class_named};
ghost use Rattle.class_linker.specs.KnownTypes.{AreKnownTypes, IsFieldOf, IsKindOf, IsKnownBase, IsKnownResult, IsKnownType, IsMethodOf, IsTypeOf};

use crate::scope::class_of;
use descriptors::{DescriptorError, field_type, method_type};
use domain_resolver::NameTable;
use jk_model::{Base, FieldType, List, MethodType, OutOfMemory};
use jk_model_classes::{BaseRef, TypeRef};
use shared_values::{Shared, SharedKind};
use std::alloc::Global;

/// The type of a method, to be shared by all methods that have the same descriptor.
#[derive(Drop)]
pub(crate) struct MethodKind {
    /// With names of classes.
    pub(crate) kind: SharedKind,
    /// The types of the parameters, with numbers of classes.
    pub(crate) params: Shared<List<TypeRef>>,
    /// The type of what it returns, with the number of a class.
    pub(crate) returns: Option<TypeRef>,
}

impl MethodKind {
    /// One more owner of the same type. It takes no memory.
    pub(crate) fn share(&self) -> Result<MethodKind, OutOfMemory>
        ensures { IfOk result (λ k. k ≡ self.now) }
    {
        let kind = self.kind.share()?;
        let params = self.params.share()?;
        Ok(MethodKind {
            kind,
            params,
            returns: self.returns,
        })
    }
}

/// What an array's elements, or a value that is no array, are of.
fn base_ref(names: &NameTable, base: &Base) -> BaseRef
    requires { IsKnownBase (class_named names.now) base.now }
    ensures { IsBaseFor (class_named names.now) base.now result }
{
    match base {
        Base::Byte => BaseRef::Byte,
        Base::Char => BaseRef::Char,
        Base::Int => BaseRef::Int,
        Base::Long => BaseRef::Long,
        Base::Short => BaseRef::Short,
        Base::Bool => BaseRef::Bool,
        Base::Class(name) => BaseRef::Class(class_of(names, name.as_slice())),
        Base::Double | Base::Float => unreachable!(),
    }
}

/// A type with the number of its class.
fn type_ref(names: &NameTable, t: &FieldType) -> TypeRef
    requires { IsKnownType (class_named names.now) t.now }
    ensures { IsTypeFor (class_named names.now) t.now result }
{
    TypeRef {
        dims: t.dims,
        base: base_ref(names, &t.base),
    }
}

/// Types with the numbers of their classes, in their order.
fn type_refs(
    alloc: Global,
    names: &NameTable,
    types: &[FieldType],
) -> Result<List<TypeRef>, OutOfMemory>
    requires { AreKnownTypes (class_named names.now) types.now }
    ensures { IfOk result (λ refs. AllZip (IsTypeFor (class_named names.now)) types.now refs) }
{
    let mut refs = List::new(alloc);
    for t in types {
        refs.push(type_ref(names, t))?;
    }
    Ok(refs)
}

/// The type of what a method returns, if it returns something.
fn result_ref(names: &NameTable, of: &Option<FieldType>) -> Option<TypeRef>
    requires { IsKnownResult (class_named names.now) of.now }
    ensures { IsResultFor (class_named names.now) of.now result }
{
    match of {
        Some(t) => Some(type_ref(names, t)),
        None => None,
    }
}

/// Why a descriptor isn't read that is one.
pub(crate) fn only_memory(e: DescriptorError) -> OutOfMemory
    requires { e ≡ DescriptorError.OutOfMemory }
{
    match e {
        DescriptorError::OutOfMemory => OutOfMemory,
        DescriptorError::BadDescriptor(_) => unreachable!(),
    }
}

/// The type that a descriptor of a field says.
pub(crate) fn type_of_field(
    alloc: Global,
    names: &NameTable,
    units: &[u16],
) -> Result<TypeRef, OutOfMemory>
    requires { IsFieldOf (class_named names.now) units.now }
    ensures { IfOk result (λ t. IsTypeOf (class_named names.now) units.now t) }
{
    match field_type(alloc, units) {
        Ok(t) => Ok(type_ref(names, &t)),
        Err(e) => Err(only_memory(e)),
    }
}

/// The type that a descriptor of a method says, with names of classes.
fn type_of_method(alloc: Global, units: &[u16]) -> Result<MethodType, OutOfMemory>
    requires short { length units.now < 2 ^ 31 }
    requires some { ((m : MethodType) → IsMethodText units.now m → ⊥) → ⊥ }
    ensures { IfOk result (λ m. IsMethodText units.now m) }
{
    match method_type(alloc, units) {
        Ok(kind) => Ok(kind),
        Err(e) => Err(only_memory(e)),
    }
}

/// The same, with numbers of classes beside them.
pub(crate) fn kind_of_method(
    alloc: Global,
    names: &NameTable,
    units: &[u16],
) -> Result<MethodKind, OutOfMemory>
    requires { IsMethodOf (class_named names.now) units.now }
    ensures { IfOk result (λ k. IsKindOf (class_named names.now) units.now k) }
{
    let kind = type_of_method(alloc, units)?;
    let params = type_refs(alloc, names, kind.params.as_slice())?;
    let returns = result_ref(names, &kind.result);
    Ok(MethodKind {
        kind: SharedKind::new(alloc, kind)?,
        params: Shared::new(alloc, params)?,
        returns,
    })
}
