//! What the rules ask of the types of fields and methods.

ghost use Rattle.std.specs.Prelude.{◌≡◌, ◌<◌, ◌^◌, ◌||◌, IfOk, length, codes};
ghost use Rattle.std.specs.List.{list_any};
ghost use Rattle.jk_model.specs.declared.descriptors.FieldType.{FieldType};
ghost use Rattle.class_rules.specs.Texts.{kind_of, field_shape, is_float_base, has_float_result, method_shape, IsFieldShape, IsMethodShape};

use super::{FieldShape, Kind, MethodShape};
use crate::spelling::is_text;
use descriptors::{DescriptorError, field_type, method_type, slots};
use jk_model::{Base, FieldType, MethodType, OutOfMemory};
use std::alloc::Global;

/// What a constant of this type would be.
fn kind(base: &Base) -> Kind
    ensures { result ≡ kind_of base.now }
{
    match base {
        Base::Byte | Base::Char | Base::Int | Base::Short | Base::Bool => Kind::Int,
        Base::Long => Kind::Long,
        Base::Float => Kind::Float,
        Base::Double => Kind::Double,
        Base::Class(name) if is_text(name.as_slice(), "java/lang/String") => Kind::Text,
        Base::Class(_) => Kind::Other,
    }
}

/// Whether a type is of float or double, or of an array of them.
fn is_float(t: &FieldType) -> bool
    ensures { result ≡ is_float_base t.now.base }
{
    matches!(t.base, Base::Float | Base::Double)
}

/// Whether the result is such a type.
fn returns_float(t: &MethodType) -> bool
    ensures { result ≡ has_float_result t.now.result }
{
    matches!(&t.result, Some(result) if is_float(result))
}

/// Whether a parameter is such a type.
fn takes_float(t: &MethodType) -> bool
    ensures { result ≡ list_any (λ (p : FieldType). is_float_base p.base) t.now.params }
{
    t.params.as_slice().iter().any(is_float)
}

/// Whether a parameter or the result is such a type.
fn uses_float(t: &MethodType) -> bool
    ensures { result ≡ (list_any (λ (p : FieldType). is_float_base p.base) t.now.params || has_float_result t.now.result) }
{
    takes_float(t) || returns_float(t)
}

/// What the rules ask of a method's type.
fn shape_of_method(t: &MethodType) -> MethodShape
    requires { length t.now.params < 2 ^ 31 }
    ensures { result ≡ method_shape t.now }
{
    MethodShape {
        slots: slots(t, false),
        has_result: t.result.is_some(),
        has_float: uses_float(t),
    }
}

/// The shape of the type that units are a field's descriptor of, if they are one.
pub(crate) fn field_shape_of(
    alloc: Global,
    units: &[u16],
) -> Result<Option<FieldShape>, OutOfMemory>
    requires { length units.now < 2 ^ 16 }
    ensures { IfOk result (IsFieldShape units.now) }
{
    match field_type(alloc, units) {
        Ok(t) => Ok(Some(FieldShape {
            dims: t.dims,
            kind: kind(&t.base),
        })),
        Err(DescriptorError::BadDescriptor(_)) => Ok(None),
        Err(DescriptorError::OutOfMemory) => Err(OutOfMemory),
    }
}

/// The shape of the type that units are a method's descriptor of, if they are one.
pub(crate) fn method_shape_of(
    alloc: Global,
    units: &[u16],
) -> Result<Option<MethodShape>, OutOfMemory>
    requires { length units.now < 2 ^ 16 }
    ensures { IfOk result (IsMethodShape units.now) }
{
    match method_type(alloc, units) {
        Ok(t) => Ok(Some(shape_of_method(&t))),
        Err(DescriptorError::BadDescriptor(_)) => Ok(None),
        Err(DescriptorError::OutOfMemory) => Err(OutOfMemory),
    }
}
