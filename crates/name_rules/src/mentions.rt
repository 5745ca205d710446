//! Whether a descriptor, or the name of a Class entry, says a class whose name has no meaning.

ghost use Rattle.std.specs.Prelude.{◌≡◌, ◌<◌, ◌^◌, ◌↔◌, IfOk, IsTrue, length};
ghost use Rattle.jk_model.specs.declared.descriptors.Base.TheVariants as Base;
ghost use Rattle.jk_model.specs.declared.descriptors.FieldType.{FieldType};
ghost use Rattle.jk_model.specs.Descriptors.{IsFieldText};
ghost use Rattle.jk_model_classes.specs.ClassNames.{BeginsArray, IsClassEntryName};
ghost use Rattle.jk_model_classes.specs.Items.{HasItem};
ghost use Rattle.jk_model_classes.specs.References.{IsOfClass, IsResultOfClass, Mentions};
ghost use Rattle.name_rules.specs.KnownNames.{IsNamedBy, LacksOne};

use crate::names::Names;
use descriptors::{DescriptorError, field_type, method_type};
use jk_model::{Base, FieldType, OutOfMemory};

/// What the name of an array begins with.
const BRACKET: u16 = b'[' as u16;

/// Whether what an array's elements, or a value that is no array, are of is such a class.
fn base_lacks(names: &Names, base: &Base) -> bool
    ensures { IsTrue result ↔ LacksOne names.now (λ name. base.now ≡ Base.Class name) }
{
    match base {
        Base::Class(name) => names.lack(name.as_slice()),
        _ => false,
    }
}

/// Whether one of the types is of such a class.
fn types_lack(names: &Names, types: &[FieldType]) -> bool
    ensures { IsTrue result ↔ LacksOne names.now (λ name. HasItem (IsOfClass name) types.now) }
{
    for t in types {
        if base_lacks(names, &t.base) {
            return true;
        }
    }
    false
}

/// Whether what a method returns is of such a class.
fn result_lacks(names: &Names, of: &Option<FieldType>) -> bool
    ensures { IsTrue result ↔ LacksOne names.now (λ name. IsResultOfClass name of.now) }
{
    match of {
        Some(t) => base_lacks(names, &t.base),
        None => false,
    }
}

/// Whether the descriptor of a method has such a class in it; what is none has none.
fn method_lacks(names: &Names, units: &[u16]) -> Result<bool, OutOfMemory>
    requires short { length units.now < 2 ^ 31 }
    requires method { (t : FieldType) → IsFieldText units.now t → ⊥ }
    ensures { IfOk result (λ r. IsTrue r ↔ LacksOne names.now (Mentions units.now)) }
{
    match method_type(names.alloc, units) {
        Ok(kind) => {
            Ok(types_lack(names, kind.params.as_slice()) || result_lacks(names, &kind.result))
        }
        Err(DescriptorError::OutOfMemory) => Err(OutOfMemory),
        Err(DescriptorError::BadDescriptor(_)) => Ok(false),
    }
}

/// Whether a descriptor has such a class in it; what is none has none.
pub(crate) fn descriptor_lacks(names: &Names, units: &[u16]) -> Result<bool, OutOfMemory>
    requires { length units.now < 2 ^ 31 }
    ensures { IfOk result (λ r. IsTrue r ↔ LacksOne names.now (Mentions units.now)) }
{
    match field_type(names.alloc, units) {
        Ok(t) => Ok(base_lacks(names, &t.base)),
        Err(DescriptorError::OutOfMemory) => Err(OutOfMemory),
        Err(DescriptorError::BadDescriptor(_)) => method_lacks(names, units),
    }
}

/// Whether units begin as the name of an array does.
fn begins_array(units: &[u16]) -> bool
    ensures { IsTrue result ↔ BeginsArray units.now }
{
    match units {
        [first, ..] => *first == BRACKET,
        [] => false,
    }
}

/// Whether the name of an array says such a class.
fn array_lacks(names: &Names, units: &[u16]) -> Result<bool, OutOfMemory>
    requires { length units.now < 2 ^ 31 }
    ensures { IfOk result (λ r. IsTrue r ↔ LacksOne names.now (λ name. (t : FieldType) × IsFieldText units.now t × IsOfClass name t)) }
{
    match field_type(names.alloc, units) {
        Ok(t) => Ok(base_lacks(names, &t.base)),
        Err(DescriptorError::OutOfMemory) => Err(OutOfMemory),
        Err(DescriptorError::BadDescriptor(_)) => Ok(false),
    }
}

/// Whether the name of a Class entry says such a class.
pub(crate) fn name_lacks(names: &Names, units: &[u16]) -> Result<bool, OutOfMemory>
    requires short { length units.now < 2 ^ 31 }
    requires form { (IsClassEntryName units.now → ⊥) → ⊥ }
    ensures { IfOk result (λ r. IsTrue r ↔ LacksOne names.now (IsNamedBy units.now)) }
{
    if begins_array(units) {
        array_lacks(names, units)
    } else {
        Ok(names.lack(units))
    }
}
