//! The static fields of a class as they begin.

ghost use Rattle.std.specs.Prelude.{◌≡◌, ◌≤◌, IfOk, length, map};
ghost use Rattle.jk_model.specs.Flags.{STATIC, has};
ghost use Rattle.jk_model_domains.specs.OwnStates.{first_statics, first_value, zero_of};
ghost use Rattle.class_init.specs.Statics.{statics_from};

use crate::statics::{FieldSlot, Statics};
use jk_model::{AccessFlags, OutOfMemory, Value, has};
use jk_model_classes::{BaseRef, FieldRecord, Link, TypeRef};
use std::alloc::Global;

/// The static fields among these, each with its whole-number constant, or else 0 or null.
pub(crate) fn first_fields(alloc: Global, fields: &[FieldRecord]) -> Result<Statics, OutOfMemory>
    requires { length fields.now ≤ 65535 }
    ensures { IfOk result (λ statics. statics ≡ statics_from 0 fields.now) }
{
    let mut slots = Vec::new(alloc);
    for i in 0..fields.len() {
        let field = &fields[i];
        if is_static(field) {
            slots.push(first_slot(i as u16, field))?;
        }
    }
    Ok(Statics::of(slots))
}

/// Whether the class has such a field, and not its objects.
pub(crate) fn is_static(field: &FieldRecord) -> bool
    ensures { result ≡ has field.now.flags STATIC }
{
    has(field.flags, AccessFlags::STATIC)
}

/// A static field as it begins.
fn first_slot(index: u16, field: &FieldRecord) -> FieldSlot
    ensures index { result.index ≡ index }
    ensures value { result.value ≡ first_value field.now.kind field.now.constant }
{
    FieldSlot {
        index,
        value: begins_with(field.kind, &field.constant),
    }
}

/// The value with which a static field begins.
fn begins_with(kind: TypeRef, constant: &Link) -> Value
    ensures { result ≡ first_value kind constant.now }
{
    match constant {
        Link::Int(n) => Value::Int(*n),
        Link::Long(n) => Value::Long(*n),
        _ => zero(kind),
    }
}

/// Null, or the whole number 0 of the type.
fn zero(kind: TypeRef) -> Value
    ensures { result ≡ zero_of kind }
{
    if kind.dims > 0 {
        return Value::Null;
    }
    match kind.base {
        BaseRef::Long => Value::Long(0),
        BaseRef::Class(_) => Value::Null,
        _ => Value::Int(0),
    }
}
