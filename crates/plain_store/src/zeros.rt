//! What a new object has: zeros and nulls.

ghost use Rattle.std.specs.Prelude.{◌≡◌, ◌+◌, ◌≤◌, ◌++◌, length, replicate, vec_capacity};
ghost use Rattle.jk_model_classes.specs.declared.records.FieldRecord.{FieldRecord as AField};
ghost use Rattle.jk_model_classes.specs.Classes.{HasClass};
ghost use Rattle.jk_model_classes.specs.Lookups.{FieldIs};
ghost use Rattle.jk_model_domains.specs.OwnStates.{zero_of};
ghost use Rattle.jk_model_heaps.specs.Heaps.{zero_fields};

use class_table::ClassTable;
use jk_model::{ClassId, MemberId, Value};
use jk_model_classes::{BaseRef, TypeRef};
use jk_model_heaps::laws::fields_stand_in_one_order;

/// Null, or the whole number 0 of the type.
pub(crate) fn zero_of(kind: &TypeRef) -> Value
    ensures { result ≡ zero_of kind.now }
{
    if kind.dims > 0 {
        return Value::Null;
    }
    match kind.base {
        BaseRef::Long => Value::Long(0),
        BaseRef::Class(_) => Value::Null,
        _ => Value::Int(0),
    }
}

/// The zero of a field of the table.
fn field_zero(t: &ClassTable, m: MemberId) -> Value
    requires { (f : AField) × FieldIs t.now m f }
    ensures { (f : AField) → FieldIs t.now m f → result ≡ zero_of f.kind }
{
    let Some(class) = t.class(m.class) else {
        unreachable!();
    };
    match class.fields.get(usize::from(m.index)) {
        Some(field) => zero_of(&field.kind),
        None => unreachable!(),
    }
}

/// Puts the zero of each instance field of a class behind the values, where there is room for them. It takes time in proportion
/// to n log m for n fields and m classes above.
pub(crate) fn add_fields(values: &mut Vec<Value>, t: &ClassTable, c: ClassId)
    requires class { HasClass t.now c }
    requires room { length values.old.items + length (zero_fields t.now c) ≤ vec_capacity values.old }
    ensures items { values.new.items ≡ values.old.items ++ zero_fields t.now c }
    ensures capacity { vec_capacity values.new ≡ vec_capacity values.old }
{
    fields_stand_in_one_order();
    let Some(layout) = t.layout(c) else {
        unreachable!();
    };
    for i in 0..layout.len() {
        match layout.field(i) {
            Some(m) => values.push_reserved(field_zero(t, m)),
            None => unreachable!(),
        }
    }
}

/// Puts so many of a value behind the others, where there is room for them.
pub(crate) fn add_values(values: &mut Vec<Value>, count: u32, v: Value)
    requires { length values.old.items + count ≤ vec_capacity values.old }
    ensures items { values.new.items ≡ values.old.items ++ replicate count v }
    ensures capacity { vec_capacity values.old ≤ vec_capacity values.new }
{
    let end = values.len() + count as usize;
    match values.resize(end, v) {
        Ok(()) => {}
        Err(_) => unreachable!(),
    }
}

/// Puts so many units of 0 behind the others, where there is room for them.
pub(crate) fn add_units(units: &mut Vec<u16>, count: u32)
    requires { length units.old.items + count ≤ vec_capacity units.old }
    ensures items { units.new.items ≡ units.old.items ++ replicate count 0 }
    ensures capacity { vec_capacity units.old ≤ vec_capacity units.new }
{
    let end = units.len() + count as usize;
    match units.resize(end, 0) {
        Ok(()) => {}
        Err(_) => unreachable!(),
    }
}
