//! Counts the slots that the arguments of a call take.

ghost use Rattle.std.specs.Prelude.{◌≡◌, ◌<◌, ◌^◌, length};
ghost use Rattle.jk_model.specs.Descriptors.{base_slots, field_slots, method_slots};

use jk_model::{Base, FieldType, MethodType};

/// The slots of a value that is no array.
fn slots_of_base(base: &Base) -> u32
    ensures { result ≡ base_slots base.now }
{
    match base {
        Base::Long | Base::Double => 2,
        _ => 1,
    }
}

/// The slots of a value: a reference to an array takes one.
fn slots_of_field(t: &FieldType) -> u32
    ensures { result ≡ field_slots t.now }
{
    if t.dims == 0 {
        slots_of_base(&t.base)
    } else {
        1
    }
}

/// The slots that the arguments of a method take, and its receiver where it has one: two for a long or a
/// double, and one for all else.
pub fn slots(t: &MethodType, receiver: bool) -> u32
    requires { length t.now.params < 2 ^ 31 }
    ensures { result ≡ method_slots t.now receiver }
{
    let mut total = if receiver { 1 } else { 0 };
    for param in t.params.as_slice() {
        total += slots_of_field(param);
    }
    total
}
