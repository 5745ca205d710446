//! What a store into a field or an element leaves of a value.

ghost use Rattle.std.specs.Prelude.{◌≡◌};
ghost use Rattle.jk_model_heaps.specs.StoredValues.{stored, stored_int};

use jk_model::Value;
use jk_model_classes::{BaseRef, TypeRef};

/// What a store into a field or an element of a type leaves: of an int 8, 16, 16 or 1 low bits at byte, char, short and boolean,
/// byte and short with their sign, and all of every other value.
#[inline(always)]
pub(crate) fn stored(kind: &TypeRef, v: Value) -> Value
    ensures { result ≡ stored kind.now v }
{
    match v {
        Value::Int(n) => Value::Int(stored_int(kind, n)),
        _ => v,
    }
}

/// What a store into a field or an element of a type leaves of an int.
#[inline(always)]
fn stored_int(kind: &TypeRef, n: i32) -> i32
    ensures { result ≡ stored_int kind.now n }
{
    if kind.dims == 0 {
        let bits = n.cast_unsigned();
        match kind.base {
            BaseRef::Byte => i32::from(((bits % 256) as u8).cast_signed()),
            BaseRef::Char => (bits % 65_536).cast_signed(),
            BaseRef::Short => i32::from(((bits % 65_536) as u16).cast_signed()),
            BaseRef::Bool => (bits % 2).cast_signed(),
            _ => n,
        }
    } else {
        n
    }
}
