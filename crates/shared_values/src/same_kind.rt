//! Compares types of methods part by part.

ghost use Rattle.std.specs.Prelude.{◌≡◌, ◌↔◌, IsTrue};

use jk_model::{Base, FieldType, MethodType};

/// Whether two types of methods are the same.
pub(crate) fn is_same_kind(a: &MethodType, b: &MethodType) -> bool
    ensures { IsTrue result ↔ (a.now ≡ b.now) }
{
    is_same_result(&a.result, &b.result) && are_same(a.params.as_slice(), b.params.as_slice())
}

/// Whether two lists of types are the same.
fn are_same(a: &[FieldType], b: &[FieldType]) -> bool
    ensures { IsTrue result ↔ (a.now ≡ b.now) }
{
    if a.len() != b.len() {
        return false;
    }
    for i in 0..a.len() {
        if !is_same_field(&a[i], &b[i]) {
            return false;
        }
    }
    true
}

/// Whether two results are the same.
fn is_same_result(a: &Option<FieldType>, b: &Option<FieldType>) -> bool
    ensures { IsTrue result ↔ (a.now ≡ b.now) }
{
    match (a, b) {
        (Some(a), Some(b)) => is_same_field(a, b),
        (None, None) => true,
        _ => false,
    }
}

/// Whether two types are the same.
fn is_same_field(a: &FieldType, b: &FieldType) -> bool
    ensures { IsTrue result ↔ (a.now ≡ b.now) }
{
    a.dims == b.dims && is_same_base(&a.base, &b.base)
}

/// Whether two types that are no arrays are the same.
fn is_same_base(a: &Base, b: &Base) -> bool
    ensures { IsTrue result ↔ (a.now ≡ b.now) }
{
    match a {
        Base::Byte => matches!(b, Base::Byte),
        Base::Char => matches!(b, Base::Char),
        Base::Double => matches!(b, Base::Double),
        Base::Float => matches!(b, Base::Float),
        Base::Int => matches!(b, Base::Int),
        Base::Long => matches!(b, Base::Long),
        Base::Short => matches!(b, Base::Short),
        Base::Bool => matches!(b, Base::Bool),
        Base::Class(name) => is_class_of(b, name.as_slice()),
    }
}

/// Whether a type that is no array is the class of a name.
fn is_class_of(base: &Base, name: &[u16]) -> bool
    ensures { IsTrue result ↔ (base.now ≡ Base.Class name.now) }
{
    match base {
        Base::Class(other) => other.as_slice() == name,
        _ => false,
    }
}
