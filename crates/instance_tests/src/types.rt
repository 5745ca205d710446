//! Which types are below which.

ghost use Rattle.std.specs.Prelude.{◌≡◌, ◌↔◌, IsTrue};
ghost use Rattle.jk_model_typing.specs.FrameTypes.{array_type};
ghost use Rattle.jk_model_domains.specs.Objects.{class_type};
ghost use Rattle.jk_model_heaps.specs.Instances.{IsA, IsAboveArrays, IsClassA};

use class_table::ClassTable;
use jk_model::ClassId;
use jk_model_classes::{BaseRef, TypeRef};
use jk_model_heaps::system_classes::{CLONEABLE, OBJECT, SERIALIZABLE};

/// The type of a class that is no array.
pub fn class_type(c: ClassId) -> TypeRef
    ensures { result ≡ class_type c }
{
    TypeRef {
        dims: 0,
        base: BaseRef::Class(c),
    }
}

/// Whether what is of the first type is an instance of the second: they are one; or, at equal dimensions, the class of the first is
/// below the other's or implements it; or the first has more dimensions, and every array is an instance of the other's class. It takes
/// at most one step for each class and interface above the first.
pub fn is_a(t: &ClassTable, a: &TypeRef, b: &TypeRef) -> bool
    ensures { IsTrue result ↔ IsA t.now a.now b.now }
{
    is_array_a(t, u32::from(a.dims), &a.base, b)
}

/// As `is_a`, of arrays of so many dimensions, which may be one more than a type tells.
pub(crate) fn is_array_a(t: &ClassTable, dims: u32, base: &BaseRef, b: &TypeRef) -> bool
    ensures { IsTrue result ↔ IsA t.now (array_type dims base.now) b.now }
{
    let other = u32::from(b.dims);
    if dims == other {
        *base == b.base || is_class_a(t, base, &b.base)
    } else {
        other < dims && is_above_arrays(&b.base)
    }
}

/// Whether both are classes, and the first is below the second or implements it.
fn is_class_a(t: &ClassTable, a: &BaseRef, b: &BaseRef) -> bool
    ensures { IsTrue result ↔ IsClassA t.now a.now b.now }
{
    match (a, b) {
        (BaseRef::Class(c), BaseRef::Class(d)) => t.is_subclass(*c, *d) || t.implements(*c, *d),
        _ => false,
    }
}

/// Whether every array is an instance: of java/lang/Object, java/io/Serializable and java/lang/Cloneable.
fn is_above_arrays(base: &BaseRef) -> bool
    ensures { IsTrue result ↔ IsAboveArrays base.now }
{
    match base {
        BaseRef::Class(c) => *c == OBJECT || *c == SERIALIZABLE || *c == CLONEABLE,
        _ => false,
    }
}
