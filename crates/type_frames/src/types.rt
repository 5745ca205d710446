//! Types of values: which fits which, and the least that two fit.

ghost use Rattle.std.specs.Prelude.{◌≡◌, ◌≢◌, ◌<◌, ◌↔◌, IsTrue};
ghost use Rattle.jk_model_typing.specs.FrameTypes.{Fits, IsJoin, erased_class, of_class, of_type, value_of};
ghost use Rattle.type_frames.specs.Heights.{height};

use crate::refs::{OBJECT, join_refs, ref_fits};
use class_table::ClassTable;
use jk_model::{AccessFlags, ClassId, has};
use jk_model_classes::{BaseRef, TypeRef};
use jk_model_typing::VType;

/// Whether a type fits another. It costs at most the depth of the first type's class.
pub fn fits(t: &ClassTable, a: &VType, b: &VType) -> bool
    ensures { IsTrue result ↔ Fits t.now a.now b.now }
{
    if a == b {
        return true;
    }
    match (a, b) {
        (_, VType::Unusable) | (VType::Null, VType::Ref(_)) => true,
        (VType::Ref(a), VType::Ref(b)) => ref_fits(t, a, b),
        _ => false,
    }
}

/// The least type that both fit: of two classes the nearest one above both. It costs at most the depths of both classes.
pub fn join(t: &ClassTable, a: &VType, b: &VType) -> VType
    ensures join { IsJoin t.now a.now b.now result }
    ensures falls { result ≢ a.now → height t.now result < height t.now a.now }
{
    if a == b {
        return *a;
    }
    match (a, b) {
        (VType::Null, VType::Ref(_)) => *b,
        (VType::Ref(_), VType::Null) => *a,
        (VType::Ref(a), VType::Ref(b)) => join_refs(t, a, b),
        _ => VType::Unusable,
    }
}

/// What a value of a type is in a frame: whole numbers other than long are ints, and interfaces are java/lang/Object.
pub fn value_of(t: &ClassTable, kind: &TypeRef) -> VType
    ensures { result ≡ value_of t.now kind.now }
{
    match (kind.dims, kind.base) {
        (0, BaseRef::Long) => VType::Long,
        (0, BaseRef::Class(c)) => of_class(t, c),
        (0, _) => VType::Int,
        _ => of_type(t, kind),
    }
}

/// Null, or an object or array of a type.
pub fn of_type(t: &ClassTable, kind: &TypeRef) -> VType
    ensures { result ≡ of_type t.now kind.now }
{
    let base = match kind.base {
        BaseRef::Class(c) => BaseRef::Class(erased_class(t, c)),
        base => base,
    };
    VType::Ref(TypeRef {
        dims: kind.dims,
        base,
    })
}

/// Null, or an object of a class.
pub fn of_class(t: &ClassTable, c: ClassId) -> VType
    ensures { result ≡ of_class t.now c }
{
    VType::Ref(TypeRef {
        dims: 0,
        base: BaseRef::Class(erased_class(t, c)),
    })
}

/// java/lang/Object for an interface, and else the class itself.
fn erased_class(t: &ClassTable, c: ClassId) -> ClassId
    ensures { result ≡ erased_class t.now c }
{
    match t.class(c) {
        Some(class) if has(class.flags, AccessFlags::INTERFACE) => OBJECT,
        _ => c,
    }
}
