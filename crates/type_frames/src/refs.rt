//! Types of objects and arrays: which fits which, and the least that two fit.

ghost use Rattle.std.specs.Prelude.{◌≡◌, ◌≢◌, ◌<◌, ◌≤◌, ◌↔◌, IsTrue, MatchOption};
ghost use Rattle.jk_model_classes.specs.declared.records.TypeRef.{TypeRef as AType};
ghost use Rattle.jk_model_typing.specs.FrameTypes.{IsJoin, RefFits, array_type};
ghost use Rattle.type_frames.specs.Heights.{height};
ghost use Rattle.type_frames.specs.TypesAbove.{BaseFits, HaveNoBase, IsNearestBase, fewer_dims, objects};

use crate::classes::common_class;
use class_table::ClassTable;
use jk_model::ClassId;
use jk_model_classes::{BaseRef, TypeRef};
use jk_model_typing::VType;
use std::cmp::Ordering;

/// The first of the system classes, java/lang/Object.
pub(crate) const OBJECT: ClassId = ClassId(0);

/// Whether a class or an array fits another.
pub(crate) fn ref_fits(t: &ClassTable, a: &TypeRef, b: &TypeRef) -> bool
    ensures { IsTrue result ↔ RefFits t.now a.now b.now }
{
    if a.dims == b.dims {
        base_fits(t, &a.base, &b.base)
    } else {
        b.dims < a.dims && b.base == BaseRef::Class(OBJECT)
    }
}

/// Whether an array fits another of as many dimensions, by what they are of.
fn base_fits(t: &ClassTable, a: &BaseRef, b: &BaseRef) -> bool
    ensures { IsTrue result ↔ BaseFits t.now a.now b.now }
{
    match (a, b) {
        (BaseRef::Class(a), BaseRef::Class(b)) => t.is_subclass(*a, *b),
        _ => a == b,
    }
}

/// The least type that two classes or arrays fit, which aren't the same.
pub(crate) fn join_refs(t: &ClassTable, a: &TypeRef, b: &TypeRef) -> VType
    requires { a.now ≢ b.now }
    ensures join { IsJoin t.now (VType.Ref a.now) (VType.Ref b.now) result }
    ensures falls { result ≢ VType.Ref a.now → height t.now result < height t.now (VType.Ref a.now) }
{
    let dims = a.dims;
    match dims.cmp(&b.dims) {
        Ordering::Equal => join_bases(t, dims, &a.base, &b.base),
        Ordering::Greater => join_deeper(t, b),
        Ordering::Less => join_deeper(t, a),
    }
}

/// The same for arrays of as many dimensions, by what they are of.
#[tactic(auto, using(crate::proofs::HeightsFall::base_above_is_lower))]
fn join_bases(t: &ClassTable, dims: u8, a: &BaseRef, b: &BaseRef) -> VType
    requires { a.now ≢ b.now }
    ensures join { let left = array_type dims a.now in let right = array_type dims b.now in IsJoin t.now (VType.Ref left) (VType.Ref right) result }
    ensures falls { let left = array_type dims a.now in result ≢ VType.Ref left → height t.now result < height t.now (VType.Ref left) }
{
    t.ordered();
    match common_base(t, a, b) {
        Some(c) => VType::Ref(TypeRef {
            dims,
            base: BaseRef::Class(c),
        }),
        None => fewer_dims(dims),
    }
}

/// The nearest class above both of two that aren't the same; none where there is none.
fn common_base(t: &ClassTable, a: &BaseRef, b: &BaseRef) -> Option<ClassId>
    requires { a.now ≢ b.now }
    ensures { MatchOption result (HaveNoBase t.now a.now b.now) (IsNearestBase t.now a.now b.now) }
{
    t.ordered();
    match (a, b) {
        (BaseRef::Class(a), BaseRef::Class(b)) => common_class(t, *a, *b),
        _ => None,
    }
}

/// The least type that a class or array fits, and any array that has more dimensions.
fn join_deeper(t: &ClassTable, shallow: &TypeRef) -> VType
    ensures join { (deep : AType) → shallow.now.dims < deep.dims → IsJoin t.now (VType.Ref deep) (VType.Ref shallow.now) result }
    ensures falls { result ≢ VType.Ref shallow.now → height t.now result < height t.now (VType.Ref shallow.now) }
    ensures deeper { (deep : AType) → shallow.now.dims < deep.dims → deep.dims < 256 → height t.now result < height t.now (VType.Ref deep) }
{
    if base_fits(t, &shallow.base, &BaseRef::Class(OBJECT)) {
        objects(shallow.dims)
    } else {
        fewer_dims(shallow.dims)
    }
}

/// An array of java/lang/Object of one dimension less.
fn fewer_dims(dims: u8) -> VType
    ensures { result ≡ fewer_dims dims }
{
    if dims == 0 {
        VType::Unusable
    } else {
        objects(dims - 1)
    }
}

/// An array of java/lang/Object; itself for no dimension.
fn objects(dims: u8) -> VType
    ensures { result ≡ objects dims }
{
    VType::Ref(TypeRef {
        dims,
        base: BaseRef::Class(OBJECT),
    })
}
