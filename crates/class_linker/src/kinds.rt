//! The types that the descriptors of a pool say. Each entry is read once, however many members have it.

ghost use Rattle.std.specs.Prelude.{◌≡◌, IfOk, IfSome, None, Some, replicate, slice_get};
ghost use Rattle.jk_model_classes.specs.Worlds.{class_named};
ghost use Rattle.class_linker.specs.KnownDescriptors.{AreKindsKnown, AreTypesKnown, IsFieldAt, IsKindAt, IsMethodAt, IsTypeAt};
ghost use Rattle.class_linker.specs.Scopes.{IsScope};

use crate::scope::Scope;
use crate::types::{MethodKind, kind_of_method, type_of_field};
use jk_model::{List, OutOfMemory};
use jk_model_classes::TypeRef;
use std::alloc::Global;

/// Nothing yet, so many times.
pub(crate) fn nothing_yet<T: Drop>(
    alloc: Global,
    count: usize,
) -> Result<List<Option<T>>, OutOfMemory>
    ensures { IfOk result (λ list. list ≡ replicate count None) }
{
    let mut list = List::new(alloc);
    while list.len() < count {
        list.push(None)?;
    }
    Ok(list)
}

/// The type that was read at an index.
fn known_type(known: &[Option<TypeRef>], i: u16) -> Option<TypeRef>
    ensures { IfSome result (λ t. slice_get known.now i ≡ Some (Some t)) }
{
    match known.get(usize::from(i)) {
        Some(found) => *found,
        None => None,
    }
}

/// The type of a field whose descriptor stands at an index, by the types that are known already.
pub(crate) fn field_type_at(
    scope: &Scope,
    known: &mut List<Option<TypeRef>>,
    i: u16,
) -> Result<TypeRef, OutOfMemory>
    requires scope { IsScope scope.now }
    requires known { AreTypesKnown (class_named scope.now.names.now) scope.now.file.now.pool known.old }
    requires field { IsFieldAt (class_named scope.now.names.now) scope.now.file.now.pool i }
    ensures found { IfOk result (IsTypeAt (class_named scope.now.names.now) scope.now.file.now.pool i) }
    ensures known { AreTypesKnown (class_named scope.now.names.now) scope.now.file.now.pool known.new }
{
    if let Some(t) = known_type(known.as_slice(), i) {
        return Ok(t);
    }
    let t = type_of_field(scope.alloc, scope.names, scope.text(i).as_slice())?;
    known.replace(usize::from(i), Some(t));
    Ok(t)
}

/// The type that was read at an index, with one more owner.
fn known_kind(known: &[Option<MethodKind>], i: u16) -> Result<Option<MethodKind>, OutOfMemory>
    ensures { IfOk result (λ found. IfSome found (λ k. slice_get known.now i ≡ Some (Some k))) }
{
    match known.get(usize::from(i)) {
        Some(Some(kind)) => Ok(Some(kind.share()?)),
        _ => Ok(None),
    }
}

/// The type of a method whose descriptor stands at an index, by the types that are known already.
pub(crate) fn method_kind_at(
    scope: &Scope,
    known: &mut List<Option<MethodKind>>,
    i: u16,
) -> Result<MethodKind, OutOfMemory>
    requires scope { IsScope scope.now }
    requires known { AreKindsKnown (class_named scope.now.names.now) scope.now.file.now.pool known.old }
    requires method { IsMethodAt (class_named scope.now.names.now) scope.now.file.now.pool i }
    ensures found { IfOk result (IsKindAt (class_named scope.now.names.now) scope.now.file.now.pool i) }
    ensures known { AreKindsKnown (class_named scope.now.names.now) scope.now.file.now.pool known.new }
{
    if let Some(kind) = known_kind(known.as_slice(), i)? {
        return Ok(kind);
    }
    let kind = kind_of_method(scope.alloc, scope.names, scope.text(i).as_slice())?;
    let shared = kind.share()?;
    known.replace(usize::from(i), Some(shared));
    Ok(kind)
}
