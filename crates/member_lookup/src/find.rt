//! Fields and methods by name and type.

ghost use Rattle.jk_model_classes.specs.Classes.{HasClass, class_method_walk, interface_method_walk, superclasses};
ghost use Rattle.jk_model_classes.specs.Lookups.{FindsField, FindsMethod, FindsOn, IsFieldOf, IsMethodOf};

use crate::records::{is_interface, parent_of};
use class_table::{ClassTable, FieldKey, MethodKey};
use jk_model::{ClassId, MemberId, MethodType};
use jk_model_classes::TypeRef;

/// java/lang/Object is the first class.
const OBJECT: ClassId = ClassId(0);

/// The field that a reference to class c finds: the class itself, then its interfaces in order, each with those above it,
/// then its parent in the same way. None where none of these has such a field.
///
/// It takes one search by order for each class and interface above c, each of which is visited once, and time in
/// proportion to the name.
pub fn find_field(t: &ClassTable, c: ClassId, name: &[u16], kind: &TypeRef) -> Option<MemberId>
    ensures { FindsField t.now c name.now kind.now result }
{
    find_field_by(t, c, &FieldKey::new(name, *kind))
}

/// As `find_field`, by a key, whose fingerprints are worked out already: it goes over the name only to compare it
/// with that of a field which has the same ones.
pub fn find_field_by(t: &ClassTable, c: ClassId, key: &FieldKey<'_>) -> Option<MemberId>
    ensures { FindsField t.now c key.now.name key.now.kind result }
{
    first_field(t, t.walk(c)?, key)
}

/// The method that a reference to c finds. For a class: itself and its parents upwards, then the interfaces of each of
/// these, from the class upwards, in order and each with those above it. For an interface: itself, then its interfaces in
/// order and each with those above it, then java/lang/Object. Costs as `find_field`.
pub fn find_method(t: &ClassTable, c: ClassId, name: &[u16], kind: &MethodType) -> Option<MemberId>
    ensures { FindsMethod t.now c name.now kind.now result }
{
    find_method_by(t, c, &MethodKey::new(name, kind))
}

/// As `find_method`, by a key, whose fingerprints are worked out already. Costs as `find_field_by`.
pub fn find_method_by(t: &ClassTable, c: ClassId, key: &MethodKey<'_>) -> Option<MemberId>
    ensures { FindsMethod t.now c key.now.name key.now.kind result }
{
    if is_interface(t, c) {
        method_of_interface(t, c, key)
    } else {
        method_of_class(t, c, key)
    }
}

/// The method that a reference to an interface finds: its own and those above it are asked, and then java/lang/Object.
fn method_of_interface(t: &ClassTable, c: ClassId, key: &MethodKey<'_>) -> Option<MemberId>
    requires { HasClass t.now c }
    ensures { FindsOn (IsMethodOf t.now key.now.name key.now.kind) (interface_method_walk t.now c) result }
{
    match first_method(t, t.interface_walk(c)?, key) {
        Some(found) => Some(found),
        None => first_method(t, &[OBJECT], key),
    }
}

/// The method that a reference to a class finds. The classes of its walk that are no interfaces are asked twice.
fn method_of_class(t: &ClassTable, c: ClassId, key: &MethodKey<'_>) -> Option<MemberId>
    ensures { FindsOn (IsMethodOf t.now key.now.name key.now.kind) (class_method_walk t.now c) result }
{
    match first_method_upwards(t, c, key) {
        Some(found) => Some(found),
        None => first_method(t, t.walk(c)?, key),
    }
}

/// The first class of the walk that has such a field, and its first such field.
fn first_field(t: &ClassTable, walk: &[ClassId], key: &FieldKey<'_>) -> Option<MemberId>
    ensures { FindsOn (IsFieldOf t.now key.now.name key.now.kind) walk.now result }
{
    for &d in walk {
        if let Some(index) = t.own_field(d, key, 0) {
            return Some(MemberId { class: d, index });
        }
    }
    None
}

/// The first class of the walk that has such a method, and its first such method.
fn first_method(t: &ClassTable, walk: &[ClassId], key: &MethodKey<'_>) -> Option<MemberId>
    ensures { FindsOn (IsMethodOf t.now key.now.name key.now.kind) walk.now result }
{
    for &d in walk {
        if let Some(index) = t.own_method(d, key, 0) {
            return Some(MemberId { class: d, index });
        }
    }
    None
}

/// The first of a class and its parents upwards that has such a method, and its first such method.
fn first_method_upwards(t: &ClassTable, c: ClassId, key: &MethodKey<'_>) -> Option<MemberId>
    ensures { FindsOn (IsMethodOf t.now key.now.name key.now.kind) (superclasses t.now c) result }
{
    t.ordered();
    let mut next = Some(c);
    while let Some(d) = next {
        if let Some(index) = t.own_method(d, key, 0) {
            return Some(MemberId { class: d, index });
        }
        next = parent_of(t, d);
    }
    None
}
