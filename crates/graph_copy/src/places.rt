//! The places of an object: those of its fields, those of the parents first, of its items or of its units.

ghost use Rattle.std.specs.Prelude.{◌≡◌, ◌^◌, ◌<◌, ◌↔◌, IsTrue, length, Some, slice_get};
ghost use Rattle.jk_model.specs.declared.values.Value.TheVariants as Held;
ghost use Rattle.jk_model_classes.specs.declared.records.FieldRecord.{FieldRecord as AField};
ghost use Rattle.jk_model_classes.specs.Classes.{HasClass};
ghost use Rattle.jk_model_classes.specs.Layouts.{layout_of};
ghost use Rattle.jk_model_domains.specs.OwnStates.{zero_of};
ghost use Rattle.jk_model_graphs.specs.Followed.{is_left_empty};
ghost use Rattle.jk_model_heaps.specs.Heaps.{field_records};
ghost use Rattle.object_store.specs.HeapContents.{HasShapeClasses};
ghost use Rattle.graph_copy.specs.Places.{is_kept_at, place_count, reference_count};

use class_table::{ClassTable, Layout};
use jk_model::{AccessFlags, ClassId, has};
use jk_model_classes::{BaseRef, TypeRef};
use jk_model_heaps::Shape;
use jk_model_heaps::laws::fields_stand_in_one_order;
use member_lookup::field_record;

/// How many places an object has.
pub(crate) fn places(t: &ClassTable, shape: &Shape) -> u32
    requires classes { HasShapeClasses t.now shape.now }
    requires few { place_count t.now shape.now < 2 ^ 32 }
    ensures { result ≡ place_count t.now shape.now }
{
    match shape {
        Shape::Plain(c) => field_count(t, *c),
        Shape::Array(_, len) | Shape::Text(len) => *len,
        Shape::Task(_) => 0,
    }
}

/// How many of an object's places, from the first on, may hold references: all or none.
pub(crate) fn reference_places(t: &ClassTable, shape: &Shape) -> u32
    requires classes { HasShapeClasses t.now shape.now }
    requires few { place_count t.now shape.now < 2 ^ 32 }
    ensures { result ≡ reference_count t.now shape.now }
{
    match shape {
        Shape::Plain(c) => field_count(t, *c),
        Shape::Array(element, len) if is_reference(element) => *len,
        _ => 0,
    }
}

/// Whether a copy keeps what stands at a place: it leaves a transient field empty.
pub(crate) fn is_place_kept(t: &ClassTable, shape: &Shape, i: u32) -> bool
    requires classes { HasShapeClasses t.now shape.now }
    requires place { i < place_count t.now shape.now }
    ensures { result ≡ is_kept_at t.now shape.now i }
{
    match shape {
        Shape::Plain(c) => !is_transient(t, *c, i),
        _ => true,
    }
}

/// Whether the field at a place of a class's objects is transient.
fn is_transient(t: &ClassTable, c: ClassId, i: u32) -> bool
    requires class { HasClass t.now c }
    requires place { i < length (field_records t.now c) }
    ensures { (field : AField) → slice_get (field_records t.now c) i ≡ Some field → result ≡ is_left_empty field }
{
    fields_stand_in_one_order();
    let Some(member) = layout_of(t, c).field(i as usize) else {
        unreachable!();
    };
    match field_record(t, member) {
        Some(field) => has(field.flags, AccessFlags::TRANSIENT),
        None => unreachable!(),
    }
}

/// How many fields an object of a class has.
fn field_count(t: &ClassTable, c: ClassId) -> u32
    requires class { HasClass t.now c }
    requires few { length (field_records t.now c) < 2 ^ 32 }
    ensures { result ≡ length (field_records t.now c) }
{
    fields_stand_in_one_order();
    layout_of(t, c).len() as u32
}

/// What an object of a class of the table is made of.
fn layout_of(t: &ClassTable, c: ClassId) -> Layout<'_>
    requires { HasClass t.now c }
    ensures { result ≡ layout_of t.now c }
{
    match t.layout(c) {
        Some(layout) => layout,
        None => unreachable!(),
    }
}

/// Whether values of a type are references.
fn is_reference(kind: &TypeRef) -> bool
    ensures { IsTrue result ↔ (zero_of kind.now ≡ Held.Null) }
{
    kind.dims > 0 || matches!(kind.base, BaseRef::Class(_))
}
