//! The places of objects, and what may stand there.

ghost use Rattle.std.specs.Prelude.{◌≡◌, IsTrue, length};
ghost use Rattle.jk_model_classes.specs.Classes.{HasClass};
ghost use Rattle.jk_model_heaps.specs.Heaps.{field_records};
ghost use Rattle.object_store.specs.HeapContents.{AreOfKind, HasBase, HasShapeClasses, IsReference};
ghost use Rattle.graph_copy.specs.Places.{place_count};
ghost use Rattle.copy_check.specs.ReadyHeaps.{IsUnit};

use class_table::ClassTable;
use jk_model::{ClassId, Value};
use jk_model_classes::BaseRef;
use jk_model_heaps::Shape;
use jk_model_heaps::laws::fields_stand_in_one_order;

/// Whether the class of an object, or of its elements, is there.
pub(crate) fn has_classes(t: &ClassTable, shape: &Shape) -> bool
    ensures { IsTrue result → HasShapeClasses t.now shape.now }
{
    match shape {
        Shape::Plain(c) => has_class(t, *c),
        Shape::Array(element, _) => has_base(t, &element.base),
        _ => true,
    }
}

fn has_base(t: &ClassTable, base: &BaseRef) -> bool
    ensures { IsTrue result → HasBase t.now base.now }
{
    match base {
        BaseRef::Class(c) => has_class(t, *c),
        _ => true,
    }
}

fn has_class(t: &ClassTable, c: ClassId) -> bool
    ensures { IsTrue result → HasClass t.now c }
{
    (c.0 as usize) < t.len()
}

/// How many places an object has.
pub(crate) fn places(t: &ClassTable, shape: &Shape) -> usize
    requires { HasShapeClasses t.now shape.now }
    ensures { result ≡ place_count t.now shape.now }
{
    match shape {
        Shape::Plain(c) => field_count(t, *c),
        Shape::Array(_, len) | Shape::Text(len) => *len as usize,
        Shape::Task(_) => 0,
    }
}

fn field_count(t: &ClassTable, c: ClassId) -> usize
    requires { HasClass t.now c }
    ensures { result ≡ length (field_records t.now c) }
{
    fields_stand_in_one_order();
    match t.layout(c) {
        Some(layout) => layout.len(),
        None => unreachable!(),
    }
}

/// Whether a value is a unit of a text.
pub(crate) fn is_unit(v: Value) -> bool
    ensures { IsTrue result → IsUnit v }
{
    match v {
        Value::Int(u) => 0 <= u && u < 65_536,
        _ => false,
    }
}

/// Whether two values are of one kind.
pub(crate) fn are_of_kind(v: Value, w: Value) -> bool
    ensures { IsTrue result → AreOfKind v w }
{
    match v {
        Value::Int(_) => matches!(w, Value::Int(_)),
        Value::Long(_) => matches!(w, Value::Long(_)),
        _ => is_reference(v) && is_reference(w),
    }
}

fn is_reference(v: Value) -> bool
    ensures { IsTrue result → IsReference v }
{
    matches!(v, Value::Null | Value::Obj(_) | Value::Cap(_))
}
