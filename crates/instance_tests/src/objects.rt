//! Which objects are instances of which types.

ghost use Rattle.std.specs.Prelude.{◌≡◌, ◌↔◌, IsTrue};
ghost use Rattle.jk_model_domains.specs.Objects.{Object as AnObject, type_of};
ghost use Rattle.jk_model_heaps.specs.Heaps.{shape_of};
ghost use Rattle.jk_model_heaps.specs.Instances.{IsA};
ghost use Rattle.instance_tests.specs.Tested.{HasFewDims};

use crate::types::{class_type, is_a, is_array_a};
use class_table::ClassTable;
use jk_model_classes::TypeRef;
use jk_model_heaps::Shape;
use jk_model_heaps::system_classes::{STRING, TASK};

/// What an object is of: its class, or an array type, which has one dimension more than its elements. Those have at most 254.
pub fn type_of(shape: &Shape) -> TypeRef
    requires { HasFewDims shape.now }
    ensures { (object : AnObject) → shape_of object ≡ shape.now → result ≡ type_of object }
{
    match shape {
        Shape::Plain(c) => class_type(*c),
        Shape::Array(element, _) => TypeRef {
            dims: element.dims + 1,
            base: element.base,
        },
        Shape::Text(_) => class_type(STRING),
        Shape::Task(_) => class_type(TASK),
    }
}

/// Whether an object of this shape is an instance of a type.
pub fn is_object_a(t: &ClassTable, shape: &Shape, kind: &TypeRef) -> bool
    ensures { (object : AnObject) → shape_of object ≡ shape.now → IsTrue result ↔ IsA t.now (type_of object) kind.now }
{
    match shape {
        Shape::Plain(c) => is_a(t, &class_type(*c), kind),
        Shape::Array(element, _) => is_array_a(t, u32::from(element.dims) + 1, &element.base, kind),
        Shape::Text(_) => is_a(t, &class_type(STRING), kind),
        Shape::Task(_) => is_a(t, &class_type(TASK), kind),
    }
}
