//! Which handler of a method's code catches an object.

ghost use Rattle.std.specs.Prelude.{◌≡◌, ◌↔◌, IsTrue, MatchOption};
ghost use Rattle.jk_model_domains.specs.Objects.{Object as AnObject};
ghost use Rattle.jk_model_heaps.specs.Heaps.{shape_of};
ghost use Rattle.exception_unwind.specs.Handlers.{IsFirstSuited, NoneSuits, Suits};

use class_table::ClassTable;
use instance_tests::{class_type, is_object_a};
use jk_model_classes::Caught;
use jk_model_heaps::Shape;

/// Where the handler begins that catches an object of this shape which is thrown at a place: the first in order that covers the place
/// and whose class the object has. None where there is none.
pub(crate) fn first_handler(
    t: &ClassTable,
    handlers: &[Caught],
    at: u32,
    shape: &Shape,
) -> Option<u32>
    ensures { (object : AnObject) → shape_of object ≡ shape.now
        → MatchOption result (NoneSuits t.now handlers.now at object) (λ n. IsFirstSuited t.now handlers.now at object n) }
{
    for handler in handlers {
        if suits(t, handler, at, shape) {
            return Some(handler.handler);
        }
    }
    None
}

/// Whether a handler covers a place and catches an object of this shape. One without a class catches any.
fn suits(t: &ClassTable, handler: &Caught, at: u32, shape: &Shape) -> bool
    ensures { (object : AnObject) → shape_of object ≡ shape.now → IsTrue result ↔ Suits t.now at object handler.now }
{
    handler.start <= at
        && at < handler.end
        && match handler.class {
            Some(c) => is_object_a(t, shape, &class_type(c)),
            None => true,
        }
}
