//! What objects cost, in words of 32 bits: four, and their payload.
#![tactic(auto)]

ghost use Rattle.std.specs.Prelude.{◌≡◌, ◌≤◌};
ghost use Rattle.jk_model_classes.specs.Layouts.{type_words};
ghost use Rattle.object_store.specs.HeapContents.{HasShapeClasses, shape_words};

use class_table::ClassTable;
use jk_model_classes::{BaseRef, TypeRef};
use jk_model_heaps::Shape;

/// How many words each object takes beside its payload.
pub const HEADER_WORDS: u64 = 4;

/// How many words the number of a segment takes.
const TASK_WORDS: u64 = 2;

/// How many words a field or an element of a type takes: two where it is long, else one.
pub fn element_words(t: &TypeRef) -> u64
    ensures words { result ≡ type_words t.now }
    ensures few { result ≤ 2 }
{
    match t.base {
        BaseRef::Long if t.dims == 0 => 2,
        _ => 1,
    }
}

/// How many words an object costs, in constant time. The class of a Plain is in the table; where its fields take more words than
/// 32 bits tell, the answer is 2^32 - 1, and no heap has so many.
pub fn shape_words(t: &ClassTable, shape: &Shape) -> u64
    requires { HasShapeClasses t.now shape.now }
    ensures { result ≡ shape_words t.now shape.now }
{
    match shape {
        Shape::Plain(c) => match t.cost(*c) {
            Some(words) => u64::from(words),
            None => unreachable!(),
        },
        Shape::Array(element, len) => HEADER_WORDS + element_words(element) * u64::from(*len),
        Shape::Text(len) => HEADER_WORDS + u64::from(*len),
        Shape::Task(_) => HEADER_WORDS + TASK_WORDS,
    }
}
