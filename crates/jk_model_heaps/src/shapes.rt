//! What an object is of, and how long it is.

use jk_model::{ClassId, SegmentNo};
use jk_model_classes::TypeRef;

/// What an object is of, without its values.
#[derive(Clone, Copy, Debug, PartialEq, Eq)]
pub enum Shape {
    /// Of this class, with a value for each of its instance fields, those of the parents first.
    Plain(ClassId),
    /// Of so many elements of this type.
    Array(TypeRef, u32),
    /// A text of so many UTF-16 units.
    Text(u32),
    /// A handle of a segment.
    Task(SegmentNo),
}

/// How the unwinding of a segment ended.
#[derive(Clone, Copy, Debug, PartialEq, Eq)]
pub enum Unwound {
    /// A frame caught the throwable and stands at its handler.
    Caught,
    /// No frame is left; the object that left the lowest one, by its name in the domain's heap.
    Uncaught(u32),
}
