//! What a local, an entry of an operand stack, a field or an element may hold.

use crate::identifiers::CapId;

/// A value. `Obj` is a name in the heap of the domain that holds it.
#[derive(Clone, Copy, Debug, PartialEq, Eq)]
pub enum Value {
    Int(i32),
    Long(i64),
    Null,
    Obj(u32),
    Cap(CapId),
    /// What a local has before its first store, and after a long.
    Unset,
}
