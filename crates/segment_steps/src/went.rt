//! What a step of a segment comes to.

use jk_model::{CapId, MemberId, Value};

/// What a step of a segment comes to.
#[derive(Clone, Copy, Debug, PartialEq, Eq)]
pub enum Went {
    /// The segment goes on, with its top frame.
    GoesOn,
    /// No frame is left: the lowest one returned this value, or none.
    Returned(Option<Value>),
    /// No frame is left: this object, by its name in the domain's heap, left the lowest one.
    Left(u32),
    /// A call of a method through a capability, whose arguments still stand on the stack.
    Crosses(CapId, MemberId),
    /// The domain is to be killed.
    Terminates,
}
