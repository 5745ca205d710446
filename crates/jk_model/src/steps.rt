//! What one instruction leaves to be done.

use crate::identifiers::{CapId, ClassId, MemberId};
use crate::values::Value;

/// The throwables that stand in a heap from its opening on, and that are raised as they stand.
#[derive(Clone, Copy, Debug, PartialEq, Eq)]
pub enum Standing {
    OutOfMemoryError,
    StackOverflowError,
    Revoked,
    Quota,
    NotCopiable,
    Remote,
    ThreadDeath,
    Security,
}

/// What is raised in the running segment.
#[derive(Clone, Copy, Debug, PartialEq, Eq)]
pub enum Raise {
    /// An object of the running domain's heap, by its name there.
    Object(u32),
    /// A new object of a class, with a null message.
    Fresh(ClassId),
    Standing(Standing),
}

/// What the machine does after an instruction. A place is the index of an instruction in its method.
#[derive(Clone, Copy, Debug, PartialEq, Eq)]
pub enum After {
    /// The top frame goes on at a place. A call of a method with code has popped its arguments and pushed
    /// the new frame with them, and that frame goes on at place 0.
    Goto(u32),
    Raise(Raise),
    /// A call of a system method, whose arguments still stand on the stack.
    Call(MemberId),
    /// A call of a method through a capability, whose arguments still stand on the stack.
    Crossing(CapId, MemberId),
    /// The top frame, which still stands, returns this value or none.
    Return(Option<Value>),
    /// The running domain is killed.
    Terminate,
}
