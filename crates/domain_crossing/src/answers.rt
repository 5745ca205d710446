//! How a call through a capability ends, and what becomes of a thread whose top segment is left.

use jk_model::{ClassId, Raise};

/// How a call through a capability ends.
#[derive(Clone, Copy, Debug, PartialEq, Eq)]
pub enum Crossed {
    /// A segment of the owner is on top of the thread.
    Entered,
    /// This is raised in the caller, and nothing else changed.
    Refused(Raise),
}

/// What becomes of a thread whose top segment is left.
#[derive(Clone, Copy, Debug, PartialEq, Eq)]
pub enum Left {
    /// The segment below is on top. It goes on after its call, or has RevokedException pending where an orphan was left.
    Delivered,
    /// The segment below is on top and stands at its call. This is raised there.
    Raised(Raise),
    /// No segment was below: the thread has ended.
    Ended,
    /// No segment was below, and a throwable of this class left the lowest, which was no orphan: the thread has ended by it.
    EndedBy(ClassId),
}
