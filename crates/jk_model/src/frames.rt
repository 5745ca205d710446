//! What a frame has beside its locals and its operand stack.

use crate::identifiers::{ClassId, MemberId};

/// The head of a frame.
#[derive(Clone, Copy, Debug, PartialEq, Eq)]
pub struct FrameHead {
    /// The method that it runs; none for an initialiser frame without code.
    pub method: Option<MemberId>,
    /// The index of the instruction at which it stands; in a call, that of the call until it returns.
    pub at: u32,
    /// The class that must be initialised before it goes on.
    pub need: Option<ClassId>,
    /// The class that it initialises.
    pub initialises: Option<ClassId>,
    /// How many locals it has, of which a long takes two; 0 in an initialiser frame without code.
    pub max_locals: u16,
    /// How deep its operand stack may be, as its method says; 0 likewise.
    pub max_stack: u16,
}
