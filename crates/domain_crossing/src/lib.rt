//! Calls from one domain to another. A call through a capability puts a segment of the capability's owner on top of the thread, whose
//! first frame has copies of the arguments; and what comes back from a segment, a result or a throwable, is copied to the segment
//! below. Nothing here takes memory.
#![tactic(auto)]

mod answers;
mod arguments;
mod callees;
mod entering;
pub mod laws;
mod leaving;
mod passing;
mod raising;
mod taking;

pub use answers::{Crossed, Left};
pub use entering::enter;
pub use leaving::leave;
pub use raising::raise_across;
