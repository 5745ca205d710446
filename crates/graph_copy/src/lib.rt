//! Copies of graphs of objects from one heap to another, or to the same. What is reached from the given values through fields and
//! items is copied, each object once, and the values are replaced by their copies; capabilities pass as themselves, and transient
//! fields are left empty. No memory is taken: the objects on the way are linked through their marks, all of which are 0 before and
//! after a call.
#![tactic(auto)]

mod answers;
mod copying;
mod discovery;
mod filling;
mod judge;
mod kinds;
mod laying;
mod marks;
mod meeting;
mod places;

pub use answers::CopyAnswer;
pub use copying::{copy, would_copy};
