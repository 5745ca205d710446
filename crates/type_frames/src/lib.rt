//! Types of locals and of entries of the operand stack, as the verifier knows them: which one fits where another is
//! expected, and the least one that two fit, for single types and for whole frames. Nothing here takes memory.
#![tactic(auto)]

mod classes;
mod frames;
mod locals;
mod refs;
mod types;

pub use frames::{FrameRef, raise};
pub use locals::raise_locals;
pub use types::{fits, join, of_class, of_type, value_of};
