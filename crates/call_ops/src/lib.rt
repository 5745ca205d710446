//! What the instructions of call do: which method they run, and its frame on top of the caller's, in whatever stores objects and frames
//! stand. Methods of the system and calls through capabilities are handed on.
#![tactic(auto)]

mod running;
mod steps;
mod targets;

pub use running::call_head;
pub use steps::{Crossing, crossing_at, step};
