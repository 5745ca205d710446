//! Live threads, each a stack of segments, in memory that is taken beforehand. Which frames a segment has is told elsewhere.
#![tactic(auto)]

mod endings;
mod entries;
mod parts;
mod restoring;
mod segments;
mod slots;
mod threads;

pub use parts::{SegmentPart, ThreadPart};
pub use segments::{Flag, SegmentInfo, TakenOut};
pub use threads::Threads;
