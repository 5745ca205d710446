//! Stores of frames. A frame has the locals and the operand stack of a method that runs; a segment is a stack of frames that
//! belongs to one domain, which pays for it in chunks. The trait `SegmentFrames` says what the calls on a segment do, and
//! `FrameStore` what a store of all segments does besides; `PlainFrames` is a store that keeps the frames of each domain in
//! vectors of its own. It lends the frames of a segment to an `OnSegment`, whose calls then want no look-up.
#![tactic(auto)]

mod cursor;
mod domain_frames;
mod frame_blocks;
mod one_segment;
mod plain_frames;
mod slot_set;
mod store;

pub use plain_frames::PlainFrames;
pub use store::{FrameStore, OnSegment, SegmentFrames};
