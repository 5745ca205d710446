//! What is known of a segment, and its flags.

use jk_model::{DomainId, ThreadNo};

/// What is known of a segment beside its frames.
#[derive(Clone, Copy, Debug, PartialEq, Eq)]
pub struct SegmentInfo {
    pub thread: ThreadNo,
    pub domain: DomainId,
    /// It rests while it is on top.
    pub suspended: bool,
    /// ThreadDeath is pending.
    pub stop: bool,
    /// RevokedException is pending.
    pub revoked: bool,
    /// The segment that it stood on is gone, so nobody waits for its answer.
    pub orphan: bool,
}

/// A flag of a segment.
#[derive(Clone, Copy, Debug, PartialEq, Eq)]
pub enum Flag {
    Suspended,
    Stop,
    Revoked,
    Orphan,
}

/// What became of a thread when a segment was taken out of it.
#[derive(Clone, Copy, Debug, PartialEq, Eq)]
pub struct TakenOut {
    /// The domain in which the thread was started, where it ended with its last segment; none where it goes on.
    pub ended: Option<DomainId>,
}
