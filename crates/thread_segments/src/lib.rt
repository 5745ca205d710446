//! What domains share: their threads with the segments of each, the capabilities with their stubs, the repository of names, and the
//! quotas of each domain. Which frames a segment has is the frame store's matter, and what an object is the heap's. Memory is taken by
//! `Shared::new`, `Shared::from_parts`, `Shared::admit` and `Shared::parts` alone.
#![tactic(auto)]

mod capabilities;
mod domains;
mod endings;
pub mod laws;
mod names;
mod parts;
mod restoring;
mod shared;
mod stub_index;

pub use capability_table::CapsError;
pub use parts::{CapPart, DomainPart, NamePart, SharedParts};
pub use shared::Shared;
pub use thread_stacks::{SegmentInfo, SegmentPart, ThreadPart};
