//! What domains share, without heaps and frames: in `specs/` the definitions of the repository of names, of how capabilities are created
//! and revoked, of the flags of segments, of quotas of threads and steps, and of what the end of a domain takes away. There is no code
//! here but that of worked examples: functions that do nothing, whose contracts are theorems on the definitions.
#![tactic(auto)]

pub mod examples;
pub mod laws;
