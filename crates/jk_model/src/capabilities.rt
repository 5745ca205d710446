//! What is known of a capability.

use crate::identifiers::DomainId;

/// Whose a capability is, what it leads to, and whether it still does.
#[derive(Clone, Copy, Debug, PartialEq, Eq)]
pub struct CapStatus {
    pub owner: DomainId,
    /// The name of an object in the owner's heap.
    pub target: u32,
    pub revoked: bool,
}
