//! One capability, as its owner's range keeps it.

ghost use Rattle.std.specs.Prelude.{◌≡◌, false};
ghost use Rattle.jk_model.specs.Capabilities.{creation_status, revoked_creation};

use jk_model::{CapStatus, DomainId};
use std::marker::Model;

/// What a capability leads to, and whether it no longer does.
#[derive(Drop)]
pub(crate) struct Capability {
    /// The name of an object in the owner's heap.
    target: u32,
    revoked: bool,
}

impl Model for Capability {
    ghost use Rattle.jk_model.specs.Capabilities.{Creation};

    ghost Value = { Creation };

    ghost view = { λ c. record { target = c.target; revoked = c.revoked } };
}

impl Capability {
    /// A capability that leads to this target.
    pub(crate) fn new(target: u32) -> Capability
        ensures { result ≡ record { target = target; revoked = false } }
    {
        Capability {
            target,
            revoked: false,
        }
    }

    /// What is known of it, where this is its owner.
    pub(crate) fn status(&self, owner: DomainId) -> CapStatus
        ensures { result ≡ creation_status owner self.now }
    {
        CapStatus {
            owner,
            target: self.target,
            revoked: self.revoked,
        }
    }

    /// Lets it lead to nothing from now on.
    pub(crate) fn revoke(&mut self)
        ensures { self.new ≡ revoked_creation self.old }
    {
        self.revoked = true;
    }
}
