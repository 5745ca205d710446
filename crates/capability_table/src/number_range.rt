//! The numbers that one domain may give its capabilities, and the capabilities that it created.

ghost use Rattle.std.specs.Prelude.{◌≡◌, ℕ, ◌+◌, ◌-◌, ◌≤◌, [], map, option_map, MatchOption, IfOk};
ghost use Rattle.jk_model.specs.Capabilities.{last_number, next_in, status_in, with_creation, revoked_creation, revoked_at};

use crate::capability::Capability;
use jk_model::{CapId, CapStatus, DomainId, OutOfMemory};
use std::alloc::Global;
use std::marker::Model;

/// A domain's range of numbers. The memory for all of its capabilities is taken when it is made.
#[derive(Drop)]
pub(crate) struct NumberRange {
    owner: DomainId,
    /// Its first number, and how many it has.
    first: u32,
    count: u32,
    /// The capabilities by their numbers: the first has the first number of the range.
    made: Vec<Capability>,
}

impl Model for NumberRange {
    ghost use Rattle.std.specs.Prelude.{◌+◌, ◌≤◌, length, vec_capacity};
    ghost use Rattle.jk_model.specs.Capabilities.{Range, last_number};

    ghost Value = { Range };

    ghost view = { λ r. record { owner = r.owner; first = r.first; count = r.count; made = r.made.items } };

    ghost invariant = { λ r. (r.first + r.count ≤ 1 + last_number) × (length r.made.items ≤ r.count) × (r.count ≤ vec_capacity r.made) };
}

impl NumberRange {
    /// A range in which no number was given out yet.
    pub(crate) fn new(
        alloc: Global,
        owner: DomainId,
        first: u32,
        count: u32,
    ) -> Result<NumberRange, OutOfMemory>
        requires { first + count ≤ 1 + last_number }
        ensures { IfOk result (λ r. r ≡ record { owner = owner; first = first; count = count; made = [] }) }
    {
        Ok(NumberRange {
            owner,
            first,
            count,
            made: Vec::with_capacity(alloc, count as usize)?,
        })
    }

    /// Creates the capability with the next number, where there is one left.
    pub(crate) fn create(&mut self, target: u32) -> Option<CapId>
        ensures number { result ≡ option_map (λ n. record { 0 = n }) (next_in self.old) }
        ensures range { MatchOption result (self.new ≡ self.old) (λ _. self.new ≡ with_creation target self.old) }
    {
        let made = self.made.len() as u32;
        if made == self.count {
            return None;
        }
        self.made.push_reserved(Capability::new(target));
        Some(CapId(self.first + made))
    }

    /// What is known of the capability with this number, where it was given out.
    pub(crate) fn status(&self, k: CapId) -> Option<CapStatus>
        requires { self.now.first ≤ k.0 }
        ensures { result ≡ status_in k.0 self.now }
    {
        let capability = self.made.get((k.0 - self.first) as usize)?;
        Some(capability.status(self.owner))
    }

    /// Revokes the capability with this number, where it was given out.
    pub(crate) fn revoke(&mut self, k: CapId)
        requires { self.old.first ≤ k.0 }
        ensures { self.new ≡ record self.old { made = revoked_at self.old.made (k.0 - self.old.first) } }
    {
        let place = (k.0 - self.first) as usize;
        if place < self.made.len() {
            self.made[place].revoke();
        }
    }

    /// Revokes all capabilities of the range.
    pub(crate) fn revoke_all(&mut self)
        ensures { self.new ≡ record self.old { made = map revoked_creation self.old.made } }
    {
        for capability in self.made.iter_mut() {
            capability.revoke();
        }
    }
}
