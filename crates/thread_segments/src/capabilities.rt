//! The capabilities, each with the class that its target had when it was created.

ghost use Rattle.std.specs.Prelude.{◌≡◌, ℕ, ◌+◌, ◌-◌, ◌<◌, ◌≤◌, ◌==◌, ◌++◌, ◌∷◌, [], None, Some, IsSome, Err, IfOk, OnOk, OnErr, find, flat_map, length, map, option_map, replicate, vec_len, vec_capacity};
ghost use Rattle.jk_model.specs.Capabilities.{last_number};
ghost use Rattle.jk_model_heaps.specs.Capabilities.{CapRange, IsGivenOut, OwnedCapability, capability_numbered};
ghost use Rattle.jk_model_sharing.specs.CapabilityCalls.{LacksNumbers, count_numbers, first_range, status_of};
ghost use Rattle.thread_segments.specs.StateParts.{cap_parts, owned_part, part_at};
ghost use Rattle.thread_segments.specs.ClassedRanges.{CreatesIn, all_revoked_in, no_class, revoked_in};

use crate::parts::CapPart;
use capability_table::{CapabilityTable, CapsError};
use jk_model::{CapId, CapStatus, ClassId, DomainId, List, OutOfMemory, Raise, Standing};
use std::alloc::Global;
use std::marker::Model;

/// All ranges of numbers together have at most so many.
const MOST_NUMBERS: u32 = 16_777_215;

/// The class that stands for a capability that isn't made yet.
const NO_CLASS: ClassId = ClassId(0);

/// The capabilities of all domains, in ranges of numbers.
#[derive(Drop)]
pub(crate) struct Capabilities {
    table: CapabilityTable,
    /// The class of each capability's target by its number, the first being 1.
    classes: Vec<ClassId>,
}

impl Model for Capabilities {
    ghost use Rattle.std.specs.Prelude.{List};
    ghost use Rattle.jk_model_heaps.specs.Capabilities.{CapRange};
    ghost use Rattle.thread_segments.specs.ClassedRanges.{AreClassed, ranges_with};

    ghost Value = { List CapRange };

    ghost view = { λ c. ranges_with c.classes.items c.table };

    ghost invariant = { λ c. AreClassed c.classes.items c.table };
}

impl Capabilities {
    /// No ranges.
    pub(crate) fn new(alloc: Global) -> Capabilities
        ensures { result ≡ [] }
    {
        Capabilities {
            table: CapabilityTable::new(alloc),
            classes: Vec::new(alloc),
        }
    }

    /// How many numbers are in no range yet.
    pub(crate) fn numbers_left(&self) -> u32
        ensures left { result ≡ last_number - count_numbers self.now }
        ensures few { count_numbers self.now ≤ last_number }
    {
        MOST_NUMBERS - self.classes.len() as u32
    }

    /// Gives a domain that has none a range of so many numbers, directly behind the others. It takes all memory for them. After an
    /// error all is as before.
    pub(crate) fn admit(&mut self, owner: DomainId, count: u32) -> Result<(), CapsError>
        requires new { find (λ (r : CapRange). r.owner.0 == owner.0) self.old ≡ None }
        ensures ok { OnOk result (self.new ≡ self.old ++ first_range self.old owner count ∷ []) }
        ensures err { OnErr result (self.new ≡ self.old) }
        ensures numbers { result ≡ Err CapsError.Numbers → LacksNumbers self.old count }
    {
        reserve(&mut self.classes, count)?;
        self.table.admit(owner, count)?;
        fill(&mut self.classes, count);
        Ok(())
    }

    /// Creates a capability of a domain that has a range, at an object of this class. QuotaException is raised exactly where the range
    /// is used up, and then all is as before.
    pub(crate) fn create(
        &mut self,
        owner: DomainId,
        class: ClassId,
        target: u32,
    ) -> Result<CapId, Raise>
        requires { IsSome (find (λ (r : CapRange). r.owner.0 == owner.0) self.old) }
        ensures { (r : CapRange) → find (λ (x : CapRange). x.owner.0 == owner.0) self.old ≡ Some r
            → CreatesIn self.old class target r result self.new }
    {
        match self.table.create(owner, target) {
            Some(k) => {
                self.classes[k.0 as usize - 1] = class;
                Ok(k)
            }
            None => Err(Raise::Standing(Standing::Quota)),
        }
    }

    /// What is known of a capability. None exactly where it wasn't given out.
    pub(crate) fn status(&self, k: CapId) -> Option<CapStatus>
        ensures { result ≡ option_map status_of (capability_numbered self.now k) }
    {
        self.table.status(k)
    }

    /// Revokes a capability that was given out. One that is revoked stays so.
    pub(crate) fn revoke(&mut self, k: CapId)
        requires { IsGivenOut self.old k }
        ensures { self.new ≡ map (revoked_in k) self.old }
    {
        self.table.revoke(k);
    }

    /// Revokes all capabilities of a domain that has a range. Those that are revoked stay so.
    pub(crate) fn revoke_all(&mut self, owner: DomainId)
        requires { IsSome (find (λ (r : CapRange). r.owner.0 == owner.0) self.old) }
        ensures { self.new ≡ map (all_revoked_in owner) self.old }
    {
        self.table.revoke_all(owner);
    }

    /// All that were given out, rising by number.
    pub(crate) fn parts(&self, alloc: Global) -> Result<List<CapPart>, OutOfMemory>
        ensures { IfOk result (λ parts. parts ≡ flat_map cap_parts self.now) }
    {
        let mut parts = List::new(alloc);
        for place in 0..self.classes.len() {
            self.push_part(&mut parts, CapId(place as u32 + 1))?;
        }
        Ok(parts)
    }

    /// Puts a capability behind others, where it was given out.
    fn push_part(&self, parts: &mut List<CapPart>, k: CapId) -> Result<(), OutOfMemory>
        ensures { OnOk result (parts.new ≡ parts.old ++ part_at self.now k.0) }
    {
        if let Some(part) = self.part(k) {
            parts.push(part)?;
        }
        Ok(())
    }

    /// A capability as a part. None exactly where it wasn't given out.
    fn part(&self, k: CapId) -> Option<CapPart>
        ensures { result ≡ option_map (owned_part k) (capability_numbered self.now k) }
    {
        match self.table.status(k) {
            Some(status) => Some(CapPart {
                number: k,
                owner: status.owner,
                target: status.target,
                revoked: status.revoked,
                class: self.classes[k.0 as usize - 1],
            }),
            None => None,
        }
    }

    /// The class that a capability's target had. None exactly where it wasn't given out.
    pub(crate) fn class_of(&self, k: CapId) -> Option<ClassId>
        ensures { result ≡ option_map (λ (c : OwnedCapability). c.capability.class) (capability_numbered self.now k) }
    {
        match self.table.status(k) {
            Some(_) => Some(self.classes[k.0 as usize - 1]),
            None => None,
        }
    }
}

/// Makes room for so many more classes.
fn reserve(classes: &mut Vec<ClassId>, count: u32) -> Result<(), OutOfMemory>
    ensures same { classes.new.items ≡ classes.old.items }
    ensures room { OnOk result (vec_len classes.new + count ≤ vec_capacity classes.new) }
{
    classes.reserve(count as usize)?;
    Ok(())
}

/// Puts so many places for classes behind the others.
fn fill(classes: &mut Vec<ClassId>, count: u32)
    requires { vec_len classes.old + count ≤ vec_capacity classes.old }
    ensures { classes.new.items ≡ classes.old.items ++ replicate count no_class }
{
    for _ in 0..count {
        classes.push_reserved(NO_CLASS);
    }
}
