//! The capabilities of all domains.

ghost use Rattle.std.specs.Prelude.{◌≡◌, ◌+◌, ◌^◌, ◌<◌, ◌≤◌, ◌++◌, List, [], ℕ, None, Err, IsSome, OnOk, OnErr, length, replicate, slice_get, option_map, option_and_then, MatchOption, find, nat_eq, vec_len, vec_capacity};
ghost use Rattle.indexmap.specs.IndexSet.{insert_key};
ghost use Rattle.jk_model.specs.Capabilities.{Range, is_owned_by, last_number, numbers, range_of, has_number, status_of, next_number, admitted, created, revoked, revoked_all};
ghost use Rattle.capability_table.specs.Places.{IsOnlyAt};

use crate::number_range::NumberRange;
use indexmap::IndexSet;
use jk_model::{CapId, CapStatus, DomainId, OutOfMemory};
use std::alloc::Global;
use std::marker::Model;
use thiserror::Error;

/// No capability has a number above this.
const LAST_NUMBER: u32 = 16_777_215;

/// Why a domain was given no range of numbers.
#[derive(Clone, Copy, Debug, PartialEq, Eq, Error)]
pub enum CapsError {
    /// Up to 16,777,215 there are fewer numbers left.
    #[error("not so many numbers are left")]
    Numbers,
    /// No memory was left.
    #[error("out of memory")]
    OutOfMemory,
}

impl From<OutOfMemory> for CapsError {
    ghost use Rattle.std.specs.Prelude.{◌≡◌};
    ghost use Rattle.capability_table.specs.declared.table.CapsError.TheVariants as Error;

    ghost from_gives = { λ _ e. e ≡ Error.OutOfMemory };

    fn from(_e: OutOfMemory) -> CapsError {
        CapsError::OutOfMemory
    }
}

/// The capabilities that were given out, in ranges of numbers: each domain has one, and the first
/// begins at 1, each later one directly after the one before it.
#[derive(Drop)]
pub struct CapabilityTable {
    alloc: Global,
    ranges: Vec<NumberRange>,
    /// The owners of the ranges, in the same order.
    owners: IndexSet<u32>,
    /// For each number, from 1 on, the place of its range.
    places: Vec<u32>,
}

impl Model for CapabilityTable {
    ghost use Rattle.std.specs.Prelude.{List};
    ghost use Rattle.jk_model.specs.Capabilities.{Range};
    ghost use Rattle.capability_table.specs.Places.{IsTable};

    ghost Value = { List Range };

    ghost view = { λ t. t.ranges.items };

    ghost invariant = { λ t. IsTable t.owners.keys t.places.items t.ranges.items };
}

impl CapabilityTable {
    /// A table with no ranges.
    pub fn new(alloc: Global) -> CapabilityTable
        ensures { result ≡ [] }
    {
        CapabilityTable {
            alloc,
            ranges: Vec::new(alloc),
            owners: IndexSet::new(alloc),
            places: Vec::new(alloc),
        }
    }

    /// Gives a domain that has none a range of so many numbers: 1 and on for the first domain, and
    /// for each later one those directly after the range before. The memory for all of its
    /// capabilities is taken here, in time in proportion to the numbers. After an error all is as
    /// before.
    pub fn admit(&mut self, owner: DomainId, count: u32) -> Result<(), CapsError>
        requires { range_of self.old owner ≡ None }
        ensures ok { OnOk result (self.new ≡ admitted self.old owner count) }
        ensures as_before { OnErr result (self.new ≡ self.old) }
        ensures numbers { result ≡ Err CapsError.Numbers → last_number < numbers self.old + count }
        ensures only_numbers { last_number < numbers self.old + count → result ≡ Err CapsError.Numbers }
    {
        let used = self.used();
        if count > LAST_NUMBER - used {
            return Err(CapsError::Numbers);
        }
        let place = self.next_place(owner.0);
        let range = NumberRange::new(self.alloc, owner, 1 + used, count)?;
        reserve(&mut self.ranges, &mut self.places, count)?;
        add_owner(&mut self.owners, owner)?;
        self.ranges.push_reserved(range);
        fill(&mut self.places, place, count);
        Ok(())
    }

    /// Creates a capability of a domain that has a range, and answers its number: the next of the
    /// range, or none where that is used up. The range is found by a hash, and no memory is taken.
    pub fn create(&mut self, owner: DomainId, target: u32) -> Option<CapId>
        requires { IsSome (range_of self.old owner) }
        ensures number { result ≡ option_map (λ n. record { 0 = n }) (next_number self.old owner) }
        ensures table { MatchOption result (self.new ≡ self.old) (λ _. self.new ≡ created self.old owner target) }
    {
        let place = self.place_of_owner(owner)?;
        self.ranges[place].create(target)
    }

    /// What is known of a number, or nothing where it was not given out, in constant time.
    pub fn status(&self, k: CapId) -> Option<CapStatus>
        ensures { result ≡ status_of self.now k.0 }
    {
        let place = self.place_of_number(k)?;
        self.ranges[place].status(k)
    }

    /// Revokes a capability. One that is revoked stays so, and its number is never given out again.
    pub fn revoke(&mut self, k: CapId)
        requires { IsSome (status_of self.old k.0) }
        ensures { self.new ≡ revoked self.old k.0 }
    {
        if let Some(place) = self.place_of_number(k) {
            self.ranges[place].revoke(k);
        }
    }

    /// Revokes all that a domain created.
    pub fn revoke_all(&mut self, owner: DomainId)
        requires { IsSome (range_of self.old owner) }
        ensures { self.new ≡ revoked_all self.old owner }
    {
        if let Some(place) = self.place_of_owner(owner) {
            self.ranges[place].revoke_all();
        }
    }

    /// How many numbers the ranges have together.
    fn used(&self) -> u32
        ensures numbers { result ≡ numbers self.now }
        ensures few { result ≤ last_number }
    {
        self.places.len() as u32
    }

    /// The place of the next range, of a domain of this number that has none yet. The owners of the
    /// ranges differ, and are numbers of 32 bits: so the place is one too.
    fn next_place(&self, owner: u32) -> u32
        requires { range_of self.now (record { 0 = owner }) ≡ None }
        ensures place { result ≡ length self.now }
        ensures owner { owner < 2 ^ 32 }
    {
        self.ranges.len() as u32
    }

    /// The place of the range of this domain.
    fn place_of_owner(&self, owner: DomainId) -> Option<usize>
        ensures { MatchOption result (range_of self.now owner ≡ None)
            (λ place. (r : Range) × IsOnlyAt (is_owned_by owner) self.now place r) }
    {
        self.owners.get_index_of(&owner.0)
    }

    /// The place of the range that has this number.
    fn place_of_number(&self, k: CapId) -> Option<usize>
        ensures { MatchOption result (find (has_number k.0) self.now ≡ None)
            (λ place. (r : Range) × IsOnlyAt (has_number k.0) self.now place r) }
    {
        let places = self.places.as_slice();
        if k.0 == 0 {
            return None;
        }
        item_at(places, k.0 - 1)
    }
}

/// The item at an index.
fn item_at(items: &[u32], index: u32) -> Option<usize>
    ensures { result ≡ slice_get items.now index }
{
    let item = items.get(index as usize).copied()?;
    Some(item as usize)
}

/// Makes room for one more range, and for so many numbers.
fn reserve(
    ranges: &mut Vec<NumberRange>,
    places: &mut Vec<u32>,
    count: u32,
) -> Result<(), OutOfMemory>
    ensures ranges { ranges.new.items ≡ ranges.old.items }
    ensures places { places.new.items ≡ places.old.items }
    ensures room_range { OnOk result (vec_len ranges.new < vec_capacity ranges.new) }
    ensures room_places { OnOk result (vec_len places.new + count ≤ vec_capacity places.new) }
{
    ranges.reserve(1)?;
    places.reserve(count as usize)?;
    Ok(())
}

/// Puts an owner after the others.
fn add_owner(owners: &mut IndexSet<u32>, owner: DomainId) -> Result<(), OutOfMemory>
    ensures ok { OnOk result (owners.new.keys ≡ insert_key nat_eq owners.old.keys owner.0) }
    ensures err { OnErr result (owners.new.keys ≡ owners.old.keys) }
{
    owners.insert(owner.0)?;
    Ok(())
}

/// Puts a place after the others for each of so many numbers.
fn fill(places: &mut Vec<u32>, place: u32, count: u32)
    requires { vec_len places.old + count ≤ vec_capacity places.old }
    ensures { places.new.items ≡ places.old.items ++ replicate count place }
{
    for _ in 0..count {
        places.push_reserved(place);
    }
}
