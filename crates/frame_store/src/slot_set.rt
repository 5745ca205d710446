//! The slots of a domain's segments. A slot is taken and given back in constant time, and the live ones are gone through in
//! time in proportion to their number: `order` has each slot once, the live ones first, and each slot has its place there.

ghost use Rattle.std.specs.Prelude.{◌≡◌, ◌<◌, ◌≤◌, ◌^◌, length, IfOk};
ghost use Rattle.frame_store.specs.Slots.{IsSlotSet, AreSlots, AreInOrder};

use jk_model::OutOfMemory;
use std::alloc::Global;

/// A slot: the number of its segment, while it is live, and its place in the order.
#[derive(Clone, Copy)]
pub(crate) struct Slot {
    pub(crate) number: u64,
    pub(crate) place: u32,
}

/// So many slots, and how many of them are live.
#[derive(Drop)]
pub(crate) struct SlotSet {
    pub(crate) slots: Vec<Slot>,
    pub(crate) order: Vec<u32>,
    pub(crate) live: u32,
    ghost small: { length slots.items < 2 ^ 32 },
    ghost ok: { IsSlotSet slots.items order.items live },
}

impl SlotSet {
    ghost use Rattle.std.specs.Prelude.{◌≡◌, ◌<◌, ◌≤◌, ◌^◌, length, IfOk};
    ghost use Rattle.frame_store.specs.SlotMoves.{size, number_of, slot_in_order, IsLive, TakesSlot, GivesSlot};

    /// So many slots, none of them live.
    pub(crate) fn new(alloc: Global, count: u32) -> Result<SlotSet, OutOfMemory>
        ensures size { IfOk result (λ s. size s ≡ count) }
        ensures none { IfOk result (λ s. s.live ≡ 0) }
    {
        let slots = vacant_slots(alloc, count)?;
        let order = in_order(alloc, count)?;
        Ok(SlotSet {
            slots,
            order,
            live: 0,
        })
    }

    /// Takes a slot that isn't live for a segment.
    pub(crate) fn take(&mut self, number: u64) -> u32
        requires { self.old.live < size self.old }
        ensures { TakesSlot self.old self.new number result }
    {
        let slot = self.order[self.live as usize];
        self.slots[slot as usize].number = number;
        self.live += 1;
        slot
    }

    /// Gives a live slot back.
    pub(crate) fn give(&mut self, slot: u32)
        requires { IsLive self.old slot }
        ensures { GivesSlot self.old self.new slot }
    {
        let place = self.slots[slot as usize].place;
        let last = self.live - 1;
        let other = self.order[last as usize];
        self.order[place as usize] = other;
        self.order[last as usize] = slot;
        self.slots[other as usize].place = place;
        self.slots[slot as usize].place = last;
        self.live = last;
    }

    /// The number of the segment of a live slot, by the slot's place in the order.
    pub(crate) fn number_at(&self, place: u32) -> u64
        requires { place < self.now.live }
        ensures { result ≡ number_of self.now (slot_in_order self.now place) }
    {
        self.slots[self.order[place as usize] as usize].number
    }
}

/// So many slots, each at the place of its own number.
fn vacant_slots(alloc: Global, count: u32) -> Result<Vec<Slot>, OutOfMemory>
    ensures { IfOk result (λ v. AreSlots v.items count) }
{
    let mut slots = Vec::with_capacity(alloc, count as usize)?;
    for place in 0..count {
        slots.push_reserved(Slot { number: 0, place });
    }
    Ok(slots)
}

/// The numbers below this one.
fn in_order(alloc: Global, count: u32) -> Result<Vec<u32>, OutOfMemory>
    ensures { IfOk result (λ v. AreInOrder v.items count) }
{
    let mut order = Vec::with_capacity(alloc, count as usize)?;
    for slot in 0..count {
        order.push_reserved(slot);
    }
    Ok(order)
}
