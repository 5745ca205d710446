//! Segments in slots, in the order in which they were pushed. A slot whose segment is gone stays as a mark for some time.

ghost use Rattle.std.specs.Prelude.{◌≡◌, ◌*◌, ◌≤◌, filter, find, length, map, None, Some, if◌then◌else◌, vec_capacity};
ghost use Rattle.thread_stacks.specs.Places.{AreRisingBy, IsPlaceOf, has_key};
ghost use Rattle.thread_stacks.specs.StackChanges.{Flags, IsClosedUp, IsMarked, IsTakenOff, if_hit, slot_flagged, slot_linked, slot_new, warned};
ghost use Rattle.thread_stacks.specs.Stacks.{IsSlotted, is_live, slot_info, slot_key};

use crate::segments::{Flag, SegmentInfo};
use jk_model::{DomainId, SegmentNo, ThreadNo};

/// A segment.
#[derive(Clone, Copy)]
pub(crate) struct Slot {
    pub(crate) number: u64,
    /// The number of its thread.
    pub(crate) thread: u32,
    pub(crate) domain: DomainId,
    pub(crate) suspended: bool,
    pub(crate) stop: bool,
    pub(crate) revoked: bool,
    pub(crate) orphan: bool,
    /// The segment directly below it in its thread; none below a lowest one.
    pub(crate) below: Option<SegmentNo>,
    /// The segment directly above it in its thread; none above a top one.
    pub(crate) above: Option<SegmentNo>,
    /// The segment of its domain that was pushed directly before it, of those that are there; none before the oldest.
    pub(crate) older: Option<SegmentNo>,
    /// The segment of its domain that was pushed directly after it, of those that are there; none after the newest.
    pub(crate) newer: Option<SegmentNo>,
    /// False where it is gone, and stays as a mark for some time.
    pub(crate) live: bool,
}

/// Which of its neighbours a slot names.
#[derive(Clone, Copy)]
pub(crate) enum Link {
    Below,
    Above,
    Older,
    Newer,
}

/// A segment of a live thread, without flags, on top of another, or as the lowest. It is the newest of its domain.
pub(crate) fn new_slot(
    number: u64,
    t: ThreadNo,
    d: DomainId,
    below: Option<SegmentNo>,
    older: Option<SegmentNo>,
) -> Slot
    ensures { result ≡ slot_new number t.0 d below older }
{
    Slot {
        number,
        thread: t.0,
        domain: d,
        suspended: false,
        stop: false,
        revoked: false,
        orphan: false,
        below,
        above: None,
        older,
        newer: None,
        live: true,
    }
}

/// Where a segment stands, a marked one too; none where it isn't there. The last two, which a thread that runs mostly put on top, are found
/// at once.
pub(crate) fn place_of_segment(slots: &[Slot], s: SegmentNo) -> Option<usize>
    requires { AreRisingBy slot_key slots.now }
    ensures { IsPlaceOf (has_key slot_key s.0) slots.now result }
{
    let count = slots.len();
    if count > 0 {
        let last = count - 1;
        if slots[last].number == s.0 {
            return Some(last);
        }
    }
    if count > 1 {
        let below = count - 2;
        if slots[below].number == s.0 {
            return Some(below);
        }
    }
    slots.binary_search_by(|slot| slot.number.cmp(&s.0)).ok()
}

/// A segment's slot, a marked one too; none where it isn't there.
pub(crate) fn slot_of(slots: &[Slot], s: SegmentNo) -> Option<Slot>
    requires { AreRisingBy slot_key slots.now }
    ensures { result ≡ find (has_key slot_key s.0) slots.now }
{
    match place_of_segment(slots, s) {
        Some(place) => Some(slots[place]),
        None => None,
    }
}

/// What is known of a slot's segment; nothing where it is gone.
pub(crate) fn info_of(slot: &Slot) -> Option<SegmentInfo>
    ensures { result ≡ if slot.now.live then Some (slot_info slot.now) else None }
{
    if !slot.live {
        return None;
    }
    Some(SegmentInfo {
        thread: ThreadNo(slot.thread),
        domain: slot.domain,
        suspended: slot.suspended,
        stop: slot.stop,
        revoked: slot.revoked,
        orphan: slot.orphan,
    })
}

/// The segment below that of a slot; none where it is gone.
pub(crate) fn below_of(slot: &Slot) -> Option<SegmentNo>
    ensures { result ≡ if slot.now.live then slot.now.below else None }
{
    if slot.live { slot.below } else { None }
}

/// Marks the slot of a segment, lets its neighbours name one another, and answers it as it was.
#[inline(always)]
pub(crate) fn take_off(slots: &mut Vec<Slot>, s: SegmentNo) -> Slot
    requires order { AreRisingBy slot_key slots.old.items }
    requires there { IsSlotted slots.old.items s.0 }
    ensures taken { IsTakenOff slots.old.items slots.new.items s.0 result }
    ensures capacity { vec_capacity slots.new ≡ vec_capacity slots.old }
{
    let was = mark(slots, s);
    relink(slots, was.below, Link::Above, was.above);
    relink(slots, was.above, Link::Below, was.below);
    relink(slots, was.older, Link::Newer, was.newer);
    relink(slots, was.newer, Link::Older, was.older);
    was
}

/// Marks the slot of a segment, and answers it as it was.
fn mark(slots: &mut Vec<Slot>, s: SegmentNo) -> Slot
    requires order { AreRisingBy slot_key slots.old.items }
    requires there { IsSlotted slots.old.items s.0 }
    ensures marked { IsMarked slots.old.items slots.new.items s.0 result }
    ensures capacity { vec_capacity slots.new ≡ vec_capacity slots.old }
{
    let place = match place_of_segment(slots.as_slice(), s) {
        Some(place) => place,
        None => unreachable!(),
    };
    let slot = &mut slots[place];
    let was = *slot;
    slot.live = false;
    was
}

/// Lets a slot name another segment. Nothing changes where there is no such slot.
pub(crate) fn relink(
    slots: &mut Vec<Slot>,
    at: Option<SegmentNo>,
    link: Link,
    to: Option<SegmentNo>,
)
    requires { AreRisingBy slot_key slots.old.items }
    ensures linked { slots.new.items ≡ map (if_hit at (slot_linked link to)) slots.old.items }
    ensures capacity { vec_capacity slots.new ≡ vec_capacity slots.old }
{
    let s = match at {
        Some(s) => s,
        None => return,
    };
    let place = match place_of_segment(slots.as_slice(), s) {
        Some(place) => place,
        None => return,
    };
    slots[place] = with_link(slots[place], link, to);
}

/// A slot that names another segment.
fn with_link(slot: Slot, link: Link, to: Option<SegmentNo>) -> Slot
    ensures { result ≡ slot_linked link to slot }
{
    let mut changed = slot;
    match link {
        Link::Below => changed.below = to,
        Link::Above => changed.above = to,
        Link::Older => changed.older = to,
        Link::Newer => changed.newer = to,
    }
    changed
}

/// Sets or clears a flag of a segment. Nothing changes where it has no slot.
pub(crate) fn set_flag_among(slots: &mut Vec<Slot>, s: SegmentNo, flag: Flag, on: bool)
    requires { AreRisingBy slot_key slots.old.items }
    ensures flagged { Flags slots.old.items slots.new.items s.0 flag on }
    ensures capacity { vec_capacity slots.new ≡ vec_capacity slots.old }
{
    let place = match place_of_segment(slots.as_slice(), s) {
        Some(place) => place,
        None => return,
    };
    slots[place] = with_flag(slots[place], flag, on);
}

/// Tells the neighbours of a segment that was taken out: the one above is an orphan now, or, where there is none, a RevokedException is
/// pending in the one below.
pub(crate) fn warn_neighbours(slots: &mut Vec<Slot>, was: Slot)
    requires { AreRisingBy slot_key slots.old.items }
    ensures warned { slots.new.items ≡ map (warned was) slots.old.items }
    ensures capacity { vec_capacity slots.new ≡ vec_capacity slots.old }
{
    if let Some(above) = was.above {
        set_flag_among(slots, above, Flag::Orphan, true);
        return;
    }
    if let Some(below) = was.below {
        set_flag_among(slots, below, Flag::Revoked, true);
    }
}

/// A slot whose segment has a flag set or cleared.
fn with_flag(slot: Slot, flag: Flag, on: bool) -> Slot
    ensures { result ≡ slot_flagged flag on slot }
{
    let mut changed = slot;
    match flag {
        Flag::Suspended => changed.suspended = on,
        Flag::Stop => changed.stop = on,
        Flag::Revoked => changed.revoked = on,
        Flag::Orphan => changed.orphan = on,
    }
    changed
}

/// Drops the marks where they are more than the live segments, and one mark alone that stands last: so segments that go before all that were
/// there before them leave no mark.
pub(crate) fn close_up_slots(slots: &mut Vec<Slot>, live: usize)
    requires { live ≡ length (filter is_live slots.old.items) }
    ensures closed { IsClosedUp is_live slots.old.items slots.new.items live }
    ensures capacity { vec_capacity slots.new ≡ vec_capacity slots.old }
{
    if slots.len() == live + 1 {
        if !slots[live].live {
            let _mark = slots.pop();
            return;
        }
    }
    if slots.len() > 2 * live {
        slots.retain(|slot| slot.live);
    }
}
