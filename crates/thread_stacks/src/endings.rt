//! Threads that end with a domain: those that have segments of it alone.

ghost use Rattle.std.specs.Prelude.{◌≡◌, ◌<◌, ◌≤◌, Contains, Some, find, length, option_map, slice_get, take, vec_capacity};
ghost use Rattle.std.specs.List.Sorted.{IsNonDecreasing};
ghost use Rattle.thread_stacks.specs.ListedEndings.{AreEndings, AreNewestFirst, EndsAlone, HaveEntries, lowest_of_ending};
ghost use Rattle.thread_stacks.specs.Places.{AreRisingBy, IsPlaceOf, has_key};
ghost use Rattle.thread_stacks.specs.StackAnswers.{IsLeastAbove};
ghost use Rattle.thread_stacks.specs.Stacks.{AreLinked, IsEntryWith, NameBelows, NameTops, owned_by, runs_only_in, slot_key, thread_key, top_on};

use crate::entries::{ThreadEntry, entry_of, first_above};
use crate::slots::{Slot, place_of_segment, slot_of};
use jk_model::{DomainId, SegmentNo, ThreadNo};

/// Lists the threads that have segments of this domain alone, in rising number. It looks at each segment of the domain once, from the newest
/// one down, and once more where the lowest segment of its thread is of the domain too and isn't alone, each time with a search; and it puts
/// the numbers in order.
pub(crate) fn list_endings(
    listed: &mut Vec<u32>,
    entries: &[ThreadEntry],
    slots: &[Slot],
    newest: Option<SegmentNo>,
    d: DomainId,
)
    requires threads { AreRisingBy thread_key entries.now }
    requires segments { AreRisingBy slot_key slots.now }
    requires belows { NameBelows slots.now }
    requires links { AreLinked slots.now entries.now }
    requires homes { HaveEntries slots.now entries.now }
    requires newest { AreNewestFirst slots.now d newest }
    requires room { length (owned_by d.0 slots.now) ≤ vec_capacity listed.old }
    ensures endings { AreEndings entries.now slots.now d listed.new.items }
    ensures capacity { vec_capacity listed.new ≡ vec_capacity listed.old }
{
    listed.clear();
    let mut end = slots.len();
    let mut next = newest;
    while let Some(s) = next {
        let place = match place_before(slots, end, s) {
            Some(place) => place,
            None => unreachable!(),
        };
        let slot = slot_at(slots, place);
        if is_lowest_of_ending(entries, slots, slot, d) {
            listed.push_reserved(slot.thread);
        }
        end = place;
        next = slot.older;
    }
    listed.sort_unstable();
}

/// Where a segment stands before a place, a marked one too; none where it isn't there.
fn place_before(slots: &[Slot], end: usize, s: SegmentNo) -> Option<usize>
    requires segments { AreRisingBy slot_key slots.now }
    requires within { end ≤ length slots.now }
    ensures { IsPlaceOf (has_key slot_key s.0) (take end slots.now) result }
{
    place_of_segment(&slots[..end], s)
}

/// The slot at a place.
fn slot_at(slots: &[Slot], place: usize) -> Slot
    requires { place < length slots.now }
    ensures { slice_get slots.now place ≡ Some result }
{
    slots[place]
}

/// Whether a segment is the lowest of a live thread that has segments of this domain alone.
fn is_lowest_of_ending(entries: &[ThreadEntry], slots: &[Slot], slot: Slot, d: DomainId) -> bool
    requires threads { AreRisingBy thread_key entries.now }
    requires segments { AreRisingBy slot_key slots.now }
    requires belows { NameBelows slots.now }
    requires tops { NameTops slots.now entries.now }
    requires alone { EndsAlone entries.now slots.now d slot }
    ensures { result ≡ lowest_of_ending entries.now slots.now d slot }
{
    if slot.below.is_some() {
        return false;
    }
    if slot.above.is_none() {
        return true;
    }
    match entry_of(entries, ThreadNo(slot.thread)) {
        Some(entry) => has_only(slots, entry, d),
        None => false,
    }
}

/// The first of the listed numbers above another. None exactly where there is none. It takes a logarithm.
pub(crate) fn next_listed(listed: &[u32], above: u32) -> Option<u32>
    requires { IsNonDecreasing listed.now }
    ensures { IsLeastAbove (Contains listed.now) above result }
{
    let start = listed.partition_point(|number| *number <= above);
    number_at(listed, start)
}

/// The number at a place. None exactly where there is none.
fn number_at(numbers: &[u32], place: usize) -> Option<u32>
    ensures { result ≡ slice_get numbers.now place }
{
    numbers.get(place).copied()
}

/// The number of the first live thread above that has segments of this domain alone. None exactly where there is none. It goes over
/// the live threads from there on, over segments of the domain, and over one more of each thread.
pub(crate) fn next_ending(
    entries: &[ThreadEntry],
    slots: &[Slot],
    d: DomainId,
    above: u32,
) -> Option<u32>
    requires threads { AreRisingBy thread_key entries.now }
    requires segments { AreRisingBy slot_key slots.now }
    requires belows { NameBelows slots.now }
    requires tops { NameTops slots.now entries.now }
    ensures { IsLeastAbove (IsEntryWith (runs_only_in slots.now d) entries.now) above result }
{
    let start = first_above(entries, above);
    first_ending(&entries[start..], slots, d)
}

/// The number of the first live thread that has segments of this domain alone.
fn first_ending(entries: &[ThreadEntry], slots: &[Slot], d: DomainId) -> Option<u32>
    requires segments { AreRisingBy slot_key slots.now }
    requires belows { NameBelows slots.now }
    requires tops { NameTops slots.now entries.now }
    ensures { result ≡ option_map thread_key (find (runs_only_in slots.now d) entries.now) }
{
    for entry in entries {
        if has_only(slots, *entry, d) {
            return Some(entry.number);
        }
    }
    None
}

/// Whether a thread is live and has segments of this domain alone. It goes down the stack to the first one of another domain.
fn has_only(slots: &[Slot], entry: ThreadEntry, d: DomainId) -> bool
    requires segments { AreRisingBy slot_key slots.now }
    requires belows { NameBelows slots.now }
    requires top { entry.top ≡ top_on entry.number slots.now }
    ensures { result ≡ runs_only_in slots.now d entry }
{
    let mut next = entry.top;
    while let Some(s) = next {
        let slot = match slot_of(slots, s) {
            Some(slot) => slot,
            None => unreachable!(),
        };
        if slot.domain.0 != d.0 {
            return false;
        }
        next = slot.below;
    }
    entry.top.is_some()
}
