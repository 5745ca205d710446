//! Threads that are put together from plain lists of them.

ghost use Rattle.std.specs.Prelude.{◌≡◌, ◌+◌, ◌<◌, ◌≤◌, ◌++◌, ◌∷◌, [], List, length, map, IfOk, OnOk, vec_capacity, vec_len, Some, set, slice_get};
ghost use Rattle.std.specs.List.Sorted.{IsPermutation, IsNonDecreasingBy};
ghost use Rattle.thread_stacks.specs.declared.entries.ThreadEntry.{ThreadEntry as AnEntry};
ghost use Rattle.thread_stacks.specs.LiveStacks.{ArePut, IsPut, MayPut, entry_without, placed_key, placed_at, placed_parts, slot_placed};
ghost use Rattle.thread_stacks.specs.Places.{AreRisingBy};
ghost use Rattle.thread_stacks.specs.Stacks.{IsEntered, slot_key, thread_key};

use crate::entries::{ThreadEntry, set_top};
use crate::parts::{SegmentPart, ThreadPart};
use crate::slots::{Link, Slot, relink};
use crate::threads::set_newest;
use jk_model::{OutOfMemory, SegmentNo, ThreadNo};
use std::alloc::Global;

/// A segment, and the number of its thread.
#[derive(Clone, Copy)]
pub(crate) struct PlacedPart {
    pub(crate) thread: u32,
    pub(crate) segment: SegmentPart,
}

/// The segments of these threads, in rising number.
pub(crate) fn placed_in_order(
    alloc: Global,
    parts: &[ThreadPart],
) -> Result<Vec<PlacedPart>, OutOfMemory>
    ensures same { IfOk result (λ placed. IsPermutation (placed_parts parts.now) placed.items) }
    ensures order { IfOk result (λ placed. IsNonDecreasingBy placed_key placed.items) }
{
    let mut placed = all_placed(alloc, parts)?;
    placed.sort_by_key(|p| p.segment.number.0)?;
    Ok(placed)
}

/// The segments of these threads, thread by thread.
fn all_placed(alloc: Global, parts: &[ThreadPart]) -> Result<Vec<PlacedPart>, OutOfMemory>
    ensures { IfOk result (λ placed. placed.items ≡ placed_parts parts.now) }
{
    let mut placed = Vec::new(alloc);
    for part in parts {
        place_all(&mut placed, part.number.0, part.segments.as_slice())?;
    }
    Ok(placed)
}

/// Puts the segments of the thread of a number behind others.
fn place_all(
    placed: &mut Vec<PlacedPart>,
    thread: u32,
    segments: &[SegmentPart],
) -> Result<(), OutOfMemory>
    ensures { OnOk result (placed.new.items ≡ placed.old.items ++ map (placed_at thread) segments.now) }
{
    for segment in segments {
        placed.push(PlacedPart {
            thread,
            segment: *segment,
        })?;
    }
    Ok(())
}

/// Enters threads that have no segments yet.
pub(crate) fn enter_all(entries: &mut Vec<ThreadEntry>, parts: &[ThreadPart])
    requires { vec_len entries.old + length parts.now ≤ vec_capacity entries.old }
    ensures entered { entries.new.items ≡ entries.old.items ++ map entry_without parts.now }
    ensures capacity { vec_capacity entries.new ≡ vec_capacity entries.old }
{
    for part in parts {
        entries.push_reserved(ThreadEntry {
            number: part.number.0,
            domain: part.domain,
            top: None,
        });
    }
}

/// Puts a segment, whose number is above all others, on top of its thread.
pub(crate) fn put(
    entries: &mut Vec<ThreadEntry>,
    slots: &mut Vec<Slot>,
    newest: &mut Vec<Option<SegmentNo>>,
    placed: &PlacedPart,
)
    requires threads { AreRisingBy thread_key entries.old.items }
    requires segments { AreRisingBy slot_key slots.old.items }
    requires entered { IsEntered entries.old.items placed.now.thread }
    requires domain { placed.now.segment.domain.0 < length newest.old.items }
    requires room { vec_len slots.old < vec_capacity slots.old }
    ensures put { IsPut entries.old.items entries.new.items slots.old.items slots.new.items newest.old.items newest.new.items placed.now }
    ensures entries_room { vec_capacity entries.new ≡ vec_capacity entries.old }
    ensures slots_room { vec_capacity slots.new ≡ vec_capacity slots.old }
{
    let n = placed.segment.number;
    let entry = set_top(entries, ThreadNo(placed.thread), Some(n));
    let older = set_newest(newest, placed.segment.domain, Some(n));
    relink(slots, entry.top, Link::Above, Some(n));
    relink(slots, older, Link::Newer, Some(n));
    slots.push_reserved(placed_slot(placed, entry.top, older));
}

/// A segment on top of another, or as the lowest. It is the newest of its domain.
fn placed_slot(placed: &PlacedPart, below: Option<SegmentNo>, older: Option<SegmentNo>) -> Slot
    ensures { result ≡ slot_placed placed.now below older }
{
    let segment = &placed.segment;
    Slot {
        number: segment.number.0,
        thread: placed.thread,
        domain: segment.domain,
        suspended: segment.suspended,
        stop: segment.stop,
        revoked: segment.revoked,
        orphan: segment.orphan,
        below,
        above: None,
        older,
        newer: None,
        live: true,
    }
}

/// Puts segments, which rise by number, on top of their threads.
pub(crate) fn put_all(
    entries: &mut Vec<ThreadEntry>,
    slots: &mut Vec<Slot>,
    newest: &mut Vec<Option<SegmentNo>>,
    placed: &[PlacedPart],
)
    requires may { MayPut entries.old.items slots.old.items newest.old.items placed.now }
    requires room { length placed.now ≤ vec_capacity slots.old }
    ensures put { ArePut entries.old.items entries.new.items slots.new.items newest.old.items newest.new.items placed.now }
    ensures entries_room { vec_capacity entries.new ≡ vec_capacity entries.old }
    ensures slots_room { vec_capacity slots.new ≡ vec_capacity slots.old }
{
    for part in placed {
        put(entries, slots, newest, part);
    }
}
