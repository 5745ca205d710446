//! The live threads as plain lists.

ghost use Rattle.std.specs.Prelude.{◌≡◌, IfOk, map};
ghost use Rattle.thread_stacks.specs.Places.{AreRisingBy};
ghost use Rattle.thread_stacks.specs.StackParts.{segment_part, thread_part};
ghost use Rattle.thread_stacks.specs.Stacks.{NameBelows, NameTops, segment_of, slot_key, stack_of, threads_of, top_on};

use crate::entries::ThreadEntry;
use crate::slots::{Slot, slot_of};
use jk_model::{DomainId, List, OutOfMemory, SegmentNo, ThreadNo};
use std::alloc::Global;

/// A live thread.
#[derive(Drop)]
pub struct ThreadPart {
    pub number: ThreadNo,
    /// The domain in which it was started.
    pub domain: DomainId,
    /// Lowest first.
    pub segments: List<SegmentPart>,
}

/// A segment, without its frames.
#[derive(Clone, Copy)]
pub struct SegmentPart {
    pub number: SegmentNo,
    pub domain: DomainId,
    pub suspended: bool,
    pub stop: bool,
    pub revoked: bool,
    pub orphan: bool,
}

/// The live threads in rising number, and their segments lowest first. It takes a logarithm for each segment.
pub(crate) fn all_parts(
    alloc: Global,
    entries: &[ThreadEntry],
    slots: &[Slot],
) -> Result<List<ThreadPart>, OutOfMemory>
    requires segments { AreRisingBy slot_key slots.now }
    requires belows { NameBelows slots.now }
    requires tops { NameTops slots.now entries.now }
    ensures { IfOk result (λ parts. parts ≡ map thread_part (threads_of slots.now entries.now)) }
{
    let mut parts = List::new(alloc);
    for entry in entries {
        if entry.top.is_some() {
            parts.push(ThreadPart {
                number: ThreadNo(entry.number),
                domain: entry.domain,
                segments: stack_parts(alloc, slots, *entry)?,
            })?;
        }
    }
    Ok(parts)
}

/// The segments of a thread, lowest first.
fn stack_parts(
    alloc: Global,
    slots: &[Slot],
    entry: ThreadEntry,
) -> Result<List<SegmentPart>, OutOfMemory>
    requires segments { AreRisingBy slot_key slots.now }
    requires belows { NameBelows slots.now }
    requires top { entry.top ≡ top_on entry.number slots.now }
    ensures { IfOk result (λ parts. parts ≡ map segment_part (stack_of entry.number slots.now)) }
{
    let mut parts = Vec::new(alloc);
    let mut next = entry.top;
    while let Some(s) = next {
        let slot = match slot_of(slots, s) {
            Some(slot) => slot,
            None => unreachable!(),
        };
        parts.push(part_of(&slot))?;
        next = slot.below;
    }
    parts.reverse();
    let listed = List::from_slice(alloc, parts.as_slice())?;
    Ok(listed)
}

/// A slot's segment.
fn part_of(slot: &Slot) -> SegmentPart
    ensures { result ≡ segment_part (segment_of slot.now) }
{
    SegmentPart {
        number: SegmentNo(slot.number),
        domain: slot.domain,
        suspended: slot.suspended,
        stop: slot.stop,
        revoked: slot.revoked,
        orphan: slot.orphan,
    }
}
