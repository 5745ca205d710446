//! What the calls ask for, found out before each.

ghost use Rattle.std.specs.Prelude.{◌≡◌, ◌==◌, IfOk, IfSome, IsTrue, filter, length};
ghost use Rattle.jk_model_heaps.specs.Capabilities.{IsGivenOut};
ghost use Rattle.jk_model_sharing.specs.SharedStates.{caps_of};
ghost use Rattle.thread_segments.specs.Asked.{HasRoomForSegment, IsLiveDomain, IsLiveThread, IsNext, IsThere, MayDrawSegment, MayDrawThread};
ghost use Rattle.thread_stacks.specs.declared.parts.SegmentPart.{SegmentPart as ASegment};
ghost use Rattle.thread_check.specs.AskedOfParts.{HasRoomIn, IsLiveIn, count_in};

use jk_model::{CapId, DomainId, SegmentNo, ThreadNo};
use std::test::Fail;
use thread_segments::{SegmentPart, Shared, SharedParts, ThreadPart};

/// Fails unless a domain is the next one.
pub(crate) fn expect_next(shared: &Shared, d: DomainId) -> Result<(), Fail>
    ensures { IfOk result (λ _. IsNext shared.now d) }
{
    let parts = shared.parts()?;
    if parts.domains.len() != d.0 as usize {
        return Err(Fail::from("another domain is the next"));
    }
    Ok(())
}

/// Fails unless a domain lives.
pub(crate) fn expect_live(shared: &Shared, d: DomainId) -> Result<(), Fail>
    ensures { IfOk result (λ _. IsLiveDomain shared.now d) }
{
    let parts = shared.parts()?;
    shared.is_sound();
    if !is_live(&parts, d) {
        return Err(Fail::from("the domain doesn't live"));
    }
    Ok(())
}

/// Fails unless a domain lives and has room for a segment, and the next numbers may be drawn.
pub(crate) fn expect_room(shared: &Shared, d: DomainId) -> Result<(), Fail>
    ensures live { IfOk result (λ _. IsLiveDomain shared.now d) }
    ensures room { IfOk result (λ _. HasRoomForSegment shared.now d) }
    ensures thread { IfOk result (λ _. MayDrawThread shared.now) }
    ensures segment { IfOk result (λ _. MayDrawSegment shared.now) }
{
    let parts = shared.parts()?;
    shared.is_sound();
    if !has_room(&parts, d) {
        return Err(Fail::from("there is no room"));
    }
    Ok(())
}

/// Fails unless a thread lives.
pub(crate) fn expect_thread(shared: &Shared, t: ThreadNo) -> Result<(), Fail>
    ensures { IfOk result (λ _. IsLiveThread shared.now t) }
{
    let Some(_top) = shared.top(t) else {
        return Err(Fail::from("the thread doesn't live"));
    };
    Ok(())
}

/// Fails unless a segment is there.
pub(crate) fn expect_segment(shared: &Shared, s: SegmentNo) -> Result<(), Fail>
    ensures { IfOk result (λ _. IsThere shared.now s) }
{
    let Some(_info) = shared.segment(s) else {
        return Err(Fail::from("the segment isn't there"));
    };
    Ok(())
}

/// Fails unless a capability was given out.
pub(crate) fn expect_given(shared: &Shared, k: CapId) -> Result<(), Fail>
    ensures { IfOk result (λ _. IsGivenOut (caps_of shared.now) k) }
{
    let Some(_status) = shared.status(k) else {
        return Err(Fail::from("the capability wasn't given out"));
    };
    Ok(())
}

fn is_live(parts: &SharedParts, d: DomainId) -> bool
    ensures { IsTrue result → IsLiveIn parts.now d }
{
    match parts.domains.get(d.0 as usize) {
        Some(entry) => entry.live,
        None => false,
    }
}

/// Whether a domain lives and has fewer segments than chunks, and few numbers were drawn.
fn has_room(parts: &SharedParts, d: DomainId) -> bool
    ensures { IsTrue result → HasRoomIn parts.now d }
{
    let Some(entry) = parts.domains.get(d.0 as usize) else {
        return false;
    };
    let Some(count) = counted_in(parts.threads.as_slice(), d) else {
        return false;
    };
    entry.live
        && count < entry.quotas.chunks as usize
        && parts.next_thread < 1000
        && parts.next_segment < 1000
}

/// How many segments a domain has in these threads; none where they are too many to count.
fn counted_in(threads: &[ThreadPart], d: DomainId) -> Option<usize>
    ensures { IfSome result (λ n. n ≡ count_in threads.now d) }
{
    let mut count = 0usize;
    for thread in threads {
        count = count.checked_add(count_of(thread.segments.as_slice(), d))?;
    }
    Some(count)
}

fn count_of(segments: &[SegmentPart], d: DomainId) -> usize
    ensures { result ≡ length (filter (λ (s : ASegment). s.domain.0 == d.0) segments.now) }
{
    segments.iter().filter(|s| s.domain.0 == d.0).count()
}
