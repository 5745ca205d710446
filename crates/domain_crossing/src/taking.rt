//! The top segment of a thread, taken off with its frames, and the frame below it that goes on after its call.

ghost use Rattle.std.specs.Prelude.{◌≡◌};
ghost use Rattle.jk_model_frames.specs.Frames.{FrameState as AFrame};
ghost use Rattle.jk_model_sharing.specs.SharedStates.{popped};
ghost use Rattle.frame_store.specs.FrameContents.{Ends, IsThere};
ghost use Rattle.domain_crossing.specs.AnsweredFrames.{TopMayResume, TopResumes};
ghost use Rattle.domain_crossing.specs.TakenSegments.{AreApart, IsToldBelow, IsToldOf, TopStands};

use frame_store::FrameStore;
use jk_model::{DomainId, SegmentNo, ThreadNo, Value};
use thread_segments::Shared;

/// A segment.
#[derive(Clone, Copy, Debug, PartialEq, Eq)]
pub(crate) struct Below {
    pub(crate) segment: SegmentNo,
    pub(crate) domain: DomainId,
}

/// What is known of a segment that was taken off its thread, and the one that was below it.
#[derive(Clone, Copy, Debug, PartialEq, Eq)]
pub(crate) struct Taken {
    pub(crate) domain: DomainId,
    pub(crate) orphan: bool,
    pub(crate) below: Option<Below>,
}

/// Takes the top segment off a live thread, with its frames. Where it was the only one, the thread has ended.
#[inline(always)]
pub(crate) fn take_off<F: FrameStore>(frames: &mut F, shared: &mut Shared, t: ThreadNo) -> Taken
    requires apart { AreApart shared.old.threads }
    requires top { (top : TopStands shared.old.threads t) × IsThere (F.content frames.old) top.segment.number }
    ensures told { (top : TopStands shared.old.threads t) → IsToldOf top result }
    ensures shared { shared.new ≡ popped t shared.old }
    ensures frames { (top : TopStands shared.old.threads t) → Ends (F.content frames.old) (F.content frames.new) top.segment.number }
{
    let Some(segment) = shared.top(t) else {
        unreachable!();
    };
    let Some(info) = shared.segment(segment) else {
        unreachable!();
    };
    let below = segment_below(shared, t, segment);
    shared.pop(t);
    frames.end(segment);
    Taken {
        domain: info.domain,
        orphan: info.orphan,
        below,
    }
}

/// The segment below the top one of a thread; none below a lowest one.
#[inline(always)]
fn segment_below(shared: &Shared, t: ThreadNo, segment: SegmentNo) -> Option<Below>
    requires apart { AreApart shared.now.threads }
    requires top { (top : TopStands shared.now.threads t) × (top.segment.number ≡ segment) }
    ensures { (top : TopStands shared.now.threads t) → IsToldBelow top result }
{
    let segment = shared.below(segment)?;
    match shared.segment(segment) {
        Some(info) => Some(Below {
            segment,
            domain: info.domain,
        }),
        None => unreachable!(),
    }
}

/// The top frame of a segment goes on after its call, with this value, or none, on its stack.
#[inline(always)]
pub(crate) fn resume<F: FrameStore>(frames: &mut F, s: SegmentNo, v: Option<Value>)
    requires { TopMayResume (F.content frames.old) s v }
    ensures { (f : AFrame) → TopResumes (F.content frames.old) (F.content frames.new) s f v }
{
    frames.go_on(s);
    if let Some(v) = v {
        frames.push_value(s, v);
    }
}
