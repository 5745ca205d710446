//! The thread that begins, and its segment with one frame.

ghost use Rattle.std.specs.Prelude.{◌≡◌, ◌+◌, ◌≤◌, ◌∷◌, [], None, Some};
ghost use Rattle.jk_model.specs.declared.values.Value.TheVariants as Held;
ghost use Rattle.jk_model_frames.specs.Frames.{head_chunks};
ghost use Rattle.jk_model_sharing.specs.SharedStates.{MayBegin, begun};
ghost use Rattle.frame_store.specs.FrameContents.{IsAdmitted, free_chunks};
ghost use Rattle.thread_segments.specs.Asked.{HasRoomForSegment, IsLiveDomain, MayDrawSegment, MayDrawThread};
ghost use Rattle.kernel_openings.specs.FirstFrames.{BeginsSegment};

use frame_store::FrameStore;
use jk_model::{DomainId, FrameHead, SegmentNo, ThreadNo, Value};
use thread_segments::Shared;

/// A thread that begins, and its one segment.
#[derive(Clone, Copy)]
pub(crate) struct BegunThread {
    pub(crate) thread: ThreadNo,
    pub(crate) segment: SegmentNo,
}

/// Begins a thread in a live domain that may begin one and has room for a segment.
pub(crate) fn begin_thread(shared: &mut Shared, d: DomainId) -> BegunThread
    requires live { IsLiveDomain shared.old d }
    requires room { HasRoomForSegment shared.old d }
    requires may { MayBegin shared.old d }
    requires thread { MayDrawThread shared.old }
    requires segment { MayDrawSegment shared.old }
    ensures begun { shared.new ≡ begun d shared.old }
    ensures thread { result.thread.0 ≡ shared.old.next_thread }
    ensures segment { result.segment.0 ≡ shared.old.next_segment }
{
    shared.is_sound();
    let Some(thread) = shared.begin(d) else {
        unreachable!();
    };
    let Some(segment) = shared.top(thread) else {
        unreachable!();
    };
    BegunThread { thread, segment }
}

/// Begins a segment with one frame, whose first local is this array. There is room for both.
pub(crate) fn begin_segment<F: FrameStore>(
    frames: &mut F,
    d: DomainId,
    s: SegmentNo,
    head: FrameHead,
    array: u32,
)
    requires admitted { IsAdmitted (F.content frames.old) d }
    requires new { (F.content frames.old).segment s ≡ None }
    requires room { 1 + head_chunks head ≤ free_chunks (F.content frames.old) d }
    requires local { 1 ≤ head.max_locals }
    ensures { BeginsSegment (F.content frames.old) (F.content frames.new) d s head (Held.Obj array) }
{
    match frames.begin(d, s, head) {
        Ok(()) => {}
        Err(_) => unreachable!(),
    }
    frames.set_local(s, 0, Value::Obj(array));
}
