//! What a thread's top segment does in one step: what is pending is raised, and else it acts.

ghost use Rattle.std.specs.Prelude.{◌≡◌, ◌≢◌, ◌⊎◌, [], false, true, Some, slice_get};
ghost use Rattle.jk_model.specs.declared.descriptors.MethodType.{MethodType};
ghost use Rattle.jk_model.specs.declared.steps.Standing.TheVariants as Stands;
ghost use Rattle.jk_model_sharing.specs.Segments.{with_revoked, with_stop};
ghost use Rattle.jk_model_sharing.specs.SharedStates.{with_flags};
ghost use Rattle.jk_model_domains.specs.declared.states.Look.TheVariants as Sees;
ghost use Rattle.jk_model_frames.specs.Frames.{FrameState as AFrame};
ghost use Rattle.class_init.specs.KeptStates.{KeptState};
ghost use Rattle.frame_store.specs.FrameContents.{TopFrame};
ghost use Rattle.segment_steps.specs.Meetings.{Meets};
ghost use Rattle.thread_segments.specs.Asked.{IsThere};
ghost use Rattle.kernel_turns.specs.StepsOfThreads.{BeginsSo, Begun, IsReady, content_of, sink_state};

use crate::laws::{acts_are_steps, raises_are_steps};
use crate::own_states::{act_in, raise_in};
use crate::running::Running;
use class_init::Own;
use domain_resolver::World;
use frame_store::FrameStore;
use jk_model::{Raise, SegmentNo, Standing};
use jk_outside::{Sink, SinkFailed};
use object_store::ObjectStore;
use segment_steps::{Meeting, Went};
use thread_segments::Shared;

/// What the top segment of a thread does in one step. The thread isn't held, and its domain has a step left. What is pending is raised, and
/// else the segment acts. Where the sink fails, it has done so.
#[inline(always)]
pub(crate) fn begin<H: ObjectStore, F: FrameStore, S: Sink>(
    w: &World,
    owns: &mut Vec<Option<Own>>,
    shared: &mut Shared,
    heap: &mut H,
    frames: &mut F,
    running: Running,
    met: &Meeting<'_>,
    out: &mut S,
) -> Result<Went, SinkFailed>
    requires ready { (main : MethodType)
        × IsReady (content_of w.now owns.old.items shared.old (H.content heap.old) (F.content frames.old) main) running }
    requires met { (own : KeptState) × (slice_get owns.old.items running.runs.domain.0 ≡ Some (Some own))
        × ((f : AFrame) × TopFrame (F.content frames.old) running.runs.segment f × Meets w.now.classes own.state running.runs f met.now) }
    requires free { met.now.look ≢ Sees.Waits }
    ensures { (main : MethodType) → IsReady (content_of w.now owns.old.items shared.old (H.content heap.old) (F.content frames.old) main) running
        → BeginsSo (content_of w.now owns.old.items shared.old (H.content heap.old) (F.content frames.old) main) running
        (sink_state (S.bytes out.old) (S.pieces out.old) (S.faults out.old)) (sink_state (S.bytes out.new) (S.pieces out.new) (S.faults out.new))
        result (content_of w.now owns.new.items shared.new (H.content heap.new) (F.content frames.new) main) }
{
    if running.info.stop || running.info.revoked {
        return Ok(raise_pending(w, owns, shared, heap, frames, running));
    }
    act_now(w, owns, shared, heap, frames, running, met, out)
}

/// The step of a thread for whose top segment something is pending: the flag falls, and a throwable is raised.
#[inline(never)]
fn raise_pending<H: ObjectStore, F: FrameStore>(
    w: &World,
    owns: &mut Vec<Option<Own>>,
    shared: &mut Shared,
    heap: &mut H,
    frames: &mut F,
    running: Running,
) -> Went
    requires ready { (main : MethodType)
        × IsReady (content_of w.now owns.old.items shared.old (H.content heap.old) (F.content frames.old) main) running }
    requires pending { (running.info.stop ≡ true) ⊎ (running.info.revoked ≡ true) }
    ensures { (main : MethodType) → IsReady (content_of w.now owns.old.items shared.old (H.content heap.old) (F.content frames.old) main) running
        → Begun (content_of w.now owns.old.items shared.old (H.content heap.old) (F.content frames.old) main) running result []
        (content_of w.now owns.new.items shared.new (H.content heap.new) (F.content frames.new) main) }
{
    raises_are_steps();
    shared.spend_step(running.runs.domain);
    let throwable = take_pending(shared, running.runs.segment, running.info.stop);
    raise_in(
        w,
        owns,
        heap,
        frames,
        running.runs,
        Raise::Standing(throwable),
    )
}

/// The step of a thread for whose top segment nothing is pending: that acts.
#[inline(always)]
fn act_now<H: ObjectStore, F: FrameStore, S: Sink>(
    w: &World,
    owns: &mut Vec<Option<Own>>,
    shared: &mut Shared,
    heap: &mut H,
    frames: &mut F,
    running: Running,
    met: &Meeting<'_>,
    out: &mut S,
) -> Result<Went, SinkFailed>
    requires ready { (main : MethodType)
        × IsReady (content_of w.now owns.old.items shared.old (H.content heap.old) (F.content frames.old) main) running }
    requires calm { (running.info.stop ≡ false) × (running.info.revoked ≡ false) }
    requires met { (own : KeptState) × (slice_get owns.old.items running.runs.domain.0 ≡ Some (Some own))
        × ((f : AFrame) × TopFrame (F.content frames.old) running.runs.segment f × Meets w.now.classes own.state running.runs f met.now) }
    requires free { met.now.look ≢ Sees.Waits }
    ensures { (main : MethodType) → IsReady (content_of w.now owns.old.items shared.old (H.content heap.old) (F.content frames.old) main) running
        → BeginsSo (content_of w.now owns.old.items shared.old (H.content heap.old) (F.content frames.old) main) running
        (sink_state (S.bytes out.old) (S.pieces out.old) (S.faults out.old)) (sink_state (S.bytes out.new) (S.pieces out.new) (S.faults out.new))
        result (content_of w.now owns.new.items shared.new (H.content heap.new) (F.content frames.new) main) }
{
    acts_are_steps();
    shared.spend_step(running.runs.domain);
    act_in(w, owns, shared, heap, frames, running.runs, met, out)
}

/// What is pending for a segment, stop before revoked. Its flag falls.
fn take_pending(shared: &mut Shared, s: SegmentNo, stop: bool) -> Standing
    requires { IsThere shared.old s }
    ensures stops { stop ≡ true → (result ≡ Stands.ThreadDeath) × (shared.new ≡ with_flags s (with_stop false) shared.old) }
    ensures is_revoked { stop ≡ false → (result ≡ Stands.Revoked) × (shared.new ≡ with_flags s (with_revoked false) shared.old) }
{
    if stop {
        shared.clear_stop(s);
        return Standing::ThreadDeath;
    }
    shared.set_revoked(s, false);
    Standing::Revoked
}
