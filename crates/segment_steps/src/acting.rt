//! One step of a segment that acts: its thread waits for no class.

ghost use Rattle.std.specs.Prelude.{◌≡◌, ◌≢◌, IfOk, OnErr, OnOk};
ghost use Rattle.jk_model.specs.Outside.{HasRisen, NeverFalls};
ghost use Rattle.jk_model_domains.specs.declared.states.Look.TheVariants as Sees;
ghost use Rattle.jk_model_frames.specs.Frames.{FrameState as AFrame};
ghost use Rattle.jk_outside.specs.SeveralLines.{PrintsLines};
ghost use Rattle.frame_store.specs.FrameContents.{TopFrame};
ghost use Rattle.step_contents.specs.Contents.{contents_of, here_at, left_behind};
ghost use Rattle.system_calls.specs.SystemSteps.{printed};
ghost use Rattle.segment_steps.specs.ActingSegments.{ActsSo, MayAct};
ghost use Rattle.segment_steps.specs.Meetings.{Meets};
ghost use Rattle.segment_steps.specs.StepsAlone.{went_so};
ghost use Rattle.segment_steps.specs.declared.went.Went.TheVariants as Goes;

use crate::falling_needs::fall;
use crate::instructions::execute;
use crate::meeting::{Meeting, Runs};
use crate::needed_classes::{meet_broken, touch};
use crate::went::Went;
use class_init::Own;
use domain_resolver::World;
use frame_store::FrameStore;
use jk_model_domains::Look;
use jk_outside::{Sink, SinkFailed};
use object_store::ObjectStore;
use thread_segments::Shared;

/// One step of a segment whose top frame meets this: at a class that isn't ready, else the need of the frame, else its instruction. It
/// asks that the thread doesn't wait for a class. A line that the domain says goes out; where the sink fails, the whole step is done, and the
/// line went out in part. It takes no memory, and time in proportion to what the step touches: to the methods of a class whose initialiser
/// frame is put on top, and else as the functions of the step crates say.
#[inline(always)]
pub fn act<H: ObjectStore, F: FrameStore, S: Sink>(
    w: &World,
    heap: &mut H,
    frames: &mut F,
    own: &mut Own,
    shared: &mut Shared,
    r: Runs,
    met: &Meeting<'_>,
    out: &mut S,
) -> Result<Went, SinkFailed>
    requires may { MayAct (contents_of (H.content heap.old) (F.content frames.old) own.old) (here_at w.now shared.old r.domain r.segment) }
    requires met { (f : AFrame) × TopFrame (F.content frames.old) r.segment f × Meets w.now.classes own.old.state r f met.now }
    requires free { met.now.look ≢ Sees.Waits }
    ensures ok { IfOk result (λ went. ActsSo (contents_of (H.content heap.old) (F.content frames.old) own.old)
        (here_at w.now shared.old r.domain r.segment) r.thread
        (left_behind (contents_of (H.content heap.new) (F.content frames.new) own.new) shared.new) went
        (λ lines. PrintsLines (S.bytes out.old) (S.bytes out.new) (S.pieces out.old) (S.pieces out.new) (S.faults out.old) (S.faults out.new)
        (printed result) lines)) }
    ensures err { OnErr result (ActsSo (contents_of (H.content heap.old) (F.content frames.old) own.old)
        (here_at w.now shared.old r.domain r.segment) r.thread
        (left_behind (contents_of (H.content heap.new) (F.content frames.new) own.new) shared.new) Goes.GoesOn
        (λ lines. PrintsLines (S.bytes out.old) (S.bytes out.new) (S.pieces out.old) (S.pieces out.new) (S.faults out.old) (S.faults out.new)
        (printed result) lines)) }
    ensures cause { OnErr result (HasRisen (S.faults out.old) (S.faults out.new)) }
    ensures calm { OnOk result (S.faults out.new ≡ S.faults out.old) }
    ensures faults { NeverFalls (S.faults out.old) (S.faults out.new) }
{
    match met.look {
        Look::Waits => unreachable!(),
        Look::Untouched => match met.needed {
            Some(c) => Ok(touch(w, heap, frames, own, r, c)),
            None => unreachable!(),
        },
        Look::Broken => Ok(meet_broken(w, heap, frames, own, r)),
        Look::Ready => go_on(w, heap, frames, own, shared, r, met, out),
    }
}

/// As `act`, where the class that the top frame needs is ready, or it needs none.
#[inline(always)]
fn go_on<H: ObjectStore, F: FrameStore, S: Sink>(
    w: &World,
    heap: &mut H,
    frames: &mut F,
    own: &mut Own,
    shared: &mut Shared,
    r: Runs,
    met: &Meeting<'_>,
    out: &mut S,
) -> Result<Went, SinkFailed>
    requires may { MayAct (contents_of (H.content heap.old) (F.content frames.old) own.old) (here_at w.now shared.old r.domain r.segment) }
    requires met { (f : AFrame) × TopFrame (F.content frames.old) r.segment f × Meets w.now.classes own.old.state r f met.now }
    requires ready { met.now.look ≡ Sees.Ready }
    ensures { ActsSo (contents_of (H.content heap.old) (F.content frames.old) own.old) (here_at w.now shared.old r.domain r.segment) r.thread
        (left_behind (contents_of (H.content heap.new) (F.content frames.new) own.new) shared.new) (went_so result)
        (λ lines. PrintsLines (S.bytes out.old) (S.bytes out.new) (S.pieces out.old) (S.pieces out.new) (S.faults out.old) (S.faults out.new)
        (printed result) lines) }
{
    if met.head.need.is_some() {
        let head = met.head;
        return Ok(fall(w, heap, frames, own, r, &head));
    }
    match met.at {
        Some(at) => execute(w, heap, frames, own, shared, r, &at, out),
        None => unreachable!(),
    }
}
