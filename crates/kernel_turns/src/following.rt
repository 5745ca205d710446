//! What follows a step of a thread's top segment: it goes on, calls another domain, is left for the segment below, or ends its domain.

ghost use Rattle.std.specs.Prelude.{◌≡◌, ◌++◌, List as AList, Option};
ghost use Rattle.jk_model.specs.declared.descriptors.MethodType.{MethodType};
ghost use Rattle.jk_model.specs.declared.output.Line.{Line};
ghost use Rattle.jk_model_domains.specs.OwnStates.{OwnState};
ghost use Rattle.machine_parts.specs.FittingParts.{AreFittingParts};
ghost use Rattle.machine_parts.specs.MachineParts.{machine_of};
ghost use Rattle.domain_crossing.specs.AskedOfCrossings.{MayEnter};
ghost use Rattle.kernel_events.specs.PrintedLines.{Prints, SinkState};
ghost use Rattle.domain_ends.specs.FollowingLines.{PrintsMore};
ghost use Rattle.segment_steps.specs.StepsAlone.{went_so};
ghost use Rattle.system_calls.specs.SystemSteps.{printed};
ghost use Rattle.kernel_turns.specs.GoingDown.{CallsAcross, parts_so};
ghost use Rattle.kernel_turns.specs.SteppedParts.{Follows, MayFollow};
ghost use Rattle.kernel_turns.specs.StepsOfThreads.{content_of, sink_state};

use crate::going_down::go_down;
use class_init::Own;
use domain_crossing::{Crossed, Left, enter, leave, raise_across};
use domain_ends::end_domain;
use domain_resolver::World;
use frame_store::FrameStore;
use jk_model::{CapId, MemberId, ThreadNo};
use jk_outside::{Sink, SinkFailed};
use object_store::ObjectStore;
use segment_steps::{Runs, Went};
use thread_segments::Shared;

/// What follows a step, unless the sink failed in it: after that nothing is printed, and the thread goes on.
#[inline(always)]
pub(crate) fn finish<H: ObjectStore, F: FrameStore, S: Sink>(
    w: &mut World,
    owns: &mut Vec<Option<Own>>,
    shared: &mut Shared,
    heap: &mut H,
    frames: &mut F,
    r: Runs,
    went: Result<Went, SinkFailed>,
    out: &mut S,
) -> Result<(), SinkFailed>
    requires may { (main : MethodType)
        × MayFollow (content_of w.old owns.old.items shared.old (H.content heap.old) (F.content frames.old) main) r (went_so went) }
    ensures { (after : AList Line)
        × ((from : SinkState) (before : AList Line)
        → Prints from (sink_state (S.bytes out.old) (S.pieces out.old) (S.faults out.old)) (printed went) before
        → Prints from (sink_state (S.bytes out.new) (S.pieces out.new) (S.faults out.new)) result (before ++ after))
        × ((main : MethodType)
        → MayFollow (content_of w.old owns.old.items shared.old (H.content heap.old) (F.content frames.old) main) r (went_so went)
        → Follows (content_of w.old owns.old.items shared.old (H.content heap.old) (F.content frames.old) main) r.thread (went_so went) after
        (content_of w.new owns.new.items shared.new (H.content heap.new) (F.content frames.new) main)) }
{
    match went {
        Ok(went) => follow(w, owns, shared, heap, frames, r, went, out),
        Err(e) => Err(e),
    }
}

/// What follows a step of a thread's top segment. Where the sink fails, all of it has happened. It takes no memory but the words of copies,
/// and time in proportion to what it copies, to the frames and segments that are left, and to what a domain that ends has.
#[inline(always)]
pub(crate) fn follow<H: ObjectStore, F: FrameStore, S: Sink>(
    w: &mut World,
    owns: &mut Vec<Option<Own>>,
    shared: &mut Shared,
    heap: &mut H,
    frames: &mut F,
    r: Runs,
    went: Went,
    out: &mut S,
) -> Result<(), SinkFailed>
    requires may { (main : MethodType)
        × MayFollow (content_of w.old owns.old.items shared.old (H.content heap.old) (F.content frames.old) main) r went }
    ensures { (after : AList Line)
        × PrintsMore (sink_state (S.bytes out.old) (S.pieces out.old) (S.faults out.old))
        (sink_state (S.bytes out.new) (S.pieces out.new) (S.faults out.new)) result after
        × ((main : MethodType)
        → MayFollow (content_of w.old owns.old.items shared.old (H.content heap.old) (F.content frames.old) main) r went
        → Follows (content_of w.old owns.old.items shared.old (H.content heap.old) (F.content frames.old) main) r.thread went after
        (content_of w.new owns.new.items shared.new (H.content heap.new) (F.content frames.new) main)) }
{
    match went {
        Went::GoesOn => Ok(()),
        Went::Returned(v) => {
            let left = leave(heap, frames, shared, w, r.thread, v);
            go_down(w, owns, shared, heap, frames, r.thread, left, out)
        }
        Went::Left(a) => {
            let left = raise_across(heap, frames, shared, w, r.thread, a);
            go_down(w, owns, shared, heap, frames, r.thread, left, out)
        }
        Went::Crosses(k, method) => {
            let left = call_across(w, shared, heap, frames, r.thread, k, method);
            go_down(w, owns, shared, heap, frames, r.thread, left, out)
        }
        Went::Terminates => end_domain(w, owns, shared, heap, frames, r.domain, out),
    }
}

/// Calls a method through a capability. What is raised where the call is refused is raised in the segment that calls, which is on top still.
#[inline(always)]
fn call_across<H: ObjectStore, F: FrameStore>(
    w: &World,
    shared: &mut Shared,
    heap: &mut H,
    frames: &mut F,
    t: ThreadNo,
    k: CapId,
    method: MemberId,
) -> Left
    requires may { (owns : AList (Option OwnState)) × MayEnter (parts_so w.now owns shared.old (H.content heap.old) (F.content frames.old)) t k method }
    ensures entered { (owns : AList (Option OwnState))
        (may : MayEnter (parts_so w.now owns shared.old (H.content heap.old) (F.content frames.old)) t k method)
        → CallsAcross may.call result (machine_of (parts_so w.now owns shared.new (H.content heap.new) (F.content frames.new))) }
    ensures fitting { (owns : AList (Option OwnState)) → AreFittingParts (parts_so w.now owns shared.old (H.content heap.old) (F.content frames.old))
        → AreFittingParts (parts_so w.now owns shared.new (H.content heap.new) (F.content frames.new)) }
    ensures stubs { shared.new.stubs ≡ shared.old.stubs }
{
    match enter(heap, frames, shared, w, t, k, method) {
        Crossed::Entered => Left::Delivered,
        Crossed::Refused(raise) => Left::Raised(raise),
    }
}
