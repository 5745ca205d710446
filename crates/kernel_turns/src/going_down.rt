//! How what is raised goes down a thread, from segment to segment, until it is caught or no segment is left.

ghost use Rattle.std.specs.Prelude.{◌≡◌, ℕ, ◌+◌, ◌<◌, List as AList};
ghost use Rattle.jk_model.specs.declared.steps.Raise.{Raise as ARaise};
ghost use Rattle.jk_model.specs.declared.descriptors.MethodType.{MethodType};
ghost use Rattle.jk_model.specs.declared.output.Line.{Line};
ghost use Rattle.jk_model_machine_state.specs.Machines.{Machine};
ghost use Rattle.jk_model_crossings.specs.Throwing.{RaisesInThread};
ghost use Rattle.kernel_parts.specs.SoundKernels.{kernel_machine};
ghost use Rattle.domain_crossing.specs.PrintedOfThreads.{PrintedOf};
ghost use Rattle.domain_ends.specs.FollowingLines.{PrintsMore};
ghost use Rattle.domain_ends.specs.TidyParts.{AreTidyParts};
ghost use Rattle.kernel_turns.specs.GoingDown.{ComesOf, IsRaisable, IsToldWell, MayGoDown, height};
ghost use Rattle.kernel_turns.specs.StepsOfThreads.{content_of, sink_state};

use crate::own_states::raise_in;
use crate::running::run_of;
use class_init::Own;
use domain_crossing::{Left, raise_across};
use domain_resolver::World;
use frame_store::FrameStore;
use jk_model::{Raise, ThreadNo};
use jk_outside::{LineRef, Sink, SinkFailed, print_next};
use object_store::ObjectStore;
use segment_steps::Went;
use thread_segments::Shared;

/// What comes of a thread whose top segment was left, or in whose top segment something is to be raised. What is raised goes down from
/// segment to segment, and where the thread ends, its line is printed. Where the sink fails, the thread has ended.
#[inline(always)]
pub(crate) fn go_down<H: ObjectStore, F: FrameStore, S: Sink>(
    w: &World,
    owns: &mut Vec<Option<Own>>,
    shared: &mut Shared,
    heap: &mut H,
    frames: &mut F,
    t: ThreadNo,
    left: Left,
    out: &mut S,
) -> Result<(), SinkFailed>
    requires may { (main : MethodType) × MayGoDown (content_of w.now owns.old.items shared.old (H.content heap.old) (F.content frames.old) main) t left }
    ensures { (after : AList Line)
        × PrintsMore (sink_state (S.bytes out.old) (S.pieces out.old) (S.faults out.old))
        (sink_state (S.bytes out.new) (S.pieces out.new) (S.faults out.new)) result after
        × ((main : MethodType)
        → MayGoDown (content_of w.now owns.old.items shared.old (H.content heap.old) (F.content frames.old) main) t left
        → AreTidyParts (content_of w.now owns.new.items shared.new (H.content heap.new) (F.content frames.new) main)
        × ((n : ℕ) × ComesOf (kernel_machine (content_of w.now owns.old.items shared.old (H.content heap.old) (F.content frames.old) main)) t left n after
        (kernel_machine (content_of w.now owns.new.items shared.new (H.content heap.new) (F.content frames.new) main)))) }
{
    if let Left::Delivered = left {
        return Ok(());
    }
    let mut left = left;
    while let Left::Raised(raise) = left {
        left = raise_once(w, owns, shared, heap, frames, t, raise);
    }
    tell(w, t, left, out)
}

/// Raises something in the top segment of a thread. Where no frame catches it, what left them all leaves the segment.
#[inline(never)]
fn raise_once<H: ObjectStore, F: FrameStore>(
    w: &World,
    owns: &mut Vec<Option<Own>>,
    shared: &mut Shared,
    heap: &mut H,
    frames: &mut F,
    t: ThreadNo,
    raise: Raise,
) -> Left
    requires may { (main : MethodType)
        × AreTidyParts (content_of w.now owns.old.items shared.old (H.content heap.old) (F.content frames.old) main)
        × IsRaisable (kernel_machine (content_of w.now owns.old.items shared.old (H.content heap.old) (F.content frames.old) main)) t raise }
    ensures may { (main : MethodType)
        → AreTidyParts (content_of w.now owns.old.items shared.old (H.content heap.old) (F.content frames.old) main)
        → IsRaisable (kernel_machine (content_of w.now owns.old.items shared.old (H.content heap.old) (F.content frames.old) main)) t raise
        → MayGoDown (content_of w.now owns.new.items shared.new (H.content heap.new) (F.content frames.new) main) t result }
    ensures comes { (main : MethodType)
        → AreTidyParts (content_of w.now owns.old.items shared.old (H.content heap.old) (F.content frames.old) main)
        → IsRaisable (kernel_machine (content_of w.now owns.old.items shared.old (H.content heap.old) (F.content frames.old) main)) t raise
        → (k : ℕ) × ((n : ℕ) (lines : AList Line) (new : Machine)
        → ComesOf (kernel_machine (content_of w.now owns.new.items shared.new (H.content heap.new) (F.content frames.new) main)) t result n lines new
        → RaisesInThread (kernel_machine (content_of w.now owns.old.items shared.old (H.content heap.old) (F.content frames.old) main)) t raise (k + n)
        lines new) }
    ensures lower { (r : ARaise) → result ≡ Left.Raised r → height t shared.new < height t shared.old }
{
    let Some(running) = run_of(shared, t) else {
        unreachable!();
    };
    match raise_in(w, owns, heap, frames, running.runs, raise) {
        Went::Left(a) => raise_across(heap, frames, shared, w, t, a),
        _ => Left::Delivered,
    }
}

/// Prints how a thread has ended, where it has.
#[inline(never)]
fn tell<S: Sink>(w: &World, t: ThreadNo, left: Left, out: &mut S) -> Result<(), SinkFailed>
    requires { IsToldWell w.now.classes left }
    ensures { (after : AList Line)
        × PrintsMore (sink_state (S.bytes out.old) (S.pieces out.old) (S.faults out.old))
        (sink_state (S.bytes out.new) (S.pieces out.new) (S.faults out.new)) result after
        × PrintedOf w.now.classes t left after }
{
    match left {
        Left::Delivered | Left::Raised(_) => Ok(()),
        Left::Ended => print_next(Ok(()), LineRef::Ended { thread: t }, out),
        Left::EndedBy(c) => {
            let Some(class) = w.classes().class(c) else {
                unreachable!();
            };
            let class = class.name.as_slice();
            print_next(Ok(()), LineRef::EndedBy { thread: t, class }, out)
        }
    }
}
