//! A segment whose lowest frame has returned: it goes from its thread, and its answer to the segment below.

ghost use Rattle.std.specs.Prelude.{◌≡◌, ◌∷◌, [], List, Option, Some};
ghost use Rattle.jk_model.specs.declared.values.Value.{Value as AValue};
ghost use Rattle.jk_model_domains.specs.OwnStates.{OwnState};
ghost use Rattle.graph_copy.specs.AskedOfCopies.{MayCopy};
ghost use Rattle.machine_parts.specs.FittingParts.{AreFittingParts};
ghost use Rattle.machine_parts.specs.MachineParts.{machine_of};
ghost use Rattle.domain_crossing.specs.AnsweredFrames.{TopMayResume};
ghost use Rattle.domain_crossing.specs.AskedOfCrossings.{MayLeave};
ghost use Rattle.domain_crossing.specs.Crossings.{LeavesByReturn};
ghost use Rattle.domain_crossing.specs.PassedValues.{GivesSo};

use crate::answers::Left;
use crate::passing::{Passed, pass};
use crate::taking::{Below, resume, take_off};
use domain_resolver::World;
use frame_store::FrameStore;
use jk_model::{DomainId, Raise, Standing, ThreadNo, Value};
use object_store::ObjectStore;
use thread_segments::Shared;

/// Leaves the top segment of a thread, of which no frame is left, with what its lowest frame has returned. The value goes to the segment
/// below as a copy, and the frame that called goes on after its call. Where the value doesn't pass, that is raised below; an orphan's is
/// dropped, and RevokedException is pending below. Where no segment is below, the thread has ended. It takes no memory but the words of
/// the copies, and time in proportion to what it copies and to a logarithm of the number of segments.
// Not inlined, so that `bench/` can count it in the program.
#[inline(never)]
pub fn leave<H: ObjectStore, F: FrameStore>(
    heap: &mut H,
    frames: &mut F,
    shared: &mut Shared,
    w: &World,
    t: ThreadNo,
    returned: Option<Value>,
) -> Left
    requires may { (owns : List (Option OwnState)) × MayLeave (record {
      world = w.now;
      owns = owns;
      shared = shared.old;
      heap = H.content heap.old;
      frames = F.content frames.old;
    }) t returned }
    ensures answer { (owns : List (Option OwnState)) → MayLeave (record {
      world = w.now;
      owns = owns;
      shared = shared.old;
      heap = H.content heap.old;
      frames = F.content frames.old;
    }) t returned → LeavesByReturn (machine_of (record {
      world = w.now;
      owns = owns;
      shared = shared.old;
      heap = H.content heap.old;
      frames = F.content frames.old;
    })) t returned result (machine_of (record {
      world = w.now;
      owns = owns;
      shared = shared.new;
      heap = H.content heap.new;
      frames = F.content frames.new;
    })) }
    ensures fitting { (owns : List (Option OwnState)) → AreFittingParts (record {
      world = w.now;
      owns = owns;
      shared = shared.old;
      heap = H.content heap.old;
      frames = F.content frames.old;
    }) → AreFittingParts (record {
      world = w.now;
      owns = owns;
      shared = shared.new;
      heap = H.content heap.new;
      frames = F.content frames.new;
    }) }
    ensures stubs { shared.new.stubs ≡ shared.old.stubs }
{
    let taken = take_off(frames, shared, t);
    let Some(below) = taken.below else {
        return Left::Ended;
    };
    if taken.orphan {
        shared.set_revoked(below.segment, true);
        return Left::Delivered;
    }
    give(heap, frames, w, taken.domain, below, returned)
}

/// Gives what was returned to the frame on top of the segment below, which goes on after its call.
fn give<H: ObjectStore, F: FrameStore>(
    heap: &mut H,
    frames: &mut F,
    w: &World,
    from: DomainId,
    below: Below,
    returned: Option<Value>,
) -> Left
    requires copy { (v : AValue) → returned ≡ Some v → MayCopy (H.content heap.old) w.now from below.domain (v ∷ []) }
    requires resume { TopMayResume (F.content frames.old) below.segment returned }
    ensures { GivesSo (record { world = w.now; heap = H.content heap.old; from = from; to = below.domain }) below.segment
        (F.content frames.old) returned result (H.content heap.new) (F.content frames.new) }
{
    let Some(v) = returned else {
        resume(frames, below.segment, None);
        return Left::Delivered;
    };
    match pass(heap, w, from, below.domain, v) {
        Passed::As(v) => {
            resume(frames, below.segment, Some(v));
            Left::Delivered
        }
        Passed::Uncopiable => Left::Raised(Raise::Standing(Standing::NotCopiable)),
        Passed::TooLarge => Left::Raised(Raise::Standing(Standing::OutOfMemoryError)),
    }
}
