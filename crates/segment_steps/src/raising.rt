//! Raising within a segment.

ghost use Rattle.jk_model_sharing.specs.SharedStates.{SharedState};
ghost use Rattle.heap_laws.specs.RaisableObjects.{MayBeRaised};
ghost use Rattle.step_contents.specs.Conditions.{MayRaise};
ghost use Rattle.step_contents.specs.Contents.{contents_of, here_at};
ghost use Rattle.segment_steps.specs.RaisingHere.{RaisedHere};

use crate::meeting::Runs;
use crate::went::Went;
use class_init::Own;
use domain_resolver::World;
use exception_unwind::{raised, unwind};
use frame_store::FrameStore;
use jk_model::Raise;
use jk_model_heaps::Unwound;
use object_store::ObjectStore;

/// Raises something in a segment: its object, which may be made for it, goes to the topmost frame that catches it. Where none does, no
/// frame is left, and what left the lowest one is answered. It takes no memory, and time as `unwind` does.
pub fn raise_here<H: ObjectStore, F: FrameStore>(
    w: &World,
    heap: &mut H,
    frames: &mut F,
    own: &mut Own,
    r: Runs,
    raise: Raise,
) -> Went
    requires may { (shared : SharedState)
        × MayRaise (contents_of (H.content heap.old) (F.content frames.old) own.old) (here_at w.now shared r.domain r.segment) }
    requires raise { MayBeRaised w.now.classes ((H.content heap.old).heap r.domain) raise }
    ensures { (shared : SharedState) → RaisedHere (contents_of (H.content heap.old) (F.content frames.old) own.old)
        (contents_of (H.content heap.new) (F.content frames.new) own.new) (here_at w.now shared r.domain r.segment) raise result }
{
    let throwable = raised(heap, own, w, r.domain, raise);
    match unwind(heap, frames, own, w, r.domain, r.segment, throwable) {
        Unwound::Caught => Went::GoesOn,
        Unwound::Uncaught(left) => Went::Left(left),
    }
}
