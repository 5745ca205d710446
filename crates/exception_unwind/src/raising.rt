//! The object that is raised.

ghost use Rattle.std.specs.Prelude.{ℕ};
ghost use Rattle.jk_model.specs.declared.identifiers.SegmentNo.{SegmentNo as ASegment};
ghost use Rattle.jk_model_sharing.specs.SharedStates.{SharedState};
ghost use Rattle.frame_store.specs.FrameContents.{FrameContent};
ghost use Rattle.heap_laws.specs.RaisableObjects.{MayBeRaised};
ghost use Rattle.step_contents.specs.Conditions.{MayChange};
ghost use Rattle.step_contents.specs.Contents.{contents_of, here_at};
ghost use Rattle.exception_unwind.specs.RaisedObjects.{IsRaisedIn};

use class_init::Own;
use domain_resolver::World;
use jk_model::{DomainId, Raise, Standing};
use jk_model_heaps::Shape;
use object_store::ObjectStore;

/// The object that is raised in domain d, by its name in the domain's heap. A fresh one is made, with a null message. Where it
/// doesn't fit, the standing OutOfMemoryError is raised in its place, and the heap is as before. No frame is asked for and none
/// changes, and it takes no memory.
pub fn raised<H: ObjectStore>(heap: &mut H, own: &Own, w: &World, d: DomainId, r: Raise) -> u32
    requires may { (frames : FrameContent) × (shared : SharedState) × (s : ASegment)
        × MayChange (contents_of (H.content heap.old) frames own.now) (here_at w.now shared d s) }
    requires raise { MayBeRaised w.now.classes ((H.content heap.old).heap d) r }
    ensures { (frames : FrameContent) (shared : SharedState) (s : ASegment)
        → IsRaisedIn (contents_of (H.content heap.old) frames own.now) (contents_of (H.content heap.new) frames own.now)
        (here_at w.now shared d s) r result }
{
    match r {
        Raise::Object(a) => a,
        Raise::Standing(standing) => own.standing(standing),
        Raise::Fresh(class) => match heap.make(w.classes(), d, Shape::Plain(class)) {
            Ok(a) => a,
            Err(_) => own.standing(Standing::OutOfMemoryError),
        },
    }
}
