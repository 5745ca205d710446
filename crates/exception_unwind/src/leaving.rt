//! An object that leaves a frame.

ghost use Rattle.std.specs.Prelude.{◌≡◌, ◌↔◌, ℕ, IsTrue, Some};
ghost use Rattle.jk_model.specs.declared.identifiers.ClassId.{ClassId as AClass};
ghost use Rattle.jk_model.specs.declared.identifiers.SegmentNo.{SegmentNo as ASegment};
ghost use Rattle.jk_model_domains.specs.Objects.{Object as AnObject, class_type, type_of};
ghost use Rattle.jk_model_domains.specs.OwnStates.{HasState};
ghost use Rattle.jk_model_heaps.specs.Instances.{IsA};
ghost use Rattle.jk_model_heaps.specs.SystemClasses as named;
ghost use Rattle.jk_model_sharing.specs.SharedStates.{SharedState};
ghost use Rattle.frame_store.specs.FrameContents.{FrameContent};
ghost use Rattle.object_store.specs.HeapContents.{IsLive, IsName};
ghost use Rattle.heap_laws.specs.RaisableObjects.{IsThrowable};
ghost use Rattle.step_contents.specs.Conditions.{MayChange};
ghost use Rattle.step_contents.specs.Contents.{contents_of, here_at};
ghost use Rattle.exception_unwind.specs.LeftFrames.{FrameIsLeft, InitialiserIsLeft};

use crate::raising::raised;
use class_init::Own;
use domain_resolver::World;
use instance_tests::{class_type, is_object_a};
use jk_model::{DomainId, FrameHead, Raise};
use jk_model_domains::ClassState;
use jk_model_heaps::system_classes::{ERROR, EXCEPTION_IN_INITIALIZER_ERROR};
use object_store::ObjectStore;

/// An object leaves a frame with this head, which doesn't catch it. A class that the frame initialises is broken, and then an object that
/// is no Error is replaced. The answer is the object that goes on.
pub(crate) fn leave<H: ObjectStore>(
    heap: &mut H,
    own: &mut Own,
    w: &World,
    d: DomainId,
    head: &FrameHead,
    thrown: u32,
) -> u32
    requires may { (frames : FrameContent) × (shared : SharedState) × (s : ASegment)
        × MayChange (contents_of (H.content heap.old) frames own.old) (here_at w.now shared d s) }
    requires thrown { IsThrowable w.now.classes ((H.content heap.old).heap d) thrown }
    requires state { (c : AClass) → head.now.initialises ≡ Some c → HasState own.old.state c }
    ensures { (frames : FrameContent) (shared : SharedState) (s : ASegment)
        → FrameIsLeft (contents_of (H.content heap.old) frames own.old) (contents_of (H.content heap.new) frames own.new)
        (here_at w.now shared d s) head.now thrown result }
{
    match head.initialises {
        Some(c) => {
            own.set_state(c, ClassState::Broken);
            replaced(heap, own, w, d, thrown)
        }
        None => thrown,
    }
}

/// What goes on of an object that left the initialiser of a class: an Error itself, and in the place of another one a fresh
/// ExceptionInInitializerError, as `raised` makes one.
fn replaced<H: ObjectStore>(heap: &mut H, own: &Own, w: &World, d: DomainId, thrown: u32) -> u32
    requires may { (frames : FrameContent) × (shared : SharedState) × (s : ASegment)
        × MayChange (contents_of (H.content heap.old) frames own.now) (here_at w.now shared d s) }
    requires thrown { IsThrowable w.now.classes ((H.content heap.old).heap d) thrown }
    ensures { (frames : FrameContent) (shared : SharedState) (s : ASegment)
        → InitialiserIsLeft (contents_of (H.content heap.old) frames own.now) (contents_of (H.content heap.new) frames own.now)
        (here_at w.now shared d s) thrown result }
{
    if is_error(heap, w, d, thrown) {
        thrown
    } else {
        raised(
            heap,
            own,
            w,
            d,
            Raise::Fresh(EXCEPTION_IN_INITIALIZER_ERROR),
        )
    }
}

/// Whether an object is a java/lang/Error.
fn is_error<H: ObjectStore>(heap: &H, w: &World, d: DomainId, a: u32) -> bool
    requires { IsName (H.content heap.now) d a }
    ensures { (object : AnObject) → IsLive (H.content heap.now) d a object
        → IsTrue result ↔ IsA w.now.classes (type_of object) (class_type named.ERROR) }
{
    is_object_a(w.classes(), &heap.shape(d, a), &class_type(ERROR))
}
