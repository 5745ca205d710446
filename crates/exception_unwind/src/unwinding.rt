//! A throwable on its way through the frames of a segment.

ghost use Rattle.std.specs.Prelude.{◌≡◌, ℕ, None, IsTrue, IfNone};
ghost use Rattle.jk_model.specs.declared.frames.FrameHead.{FrameHead as AHead};
ghost use Rattle.jk_model_sharing.specs.SharedStates.{SharedState};
ghost use Rattle.heap_laws.specs.RaisableObjects.{IsThrowable};
ghost use Rattle.step_contents.specs.Conditions.{MayRaise};
ghost use Rattle.step_contents.specs.Contents.{contents_of, here_at};
ghost use Rattle.exception_unwind.specs.Trials.{place_afterwards};
ghost use Rattle.exception_unwind.specs.UnwoundFrames.{IsUnwound};

use crate::catching::{CodePlace, NOWHERE, catch, handler_in};
use crate::leaving::leave;
use class_init::Own;
use domain_resolver::World;
use frame_store::FrameStore;
use jk_model::{DomainId, FrameHead, SegmentNo};
use jk_model_heaps::Unwound;
use object_store::ObjectStore;

/// An object is raised in the top frame of segment s of domain d. A frame catches it by its first handler in order that covers the
/// place where it stands and whose class the object has, interfaces counted; a frame whose need stands catches nothing. The frame
/// that catches goes on at its handler, with the object alone on its stack.
///
/// A frame that doesn't catch is dropped. If it initialises a class, that class is broken, and an object that is no Error is
/// replaced by a fresh ExceptionInInitializerError, as `raised` makes one. `Uncaught` has what left the lowest frame: the
/// segment is still there then, without a frame. What domains share isn't asked for.
///
/// It takes no memory, and time in proportion to the frames that it goes through and to the handlers of their methods, which are
/// looked at once for frames one below another that stand at one place of one method.
pub fn unwind<H: ObjectStore, F: FrameStore>(
    heap: &mut H,
    frames: &mut F,
    own: &mut Own,
    w: &World,
    d: DomainId,
    s: SegmentNo,
    throwable: u32,
) -> Unwound
    requires may { (shared : SharedState)
        × MayRaise (contents_of (H.content heap.old) (F.content frames.old) own.old) (here_at w.now shared d s) }
    requires throwable { IsThrowable w.now.classes ((H.content heap.old).heap d) throwable }
    ensures { (shared : SharedState) → IsUnwound (contents_of (H.content heap.old) (F.content frames.old) own.old)
        (contents_of (H.content heap.new) (F.content frames.new) own.new) (here_at w.now shared d s) throwable result }
{
    let mut thrown = throwable;
    let mut tried = NOWHERE;
    for _ in 0..frames.depth(s) {
        let head = frames.head(s);
        if let Some(handler) = handler_in(heap, w, d, &head, thrown, tried) {
            catch(frames, s, handler, thrown);
            return Unwound::Caught;
        }
        tried = tried_after(&head);
        thrown = leave(heap, own, w, d, &head, thrown);
        frames.pop(s);
    }
    Unwound::Uncaught(thrown)
}

/// Where the object that goes on was tried, once a frame with this head didn't catch it. What leaves an initialiser may be another
/// object, and of a frame whose need stands no handler was looked at.
fn tried_after(head: &FrameHead) -> CodePlace
    ensures { result ≡ place_afterwards head.now }
{
    if head.need.is_none() && head.initialises.is_none() {
        CodePlace {
            method: head.method,
            at: head.at,
        }
    } else {
        NOWHERE
    }
}
