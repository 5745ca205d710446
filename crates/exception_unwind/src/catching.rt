//! Whether a frame catches an object, and the frame at its handler.

ghost use Rattle.std.specs.Prelude.{◌≡◌, ◌≤◌, ◌∷◌, [], ℕ, None, IsTrue, IfNone, IfSome};
ghost use Rattle.jk_model.specs.declared.values.Value.TheVariants as Held;
ghost use Rattle.jk_model_frames.specs.Frames.{FrameState as AFrame};
ghost use Rattle.jk_model_heaps.specs.declared.shapes.Unwound.TheVariants as Ended;
ghost use Rattle.jk_model_sharing.specs.SharedStates.{SharedState};
ghost use Rattle.class_init.specs.KeptStates.{KeptState};
ghost use Rattle.frame_store.specs.FrameContents.{HasTop, SetsTop, TopFrame};
ghost use Rattle.object_store.specs.HeapContents.{IsName};
ghost use Rattle.heap_laws.specs.RaisableObjects.{IsThrowable};
ghost use Rattle.step_contents.specs.Conditions.{MayRaise};
ghost use Rattle.step_contents.specs.Contents.{contents_of, here_at};
ghost use Rattle.exception_unwind.specs.CaughtHere.{StandsAtHandler};
ghost use Rattle.exception_unwind.specs.Trials.{CatchesNowhere, IsCaughtBy, IsCaughtThere, IsTried, place_of};
ghost use Rattle.exception_unwind.specs.UnwoundFrames.{IsUnwound};

use crate::handlers::first_handler;
use domain_resolver::World;
use frame_store::SegmentFrames;
use jk_model::{DomainId, FrameHead, MemberId, SegmentNo, Value};
use object_store::ObjectStore;
use type_rows::CodeView;

/// A place in a method's code, where a frame stands. A frame without a method stands in none.
#[derive(Clone, Copy, Debug, PartialEq, Eq)]
pub(crate) struct CodePlace {
    pub(crate) method: Option<MemberId>,
    pub(crate) at: u32,
}

/// Where a frame without a method stands, which catches nothing.
pub(crate) const NOWHERE: CodePlace = CodePlace {
    method: None,
    at: 0,
};

/// The top frame of segment s of domain d, with this head, catches an object that is raised there, as in `unwind`, if a handler of its own
/// does: the answer is where the handler begins, and there the frame goes on, with the object alone on its stack. Its need is none
/// then. None, and nothing changed, where it doesn't catch: the frames below aren't looked at.
///
/// It takes no memory, and time in proportion to the handlers of the frame's method.
pub fn catch_here<H: ObjectStore, F: SegmentFrames>(
    heap: &H,
    frames: &mut F,
    w: &World,
    d: DomainId,
    s: SegmentNo,
    head: &FrameHead,
    thrown: u32,
) -> Option<u32>
    requires may { (own : KeptState) × (shared : SharedState)
        × MayRaise (contents_of (H.content heap.now) (F.content frames.old) own) (here_at w.now shared d s) }
    requires top { (f : AFrame) × TopFrame (F.content frames.old) s f × (head.now ≡ f.head) }
    requires throwable { IsThrowable w.now.classes ((H.content heap.now).heap d) thrown }
    ensures none { IfNone result (CatchesNowhere w.now.classes ((H.content heap.now).heap d) head.now thrown) }
    ensures same { IfNone result (F.content frames.new ≡ F.content frames.old) }
    ensures caught { IfSome result (λ n. (own : KeptState) (shared : SharedState)
        → IsUnwound (contents_of (H.content heap.now) (F.content frames.old) own) (contents_of (H.content heap.now) (F.content frames.new) own)
        (here_at w.now shared d s) thrown Ended.Caught) }
    ensures sets { IfSome result (λ n. (f : AFrame) → TopFrame (F.content frames.old) s f → SetsTop (F.content frames.old) (F.content frames.new) s
        (record f { head = record f.head { at = n; need = None }; stack = Held.Obj thrown ∷ [] })) }
    ensures stands { IfSome result (λ n. StandsAtHandler (F.content frames.new) w.now.classes s head.now n) }
{
    let handler = handler_in(heap, w, d, head, thrown, NOWHERE)?;
    catch(frames, s, handler, thrown);
    Some(handler)
}

/// Where the handler begins by which a frame with this head catches an object. None where it doesn't, as where its need stands, or
/// where it stands at the place that was tried with this object: handlers aren't looked at then.
pub(crate) fn handler_in<H: ObjectStore>(
    heap: &H,
    w: &World,
    d: DomainId,
    head: &FrameHead,
    thrown: u32,
    tried: CodePlace,
) -> Option<u32>
    requires name { IsName (H.content heap.now) d thrown }
    requires tried { IsTried w.now.classes ((H.content heap.now).heap d) tried thrown }
    ensures none { IfNone result (CatchesNowhere w.now.classes ((H.content heap.now).heap d) head.now thrown) }
    ensures some { IfSome result (λ n. IsCaughtBy w.now.classes ((H.content heap.now).heap d) head.now thrown n) }
    ensures tried { IfNone result (head.now.need ≡ None → IsTried w.now.classes ((H.content heap.now).heap d) (place_of head.now) thrown) }
{
    if head.need.is_some() {
        return None;
    }
    let place = CodePlace {
        method: head.method,
        at: head.at,
    };
    if is_same(&place, &tried) {
        return None;
    }
    handler_at(heap, w, d, place, thrown)
}

/// Whether two places are one.
fn is_same(a: &CodePlace, b: &CodePlace) -> bool
    ensures { IsTrue result → a.now ≡ b.now }
{
    a == b
}

/// Where the handler begins by which a frame that stands at a place and has no need catches an object. None where it doesn't.
fn handler_at<H: ObjectStore>(
    heap: &H,
    w: &World,
    d: DomainId,
    place: CodePlace,
    thrown: u32,
) -> Option<u32>
    requires { IsName (H.content heap.now) d thrown }
    ensures none { IfNone result (IsTried w.now.classes ((H.content heap.now).heap d) place thrown) }
    ensures some { IfSome result (λ n. IsCaughtThere w.now.classes ((H.content heap.now).heap d) place thrown n) }
{
    let view = CodeView::of(w.classes(), place.method?)?;
    let handlers = view.code.handlers.as_slice();
    first_handler(w.classes(), handlers, place.at, &heap.shape(d, thrown))
}

/// The top frame of a segment goes on at a handler, with an object alone on its stack.
pub(crate) fn catch<F: SegmentFrames>(frames: &mut F, s: SegmentNo, handler: u32, thrown: u32)
    requires { (f : AFrame) × TopFrame (F.content frames.old) s f × (1 ≤ f.head.max_stack) }
    ensures { (f : AFrame) → TopFrame (F.content frames.old) s f → SetsTop (F.content frames.old) (F.content frames.new) s
        (record f { head = record f.head { at = handler; need = None }; stack = Held.Obj thrown ∷ [] }) }
{
    clear_stack(frames, s);
    frames.go(s, handler, None);
    frames.push_value(s, Value::Obj(thrown));
}

/// Takes all entries off the operand stack of the top frame of a segment.
fn clear_stack<F: SegmentFrames>(frames: &mut F, s: SegmentNo)
    requires { HasTop (F.content frames.old) s }
    ensures { (f : AFrame) → TopFrame (F.content frames.old) s f
        → SetsTop (F.content frames.old) (F.content frames.new) s (record f { stack = [] }) }
{
    frames.drop_entries(s, frames.height(s));
}
