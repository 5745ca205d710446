//! The need of a frame falls, once the class that it needs is ready.

ghost use Rattle.std.specs.Prelude.{◌≡◌, ◌≢◌, Some, None};
ghost use Rattle.jk_model.specs.declared.identifiers.ClassId.{ClassId as AClassId};
ghost use Rattle.jk_model_classes.specs.Worlds.{WorldRecord};
ghost use Rattle.jk_model_domains.specs.declared.states.ClassState.TheVariants as State;
ghost use Rattle.jk_model_domains.specs.OwnStates.{HasState, with_state};
ghost use Rattle.jk_model_frames.specs.Frames.{FrameState as AFrame};
ghost use Rattle.jk_model_running.specs.Initialising.{IsReady};
ghost use Rattle.jk_model_sharing.specs.SharedStates.{SharedState};
ghost use Rattle.frame_store.specs.FrameContents.{HasTop, Pops, SetsTop, TopFrame};
ghost use Rattle.object_store.specs.HeapContents.{HeapContent};
ghost use Rattle.class_init.specs.KeptStates.{KeptState};
ghost use Rattle.step_contents.specs.Contents.{contents_of, here_at};
ghost use Rattle.segment_steps.specs.ActingSegments.{MayAct};
ghost use Rattle.segment_steps.specs.StepsAlone.{Steps};

use crate::meeting::Runs;
use crate::raising::raise_here;
use crate::went::Went;
use class_init::Own;
use domain_resolver::World;
use frame_store::FrameStore;
use heap_ops::set_constants;
use jk_model::{ClassId, FrameHead, NoRoom, Raise, SegmentNo, Standing};
use jk_model_domains::ClassState;
use object_store::ObjectStore;

/// The need falls of a top frame with this head, whose class is ready. A frame that initialises a class sets the constant texts of that class
/// first, or raises an OutOfMemoryError where they don't fit together.
#[inline(never)]
pub(crate) fn fall<H: ObjectStore, F: FrameStore>(
    w: &World,
    heap: &mut H,
    frames: &mut F,
    own: &mut Own,
    r: Runs,
    head: &FrameHead,
) -> Went
    requires may { (shared : SharedState)
        × MayAct (contents_of (H.content heap.old) (F.content frames.old) own.old) (here_at w.now shared r.domain r.segment) }
    requires top { (f : AFrame) × TopFrame (F.content frames.old) r.segment f × (head.now ≡ f.head) }
    requires ready { (k : AClassId) × (head.now.need ≡ Some k) × IsReady own.old.state r.thread k }
    ensures { (shared : SharedState) → Steps (contents_of (H.content heap.old) (F.content frames.old) own.old)
        (contents_of (H.content heap.new) (F.content frames.new) own.new) (here_at w.now shared r.domain r.segment) r.thread result }
{
    match head.initialises {
        Some(c) => begin_initialiser(w, heap, frames, own, r, head, c),
        None => forget_need(frames, r, head),
    }
}

/// The need falls of a top frame with this head that initialises no class: it goes on where it stands.
fn forget_need<F: FrameStore>(frames: &mut F, r: Runs, head: &FrameHead) -> Went
    requires top { (f : AFrame) × TopFrame (F.content frames.old) r.segment f × (head.now ≡ f.head) }
    requires plain { head.now.initialises ≡ None }
    ensures { (heaps : HeapContent) (own : KeptState) (world : WorldRecord) (shared : SharedState) (c : AClassId) → head.now.need ≡ Some c
        → IsReady own.state r.thread c → Steps (contents_of heaps (F.content frames.old) own) (contents_of heaps (F.content frames.new) own)
        (here_at world shared r.domain r.segment) r.thread result }
{
    frames.go(r.segment, head.at, None);
    Went::GoesOn
}

/// The need falls of a top frame with this head that initialises class c, whose constant texts are set then: the frame goes on where it
/// stands; or it has no code, and the class is done and the frame gone. Where the texts don't fit together nothing is made, and an
/// OutOfMemoryError is raised while the need still stands.
fn begin_initialiser<H: ObjectStore, F: FrameStore>(
    w: &World,
    heap: &mut H,
    frames: &mut F,
    own: &mut Own,
    r: Runs,
    head: &FrameHead,
    c: ClassId,
) -> Went
    requires may { (shared : SharedState)
        × MayAct (contents_of (H.content heap.old) (F.content frames.old) own.old) (here_at w.now shared r.domain r.segment) }
    requires top { (f : AFrame) × TopFrame (F.content frames.old) r.segment f × (head.now ≡ f.head) }
    requires class { head.now.initialises ≡ Some c }
    requires ready { (k : AClassId) × (head.now.need ≡ Some k) × IsReady own.old.state r.thread k }
    ensures { (shared : SharedState) → Steps (contents_of (H.content heap.old) (F.content frames.old) own.old)
        (contents_of (H.content heap.new) (F.content frames.new) own.new) (here_at w.now shared r.domain r.segment) r.thread result }
{
    match set_constants(heap, own, w, r.domain, c) {
        Ok(()) => {
            end_need(own, frames, r.segment, head, c);
            Went::GoesOn
        }
        Err(NoRoom) => {
            let raise = Raise::Standing(Standing::OutOfMemoryError);
            raise_here(w, heap, frames, own, r, raise)
        }
    }
}

/// What becomes of the top frame, with this head, which initialises a class whose constant texts are set.
fn end_need<F: FrameStore>(
    own: &mut Own,
    frames: &mut F,
    s: SegmentNo,
    head: &FrameHead,
    c: ClassId,
)
    requires top { HasTop (F.content frames.old) s }
    requires state { HasState own.old.state c }
    ensures code { head.now.method ≢ None → (own.new ≡ own.old) × ((f : AFrame) → TopFrame (F.content frames.old) s f
        → SetsTop (F.content frames.old) (F.content frames.new) s (record f { head = record f.head { at = head.now.at; need = None } })) }
    ensures none { head.now.method ≡ None → (own.new ≡ record own.old { state = with_state own.old.state c State.Done })
        × Pops (F.content frames.old) (F.content frames.new) s }
{
    match head.method {
        Some(_) => frames.go(s, head.at, None),
        None => {
            own.set_state(c, ClassState::Done);
            frames.pop(s);
        }
    }
}
