//! Returns.

ghost use Rattle.std.specs.Prelude.{◌≡◌, List as AList};
ghost use Rattle.jk_model_frames.specs.Frames.{FrameState as AFrame};
ghost use Rattle.jk_model_heaps.specs.Workings.{Setting, Working as AWorking};
ghost use Rattle.object_store.specs.HeapContents.{HeapContent};
ghost use Rattle.step_contents.specs.Contents.{Here as AHere, contents_of};
ghost use Rattle.segment_steps.specs.Returning.{HasReturned, MayReturn, PaysFrames};

use crate::went::Went;
use class_init::Own;
use frame_store::SegmentFrames;
use jk_model::{FrameHead, SegmentNo, Value};
use jk_model_domains::ClassState;

/// The top frame of a segment, which has this head, returns, and is gone. The frame below goes on after its call; where a class was
/// initialised, it is done, and the frame below stands where it stood. Where no frame is left, the value is the segment's.
pub(crate) fn give_back<F: SegmentFrames>(
    own: &mut Own,
    frames: &mut F,
    s: SegmentNo,
    head: &FrameHead,
    v: Option<Value>,
) -> Went
    requires may { (heaps : HeapContent) × (here : AHere) × (callers : AList AFrame) × (w : AWorking) × (here.segment ≡ s) × (w.frame.head ≡ head.now)
        × MayReturn (contents_of heaps (F.content frames.old) own.old) here callers w v }
    requires paid { PaysFrames (F.content frames.old) s }
    ensures { (x : Setting) (heaps : HeapContent) (here : AHere) (callers : AList AFrame) (w : AWorking) → here.segment ≡ s → w.frame.head ≡ head.now
        → MayReturn (contents_of heaps (F.content frames.old) own.old) here callers w v
        → HasReturned x (contents_of heaps (F.content frames.old) own.old) (contents_of heaps (F.content frames.new) own.new) here callers w v
        result }
{
    if let Some(c) = head.initialises {
        frames.pop(s);
        own.set_state(c, ClassState::Done);
        return Went::GoesOn;
    }
    if frames.depth(s) == 1 {
        frames.pop(s);
        return Went::Returned(v);
    }
    frames.give_back(s, v);
    Went::GoesOn
}
