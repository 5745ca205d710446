//! A store with one segment of one frame: how it is made, and what is read of it.

ghost use Rattle.std.specs.Prelude.{◌≡◌, IfOk, None};
ghost use Rattle.jk_model.specs.declared.identifiers.DomainId.{DomainId as ADomain};
ghost use Rattle.jk_model.specs.declared.identifiers.SegmentNo.{SegmentNo as ASegment};
ghost use Rattle.jk_model_frames.specs.Frames.{FrameState};
ghost use Rattle.frame_store.specs.FrameContents.{HasTop, TopFrame};
ghost use Rattle.number_check.specs.RunFrames.{IsBegun};

use frame_store::FrameStore;
use jk_model::{DomainId, FrameHead, List, OutOfMemory, SegmentNo, Value};
use std::alloc::Global;
use std::process::Abort;

/// The domain of the segment.
const DOMAIN: DomainId = DomainId(0);

pub(crate) const SEGMENT: SegmentNo = SegmentNo(1);

/// How many chunks the domain may use.
const CHUNKS: u32 = 64;

/// Begins the segment with a frame.
pub(crate) fn begin<F: FrameStore>(rt: &impl Abort, frames: &mut F, head: FrameHead)
    requires domains { (d : ADomain) → (F.content frames.old).quota d ≡ None }
    requires segments { (s : ASegment) → (F.content frames.old).segment s ≡ None }
    ensures { IsBegun (F.content frames.new) SEGMENT head }
{
    match frames.admit(DOMAIN, CHUNKS) {
        Ok(()) => {}
        Err(_) => panic!(rt; "no room for a domain"),
    }
    match frames.begin(DOMAIN, SEGMENT, head) {
        Ok(()) => {}
        Err(_) => panic!(rt; "no room for a frame"),
    }
}

/// Puts these values into the first locals.
pub(crate) fn put_locals<F: FrameStore>(
    rt: &impl Abort,
    frames: &mut F,
    head: FrameHead,
    values: &[Value],
)
    requires { IsBegun (F.content frames.old) SEGMENT head }
    ensures { IsBegun (F.content frames.new) SEGMENT head }
{
    assert!(rt; values.len() <= usize::from(head.max_locals));
    for (i, v) in values.iter().enumerate() {
        frames.set_local(SEGMENT, i as u16, *v);
    }
}

/// What the locals have, one for each slot.
pub(crate) fn locals_of<F: FrameStore>(
    alloc: Global,
    frames: &F,
) -> Result<List<Value>, OutOfMemory>
    requires { HasTop (F.content frames.now) SEGMENT }
    ensures { IfOk result (λ values. (f : FrameState) → TopFrame (F.content frames.now) SEGMENT f → values ≡ f.locals) }
{
    let head = frames.head(SEGMENT);
    let mut values = List::new(alloc);
    for i in 0..head.max_locals {
        values.push(frames.local(SEGMENT, i))?;
    }
    Ok(values)
}

/// What the operand stack has, the top entry last.
pub(crate) fn stack_of<F: FrameStore>(alloc: Global, frames: &F) -> Result<List<Value>, OutOfMemory>
    requires { HasTop (F.content frames.now) SEGMENT }
{
    let height = frames.height(SEGMENT);
    let mut values = List::new(alloc);
    for i in 0..height {
        values.push(frames.peek(SEGMENT, height - 1 - i))?;
    }
    Ok(values)
}
