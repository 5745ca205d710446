//! Makes the typing of all places from the frames of leaders.

ghost use Rattle.std.specs.Prelude.{[], ◌≡◌, ◌<◌, ◌^◌, IfOk, List as AList, Option as Maybe, Some, length, slice_get};
ghost use Rattle.jk_model_typing.specs.declared.frames.FrameType.{FrameType as AFrame};
ghost use Rattle.jk_model_typing.specs.Typing.{FitsAt, IsStart};
ghost use Rattle.type_rows.specs.CodeViews.{scope_of};
ghost use Rattle.touched_locals.specs.TypingsIn.{IsLeastTypingIn};
ghost use Rattle.type_verifier.specs.Leaders.{Leads};
ghost use Rattle.type_verifier.specs.Progress.{AreFrames};
ghost use Rattle.type_verifier.specs.Settling.{AreSettled};
ghost use Rattle.type_verifier.specs.Tasks.{IsTask, scope_in};
ghost use Rattle.type_verifier.specs.Unrolling.{Leaves, MayBegin};

use crate::tasks::Task;
use jk_model::{Instr, List, OutOfMemory};
use jk_model_typing::{FrameType, Typing};
use std::alloc::Global;
use type_rows::{CodeView, leaves_line, step};

/// The typing that the frames of leaders give where all are settled: a leader has its own frame, and any other place what the
/// line before leaves. It takes time and memory in proportion to the typing.
pub(crate) fn unroll(
    alloc: Global,
    task: &Task<'_>,
    frames: &[Option<FrameType>],
) -> Result<Typing, OutOfMemory>
    requires task { IsTask task.now }
    requires frames { AreFrames task.now frames.now }
    requires settled { AreSettled (scope_in task.now) task.now.leads.items frames.now [] }
    requires start { (f : AFrame) × IsStart (scope_in task.now) f × FitsAt (scope_in task.now) frames.now 0 f }
    ensures { IfOk result (λ t. IsLeastTypingIn (scope_in task.now) t.frames) }
{
    task.view.table.ordered();
    let mut typed = List::new(alloc);
    let mut line = None;
    for (place, i) in task.view.code.instrs.as_slice().iter().enumerate() {
        let frame = begins(task, frames, place, line)?;
        line = left_by(&task.view, place, i, &frame)?;
        typed.push(frame)?;
    }
    Ok(Typing { frames: typed })
}

/// A frame's copy.
pub(crate) fn copied(f: &FrameType) -> Result<FrameType, OutOfMemory>
    ensures { IfOk result (λ g. g ≡ f.now) }
{
    Ok(FrameType {
        locals: f.locals.copied()?,
        stack: f.stack.copied()?,
        fresh: f.fresh,
    })
}

/// What a place begins with: the leader's own frame, else what the line before leaves.
fn begins(
    task: &Task<'_>,
    frames: &[Option<FrameType>],
    place: usize,
    line: Option<FrameType>,
) -> Result<Option<FrameType>, OutOfMemory>
    requires leads { place < length task.now.leads.items }
    requires frames { place < length frames.now }
    ensures leader { IfOk result (λ frame. Leads task.now.leads.items place → slice_get frames.now place ≡ Some frame) }
    ensures other { IfOk result (λ frame. (Leads task.now.leads.items place → ⊥) → frame ≡ line) }
{
    if !task.leads[place] {
        return Ok(line);
    }
    match &frames[place] {
        Some(frame) => Ok(Some(copied(frame)?)),
        None => Ok(None),
    }
}

/// What the place after an instruction begins with that began with this frame, where control comes there from it alone.
fn left_by(
    view: &CodeView<'_>,
    place: usize,
    i: &Instr,
    frame: &Option<FrameType>,
) -> Result<Option<FrameType>, OutOfMemory>
    requires short { place < 2 ^ 32 }
    requires begins { MayBegin (scope_of view.now) place i.now frame.now }
    ensures { IfOk result (λ left. Leaves (scope_of view.now) place i.now frame.now left) }
{
    match frame {
        Some(before) if !leaves_line(i.op) => {
            let mut after = copied(before)?;
            if !step(view, place as u32, i, &mut after)? {
                unreachable!()
            }
            Ok(Some(after))
        }
        _ => Ok(None),
    }
}
