//! The verifier.

ghost use Rattle.std.specs.Prelude.{◌≡◌, ◌<◌, ◌^◌, Bool, false, IfNone, IfOk, IfSome, IsTrue, List, Option, None as NoFrame, [], length, replicate};
ghost use Rattle.jk_model_classes.specs.Classes.{AreOrdered};
ghost use Rattle.jk_model_typing.specs.declared.frames.FrameType.{FrameType as AFrame};
ghost use Rattle.jk_model_typing.specs.FrameTypes.{IsFrameOf};
ghost use Rattle.jk_model_typing.specs.Scopes.{CodeScope, IsScopeOf};
ghost use Rattle.jk_model_typing.specs.Typing.{FitsAt, IsLeastTyping, IsStart, IsTyping};
ghost use Rattle.touched_locals.specs.Narrowing.{IsNarrowed, with_code};
ghost use Rattle.touched_locals.specs.TypingsIn.{IsLeastTypingIn, IsTypingIn};
ghost use Rattle.type_rows.specs.CodeViews.{scope_of};
ghost use Rattle.type_verifier.specs.Covers.{Nodes};
ghost use Rattle.type_verifier.specs.Known.{AreKnown};
ghost use Rattle.type_verifier.specs.Progress.{AreFrames};
ghost use Rattle.type_verifier.specs.SettledCodes.{IsSettledIn};
ghost use Rattle.type_verifier.specs.Settling.{AreSettled};
ghost use Rattle.type_verifier.specs.Tasks.{HasNoTyping, IsTask, scope_in};

use crate::handing::unseen;
use crate::leading::leaders;
use crate::progress::{Progress, raise_at};
use crate::ranges::{LocalRange, no_locals, note, range_at};
use crate::tasks::Task;
use crate::unrolling::unroll;
use crate::visiting::visit;
use class_table::ClassTable;
use handler_cover::CoverTree;
use jk_model::{MemberId, OutOfMemory};
use jk_model_classes::LinkedCode;
use jk_model_typing::{FrameType, Typing};
use std::alloc::Global;
use std::collections::BTreeSet;
use touched_locals::narrow_code;
use type_frames::FrameRef;
use type_rows::{CodeView, start_frame};

/// A code whose leaders' frames are all settled.
#[derive(Drop)]
struct SettledCode<'a> {
    task: Task<'a>,
    frames: Vec<Option<FrameType>>,
}

/// More locals than this are narrowed to those that the code can touch before it is gone over.
const FEW_LOCALS: u16 = 64;

/// The least typing of a method's code; none exactly where it has no typing, and where there is no such method or it has no
/// code.
pub fn verify(
    alloc: Global,
    t: &ClassTable,
    method: MemberId,
) -> Result<Option<Typing>, OutOfMemory>
    requires short { (s : CodeScope) → IsScopeOf t.now method s → length s.code.instrs < 2 ^ 32 }
    ensures typing { IfOk result (λ o. IfSome o (λ y. IsLeastTyping t.now method y.frames)) }
    ensures none { IfOk result (λ o. IfNone o ((frames : List (Option AFrame)) → IsTyping t.now method frames → ⊥)) }
{
    let Some(view) = CodeView::of(t, method) else {
        return Ok(None);
    };
    let Some(code) = settled_code(alloc, view)? else {
        return Ok(None);
    };
    let typing = unroll(alloc, &code.task, code.frames.as_slice())?;
    Ok(Some(typing))
}

/// Whether a method's code has a typing, and so a least one; no where there is no such method or it has no code. No list of
/// it is made, and of many locals only those are looked at that the code can touch.
pub fn has_typing(alloc: Global, t: &ClassTable, method: MemberId) -> Result<bool, OutOfMemory>
    requires short { (s : CodeScope) → IsScopeOf t.now method s → length s.code.instrs < 2 ^ 32 }
    ensures typed { IfOk result (λ yes. IsTrue yes → (frames : List (Option AFrame)) × IsLeastTyping t.now method frames) }
    ensures none { IfOk result (λ yes. yes ≡ false → (frames : List (Option AFrame)) → IsTyping t.now method frames → ⊥) }
{
    let Some(view) = CodeView::of(t, method) else {
        return Ok(false);
    };
    is_typed_by_touched(alloc, view)
}

/// Whether a code has a typing, asked of the locals that it can touch where it has many.
fn is_typed_by_touched(alloc: Global, view: CodeView<'_>) -> Result<bool, OutOfMemory>
    requires short { length view.code.now.instrs < 2 ^ 32 }
    ensures typed { IfOk result (λ yes. IsTrue yes → (frames : List (Option AFrame)) × IsLeastTypingIn (scope_of view.entry) frames) }
    ensures none { IfOk result (λ yes. yes ≡ false → (frames : List (Option AFrame)) → IsTypingIn (scope_of view.entry) frames → ⊥) }
{
    match touched_code(alloc, &view)? {
        Some(code) => is_typed(alloc, over(view, &code)),
        None => is_typed(alloc, view),
    }
}

/// A code of many locals over those that it can touch; none where it has few, and where it isn't narrowed.
fn touched_code(alloc: Global, view: &CodeView<'_>) -> Result<Option<LinkedCode>, OutOfMemory>
    ensures { IfOk result (λ o. IfSome o (λ code. (marks : List Bool) × IsNarrowed (scope_of view.now) marks code)) }
{
    if view.code.max_locals <= FEW_LOCALS {
        return Ok(None);
    }
    narrow_code(alloc, view.code, view.method)
}

/// The same method with another code.
fn over<'a>(view: CodeView<'a>, code: &'a LinkedCode) -> CodeView<'a>
    ensures { scope_of result ≡ with_code (scope_of view.entry) code.now }
{
    CodeView {
        table: view.table,
        class: view.class,
        links: view.links,
        method: view.method,
        code,
    }
}

/// Whether a code has a typing.
fn is_typed(alloc: Global, view: CodeView<'_>) -> Result<bool, OutOfMemory>
    requires short { length view.code.now.instrs < 2 ^ 32 }
    ensures typed { IfOk result (λ yes. IsTrue yes → (frames : List (Option AFrame)) × IsLeastTypingIn (scope_of view.entry) frames) }
    ensures none { IfOk result (λ yes. yes ≡ false → (frames : List (Option AFrame)) → IsTypingIn (scope_of view.entry) frames → ⊥) }
{
    view.table.ordered();
    let Some(_code) = settled_code(alloc, view)? else {
        return Ok(false);
    };
    Ok(true)
}

/// A code with the frames of its leaders, all of which are settled; none where it has no typing.
fn settled_code<'a>(
    alloc: Global,
    view: CodeView<'a>,
) -> Result<Option<SettledCode<'a>>, OutOfMemory>
    requires short { length view.code.now.instrs < 2 ^ 32 }
    ensures none { IfOk result (λ o. IfNone o ((frames : List (Option AFrame)) → IsTypingIn (scope_of view.entry) frames → ⊥)) }
    ensures some { IfOk result (λ o. IfSome o (λ c. IsSettledIn (scope_of view.entry) c)) }
{
    let Some(start) = start_frame(alloc, &view)? else {
        return Ok(None);
    };
    let task = task_of(alloc, view)?;
    let Some(frames) = settled_frames(alloc, &task, &start)? else {
        return Ok(None);
    };
    Ok(Some(SettledCode { task, frames }))
}

/// What is known of a code before it is gone over.
fn task_of<'a>(alloc: Global, view: CodeView<'a>) -> Result<Task<'a>, OutOfMemory>
    requires short { length view.code.now.instrs < 2 ^ 32 }
    ensures task { IfOk result (λ task. IsTask task) }
    ensures same { IfOk result (λ task. task.view ≡ view.entry) }
{
    let leads = leaders(alloc, view.code)?;
    let tree = CoverTree::new(alloc, view.code.instrs.len(), view.code.handlers.as_slice())?;
    Ok(Task { view, leads, tree })
}

/// The frames of leaders, all of which are settled, and the start frame fits that of the first place; none where there is no
/// typing. The place that is looked at is the least one whose frame rose.
fn settled_frames(
    alloc: Global,
    task: &Task<'_>,
    start: &FrameType,
) -> Result<Option<Vec<Option<FrameType>>>, OutOfMemory>
    requires task { IsTask task.now }
    requires start { IsStart (scope_in task.now) start.now }
    requires sized { IsFrameOf (scope_in task.now).code start.now }
    ensures none { IfOk result (λ o. IfNone o (HasNoTyping task.now)) }
    ensures frames { IfOk result (λ o. IfSome o (λ frames. AreFrames task.now frames.items)) }
    ensures settled { IfOk result (λ o. IfSome o (λ frames. AreSettled (scope_in task.now) task.now.leads.items frames.items [])) }
    ensures first { IfOk result (λ o. IfSome o (λ frames. FitsAt (scope_in task.now) frames.items 0 start.now)) }
{
    task.view.table.ordered();
    let Some(mut progress) = begun(alloc, task, start)? else {
        return Ok(None);
    };
    let mut nodes = unseen(alloc, task)?;
    while let Some(place) = progress.work.pop_first() {
        let range = range_at(progress.rose.as_slice(), place);
        note(&mut progress.rose, place, no_locals());
        if !visit(&mut progress, &mut nodes, task, place, range)? {
            return Ok(None);
        }
    }
    Ok(Some(progress.frames))
}

/// No frames but that of the first place, which the start frame fits; none where it can't have a frame.
fn begun(alloc: Global, task: &Task<'_>, start: &FrameType) -> Result<Option<Progress>, OutOfMemory>
    requires task { IsTask task.now }
    requires ordered { AreOrdered (scope_in task.now).classes }
    requires start { IsStart (scope_in task.now) start.now }
    requires sized { IsFrameOf (scope_in task.now).code start.now }
    ensures none { IfOk result (λ o. IfNone o (HasNoTyping task.now)) }
    ensures frames { IfOk result (λ o. IfSome o (λ p. AreFrames task.now p.frames.items)) }
    ensures settled { IfOk result (λ o. IfSome o (λ p. AreSettled (scope_in task.now) task.now.leads.items p.frames.items p.work.keys)) }
    ensures known { (nodes : Nodes) → IfOk result (λ o. IfSome o (λ p.
        AreKnown (scope_in task.now) task.now.leads.items p.frames.items p.rose.items nodes)) }
    ensures ranges { IfOk result (λ o. IfSome o (λ p. length p.rose.items ≡ length (scope_in task.now).code.instrs)) }
    ensures first { IfOk result (λ o. IfSome o (λ p. FitsAt (scope_in task.now) p.frames.items 0 start.now)) }
{
    let places = task.leads.len();
    if places == 0 {
        return Ok(None);
    }
    let mut progress = Progress {
        alloc,
        frames: no_frames(alloc, places)?,
        work: BTreeSet::new(alloc),
        rose: no_ranges(alloc, places)?,
    };
    let from = FrameRef {
        locals: start.locals.as_slice(),
        stack: start.stack.as_slice(),
        fresh: start.fresh,
    };
    if raise_at(&mut progress, task, 0, from, 0, start.locals.len())? {
        Ok(Some(progress))
    } else {
        Ok(None)
    }
}

/// No frame at any place.
fn no_frames(alloc: Global, places: usize) -> Result<Vec<Option<FrameType>>, OutOfMemory>
    ensures { IfOk result (λ frames. frames.items ≡ replicate places NoFrame) }
{
    let mut frames = Vec::new(alloc);
    for _place in 0..places {
        frames.push(None)?;
    }
    Ok(frames)
}

/// No locals at any place.
fn no_ranges(alloc: Global, places: usize) -> Result<Vec<LocalRange>, OutOfMemory>
    ensures { IfOk result (λ ranges. length ranges.items ≡ places) }
{
    let mut ranges = Vec::new(alloc);
    for _place in 0..places {
        ranges.push(no_locals())?;
    }
    Ok(ranges)
}
