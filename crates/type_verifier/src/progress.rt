//! The frames that leaders have so far, and the places that are still to be looked at.

ghost use Rattle.std.specs.Prelude.{◌≡◌, ◌≤◌, false, IfNone, IfOk, IfSome, IsTrue, List, None, Option, Some, length};
ghost use Rattle.jk_model_typing.specs.declared.frames.FrameType.{FrameType as AFrame};
ghost use Rattle.jk_model_typing.specs.FrameTypes.{IsFrameOf};
ghost use Rattle.jk_model_typing.specs.Typing.{FitsAt, FrameAt};
ghost use Rattle.type_frames.specs.FrameJoins.{FitOutside};
ghost use Rattle.type_frames.specs.FrameViews.{seen};
ghost use Rattle.type_verifier.specs.Leaders.{Leads};
ghost use Rattle.type_verifier.specs.Progress.{AreFrames, Moves, notes_of};
ghost use Rattle.type_verifier.specs.Ranges.{IsWithin};
ghost use Rattle.type_verifier.specs.Rises.{CannotRise, RisesTo};
ghost use Rattle.type_verifier.specs.Tasks.{HasNoTyping, IsTask, TypesTask, scope_in};

use crate::narrowing::narrowed;
use crate::ranges::{LocalRange, hull, note, range_at};
use crate::tasks::Task;
use class_table::ClassTable;
use jk_model::{List, OutOfMemory};
use jk_model_typing::{FrameType, VType};
use std::alloc::Global;
use std::collections::BTreeSet;
use type_frames::FrameRef;

/// The frames of leaders, by place, and the places whose frames rose since they were looked at.
#[derive(Drop)]
pub(crate) struct Progress {
    pub alloc: Global,
    /// One for each place; none where control hasn't come yet, and where there is no leader.
    pub frames: Vec<Option<FrameType>>,
    pub work: BTreeSet<usize>,
    /// For each place the locals of its frame that may have risen since it was looked at.
    pub rose: Vec<LocalRange>,
}

/// Joins a frame into that of a leader, and notes the place where that frame rose; false where there is no frame that
/// both fit, and so no typing. Of the locals only those from `first` up to `end` are looked at: at the others they fit
/// the leader's already, where it has a frame. Only those that don't fit, and what lies between them, are joined and noted.
pub(crate) fn raise_at(
    progress: &mut Progress,
    task: &Task<'_>,
    place: usize,
    from: FrameRef<'_>,
    first: usize,
    end: usize,
) -> Result<bool, OutOfMemory>
    requires task { IsTask task.now }
    requires frames { AreFrames task.now progress.old.frames.items }
    requires leader { Leads task.now.leads.items place }
    requires sized { IsFrameOf (scope_in task.now).code (seen from) }
    requires within { end ≤ length (seen from).locals }
    requires outside { (f : AFrame) → FrameAt progress.old.frames.items place f
        → FitOutside (scope_in task.now).classes first end (seen from).locals f.locals }
    requires below { (typing : List (Option AFrame)) → TypesTask task.now typing
        → FitsAt (scope_in task.now) typing place (seen from) }
    ensures frames { IfOk result (λ yes. IsTrue yes → AreFrames task.now progress.new.frames.items) }
    ensures moves { IfOk result (λ yes. IsTrue yes
        → Moves (scope_in task.now) progress.old.frames.items (notes_of progress.old) progress.new.frames.items (notes_of progress.new)) }
    ensures fits { IfOk result (λ yes. IsTrue yes → FitsAt (scope_in task.now) progress.new.frames.items place (seen from.entry)) }
    ensures none { IfOk result (λ yes. yes ≡ false → HasNoTyping task.now) }
{
    task.view.table.ordered();
    let t = task.view.table;
    let known = range_at(progress.rose.as_slice(), place);
    let slot = &mut progress.frames[place];
    let looked = rising(t, slot, from.locals, LocalRange { first, end });
    let range = risen(slot, known, looked, from.locals.len());
    let rise = raise_slot(progress.alloc, t, slot, from, looked.first, looked.end)?;
    let Some(rose) = rise else {
        return Ok(false);
    };
    if rose {
        note(&mut progress.rose, place, range);
        progress.work.insert(place)?;
    }
    Ok(true)
}

/// Of a range the least part with all locals that don't fit those of the frame at a place; the range where it has none.
fn rising(
    t: &ClassTable,
    slot: &Option<FrameType>,
    locals: &[VType],
    range: LocalRange,
) -> LocalRange
    requires length { (f : AFrame) → slot.now ≡ Some f → length f.locals ≡ length locals.now }
    requires within { range.end ≤ length locals.now }
    requires outside { (f : AFrame) → slot.now ≡ Some f → FitOutside t.now range.first range.end locals.now f.locals }
    ensures within { result.end ≤ length locals.now }
    ensures outside { (f : AFrame) → slot.now ≡ Some f → FitOutside t.now result.first result.end locals.now f.locals }
{
    match slot {
        Some(frame) => narrowed(t, locals, frame.locals.as_slice(), range),
        None => range,
    }
}

/// The locals in which a frame that rises may differ from what was looked at; all of a first frame.
fn risen(
    slot: &Option<FrameType>,
    known: LocalRange,
    looked: LocalRange,
    count: usize,
) -> LocalRange
    ensures first { slot.now ≡ None → (result.first ≡ 0) × (result.end ≡ count) }
    ensures known { (f : AFrame) → slot.now ≡ Some f → IsWithin known result }
    ensures looked { (f : AFrame) → slot.now ≡ Some f → IsWithin looked result }
{
    match slot {
        Some(_frame) => hull(known, looked),
        None => LocalRange {
            first: 0,
            end: count,
        },
    }
}

/// Joins a frame into one that may be there, and says whether that changed; none where there is no frame that both fit.
fn raise_slot(
    alloc: Global,
    t: &ClassTable,
    slot: &mut Option<FrameType>,
    from: FrameRef<'_>,
    first: usize,
    end: usize,
) -> Result<Option<bool>, OutOfMemory>
    requires length { (f : AFrame) → slot.old ≡ Some f → length f.locals ≡ length (seen from).locals }
    requires within { end ≤ length (seen from).locals }
    requires outside { (f : AFrame) → slot.old ≡ Some f → FitOutside t.now first end (seen from).locals f.locals }
    ensures none { IfOk result (λ o. IfNone o (CannotRise t.now slot.old (seen from.entry))) }
    ensures rises { IfOk result (λ o. IfSome o (λ rose. RisesTo t.now slot.old (seen from.entry) rose slot.new)) }
{
    match slot {
        Some(frame) => Ok(type_frames::raise(t, frame, from, first, end)),
        empty => {
            *empty = Some(FrameType {
                locals: List::from_slice(alloc, from.locals)?,
                stack: List::from_slice(alloc, from.stack)?,
                fresh: from.fresh,
            });
            Ok(Some(true))
        }
    }
}
