//! Hands a frame to the places to which a jump or a switch leads.

ghost use Rattle.std.specs.Prelude.{◌≡◌, ◌≤◌, ℕ, ℤ, pos, false, IfOk, IsTrue, Some, length, slice_get};
ghost use Rattle.jk_model.specs.declared.instructions.SwitchCase.{SwitchCase as ACase};
ghost use Rattle.jk_model_classes.specs.MemberCode.{LeadsTo};
ghost use Rattle.jk_model_typing.specs.FrameTypes.{IsFrameOf};
ghost use Rattle.type_verifier.specs.Climbs.{FitsBut};
ghost use Rattle.type_verifier.specs.Progress.{Moves, notes_of};
ghost use Rattle.type_verifier.specs.Tasks.{HasNoTyping, scope_in};
ghost use Rattle.type_verifier.specs.Walking.{FitsTarget, IsReady, IsTarget};

use crate::leading::is_branch;
use crate::progress::{Progress, raise_at};
use crate::ranges::LocalRange;
use crate::tasks::Task;
use jk_model::{Instr, OutOfMemory, SwitchCase};
use jk_model_typing::FrameType;
use type_frames::FrameRef;

/// Hands the frame that an instruction leaves to wherever it leads other than to the next place; false where one of these
/// places can't have a frame, and so there is no typing. Of the locals only those in the range may differ from what was handed there
/// before.
pub(crate) fn jump_on(
    progress: &mut Progress,
    task: &Task<'_>,
    i: &Instr,
    frame: &FrameType,
    range: LocalRange,
) -> Result<bool, OutOfMemory>
    requires ready { IsReady task.now progress.old.frames.items }
    requires sized { IsFrameOf (scope_in task.now).code frame.now }
    requires within { range.end ≤ length frame.now.locals }
    requires outside { (n : ℕ) → LeadsTo i.now (pos n)
        → FitsBut (scope_in task.now) progress.old.frames.items n range.first range.end frame.now.locals }
    requires targets { (next : ℤ) → LeadsTo i.now next → IsTarget task.now next frame.now }
    ensures ready { IfOk result (λ yes. IsTrue yes → IsReady task.now progress.new.frames.items) }
    ensures moves { IfOk result (λ yes. IsTrue yes
        → Moves (scope_in task.now) progress.old.frames.items (notes_of progress.old) progress.new.frames.items (notes_of progress.new)) }
    ensures fit { IfOk result (λ yes. IsTrue yes
        → (next : ℤ) → LeadsTo i.now next → FitsTarget (scope_in task.now) progress.new.frames.items next frame.now) }
    ensures none { IfOk result (λ yes. yes ≡ false → HasNoTyping task.now) }
{
    if !cases_on(progress, task, i.cases.as_slice(), frame, range)? {
        return Ok(false);
    }
    if !is_branch(i.op) {
        return Ok(true);
    }
    go_to(progress, task, i.a, frame, range)
}

/// Hands a frame to the places of all cases of a switch.
fn cases_on(
    progress: &mut Progress,
    task: &Task<'_>,
    cases: &[SwitchCase],
    frame: &FrameType,
    range: LocalRange,
) -> Result<bool, OutOfMemory>
    requires ready { IsReady task.now progress.old.frames.items }
    requires sized { IsFrameOf (scope_in task.now).code frame.now }
    requires within { range.end ≤ length frame.now.locals }
    requires outside { (k n : ℕ) (case : ACase) → slice_get cases.now k ≡ Some case → case.target ≡ pos n
        → FitsBut (scope_in task.now) progress.old.frames.items n range.first range.end frame.now.locals }
    requires targets { (k : ℕ) (case : ACase) → slice_get cases.now k ≡ Some case → IsTarget task.now case.target frame.now }
    ensures ready { IfOk result (λ yes. IsTrue yes → IsReady task.now progress.new.frames.items) }
    ensures moves { IfOk result (λ yes. IsTrue yes
        → Moves (scope_in task.now) progress.old.frames.items (notes_of progress.old) progress.new.frames.items (notes_of progress.new)) }
    ensures fit { IfOk result (λ yes. IsTrue yes → (k : ℕ) (case : ACase) → slice_get cases.now k ≡ Some case
        → FitsTarget (scope_in task.now) progress.new.frames.items case.target frame.now) }
    ensures none { IfOk result (λ yes. yes ≡ false → HasNoTyping task.now) }
{
    for case in cases {
        if !go_to(progress, task, target_of(case), frame, range)? {
            return Ok(false);
        }
    }
    Ok(true)
}

/// Where a case leads.
fn target_of(case: &SwitchCase) -> i32
    ensures { result ≡ case.now.target }
{
    case.target
}

/// Hands a frame to the place of a target; false where there is no such place, or it can't have a frame.
fn go_to(
    progress: &mut Progress,
    task: &Task<'_>,
    target: i32,
    frame: &FrameType,
    range: LocalRange,
) -> Result<bool, OutOfMemory>
    requires ready { IsReady task.now progress.old.frames.items }
    requires sized { IsFrameOf (scope_in task.now).code frame.now }
    requires within { range.end ≤ length frame.now.locals }
    requires outside { (n : ℕ) → target ≡ pos n
        → FitsBut (scope_in task.now) progress.old.frames.items n range.first range.end frame.now.locals }
    requires target { IsTarget task.now target frame.now }
    ensures ready { IfOk result (λ yes. IsTrue yes → IsReady task.now progress.new.frames.items) }
    ensures moves { IfOk result (λ yes. IsTrue yes
        → Moves (scope_in task.now) progress.old.frames.items (notes_of progress.old) progress.new.frames.items (notes_of progress.new)) }
    ensures fits { IfOk result (λ yes. IsTrue yes → FitsTarget (scope_in task.now) progress.new.frames.items target frame.now) }
    ensures none { IfOk result (λ yes. yes ≡ false → HasNoTyping task.now) }
{
    if target < 0 {
        return Ok(false);
    }
    let place = target as usize;
    if place >= task.leads.len() {
        return Ok(false);
    }
    let from = FrameRef {
        locals: frame.locals.as_slice(),
        stack: frame.stack.as_slice(),
        fresh: frame.fresh,
    };
    raise_at(progress, task, place, from, range.first, range.end)
}
