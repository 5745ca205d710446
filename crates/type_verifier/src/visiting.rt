//! Goes over the instructions from a leader on, up to the next one.

ghost use Rattle.std.specs.Prelude.{◌≡◌, ◌≢◌, ◌⊎◌, ◌<◌, ◌≤◌, suc, not, false, IfNone, IfOk, IfSome, IsTrue, List as AList, Option as Maybe, length};
ghost use Rattle.jk_model.specs.declared.instructions.Instr.{Instr as AnInstr};
ghost use Rattle.jk_model_typing.specs.declared.frames.FrameType.{FrameType as AFrame};
ghost use Rattle.jk_model_typing.specs.FrameTypes.{IsFrameOf};
ghost use Rattle.jk_model_typing.specs.Typing.{FitsAt, FrameAt, leaves_line};
ghost use Rattle.type_verifier.specs.Climbs.{FitsBut};
ghost use Rattle.type_verifier.specs.Covers.{AreCovers, KeepsSeen, nodes_of};
ghost use Rattle.type_verifier.specs.Known.{AreKnown, AreKnownBut, DiffersIn, IsKnown};
ghost use Rattle.type_verifier.specs.Leaders.{Leads};
ghost use Rattle.type_verifier.specs.Progress.{AreFrames, Moves, notes_of};
ghost use Rattle.type_verifier.specs.Settling.{AreSettled, AreSettledBut, Settles, StepsWell};
ghost use Rattle.type_verifier.specs.Tasks.{HasNoTyping, IsTask, TypesTask, scope_in};
ghost use Rattle.type_verifier.specs.Walking.{IsReady, IsWalking};

use crate::covers::{Handed, Nodes};
use crate::handing::hand_on;
use crate::jumping::jump_on;
use crate::progress::{Progress, raise_at};
use crate::ranges::{LocalRange, clipped, left_by};
use crate::storing::hand_on_stored;
use crate::tasks::Task;
use crate::unrolling::copied;
use jk_model::{Instr, OutOfMemory};
use jk_model_typing::FrameType;
use type_frames::FrameRef;
use type_rows::{leaves_line, step};

/// Where a walk goes after an instruction.
#[derive(Clone, Copy)]
enum Went {
    /// There is no typing.
    Nowhere,
    /// It ends: control leaves the line, or comes to a leader.
    Done,
    /// To the next place, which is no leader.
    On,
}

/// Goes over the instructions from a leader on, and hands on what they leave; false where that shows that there is no typing.
/// Of its locals only those in the range may differ from what was looked at before.
/// After that the leader's frame is settled, unless it rose meanwhile. Where it has no frame there is nothing to do.
pub(crate) fn visit(
    progress: &mut Progress,
    nodes: &mut Nodes,
    task: &Task<'_>,
    leader: usize,
    range: LocalRange,
) -> Result<bool, OutOfMemory>
    requires task { IsTask task.now }
    requires frames { AreFrames task.now progress.old.frames.items }
    requires covers { AreCovers task.now progress.old.frames.items (nodes_of nodes.old) }
    requires settled { AreSettledBut (scope_in task.now) task.now.leads.items progress.old.frames.items progress.old.work.keys leader }
    requires known { (f : AFrame) → FrameAt progress.old.frames.items leader f
        → IsKnown (scope_in task.now) task.now.leads.items progress.old.frames.items (nodes_of nodes.old) leader f range }
    requires others { AreKnownBut (scope_in task.now) task.now.leads.items progress.old.frames.items progress.old.rose.items
        (nodes_of nodes.old) leader }
    ensures frames { IfOk result (λ yes. IsTrue yes → AreFrames task.now progress.new.frames.items) }
    ensures covers { IfOk result (λ yes. IsTrue yes → AreCovers task.now progress.new.frames.items (nodes_of nodes.new)) }
    ensures moves { IfOk result (λ yes. IsTrue yes
        → Moves (scope_in task.now) progress.old.frames.items (notes_of progress.old) progress.new.frames.items (notes_of progress.new)) }
    ensures settled { IfOk result (λ yes. IsTrue yes
        → AreSettled (scope_in task.now) task.now.leads.items progress.new.frames.items progress.new.work.keys) }
    ensures known { IfOk result (λ yes. IsTrue yes → AreKnown (scope_in task.now) task.now.leads.items progress.new.frames.items
        progress.new.rose.items (nodes_of nodes.new)) }
    ensures none { IfOk result (λ yes. yes ≡ false → HasNoTyping task.now) }
{
    task.view.table.ordered();
    match copy_at(progress.frames.as_slice(), leader)? {
        Some(frame) => walk(progress, nodes, task, leader, frame, range),
        None => Ok(true),
    }
}

/// Goes over the instructions from a leader on, with a copy of its frame.
fn walk(
    progress: &mut Progress,
    nodes: &mut Nodes,
    task: &Task<'_>,
    leader: usize,
    mut frame: FrameType,
    range: LocalRange,
) -> Result<bool, OutOfMemory>
    requires ready { IsReady task.now progress.old.frames.items }
    requires covers { AreCovers task.now progress.old.frames.items (nodes_of nodes.old) }
    requires copied { FrameAt progress.old.frames.items leader frame }
    requires settled { AreSettledBut (scope_in task.now) task.now.leads.items progress.old.frames.items progress.old.work.keys leader }
    requires known { IsKnown (scope_in task.now) task.now.leads.items progress.old.frames.items (nodes_of nodes.old) leader frame range }
    requires others { AreKnownBut (scope_in task.now) task.now.leads.items progress.old.frames.items progress.old.rose.items
        (nodes_of nodes.old) leader }
    ensures frames { IfOk result (λ yes. IsTrue yes → AreFrames task.now progress.new.frames.items) }
    ensures covers { IfOk result (λ yes. IsTrue yes → AreCovers task.now progress.new.frames.items (nodes_of nodes.new)) }
    ensures moves { IfOk result (λ yes. IsTrue yes
        → Moves (scope_in task.now) progress.old.frames.items (notes_of progress.old) progress.new.frames.items (notes_of progress.new)) }
    ensures settled { IfOk result (λ yes. IsTrue yes
        → AreSettled (scope_in task.now) task.now.leads.items progress.new.frames.items progress.new.work.keys) }
    ensures known { IfOk result (λ yes. IsTrue yes → AreKnown (scope_in task.now) task.now.leads.items progress.new.frames.items
        progress.new.rose.items (nodes_of nodes.new)) }
    ensures none { IfOk result (λ yes. yes ≡ false → HasNoTyping task.now) }
{
    let mut range = clipped(range, frame.locals.len());
    let at = Handed {
        place: leader,
        locals: frame.locals.as_slice(),
        fresh: frame.fresh,
        first: range.first,
        end: range.end,
    };
    if !hand_on(progress, nodes, task, at)? {
        return Ok(false);
    }
    let mut place = leader;
    loop {
        match go_over(progress, nodes, task, leader, place, &mut frame, &mut range)? {
            Went::Nowhere => return Ok(false),
            Went::Done => return Ok(true),
            Went::On => place += 1,
        }
    }
}

/// A copy of the frame at a place; none where there is no frame.
fn copy_at(frames: &[Option<FrameType>], place: usize) -> Result<Option<FrameType>, OutOfMemory>
    ensures none { IfOk result (λ o. IfNone o ((f : AFrame) → FrameAt frames.now place f → ⊥)) }
    ensures some { IfOk result (λ o. IfSome o (λ f. FrameAt frames.now place f)) }
{
    let Some(Some(frame)) = frames.get(place) else {
        return Ok(None);
    };
    Ok(Some(copied(frame)?))
}

/// Goes over one instruction, which makes of the frame what it leaves.
fn go_over(
    progress: &mut Progress,
    nodes: &mut Nodes,
    task: &Task<'_>,
    leader: usize,
    place: usize,
    frame: &mut FrameType,
    range: &mut LocalRange,
) -> Result<Went, OutOfMemory>
    requires ready { IsReady task.now progress.old.frames.items }
    requires covers { AreCovers task.now progress.old.frames.items (nodes_of nodes.old) }
    requires leader { leader < length (scope_in task.now).code.instrs }
    requires walking { IsWalking task.now progress.old.frames.items (nodes_of nodes.old) leader place frame.old }
    requires differs { DiffersIn (scope_in task.now) task.now.leads.items progress.old.frames.items place frame.old range.old }
    ensures ready { IfOk result (λ went. went ≢ Went.Nowhere → IsReady task.now progress.new.frames.items) }
    ensures covers { IfOk result (λ went. went ≢ Went.Nowhere → AreCovers task.now progress.new.frames.items (nodes_of nodes.new)) }
    ensures moves { IfOk result (λ went. went ≢ Went.Nowhere
        → Moves (scope_in task.now) progress.old.frames.items (notes_of progress.old) progress.new.frames.items (notes_of progress.new)) }
    ensures nowhere { IfOk result (λ went. went ≡ Went.Nowhere → HasNoTyping task.now) }
    ensures done { IfOk result (λ went. went ≡ Went.Done
        → Settles (scope_in task.now) task.now.leads.items progress.new.frames.items place frame.old) }
    ensures steps { IfOk result (λ went. went ≡ Went.On → (i : AnInstr)
        × StepsWell (scope_in task.now) progress.new.frames.items place i frame.old frame.new) }
    ensures no_leader { IfOk result (λ went. went ≡ Went.On → Leads task.now.leads.items (suc place) → ⊥) }
    ensures seen { IfOk result (λ went. went ≢ Went.Nowhere → KeepsSeen (scope_in task.now) (nodes_of nodes.old) (nodes_of nodes.new)) }
    ensures differs { IfOk result (λ went. went ≡ Went.On
        → DiffersIn (scope_in task.now) task.now.leads.items progress.new.frames.items (suc place) frame.new range.new) }
    ensures walking { IfOk result (λ went. went ≡ Went.On
        → IsWalking task.now progress.new.frames.items (nodes_of nodes.new) leader (suc place) frame.new) }
{
    let i = &task.view.code.instrs.as_slice()[place];
    if !step(&task.view, place as u32, i, frame)? {
        return Ok(Went::Nowhere);
    }
    if !hand_on_stored(progress, nodes, task, leader, i, frame)? {
        return Ok(Went::Nowhere);
    }
    *range = left_by(i, *range, frame.locals.len());
    if !jump_on(progress, task, i, frame, *range)? {
        return Ok(Went::Nowhere);
    }
    line_on(progress, task, i, place + 1, frame, *range)
}

/// Hands the frame that an instruction leaves to the next place, if control goes on there and that is a leader.
fn line_on(
    progress: &mut Progress,
    task: &Task<'_>,
    i: &Instr,
    next: usize,
    frame: &FrameType,
    range: LocalRange,
) -> Result<Went, OutOfMemory>
    requires ready { IsReady task.now progress.old.frames.items }
    requires sized { IsFrameOf (scope_in task.now).code frame.now }
    requires below { (typing : AList (Maybe AFrame)) → TypesTask task.now typing → IsTrue (not (leaves_line i.now.op))
        → FitsAt (scope_in task.now) typing next frame.now }
    requires within { range.end ≤ length frame.now.locals }
    requires outside { IsTrue (not (leaves_line i.now.op)) → Leads task.now.leads.items next
        → FitsBut (scope_in task.now) progress.old.frames.items next range.first range.end frame.now.locals }
    ensures ready { IfOk result (λ went. went ≢ Went.Nowhere → IsReady task.now progress.new.frames.items) }
    ensures moves { IfOk result (λ went. went ≢ Went.Nowhere
        → Moves (scope_in task.now) progress.old.frames.items (notes_of progress.old) progress.new.frames.items (notes_of progress.new)) }
    ensures nowhere { IfOk result (λ went. went ≡ Went.Nowhere → HasNoTyping task.now) }
    ensures done { IfOk result (λ went. went ≡ Went.Done
        → IsTrue (leaves_line i.now.op) ⊎ FitsAt (scope_in task.now) progress.new.frames.items next frame.now) }
    ensures stays { IfOk result (λ went. went ≡ Went.On → IsTrue (not (leaves_line i.now.op))) }
    ensures within { IfOk result (λ went. went ≡ Went.On → next < length (scope_in task.now).code.instrs) }
    ensures no_leader { IfOk result (λ went. went ≡ Went.On → Leads task.now.leads.items next → ⊥) }
{
    if leaves_line(i.op) {
        return Ok(Went::Done);
    }
    if next >= task.leads.len() {
        return Ok(Went::Nowhere);
    }
    if !task.leads[next] {
        return Ok(Went::On);
    }
    let from = FrameRef {
        locals: frame.locals.as_slice(),
        stack: frame.stack.as_slice(),
        fresh: frame.fresh,
    };
    if raise_at(progress, task, next, from, range.first, range.end)? {
        Ok(Went::Done)
    } else {
        Ok(Went::Nowhere)
    }
}
