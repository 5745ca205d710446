//! Hands locals to the handlers of all catch entries that cover a place.

ghost use Rattle.std.specs.Prelude.{◌≡◌, ℕ, ◌<◌, ◌≤◌, false, Contains, IfOk, IsTrue, List as AList, Option as Maybe, length, slice_get};
ghost use Rattle.jk_model_classes.specs.declared.records.Caught.{Caught as ACaught};
ghost use Rattle.jk_model_classes.specs.Classes.{AreOrdered};
ghost use Rattle.jk_model_typing.specs.declared.frames.FrameType.{FrameType as AFrame};
ghost use Rattle.jk_model_typing.specs.FrameTypes.{IsFrameOf};
ghost use Rattle.jk_model_typing.specs.Typing.{FitsAt, handler_frame};
ghost use Rattle.type_frames.specs.FrameJoins.{FitOutside};
ghost use Rattle.type_verifier.specs.Covers.{AreCovers, AreHanded, KeepsSeen, LeafFits, NodeAt, bare, nodes_of};
ghost use Rattle.handler_cover.specs.Covering.{entries_at, node_over};
ghost use Rattle.type_verifier.specs.Climbs.{AllUnseen, FitsBut, IsWidened};
ghost use Rattle.type_verifier.specs.Progress.{AreFrames, Moves, notes_of};
ghost use Rattle.type_verifier.specs.Rises.{IsNodeRise};
ghost use Rattle.type_verifier.specs.Tasks.{HasNoTyping, IsTask, TypesTask, scope_in};
ghost use Rattle.type_verifier.specs.declared.covers.Seen.{Seen as ASeen};

use crate::covers::{Handed, Nodes, Seen};
use crate::progress::{Progress, raise_at};
use crate::tasks::Task;
use class_table::ClassTable;
use jk_model::{List, OutOfMemory};
use jk_model_classes::Caught;
use std::alloc::Global;
use type_frames::{FrameRef, raise_locals};
use type_rows::caught_value;

/// Nodes that have seen nothing yet.
pub(crate) fn unseen(alloc: Global, task: &Task<'_>) -> Result<Nodes, OutOfMemory>
    ensures { (frames : AList (Maybe AFrame)) → IfOk result (λ nodes. AreCovers task.now frames (nodes_of nodes)) }
{
    let mut nodes = Vec::new(alloc);
    for level in 0..task.tree.len() {
        nodes.push(unseen_row(alloc, task.tree.width(level))?)?;
    }
    Ok(nodes)
}

/// So many nodes that have seen nothing yet.
fn unseen_row(alloc: Global, width: usize) -> Result<Vec<Option<Seen>>, OutOfMemory>
    ensures { IfOk result (λ row. AllUnseen width row.items) }
{
    let mut row = Vec::new(alloc);
    for _node in 0..width {
        row.push(None)?;
    }
    Ok(row)
}

/// Hands the locals and the flag at a place to the handlers of all entries that cover it; false where one of them can't have
/// a frame, and so there is no typing.
///
/// It goes up the tree from the place's node while nodes rise, and hands what rose to the handlers of the entries at
/// each: so it costs at most the logarithm of the places for each rise, and the handlers that the rise reaches.
pub(crate) fn hand_on(
    progress: &mut Progress,
    nodes: &mut Nodes,
    task: &Task<'_>,
    at: Handed<'_>,
) -> Result<bool, OutOfMemory>
    requires task { IsTask task.now }
    requires frames { AreFrames task.now progress.old.frames.items }
    requires covers { AreCovers task.now progress.old.frames.items (nodes_of nodes.old) }
    requires within { at.place < length (scope_in task.now).code.instrs }
    requires sized { IsFrameOf (scope_in task.now).code (bare at.locals.now at.fresh) }
    requires end { at.end ≤ length at.locals.now }
    requires outside { (c : ASeen) → NodeAt (nodes_of nodes.old) 0 at.place c
        → FitOutside (scope_in task.now).classes at.first at.end at.locals.now c.locals }
    requires below { (typing : AList (Maybe AFrame)) → TypesTask task.now typing
        → AreHanded (scope_in task.now) typing at.place at.locals.now at.fresh }
    ensures frames { IfOk result (λ yes. IsTrue yes → AreFrames task.now progress.new.frames.items) }
    ensures covers { IfOk result (λ yes. IsTrue yes → AreCovers task.now progress.new.frames.items (nodes_of nodes.new)) }
    ensures moves { IfOk result (λ yes. IsTrue yes
        → Moves (scope_in task.now) progress.old.frames.items (notes_of progress.old) progress.new.frames.items (notes_of progress.new)) }
    ensures seen { IfOk result (λ yes. IsTrue yes → KeepsSeen (scope_in task.now) (nodes_of nodes.old) (nodes_of nodes.new)) }
    ensures leaf { IfOk result (λ yes. IsTrue yes
        → LeafFits (scope_in task.now) (nodes_of nodes.new) at.entry.place at.entry.locals.now at.entry.fresh) }
    ensures handed { IfOk result (λ yes. IsTrue yes
        → AreHanded (scope_in task.now) progress.new.frames.items at.entry.place at.entry.locals.now at.entry.fresh) }
    ensures none { IfOk result (λ yes. yes ≡ false → HasNoTyping task.now) }
{
    task.view.table.ordered();
    let mut at = at;
    let mut node = at.place;
    for level in 0..task.tree.len() {
        let slot = &mut nodes[level][node];
        at = widened(slot, at);
        if !raise_node(progress.alloc, task.view.table, slot, at)? {
            return Ok(true);
        }
        if !hand_to_entries(progress, task, level, node, at)? {
            return Ok(false);
        }
        node /= 2;
    }
    Ok(true)
}

/// What is handed to a node: where it has seen nothing yet, all locals may have changed.
fn widened<'a>(slot: &Option<Seen>, at: Handed<'a>) -> Handed<'a>
    ensures { IsWidened slot.now at.entry result }
{
    match slot {
        Some(_seen) => at,
        None => Handed {
            first: 0,
            end: at.locals.len(),
            ..at
        },
    }
}

/// Joins locals and a flag into those of a node, and says whether these changed.
fn raise_node(
    alloc: Global,
    t: &ClassTable,
    slot: &mut Option<Seen>,
    at: Handed<'_>,
) -> Result<bool, OutOfMemory>
    requires length { (c : ASeen) → slot.old ≡ Some c → length c.locals ≡ length at.locals.now }
    requires within { at.end ≤ length at.locals.now }
    requires outside { (c : ASeen) → slot.old ≡ Some c → FitOutside t.now at.first at.end at.locals.now c.locals }
    ensures rises { IfOk result (λ rose. IsNodeRise t.now slot.old at.entry.locals.now at.entry.fresh slot.new) }
    ensures same { IfOk result (λ rose. rose ≡ false → slot.new ≡ slot.old) }
{
    match slot {
        Some(seen) => {
            let rose = raise_locals(t, &mut seen.locals, at.locals, at.first, at.end);
            let flag_rose = at.fresh && !seen.fresh;
            seen.fresh = seen.fresh || at.fresh;
            Ok(rose || flag_rose)
        }
        empty => {
            *empty = Some(Seen {
                locals: List::from_slice(alloc, at.locals)?,
                fresh: at.fresh,
            });
            Ok(true)
        }
    }
}

/// Hands locals to the handlers of all entries at a node; false where one of them can't have a frame.
fn hand_to_entries(
    progress: &mut Progress,
    task: &Task<'_>,
    level: usize,
    node: usize,
    at: Handed<'_>,
) -> Result<bool, OutOfMemory>
    requires ordered { AreOrdered (scope_in task.now).classes }
    requires task { IsTask task.now }
    requires frames { AreFrames task.now progress.old.frames.items }
    requires over { node_over level at.place ≡ node }
    requires sized { IsFrameOf (scope_in task.now).code (bare at.locals.now at.fresh) }
    requires end { at.end ≤ length at.locals.now }
    requires below { (typing : AList (Maybe AFrame)) → TypesTask task.now typing
        → AreHanded (scope_in task.now) typing at.place at.locals.now at.fresh }
    requires outside { (x : ℕ) (h : ACaught) → Contains (entries_at task.now.tree level node) x
        → slice_get (scope_in task.now).code.handlers x ≡ Some h
        → FitsBut (scope_in task.now) progress.old.frames.items h.handler at.first at.end at.locals.now }
    ensures frames { IfOk result (λ yes. IsTrue yes → AreFrames task.now progress.new.frames.items) }
    ensures moves { IfOk result (λ yes. IsTrue yes
        → Moves (scope_in task.now) progress.old.frames.items (notes_of progress.old) progress.new.frames.items (notes_of progress.new)) }
    ensures handed { IfOk result (λ yes. IsTrue yes → (x : ℕ) (h : ACaught)
        → Contains (entries_at task.now.tree level node) x
        → slice_get (scope_in task.now).code.handlers x ≡ Some h
        → FitsAt (scope_in task.now) progress.new.frames.items h.handler
        (handler_frame (scope_in task.now) h at.entry.locals.now at.entry.fresh)) }
    ensures none { IfOk result (λ yes. yes ≡ false → HasNoTyping task.now) }
{
    for x in task.tree.entries_at(level, node) {
        let Some(h) = task.view.code.handlers.get(*x) else {
            unreachable!();
        };
        if !hand_to(progress, task, h, at)? {
            return Ok(false);
        }
    }
    Ok(true)
}

/// Hands locals to the handler of one entry; false where it can't have a frame.
fn hand_to(
    progress: &mut Progress,
    task: &Task<'_>,
    h: &Caught,
    at: Handed<'_>,
) -> Result<bool, OutOfMemory>
    requires ordered { AreOrdered (scope_in task.now).classes }
    requires task { IsTask task.now }
    requires frames { AreFrames task.now progress.old.frames.items }
    requires entry { Contains (scope_in task.now).code.handlers h.now }
    requires sized { IsFrameOf (scope_in task.now).code (bare at.locals.now at.fresh) }
    requires end { at.end ≤ length at.locals.now }
    requires outside { FitsBut (scope_in task.now) progress.old.frames.items h.now.handler at.first at.end at.locals.now }
    requires below { (typing : AList (Maybe AFrame)) → TypesTask task.now typing
        → FitsAt (scope_in task.now) typing h.now.handler (handler_frame (scope_in task.now) h.now at.locals.now at.fresh) }
    ensures frames { IfOk result (λ yes. IsTrue yes → AreFrames task.now progress.new.frames.items) }
    ensures moves { IfOk result (λ yes. IsTrue yes
        → Moves (scope_in task.now) progress.old.frames.items (notes_of progress.old) progress.new.frames.items (notes_of progress.new)) }
    ensures handed { IfOk result (λ yes. IsTrue yes → FitsAt (scope_in task.now) progress.new.frames.items h.now.handler
        (handler_frame (scope_in task.now) h.now at.entry.locals.now at.entry.fresh)) }
    ensures none { IfOk result (λ yes. yes ≡ false → HasNoTyping task.now) }
{
    let code = task.view.code;
    let place = h.handler as usize;
    if code.max_stack == 0 || code.instrs.len() <= place {
        return Ok(false);
    }
    let stack = [caught_value(&task.view, h)];
    let from = FrameRef {
        locals: at.locals,
        stack: &stack,
        fresh: at.fresh,
    };
    raise_at(progress, task, place, from, at.first, at.end)
}
