//! Hands the locals that a store changed to handlers.

ghost use Rattle.std.specs.Prelude.{◌≡◌, ◌<◌, false, IfOk, IsTrue, List as AList, Option as Maybe, length};
ghost use Rattle.jk_model_typing.specs.declared.frames.FrameType.{FrameType as AFrame};
ghost use Rattle.jk_model_typing.specs.FrameTypes.{IsFrameOf};
ghost use Rattle.jk_model_typing.specs.Typing.{is_store};
ghost use Rattle.type_verifier.specs.Covers.{AreCovers, AreHanded, KeepsSeen, LeafFits, nodes_of};
ghost use Rattle.type_verifier.specs.Progress.{Moves, notes_of};
ghost use Rattle.type_verifier.specs.Tasks.{HasNoTyping, TypesTask, scope_in};
ghost use Rattle.type_verifier.specs.Walking.{IsReady, IsStored};

use crate::covers::{Handed, Nodes};
use crate::handing::hand_on;
use crate::progress::Progress;
use crate::tasks::Task;
use jk_model::{Instr, OutOfMemory};
use jk_model_typing::FrameType;
use type_rows::is_store;

/// Hands the locals after a store to the handlers of the entries that cover the walk's leader; false where one of them can't
/// have a frame. After another instruction it does nothing.
pub(crate) fn hand_on_stored(
    progress: &mut Progress,
    nodes: &mut Nodes,
    task: &Task<'_>,
    leader: usize,
    i: &Instr,
    frame: &FrameType,
) -> Result<bool, OutOfMemory>
    requires ready { IsReady task.now progress.old.frames.items }
    requires covers { AreCovers task.now progress.old.frames.items (nodes_of nodes.old) }
    requires leader { leader < length (scope_in task.now).code.instrs }
    requires sized { IsFrameOf (scope_in task.now).code frame.now }
    requires stored { IsTrue (is_store i.now.op) → IsStored (scope_in task.now) (nodes_of nodes.old) leader i.now frame.now }
    requires below { IsTrue (is_store i.now.op) → (typing : AList (Maybe AFrame)) → TypesTask task.now typing
        → AreHanded (scope_in task.now) typing leader frame.now.locals frame.now.fresh }
    ensures ready { IfOk result (λ yes. IsTrue yes → IsReady task.now progress.new.frames.items) }
    ensures covers { IfOk result (λ yes. IsTrue yes → AreCovers task.now progress.new.frames.items (nodes_of nodes.new)) }
    ensures moves { IfOk result (λ yes. IsTrue yes
        → Moves (scope_in task.now) progress.old.frames.items (notes_of progress.old) progress.new.frames.items (notes_of progress.new)) }
    ensures seen { IfOk result (λ yes. IsTrue yes → KeepsSeen (scope_in task.now) (nodes_of nodes.old) (nodes_of nodes.new)) }
    ensures leaf { IfOk result (λ yes. IsTrue yes → IsTrue (is_store i.now.op)
        → LeafFits (scope_in task.now) (nodes_of nodes.new) leader frame.now.locals frame.now.fresh) }
    ensures handed { IfOk result (λ yes. IsTrue yes → IsTrue (is_store i.now.op)
        → AreHanded (scope_in task.now) progress.new.frames.items leader frame.now.locals frame.now.fresh) }
    ensures others { IfOk result (λ yes. IsTrue yes → is_store i.now.op ≡ false → nodes.new ≡ nodes.old) }
    ensures none { IfOk result (λ yes. yes ≡ false → HasNoTyping task.now) }
{
    if !is_store(i.op) {
        return Ok(true);
    }
    let local = i.a as usize;
    let at = Handed {
        place: leader,
        locals: frame.locals.as_slice(),
        fresh: frame.fresh,
        first: local.saturating_sub(1),
        end: frame.locals.len().min(local + 2),
    };
    hand_on(progress, nodes, task, at)
}
