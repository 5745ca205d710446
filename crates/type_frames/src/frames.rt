//! Joins of frames.

ghost use Rattle.std.specs.Prelude.{◌≡◌, ◌<◌, ◌≤◌, ◌↔◌, false, IsTrue, IfNone, IfSome, length};
ghost use Rattle.std.specs.List.{AllByRecursion};
ghost use Rattle.jk_model_typing.specs.FrameTypes.{IsUsable};
ghost use Rattle.type_frames.specs.FrameJoins.{FitOutside, HaveNoJoin, HaveNoStack, IsFrameJoin, IsStackJoin};
ghost use Rattle.type_frames.specs.FrameViews.{seen};
ghost use Rattle.type_frames.specs.Heights.{frame_height, heights};

use crate::locals::raise_locals;
use class_table::ClassTable;
use jk_model::List;
use jk_model_typing::{FrameType, VType};

/// A frame whose parts stand elsewhere.
#[derive(Clone, Copy)]
pub struct FrameRef<'a> {
    pub locals: &'a [VType],
    pub stack: &'a [VType],
    pub fresh: bool,
}

/// Joins a frame into another, and says whether this one changed; none where there is no frame that both fit, since the
/// stacks differ in height or have no common type at some entry. Of the locals only those from `first` up to `end` are
/// looked at: at the others they fit already. After none `into` has any value.
pub fn raise(
    t: &ClassTable,
    into: &mut FrameType,
    from: FrameRef<'_>,
    first: usize,
    end: usize,
) -> Option<bool>
    requires length { length into.old.locals ≡ length (seen from).locals }
    requires within { end ≤ length (seen from).locals }
    requires outside { FitOutside t.now first end (seen from).locals into.old.locals }
    ensures none { IfNone result (HaveNoJoin t.now into.old (seen from.entry)) }
    ensures joined { IfSome result (λ changed. IsFrameJoin t.now into.old (seen from.entry) into.new) }
    ensures same { IfSome result (λ changed. changed ≡ false → into.new ≡ into.old) }
    ensures falls { IfSome result (λ changed. IsTrue changed → frame_height t.now into.new < frame_height t.now into.old) }
{
    let stack = raise_stack(t, &mut into.stack, from.stack)?;
    let locals = raise_locals(t, &mut into.locals, from.locals, first, end);
    let fresh = from.fresh && !into.fresh;
    into.fresh = into.fresh || from.fresh;
    Some(stack || locals || fresh)
}

/// Joins a stack into another, and says whether this one changed; none where there is no stack that both fit.
fn raise_stack(t: &ClassTable, into: &mut List<VType>, from: &[VType]) -> Option<bool>
    ensures none { IfNone result (HaveNoStack t.now into.old from.now) }
    ensures joined { IfSome result (λ changed. IsStackJoin t.now into.old from.now into.new) }
    ensures same { IfSome result (λ changed. changed ≡ false → into.new ≡ into.old) }
    ensures falls { IfSome result (λ changed. IsTrue changed → heights t.now into.new < heights t.now into.old) }
{
    if into.len() != from.len() {
        return None;
    }
    let changed = raise_locals(t, into, from, 0, from.len());
    if are_usable(into.as_slice()) {
        Some(changed)
    } else {
        None
    }
}

/// Whether each entry can be used.
fn are_usable(stack: &[VType]) -> bool
    ensures { IsTrue result ↔ AllByRecursion IsUsable stack.now }
{
    stack.iter().all(|entry| *entry != VType::Unusable)
}
