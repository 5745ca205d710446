//! Operand stacks: what is taken from them, and what they have room for.

ghost use Rattle.std.specs.Prelude.{◌≡◌, ◌+◌, ◌↔◌, ◌∷◌, ◌++◌, [], false, IfNone, IfSome, IsTrue, OnOk, length};
ghost use Rattle.std.specs.Prelude.{List as AList};
ghost use Rattle.jk_model_typing.specs.declared.frames.VType.{VType as AType};
ghost use Rattle.jk_model_typing.specs.FrameTypes.{slots_of};
ghost use Rattle.jk_model_typing.specs.Rows.{Meets};
ghost use Rattle.type_rows.specs.CodeViews.{scope_of};
ghost use Rattle.type_rows.specs.Shapes.{demands_view};
ghost use Rattle.type_rows.specs.Steps.{HasNoTop, IsStackOf, IsTaken, IsTopAt};

use crate::code_view::CodeView;
use crate::demands::meets;
use crate::shapes::Demands;
use jk_model::{List, OutOfMemory};
use jk_model_classes::LinkedCode;
use jk_model_typing::{Demand, VType};

/// Takes the top entry; none where there is no entry.
pub(crate) fn pop(stack: &mut List<VType>) -> Option<VType>
    ensures none { IfNone result (stack.old ≡ []) }
    ensures some { IfSome result (λ v. stack.old ≡ stack.new ++ v ∷ []) }
{
    let last = stack.len().checked_sub(1)?;
    let top = *stack.get(last)?;
    stack.truncate(last);
    Some(top)
}

/// Takes the top entry where it meets a demand. Where it doesn't, the stack has any value.
pub(crate) fn take_one(view: &CodeView<'_>, demand: Demand, stack: &mut List<VType>) -> bool
    ensures holds { IsTrue result → (v : AType) × (stack.old ≡ stack.new ++ v ∷ []) × Meets (scope_of view.now) demand v }
    ensures fails { result ≡ false → (below : AList AType) (v : AType) → stack.old ≡ below ++ v ∷ [] → Meets (scope_of view.now) demand v → ⊥ }
{
    match pop(stack) {
        Some(v) => meets(view, demand, v),
        None => false,
    }
}

/// Takes the entries that meet the demands. Where there are none, the stack has any value.
pub(crate) fn take(view: &CodeView<'_>, demands: &Demands<'_>, stack: &mut List<VType>) -> bool
    ensures { IsTaken (scope_of view.now) (demands_view (scope_of view.now) demands.now) stack.old result stack.new }
{
    let mut k = demands.len();
    while k > 0 {
        k -= 1;
        if !take_one(view, demands.at(view, k), stack) {
            return false;
        }
    }
    true
}

/// How many slots a value takes.
pub(crate) fn slots_of(v: VType) -> usize
    ensures { result ≡ slots_of v }
{
    if v == VType::Long { 2 } else { 1 }
}

/// Whether a frame of this code may have this stack: there is room, and each entry can be used. It costs in proportion
/// to the stack.
pub(crate) fn is_stack_of(code: &LinkedCode, stack: &[VType]) -> bool
    ensures { IsTrue result ↔ IsStackOf code.now stack.now }
{
    let mut room = usize::from(code.max_stack);
    for v in stack {
        let size = slots_of(*v);
        if *v == VType::Unusable || size > room {
            return false;
        }
        room -= size;
    }
    true
}

/// From which place on a stack has exactly so many slots; none where there is no such place. It costs in proportion to
/// these slots.
pub(crate) fn top_at(stack: &[VType], n: usize) -> Option<usize>
    ensures none { IfNone result (HasNoTop stack.now n) }
    ensures some { IfSome result (λ k. IsTopAt stack.now n k) }
{
    let mut k = stack.len();
    let mut left = n;
    while left > 0 {
        k = k.checked_sub(1)?;
        left = left.checked_sub(slots_of(stack[k]))?;
    }
    Some(k)
}

/// Puts an entry at a place, below those from there on. It costs in proportion to these.
pub(crate) fn insert(stack: &mut List<VType>, at: usize, v: VType) -> Result<(), OutOfMemory>
    ensures grows { OnOk result (length stack.new ≡ length stack.old + 1) }
    ensures between { OnOk result ((below : AList AType) (above : AList AType) → stack.old ≡ below ++ above → at ≡ length below
        → stack.new ≡ below ++ v ∷ above) }
{
    let mut moved = v;
    for k in at..stack.len() {
        moved = stack.replace(k, moved);
    }
    stack.push(moved)
}
