//! What an instruction does to the operand stack alone.

ghost use Rattle.std.specs.Prelude.{◌≡◌, ℕ, ◌↔◌, ◌∷◌, ◌++◌, [], false, IfNone, IfOk, IfSome, IsTrue, OnOk, length};
ghost use Rattle.std.specs.Prelude.{List as AList};
ghost use Rattle.jk_model_typing.specs.declared.frames.VType.{VType as AType};
ghost use Rattle.jk_model_typing.specs.FrameTypes.{IsFrameOf, slots};
ghost use Rattle.jk_model_typing.specs.Groups.{Copies, Drops, LoadsElement, Swaps, Takes};
ghost use Rattle.jk_model_typing.specs.Rows.{element};
ghost use Rattle.jk_model_typing.specs.Scopes.{CodeScope};
ghost use Rattle.type_rows.specs.CodeViews.{scope_of};
ghost use Rattle.type_rows.specs.Shapes.{demands_view, given};
ghost use Rattle.type_rows.specs.Steps.{HasNoCopy, IsCopyAt, IsDone, IsStackOf};

use crate::code_view::CodeView;
use crate::demands::is_reference_array;
use crate::shapes::Demands;
use crate::stacks::{insert, is_stack_of, pop, slots_of, take, top_at};
use jk_model::{List, OutOfMemory};
use jk_model_classes::{LinkedCode, TypeRef};
use jk_model_typing::{FrameType, VType};

/// Pushes an entry, and says whether there was room for it and it can be used.
pub(crate) fn push(
    code: &LinkedCode,
    v: VType,
    stack: &mut List<VType>,
) -> Result<bool, OutOfMemory>
    ensures room { IfOk result (λ yes. IsTrue yes ↔ IsStackOf code.now stack.new) }
    ensures pushed { IfOk result (λ yes. stack.new ≡ stack.old ++ v ∷ []) }
{
    stack.push(v)?;
    Ok(is_stack_of(code, stack.as_slice()))
}

/// Takes entries that meet the demands, and pushes an entry, or none.
pub(crate) fn exchange(
    view: &CodeView<'_>,
    demands: &Demands<'_>,
    gives: Option<VType>,
    frame: &mut FrameType,
) -> Result<bool, OutOfMemory>
    requires { IsFrameOf (scope_of view.now).code frame.old }
    ensures { IfOk result (λ yes. (place : ℕ)
        → IsDone (scope_of view.now) place (Takes (demands_view (scope_of view.now) demands.now) (given gives)) frame.old yes frame.new) }
{
    if !take(view, demands, &mut frame.stack) {
        return Ok(false);
    }
    match gives {
        Some(v) => push(view.code, v, &mut frame.stack),
        None => Ok(true),
    }
}

/// Takes so many slots.
pub(crate) fn drop_slots(n: usize, frame: &mut FrameType) -> bool
    ensures { (s : CodeScope) (place : ℕ) → IsFrameOf s.code frame.old → IsDone s place (Drops n) frame.old result frame.new }
{
    match top_at(frame.stack.as_slice(), n) {
        Some(k) => {
            frame.stack.truncate(k);
            true
        }
        None => false,
    }
}

/// The places from which on a stack has the slots that are copied, and the ones before them that are skipped.
#[derive(Clone, Copy)]
struct CopyPlaces {
    skipped: usize,
    copied: usize,
}

/// Finds these places; none where an entry would be cut.
fn copy_places(stack: &[VType], skipped: usize, copied: usize) -> Option<CopyPlaces>
    ensures none { IfNone result (HasNoCopy stack.now skipped copied) }
    ensures some { IfSome result (λ p. IsCopyAt stack.now skipped copied p.skipped p.copied) }
{
    let top = top_at(stack, copied)?;
    let between = top_at(&stack[..top], skipped)?;
    Some(CopyPlaces {
        skipped: between,
        copied: top,
    })
}

/// Puts a copy of the entries from a place on at a place before them.
fn copy_top(stack: &mut List<VType>, at: usize, top: usize) -> Result<(), OutOfMemory>
    ensures { OnOk result ((below between tops : AList AType) → stack.old ≡ below ++ between ++ tops → at ≡ length below
        → top ≡ length (below ++ between) → stack.new ≡ below ++ tops ++ between ++ tops) }
{
    let end = stack.len();
    for _ in top..end {
        let v = stack.as_slice()[end - 1];
        insert(stack, at, v)?;
    }
    Ok(())
}

/// Puts a copy of the topmost slots below those that are skipped.
pub(crate) fn copy(
    view: &CodeView<'_>,
    skipped: usize,
    copied: usize,
    frame: &mut FrameType,
) -> Result<bool, OutOfMemory>
    requires { IsFrameOf (scope_of view.now).code frame.old }
    ensures { IfOk result (λ yes. (place : ℕ) → IsDone (scope_of view.now) place (Copies skipped copied) frame.old yes frame.new) }
{
    match copy_places(frame.stack.as_slice(), skipped, copied) {
        Some(places) => {
            copy_top(&mut frame.stack, places.skipped, places.copied)?;
            Ok(is_stack_of(view.code, frame.stack.as_slice()))
        }
        None => Ok(false),
    }
}

/// Whether both entries are of one slot.
fn are_single(a: VType, b: VType) -> bool
    ensures { IsTrue result ↔ ((slots (a ∷ []) ≡ 1) × (slots (b ∷ []) ≡ 1)) }
{
    slots_of(a) == 1 && slots_of(b) == 1
}

/// Exchanges the two topmost entries, of one slot each.
pub(crate) fn swap(frame: &mut FrameType) -> Result<bool, OutOfMemory>
    ensures { IfOk result (λ yes. (s : CodeScope) (place : ℕ) → IsFrameOf s.code frame.old → IsDone s place Swaps frame.old yes frame.new) }
{
    let top = pop(&mut frame.stack);
    let next = pop(&mut frame.stack);
    match (next, top) {
        (Some(a), Some(b)) => {
            if are_single(a, b) {
                frame.stack.push(b)?;
                frame.stack.push(a)?;
                Ok(true)
            } else {
                Ok(false)
            }
        }
        _ => Ok(false),
    }
}

/// The type of an array's elements; null's are null.
fn element(array: VType) -> VType
    ensures { result ≡ element array }
{
    match array {
        VType::Ref(t) => VType::Ref(TypeRef {
            dims: t.dims.saturating_sub(1),
            base: t.base,
        }),
        _ => array,
    }
}

/// Takes the top entry, and says whether it is an int.
fn pop_int(stack: &mut List<VType>) -> bool
    ensures holds { IsTrue result → stack.old ≡ stack.new ++ VType.Int ∷ [] }
    ensures fails { result ≡ false → (below : AList AType) → stack.old ≡ below ++ VType.Int ∷ [] → ⊥ }
{
    match pop(stack) {
        Some(v) => v == VType::Int,
        None => false,
    }
}

/// Takes an array of references and an index, and pushes its element.
pub(crate) fn load_element(view: &CodeView<'_>, frame: &mut FrameType) -> Result<bool, OutOfMemory>
    requires { IsFrameOf (scope_of view.now).code frame.old }
    ensures { IfOk result (λ yes. (place : ℕ) → IsDone (scope_of view.now) place LoadsElement frame.old yes frame.new) }
{
    if !pop_int(&mut frame.stack) {
        return Ok(false);
    }
    match pop(&mut frame.stack) {
        Some(array) => {
            if is_reference_array(array) {
                push(view.code, element(array), &mut frame.stack)
            } else {
                Ok(false)
            }
        }
        None => Ok(false),
    }
}
