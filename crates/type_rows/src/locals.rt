//! What an instruction does to locals.

ghost use Rattle.std.specs.Prelude.{◌≡◌, ℕ, ◌+◌, ◌≤◌, ◌<◌, ◌↔◌, IfOk, IsTrue, Some, length, slice_get};
ghost use Rattle.jk_model_typing.specs.FrameTypes.{IsFrameOf, slots_of};
ghost use Rattle.jk_model_typing.specs.Groups.{Loads, Stores};
ghost use Rattle.jk_model_typing.specs.Rows.{Meets, cut, cut_before, with_local};
ghost use Rattle.type_rows.specs.CodeViews.{scope_of};
ghost use Rattle.type_rows.specs.Steps.{IsDone};

use crate::code_view::CodeView;
use crate::demands::meets;
use crate::entries::push;
use crate::stacks::{pop, slots_of};
use jk_model::{List, OutOfMemory};
use jk_model_typing::{Demand, FrameType, VType};

/// Pushes what is in a local, where it meets the demand.
pub(crate) fn load(
    view: &CodeView<'_>,
    demand: Demand,
    n: u32,
    frame: &mut FrameType,
) -> Result<bool, OutOfMemory>
    requires { IsFrameOf (scope_of view.now).code frame.old }
    ensures { IfOk result (λ yes. (place : ℕ) → IsDone (scope_of view.now) place (Loads demand n) frame.old yes frame.new) }
{
    match frame.locals.get(n as usize) {
        Some(v) => {
            let v = *v;
            if meets(view, demand, v) {
                push(view.code, v, &mut frame.stack)
            } else {
                Ok(false)
            }
        }
        None => Ok(false),
    }
}

/// Takes an entry that meets the demand, and puts it into a local.
pub(crate) fn store(view: &CodeView<'_>, demand: Demand, n: u32, frame: &mut FrameType) -> bool
    requires { IsFrameOf (scope_of view.now).code frame.old }
    ensures { (place : ℕ) → IsDone (scope_of view.now) place (Stores demand n) frame.old result frame.new }
{
    match pop(&mut frame.stack) {
        Some(v) => {
            if may_store(view, demand, n, v, &frame.locals) {
                put(&mut frame.locals, n, v);
                true
            } else {
                false
            }
        }
        None => false,
    }
}

/// Whether there is such a local for a value, and for a long the one after it too.
fn has_local(locals: &List<VType>, n: u32, v: VType) -> bool
    ensures { IsTrue result ↔ (n + slots_of v ≤ length locals.now) }
{
    slots_of(v) <= locals.len().saturating_sub(n as usize)
}

/// Whether a value meets the demand, and there is such a local for it.
fn may_store(view: &CodeView<'_>, demand: Demand, n: u32, v: VType, locals: &List<VType>) -> bool
    ensures { IsTrue result ↔ (Meets (scope_of view.now) demand v × (n + slots_of v ≤ length locals.now)) }
{
    meets(view, demand, v) && has_local(locals, n, v)
}

/// Puts a value into a local: a long before it is cut.
fn put(locals: &mut List<VType>, n: u32, v: VType)
    requires { n + slots_of v ≤ length locals.old }
    ensures { locals.new ≡ with_local locals.old n v }
{
    cut_before(locals, n);
    locals.replace(n as usize, v);
    if v == VType::Long {
        locals.replace(n as usize + 1, VType::Unusable);
    }
}

/// What is left of a value whose second half is gone.
fn cut(v: VType) -> VType
    ensures { result ≡ cut v }
{
    if v == VType::Long { VType::Unusable } else { v }
}

/// Cuts the local before this one.
fn cut_before(locals: &mut List<VType>, n: u32)
    requires { n < length locals.old }
    ensures { locals.new ≡ cut_before locals.old n }
{
    if n > 0 {
        let before = locals.as_slice()[n as usize - 1];
        locals.replace(n as usize - 1, cut(before));
    }
}

/// Whether a local is an int.
pub(crate) fn is_int(locals: &List<VType>, n: u32) -> bool
    ensures { IsTrue result ↔ (slice_get locals.now n ≡ Some (VType.Int)) }
{
    match locals.get(n as usize) {
        Some(v) => *v == VType::Int,
        None => false,
    }
}
