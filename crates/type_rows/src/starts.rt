//! The frames with which methods and handlers begin.

ghost use Rattle.std.specs.Prelude.{◌≡◌, ◌≤◌, ◌-◌, ◌↔◌, ◌&&◌, not, ◌++◌, flat_map, length, map, replicate, IfNone, IfOk, IfSome, IsTrue, OnOk};
ghost use Rattle.jk_model_typing.specs.declared.frames.FrameType.{FrameType as AFrame};
ghost use Rattle.jk_model_typing.specs.declared.frames.VType.TheVariants.{Unusable};
ghost use Rattle.jk_model_typing.specs.FrameTypes.{IsFrameOf, value_of};
ghost use Rattle.jk_model_typing.specs.Scopes.{is_init, is_static, own_receiver};
ghost use Rattle.jk_model_typing.specs.Typing.{IsStart, as_locals, caught_value};
ghost use Rattle.type_rows.specs.CodeViews.{scope_of};
ghost use Rattle.type_rows.specs.Shapes.{given, given_values};

use crate::code_view::CodeView;
use crate::fresh::is_init;
use crate::instructions::params_of;
use crate::shapes::THROWABLE;
use jk_model::{AccessFlags, List, OutOfMemory, has};
use jk_model_classes::{Caught, TypeRef};
use jk_model_typing::{FrameType, VType};
use std::alloc::Global;
use type_frames::{of_class, value_of};

/// The frame with which a method begins: its receiver and arguments; none where they don't fit its locals.
pub fn start_frame(alloc: Global, view: &CodeView<'_>) -> Result<Option<FrameType>, OutOfMemory>
    ensures none { IfOk result (λ o. IfNone o ((f : AFrame) → IsStart (scope_of view.now) f → ⊥)) }
    ensures some { IfOk result (λ o. IfSome o (λ f. IsStart (scope_of view.now) f × IsFrameOf (scope_of view.now).code f)) }
{
    let mut locals = given_locals(alloc, view)?;
    if !fill(usize::from(view.code.max_locals), &mut locals)? {
        return Ok(None);
    }
    Ok(Some(FrameType {
        locals,
        stack: List::new(alloc),
        fresh: has_fresh_this(view),
    }))
}

/// What a handler has on the stack as it begins.
pub fn caught_value(view: &CodeView<'_>, h: &Caught) -> VType
    ensures { result ≡ caught_value (scope_of view.now) h.now }
{
    match h.class {
        Some(c) => of_class(view.table, c),
        None => THROWABLE,
    }
}

/// Whether the method is a constructor, whose `this` is fresh as it begins.
fn has_fresh_this(view: &CodeView<'_>) -> bool
    ensures { result ≡ (not (is_static (scope_of view.now).method) && is_init (scope_of view.now).method) }
{
    !has(view.method.flags, AccessFlags::STATIC) && is_init(view.method)
}

/// The method's `this`; none where it is static.
fn receiver_of(view: &CodeView<'_>) -> Option<VType>
    ensures { given result ≡ own_receiver (scope_of view.now) }
{
    if has(view.method.flags, AccessFlags::STATIC) {
        None
    } else if is_init(view.method) {
        Some(VType::FreshThis)
    } else {
        Some(of_class(view.table, view.class))
    }
}

/// The locals that a call gives: the receiver and the arguments.
fn given_locals(alloc: Global, view: &CodeView<'_>) -> Result<List<VType>, OutOfMemory>
    ensures { IfOk result (λ locals. locals ≡ given_values (scope_of view.now)) }
{
    let mut locals = List::new(alloc);
    push_receiver(view, &mut locals)?;
    push_arguments(view, params_of(view.method), &mut locals)?;
    Ok(locals)
}

/// Puts the receiver after the other locals.
fn push_receiver(view: &CodeView<'_>, locals: &mut List<VType>) -> Result<(), OutOfMemory>
    ensures { OnOk result (locals.new ≡ locals.old ++ own_receiver (scope_of view.now)) }
{
    match receiver_of(view) {
        Some(this) => locals.push(this),
        None => Ok(()),
    }
}

/// Puts arguments of these types after the other locals.
fn push_arguments(
    view: &CodeView<'_>,
    params: &[TypeRef],
    locals: &mut List<VType>,
) -> Result<(), OutOfMemory>
    ensures { OnOk result (locals.new ≡ locals.old ++ flat_map as_locals (map (value_of (scope_of view.now).classes) params.now)) }
{
    for t in params {
        push_local(value_of(view.table, t), locals)?;
    }
    Ok(())
}

/// Puts a value after the other locals: a long takes two.
fn push_local(v: VType, locals: &mut List<VType>) -> Result<(), OutOfMemory>
    ensures { OnOk result (locals.new ≡ locals.old ++ as_locals v) }
{
    locals.push(v)?;
    if v == VType::Long {
        locals.push(VType::Unusable)?;
    }
    Ok(())
}

/// Puts locals that can't be used after the others, up to so many; false where there are more.
fn fill(many: usize, locals: &mut List<VType>) -> Result<bool, OutOfMemory>
    ensures room { IfOk result (λ yes. IsTrue yes ↔ (length locals.old ≤ many)) }
    ensures filled { IfOk result (λ yes. IsTrue yes → locals.new ≡ locals.old ++ replicate (many - length locals.old) Unusable) }
{
    let first = locals.len();
    for _ in first..many {
        locals.push(VType::Unusable)?;
    }
    Ok(first <= many)
}
