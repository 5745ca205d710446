//! What the instructions of constants push.

ghost use Rattle.std.specs.Prelude.{◌≡◌, ◌∷◌, [], ℕ, IsTrue, MatchOption, Some, pos};
ghost use Rattle.jk_model.specs.declared.identifiers.MemberId.{MemberId as AMember};
ghost use Rattle.jk_model_domains.specs.NumberRows.{Pushes};
ghost use Rattle.jk_model_typing.specs.Scopes.{CodeScope, IsScopeOf};
ghost use Rattle.number_ops.specs.Operands.{HasConstant, HasNumber, IsLinked};
ghost use Rattle.number_laws.specs.NumberOpcodes.{constant_opcodes, is_among};
ghost use Rattle.type_rows.specs.CodeViews.{scope_of};
ghost use Rattle.type_rows.specs.Operands.{HasNoLink, IsLink};

use domain_resolver::World;
use jk_model::opcodes::{ACONST_NULL, LCONST_0, LDC_W, LDC2_W, SIPUSH};
use jk_model::{Instr, MemberId, Value};
use jk_model_classes::Link;
use type_rows::CodeView;

/// An operand that isn't negative, as a number.
#[tactic(auto)]
fn number_of(operand: i32) -> Option<u32>
    ensures { MatchOption result ((n : ℕ) → operand ≡ pos n → ⊥) (λ n. operand ≡ pos n) }
{
    if operand >= 0 {
        Some(operand as u32)
    } else {
        None
    }
}

/// What the first operand leads to in the pool.
#[tactic(auto)]
fn link_of<'a>(view: &CodeView<'a>, i: &Instr) -> Option<&'a Link>
    ensures { MatchOption result (HasNoLink (scope_of view.now) i.now) (λ link. IsLink (scope_of view.now) i.now link.now) }
{
    view.links.get(number_of(i.a)? as usize)
}

/// The int or long to which the first operand leads in the pool.
fn number_in(view: &CodeView<'_>, i: &Instr) -> Value
    requires { HasNumber (scope_of view.now) i.now }
    ensures { IsLinked (scope_of view.now) i.now result }
{
    match link_of(view, i) {
        Some(link) => match link {
            Link::Int(n) => Value::Int(*n),
            Link::Long(n) => Value::Long(*n),
            _ => unreachable!(),
        },
        None => unreachable!(),
    }
}

/// The same in the pool of the class of the method that a frame runs.
fn linked(w: &World, method: Option<MemberId>, i: &Instr) -> Value
    requires { (m : AMember) × (scope : CodeScope) × (method ≡ Some m) × IsScopeOf w.now.classes m scope × HasNumber scope i.now }
    ensures { (m : AMember) (scope : CodeScope) → method ≡ Some m → IsScopeOf w.now.classes m scope → IsLinked scope i.now result }
{
    match method {
        Some(m) => match CodeView::of(w.classes(), m) {
            Some(view) => number_in(&view, i),
            None => unreachable!(),
        },
        None => unreachable!(),
    }
}

/// What an instruction of a constant pushes, in a frame of this method.
pub(crate) fn constant(w: &World, method: Option<MemberId>, i: &Instr) -> Value
    requires op { IsTrue (is_among constant_opcodes i.now.op) }
    requires linked { HasConstant w.now.classes method i.now }
    ensures { (m : AMember) (scope : CodeScope) → method ≡ Some m → IsScopeOf w.now.classes m scope → Pushes scope i.now (result ∷ []) }
{
    match i.op {
        ACONST_NULL => Value::Null,
        LCONST_0 => Value::Long(i64::from(i.a)),
        SIPUSH => Value::Int(i.a),
        LDC_W => linked(w, method, i),
        LDC2_W => linked(w, method, i),
        _ => unreachable!(),
    }
}
