//! Whether jumps jump.

ghost use Rattle.std.specs.Prelude.{◌≡◌, ℤ, ℕ, ◌-◌, ◌≤◌, ◌<◌, ◌∷◌, [], Bool, IsTrue, pos};
ghost use Rattle.jk_model.specs.declared.values.Value.{Value as AValue};
ghost use Rattle.jk_model.specs.declared.values.Value.TheVariants.{Int};
ghost use Rattle.jk_model_domains.specs.NumberRows.{HasRow, comparisons, is_same_reference};
ghost use Rattle.frame_store.specs.FrameContents.{HasTop};
ghost use Rattle.jk_model.specs.declared.opcodes.TheConstants.{IFEQ, IF_ICMPEQ, IF_ACMPEQ};
ghost use Rattle.jk_model_typing.specs.Groups.{group_of};
ghost use Rattle.number_ops.specs.Operands.{Decided, Finds};
ghost use Rattle.number_laws.specs.NumberOpcodes.{is_among};
ghost use Rattle.number_ops.specs.Parts.{jump_opcodes};
ghost use Rattle.number_ops.specs.TopChanges.{OnTop, Turns};

use crate::entries::{lower_int, pop, pop_int, take_both, top_int};
use crate::parts::Jump;
use frame_store::SegmentFrames;
use jk_model::opcodes::{IF_ICMPEQ, IFEQ};
use jk_model::{Instr, SegmentNo, Value};

/// A target, as a place.
pub(crate) fn place_of(target: i32) -> u32
    requires { (n : ℕ) × (target ≡ pos n) }
    ensures { target ≡ pos result }
{
    target as u32
}

/// Whether two ints compare as the comparison at a place of the list of six says.
#[inline(always)]
fn compares(place: u8, x: i32, y: i32) -> bool
    requires { place < 6 }
    ensures { (test : ℤ → ℤ → Bool) × HasRow comparisons place test × (result ≡ test x y) }
{
    match place {
        0 => x == y,
        1 => x != y,
        2 => x < y,
        3 => x >= y,
        4 => x > y,
        _ => x <= y,
    }
}

/// Whether two references are the same.
fn is_same_reference(v: Value, w: Value) -> bool
    ensures { result ≡ is_same_reference v w }
{
    match (v, w) {
        (Value::Null, Value::Null) => true,
        (Value::Obj(a), Value::Obj(b)) => a == b,
        (Value::Cap(k), Value::Cap(l)) => k.0 == l.0,
        _ => false,
    }
}

/// Takes an int, and compares it with 0.
#[inline(always)]
fn compare_with_zero<F: SegmentFrames>(frames: &mut F, s: SegmentNo, op: u8) -> bool
    requires first { IFEQ ≤ op }
    requires last { op < IF_ICMPEQ }
    requires finds { (x : ℤ) × OnTop (F.content frames.old) s (Int x ∷ []) }
    ensures { Decided (F.content frames.old) (F.content frames.new) s op result }
{
    let x = pop_int(frames, s);
    compares(op - IFEQ, x, 0)
}

/// Takes two ints, and compares them.
#[inline(always)]
fn compare_ints<F: SegmentFrames>(frames: &mut F, s: SegmentNo, op: u8) -> bool
    requires first { IF_ICMPEQ ≤ op }
    requires last { op < IF_ACMPEQ }
    requires finds { (x : ℤ) × (y : ℤ) × OnTop (F.content frames.old) s (Int x ∷ Int y ∷ []) }
    ensures { Decided (F.content frames.old) (F.content frames.new) s op result }
{
    let y = top_int(frames, s);
    let x = lower_int(frames, s);
    take_both(frames, s);
    compares(op - IF_ICMPEQ, x, y)
}

/// Takes two references, and says whether they are the same.
fn take_same<F: SegmentFrames>(frames: &mut F, s: SegmentNo) -> bool
    requires { (v : AValue) × (w : AValue) × OnTop (F.content frames.old) s (v ∷ w ∷ []) }
    ensures { (v : AValue) × (w : AValue) × (result ≡ is_same_reference v w)
        × Turns (F.content frames.old) (F.content frames.new) s (v ∷ w ∷ []) [] }
{
    let w = pop(frames, s);
    let v = pop(frames, s);
    is_same_reference(v, w)
}

/// Takes a reference, and says whether it is null.
fn take_null<F: SegmentFrames>(frames: &mut F, s: SegmentNo) -> bool
    requires { (v : AValue) × OnTop (F.content frames.old) s (v ∷ []) }
    ensures { (v : AValue) × (result ≡ is_same_reference v AValue.Null)
        × Turns (F.content frames.old) (F.content frames.new) s (v ∷ []) [] }
{
    let v = pop(frames, s);
    is_same_reference(v, Value::Null)
}

/// Takes what a jump compares, and says whether it jumps.
#[inline(always)]
pub(crate) fn decides<F: SegmentFrames>(frames: &mut F, s: SegmentNo, i: &Instr, kind: Jump) -> bool
    requires op { IsTrue (is_among (jump_opcodes kind) i.now.op) }
    requires there { HasTop (F.content frames.old) s }
    requires finds { Finds (F.content frames.old) s i.now (group_of i.now.op) }
    ensures { Decided (F.content frames.old) (F.content frames.new) s i.now.op result }
{
    match kind {
        Jump::Zero => compare_with_zero(frames, s, i.op),
        Jump::Ints => compare_ints(frames, s, i.op),
        Jump::Same => take_same(frames, s),
        Jump::Different => !take_same(frames, s),
        Jump::Null => take_null(frames, s),
        Jump::NotNull => !take_null(frames, s),
        Jump::Always => true,
    }
}
