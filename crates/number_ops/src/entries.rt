//! Entries of the operand stack of a segment's top frame: looked at, taken and pushed, by their kinds.

ghost use Rattle.std.specs.Prelude.{◌≡◌, ℤ, ◌∷◌, []};
ghost use Rattle.jk_model.specs.declared.values.Value.{Value as AValue};
ghost use Rattle.jk_model.specs.declared.values.Value.TheVariants.{Int, Long};
ghost use Rattle.number_ops.specs.TopChanges.{OnTop, OnTopWithRoom, Turns};

use frame_store::SegmentFrames;
use jk_model::{SegmentNo, Value};

/// Pushes an entry.
#[inline(always)]
pub(crate) fn push<F: SegmentFrames>(frames: &mut F, s: SegmentNo, v: Value)
    requires { OnTopWithRoom (F.content frames.old) s [] 1 }
    ensures { Turns (F.content frames.old) (F.content frames.new) s [] (v ∷ []) }
{
    frames.push_value(s, v);
}

/// Takes the top entry.
#[inline(always)]
pub(crate) fn pop<F: SegmentFrames>(frames: &mut F, s: SegmentNo) -> Value
    requires { (v : AValue) × OnTop (F.content frames.old) s (v ∷ []) }
    ensures { Turns (F.content frames.old) (F.content frames.new) s (result ∷ []) [] }
{
    frames.pop_value(s)
}

/// Takes an int from the top.
#[inline(always)]
pub(crate) fn pop_int<F: SegmentFrames>(frames: &mut F, s: SegmentNo) -> i32
    requires { (n : ℤ) × OnTop (F.content frames.old) s (Int n ∷ []) }
    ensures { Turns (F.content frames.old) (F.content frames.new) s (Int result ∷ []) [] }
{
    match pop(frames, s) {
        Value::Int(n) => n,
        _ => unreachable!(),
    }
}

/// Takes a long from the top.
pub(crate) fn pop_long<F: SegmentFrames>(frames: &mut F, s: SegmentNo) -> i64
    requires { (n : ℤ) × OnTop (F.content frames.old) s (Long n ∷ []) }
    ensures { Turns (F.content frames.old) (F.content frames.new) s (Long result ∷ []) [] }
{
    match pop(frames, s) {
        Value::Long(n) => n,
        _ => unreachable!(),
    }
}

/// The int on top.
#[inline(always)]
pub(crate) fn top_int<F: SegmentFrames>(frames: &F, s: SegmentNo) -> i32
    requires { (n : ℤ) × OnTop (F.content frames.now) s (Int n ∷ []) }
    ensures { (n : ℤ) → OnTop (F.content frames.now) s (Int n ∷ []) → result ≡ n }
{
    match frames.peek(s, 0) {
        Value::Int(n) => n,
        _ => unreachable!(),
    }
}

/// The int below the top entry.
#[inline(always)]
pub(crate) fn lower_int<F: SegmentFrames>(frames: &F, s: SegmentNo) -> i32
    requires { (n : ℤ) × (v : AValue) × OnTop (F.content frames.now) s (Int n ∷ v ∷ []) }
    ensures { (n : ℤ) (v : AValue) → OnTop (F.content frames.now) s (Int n ∷ v ∷ []) → result ≡ n }
{
    match frames.peek(s, 1) {
        Value::Int(n) => n,
        _ => unreachable!(),
    }
}

/// Takes the two entries on top.
#[inline(always)]
pub(crate) fn take_both<F: SegmentFrames>(frames: &mut F, s: SegmentNo)
    requires { (v : AValue) × (w : AValue) × OnTop (F.content frames.old) s (v ∷ w ∷ []) }
    ensures { (v : AValue) (w : AValue) → OnTop (F.content frames.old) s (v ∷ w ∷ [])
        → Turns (F.content frames.old) (F.content frames.new) s (v ∷ w ∷ []) [] }
{
    frames.drop_entries(s, 2);
}

/// Puts an entry in the place of the two on top.
#[inline(always)]
pub(crate) fn replace_both<F: SegmentFrames>(frames: &mut F, s: SegmentNo, u: Value)
    requires { (v : AValue) × (w : AValue) × OnTop (F.content frames.old) s (v ∷ w ∷ []) }
    ensures { (v : AValue) (w : AValue) → OnTop (F.content frames.old) s (v ∷ w ∷ [])
        → Turns (F.content frames.old) (F.content frames.new) s (v ∷ w ∷ []) (u ∷ []) }
{
    frames.exchange(s, 2, u);
}

/// The long on top.
pub(crate) fn top_long<F: SegmentFrames>(frames: &F, s: SegmentNo) -> i64
    requires { (n : ℤ) × OnTop (F.content frames.now) s (Long n ∷ []) }
    ensures { (n : ℤ) → OnTop (F.content frames.now) s (Long n ∷ []) → result ≡ n }
{
    match frames.peek(s, 0) {
        Value::Long(n) => n,
        _ => unreachable!(),
    }
}
