//! Entries of the operand stack of a segment's top frame. A long is one entry.

ghost use Rattle.std.specs.Prelude.{◌≡◌, ◌<◌, ◌≤◌, ◌+◌, ℤ, MatchResult};
ghost use Rattle.jk_model.specs.declared.steps.Raise.TheVariants as Raised;
ghost use Rattle.jk_model.specs.declared.values.Value.{Value as AValue};
ghost use Rattle.jk_model.specs.declared.values.Value.TheVariants as Held;
ghost use Rattle.jk_model_heaps.specs.SystemClasses.{NULL_POINTER_EXCEPTION};
ghost use Rattle.heap_ops.specs.TopEntries.{HasEntries, IsNullOrName, PutsFor, StandsBelow, TakesOff};

use frame_store::SegmentFrames;
use jk_model::{Raise, SegmentNo, Value};
use jk_model_heaps::system_classes::NULL_POINTER_EXCEPTION;

/// Takes so many entries off the top.
#[inline(always)]
pub(crate) fn drop_entries<F: SegmentFrames>(frames: &mut F, s: SegmentNo, count: u16)
    requires { HasEntries (F.content frames.old) s count }
    ensures { TakesOff (F.content frames.old) (F.content frames.new) s count }
{
    frames.drop_entries(s, count);
}

/// Puts a value in the place of so many entries on top, one or more.
#[inline(always)]
pub(crate) fn replace<F: SegmentFrames>(frames: &mut F, s: SegmentNo, count: u16, v: Value)
    requires many { HasEntries (F.content frames.old) s count }
    requires some { 1 ≤ count }
    ensures { PutsFor (F.content frames.old) (F.content frames.new) s count v }
{
    frames.exchange(s, count, v);
}

/// The value that stands below so many entries.
#[inline(always)]
pub(crate) fn value_at<F: SegmentFrames>(frames: &F, s: SegmentNo, above: u16) -> Value
    requires { (v : AValue) × StandsBelow (F.content frames.now) s above v }
    ensures { StandsBelow (F.content frames.now) s above result }
{
    frames.peek(s, above)
}

/// The int that stands below so many entries.
#[inline(always)]
pub(crate) fn int_at<F: SegmentFrames>(frames: &F, s: SegmentNo, above: u16) -> i32
    requires { (n : ℤ) × StandsBelow (F.content frames.now) s above (Held.Int n) }
    ensures { StandsBelow (F.content frames.now) s above (Held.Int result) }
{
    match frames.peek(s, above) {
        Value::Int(n) => n,
        _ => unreachable!(),
    }
}

/// The object that stands below so many entries; a NullPointerException where that is null.
#[inline(always)]
pub(crate) fn object_at<F: SegmentFrames>(
    frames: &F,
    s: SegmentNo,
    above: u16,
) -> Result<u32, Raise>
    requires { (v : AValue) × StandsBelow (F.content frames.now) s above v × IsNullOrName v }
    ensures { MatchResult result (λ a. StandsBelow (F.content frames.now) s above (Held.Obj a))
        (λ r. StandsBelow (F.content frames.now) s above Held.Null × (r ≡ Raised.Fresh NULL_POINTER_EXCEPTION)) }
{
    match frames.peek(s, above) {
        Value::Null => Err(Raise::Fresh(NULL_POINTER_EXCEPTION)),
        Value::Obj(a) => Ok(a),
        _ => unreachable!(),
    }
}
