//! Loads and stores of locals, and iinc.

ghost use Rattle.jk_model.specs.declared.opcodes.TheConstants.{IINC};
ghost use Rattle.std.specs.Prelude.{◌≡◌, ℕ, ℤ, ◌+◌, ◌<◌, ◌≤◌, ◌∷◌, [], IsTrue, length, pos};
ghost use Rattle.jk_model.specs.declared.values.Value.{Value as AValue};
ghost use Rattle.jk_model.specs.declared.values.Value.TheVariants.{Int};
ghost use Rattle.jk_model_frames.specs.Frames.{FrameState};
ghost use Rattle.jk_model_domains.specs.NumberRows.{is_load, is_store_of_top, value_slots};
ghost use Rattle.number_ops.specs.TopChanges.{HasAtMostLocals, HasInLocal, HasLocals, OnTop, OnTopWithRoom, Uses};

use crate::entries::{pop, push};
use frame_store::SegmentFrames;
use jk_model::{Instr, SegmentNo, Value};

/// The local that an instruction names, of so many.
fn local_of(i: &Instr, max_locals: u16) -> u16
    requires { (n : ℕ) × (i.now.a ≡ pos n) × (n < max_locals) }
    ensures { i.now.a ≡ pos result }
{
    i.a as u16
}

/// Pushes the value of a local.
#[inline(always)]
pub(crate) fn load<F: SegmentFrames>(frames: &mut F, s: SegmentNo, max_locals: u16, i: &Instr)
    requires op { IsTrue (is_load i.now.op) }
    requires most { HasAtMostLocals (F.content frames.old) s max_locals }
    requires finds { (n : ℕ) × (v : AValue) × (i.now.a ≡ pos n) × HasInLocal (F.content frames.old) s n v × OnTopWithRoom (F.content frames.old) s [] 1 }
    ensures { Uses (F.content frames.old) (F.content frames.new) s i.now }
{
    let v = frames.local(s, local_of(i, max_locals));
    push(frames, s, v);
}

/// Takes the top entry, and puts it into a local; the local after a long is unset then.
#[inline(always)]
pub(crate) fn store<F: SegmentFrames>(frames: &mut F, s: SegmentNo, max_locals: u16, i: &Instr)
    requires op { IsTrue (is_store_of_top i.now.op) }
    requires most { HasAtMostLocals (F.content frames.old) s max_locals }
    requires finds { (n : ℕ) × (v : AValue) × (i.now.a ≡ pos n) × OnTop (F.content frames.old) s (v ∷ [])
        × HasLocals (F.content frames.old) s (n + value_slots v) }
    ensures { Uses (F.content frames.old) (F.content frames.new) s i.now }
{
    let v = pop(frames, s);
    let n = local_of(i, max_locals);
    frames.set_local(s, n, v);
    if let Value::Long(_) = v {
        frames.set_local(s, n + 1, Value::Unset);
    }
}

/// Adds a constant to a local.
#[inline(always)]
pub(crate) fn increment<F: SegmentFrames>(frames: &mut F, s: SegmentNo, max_locals: u16, i: &Instr)
    requires op { i.now.op ≡ IINC }
    requires most { HasAtMostLocals (F.content frames.old) s max_locals }
    requires finds { (n : ℕ) × (x : ℤ) × (i.now.a ≡ pos n) × HasInLocal (F.content frames.old) s n (Int x) }
    ensures { Uses (F.content frames.old) (F.content frames.new) s i.now }
{
    let n = local_of(i, max_locals);
    match frames.local(s, n) {
        Value::Int(x) => frames.set_local(s, n, Value::Int(x.wrapping_add(i.b))),
        _ => unreachable!(),
    }
}
