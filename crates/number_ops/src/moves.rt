//! What moves entries of the operand stack: pop, pop2, swap and the forms of dup.

ghost use Rattle.jk_model.specs.declared.opcodes.TheConstants.{SWAP};
ghost use Rattle.std.specs.Prelude.{◌≡◌, ◌≤◌, ◌∷◌, ◌++◌, [], IsTrue, length};
ghost use Rattle.std.specs.Prelude.{List as AList};
ghost use Rattle.jk_model.specs.declared.values.Value.{Value as AValue};
ghost use Rattle.jk_model_domains.specs.NumberRows.{value_slots, values_slots};
ghost use Rattle.jk_model_typing.specs.Groups.{Copies, group_of};
ghost use Rattle.number_ops.specs.Entries.{entries_of};
ghost use Rattle.number_ops.specs.Operands.{Finds, FindsShape, Moved};
ghost use Rattle.number_laws.specs.NumberOpcodes.{is_among, moving_opcodes};
ghost use Rattle.number_ops.specs.TopChanges.{OnTop, OnTopWithRoom, Turns};

use crate::entries::{pop, push};
use frame_store::SegmentFrames;
use jk_model::opcodes::{DUP, DUP_X1, DUP_X2, DUP2, DUP2_X1, DUP2_X2, POP, POP2, SWAP};
use jk_model::{Instr, SegmentNo, Value};

/// Entries that were taken off the stack together: at most two slots. The last one was on top.
#[derive(Clone, Copy)]
enum Entries {
    Nothing,
    One(Value),
    Two(Value, Value),
}

/// Takes two slots: a long, or two entries.
fn take_two<F: SegmentFrames>(frames: &mut F, s: SegmentNo) -> Entries
    requires { (taken : AList AValue) × (values_slots taken ≡ 2) × OnTop (F.content frames.old) s taken }
    ensures slots { values_slots (entries_of result) ≡ 2 }
    ensures taken { Turns (F.content frames.old) (F.content frames.new) s (entries_of result) [] }
{
    let top = pop(frames, s);
    match top {
        Value::Long(_) => Entries::One(top),
        _ => Entries::Two(pop(frames, s), top),
    }
}

/// Takes so many slots, without cutting a long.
fn take_slots<F: SegmentFrames>(frames: &mut F, s: SegmentNo, n: u8) -> Entries
    requires few { n ≤ 2 }
    requires finds { (taken : AList AValue) × (values_slots taken ≡ n) × OnTop (F.content frames.old) s taken }
    ensures slots { values_slots (entries_of result) ≡ n }
    ensures taken { Turns (F.content frames.old) (F.content frames.new) s (entries_of result) [] }
{
    match n {
        0 => Entries::Nothing,
        1 => Entries::One(pop(frames, s)),
        _ => take_two(frames, s),
    }
}

/// Puts entries on top.
fn put<F: SegmentFrames>(frames: &mut F, s: SegmentNo, entries: Entries)
    requires { OnTopWithRoom (F.content frames.old) s [] (length (entries_of entries)) }
    ensures { Turns (F.content frames.old) (F.content frames.new) s [] (entries_of entries) }
{
    match entries {
        Entries::Nothing => {}
        Entries::One(v) => push(frames, s, v),
        Entries::Two(v, w) => {
            push(frames, s, v);
            push(frames, s, w);
        }
    }
}

/// Puts a copy of the topmost slots, as many as `top` says, below those before them, as many as `below` says.
fn copy<F: SegmentFrames>(frames: &mut F, s: SegmentNo, below: u8, top: u8)
    requires few { below ≤ 2 }
    requires few_copied { top ≤ 2 }
    requires finds { FindsShape (F.content frames.old) s (Copies below top) }
    ensures { (skipped : AList AValue) × (copied : AList AValue) × (values_slots skipped ≡ below) × (values_slots copied ≡ top)
        × Turns (F.content frames.old) (F.content frames.new) s (skipped ++ copied) (copied ++ skipped ++ copied) }
{
    let copied = take_slots(frames, s, top);
    let skipped = take_slots(frames, s, below);
    put(frames, s, copied);
    put(frames, s, skipped);
    put(frames, s, copied);
}

/// Exchanges the two topmost entries.
fn swap<F: SegmentFrames>(frames: &mut F, s: SegmentNo)
    requires { (v : AValue) × (w : AValue) × (value_slots v ≡ 1) × (value_slots w ≡ 1) × OnTopWithRoom (F.content frames.old) s (v ∷ w ∷ []) 2 }
    ensures { Moved (F.content frames.old) (F.content frames.new) s SWAP }
{
    let w = pop(frames, s);
    let v = pop(frames, s);
    push(frames, s, w);
    push(frames, s, v);
}

/// Does pop, pop2, swap or a form of dup.
pub(crate) fn move_entries<F: SegmentFrames>(frames: &mut F, s: SegmentNo, i: &Instr)
    requires op { IsTrue (is_among moving_opcodes i.now.op) }
    requires finds { Finds (F.content frames.old) s i.now (group_of i.now.op) }
    ensures { Moved (F.content frames.old) (F.content frames.new) s i.now.op }
{
    match i.op {
        POP => {
            take_slots(frames, s, 1);
        }
        POP2 => {
            take_slots(frames, s, 2);
        }
        DUP => copy(frames, s, 0, 1),
        DUP_X1 => copy(frames, s, 1, 1),
        DUP_X2 => copy(frames, s, 2, 1),
        DUP2 => copy(frames, s, 0, 2),
        DUP2_X1 => copy(frames, s, 1, 2),
        DUP2_X2 => copy(frames, s, 2, 2),
        SWAP => swap(frames, s),
        _ => unreachable!(),
    }
}
