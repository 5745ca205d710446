//! Arithmetic, conversions and comparisons that push what they find.

ghost use Rattle.jk_model.specs.declared.opcodes.TheConstants.{LCMP};
ghost use Rattle.std.specs.Prelude.{◌≡◌, ◌≢◌, ℤ, ℕ, ◌<◌, ◌∷◌, [], IsTrue, MatchBool, pos, List};
ghost use Rattle.jk_model_typing.specs.Groups.{group_of};
ghost use Rattle.jk_model.specs.declared.values.Value.TheVariants.{Int, Long};
ghost use Rattle.jk_model_domains.specs.NumberRows.{HasRow, IsConversion, compared, distance, int_divisions, int_operations, long_divisions, long_operations, long_shifts};
ghost use Rattle.number_ops.specs.Operands.{Calculated, Finds, Refused};
ghost use Rattle.number_laws.specs.NumberOpcodes.{int_conversion_opcodes, int_division_opcodes, int_opcodes, is_among, long_conversion_opcodes, long_division_opcodes, long_opcodes, long_shift_opcodes};
ghost use Rattle.number_ops.specs.Parts.{arithmetic_opcodes};
ghost use Rattle.number_ops.specs.TopChanges.{OnTop, OnTopWithRoom, Turns};

use crate::entries::{lower_int, pop_int, pop_long, push, replace_both, top_int, top_long};
use crate::parts::Arithmetic;
use frame_store::SegmentFrames;
use jk_model::opcodes::{
    I2B, I2C, I2L, I2S, IADD, IAND, IDIV, IMUL, INEG, IOR, IREM, ISHL, ISHR, ISUB, IUSHR, IXOR,
    L2I, LADD, LAND, LDIV, LMUL, LNEG, LOR, LREM, LSHL, LSHR, LSUB, LUSHR, LXOR,
};
use jk_model::{Instr, SegmentNo, Value};

/// How far an int is shifted.
fn distance(n: i32) -> u32
    ensures distance { result ≡ distance 32 n }
    ensures few { result < 32 }
{
    n.rem_euclid(32) as u32
}

/// How far a long is shifted.
fn long_distance(n: i32) -> u32
    ensures distance { result ≡ distance 64 n }
    ensures few { result < 64 }
{
    n.rem_euclid(64) as u32
}

/// What an instruction makes of two ints.
#[inline(always)]
fn int_operation(op: u8, x: i32, y: i32) -> i32
    requires { IsTrue (is_among int_opcodes op) }
    ensures { (f : ℤ → ℤ → ℤ) × HasRow int_operations op f × (result ≡ f x y) }
{
    match op {
        IADD => x.wrapping_add(y),
        ISUB => x.wrapping_sub(y),
        IMUL => x.wrapping_mul(y),
        ISHL => x << distance(y),
        ISHR => x.wrapping_shr(distance(y)),
        IUSHR => (x.cast_unsigned() >> distance(y)).cast_signed(),
        IAND => x & y,
        IOR => x | y,
        IXOR => x ^ y,
        _ => unreachable!(),
    }
}

/// What an instruction makes of two longs.
fn long_operation(op: u8, x: i64, y: i64) -> i64
    requires { IsTrue (is_among long_opcodes op) }
    ensures { (f : ℤ → ℤ → ℤ) × HasRow long_operations op f × (result ≡ f x y) }
{
    match op {
        LADD => x.wrapping_add(y),
        LSUB => x.wrapping_sub(y),
        LMUL => x.wrapping_mul(y),
        LAND => x & y,
        LOR => x | y,
        LXOR => x ^ y,
        _ => unreachable!(),
    }
}

/// A long that is shifted.
fn long_shift(op: u8, x: i64, n: i32) -> i64
    requires { IsTrue (is_among long_shift_opcodes op) }
    ensures { (f : ℤ → ℤ → ℤ) × HasRow long_shifts op f × (result ≡ f x n) }
{
    match op {
        LSHL => x << long_distance(n),
        LSHR => x.wrapping_shr(long_distance(n)),
        LUSHR => (x.cast_unsigned() >> long_distance(n)).cast_signed(),
        _ => unreachable!(),
    }
}

/// The quotient or remainder of two ints.
fn int_division(op: u8, x: i32, y: i32) -> i32
    requires op { IsTrue (is_among int_division_opcodes op) }
    requires divisor { y ≢ pos 0 }
    ensures { (f : ℤ → ℤ → ℤ) × HasRow int_divisions op f × (result ≡ f x y) }
{
    match op {
        IDIV => x.wrapping_div(y),
        IREM => x.wrapping_rem(y),
        _ => unreachable!(),
    }
}

/// The quotient or remainder of two longs.
fn long_division(op: u8, x: i64, y: i64) -> i64
    requires op { IsTrue (is_among long_division_opcodes op) }
    requires divisor { y ≢ pos 0 }
    ensures { (f : ℤ → ℤ → ℤ) × HasRow long_divisions op f × (result ≡ f x y) }
{
    match op {
        LDIV => x.wrapping_div(y),
        LREM => x.wrapping_rem(y),
        _ => unreachable!(),
    }
}

/// How two longs compare.
fn compared(x: i64, y: i64) -> i32
    ensures { result ≡ compared x y }
{
    if x < y {
        -1
    } else if y < x {
        1
    } else {
        0
    }
}

/// What a conversion, or ineg, makes of an int.
fn converted_int(op: u8, x: i32) -> Value
    requires { IsTrue (is_among int_conversion_opcodes op) }
    ensures { IsConversion op (Int x) result }
{
    match op {
        INEG => Value::Int(x.wrapping_neg()),
        I2L => Value::Long(i64::from(x)),
        I2B => Value::Int(i32::from((x.rem_euclid(256) as u8).cast_signed())),
        I2C => Value::Int(x.rem_euclid(65536)),
        I2S => Value::Int(i32::from((x.rem_euclid(65536) as u16).cast_signed())),
        _ => unreachable!(),
    }
}

/// What l2i, or lneg, makes of a long.
fn converted_long(op: u8, x: i64) -> Value
    requires { IsTrue (is_among long_conversion_opcodes op) }
    ensures { IsConversion op (Long x) result }
{
    match op {
        LNEG => Value::Long(x.wrapping_neg()),
        L2I => Value::Int((x.rem_euclid(0x1_0000_0000) as u32).cast_signed()),
        _ => unreachable!(),
    }
}

/// Takes two ints, and pushes what an instruction makes of them.
#[inline(always)]
fn calculate_ints<F: SegmentFrames>(frames: &mut F, s: SegmentNo, op: u8)
    requires op { IsTrue (is_among int_opcodes op) }
    requires finds { (x : ℤ) × (y : ℤ) × OnTopWithRoom (F.content frames.old) s (Int x ∷ Int y ∷ []) 1 }
    ensures { Calculated (F.content frames.old) (F.content frames.new) s op }
{
    let y = top_int(frames, s);
    let x = lower_int(frames, s);
    replace_both(frames, s, Value::Int(int_operation(op, x, y)));
}

/// Takes two longs, and pushes what an instruction makes of them.
fn calculate_longs<F: SegmentFrames>(frames: &mut F, s: SegmentNo, op: u8)
    requires op { IsTrue (is_among long_opcodes op) }
    requires finds { (x : ℤ) × (y : ℤ) × OnTopWithRoom (F.content frames.old) s (Long x ∷ Long y ∷ []) 1 }
    ensures { Calculated (F.content frames.old) (F.content frames.new) s op }
{
    let y = pop_long(frames, s);
    let x = pop_long(frames, s);
    push(frames, s, Value::Long(long_operation(op, x, y)));
}

/// Takes a long and a distance, and pushes the long shifted.
fn shift_long<F: SegmentFrames>(frames: &mut F, s: SegmentNo, op: u8)
    requires op { IsTrue (is_among long_shift_opcodes op) }
    requires finds { (x : ℤ) × (n : ℤ) × OnTopWithRoom (F.content frames.old) s (Long x ∷ Int n ∷ []) 1 }
    ensures { Calculated (F.content frames.old) (F.content frames.new) s op }
{
    let n = pop_int(frames, s);
    let x = pop_long(frames, s);
    push(frames, s, Value::Long(long_shift(op, x, n)));
}

/// Takes two longs, and pushes how they compare.
fn compare_longs<F: SegmentFrames>(frames: &mut F, s: SegmentNo)
    requires { (x : ℤ) × (y : ℤ) × OnTopWithRoom (F.content frames.old) s (Long x ∷ Long y ∷ []) 1 }
    ensures { Calculated (F.content frames.old) (F.content frames.new) s LCMP }
{
    let y = pop_long(frames, s);
    let x = pop_long(frames, s);
    push(frames, s, Value::Int(compared(x, y)));
}

/// Takes an int, and pushes what a conversion makes of it.
fn convert_int<F: SegmentFrames>(frames: &mut F, s: SegmentNo, op: u8)
    requires op { IsTrue (is_among int_conversion_opcodes op) }
    requires finds { (x : ℤ) × OnTopWithRoom (F.content frames.old) s (Int x ∷ []) 1 }
    ensures { Calculated (F.content frames.old) (F.content frames.new) s op }
{
    let x = pop_int(frames, s);
    push(frames, s, converted_int(op, x));
}

/// Takes a long, and pushes what a conversion makes of it.
fn convert_long<F: SegmentFrames>(frames: &mut F, s: SegmentNo, op: u8)
    requires op { IsTrue (is_among long_conversion_opcodes op) }
    requires finds { (x : ℤ) × OnTopWithRoom (F.content frames.old) s (Long x ∷ []) 1 }
    ensures { Calculated (F.content frames.old) (F.content frames.new) s op }
{
    let x = pop_long(frames, s);
    push(frames, s, converted_long(op, x));
}

/// Takes two ints and pushes their quotient or remainder; false where the divisor is 0, and then all is as before.
fn divide_ints<F: SegmentFrames>(frames: &mut F, s: SegmentNo, op: u8) -> bool
    requires op { IsTrue (is_among int_division_opcodes op) }
    requires finds { (x : ℤ) × (y : ℤ) × OnTopWithRoom (F.content frames.old) s (Int x ∷ Int y ∷ []) 1 }
    ensures { MatchBool result (Calculated (F.content frames.old) (F.content frames.new) s op)
        (Refused (F.content frames.old) (F.content frames.new) s op) }
{
    if top_int(frames, s) == 0 {
        return false;
    }
    let y = pop_int(frames, s);
    let x = pop_int(frames, s);
    push(frames, s, Value::Int(int_division(op, x, y)));
    true
}

/// Takes two longs and pushes their quotient or remainder; false where the divisor is 0, and then all is as before.
fn divide_longs<F: SegmentFrames>(frames: &mut F, s: SegmentNo, op: u8) -> bool
    requires op { IsTrue (is_among long_division_opcodes op) }
    requires finds { (x : ℤ) × (y : ℤ) × OnTopWithRoom (F.content frames.old) s (Long x ∷ Long y ∷ []) 1 }
    ensures { MatchBool result (Calculated (F.content frames.old) (F.content frames.new) s op)
        (Refused (F.content frames.old) (F.content frames.new) s op) }
{
    if top_long(frames, s) == 0 {
        return false;
    }
    let y = pop_long(frames, s);
    let x = pop_long(frames, s);
    push(frames, s, Value::Long(long_division(op, x, y)));
    true
}

/// Does an instruction of arithmetic; false where it would divide by 0, and then all is as before.
pub(crate) fn calculate<F: SegmentFrames>(
    frames: &mut F,
    s: SegmentNo,
    i: &Instr,
    kind: Arithmetic,
) -> bool
    requires op { IsTrue (is_among (arithmetic_opcodes kind) i.now.op) }
    requires finds { Finds (F.content frames.old) s i.now (group_of i.now.op) }
    ensures { MatchBool result (Calculated (F.content frames.old) (F.content frames.new) s i.now.op)
        (Refused (F.content frames.old) (F.content frames.new) s i.now.op) }
{
    match kind {
        Arithmetic::Ints => calculate_ints(frames, s, i.op),
        Arithmetic::IntDivision => return divide_ints(frames, s, i.op),
        Arithmetic::Longs => calculate_longs(frames, s, i.op),
        Arithmetic::LongDivision => return divide_longs(frames, s, i.op),
        Arithmetic::LongShift => shift_long(frames, s, i.op),
        Arithmetic::IntConversion => convert_int(frames, s, i.op),
        Arithmetic::LongConversion => convert_long(frames, s, i.op),
        Arithmetic::LongComparison => compare_longs(frames, s),
    }
    true
}
