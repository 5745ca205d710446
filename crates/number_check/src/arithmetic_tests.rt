//! Arithmetic on ints and longs, conversions, and the comparison of longs.

use crate::cases::{Case, expect_case, expect_result, in_locals, loads};
use crate::methods::Op;
use jk_model::Value::{Int, Long};
use jk_model::opcodes::{
    I2B, I2C, I2L, I2S, IADD, IAND, IDIV, IMUL, INEG, IOR, IREM, IRETURN, ISHL, ISHR, ISUB, IUSHR,
    IXOR, L2I, LADD, LAND, LCMP, LDIV, LMUL, LNEG, LOR, LREM, LRETURN, LSHL, LSHR, LSUB, LUSHR,
    LXOR,
};
use jk_model::{After, ClassId, Raise, Value};
use std::alloc::Global;
use std::process::Abort;
use std::test::Fail;

/// Instructions on two ints, the operands in the order in which they are pushed, and the results: sums, differences and products
/// keep their lowest 32 bits, a quotient is rounded towards 0, a remainder has the sign of the dividend, and of a distance the
/// lowest five bits count.
const OF_TWO_INTS: &[(u8, i32, i32, i32)] = &[
    (IADD, 3, -5, -2),
    (IADD, 2_000_000_000, 2_000_000_000, -294_967_296),
    (IADD, i32::MIN, -1, i32::MAX),
    (ISUB, 3, 5, -2),
    (ISUB, i32::MIN, 1, i32::MAX),
    (ISUB, 0, i32::MIN, i32::MIN),
    (IMUL, -3, 7, -21),
    (IMUL, 46_341, 46_341, -2_147_479_015),
    (IMUL, 65_536, 65_536, 0),
    (IMUL, i32::MIN, -1, i32::MIN),
    (IDIV, 7, 2, 3),
    (IDIV, -7, 2, -3),
    (IDIV, 7, -2, -3),
    (IDIV, -7, -2, 3),
    (IDIV, 2, 7, 0),
    (IDIV, i32::MIN, -1, i32::MIN),
    (IREM, 7, 2, 1),
    (IREM, -7, 2, -1),
    (IREM, 7, -2, 1),
    (IREM, -7, -2, -1),
    (IREM, 2, 7, 2),
    (IREM, i32::MIN, -1, 0),
    (ISHL, 5, 0, 5),
    (ISHL, 1, 31, i32::MIN),
    (ISHL, 1, 32, 1),
    (ISHL, 1, 33, 2),
    (ISHL, 3, -1, i32::MIN),
    (ISHR, 7, 1, 3),
    (ISHR, -8, 1, -4),
    (ISHR, -8, 33, -4),
    (ISHR, -8, -31, -4),
    (ISHR, i32::MIN, 31, -1),
    (IUSHR, 16, 2, 4),
    (IUSHR, -8, 0, -8),
    (IUSHR, -1, 1, i32::MAX),
    (IUSHR, -1, 28, 15),
    (IUSHR, -1, 33, i32::MAX),
    (IUSHR, -1, -1, 1),
    (IAND, 12, 10, 8),
    (IAND, -256, 4095, 3840),
    (IAND, -1, i32::MIN, i32::MIN),
    (IOR, 12, 10, 14),
    (IOR, -256, 255, -1),
    (IOR, i32::MIN, 1, -2_147_483_647),
    (IXOR, 12, 10, 6),
    (IXOR, -1, 1, -2),
    (IXOR, -1, i32::MIN, i32::MAX),
];

/// The same of longs, with 64 bits.
const OF_TWO_LONGS: &[(u8, i64, i64, i64)] = &[
    (LADD, -1, 1, 0),
    (LADD, 4_294_967_295, 1, 4_294_967_296),
    (LADD, i64::MAX, 1, i64::MIN),
    (LSUB, 3, 5_000_000_000, -4_999_999_997),
    (LSUB, i64::MIN, 1, i64::MAX),
    (LSUB, 0, i64::MIN, i64::MIN),
    (LMUL, -3, 5, -15),
    (LMUL, 3_000_000_000, 3, 9_000_000_000),
    (
        LMUL,
        3_037_000_500,
        3_037_000_500,
        -9_223_372_036_709_301_616,
    ),
    (LMUL, 4_294_967_296, 4_294_967_296, 0),
    (LMUL, i64::MIN, -1, i64::MIN),
    (LDIV, 10_000_000_000, 3, 3_333_333_333),
    (LDIV, 7, 10_000_000_000, 0),
    (LDIV, -7, 2, -3),
    (LDIV, 7, -2, -3),
    (LDIV, -7, -2, 3),
    (LDIV, i64::MIN, -1, i64::MIN),
    (LREM, 10_000_000_000, 3, 1),
    (LREM, 7, 10_000_000_000, 7),
    (LREM, -7, 2, -1),
    (LREM, 7, -2, 1),
    (LREM, -7, -2, -1),
    (LREM, i64::MIN, -1, 0),
    (LAND, 12, 10, 8),
    (LAND, 0x00ff_0000_00ff, 0x000f_0000_0ff0, 0x000f_0000_00f0),
    (LAND, -1, i64::MIN, i64::MIN),
    (LOR, 12, 10, 14),
    (LOR, 0x00f0_0000_000f, 0x000f_0000_00f0, 0x00ff_0000_00ff),
    (LOR, i64::MIN, i64::MAX, -1),
    (LXOR, 12, 10, 6),
    (LXOR, 0x00ff_0000_00ff, 0x000f_0000_0ff0, 0x00f0_0000_0f0f),
    (LXOR, -1, i64::MIN, i64::MAX),
];

/// Shifts of longs, whose distance is an int of which the lowest six bits count.
const SHIFTS_OF_LONGS: &[(u8, i64, i32, i64)] = &[
    (LSHL, 5, 0, 5),
    (LSHL, 1, 33, 8_589_934_592),
    (LSHL, 1, 63, i64::MIN),
    (LSHL, 1, 64, 1),
    (LSHL, 1, 65, 2),
    (LSHL, 3, -1, i64::MIN),
    (LSHR, 7, 1, 3),
    (LSHR, -8, 1, -4),
    (LSHR, -4_294_967_296, 32, -1),
    (LSHR, i64::MAX, 33, 1_073_741_823),
    (LSHR, -8, 65, -4),
    (LSHR, i64::MIN, 63, -1),
    (LUSHR, 16, 2, 4),
    (LUSHR, -8, 0, -8),
    (LUSHR, -1, 1, i64::MAX),
    (LUSHR, -1, 33, 2_147_483_647),
    (LUSHR, -1, 60, 15),
    (LUSHR, -1, 65, i64::MAX),
    (LUSHR, -1, -1, 1),
];

/// Negations and conversions: a narrower kind keeps the lowest bits, and has a sign but for char.
const OF_ONE: &[(u8, Value, Value)] = &[
    (INEG, Int(5), Int(-5)),
    (INEG, Int(0), Int(0)),
    (INEG, Int(i32::MIN), Int(i32::MIN)),
    (LNEG, Long(5_000_000_000), Long(-5_000_000_000)),
    (LNEG, Long(i64::MIN), Long(i64::MIN)),
    (I2L, Int(7), Long(7)),
    (I2L, Int(-1), Long(-1)),
    (I2L, Int(i32::MIN), Long(-2_147_483_648)),
    (L2I, Long(-7), Int(-7)),
    (L2I, Long(4_294_967_295), Int(-1)),
    (L2I, Long(4_294_967_296), Int(0)),
    (L2I, Long(2_147_483_648), Int(i32::MIN)),
    (L2I, Long(-2_147_483_649), Int(i32::MAX)),
    (I2B, Int(127), Int(127)),
    (I2B, Int(128), Int(-128)),
    (I2B, Int(255), Int(-1)),
    (I2B, Int(256), Int(0)),
    (I2B, Int(-129), Int(127)),
    (I2C, Int(-1), Int(65_535)),
    (I2C, Int(65_535), Int(65_535)),
    (I2C, Int(65_536), Int(0)),
    (I2C, Int(-32_768), Int(32_768)),
    (I2S, Int(32_767), Int(32_767)),
    (I2S, Int(32_768), Int(-32_768)),
    (I2S, Int(65_535), Int(-1)),
    (I2S, Int(65_536), Int(0)),
    (I2S, Int(-32_769), Int(32_767)),
];

/// Two longs, and what lcmp says of the first: -1 where it is the lesser one, 0 where they are equal, and else 1.
const LONGS_COMPARED: &[(i64, i64, i32)] = &[
    (1, 2, -1),
    (2, 2, 0),
    (2, 1, 1),
    (-1, 1, -1),
    (4_294_967_296, 1, 1),
    (i64::MIN, i64::MAX, -1),
    (i64::MAX, i64::MIN, 1),
];

/// Divisions by 0, with their operands.
const DIVISIONS_BY_ZERO: &[(u8, Value, Value)] = &[
    (IDIV, Int(7), Int(0)),
    (IDIV, Int(0), Int(0)),
    (IREM, Int(i32::MIN), Int(0)),
    (LDIV, Long(7), Long(0)),
    (LREM, Long(0), Long(0)),
];

#[test]
fn ints(rt: HostRuntime) -> Result<(), Fail> {
    for &(op, x, y, wanted) in OF_TWO_INTS {
        expect_result(&rt, rt.alloc(), op, &[Int(x), Int(y)], Int(wanted))?;
    }
    Ok(())
}

#[test]
fn longs(rt: HostRuntime) -> Result<(), Fail> {
    for &(op, x, y, wanted) in OF_TWO_LONGS {
        expect_result(&rt, rt.alloc(), op, &[Long(x), Long(y)], Long(wanted))?;
    }
    for &(op, x, distance, wanted) in SHIFTS_OF_LONGS {
        expect_result(&rt, rt.alloc(), op, &[Long(x), Int(distance)], Long(wanted))?;
    }
    for &(x, y, wanted) in LONGS_COMPARED {
        expect_result(&rt, rt.alloc(), LCMP, &[Long(x), Long(y)], Int(wanted))?;
    }
    Ok(())
}

#[test]
fn conversions(rt: HostRuntime) -> Result<(), Fail> {
    for &(op, x, wanted) in OF_ONE {
        expect_result(&rt, rt.alloc(), op, &[x], wanted)?;
    }
    Ok(())
}

/// Asserts that java/lang/ArithmeticException is raised, and that the operands are left on the stack.
fn expect_refusal(rt: &impl Abort, alloc: Global, op: u8, operands: &[Value]) -> Result<(), Fail> {
    let locals = in_locals(alloc, operands)?;
    let mut code = loads(alloc, locals.as_slice())?;
    code.push(Op::Do(op))?;
    code.push(Op::Do(if op == IDIV || op == IREM {
        IRETURN
    } else {
        LRETURN
    }))?;
    let case = Case {
        code: code.as_slice(),
        begins: locals.as_slice(),
        after: After::Raise(Raise::Fresh(ClassId(19))),
        locals: locals.as_slice(),
        stack: operands,
    };
    expect_case(rt, alloc, &case)
}

#[test]
fn divisions_by_zero(rt: HostRuntime) -> Result<(), Fail> {
    for &(op, x, y) in DIVISIONS_BY_ZERO {
        expect_refusal(&rt, rt.alloc(), op, &[x, y])?;
    }
    Ok(())
}
