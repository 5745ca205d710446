//! Jumps on ints, and methods that go round in loops.

use crate::cases::{Case, expect_cases, expect_value, in_locals, loads, operand};
use crate::methods::Op::{self, Do, Increment, With};
use jk_model::After::Return;
use jk_model::Value;
use jk_model::Value::{Int, Long, Unset};
use jk_model::opcodes::{
    GOTO, IADD, IF_ICMPEQ, IF_ICMPGE, IF_ICMPGT, IF_ICMPLE, IF_ICMPLT, IF_ICMPNE, IFEQ, IFGE, IFGT,
    IFLE, IFLT, IFNE, ILOAD, IREM, IRETURN, ISTORE, LCMP, LCONST_0, LLOAD, LMUL, LRETURN, LSTORE,
    LSUB, SIPUSH,
};
use std::alloc::Global;
use std::process::Abort;
use std::test::Fail;

/// Jumps on an int, and whether they are taken.
const AGAINST_ZERO: &[(u8, i32, bool)] = &[
    (IFEQ, -1, false),
    (IFEQ, 0, true),
    (IFEQ, 1, false),
    (IFEQ, i32::MIN, false),
    (IFNE, -1, true),
    (IFNE, 0, false),
    (IFNE, 1, true),
    (IFNE, i32::MIN, true),
    (IFLT, -1, true),
    (IFLT, 0, false),
    (IFLT, 1, false),
    (IFLT, i32::MIN, true),
    (IFGE, -1, false),
    (IFGE, 0, true),
    (IFGE, 1, true),
    (IFGE, i32::MIN, false),
    (IFGT, -1, false),
    (IFGT, 0, false),
    (IFGT, 1, true),
    (IFGT, i32::MAX, true),
    (IFLE, -1, true),
    (IFLE, 0, true),
    (IFLE, 1, false),
    (IFLE, i32::MAX, false),
];

/// Jumps on two ints, the operands in the order in which they are pushed, and whether they are taken.
const OF_TWO_INTS: &[(u8, i32, i32, bool)] = &[
    (IF_ICMPEQ, 1, 2, false),
    (IF_ICMPEQ, 2, 2, true),
    (IF_ICMPEQ, 2, 1, false),
    (IF_ICMPEQ, 0, i32::MIN, false),
    (IF_ICMPNE, 1, 2, true),
    (IF_ICMPNE, 2, 2, false),
    (IF_ICMPNE, 2, 1, true),
    (IF_ICMPNE, 0, i32::MIN, true),
    (IF_ICMPLT, 1, 2, true),
    (IF_ICMPLT, 2, 2, false),
    (IF_ICMPLT, 2, 1, false),
    (IF_ICMPLT, -1, 1, true),
    (IF_ICMPLT, i32::MIN, i32::MAX, true),
    (IF_ICMPGE, 1, 2, false),
    (IF_ICMPGE, 2, 2, true),
    (IF_ICMPGE, 2, 1, true),
    (IF_ICMPGE, -1, 1, false),
    (IF_ICMPGE, i32::MIN, i32::MAX, false),
    (IF_ICMPGT, 1, 2, false),
    (IF_ICMPGT, 2, 2, false),
    (IF_ICMPGT, 2, 1, true),
    (IF_ICMPGT, 1, -1, true),
    (IF_ICMPGT, i32::MAX, i32::MIN, true),
    (IF_ICMPLE, 1, 2, true),
    (IF_ICMPLE, 2, 2, true),
    (IF_ICMPLE, 2, 1, false),
    (IF_ICMPLE, 1, -1, false),
    (IF_ICMPLE, i32::MAX, i32::MIN, false),
];

/// Asserts whether a jump is taken. It leads over a return of 0 to one of 1.
pub(crate) fn expect_jump(
    rt: &impl Abort,
    alloc: Global,
    op: u8,
    operands: &[Value],
    taken: bool,
) -> Result<(), Fail> {
    let locals = in_locals(alloc, operands)?;
    let mut code = loads(alloc, locals.as_slice())?;
    let taken_to = operand(code.len().saturating_add(3));
    code.push(Op::With(op, taken_to))?;
    for value in [0, 1] {
        code.push(Op::With(SIPUSH, value))?;
        code.push(Op::Do(IRETURN))?;
    }
    expect_value(
        rt,
        alloc,
        code.as_slice(),
        locals.as_slice(),
        Int(i32::from(taken)),
    )
}

#[test]
fn jumps(rt: HostRuntime) -> Result<(), Fail> {
    for &(op, x, taken) in AGAINST_ZERO {
        expect_jump(&rt, rt.alloc(), op, &[Int(x)], taken)?;
    }
    for &(op, x, y, taken) in OF_TWO_INTS {
        expect_jump(&rt, rt.alloc(), op, &[Int(x), Int(y)], taken)?;
    }
    expect_jump(&rt, rt.alloc(), GOTO, &[], true)
}

/// Methods that jump backwards.
const LOOPS: &[Case] = &[
    // the sum of the numbers from 1 to the argument
    Case {
        code: &[
            With(SIPUSH, 0),
            With(ISTORE, 1),
            With(SIPUSH, 1),
            With(ISTORE, 2),
            With(ILOAD, 2),
            With(ILOAD, 0),
            With(IF_ICMPGT, 13),
            With(ILOAD, 1),
            With(ILOAD, 2),
            Do(IADD),
            With(ISTORE, 1),
            Increment(2, 1),
            With(GOTO, 4),
            With(ILOAD, 1),
            Do(IRETURN),
        ],
        begins: &[Int(10), Unset, Unset],
        after: Return(Some(Int(55))),
        locals: &[Int(10), Int(55), Int(11)],
        stack: &[],
    },
    // the product of the numbers from the argument down to 1
    Case {
        code: &[
            With(LCONST_0, 1),
            With(LSTORE, 2),
            With(LLOAD, 0),
            With(LCONST_0, 0),
            Do(LCMP),
            With(IFLE, 15),
            With(LLOAD, 2),
            With(LLOAD, 0),
            Do(LMUL),
            With(LSTORE, 2),
            With(LLOAD, 0),
            With(LCONST_0, 1),
            Do(LSUB),
            With(LSTORE, 0),
            With(GOTO, 2),
            With(LLOAD, 2),
            Do(LRETURN),
        ],
        begins: &[Long(20), Unset, Unset, Unset],
        after: Return(Some(Long(2_432_902_008_176_640_000))),
        locals: &[Long(0), Unset, Long(2_432_902_008_176_640_000), Unset],
        stack: &[],
    },
    // the greatest common divisor of the arguments: 1071 = 2 * 462 + 147, 462 = 3 * 147 + 21, 147 = 7 * 21
    Case {
        code: &[
            With(ILOAD, 0),
            With(ILOAD, 1),
            Do(IREM),
            With(ILOAD, 1),
            With(ISTORE, 0),
            With(ISTORE, 1),
            With(ILOAD, 1),
            With(IFNE, 0),
            With(ILOAD, 0),
            Do(IRETURN),
        ],
        begins: &[Int(1071), Int(462)],
        after: Return(Some(Int(21))),
        locals: &[Int(21), Int(0)],
        stack: &[],
    },
];

#[test]
fn loops(rt: HostRuntime) -> Result<(), Fail> {
    expect_cases(&rt, rt.alloc(), LOOPS)
}
