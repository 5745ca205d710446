//! Moves of entries on the operand stack. A long is one entry of two slots.

use crate::cases::{Case, expect_case, in_locals, loads};
use crate::methods::Op;
use jk_model::Value::{Int, Long, Null, Obj};
use jk_model::opcodes::{
    DUP, DUP_X1, DUP_X2, DUP2, DUP2_X1, DUP2_X2, NOP, POP, POP2, RETURN, SWAP,
};
use jk_model::{After, Value};
use std::alloc::Global;
use std::process::Abort;
use std::test::Fail;

/// Instructions, and the entries before and after them, the top one last.
const MOVES: &[(u8, &[Value], &[Value])] = &[
    (NOP, &[Int(1), Long(2)], &[Int(1), Long(2)]),
    (POP, &[Int(1), Int(2)], &[Int(1)]),
    (POP, &[Long(1), Null], &[Long(1)]),
    (POP2, &[Int(1), Int(2), Int(3)], &[Int(1)]),
    (POP2, &[Int(1), Int(2), Long(3)], &[Int(1), Int(2)]),
    (DUP, &[Int(1), Int(2)], &[Int(1), Int(2), Int(2)]),
    (DUP, &[Obj(1), Obj(2)], &[Obj(1), Obj(2), Obj(2)]),
    (
        DUP_X1,
        &[Int(1), Int(2), Int(3)],
        &[Int(1), Int(3), Int(2), Int(3)],
    ),
    // dup_x2 over two values of one slot, and over one of two
    (
        DUP_X2,
        &[Int(1), Int(2), Int(3), Int(4)],
        &[Int(1), Int(4), Int(2), Int(3), Int(4)],
    ),
    (
        DUP_X2,
        &[Int(1), Long(2), Int(3)],
        &[Int(1), Int(3), Long(2), Int(3)],
    ),
    // dup2 of two values of one slot, and of one of two
    (
        DUP2,
        &[Int(1), Int(2), Int(3)],
        &[Int(1), Int(2), Int(3), Int(2), Int(3)],
    ),
    (DUP2, &[Int(1), Long(2)], &[Int(1), Long(2), Long(2)]),
    // dup2_x1 of two values of one slot, and of one of two
    (
        DUP2_X1,
        &[Int(1), Int(2), Int(3), Int(4)],
        &[Int(1), Int(3), Int(4), Int(2), Int(3), Int(4)],
    ),
    (
        DUP2_X1,
        &[Int(1), Int(2), Long(3)],
        &[Int(1), Long(3), Int(2), Long(3)],
    ),
    // dup2_x2: two values over two, one of two slots over two, two over one of two slots, and one over one
    (
        DUP2_X2,
        &[Int(1), Int(2), Int(3), Int(4), Int(5)],
        &[Int(1), Int(4), Int(5), Int(2), Int(3), Int(4), Int(5)],
    ),
    (
        DUP2_X2,
        &[Int(1), Int(2), Int(3), Long(4)],
        &[Int(1), Long(4), Int(2), Int(3), Long(4)],
    ),
    (
        DUP2_X2,
        &[Int(1), Long(2), Int(3), Int(4)],
        &[Int(1), Int(3), Int(4), Long(2), Int(3), Int(4)],
    ),
    (
        DUP2_X2,
        &[Int(1), Long(2), Long(3)],
        &[Int(1), Long(3), Long(2), Long(3)],
    ),
    (SWAP, &[Int(1), Int(2), Int(3)], &[Int(1), Int(3), Int(2)]),
    (SWAP, &[Long(1), Int(2), Obj(1)], &[Long(1), Obj(1), Int(2)]),
];

/// Asserts which entries an instruction leaves.
fn expect_entries(
    rt: &impl Abort,
    alloc: Global,
    op: u8,
    before: &[Value],
    after: &[Value],
) -> Result<(), Fail> {
    let locals = in_locals(alloc, before)?;
    let mut code = loads(alloc, locals.as_slice())?;
    code.push(Op::Do(op))?;
    code.push(Op::Do(RETURN))?;
    let case = Case {
        code: code.as_slice(),
        begins: locals.as_slice(),
        after: After::Return(None),
        locals: locals.as_slice(),
        stack: after,
    };
    expect_case(rt, alloc, &case)
}

#[test]
fn stack_moves(rt: HostRuntime) -> Result<(), Fail> {
    for &(op, before, after) in MOVES {
        expect_entries(&rt, rt.alloc(), op, before, after)?;
    }
    Ok(())
}
