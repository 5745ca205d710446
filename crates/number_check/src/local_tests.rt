//! Constants, and loads and stores of locals.

use crate::cases::{Case, expect_cases};
use crate::methods::Op::{Do, Increment, With};
use jk_model::After::Return;
use jk_model::CapId;
use jk_model::Value::{Cap, Int, Long, Null, Obj, Unset};
use jk_model::opcodes::{
    ACONST_NULL, ALOAD, ARETURN, ASTORE, ILOAD, IRETURN, ISTORE, LCONST_0, LDC_W, LDC2_W, LLOAD,
    LRETURN, LSTORE, RETURN, SIPUSH,
};
use std::test::Fail;

/// Methods that push constants. The pool of their class has ints at 1 and 4, and longs at 2 and 5.
const CONSTANTS: &[Case] = &[
    Case {
        code: &[With(SIPUSH, -1), With(SIPUSH, 5), Do(RETURN)],
        begins: &[],
        after: Return(None),
        locals: &[],
        stack: &[Int(-1), Int(5)],
    },
    Case {
        code: &[With(SIPUSH, -32_768), With(SIPUSH, 32_767), Do(IRETURN)],
        begins: &[],
        after: Return(Some(Int(32_767))),
        locals: &[],
        stack: &[Int(-32_768)],
    },
    Case {
        code: &[With(LCONST_0, 1), With(LCONST_0, 0), Do(LRETURN)],
        begins: &[],
        after: Return(Some(Long(0))),
        locals: &[],
        stack: &[Long(1)],
    },
    Case {
        code: &[Do(ACONST_NULL), Do(RETURN)],
        begins: &[],
        after: Return(None),
        locals: &[],
        stack: &[Null],
    },
    Case {
        code: &[With(LDC_W, 1), With(LDC_W, 4), Do(IRETURN)],
        begins: &[],
        after: Return(Some(Int(65_536))),
        locals: &[],
        stack: &[Int(i32::MIN)],
    },
    Case {
        code: &[With(LDC2_W, 2), With(LDC2_W, 5), Do(LRETURN)],
        begins: &[],
        after: Return(Some(Long(-5_000_000_000))),
        locals: &[],
        stack: &[Long(i64::MAX)],
    },
];

/// Methods that load, store and count locals.
const LOCALS: &[Case] = &[
    // each load pushes what the local has
    Case {
        code: &[With(ILOAD, 3), With(ILOAD, 0), With(LLOAD, 1), Do(RETURN)],
        begins: &[Int(1), Long(2), Unset, Int(3)],
        after: Return(None),
        locals: &[Int(1), Long(2), Unset, Int(3)],
        stack: &[Int(3), Int(1), Long(2)],
    },
    Case {
        code: &[With(ALOAD, 2), With(ALOAD, 0), With(ALOAD, 1), Do(ARETURN)],
        begins: &[Obj(1), Obj(2), Cap(CapId(1))],
        after: Return(Some(Obj(2))),
        locals: &[Obj(1), Obj(2), Cap(CapId(1))],
        stack: &[Cap(CapId(1)), Obj(1)],
    },
    // each store takes the top entry off
    Case {
        code: &[With(ILOAD, 0), With(ILOAD, 1), With(ISTORE, 2), Do(RETURN)],
        begins: &[Int(1), Int(2), Int(3), Int(4)],
        after: Return(None),
        locals: &[Int(1), Int(2), Int(2), Int(4)],
        stack: &[Int(1)],
    },
    Case {
        code: &[With(ILOAD, 0), With(ISTORE, 1), With(ILOAD, 1), Do(IRETURN)],
        begins: &[Int(1), Unset],
        after: Return(Some(Int(1))),
        locals: &[Int(1), Int(1)],
        stack: &[],
    },
    // a long takes two locals, of which the second can't be used any more
    Case {
        code: &[With(LLOAD, 0), With(LLOAD, 0), With(LSTORE, 2), Do(RETURN)],
        begins: &[Long(5), Unset, Int(3), Int(4), Int(6)],
        after: Return(None),
        locals: &[Long(5), Unset, Long(5), Unset, Int(6)],
        stack: &[Long(5)],
    },
    Case {
        code: &[
            With(LDC2_W, 5),
            With(LSTORE, 0),
            With(LLOAD, 0),
            Do(LRETURN),
        ],
        begins: &[Unset, Unset],
        after: Return(Some(Long(-5_000_000_000))),
        locals: &[Long(-5_000_000_000), Unset],
        stack: &[],
    },
    Case {
        code: &[
            With(ALOAD, 0),
            With(ASTORE, 1),
            Do(ACONST_NULL),
            With(ASTORE, 0),
            Do(RETURN),
        ],
        begins: &[Obj(1), Obj(2), Obj(1)],
        after: Return(None),
        locals: &[Null, Obj(1), Obj(1)],
        stack: &[],
    },
    // iinc changes the local alone, and wraps
    Case {
        code: &[With(ILOAD, 1), Increment(1, -3), With(ILOAD, 1), Do(RETURN)],
        begins: &[Int(7), Int(1)],
        after: Return(None),
        locals: &[Int(7), Int(-2)],
        stack: &[Int(1), Int(-2)],
    },
    Case {
        code: &[
            Increment(0, 1),
            Increment(1, -1),
            Increment(2, 32_767),
            Increment(3, -32_768),
            Do(RETURN),
        ],
        begins: &[Int(i32::MAX), Int(i32::MIN), Int(1), Int(0)],
        after: Return(None),
        locals: &[Int(i32::MIN), Int(i32::MAX), Int(32_768), Int(-32_768)],
        stack: &[],
    },
];

#[test]
fn constants(rt: HostRuntime) -> Result<(), Fail> {
    expect_cases(&rt, rt.alloc(), CONSTANTS)
}

#[test]
fn locals(rt: HostRuntime) -> Result<(), Fail> {
    expect_cases(&rt, rt.alloc(), LOCALS)
}
