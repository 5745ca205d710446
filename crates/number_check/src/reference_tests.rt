//! References compared: null, objects and capabilities. Nothing is done with what they lead to.

use crate::cases::expect_value;
use crate::jump_tests::expect_jump;
use crate::methods::Op::{Do, With};
use jk_model::Value::{Cap, Null, Obj};
use jk_model::opcodes::{ACONST_NULL, ALOAD, ARETURN, IF_ACMPEQ, IF_ACMPNE, IFNONNULL, IFNULL};
use jk_model::{CapId, Value};
use std::test::Fail;

/// Two references, and whether they are the same.
const PAIRS: &[(Value, Value, bool)] = &[
    (Null, Null, true),
    (Null, Obj(1), false),
    (Obj(1), Null, false),
    (Obj(1), Obj(1), true),
    (Obj(1), Obj(2), false),
    (Obj(2), Obj(1), false),
    // a capability and an object of one number differ
    (Cap(CapId(1)), Obj(1), false),
    (Cap(CapId(1)), Null, false),
    (Cap(CapId(1)), Cap(CapId(1)), true),
    (Cap(CapId(1)), Cap(CapId(2)), false),
];

/// References, and whether they are null.
const NULLS: &[(Value, bool)] = &[(Null, true), (Obj(1), false), (Cap(CapId(1)), false)];

#[test]
fn references(rt: HostRuntime) -> Result<(), Fail> {
    for &(a, b, same) in PAIRS {
        expect_jump(&rt, rt.alloc(), IF_ACMPEQ, &[a, b], same)?;
        expect_jump(&rt, rt.alloc(), IF_ACMPNE, &[a, b], !same)?;
    }
    for &(a, null) in NULLS {
        expect_jump(&rt, rt.alloc(), IFNULL, &[a], null)?;
        expect_jump(&rt, rt.alloc(), IFNONNULL, &[a], !null)?;
        expect_value(&rt, rt.alloc(), &[With(ALOAD, 0), Do(ARETURN)], &[a], a)?;
    }
    expect_value(&rt, rt.alloc(), &[Do(ACONST_NULL), Do(ARETURN)], &[], Null)
}
