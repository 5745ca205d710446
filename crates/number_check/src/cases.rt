//! Methods with what they are to come to.

use crate::methods::Op;
use crate::running::run;
use jk_model::opcodes::{ALOAD, ARETURN, ILOAD, IRETURN, LLOAD, LRETURN};
use jk_model::{After, List, OutOfMemory, Value};
use std::alloc::Global;
use std::process::Abort;
use std::test::Fail;

/// A method, and what it is to come to.
#[derive(Clone, Copy)]
pub(crate) struct Case<'a> {
    pub(crate) code: &'a [Op<'a>],
    /// What the locals have as it begins, one for each slot: the arguments, and then those that are unset.
    pub(crate) begins: &'a [Value],
    /// What the last instruction answers.
    pub(crate) after: After,
    /// What the locals have then.
    pub(crate) locals: &'a [Value],
    /// What the operand stack has then, the top entry last.
    pub(crate) stack: &'a [Value],
}

/// Asserts what a method comes to.
pub(crate) fn expect_case(rt: &impl Abort, alloc: Global, case: &Case) -> Result<(), Fail> {
    let (code, begins) = (case.code, case.begins);
    let ended = run(rt, alloc, code, begins)?;
    let (after, locals, stack) = (ended.after, ended.locals.as_slice(), ended.stack.as_slice());
    assert!(rt; after == case.after, "{after:?} of {code:?} at {begins:?}");
    assert!(rt;
        locals == case.locals,
        "locals {locals:?} of {code:?} at {begins:?}"
    );
    assert!(rt;
        stack == case.stack,
        "stack {stack:?} of {code:?} at {begins:?}"
    );
    Ok(())
}

/// Asserts what each method of a table comes to.
pub(crate) fn expect_cases(rt: &impl Abort, alloc: Global, cases: &[Case]) -> Result<(), Fail> {
    for case in cases {
        expect_case(rt, alloc, case)?;
    }
    Ok(())
}

/// Asserts that a method returns a value, that nothing else is on its stack then, and that its locals are as before.
pub(crate) fn expect_value<'a>(
    rt: &impl Abort,
    alloc: Global,
    code: &'a [Op<'a>],
    locals: &'a [Value],
    value: Value,
) -> Result<(), Fail> {
    let case = Case {
        code,
        begins: locals,
        after: After::Return(Some(value)),
        locals,
        stack: &[],
    };
    expect_case(rt, alloc, &case)
}

/// Locals with these values, one after another: a long takes two.
pub(crate) fn in_locals(alloc: Global, values: &[Value]) -> Result<List<Value>, OutOfMemory> {
    let mut locals = List::new(alloc);
    for v in values {
        locals.push(*v)?;
        if let Value::Long(_) = v {
            locals.push(Value::Unset)?;
        }
    }
    Ok(locals)
}

/// The opcode that loads such a value.
fn load_of(v: Value) -> u8 {
    match v {
        Value::Int(_) => ILOAD,
        Value::Long(_) => LLOAD,
        _ => ALOAD,
    }
}

/// The opcode that returns such a value.
fn return_of(v: Value) -> u8 {
    match v {
        Value::Int(_) => IRETURN,
        Value::Long(_) => LRETURN,
        _ => ARETURN,
    }
}

/// A local or a place as an operand.
pub(crate) fn operand(n: usize) -> i32 {
    i32::try_from(n).unwrap_or(-1)
}

/// Loads of all of these locals' values.
pub(crate) fn loads(alloc: Global, locals: &[Value]) -> Result<List<Op<'static>>, OutOfMemory> {
    let mut code = List::new(alloc);
    for (i, v) in locals.iter().enumerate() {
        if *v != Value::Unset {
            code.push(Op::With(load_of(*v), operand(i)))?;
        }
    }
    Ok(code)
}

/// Asserts what an instruction makes of these operands: this value in their place.
pub(crate) fn expect_result(
    rt: &impl Abort,
    alloc: Global,
    op: u8,
    operands: &[Value],
    value: Value,
) -> Result<(), Fail> {
    let locals = in_locals(alloc, operands)?;
    let mut code = loads(alloc, locals.as_slice())?;
    code.push(Op::Do(op))?;
    code.push(Op::Do(return_of(value)))?;
    expect_value(rt, alloc, code.as_slice(), locals.as_slice(), value)
}
