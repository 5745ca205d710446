//! Small methods, as tables write them, and the classes that have them.

ghost use Rattle.std.specs.Prelude.{◌<◌, length};

use crate::fitting::{CAPABILITY, OBJECT};
use domain_resolver::World;
use jk_model::opcodes::{ARETURN, IINC, IRETURN, LRETURN};
use jk_model::{
    ClassId, DomainId, Instr, List, MemberId, MethodType, OutOfMemory, SwitchCase, Value,
};
use jk_model_classes::{BaseRef, Body, ClassRecord, Link, LinkedCode, MethodRecord, TypeRef};
use shared_values::{Shared, SharedKind, Text};
use std::alloc::Global;
use std::process::Abort;
use std::test::Fail;

/// An instruction of a table. A target is a place in the table.
#[derive(Clone, Copy, Debug)]
pub(crate) enum Op<'a> {
    /// An opcode without operands.
    Do(u8),
    /// An opcode with a constant, a local, an entry of the pool or a target.
    With(u8, i32),
    /// iinc: a local and a step.
    Increment(i32, i32),
    /// The opcode of a switch, its keys with a target for each, and its default.
    Switch(u8, &'a [(i32, i32)], i32),
}

/// What an entry of a constant pool has.
#[derive(Clone, Copy)]
enum Constant {
    Nothing,
    Int(i32),
    Long(i64),
}

/// The pool of each class. The first entry is never used, and neither is the one after a long.
const POOL: [Constant; 7] = [
    Constant::Nothing,
    Constant::Int(i32::MIN),
    Constant::Long(i64::MAX),
    Constant::Nothing,
    Constant::Int(65_536),
    Constant::Long(-5_000_000_000),
    Constant::Nothing,
];

/// Flags of a class: public.
const PUBLIC: u16 = 0x0001;

/// Flags of a method: public and static.
const PUBLIC_STATIC: u16 = 0x0009;

/// How many slots the operand stack of each method may have.
const MAX_STACK: u16 = 16;

const INT: TypeRef = TypeRef {
    dims: 0,
    base: BaseRef::Int,
};

const LONG: TypeRef = TypeRef {
    dims: 0,
    base: BaseRef::Long,
};

/// A decoded instruction. It stands at no byte, since a code is run by its places.
fn instruction(alloc: Global, op: &Op) -> Result<Instr, OutOfMemory> {
    let (op, a, b, keys) = match *op {
        Op::Do(op) => (op, 0, 0, [].as_slice()),
        Op::With(op, a) => (op, a, 0, [].as_slice()),
        Op::Increment(local, step) => (IINC, local, step, [].as_slice()),
        Op::Switch(op, keys, default) => (op, default, 0, keys),
    };
    let mut cases = List::new(alloc);
    for &(key, target) in keys {
        cases.push(SwitchCase { key, target })?;
    }
    Ok(Instr {
        at: 0,
        op,
        a,
        b,
        cases,
    })
}

/// The instructions of a table.
fn instructions(alloc: Global, code: &[Op]) -> Result<List<Instr>, OutOfMemory> {
    let mut instrs = List::new(alloc);
    for op in code {
        instrs.push(instruction(alloc, op)?)?;
    }
    Ok(instrs)
}

/// The type of a parameter whose argument is this; none of a local that is unset.
fn parameter_of(v: Value) -> Option<TypeRef> {
    match v {
        Value::Int(_) => Some(INT),
        Value::Long(_) => Some(LONG),
        Value::Null | Value::Obj(_) => Some(OBJECT),
        Value::Cap(_) => Some(CAPABILITY),
        Value::Unset => None,
    }
}

/// The types of a method's parameters, by its locals.
fn parameters(alloc: Global, locals: &[Value]) -> Result<List<TypeRef>, OutOfMemory> {
    let mut params = List::new(alloc);
    for v in locals {
        if let Some(t) = parameter_of(*v) {
            params.push(t)?;
        }
    }
    Ok(params)
}

/// The type of a method's result, by the return in its code; none where nothing is returned.
fn result_of(code: &[Op]) -> Option<TypeRef> {
    code.iter().find_map(|op| match op {
        Op::Do(IRETURN) => Some(INT),
        Op::Do(LRETURN) => Some(LONG),
        Op::Do(ARETURN) => Some(OBJECT),
        _ => None,
    })
}

/// What the entries of the pool lead to.
fn links(alloc: Global) -> Result<List<Link>, OutOfMemory> {
    let mut links = List::new(alloc);
    for constant in POOL {
        links.push(match constant {
            Constant::Nothing => Link::Nothing,
            Constant::Int(n) => Link::Int(n),
            Constant::Long(n) => Link::Long(n),
        })?;
    }
    Ok(links)
}

/// The record of a static method with this code, whose locals begin with these values. Its descriptor, which nothing here
/// looks at, says nothing of its parameters and its result.
fn method_record(alloc: Global, code: &[Op], locals: &[Value]) -> Result<MethodRecord, OutOfMemory>
    requires { length locals.now < 256 }
{
    let kind = MethodType {
        params: List::new(alloc),
        result: None,
    };
    Ok(MethodRecord {
        name: Text::new(alloc, &[u16::from(b'm')])?,
        flags: PUBLIC_STATIC,
        kind: SharedKind::new(alloc, kind)?,
        params: Shared::new(alloc, parameters(alloc, locals)?)?,
        result: result_of(code),
        body: Body::Linked(LinkedCode {
            max_stack: MAX_STACK,
            max_locals: locals.len() as u16,
            instrs: instructions(alloc, code)?,
            handlers: List::new(alloc),
        }),
    })
}

/// Adds a class of the first domain with such a method alone, after the system classes.
pub(crate) fn add_method(
    rt: &impl Abort,
    alloc: Global,
    world: &mut World,
    code: &[Op],
    locals: &[Value],
) -> Result<MemberId, Fail> {
    assert!(rt; locals.len() < 256);
    let mut methods = List::new(alloc);
    methods.push(method_record(alloc, code, locals)?)?;
    let record = ClassRecord {
        name: Text::new(alloc, &[u16::from(b'C')])?,
        home: Some(DomainId(0)),
        flags: PUBLIC,
        parent: Some(ClassId(0)),
        interfaces: List::new(alloc),
        fields: List::new(alloc),
        methods,
        links: links(alloc)?,
        references: List::new(alloc),
    };
    let count = world.classes().len();
    assert!(rt; 0 < count && count < 1000);
    let class = world.add_class(record)?;
    Ok(MemberId { class, index: 0 })
}
