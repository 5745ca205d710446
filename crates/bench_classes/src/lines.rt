//! Codes in which each instruction is gone over once or so: straight ones, ones of many leaders, and small ones.

use crate::codes::CodeWriter;
use crate::names::name;
use crate::records::Signature;
use crate::typing::{judged, judged_alone, own_name};
use domain_resolver::World;
use jk_model::opcodes::{GOTO, IADD, IFEQ, IINC, ILOAD, ISTORE, NOP, POP, RETURN, SIPUSH};
use jk_model::{List, OutOfMemory};
use jk_model_classes::MethodRecord;
use shared_values::Text;
use std::alloc::Global;

/// How many slots the locals have.
const LOCALS: u16 = 60;

/// What is written over and over in straight code.
const LINE: [u8; 7] = [NOP, SIPUSH, SIPUSH, SIPUSH, POP, POP, POP];

/// A method of so many instructions without jumps.
fn straight_method(alloc: Global, size: u16) -> Result<MethodRecord, OutOfMemory> {
    let mut code = CodeWriter::new(alloc, LOCALS, 3);
    for i in 1..size {
        code.put(LINE[usize::from(i % 7)], 0)?;
    }
    code.put(RETURN, 0)?;
    code.method(&Signature::empty(alloc)?, own_name(alloc)?)
}

/// It is judged.
pub fn straight(alloc: Global, size: u16, calls: bool) -> Option<usize> {
    judged_alone(alloc, straight_method(alloc, size), calls)
}

/// A method in which so many jumps follow one another, each to the next place.
fn method_of_leaders(alloc: Global, size: u16) -> Result<MethodRecord, OutOfMemory> {
    let mut code = CodeWriter::new(alloc, LOCALS, 1);
    for _ in 0..size {
        code.put(SIPUSH, 0)?;
        code.put(IFEQ, code.place().saturating_add(1))?;
    }
    code.put(RETURN, 0)?;
    code.method(&Signature::empty(alloc)?, own_name(alloc)?)
}

/// It is judged.
pub fn many_locals(alloc: Global, size: u16, calls: bool) -> Option<usize> {
    judged_alone(alloc, method_of_leaders(alloc, size), calls)
}

/// Where a block of the next method begins: after the first instruction, and three places after the block before it.
fn block(number: u16) -> u16 {
    number.saturating_mul(3).saturating_add(1)
}

/// A method of so many blocks. Control goes from its beginning to the last block, and from each to the one that is written
/// before it.
fn method_of_blocks(alloc: Global, size: u16) -> Result<MethodRecord, OutOfMemory> {
    let mut code = CodeWriter::new(alloc, LOCALS, 1);
    code.put(GOTO, block(size.saturating_sub(1)))?;
    for i in 0..size {
        code.put(SIPUSH, 0)?;
        code.put(ISTORE, i % LOCALS)?;
        match i.checked_sub(1) {
            Some(before) => code.put(GOTO, block(before))?,
            None => code.put(RETURN, 0)?,
        }
    }
    code.method(&Signature::empty(alloc)?, own_name(alloc)?)
}

/// It is judged.
pub fn goto_chain(alloc: Global, size: u16, calls: bool) -> Option<usize> {
    judged_alone(alloc, method_of_blocks(alloc, size), calls)
}

/// A small method: of eight instructions.
fn small_method(
    alloc: Global,
    signature: &Signature,
    number: u16,
) -> Result<MethodRecord, OutOfMemory> {
    let mut code = CodeWriter::new(alloc, 2, 2);
    code.put_all(&[SIPUSH, ISTORE, ILOAD, ILOAD, IADD])?;
    code.put(IFEQ, 7)?;
    code.put_all(&[IINC, RETURN])?;
    code.method(signature, Text::new(alloc, &name(1, number))?)
}

/// So many small methods.
fn method_list(alloc: Global, count: u16) -> Result<List<MethodRecord>, OutOfMemory> {
    let signature = Signature::empty(alloc)?;
    let mut methods = List::new(alloc);
    for i in 0..count {
        methods.push(small_method(alloc, &signature, i)?)?;
    }
    Ok(methods)
}

/// All of them are judged, as the methods of one class.
pub fn small_methods(alloc: Global, size: u16, calls: bool) -> Option<usize> {
    let mut world = World::new(alloc).ok()?;
    judged(alloc, &mut world, method_list(alloc, size).ok()?, calls)
}
