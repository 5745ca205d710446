//! Codes with as many catch entries as instructions.

use crate::codes::CodeWriter;
use crate::typing::{judged_alone, own_name, reference, taking};
use jk_model::opcodes::{ALOAD, ASTORE, ISTORE, NOP, RETURN, SIPUSH};
use jk_model::{ClassId, List, OutOfMemory};
use jk_model_classes::MethodRecord;
use std::alloc::Global;

/// java/lang/Throwable.
const THROWABLE: ClassId = ClassId(9);

/// How many slots the locals have, of which the first is a throwable.
const LOCALS: u16 = 60;

/// How many locals are stored into, after the first.
const STORED: u16 = 59;

/// A code that begins with a throwable on the stack, from the second place on.
fn begun(alloc: Global) -> Result<CodeWriter, OutOfMemory> {
    let mut code = CodeWriter::new(alloc, LOCALS, 2);
    code.put(ALOAD, 0)?;
    Ok(code)
}

/// The method of such a code, after a return is written.
fn ended(alloc: Global, mut code: CodeWriter) -> Result<MethodRecord, OutOfMemory> {
    code.put(RETURN, 0)?;
    let params = List::from_slice(alloc, &[reference(0, THROWABLE)])?;
    code.method(&taking(alloc, params)?, own_name(alloc)?)
}

/// A method of so many instructions, all of which are covered by as many catch entries. Each goes on at another place,
/// wherever the throwable is the whole stack.
fn method_of_handlers(alloc: Global, size: u16) -> Result<MethodRecord, OutOfMemory> {
    let mut code = begun(alloc)?;
    for _ in 2..size {
        code.put(NOP, 0)?;
    }
    for place in 0..size {
        code.catch(0, size, place.max(1))?;
    }
    ended(alloc, code)
}

/// It is judged.
pub fn handlers(alloc: Global, size: u16, calls: bool) -> Option<usize> {
    judged_alone(alloc, method_of_handlers(alloc, size), calls)
}

/// Writes a store of an int or of a throwable into each local in turn.
fn put_store(code: &mut CodeWriter, number: u16) -> Result<(), OutOfMemory> {
    let local = number % STORED + 1;
    if number % 2 == 0 {
        code.put(SIPUSH, 0)?;
        code.put(ISTORE, local)
    } else {
        code.put(ALOAD, 0)?;
        code.put(ASTORE, local)
    }
}

/// A method of so many instructions, an even number, which store now an int and now a throwable into each local, and of as
/// many catch entries: each covers what comes after another place, and goes on there, or a place later where more than the
/// throwable is on the stack.
fn method_of_ranges(alloc: Global, size: u16) -> Result<MethodRecord, OutOfMemory> {
    let mut code = begun(alloc)?;
    for number in 1..size / 2 {
        put_store(&mut code, number)?;
    }
    for place in 0..size {
        code.catch(place, size, place | 1)?;
    }
    ended(alloc, code)
}

/// It is judged.
pub fn nested(alloc: Global, size: u16, calls: bool) -> Option<usize> {
    judged_alone(alloc, method_of_ranges(alloc, size), calls)
}
