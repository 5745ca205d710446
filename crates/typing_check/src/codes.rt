//! Codes with places of instructions in place of those of bytes.

use crate::classes::LinkError;
use crate::scope::Scope;
use jk_model::opcodes::{GOTO, IFEQ, IFNONNULL, IFNULL, LOOKUPSWITCH, TABLESWITCH};
use jk_model::{Code, Handler, Instr, List, OutOfMemory, SwitchCase};
use jk_model_classes::{Caught, LinkedCode};
use jk_opcodes::{CodeError, decode};
use std::alloc::Global;

/// A longer code is not decoded.
const MOST_BYTES: usize = 65_535;

/// No entry of the pool is at fault where a code is none. No code that keeps the rules on one class file is so.
const BAD_CODE: LinkError = LinkError::Unlinked(0);

/// The places of instructions, by places of bytes.
#[derive(Drop)]
struct Places {
    /// For each byte of a code the place of the instruction that begins there; none where none does.
    of_bytes: Vec<Option<u32>>,
    /// How many instructions there are.
    count: u32,
}

/// The instructions of a code.
fn decoded(alloc: Global, bytes: &[u8]) -> Result<List<Instr>, LinkError> {
    if bytes.len() > MOST_BYTES {
        return Err(BAD_CODE);
    }
    match decode(alloc, bytes) {
        Ok(instrs) => Ok(instrs),
        Err(CodeError::OutOfMemory) => Err(LinkError::OutOfMemory),
        Err(_) => Err(BAD_CODE),
    }
}

/// No instruction at any of so many bytes.
fn no_places(alloc: Global, bytes: usize) -> Result<Vec<Option<u32>>, OutOfMemory> {
    let mut of_bytes = Vec::new(alloc);
    for _ in 0..bytes {
        of_bytes.push(None)?;
    }
    Ok(of_bytes)
}

/// The places of these instructions, whose code has so many bytes.
fn places_of(alloc: Global, instrs: &[Instr], bytes: usize) -> Result<Places, LinkError> {
    let mut of_bytes = no_places(alloc, bytes)?;
    let mut count = 0u32;
    for instr in instrs {
        if let Some(place) = of_bytes.get_mut(instr.at as usize) {
            *place = Some(count);
        }
        count = count.checked_add(1).ok_or(BAD_CODE)?;
    }
    Ok(Places { of_bytes, count })
}

/// The place of the instruction that begins at a byte.
fn place_at(places: &Places, byte: usize) -> Option<u32> {
    *places.of_bytes.get(byte)?
}

/// The place after the instructions before a byte, which may be the one after the last byte.
fn end_at(places: &Places, byte: usize) -> Option<u32> {
    if byte == places.of_bytes.len() {
        return Some(places.count);
    }
    place_at(places, byte)
}

/// Where a jump or a case leads; -1 where no instruction begins there.
fn target_at(places: &Places, target: i32) -> i32 {
    let place = usize::try_from(target)
        .ok()
        .and_then(|byte| place_at(places, byte));
    place
        .and_then(|place| i32::try_from(place).ok())
        .unwrap_or(-1)
}

/// Whether the first operand is where a jump or a switch leads.
fn leads(op: u8) -> bool {
    matches!(
        op,
        IFEQ..=GOTO | TABLESWITCH | LOOKUPSWITCH | IFNULL | IFNONNULL
    )
}

/// The cases of a switch.
fn linked_cases(
    alloc: Global,
    places: &Places,
    cases: &[SwitchCase],
) -> Result<List<SwitchCase>, OutOfMemory> {
    let mut linked = List::new(alloc);
    for case in cases {
        linked.push(SwitchCase {
            key: case.key,
            target: target_at(places, case.target),
        })?;
    }
    Ok(linked)
}

/// An instruction.
fn linked_instr(alloc: Global, places: &Places, instr: &Instr) -> Result<Instr, OutOfMemory> {
    let a = if leads(instr.op) {
        target_at(places, instr.a)
    } else {
        instr.a
    };
    Ok(Instr {
        at: instr.at,
        op: instr.op,
        a,
        b: instr.b,
        cases: linked_cases(alloc, places, instr.cases.as_slice())?,
    })
}

/// A catch entry.
fn caught(scope: &Scope<'_>, places: &Places, handler: &Handler) -> Result<Caught, LinkError> {
    let class = match handler.catch {
        0 => None,
        index => Some(scope.class(index)?),
    };
    Ok(Caught {
        start: place_at(places, usize::from(handler.start)).ok_or(BAD_CODE)?,
        end: end_at(places, usize::from(handler.end)).ok_or(BAD_CODE)?,
        handler: place_at(places, usize::from(handler.handler)).ok_or(BAD_CODE)?,
        class,
    })
}

/// The code of a method.
pub(crate) fn linked_code(scope: &Scope<'_>, code: &Code) -> Result<LinkedCode, LinkError> {
    let alloc = scope.alloc;
    let decoded = decoded(alloc, code.code.as_slice())?;
    let places = places_of(alloc, decoded.as_slice(), code.code.len())?;
    let mut instrs = List::new(alloc);
    for instr in decoded.as_slice() {
        instrs.push(linked_instr(alloc, &places, instr)?)?;
    }
    let mut handlers = List::new(alloc);
    for handler in code.handlers.as_slice() {
        handlers.push(caught(scope, &places, handler)?)?;
    }
    Ok(LinkedCode {
        max_stack: code.max_stack,
        max_locals: code.max_locals,
        instrs,
        handlers,
    })
}
