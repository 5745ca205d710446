//! Calls that read an input. Each answers a number that is the same from run to run; where the input is
//! made alone, mostly its length.

use crate::inputs;
use const_pool::read_pool;
use descriptors::{field_type, method_type};
use jk_opcodes::decode;
use std::alloc::Global;
use system_table::{class_named, count, system_class};
use unit_text::units_of;

/// A longer text, descriptor or pool is not read.
const MOST: usize = 1 << 24;

/// Modified UTF-8 of so many bytes.
pub fn text(alloc: Global, size: usize, calls: bool) -> Option<usize> {
    let bytes = inputs::text(alloc, size).ok()?;
    if !calls || bytes.len() > MOST {
        return Some(bytes.len());
    }
    Some(units_of(alloc, &bytes).ok()?.len())
}

/// A descriptor of a field, with the name of a class of so many letters.
pub fn field(alloc: Global, size: usize, calls: bool) -> Option<usize> {
    let units = inputs::class_descriptor(alloc, size).ok()?;
    if !calls || units.len() > MOST {
        return Some(units.len());
    }
    Some(field_type(alloc, &units).ok()?.dims as usize)
}

/// A descriptor of a method with so many parameters.
pub fn method(alloc: Global, size: usize, calls: bool) -> Option<usize> {
    let units = inputs::method_descriptor(alloc, size).ok()?;
    if !calls || units.len() > MOST {
        return Some(units.len());
    }
    Some(method_type(alloc, &units).ok()?.params.len())
}

/// How many instructions a code has.
fn instructions(alloc: Global, code: &[u8]) -> Option<usize> {
    if code.len() > 65_535 {
        return None;
    }
    Some(decode(alloc, code).ok()?.len())
}

/// A code of so many loads.
pub fn loads(alloc: Global, size: usize, calls: bool) -> Option<usize> {
    let code = inputs::loads(alloc, size).ok()?;
    if !calls {
        return Some(code.len());
    }
    instructions(alloc, &code)
}

/// A code of a switch with so many pairs.
pub fn switch(alloc: Global, size: usize, calls: bool) -> Option<usize> {
    let code = inputs::lookup_switch(alloc, u16::try_from(size).ok()?).ok()?;
    if !calls {
        return Some(code.len());
    }
    instructions(alloc, &code)
}

/// A constant pool of so many entries.
pub fn pool(alloc: Global, size: usize, calls: bool) -> Option<usize> {
    let bytes = inputs::pool(alloc, u16::try_from(size).ok()?).ok()?;
    if !calls || bytes.len() > MOST {
        return Some(bytes.len());
    }
    Some(read_pool(alloc, &bytes, 0).ok()?.entries.len())
}

/// The units of a name.
fn units(alloc: Global, name: &str) -> Option<Vec<u16>> {
    let mut units = Vec::new(alloc);
    for byte in name.bytes() {
        units.push(u16::from(byte)).ok()?;
    }
    Some(units)
}

/// Each system class looked up by its name, so many times.
pub fn names(alloc: Global, size: usize, calls: bool) -> Option<usize> {
    let mut found = 0;
    for _ in 0..size {
        for number in 0..count() {
            let name = units(alloc, system_class(number).name)?;
            if calls && class_named(&name).is_none() {
                return None;
            }
            found = name.len();
        }
    }
    Some(found)
}
