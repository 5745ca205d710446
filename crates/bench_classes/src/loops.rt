//! Codes in which locals rise: loops that are gone over as often as they do, and joins of classes far from one another.

use crate::codes::CodeWriter;
use crate::names::name;
use crate::records::{CLASS, OBJECT, class_record};
use crate::typing::{judged, judged_alone, own_name, reference, taking};
use crate::worlds::{after, put};
use domain_resolver::World;
use jk_model::opcodes::{AALOAD, ALOAD, ASTORE, GOTO, NOP, RETURN, SIPUSH};
use jk_model::{ClassId, List, OutOfMemory};
use jk_model_classes::{MethodRecord, TypeRef};
use std::alloc::Global;

/// How many classes the chain has.
const CHAIN: u16 = 200;

/// How many locals of the highest class come together with as many of the lowest class at a place.
const JOINED: u16 = 250;

/// At how many places they do.
const PLACES: u16 = 200;

/// Adds so many classes, each below the one before, and answers the first.
fn add_chain(alloc: Global, world: &mut World, count: u16) -> Option<ClassId> {
    let first = put(world, class_record(alloc, &name(2, 0), CLASS, OBJECT).ok()?)?;
    let mut lowest = first;
    for number in 1..count {
        lowest = put(
            world,
            class_record(alloc, &name(2, number), CLASS, lowest).ok()?,
        )?;
    }
    Some(first)
}

/// Parameters of so many classes of the chain, at most all, from the lowest one upwards.
fn parameters(alloc: Global, first: ClassId, count: u16) -> Result<List<TypeRef>, OutOfMemory> {
    let mut params = List::new(alloc);
    for number in 0..count {
        let place = (CHAIN - 1).saturating_sub(number.saturating_mul(CHAIN / count.max(1)));
        params.push(reference(0, after(first, place)))?;
    }
    Ok(params)
}

/// The place among so many parameters of the one that a local begins with, of so many locals.
fn parameter_of(local: u16, params: u16, locals: u16) -> u16 {
    let place = u32::from(local) * u32::from(params) / u32::from(locals.max(1));
    place.min(65_535) as u16
}

/// A method whose locals begin with classes of the chain, lower ones first. It goes on in a loop that stores each local into
/// the one before it.
fn method_of_moves(alloc: Global, first: ClassId, size: u16) -> Result<MethodRecord, OutOfMemory> {
    let params = size.min(CHAIN);
    let mut code = CodeWriter::new(alloc, size, 1);
    for local in (1..size).rev() {
        code.move_local(parameter_of(local, params, size), local)?;
    }
    let top = code.place();
    for local in 1..size {
        code.move_local(local, local - 1)?;
    }
    code.put(GOTO, top)?;
    let signature = taking(alloc, parameters(alloc, first, params)?)?;
    code.method(&signature, own_name(alloc)?)
}

/// It is judged.
pub fn rising(alloc: Global, size: u16, calls: bool) -> Option<usize> {
    let mut world = World::new(alloc).ok()?;
    let first = add_chain(alloc, &mut world, CHAIN)?;
    let mut methods = List::new(alloc);
    methods
        .push(method_of_moves(alloc, first, size).ok()?)
        .ok()?;
    judged(alloc, &mut world, methods, calls)
}

/// Writes a code whose locals all begin with what the first one has. It goes on in a loop that stores each local into the one
/// before it, and an element of the first into the last. Answers the place at which the loop begins.
fn write_ring(code: &mut CodeWriter, size: u16) -> Result<u16, OutOfMemory> {
    for local in 1..size {
        code.move_local(0, local)?;
    }
    let top = code.place();
    code.put(ALOAD, 0)?;
    for local in 1..size {
        code.move_local(local, local - 1)?;
    }
    code.put_all(&[SIPUSH, AALOAD])?;
    code.put(ASTORE, size.saturating_sub(1))?;
    code.put(GOTO, top)?;
    Ok(top)
}

/// The method with a code that takes an array of 255 dimensions.
fn taking_array(alloc: Global, code: CodeWriter) -> Result<MethodRecord, OutOfMemory> {
    let params = List::from_slice(alloc, &[reference(255, OBJECT)])?;
    code.method(&taking(alloc, params)?, own_name(alloc)?)
}

/// A method with a ring of locals.
fn method_of_ring(alloc: Global, size: u16) -> Result<MethodRecord, OutOfMemory> {
    let mut code = CodeWriter::new(alloc, size, 3);
    write_ring(&mut code, size)?;
    taking_array(alloc, code)
}

/// It is judged. In the end a local is no array any more, and so there is no typing.
pub fn ring(alloc: Global, size: u16, calls: bool) -> Option<usize> {
    judged_alone(alloc, method_of_ring(alloc, size), calls)
}

/// The same method with a switch after the loop that control never gets to. It has a case for each place of the loop, so each
/// is a leader.
fn method_of_leaders(alloc: Global, size: u16) -> Result<MethodRecord, OutOfMemory> {
    let mut code = CodeWriter::new(alloc, size, 3);
    let top = write_ring(&mut code, size)?;
    let end = code.place();
    code.put(SIPUSH, 0)?;
    code.put_switch(top, end)?;
    code.put(RETURN, 0)?;
    taking_array(alloc, code)
}

/// It is judged, and has no typing either.
pub fn ring_of_leaders(alloc: Global, size: u16, calls: bool) -> Option<usize> {
    judged_alone(alloc, method_of_leaders(alloc, size), calls)
}

/// Parameters of the lowest class, after one of the highest.
fn ends_of_chain(
    alloc: Global,
    highest: ClassId,
    lowest: ClassId,
) -> Result<List<TypeRef>, OutOfMemory> {
    let mut params = List::from_slice(alloc, &[reference(0, highest)])?;
    for _ in 0..JOINED {
        params.push(reference(0, lowest))?;
    }
    Ok(params)
}

/// A method that goes by a switch to many places with locals of the lowest class, and by the line with ones of the highest.
fn method_of_joins(
    alloc: Global,
    highest: ClassId,
    lowest: ClassId,
) -> Result<MethodRecord, OutOfMemory> {
    let mut code = CodeWriter::new(alloc, JOINED + 1, 1);
    let first = 2 + 2 * JOINED;
    code.put(SIPUSH, 0)?;
    code.put_switch(first, first + PLACES)?;
    for local in 1..=JOINED {
        code.move_local(0, local)?;
    }
    for _ in 0..PLACES {
        code.put(NOP, 0)?;
    }
    code.put(RETURN, 0)?;
    let params = ends_of_chain(alloc, highest, lowest)?;
    code.method(&taking(alloc, params)?, own_name(alloc)?)
}

/// It is judged, with the classes of a chain of so many.
pub fn far_joins(alloc: Global, size: u16, calls: bool) -> Option<usize> {
    let mut world = World::new(alloc).ok()?;
    let highest = add_chain(alloc, &mut world, size)?;
    let lowest = after(highest, size.saturating_sub(1));
    let mut methods = List::new(alloc);
    methods
        .push(method_of_joins(alloc, highest, lowest).ok()?)
        .ok()?;
    judged(alloc, &mut world, methods, calls)
}
