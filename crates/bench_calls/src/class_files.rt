//! Class files and an assembler's text, each made to a size in time linear in it, and calls that read, judge, write
//! and assemble them.

use class_reader::read_class;
use class_rules::first_fault;
use class_writer::{is_writable, write_class};
use jk_model::ClassFile;
use jkasm::assemble;
use std::alloc::{AllocError, Global};
use std::fmt::Write;

/// A longer class file is not read.
const MOST: usize = 1 << 24;

/// Which call is made of a class file.
#[derive(Clone, Copy, Debug)]
pub enum ClassCall {
    /// None: the file is made alone.
    Nothing,
    /// It is read.
    Read,
    /// It is read, and it is asked whether it can be written.
    Ask,
    /// After that it is judged.
    Judge,
    /// Or it is written.
    Write,
}

/// Puts a text of up to 65,535 bytes into a pool.
fn put_text(out: &mut Vec<u8>, text: &[u8]) -> Result<(), AllocError> {
    let len = u16::try_from(text.len()).unwrap_or(u16::MAX);
    let [high, low] = len.to_be_bytes();
    out.extend_from_slice(&[1, high, low])?;
    out.extend_from_slice(text)
}

/// The head of a file of version 48.0 whose pool has so many entries after the first five: the class `A`, its
/// parent, and the text `I`.
fn head(alloc: Global, more: u16) -> Result<Vec<u8>, AllocError> {
    let [high, low] = more.saturating_add(6).to_be_bytes();
    let mut out = Vec::new(alloc);
    out.extend_from_slice(&[0xca, 0xfe, 0xba, 0xbe, 0, 0, 0, 48, high, low])?;
    put_text(&mut out, b"A")?;
    out.extend_from_slice(&[7, 0, 1])?;
    put_text(&mut out, b"java/lang/Object")?;
    out.extend_from_slice(&[7, 0, 3])?;
    put_text(&mut out, b"I")?;
    Ok(out)
}

/// The lowest digit of a number to the base 16, as one of sixteen letters.
fn letter(n: u16) -> u8 {
    (n % 16) as u8 + b'a'
}

/// The four digits of a number to the base 16, as letters.
fn letters(n: u16) -> [u8; 4] {
    [letter(n / 4096), letter(n / 256), letter(n / 16), letter(n)]
}

/// A class with so many fields, whose names differ in their last letters.
fn fields(alloc: Global, size: u16) -> Result<Vec<u8>, AllocError> {
    let mut out = head(alloc, size)?;
    for i in 0..size {
        let [a, b, c, d] = letters(i);
        put_text(&mut out, &[b'a', b'a', a, b, c, d])?;
    }
    let [high, low] = size.to_be_bytes();
    out.extend_from_slice(&[0, 0x21, 0, 2, 0, 4, 0, 0, high, low])?;
    for i in 0..size {
        let [high, low] = i.saturating_add(6).to_be_bytes();
        out.extend_from_slice(&[0, 1, high, low, 0, 5, 0, 0])?;
    }
    out.extend_from_slice(&[0, 0, 0, 0])?;
    Ok(out)
}

/// A class with one method, of so many jumps, each to itself.
fn jumps(alloc: Global, size: u16) -> Result<Vec<u8>, AllocError> {
    let mut out = head(alloc, 3)?;
    put_text(&mut out, b"Code")?;
    put_text(&mut out, b"m")?;
    put_text(&mut out, b"()V")?;
    out.extend_from_slice(&[
        0, 0x21, 0, 2, 0, 4, 0, 0, 0, 0, 0, 1, 0, 9, 0, 7, 0, 8, 0, 1, 0, 6,
    ])?;
    let bytes = u32::from(size) * 3;
    out.extend_from_slice(&(bytes + 12).to_be_bytes())?;
    out.extend_from_slice(&[0, 0, 0, 0])?;
    out.extend_from_slice(&bytes.to_be_bytes())?;
    for _ in 0..size {
        out.extend_from_slice(&[0xa7, 0, 0])?;
    }
    out.extend_from_slice(&[0, 0, 0, 0, 0, 0])?;
    Ok(out)
}

/// A class whose pool has a long text, and so many Class entries of that name.
fn names(alloc: Global, size: u16) -> Result<Vec<u8>, AllocError> {
    let mut out = head(alloc, size.saturating_add(1))?;
    put_text(&mut out, vec![in alloc; b'a'; 30_000]?.as_slice())?;
    for _ in 0..size {
        out.extend_from_slice(&[7, 0, 6])?;
    }
    out.extend_from_slice(&[0, 0x21, 0, 2, 0, 4, 0, 0, 0, 0, 0, 0, 0, 0])?;
    Ok(out)
}

/// The class file of a kind, made to a size.
pub fn class_file(alloc: Global, kind: &str, size: u16) -> Option<Vec<u8>> {
    match kind {
        "fields" => fields(alloc, size).ok(),
        "jumps" => jumps(alloc, size).ok(),
        "names" => names(alloc, size).ok(),
        _ => None,
    }
}

/// What the call answers of a record, in a number: 0 where it is without fault.
fn judged(alloc: Global, class: &ClassFile, call: ClassCall) -> Option<usize> {
    if !is_writable(class) {
        return None;
    }
    match call {
        ClassCall::Judge => match first_fault(alloc, class, "A.class").ok()? {
            Some(fault) => Some(fault.number as usize + 1),
            None => Some(0),
        },
        ClassCall::Write => Some(write_class(alloc, class).ok()?.len()),
        _ => Some(class.pool.len()),
    }
}

/// What a call answers of a class file, in a number.
pub fn class_call(alloc: Global, bytes: &[u8], call: ClassCall) -> Option<usize> {
    if bytes.len() > MOST {
        return None;
    }
    match call {
        ClassCall::Nothing => Some(bytes.len()),
        ClassCall::Read => Some(read_class(alloc, bytes).ok()?.pool.len()),
        _ => judged(alloc, &read_class(alloc, bytes).ok()?, call),
    }
}

/// What a call answers, by its name and the kind of the file. Where it is not made, all before it is.
pub fn answer(alloc: Global, call: &str, size: u16, calls: bool) -> Option<usize> {
    let (name, kind) = call.split_once('-')?;
    let call = match (name, calls) {
        ("read", false) => ClassCall::Nothing,
        ("read", true) => ClassCall::Read,
        ("judge", true) => ClassCall::Judge,
        ("write", true) => ClassCall::Write,
        ("judge" | "write", false) => ClassCall::Ask,
        _ => return None,
    };
    let bytes = class_file(alloc, kind, size)?;
    class_call(alloc, bytes.as_slice(), call)
}

/// The text of a class with one method, of so many instructions, each with a label and a constant of its own.
fn assembler_text(alloc: Global, size: u16) -> Result<String, AllocError> {
    let mut text = String::new(alloc);
    text.push_str("class 0021 A java/lang/Object\nmethod 0009 m ()V 1 0\n")?;
    for i in 0..size {
        writeln!(text, "L{i}: ldc_w int {i}")?;
    }
    text.push_str("return\nend\n")?;
    Ok(text)
}

/// How many bytes the text of a class is assembled to.
pub fn assembled(alloc: Global, size: usize, calls: bool) -> Option<usize> {
    let text = assembler_text(alloc, u16::try_from(size).ok()?).ok()?;
    if !calls || text.len() >= MOST {
        return Some(text.len());
    }
    Some(assemble(alloc, text.as_bytes()).ok()?.len())
}
