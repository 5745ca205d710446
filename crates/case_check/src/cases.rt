//! Cases of a text, and how each of them goes.
//!
//! A case begins with a line `== NAME`. Its parts follow, each behind a line `-- PATH`: `script`, what is to be printed as `expect`, and where
//! there are such parts the messages as `err` and the exit status as `status`; each other part is a file below the root: an assembler's text
//! where its path ends with `.asm`, and the bytes of a class file in hexadecimal digits where it ends with `.hex`. What stands before the
//! first case says what the cases are about.

use jk_model::OutOfMemory;
use jk_outside::{MemoryFiles, MemorySink};
use jkasm::{AsmError, assemble};
use jkernel_runs::jkernel;
use std::alloc::Global;

/// Bytes that a case may print at most.
const ROOM: usize = 1 << 20;

/// Bytes that an assembler's text may have at most.
const LONG: usize = 1 << 24;

/// Why a case isn't as it should be.
#[derive(Clone, Copy, Debug, PartialEq, Eq, Drop)]
pub enum Fault {
    /// A part has no path, or stands where no file may stand.
    BadPart,
    /// An assembler's text is at fault.
    BadClass,
    /// Something else was printed.
    Printed,
    /// Another message was given.
    Said,
    /// The run ended in another way.
    Ended,
}

/// What a case is to come to.
#[derive(Clone, Copy)]
struct Wanted<'a> {
    out: &'a str,
    err: &'a str,
    status: &'a str,
}

/// The number of an exit status, as a part has it.
fn status_number(status: u8) -> &'static str {
    match status {
        0 => "0",
        2 => "2",
        3 => "3",
        4 => "4",
        5 => "5",
        _ => "6",
    }
}

/// Puts a file at a path behind the text that its folder begins with.
fn add_file(
    alloc: Global,
    files: &mut MemoryFiles,
    folder: &str,
    path: &str,
    bytes: &[u8],
) -> Result<Option<Fault>, OutOfMemory> {
    let mut full = String::from_str(alloc, folder)?;
    full.push_str(path)?;
    if !files.is_addable(full.as_str()) {
        return Ok(Some(Fault::BadPart));
    }
    files.add(full.as_str(), bytes)?;
    Ok(None)
}

/// Puts a class file below the root.
fn add_bytes(
    alloc: Global,
    files: &mut MemoryFiles,
    name: &str,
    bytes: &[u8],
) -> Result<Option<Fault>, OutOfMemory> {
    let mut path = String::from_str(alloc, name)?;
    path.push_str(".class")?;
    add_file(alloc, files, "root/", path.as_str(), bytes)
}

/// Puts the class file of an assembler's text where its text stands.
fn add_class(
    alloc: Global,
    files: &mut MemoryFiles,
    name: &str,
    text: &str,
) -> Result<Option<Fault>, OutOfMemory> {
    if text.len() >= LONG {
        return Ok(Some(Fault::BadClass));
    }
    match assemble(alloc, text.as_bytes()) {
        Ok(class) => add_bytes(alloc, files, name, class.as_slice()),
        Err(AsmError::OutOfMemory) => Err(OutOfMemory),
        Err(AsmError::Line(_)) => Ok(Some(Fault::BadClass)),
    }
}

/// Puts the class file of these digits where they stand.
fn add_digits(
    alloc: Global,
    files: &mut MemoryFiles,
    name: &str,
    digits: &str,
) -> Result<Option<Fault>, OutOfMemory> {
    match hex::decode(alloc, digits.as_bytes()) {
        Ok(bytes) => add_bytes(alloc, files, name, bytes.as_slice()),
        Err(_) => Ok(Some(Fault::BadClass)),
    }
}

/// Takes a part of a case: a file, the script, or what is wanted.
fn take_part<'a>(
    alloc: Global,
    files: &mut MemoryFiles,
    wanted: &mut Wanted<'a>,
    part: &'a str,
) -> Result<Option<Fault>, OutOfMemory> {
    let (path, text) = part.split_once('\n').unwrap_or((part, ""));
    match path {
        "expect" => wanted.out = text,
        "err" => wanted.err = text,
        "status" => wanted.status = text,
        "script" => return add_file(alloc, files, "", path, text.as_bytes()),
        _ => {
            if let Some(name) = path.strip_suffix(".asm") {
                return add_class(alloc, files, name, text);
            }
            if let Some(name) = path.strip_suffix(".hex") {
                return add_digits(alloc, files, name, text);
            }
            return add_file(alloc, files, "root/", path, text.as_bytes());
        }
    }
    Ok(None)
}

/// Whether bytes are the lines of a text, each with its line feed; an empty text has no line.
fn are_lines(bytes: &[u8], text: &str) -> bool {
    if text.is_empty() {
        bytes.is_empty()
    } else {
        bytes.strip_suffix(b"\n") == Some(text.as_bytes())
    }
}

/// Runs the script of a tree, and compares.
fn run(
    alloc: Global,
    files: &mut MemoryFiles,
    wanted: Wanted<'_>,
) -> Result<Option<Fault>, OutOfMemory> {
    let mut words = Vec::new(alloc);
    words.push(String::from_str(alloc, "root")?)?;
    words.push(String::from_str(alloc, "script")?)?;
    let mut out = MemorySink::with_room(alloc, ROOM, &[])?;
    let mut err = MemorySink::with_room(alloc, ROOM, &[])?;
    let status = jkernel(alloc, words.as_slice(), files, &mut out, &mut err);
    if !are_lines(out.bytes(), wanted.out) {
        return Ok(Some(Fault::Printed));
    }
    if !are_lines(err.bytes(), wanted.err) {
        return Ok(Some(Fault::Said));
    }
    if status_number(status.code()) != wanted.status {
        return Ok(Some(Fault::Ended));
    }
    Ok(None)
}

/// How a case goes, by its parts: none where all is as it should be.
pub fn fault_of(alloc: Global, parts: &str) -> Result<Option<Fault>, OutOfMemory> {
    let mut files = MemoryFiles::new(alloc);
    let mut wanted = Wanted {
        out: "",
        err: "",
        status: "0",
    };
    for part in parts.split("\n-- ").skip(1) {
        if let Some(fault) = take_part(alloc, &mut files, &mut wanted, part)? {
            return Ok(Some(fault));
        }
    }
    run(alloc, &mut files, wanted)
}
