//! What is found of one assembler's text.

ghost use Rattle.std.specs.Prelude.{◌<◌, ◌^◌, length};

use crate::classes::{Classes, LinkError};
use crate::typing::first_broken;
use class_reader::{ReadRefusal, read_class};
use class_rules::first_fault;
use class_writer::laws::one_spelling;
use jk_model::{ClassFile, OutOfMemory, Rule};
use jkasm::{AsmError, assemble};
use std::alloc::Global;

/// What is found of a text.
#[derive(Clone, Copy, Debug, PartialEq, Eq)]
pub(crate) enum Finding {
    /// Its class breaks none of the rules that are asked.
    Good,
    /// The first rule that its class breaks, of C6 to C17 and then of C24 and C23, and the number of that.
    Broken(Rule, u32),
    /// This line is at fault.
    Line(u32),
    /// This entry of the pool leads to nothing: it names a class or a member that isn't known. The number is 0 where a code
    /// isn't linked for another reason.
    Unlinked(u16),
    /// The text has over 8,388,608 bytes, or the class file that it stands for over 1,048,576. It was not judged.
    TooLong,
    /// What it stands for is no class file. No text is found so.
    Unread,
}

/// A longer text is not assembled.
const MOST_TEXT: usize = 1 << 23;

/// A longer class file is not judged.
const MOST_BYTES: usize = 1 << 20;

/// What is found of a file of this name and content. The class is put after the others where it is linked.
pub(crate) fn finding_of(
    alloc: Global,
    classes: &mut Classes,
    name: &str,
    text: &[u8],
) -> Result<Finding, OutOfMemory> {
    if text.len() > MOST_TEXT {
        return Ok(Finding::TooLong);
    }
    let stem = name.strip_suffix(".asm").unwrap_or(name);
    let path = format!(in alloc; "{stem}.class")?;
    match assemble(alloc, text) {
        Ok(bytes) => finding_of_bytes(alloc, classes, path.as_str(), bytes.as_slice()),
        Err(AsmError::Line(line)) => Ok(Finding::Line(line)),
        Err(AsmError::OutOfMemory) => Err(OutOfMemory),
    }
}

/// What is found of a class file under this path: the rules on one class file come before those on typing.
fn finding_of_bytes(
    alloc: Global,
    classes: &mut Classes,
    path: &str,
    bytes: &[u8],
) -> Result<Finding, OutOfMemory> {
    if bytes.len() > MOST_BYTES {
        return Ok(Finding::TooLong);
    }
    let file = match read_class(alloc, bytes) {
        Ok(file) => file,
        Err(ReadRefusal::OutOfMemory) => return Err(OutOfMemory),
        Err(_) => return Ok(Finding::Unread),
    };
    one_spelling();
    match first_fault(alloc, &file, path)? {
        Some(fault) => Ok(Finding::Broken(fault.rule, fault.number)),
        None => finding_of_class(alloc, classes, &file),
    }
}

/// What is found of a class that keeps the rules on one class file.
fn finding_of_class(
    alloc: Global,
    classes: &mut Classes,
    file: &ClassFile,
) -> Result<Finding, OutOfMemory> {
    let class = match classes.link(file) {
        Ok(class) => class,
        Err(LinkError::Unlinked(index)) => return Ok(Finding::Unlinked(index)),
        Err(LinkError::OutOfMemory) => return Err(OutOfMemory),
    };
    match first_broken(alloc, classes.table(), class)? {
        Some((rule, number)) => Ok(Finding::Broken(rule, number)),
        None => Ok(Finding::Good),
    }
}
