//! Folders of a table, put into a tree in memory.

use jk_model::{Bytes, OutOfMemory};
use jk_outside::MemoryFiles;
use jkasm::assemble;
use std::alloc::Global;
use std::process::Abort;
use std::test::Fail;

/// A file by its path below the folder, and its text, in which `|` stands for a line feed. Where the path ends in `.class` the text
/// is an assembler's, and the file is the class file that it stands for. Entries of its pool stand there in the order of their
/// first use: names of classes before their Class entries, and of a reference the class, the name, the descriptor, the pair of
/// these and then itself.
pub(crate) type File<'a> = (&'a str, &'a str);

/// A longer text is not assembled.
const MOST: usize = 1 << 20;

/// The bytes of a text.
fn bytes_of(alloc: Global, text: &str) -> Result<Bytes, OutOfMemory> {
    let mut bytes = Bytes::new(alloc);
    for byte in text.as_bytes() {
        bytes.push(if *byte == b'|' { b'\n' } else { *byte })?;
    }
    Ok(bytes)
}

/// The class file that an assembler's text stands for.
pub(crate) fn class_file(rt: &impl Abort, alloc: Global, text: &str) -> Result<Bytes, Fail> {
    let lines = bytes_of(alloc, text)?;
    assert!(rt; lines.len() < MOST);
    Ok(assemble(alloc, lines.as_slice())?)
}

/// Puts a file into a tree.
pub(crate) fn add(rt: &impl Abort, files: &mut MemoryFiles, path: &str, bytes: &[u8]) {
    assert!(rt; files.is_addable(path), "no file may stand at {path}");
    assert!(rt; files.add(path, bytes).is_ok());
}

/// Puts bytes as a file into the folder of a name below the root `r`.
pub(crate) fn add_bytes(
    rt: &impl Abort,
    alloc: Global,
    files: &mut MemoryFiles,
    name: &str,
    path: &str,
    bytes: &[u8],
) -> Result<(), Fail> {
    let path = format!(in alloc; "r/{name}/{path}")?;
    add(rt, files, path.as_str(), bytes);
    Ok(())
}

/// Puts the files of a table into the folder of a name below the root `r`.
pub(crate) fn add_folder(
    rt: &impl Abort,
    alloc: Global,
    files: &mut MemoryFiles,
    name: &str,
    folder: &[File],
) -> Result<(), Fail> {
    for (path, text) in folder {
        let bytes = if path.ends_with(".class") {
            class_file(rt, alloc, text)?
        } else {
            bytes_of(alloc, text)?
        };
        add_bytes(rt, alloc, files, name, path, bytes.as_slice())?;
    }
    Ok(())
}
