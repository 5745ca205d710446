//! `class_check FILE...`: which of the rules C1 to C17 each class file breaks first, with its number. A file whose
//! name ends in `.asm` is an assembler's text, and the class file that it stands for is judged.
#![tactic(auto)]

mod finding;

use finding::{Finding, finding_of_file, finding_of_text};
use jk_model::OutOfMemory;
use std::alloc::Global;
use std::process::ExitCode;
use std::{env, fs, io};

/// A longer text is not assembled.
const MOST: usize = 1 << 23;

/// What is found of a file of this name and content.
fn found(alloc: Global, name: &str, bytes: &[u8]) -> Result<Finding, OutOfMemory> {
    if bytes.len() > MOST {
        return Ok(Finding::TooLong);
    }
    match name.strip_suffix(".asm") {
        Some(stem) => {
            let path = format!(in alloc; "{stem}.class")?;
            finding_of_text(alloc, bytes, path.as_str())
        }
        None => finding_of_file(alloc, bytes, name),
    }
}

/// Says of a file what is found.
fn check(rt: &HostRuntime, name: &str) -> io::Result<()> {
    let bytes = fs::read(rt, name)?;
    match found(rt.alloc(), name, bytes.as_slice()) {
        Ok(Finding::Good) => println!(rt; "{name} good"),
        Ok(Finding::Broken(rule, number)) => println!(rt; "{name} {rule:?} {number}"),
        Ok(Finding::Line(line)) => println!(rt; "{name} line {line}"),
        Ok(Finding::TooLong) => println!(rt; "{name} too long"),
        Ok(Finding::Differs) => println!(rt; "{name} differs from what is written of it"),
        Err(OutOfMemory) => Err(io::Error::from(io::ErrorKind::OutOfMemory)),
    }
}

fn main(rt: HostRuntime) -> io::Result<ExitCode> {
    for name in env::args(&rt)?.skip(1) {
        check(&rt, name.as_str())?;
    }
    Ok(ExitCode::from(0))
}
