//! `typing_check FILE...`: whether the methods of classes have typings. Each FILE is an assembler's text. Its class is put
//! after those of the files before it, so a class comes after its parent, its interfaces and all others that it names.
#![tactic(auto)]

mod classes;
mod codes;
mod finding;
mod links;
mod members;
mod records;
mod scope;
mod typing;

use classes::Classes;
use finding::{Finding, finding_of};
use jk_model::OutOfMemory;
use std::process::ExitCode;
use std::{env, fs, io};

/// Says of a file what is found.
fn check(rt: &HostRuntime, classes: &mut Classes, name: &str) -> io::Result<()> {
    let text = fs::read(rt, name)?;
    match finding_of(rt.alloc(), classes, name, text.as_slice()) {
        Ok(Finding::Good) => println!(rt; "{name} good"),
        Ok(Finding::Broken(rule, number)) => println!(rt; "{name} {rule:?} {number}"),
        Ok(Finding::Line(line)) => println!(rt; "{name} line {line}"),
        Ok(Finding::Unlinked(index)) => println!(rt; "{name} unlinked {index}"),
        Ok(Finding::TooLong) => println!(rt; "{name} too long"),
        Ok(Finding::Unread) => println!(rt; "{name} unread"),
        Err(OutOfMemory) => Err(io::Error::from(io::ErrorKind::OutOfMemory)),
    }
}

fn main(rt: HostRuntime) -> io::Result<ExitCode> {
    let Ok(mut classes) = Classes::new(rt.alloc()) else {
        return Err(io::Error::from(io::ErrorKind::OutOfMemory));
    };
    for name in env::args(&rt)?.skip(1) {
        check(&rt, &mut classes, name.as_str())?;
    }
    Ok(ExitCode::from(0))
}
