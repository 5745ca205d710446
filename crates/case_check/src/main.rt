//! `case_check FILE...`: runs the cases of each FILE, with all that is in them, and says of which one something else comes than is written
//! there. `cases.rt` says how a file of cases is written.
#![tactic(auto)]

mod cases;

use cases::fault_of;
use jk_model::OutOfMemory;
use std::process::ExitCode;
use std::{env, fs, io};

/// Runs the cases of a text, and says how many of them are as they should be.
fn check(rt: &HostRuntime, name: &str, text: &str) -> io::Result<()> {
    let text = text.strip_suffix('\n').unwrap_or(text);
    let mut good: u32 = 0;
    for case in text.split("\n== ").skip(1) {
        let title = case.split_once('\n').map_or(case, |(title, _)| title);
        match fault_of(rt.alloc(), case) {
            Ok(None) => good = good.saturating_add(1),
            Ok(Some(fault)) => println!(rt; "{name} {title}: {fault:?}")?,
            Err(OutOfMemory) => return Err(io::Error::from(io::ErrorKind::OutOfMemory)),
        }
    }
    println!(rt; "{name}: {good} as written")
}

fn main(rt: HostRuntime) -> io::Result<ExitCode> {
    for name in env::args(&rt)?.skip(1) {
        let text = fs::read_to_string(&rt, name.as_str())?;
        check(&rt, name.as_str(), text.as_str())?;
    }
    Ok(ExitCode::from(0))
}
