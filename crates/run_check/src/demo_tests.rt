//! The demo, as it is printed.

use jk_model::OutOfMemory;
use jk_outside::{MemoryFiles, MemorySink};
use jkernel_runs::{Status, jkernel};
use std::alloc::Global;
use std::process::Abort;
use std::str::from_utf8;
use std::test::Fail;

/// Runs the demo of a seed to its end, over files of which none is asked for.
fn run_demo(rt: &impl Abort, alloc: Global, seed: &str) -> Result<MemorySink, OutOfMemory> {
    let mut words = Vec::new(alloc);
    for word in ["--demo", seed] {
        words.push(String::from_str(alloc, word)?)?;
    }
    let mut files = MemoryFiles::new(alloc);
    files.fail_at(1)?;
    let mut out = MemorySink::with_room(alloc, 10_000, &[])?;
    let mut err = MemorySink::with_room(alloc, 1000, &[])?;
    let status = jkernel(alloc, words.as_slice(), &mut files, &mut out, &mut err);
    assert!(rt; status == Status::Done);
    assert!(rt; err.bytes().is_empty());
    Ok(out)
}

/// Each ring has the values 0 to 19, and eleven domains add 1 to each.
const SMALLEST: &str = "\
* domain base loaded
* domain d0 loaded
* domain d1 loaded
* thread 1 started in d0
* thread 2 started in d1
* thread 1 ended
* thread 2 ended
* thread 3 started in d0
* thread 4 started in d1
d0: 410
d1: 410
* thread 3 ended
* thread 4 ended
";

#[test]
fn the_smallest_ring(rt: HostRuntime) -> Result<(), Fail> {
    let out = run_demo(&rt, rt.alloc(), "0")?;
    assert_eq!(rt; from_utf8(out.bytes())?, SMALLEST);
    Ok(())
}

/// How many lines are this one.
fn count_lines(text: &str, line: &str) -> usize {
    text.lines().filter(|each| *each == line).count()
}

#[test]
fn a_ring_of_eight(rt: HostRuntime) -> Result<(), Fail> {
    let alloc = rt.alloc();
    let out = run_demo(&rt, alloc, "1000")?;
    let text = from_utf8(out.bytes())?;
    for domain in 0..8_u32 {
        let said = format!(in alloc; "d{domain}: 14823")?;
        assert_eq!(rt; count_lines(text, said.as_str()), 1, "{said}");
    }
    for thread in 1..17_u32 {
        let ended = format!(in alloc; "* thread {thread} ended")?;
        assert_eq!(rt; count_lines(text, ended.as_str()), 1, "{ended}");
    }
    assert_eq!(rt; text.lines().count(), 49);
    Ok(())
}
