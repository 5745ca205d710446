//! Whole runs over files and sinks in memory: words that are no call of a script, and writes and reads that fail.

use crate::test_classes::HELLO;
use jk_model::OutOfMemory;
use jk_outside::{MemoryFiles, MemorySink};
use jkernel_runs::{Status, jkernel};
use std::alloc::Global;
use std::process::Abort;
use std::test::Fail;

/// Adds a file to the tree.
fn add(rt: &impl Abort, files: &mut MemoryFiles, path: &str, bytes: &[u8]) {
    assert!(rt; files.is_addable(path), "{path} fits the tree");
    assert!(rt; files.add(path, bytes).is_ok());
}

/// How a run ended, and what it put out.
#[derive(Drop)]
struct Outcome {
    status: Status,
    out: MemorySink,
    err: MemorySink,
}

/// Runs words over the folder `hello` and a script, with an output whose writes of these numbers fail.
fn run_words(
    rt: &impl Abort,
    alloc: Global,
    given: &[&str],
    script: &[u8],
    fails: &[u32],
) -> Result<Outcome, OutOfMemory> {
    let mut files = MemoryFiles::new(alloc);
    add(rt, &mut files, "root/hello/Hello.class", &HELLO);
    add(rt, &mut files, "script", script);
    let mut words = Vec::new(alloc);
    for word in given {
        words.push(String::from_str(alloc, word)?)?;
    }
    let mut out = MemorySink::with_room(alloc, 10_000, fails)?;
    let mut err = MemorySink::with_room(alloc, 1000, &[])?;
    let status = jkernel(alloc, words.as_slice(), &mut files, &mut out, &mut err);
    Ok(Outcome { status, out, err })
}

#[test]
fn words_are_refused(rt: HostRuntime) -> Result<(), Fail> {
    let usage = b"usage: jkernel [--pool WORDS] ROOT SCRIPT\n".as_slice();
    for (words, status, err) in [
        (
            ["--pool", "x", "root", "script"].as_slice(),
            Status::Usage,
            usage,
        ),
        (["root"].as_slice(), Status::Usage, usage),
        (
            ["root", "nothing"].as_slice(),
            Status::ReadFault,
            b"jkernel: cannot read\n",
        ),
    ] {
        let end = run_words(&rt, rt.alloc(), words, b"", &[])?;
        assert!(rt; end.status == status);
        assert!(rt; end.out.bytes().is_empty());
        assert!(rt; end.err.bytes() == err);
    }
    Ok(())
}

/// A script over the folder `hello`, the write that fails, and what went out before it.
type FailedWrite<'a> = (&'a [u8], u32, &'a [u8]);

/// A kill of a domain with two threads, and what its first lines are.
const KILLS: &[u8] = b"domain hello\nstart hello Hello\nstart hello Hello\nkill hello\n";

/// A line that doesn't go out ends the run, and no line after it goes out.
const FAILED_WRITES: [FailedWrite<'static>; 4] = [
    (
        b"domain hello\nstart hello Hello\nround 1 100\n",
        2,
        b"* domain hello loaded\n",
    ),
    (
        KILLS,
        4,
        b"* domain hello loaded\n* thread 1 started in hello\n* thread 2 started in hello\n",
    ),
    (
        KILLS,
        5,
        b"* domain hello loaded\n* thread 1 started in hello\n* thread 2 started in hello\n* domain hello killed\n",
    ),
    (
        KILLS,
        6,
        b"* domain hello loaded\n* thread 1 started in hello\n* thread 2 started in hello\n* domain hello killed\n* thread 1 ended by kill\n",
    ),
];

#[test]
fn a_write_fails(rt: HostRuntime) -> Result<(), Fail> {
    for (script, write, wanted) in FAILED_WRITES {
        let end = run_words(&rt, rt.alloc(), &["root", "script"], script, &[write])?;
        assert!(rt; end.status == Status::WriteFault, "write {write}");
        assert!(rt; end.out.bytes() == wanted, "write {write}");
        assert!(rt; end.err.bytes() == b"jkernel: cannot write\n".as_slice());
    }
    Ok(())
}

/// Runs a script that starts a thread before it opens a domain, over files whose call of this number fails.
fn run_failing(rt: &impl Abort, alloc: Global, call: u32) -> Result<Outcome, OutOfMemory> {
    let mut files = MemoryFiles::new(alloc);
    add(rt, &mut files, "root/hello/Hello.class", &HELLO);
    add(
        rt,
        &mut files,
        "script",
        b"start a B\ndomain hello\nturn 1\n",
    );
    files.fail_at(call)?;
    let mut words = Vec::new(alloc);
    words.push(String::from_str(alloc, "root")?)?;
    words.push(String::from_str(alloc, "script")?)?;
    let mut out = MemorySink::with_room(alloc, 1000, &[])?;
    let mut err = MemorySink::with_room(alloc, 1000, &[])?;
    let status = jkernel(alloc, words.as_slice(), &mut files, &mut out, &mut err);
    Ok(Outcome { status, out, err })
}

#[test]
fn each_failing_call_ends_the_run(rt: HostRuntime) -> Result<(), Fail> {
    // The script, the folder and the class file are read in this order, and nothing after them.
    let before = b"* start a refused S1\n".as_slice();
    for (call, status, out, err) in [
        (
            1,
            Status::ReadFault,
            b"".as_slice(),
            b"jkernel: cannot read\n".as_slice(),
        ),
        (
            2,
            Status::ReadFault,
            before,
            b"jkernel: cannot read\n".as_slice(),
        ),
        (
            3,
            Status::ReadFault,
            before,
            b"jkernel: cannot read\n".as_slice(),
        ),
        (
            4,
            Status::Done,
            b"* start a refused S1\n* domain hello loaded\n".as_slice(),
            b"".as_slice(),
        ),
    ] {
        let end = run_failing(&rt, rt.alloc(), call)?;
        assert!(rt; end.status == status, "the status where call {call} fails");
        assert!(rt;
            end.out.bytes() == out,
            "the output where call {call} fails"
        );
        assert!(rt;
            end.err.bytes() == err,
            "the message where call {call} fails"
        );
    }
    Ok(())
}
