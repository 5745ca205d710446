//! Scripts with what they stand for, and scripts at fault with the first line that is and its fault.

use crate::rows::SCRIPTS;
use jk_model::{Bytes, Event, Quotas};
use script_reader::{ScriptError, read_script};
use std::alloc::Global;
use std::str::from_utf8;
use std::test::Fail;

/// An event as text.
pub(crate) fn told(alloc: Global, event: &Event) -> Result<String, Fail> {
    match event {
        Event::Domain { name, quotas } => told_domain(alloc, from_utf8(name.as_slice())?, quotas),
        Event::Start { name, class, words } => {
            let (name, class) = (from_utf8(name.as_slice())?, from_utf8(class.as_slice())?);
            told_start(alloc, name, class, words.as_slice())
        }
        Event::Turn { thread, steps } => Ok(format!(in alloc; "turn {thread} {steps}")?),
        Event::Round { rounds, steps } => Ok(format!(in alloc; "round {rounds} {steps}")?),
        Event::Kill { name } => Ok(format!(in alloc; "kill {}", from_utf8(name.as_slice())?)?),
    }
}

fn told_domain(alloc: Global, name: &str, quotas: &Quotas) -> Result<String, Fail> {
    let (heap, chunks, caps) = (quotas.heap, quotas.chunks, quotas.caps);
    let (threads, names, steps) = (quotas.threads, quotas.names, quotas.steps);
    Ok(format!(in alloc; "domain {name} {heap} {chunks} {caps} {threads} {names} {steps:?}")?)
}

fn told_start(alloc: Global, name: &str, class: &str, words: &[Bytes]) -> Result<String, Fail> {
    let mut text = format!(in alloc; "start {name} {class}")?;
    for word in words {
        text.push_str(" ")?;
        text.push_str(from_utf8(word.as_slice())?)?;
    }
    Ok(text)
}

/// Events as text, each behind a space.
fn all_told(alloc: Global, events: &[Event]) -> Result<String, Fail> {
    let mut text = String::new(alloc);
    for event in events {
        text.push_str(" ")?;
        text.push_str(told(alloc, event)?.as_str())?;
    }
    Ok(text)
}

/// What is answered of a script, as text.
fn answer(alloc: Global, script: &[u8]) -> Result<String, Fail> {
    match read_script(alloc, script) {
        Ok(events) => all_told(alloc, events.as_slice()),
        Err(ScriptError::Fault(fault)) => {
            Ok(format!(in alloc; "{} {:?}", fault.line, fault.kind)?)
        }
        Err(ScriptError::OutOfMemory) => Err("out of memory".into()),
    }
}

/// What is answered of a script in which `|` stands for the end of a line.
fn answer_of(alloc: Global, question: &str) -> Result<String, Fail> {
    let mut script = Vec::new(alloc);
    for byte in question.as_bytes() {
        script.push(if *byte == b'|' { b'\n' } else { *byte })?;
    }
    answer(alloc, script.as_slice())
}

#[test]
fn scripts(rt: HostRuntime) -> Result<(), Fail> {
    for row in SCRIPTS.lines() {
        let (question, wanted) = row.split_once(" -> ").ok_or("a row")?;
        let found = answer_of(rt.alloc(), question)?;
        assert!(rt; found.as_str().trim() == wanted, "{question:?}: {found}");
    }
    Ok(())
}

/// A text before others, a text that is repeated so many times, a last one, and the answer; of a long answer how many bytes it has.
type Row = (
    &'static [u8],
    &'static [u8],
    usize,
    &'static [u8],
    &'static str,
);

/// Scripts as long as they may be, and longer; words as long as they may be, as many as there may be, and more.
const LONG: &[Row] = &[
    (b"", b"\n", 65_536, b"", ""),
    (b"", b"\n", 65_537, b"", "65537 TooLong"),
    (b"", b" ", 1_048_576, b"", ""),
    (b"", b" ", 1_048_577, b"", "0 TooLong"),
    (b"", b"9", 1_048_576, b"", "1 UnknownWord"),
    (b"turn ", b"9", 1_000_000, b"", "1 BadNumber"),
    (b"start a ", b"/", 255, b" w", "266 bytes"),
    (b"start a ", b"/", 256, b"", "1 BadName"),
    (b"start a b ", b"w", 255, b"", "266 bytes"),
    (b"start a b ", b"w", 256, b"", "1 TooLong"),
    (b"start a b", b" w", 255, b"", "520 bytes"),
    (b"start a b", b" w", 256, b"", "1 Extra"),
    (b"start a b ", b"w ", 255, &[b'w'; 256], "1 TooLong"),
];

fn long_script(alloc: Global, row: &Row) -> Result<Vec<u8>, Fail> {
    let (first, repeated, count, last, _) = row;
    let mut script = Vec::from_slice(alloc, first)?;
    for _ in 0..*count {
        script.extend_from_slice(repeated)?;
    }
    script.extend_from_slice(last)?;
    Ok(script)
}

/// What is answered of a script; of a long answer how many bytes it has.
fn short_answer(alloc: Global, script: &[u8]) -> Result<String, Fail> {
    let found = answer(alloc, script)?;
    let length = found.as_str().len();
    if length > 100 {
        return Ok(format!(in alloc; "{length} bytes")?);
    }
    Ok(found)
}

#[test]
fn long_scripts(rt: HostRuntime) -> Result<(), Fail> {
    for (i, row) in LONG.iter().enumerate() {
        let script = long_script(rt.alloc(), row)?;
        let found = short_answer(rt.alloc(), script.as_slice())?;
        assert!(rt; found.as_str() == row.4, "row {i}: {found}");
    }
    Ok(())
}
