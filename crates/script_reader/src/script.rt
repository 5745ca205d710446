//! A script as a whole.

ghost use Rattle.std.specs.Prelude.{◌≡◌, ◌≤◌, ◌⊎◌, List, length, IfOk, MatchResult, Ok, Err};
ghost use Rattle.jk_model.specs.ScriptGrammar.{events_of, line_event, lines_events};
ghost use Rattle.jk_model.specs.Script.{script_lines};
ghost use Rattle.script_reader.specs.Answers.{GivesAll, at_line};

use crate::error::{LineError, ScriptError};
use crate::line::line_event;
use jk_model::{Event, FaultKind, List, ScriptFault};
use std::alloc::Global;
use text_lines::next_line;

/// The most bytes of a script.
const MAX_BYTES: usize = 1_048_576;

/// The most lines of a script.
const MAX_LINES: u32 = 65_536;

/// The error for a line, counted from 1, or for the script as a whole at line 0.
fn fault_at(line: u32, kind: FaultKind) -> ScriptError
    ensures { result ≡ ScriptError.Fault (record { line = line; kind = kind }) }
{
    ScriptError::Fault(ScriptFault { line, kind })
}

/// What the line of a number stands for.
fn event_at(alloc: Global, number: u32, line: &[u8]) -> Result<Option<Event>, ScriptError>
    ensures { GivesAll (at_line number (line_event line.now)) result }
{
    match line_event(alloc, line) {
        Ok(event) => Ok(event),
        Err(LineError::Fault(kind)) => Err(fault_at(number, kind)),
        Err(LineError::OutOfMemory) => Err(ScriptError::OutOfMemory),
    }
}

/// The events of a script's lines, or the first line at fault.
fn read_lines(alloc: Global, bytes: &[u8]) -> Result<List<Event>, ScriptError>
    ensures { GivesAll (lines_events line_event 1 (script_lines bytes.now)) result }
{
    let mut events = List::new(alloc);
    let mut rest = bytes;
    let mut number = 1;
    while let Some((line, after)) = next_line(rest) {
        if number > MAX_LINES {
            return Err(fault_at(number, FaultKind::TooLong));
        }
        if let Some(event) = event_at(alloc, number, line)? {
            events.push(event)?;
        }
        number += 1;
        rest = after;
    }
    Ok(events)
}

/// The events of bytes, or the first fault.
fn read(alloc: Global, bytes: &[u8]) -> Result<List<Event>, ScriptError>
    ensures { GivesAll (events_of bytes.now) result }
{
    if bytes.len() > MAX_BYTES {
        return Err(fault_at(0, FaultKind::TooLong));
    }
    read_lines(alloc, bytes)
}

/// The events of a script, in the order of its lines, in time and memory linear in its bytes.
///
/// A script has at most 1,048,576 bytes and 65,536 lines, and each line is one of the grammar that `jk_model`'s
/// `ScriptGrammar` defines. The error names the first line at fault, counted from 1, and what is wrong with it;
/// its line is 0 where there are too many bytes.
pub fn read_script(alloc: Global, bytes: &[u8]) -> Result<List<Event>, ScriptError>
    ensures events { IfOk result (λ events. events_of bytes.now ≡ Ok events) }
    ensures few { IfOk result (λ events. length events ≤ 65536) }
    // What is a script is read, unless memory runs out, and it has no other events.
    ensures only { (events : List Event) → events_of bytes.now ≡ Ok events
        → MatchResult result (λ found. found ≡ events) (λ e. e ≡ ScriptError.OutOfMemory) }

    ensures fault { (f : ScriptFault) → result ≡ Err (ScriptError.Fault f) → events_of bytes.now ≡ Err f }
    // Bytes at fault are refused so, unless memory runs out.
    ensures only_fault { (f : ScriptFault) → events_of bytes.now ≡ Err f
        → MatchResult result (λ _. ⊥) (λ e. (e ≡ ScriptError.Fault f) ⊎ (e ≡ ScriptError.OutOfMemory)) }
{
    read(alloc, bytes)
}
