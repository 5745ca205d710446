//! What one line of a script stands for.

ghost use Rattle.std.specs.Prelude.{◌≡◌};
ghost use Rattle.std.specs.List.{list_all};
ghost use Rattle.jk_model.specs.Script as script;
ghost use Rattle.jk_model.specs.ScriptGrammar as grammar;
ghost use Rattle.script_reader.specs.Answers.{Gives};

use crate::commands::command_line;
use crate::error::LineError;
use jk_model::{Event, FaultKind};
use std::alloc::Global;
use text_lines::next_word;

/// Whether a line may have a byte.
fn is_line_byte(byte: u8) -> bool
    ensures { result ≡ script.is_line_byte byte }
{
    byte == b'\t' || matches!(byte, b' '..=b'~')
}

/// Whether a line may have all of these bytes.
fn has_line_bytes(line: &[u8]) -> bool
    ensures { result ≡ list_all script.is_line_byte line.now }
{
    line.iter().all(|byte| is_line_byte(*byte))
}

/// The event that a line stands for, or `None` for a line without words or a comment.
pub(crate) fn line_event(alloc: Global, line: &[u8]) -> Result<Option<Event>, LineError>
    ensures { Gives (grammar.line_event line.now) result }
{
    if !has_line_bytes(line) {
        return Err(LineError::Fault(FaultKind::BadByte));
    }
    let Some((command, rest)) = next_word(line) else {
        return Ok(None);
    };
    if command[0] == b'#' {
        return Ok(None);
    }
    Ok(Some(command_line(alloc, command, rest)?))
}
