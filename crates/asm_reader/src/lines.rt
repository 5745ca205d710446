//! The lines of a text.

ghost use Rattle.std.specs.Prelude.{◌≡◌, ℕ, ◌<◌, ◌==◌, ◌∷◌, [], length, position, IfOk, MatchOption};
ghost use Rattle.std.specs.List.{list_all};
ghost use Rattle.asm_reader.specs.Words.{content, is_short_word, text_lines};
ghost use Rattle.asm_reader.specs.Readings.{AreReadings, IsReading};

use crate::item_lines::item_of;
use crate::items::LineReading;
use crate::words::{LineWords, Word, words_of};
use jk_model::{List, OutOfMemory};
use std::alloc::Global;

/// The most bytes that the class file has room for in one text.
const MAX_WORD: usize = 65_535;

/// Where the first line feed stands.
fn first_line_feed(text: &[u8]) -> Option<usize>
    ensures { result ≡ position (λ byte. byte == 10) text.now }
{
    text.iter().position(|byte| *byte == b'\n')
}

/// The first line and the text after it, or `None` where no line is left.
#[tactic(auto, using(crate::proofs::FirstLineAndRest::first_line, crate::proofs::FirstLineAndRest::last_line))]
fn next_line(text: &[u8]) -> Option<(&[u8], &[u8])>
    ensures { MatchOption result (text_lines text.now ≡ [])
        (λ found. (text_lines text.now ≡ found.0.now ∷ text_lines found.1.now) × (length found.1.now < length text.now)) }
{
    if text.is_empty() {
        return None;
    }
    match first_line_feed(text) {
        Some(end) => Some((&text[..end], &text[end + 1..])),
        None => Some((text, &text[text.len()..])),
    }
}

/// Whether a word has no more bytes than the class file has room for.
fn is_short(word: &Word) -> bool
    ensures { result ≡ is_short_word word.now }
{
    match word {
        Word::Plain(bytes) => bytes.len() <= MAX_WORD,
        Word::Quoted(text) => text.len() <= MAX_WORD,
    }
}

/// Whether this holds of each of these words.
fn are_short(words: &[Word]) -> bool
    ensures { result ≡ list_all is_short_word words.now }
{
    words.iter().all(|word| is_short(word))
}

/// How a line reads.
fn reading_of(alloc: Global, line: &[u8]) -> Result<LineReading, OutOfMemory>
    ensures { IfOk result (IsReading line.now) }
{
    let words = match words_of(alloc, line)? {
        LineWords::Empty => return Ok(LineReading::Empty),
        LineWords::Malformed => return Ok(LineReading::Bad),
        LineWords::Words(words) => words,
    };
    let Some(item) = item_of(alloc, words.as_slice())? else {
        return Ok(LineReading::Bad);
    };
    if are_short(words.as_slice()) {
        Ok(LineReading::Short(item))
    } else {
        Ok(LineReading::Long(item))
    }
}

/// How the lines of a text read, each by itself, in time linear in the text.
///
/// A line feed ends each line, and the last may do without one. `docs/FORMATS.md` has the form of each item.
pub fn read_lines(alloc: Global, text: &[u8]) -> Result<List<LineReading>, OutOfMemory>
    ensures read { IfOk result (λ readings. AreReadings (text_lines text.now) readings) }
{
    let mut readings = List::new(alloc);
    let mut rest = text;
    while let Some((line, after)) = next_line(rest) {
        readings.push(reading_of(alloc, line)?)?;
        rest = after;
    }
    Ok(readings)
}
