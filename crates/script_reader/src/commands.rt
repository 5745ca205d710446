//! What a line of each command stands for, by the words after the command.

ghost use Rattle.std.specs.Prelude.{◌≡◌, false, MatchOption};
ghost use Rattle.jk_model.specs.Script.{words, is_name_byte};
ghost use Rattle.std.specs.List.{list_all};
ghost use Rattle.jk_model.specs.ScriptGrammar as grammar;
ghost use Rattle.script_reader.specs.Answers.{Gives};
ghost use Rattle.script_reader.specs.Commands.{names_command, command_name};
ghost use Rattle.script_reader.specs.StartWords.{start_words};

use crate::error::LineError;
use crate::number::number_within;
use crate::options::quotas_given;
use crate::words::needed_word;
use jk_model::{Bytes, Event, FaultKind, List};
use std::alloc::Global;
use text_lines::next_word;

/// The most bytes of a domain's name.
const MAX_NAME: usize = 32;

/// The most bytes of a class's name, and of each word after it.
const MAX_WORD: usize = 255;

/// The most words after a class's name.
const MAX_WORDS: usize = 255;

/// The most steps that one line gives.
const MAX_STEPS: u32 = 1_000_000_000;

/// The most rounds of a line, and the most steps that a thread gets in each.
const MAX_ROUNDS: u32 = 1_000_000;

/// The first word of a line.
#[derive(Clone, Copy, Debug)]
enum Command {
    Domain,
    Start,
    Turn,
    Round,
    Kill,
}

impl Command {
    /// The command that a word names.
    fn of(word: &[u8]) -> Option<Command>
        ensures { MatchOption result (names_command word.now ≡ false) (λ command. word.now ≡ command_name command) }
    {
        match word {
            b"domain" => Some(Command::Domain),
            b"start" => Some(Command::Start),
            b"turn" => Some(Command::Turn),
            b"round" => Some(Command::Round),
            b"kill" => Some(Command::Kill),
            _ => None,
        }
    }
}

/// Whether a domain's name may have a byte.
fn is_name_byte(byte: u8) -> bool
    ensures { result ≡ is_name_byte byte }
{
    matches!(byte, b'a'..=b'z' | b'A'..=b'Z' | b'0'..=b'9' | b'_' | b'-')
}

/// Whether a domain's name may have all of these bytes.
fn has_name_bytes(word: &[u8]) -> bool
    ensures { result ≡ list_all is_name_byte word.now }
{
    word.iter().all(|byte| is_name_byte(*byte))
}

/// Whether a word is a domain's name.
fn is_name(word: &[u8]) -> bool
    ensures { result ≡ grammar.is_name word.now }
{
    !word.is_empty() && word.len() <= MAX_NAME && has_name_bytes(word)
}

/// A line `domain NAME` with any of the options.
fn domain_line(alloc: Global, rest: &[u8]) -> Result<Event, LineError>
    ensures { Gives (grammar.domain_line (words rest.now)) result }
{
    let (name, rest) = needed_word(rest)?;
    if !is_name(name) {
        return Err(LineError::Fault(FaultKind::BadName));
    }
    let quotas = quotas_given(rest)?;
    let name = List::from_slice(alloc, name)?;
    Ok(Event::Domain { name, quotas })
}

/// The words after a class's name.
fn start_words(alloc: Global, rest: &[u8]) -> Result<List<Bytes>, LineError>
    ensures { Gives (start_words (words rest.now)) result }
{
    let mut taken = List::new(alloc);
    let mut rest = rest;
    while let Some((word, after)) = next_word(rest) {
        if word.len() > MAX_WORD {
            return Err(LineError::Fault(FaultKind::TooLong));
        }
        if taken.len() == MAX_WORDS {
            return Err(LineError::Fault(FaultKind::Extra));
        }
        taken.push(List::from_slice(alloc, word)?)?;
        rest = after;
    }
    Ok(taken)
}

/// A line `start NAME CLASS` with any words.
fn start_line(alloc: Global, rest: &[u8]) -> Result<Event, LineError>
    ensures { Gives (grammar.start_line (words rest.now)) result }
{
    let (name, rest) = needed_word(rest)?;
    if !is_name(name) {
        return Err(LineError::Fault(FaultKind::BadName));
    }
    let (class, rest) = needed_word(rest)?;
    if class.len() > MAX_WORD {
        return Err(LineError::Fault(FaultKind::BadName));
    }
    let words = start_words(alloc, rest)?;
    let name = List::from_slice(alloc, name)?;
    let class = List::from_slice(alloc, class)?;
    Ok(Event::Start { name, class, words })
}

/// An event, if no word follows.
fn nothing_more(rest: &[u8], event: Event) -> Result<Event, FaultKind>
    ensures { result ≡ grammar.nothing_more (words rest.now) event }
{
    if next_word(rest).is_some() {
        return Err(FaultKind::Extra);
    }
    Ok(event)
}

/// What follows a thread's number in a line `turn T` or `turn T N`.
fn turn_steps(thread: u32, rest: &[u8]) -> Result<Event, FaultKind>
    ensures { result ≡ grammar.turn_steps thread (words rest.now) }
{
    let Some((word, rest)) = next_word(rest) else {
        return Ok(Event::Turn { thread, steps: 1 });
    };
    let steps = number_within(1, MAX_STEPS, word).ok_or(FaultKind::BadNumber)?;
    nothing_more(rest, Event::Turn { thread, steps })
}

/// A line `turn T` or `turn T N`.
fn turn_line(rest: &[u8]) -> Result<Event, FaultKind>
    ensures { result ≡ grammar.turn_line (words rest.now) }
{
    let (word, rest) = needed_word(rest)?;
    let thread = number_within(0, u32::MAX, word).ok_or(FaultKind::BadNumber)?;
    turn_steps(thread, rest)
}

/// What follows the number of rounds in a line `round R Q`.
fn round_steps(rounds: u32, rest: &[u8]) -> Result<Event, FaultKind>
    ensures { result ≡ grammar.round_steps rounds (words rest.now) }
{
    let (word, rest) = needed_word(rest)?;
    let steps = number_within(1, MAX_ROUNDS, word).ok_or(FaultKind::BadNumber)?;
    if u64::from(rounds) * u64::from(steps) > u64::from(MAX_STEPS) {
        return Err(FaultKind::BadNumber);
    }
    nothing_more(rest, Event::Round { rounds, steps })
}

/// A line `round R Q`.
fn round_line(rest: &[u8]) -> Result<Event, FaultKind>
    ensures { result ≡ grammar.round_line (words rest.now) }
{
    let (word, rest) = needed_word(rest)?;
    let rounds = number_within(1, MAX_ROUNDS, word).ok_or(FaultKind::BadNumber)?;
    round_steps(rounds, rest)
}

/// A line `kill NAME`.
fn kill_line(alloc: Global, rest: &[u8]) -> Result<Event, LineError>
    ensures { Gives (grammar.kill_line (words rest.now)) result }
{
    let (name, rest) = needed_word(rest)?;
    if !is_name(name) {
        return Err(LineError::Fault(FaultKind::BadName));
    }
    if next_word(rest).is_some() {
        return Err(LineError::Fault(FaultKind::Extra));
    }
    let name = List::from_slice(alloc, name)?;
    Ok(Event::Kill { name })
}

/// A line that begins with a word, and goes on with these.
pub(crate) fn command_line(alloc: Global, word: &[u8], rest: &[u8]) -> Result<Event, LineError>
    ensures { Gives (grammar.command_line word.now (words rest.now)) result }
{
    match Command::of(word) {
        Some(Command::Domain) => domain_line(alloc, rest),
        Some(Command::Start) => start_line(alloc, rest),
        Some(Command::Turn) => Ok(turn_line(rest)?),
        Some(Command::Round) => Ok(round_line(rest)?),
        Some(Command::Kill) => kill_line(alloc, rest),
        None => Err(LineError::Fault(FaultKind::UnknownWord)),
    }
}
