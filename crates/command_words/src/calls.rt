//! What words call for.

ghost use Rattle.std.specs.Prelude.{◌≡◌, ◌≢◌, ◌⊎◌, ℕ, List, [], map, string_bytes, option_map, IfOk, MatchOption, MatchResult, Err};
ghost use Rattle.std.specs.Prelude.{codes};
ghost use Rattle.clap.specs.Faults.{fault_of};
ghost use Rattle.command_words.specs.CommandLine.{ArePlainWords, AreValuesOf, CallsDemo, CallsFor, CallsScript, HasCall, IsForScript, IsNoCall, command_app, is_option, value_of};

use crate::command::jkernel_command;
use crate::error::CallError;
use clap::error::ErrorKind;
use script_reader::number_within;
use std::alloc::Global;

/// What the words of a command line call for.
#[derive(Clone, Copy, Debug)]
pub enum Call<'a> {
    /// A run of a script over a folder of folders.
    Script { root: &'a str, script: &'a str },
    /// A run of the demo of a seed.
    Demo { seed: u32 },
}

/// The greatest seed.
const MAX_SEED: u32 = 999_999_999;

/// The values that the words of a command line give.
#[derive(Clone, Copy, Debug)]
struct Values<'a> {
    demo: Option<&'a str>,
    root: Option<&'a str>,
    script: Option<&'a str>,
}

/// The values that the words give, if they are words of the command.
fn values_of<'a>(alloc: Global, words: &'a [String]) -> Result<Values<'a>, CallError>
    ensures { MatchResult result
        (λ v. (fault_of command_app (map string_bytes words.entry.now) ≡ [])
        × (option_map (λ s. s.now) v.demo ≡ value_of (codes "demo") (map string_bytes words.entry.now))
        × (option_map (λ s. s.now) v.root ≡ value_of (codes "ROOT") (map string_bytes words.entry.now))
        × (option_map (λ s. s.now) v.script ≡ value_of (codes "SCRIPT") (map string_bytes words.entry.now)))
        (λ e. (e ≡ CallError.OutOfMemory)
        ⊎ ((e ≡ CallError.Usage) × (fault_of command_app (map string_bytes words.entry.now) ≢ []))) }
{
    let command = jkernel_command(alloc)?;
    match command.try_get_matches_from(words) {
        Ok(matches) => Ok(Values {
            demo: matches.get_str("demo"),
            root: matches.get_str("ROOT"),
            script: matches.get_str("SCRIPT"),
        }),
        Err(error) => match error.kind() {
            ErrorKind::OutOfMemory => Err(CallError::OutOfMemory),
            _ => Err(CallError::Usage),
        },
    }
}

/// What is called for by these values.
fn call_with<'a>(values: &Values<'a>) -> Option<Call<'a>>
    ensures { MatchOption result
        (HasCall (option_map (λ s. s.now) values.now.demo) (option_map (λ s. s.now) values.now.root)
        (option_map (λ s. s.now) values.now.script) → ⊥)
        (AreValuesOf (option_map (λ s. s.now) values.now.demo) (option_map (λ s. s.now) values.now.root)
        (option_map (λ s. s.now) values.now.script)) }
{
    match (values.demo, values.root, values.script) {
        (None, Some(root), Some(script)) => Some(Call::Script { root, script }),
        (Some(text), None, None) => {
            let seed = number_within(0, MAX_SEED, text.as_bytes())?;
            Some(Call::Demo { seed })
        }
        _ => None,
    }
}

/// Whether a word begins with `-`.
fn begins_with_dash(word: &str) -> bool
    ensures { result ≡ is_option word.now }
{
    match word.as_bytes() {
        [] => false,
        [first, ..] => *first == b'-',
    }
}

/// ROOT and SCRIPT, where the words are these two and neither begins with `-`.
fn plain_words(words: &[String]) -> Option<(&str, &str)>
    ensures { MatchOption result
        ((root script : List ℕ) → ArePlainWords (map string_bytes words.now) root script → ⊥)
        (λ call. ArePlainWords (map string_bytes words.now) call.0.now call.1.now) }
{
    match words {
        [root, script] => {
            if begins_with_dash(root.as_str()) || begins_with_dash(script.as_str()) {
                None
            } else {
                Some((root.as_str(), script.as_str()))
            }
        }
        _ => None,
    }
}

/// What the words after the program's name call for: `ROOT SCRIPT`, or `--demo SEED`. As with any command of `clap`,
/// `--` ends the options, and `--demo=SEED` is the same. Two words that don't begin with `-` take no memory.
pub fn call_of<'a>(alloc: Global, words: &'a [String]) -> Result<Call<'a>, CallError>
    ensures call { IfOk result (CallsFor (map string_bytes words.entry.now)) }
    // Words that call for something are taken so, unless memory runs out.
    ensures script { (root script : List ℕ) → CallsScript (map string_bytes words.entry.now) root script
        → MatchResult result (λ call. IsForScript call root script) (λ e. e ≡ CallError.OutOfMemory) }
    ensures demo { (seed : ℕ) → CallsDemo (map string_bytes words.entry.now) seed
        → MatchResult result (λ call. call ≡ Call.Demo seed) (λ e. e ≡ CallError.OutOfMemory) }
    ensures usage { result ≡ Err CallError.Usage → IsNoCall (map string_bytes words.entry.now) }
    // Two words that don't begin with `-` are the call of a script, even where no memory is left.
    ensures plain { (root script : List ℕ) → ArePlainWords (map string_bytes words.entry.now) root script
        → MatchResult result (λ call. IsForScript call root script) (λ e. ⊥) }
{
    if let Some((root, script)) = plain_words(words) {
        return Ok(Call::Script { root, script });
    }
    let values = values_of(alloc, words)?;
    call_with(&values).ok_or(CallError::Usage)
}
