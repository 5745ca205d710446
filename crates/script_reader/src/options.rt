//! The options of a `domain` line.

ghost use Rattle.std.specs.Prelude.{◌≡◌, ℕ, false, List, [], None, IfSome, MatchOption, MatchResult};
ghost use Rattle.std.specs.Option.{ok_or};
ghost use Rattle.jk_model.specs.Script as script;
ghost use Rattle.jk_model.specs.ScriptGrammar as grammar;
ghost use Rattle.script_reader.specs.Options as options;

use crate::number::number_within;
use crate::words::needed_word;
use jk_model::{FaultKind, Quotas};
use text_lines::next_word;

/// An option of a `domain` line.
#[derive(Clone, Copy, Debug)]
pub(crate) enum OptionName {
    Heap,
    Stack,
    Caps,
    Threads,
    Names,
    Steps,
}

impl OptionName {
    /// The option that a word names.
    fn of(word: &[u8]) -> Option<OptionName>
        ensures { MatchOption result (options.option_named word.now ≡ None) (λ option. word.now ≡ options.name_of option) }
    {
        match word {
            b"heap" => Some(OptionName::Heap),
            b"stack" => Some(OptionName::Stack),
            b"caps" => Some(OptionName::Caps),
            b"threads" => Some(OptionName::Threads),
            b"names" => Some(OptionName::Names),
            b"steps" => Some(OptionName::Steps),
            _ => None,
        }
    }

    /// Its least and its greatest number.
    fn range(self) -> (u32, u32)
        ensures { IfSome (options.option_named (options.name_of self)) (λ option. (result.0 ≡ option.low) × (result.1 ≡ option.high)) }
    {
        match self {
            OptionName::Heap => (64, 16_777_216),
            OptionName::Stack => (2, 262_144),
            OptionName::Caps => (0, 1_000_000),
            OptionName::Threads => (1, 4096),
            OptionName::Names => (0, 4096),
            OptionName::Steps => (0, 1_000_000_000),
        }
    }
}

/// The numbers of the options that were given.
#[derive(Clone, Copy, Debug)]
pub(crate) struct Given {
    heap: Option<u32>,
    stack: Option<u32>,
    caps: Option<u32>,
    threads: Option<u32>,
    names: Option<u32>,
    steps: Option<u32>,
}

/// Before the first option.
const NOTHING_GIVEN: Given = Given {
    heap: None,
    stack: None,
    caps: None,
    threads: None,
    names: None,
    steps: None,
};

impl Given {
    /// Whether an option was given.
    fn has(&self, option: OptionName) -> bool
        ensures { result ≡ options.has self.now option }
    {
        match option {
            OptionName::Heap => self.heap.is_some(),
            OptionName::Stack => self.stack.is_some(),
            OptionName::Caps => self.caps.is_some(),
            OptionName::Threads => self.threads.is_some(),
            OptionName::Names => self.names.is_some(),
            OptionName::Steps => self.steps.is_some(),
        }
    }

    /// Puts an option's number.
    fn put(&mut self, option: OptionName, number: u32)
        ensures { self.new ≡ options.put self.old option number }
    {
        match option {
            OptionName::Heap => self.heap = Some(number),
            OptionName::Stack => self.stack = Some(number),
            OptionName::Caps => self.caps = Some(number),
            OptionName::Threads => self.threads = Some(number),
            OptionName::Names => self.names = Some(number),
            OptionName::Steps => self.steps = Some(number),
        }
    }

    /// The quotas of a domain with these options.
    fn quotas(&self) -> Quotas
        ensures { result ≡ options.quotas_of self.now }
    {
        Quotas {
            heap: self.heap.unwrap_or(65_536),
            chunks: self.stack.unwrap_or(256),
            caps: self.caps.unwrap_or(64),
            threads: self.threads.unwrap_or(16),
            names: self.names.unwrap_or(16),
            steps: self.steps,
        }
    }

    /// The option that a word names. It is at fault where there is none, or where it was given already.
    fn new_option(&self, word: &[u8]) -> Result<OptionName, FaultKind>
        ensures { MatchResult result (λ option. (word.now ≡ options.name_of option) × (options.has self.now option ≡ false))
            (λ kind. options.NamesNone self.now word.now kind) }
    {
        let option = OptionName::of(word).ok_or(FaultKind::UnknownWord)?;
        if self.has(option) {
            return Err(FaultKind::Extra);
        }
        Ok(option)
    }
}

/// The number that a word writes, where the option may have it.
fn option_number(option: OptionName, word: &[u8]) -> Result<u32, FaultKind>
    ensures { IfSome (options.option_named (options.name_of option))
        (λ row. ok_or (grammar.number_within row.low row.high word.now) FaultKind.BadNumber ≡ result) }
{
    let (low, high) = option.range();
    number_within(low, high, word).ok_or(FaultKind::BadNumber)
}

/// The quotas of a domain with the options that some words give.
pub(crate) fn quotas_given(words: &[u8]) -> Result<Quotas, FaultKind>
    ensures { (name : List ℕ) → options.domain_with name result ≡ grammar.with_options name [] script.default_quotas (script.words words.now) }
{
    let mut given = NOTHING_GIVEN;
    let mut rest = words;
    while let Some((word, after)) = next_word(rest) {
        let option = given.new_option(word)?;
        let (word, after) = needed_word(after)?;
        given.put(option, option_number(option, word)?);
        rest = after;
    }
    Ok(given.quotas())
}
