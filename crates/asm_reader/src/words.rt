//! The words of a line.

ghost use Rattle.std.specs.Prelude.{◌≡◌, ◌++◌, ◌∷◌, ◌==◌, ℕ, List, IfOk, IsTrue, MatchBool, MatchOption};
ghost use Rattle.std.specs.List.{list_all, prefix_len};
ghost use Rattle.asm_reader.specs.declared.words.Word.{Word};
ghost use Rattle.asm_reader.specs.declared.words.Word.TheVariants as word;
ghost use Rattle.asm_reader.specs.Words as words;
ghost use Rattle.asm_reader.specs.Words.{HasWords, IsEmptyLine, IsSplit, EndsWord};
ghost use Rattle.asm_reader.specs.LineFronts.{IsFront, IsSpan, IsWordThen, is_space};

use jk_model::{Bytes, List, OutOfMemory};
use std::alloc::Global;

/// A word of a line.
#[derive(Debug, Drop)]
pub(crate) enum Word {
    /// Bytes from 33 to 126 without `"`.
    Plain(Bytes),
    /// What stands between two `"`.
    Quoted(Bytes),
}

/// What the bytes of a line are.
#[derive(Debug, Drop)]
pub(crate) enum LineWords {
    /// No words, or a comment.
    Empty,
    /// Words with spaces around them.
    Words(List<Word>),
    /// Neither of these.
    Malformed,
}

/// What a line begins with after its spaces.
#[derive(Clone, Copy)]
enum Front<'a> {
    /// Nothing is left.
    End,
    /// A word without quotes, and what follows it.
    Plain(&'a [u8], &'a [u8]),
    /// What stands between two `"`, and what follows these.
    Quoted(&'a [u8], &'a [u8]),
    /// Something that is no word.
    Malformed,
}

/// Whether a byte may stand in a word without quotes: 33 to 126 but `"`.
fn is_plain_byte(byte: u8) -> bool
    ensures { result ≡ words.is_plain_byte byte }
{
    b'!' <= byte && byte <= b'~' && byte != b'"'
}

/// Whether a byte may stand between quotes: a space too.
fn is_quoted_byte(byte: u8) -> bool
    ensures { result ≡ words.is_quoted_byte byte }
{
    byte == b' ' || is_plain_byte(byte)
}

/// How many spaces stand in front.
fn spaces_in_front(line: &[u8]) -> usize
    ensures { result ≡ prefix_len is_space line.now }
{
    line.iter().take_while(|byte| **byte == b' ').count()
}

/// How many bytes in front may stand in a word without quotes.
fn plain_in_front(text: &[u8]) -> usize
    ensures { result ≡ prefix_len words.is_plain_byte text.now }
{
    text.iter().take_while(|byte| is_plain_byte(**byte)).count()
}

/// How many bytes in front may stand between quotes.
fn quoted_in_front(text: &[u8]) -> usize
    ensures { result ≡ prefix_len words.is_quoted_byte text.now }
{
    text.iter()
        .take_while(|byte| is_quoted_byte(**byte))
        .count()
}

/// A line without the spaces in front.
fn after_spaces(line: &[u8]) -> &[u8]
    ensures { (spaces : List ℕ) × IsSpan is_space line.now spaces result.now }
{
    &line[spaces_in_front(line)..]
}

/// The plain bytes in front, and what follows them.
fn plain_front(text: &[u8]) -> (&[u8], &[u8])
    ensures { IsSpan words.is_plain_byte text.now result.0.now result.1.now }
{
    text.split_at(plain_in_front(text))
}

/// The bytes before the quote that ends a quoted text, and what follows it.
fn quoted_front(text: &[u8]) -> Option<(&[u8], &[u8])>
    ensures { MatchOption result
        ((content : List ℕ) (rest : List ℕ) → IsTrue (list_all words.is_quoted_byte content) → text.now ≡ content ++ 34 ∷ rest → ⊥)
        (λ found. IsTrue (list_all words.is_quoted_byte found.0.now) × (text.now ≡ found.0.now ++ 34 ∷ found.1.now)) }
{
    let (content, rest) = text.split_at(quoted_in_front(text));
    match rest {
        [b'"', after @ ..] => Some((content, after)),
        _ => None,
    }
}

/// Whether a word may end before this.
fn ends_word(rest: &[u8]) -> bool
    ensures { MatchBool result (EndsWord rest.now) (¬ (EndsWord rest.now)) }
{
    match rest {
        [] => true,
        [first, ..] => *first == b' ',
    }
}

/// The word without quotes that a text begins with, and what follows it.
fn plain_word(text: &[u8]) -> Option<(&[u8], &[u8])>
    ensures { MatchOption result
        ((content : List ℕ) (rest : List ℕ) → IsWordThen text.now (word.Plain content) rest → ⊥)
        (λ found. IsWordThen text.now (word.Plain found.0.now) found.1.now) }
{
    let (content, rest) = plain_front(text);
    if content.is_empty() || !ends_word(rest) {
        return None;
    }
    Some((content, rest))
}

/// The quoted text that is open where this begins, and what follows its last quote.
fn quoted_word(inside: &[u8]) -> Option<(&[u8], &[u8])>
    ensures { MatchOption result
        ((content : List ℕ) (rest : List ℕ) → IsWordThen (34 ∷ inside.now) (word.Quoted content) rest → ⊥)
        (λ found. IsWordThen (34 ∷ inside.now) (word.Quoted found.0.now) found.1.now) }
{
    let (content, rest) = quoted_front(inside)?;
    if !ends_word(rest) {
        return None;
    }
    Some((content, rest))
}

/// What a line begins with after its spaces.
fn front_of(line: &[u8]) -> Front<'_>
    ensures { IsFront line.now result }
{
    let text = after_spaces(line);
    match text {
        [] => Front::End,
        [b'"', inside @ ..] => match quoted_word(inside) {
            Some((content, rest)) => Front::Quoted(content, rest),
            None => Front::Malformed,
        },
        _ => match plain_word(text) {
            Some((content, rest)) => Front::Plain(content, rest),
            None => Front::Malformed,
        },
    }
}

/// The words of a line that is words and spaces, or `None` where it is not.
fn read_words(alloc: Global, line: &[u8]) -> Result<Option<List<Word>>, OutOfMemory>
    ensures { IfOk result (λ read. MatchOption read ((words : List Word) → HasWords line.now words → ⊥) (HasWords line.now)) }
{
    let mut words = List::new(alloc);
    let mut rest = line;
    loop {
        match front_of(rest) {
            Front::End => return Ok(Some(words)),
            Front::Malformed => return Ok(None),
            Front::Plain(content, after) => {
                words.push(Word::Plain(Bytes::from_slice(alloc, content)?))?;
                rest = after;
            }
            Front::Quoted(content, after) => {
                words.push(Word::Quoted(Bytes::from_slice(alloc, content)?))?;
                rest = after;
            }
        }
    }
}

/// Whether a line has no words or begins with a comment.
fn is_empty_line(line: &[u8]) -> bool
    ensures { MatchBool result (IsEmptyLine line.now) (¬ (IsEmptyLine line.now)) }
{
    match after_spaces(line) {
        [] => true,
        [first, ..] => *first == b'#',
    }
}

/// The words of a line, in time linear in its bytes.
pub(crate) fn words_of(alloc: Global, line: &[u8]) -> Result<LineWords, OutOfMemory>
    ensures { IfOk result (IsSplit line.now) }
{
    if is_empty_line(line) {
        return Ok(LineWords::Empty);
    }
    match read_words(alloc, line)? {
        Some(words) => Ok(LineWords::Words(words)),
        None => Ok(LineWords::Malformed),
    }
}
