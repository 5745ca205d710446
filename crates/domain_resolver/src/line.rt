//! What one line of a `resolver.txt` says.

ghost use Rattle.std.specs.Prelude.{◌≡◌, ◌∷◌, [], bytes_eq, codes, IfOk};
ghost use Rattle.std.specs.List.{list_all};
ghost use Rattle.jk_model.specs.Script as script;
ghost use Rattle.jk_model.specs.ScriptGrammar.{is_name as is_domain_word};
ghost use Rattle.jk_model_classes.specs.Resolver.{is_class_word, words_say, line_reading};
ghost use Rattle.domain_resolver.specs.Reading.{reading};

use jk_model::{Bytes, OutOfMemory};
use jk_model_classes::ResolverWord;
use std::alloc::Global;
use text_lines::next_word;

/// The most bytes of a domain's name.
const MAX_NAME: usize = 32;

/// The most bytes of a class's name.
const MAX_CLASS: usize = 255;

/// What a line reads as.
#[derive(Drop)]
pub(crate) enum LineReading {
    Says(ResolverWord),
    /// It has no words, or is a comment.
    Nothing,
    /// It is outside the grammar.
    Outside,
}

/// Whether a line may have a byte.
fn is_line_byte(byte: u8) -> bool
    ensures { result ≡ script.is_line_byte byte }
{
    byte == b'\t' || matches!(byte, b' '..=b'~')
}

/// Whether a line may have all of these bytes.
fn has_line_bytes(line: &[u8]) -> bool
    ensures { result ≡ list_all script.is_line_byte line.now }
{
    line.iter().all(|byte| is_line_byte(*byte))
}

/// Whether a domain's name may have a byte.
fn is_name_byte(byte: u8) -> bool
    ensures { result ≡ script.is_name_byte byte }
{
    matches!(byte, b'a'..=b'z' | b'A'..=b'Z' | b'0'..=b'9' | b'_' | b'-')
}

/// Whether a domain's name may have all of these bytes.
fn has_name_bytes(word: &[u8]) -> bool
    ensures { result ≡ list_all script.is_name_byte word.now }
{
    word.iter().all(|byte| is_name_byte(*byte))
}

/// Whether a word is a domain's name.
fn is_domain(word: &[u8]) -> bool
    ensures { result ≡ is_domain_word word.now }
{
    !word.is_empty() && word.len() <= MAX_NAME && has_name_bytes(word)
}

/// Whether a word is a class's name.
fn is_class(word: &[u8]) -> bool
    ensures { result ≡ is_class_word word.now }
{
    !word.is_empty() && word.len() <= MAX_CLASS
}

/// What `share CLASS` says.
fn share_to_all(alloc: Global, class: &[u8]) -> Result<Option<ResolverWord>, OutOfMemory>
    ensures { IfOk result (λ says. says ≡ words_say (codes "share" ∷ class.now ∷ [])) }
{
    if !is_class(class) {
        return Ok(None);
    }
    let class = Bytes::from_slice(alloc, class)?;
    Ok(Some(ResolverWord::Share { class, to: None }))
}

/// What `share CLASS DOMAIN` says.
fn share_to_one(
    alloc: Global,
    class: &[u8],
    domain: &[u8],
) -> Result<Option<ResolverWord>, OutOfMemory>
    ensures { IfOk result (λ says. says ≡ words_say (codes "share" ∷ class.now ∷ domain.now ∷ [])) }
{
    if !is_class(class) || !is_domain(domain) {
        return Ok(None);
    }
    let class = Bytes::from_slice(alloc, class)?;
    let to = Some(Bytes::from_slice(alloc, domain)?);
    Ok(Some(ResolverWord::Share { class, to }))
}

/// What `import DOMAIN CLASS` says.
fn import_from(
    alloc: Global,
    domain: &[u8],
    class: &[u8],
) -> Result<Option<ResolverWord>, OutOfMemory>
    ensures { IfOk result (λ says. says ≡ words_say (codes "import" ∷ domain.now ∷ class.now ∷ [])) }
{
    if !is_domain(domain) || !is_class(class) {
        return Ok(None);
    }
    let from = Bytes::from_slice(alloc, domain)?;
    let class = Bytes::from_slice(alloc, class)?;
    Ok(Some(ResolverWord::Import { from, class }))
}

/// What a line says whose first word is `share`, by what follows that.
fn share_line(alloc: Global, rest: &[u8]) -> Result<Option<ResolverWord>, OutOfMemory>
    ensures { IfOk result (λ says. says ≡ words_say (codes "share" ∷ script.words rest.now)) }
{
    let Some((class, rest)) = next_word(rest) else {
        return Ok(None);
    };
    let Some((domain, rest)) = next_word(rest) else {
        return share_to_all(alloc, class);
    };
    if next_word(rest).is_some() {
        return Ok(None);
    }
    share_to_one(alloc, class, domain)
}

/// What a line says whose first word is `import`, by what follows that.
fn import_line(alloc: Global, rest: &[u8]) -> Result<Option<ResolverWord>, OutOfMemory>
    ensures { IfOk result (λ says. says ≡ words_say (codes "import" ∷ script.words rest.now)) }
{
    let Some((domain, rest)) = next_word(rest) else {
        return Ok(None);
    };
    let Some((class, rest)) = next_word(rest) else {
        return Ok(None);
    };
    if next_word(rest).is_some() {
        return Ok(None);
    }
    import_from(alloc, domain, class)
}

/// Whether a word has these bytes.
fn is_word(word: &[u8], bytes: &[u8]) -> bool
    ensures { result ≡ bytes_eq word.now bytes.now }
{
    word == bytes
}

/// What a line with words says, by its first word and what follows that.
fn words_mean(
    alloc: Global,
    command: &[u8],
    rest: &[u8],
) -> Result<Option<ResolverWord>, OutOfMemory>
    ensures { IfOk result (λ says. says ≡ words_say (command.now ∷ script.words rest.now)) }
{
    if is_word(command, b"share") {
        share_line(alloc, rest)
    } else if is_word(command, b"import") {
        import_line(alloc, rest)
    } else {
        Ok(None)
    }
}

/// What a line reads as.
pub(crate) fn read_line(alloc: Global, line: &[u8]) -> Result<LineReading, OutOfMemory>
    ensures { IfOk result (λ read. reading read ≡ line_reading line.now) }
{
    if !has_line_bytes(line) {
        return Ok(LineReading::Outside);
    }
    let Some((command, rest)) = next_word(line) else {
        return Ok(LineReading::Nothing);
    };
    if command[0] == b'#' {
        return Ok(LineReading::Nothing);
    }
    match words_mean(alloc, command, rest)? {
        Some(says) => Ok(LineReading::Says(says)),
        None => Ok(LineReading::Outside),
    }
}
