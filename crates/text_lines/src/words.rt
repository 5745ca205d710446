//! The words of a line.

ghost use Rattle.std.specs.Prelude.{◌≡◌, ◌<◌, ◌∷◌, [], length, not, position, MatchOption};
ghost use Rattle.jk_model.specs.Script as script;

/// Whether a byte stands between words: a space or a tab.
fn is_blank(byte: u8) -> bool
    ensures { result ≡ script.is_blank byte }
{
    byte == b' ' || byte == b'\t'
}

/// Where the first byte of a word stands.
fn word_begin(line: &[u8]) -> Option<usize>
    ensures { result ≡ position (λ byte. not (script.is_blank byte)) line.now }
{
    line.iter().position(|byte| !is_blank(*byte))
}

/// Where the first blank stands.
fn word_end(text: &[u8]) -> Option<usize>
    ensures { result ≡ position script.is_blank text.now }
{
    text.iter().position(|byte| is_blank(*byte))
}

/// The first word of a line and what follows it, or `None` where the line has no word. Words are what stands between blanks,
/// which are spaces and tabs. It takes time in proportion to the word and the blanks before it.
#[tactic(auto, using(model_lemmas::proofs::WordsInTurn::no_word))]
pub fn next_word(line: &[u8]) -> Option<(&[u8], &[u8])>
    ensures { MatchOption result (script.words line.now ≡ [])
        (λ found. (script.words line.now ≡ found.0.now ∷ script.words found.1.now) × (0 < length found.0.now)) }
{
    let text = &line[word_begin(line)?..];
    let end = word_end(text).unwrap_or(text.len());
    Some(text.split_at(end))
}
