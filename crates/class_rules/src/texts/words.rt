//! The texts that mean something by themselves.

ghost use Rattle.std.specs.Prelude.{◌≡◌};
ghost use Rattle.class_rules.specs.Texts.{word_text, IsWord};

use super::Word;
use crate::spelling::is_text;

const WORDS: [Word; 6] = [
    Word::Init,
    Word::Clinit,
    Word::Code,
    Word::ConstantValue,
    Word::Exceptions,
    Word::NothingToNothing,
];

/// What is written for a word.
fn text_of(word: Word) -> &'static str
    ensures { result.now ≡ word_text word }
{
    match word {
        Word::Init => "<init>",
        Word::Clinit => "<clinit>",
        Word::Code => "Code",
        Word::ConstantValue => "ConstantValue",
        Word::Exceptions => "Exceptions",
        Word::NothingToNothing => "()V",
    }
}

/// The word that units are, if they are one.
pub(crate) fn word_of(units: &[u16]) -> Option<Word>
    ensures { IsWord units.now result }
{
    WORDS
        .iter()
        .copied()
        .find(|word| is_text(units, text_of(*word)))
}
