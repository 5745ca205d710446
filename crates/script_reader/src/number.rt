//! Numbers as a script writes them: decimal digits without a needless zero in front.

ghost use Rattle.std.specs.Prelude.{◌≡◌, ◌*◌, ◌+◌, ◌-◌, fold};
ghost use Rattle.std.specs.List.{list_all};
ghost use Rattle.jk_model.specs.ScriptGrammar as grammar;
ghost use Rattle.script_reader.specs.Numbers.{capped_value};

/// More than each number of a script.
const CAP: u64 = 4_294_967_296;

/// Whether a byte is a decimal digit.
fn is_digit(byte: u8) -> bool
    ensures { result ≡ grammar.is_digit byte }
{
    matches!(byte, b'0'..=b'9')
}

/// Whether all bytes are decimal digits.
fn has_digits(word: &[u8]) -> bool
    ensures { result ≡ list_all grammar.is_digit word.now }
{
    word.iter().all(|byte| is_digit(*byte))
}

/// Whether a word is decimal digits without a needless zero in front.
fn is_numeral(word: &[u8]) -> bool
    ensures { result ≡ grammar.is_numeral word.now }
{
    match word {
        [] => false,
        [digit] => is_digit(*digit),
        [first, ..] => *first != b'0' && has_digits(word),
    }
}

/// The value of digits, or, where that is `CAP` or more, some number that is so too. So any number of
/// digits has one.
fn capped_value(digits: &[u8]) -> u64
    ensures { result ≡ capped_value digits.now }
{
    digits.iter().fold(0, |value, digit| {
        u64::min(value, CAP) * 10 + u64::from(digit.saturating_sub(b'0'))
    })
}

/// The number from `low` to `high` that a word writes, or `None` where it writes none.
pub fn number_within(low: u32, high: u32, word: &[u8]) -> Option<u32>
    ensures { result ≡ grammar.number_within low high word.now }
{
    if !is_numeral(word) {
        return None;
    }
    let value = capped_value(word);
    if value < u64::from(low) || value > u64::from(high) {
        return None;
    }
    Some(value as u32)
}
