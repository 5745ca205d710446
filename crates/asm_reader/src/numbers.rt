//! Numbers as a text writes them: decimal ones with a sign, and hexadecimal ones.

ghost use Rattle.std.specs.Prelude.{◌≡◌, ◌≤◌, ℕ, ℤ, pos, IsTrue, MatchBool, MatchOption};
ghost use Rattle.asm_reader.specs.Numbers.{decimal_of, IsShortNumber, IsIntNumber, IsLongNumber, IsHex, is_hex_digit, hex_value};
ghost use Rattle.asm_reader.specs.NumberForms.{HasNoNeedless};

/// Whether a word has no `+` in front and no needless zero, and is no negative zero.
fn has_no_needless(word: &[u8]) -> bool
    ensures { MatchBool result (HasNoNeedless word.now) (¬ (HasNoNeedless word.now)) }
{
    match word {
        [b'+', ..] | [b'-', b'0', ..] => false,
        [b'0', rest @ ..] => rest.is_empty(),
        _ => true,
    }
}

/// The number of eight bytes that a word writes, or `None` where it writes none.
pub(crate) fn decimal(word: &[u8]) -> Option<i64>
    ensures { MatchOption result ((n : ℤ) → IsLongNumber n → word.now ≡ decimal_of n → ⊥)
        (λ n. IsLongNumber n × (word.now ≡ decimal_of n)) }
{
    if !has_no_needless(word) {
        return None;
    }
    let text = str::from_utf8(word).ok()?;
    text.parse::<i64>().ok()
}

/// The number of two bytes that a word writes, or `None` where it writes none.
pub(crate) fn short_number(word: &[u8]) -> Option<i16>
    ensures { MatchOption result ((n : ℤ) → IsShortNumber n → word.now ≡ decimal_of n → ⊥)
        (λ n. IsShortNumber n × (word.now ≡ decimal_of n)) }
{
    let number = decimal(word)?;
    i16::try_from(number).ok()
}

/// The number of four bytes that a word writes, or `None` where it writes none.
pub(crate) fn int_number(word: &[u8]) -> Option<i32>
    ensures { MatchOption result ((n : ℤ) → IsIntNumber n → word.now ≡ decimal_of n → ⊥)
        (λ n. IsIntNumber n × (word.now ≡ decimal_of n)) }
{
    let number = decimal(word)?;
    i32::try_from(number).ok()
}

/// The number from 0 to 65535 that a word writes, or `None` where it writes none.
pub(crate) fn count_of(word: &[u8]) -> Option<u16>
    ensures { MatchOption result ((n : ℕ) → n ≤ 65535 → word.now ≡ decimal_of (pos n) → ⊥)
        (λ n. (n ≤ 65535) × (word.now ≡ decimal_of (pos n))) }
{
    let number = decimal(word)?;
    u16::try_from(number).ok()
}

/// The value of a hexadecimal digit of either case, or `None` where a byte is none.
fn hex_digit(byte: u8) -> Option<u16>
    ensures { MatchOption result (¬ (IsTrue (is_hex_digit byte)))
        (λ value. IsTrue (is_hex_digit byte) × (value ≡ hex_value byte)) }
{
    match byte {
        b'0'..=b'9' => Some(u16::from(byte - b'0')),
        b'A'..=b'F' => Some(u16::from(byte - b'A') + 10),
        b'a'..=b'f' => Some(u16::from(byte - b'a') + 10),
        _ => None,
    }
}

/// The number that one to four hexadecimal digits write, or `None` where a word is not these.
pub(crate) fn hexadecimal(word: &[u8]) -> Option<u16>
    ensures { MatchOption result ((n : ℕ) → IsHex word.now n → ⊥) (λ n. IsHex word.now n) }
{
    if word.is_empty() || word.len() > 4 {
        return None;
    }
    let mut value = 0u16;
    for byte in word {
        value = value * 16 + hex_digit(*byte)?;
    }
    Some(value)
}
