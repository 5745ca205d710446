//! Compares units with texts that the rules name.

ghost use Rattle.std.specs.Prelude.{◌≡◌, ◌↔◌, ◌<◌, ℕ, IsTrue, length, slice_index};
ghost use Rattle.jk_model.specs.Outside.{IsPrefix};

/// Whether units are the bytes of a text, as far as both go.
fn agrees(units: &[u16], text: &str) -> bool
    ensures { IsTrue result ↔ ((k : ℕ) → k < length text.now → k < length units.now → slice_index units.now k ≡ slice_index text.now k) }
{
    text.bytes()
        .zip(units)
        .all(|(byte, unit)| u16::from(byte) == *unit)
}

/// Whether the units begin with the characters of a text, each of which is ASCII.
pub(crate) fn begins_with(units: &[u16], text: &str) -> bool
    ensures { IsTrue result ↔ IsPrefix text.now units.now }
{
    units.len() >= text.len() && agrees(units, text)
}

/// Whether the units are the characters of a text, each of which is ASCII.
pub(crate) fn is_text(units: &[u16], text: &str) -> bool
    ensures { IsTrue result ↔ (units.now ≡ text.now) }
{
    units.len() == text.len() && agrees(units, text)
}
