//! Whether bytes are a text, or where they stop being one: found without memory.

ghost use Rattle.std.specs.Prelude.{◌≡◌, ℕ, ◌<◌, ◌^◌, ◌↔◌, length, Some, None};
ghost use Rattle.jk_model.specs.Text.{IsModifiedUtf8, IsBadEncoding};

use crate::units::next_unit;

/// Where bytes stop being modified UTF-8, counted in bytes from 0: the bytes before that place are
/// encodings of units, one after another, and none begins there. `None` where all bytes are such.
///
/// The encodings are those of `units_of`. It makes no units, and takes no memory.
pub fn bad_encoding(bytes: &[u8]) -> Option<u32>
    requires { length bytes.now < 2 ^ 32 }
    ensures text { (result ≡ None) ↔ IsModifiedUtf8 bytes.now }
    ensures bad { (place : ℕ) → (result ≡ Some place) ↔ IsBadEncoding bytes.now place }
{
    let mut rest = bytes;
    while !rest.is_empty() {
        let Some((_, after)) = next_unit(rest) else {
            return Some((bytes.len() - rest.len()) as u32);
        };
        rest = after;
    }
    None
}
