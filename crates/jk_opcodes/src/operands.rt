//! Operands that are signed numbers.

ghost use Rattle.std.specs.Prelude.{◌≡◌};
ghost use Rattle.jk_opcodes.specs.Reading.{Gives, int_at};

use crate::errors::Stop;
use byte_fields::u4_of;

/// A signed number of four bytes, and the bytes after it.
pub fn int_of(bytes: &[u8]) -> Result<(i32, &[u8]), Stop>
    ensures { Gives (λ x. (x.0, x.1.now)) result (int_at bytes.now) }
{
    let (number, rest) = u4_of(bytes)?;
    Ok((number.cast_signed(), rest))
}
