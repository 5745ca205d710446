//! Texts of the table, which are ASCII, as units.

ghost use Rattle.std.specs.Prelude.{◌≡◌, IfOk};

use jk_model::{OutOfMemory, Units};
use shared_values::Text;
use std::alloc::Global;

/// The units of an ASCII text, which are its bytes.
pub(crate) fn units_of(alloc: Global, text: &str) -> Result<Units, OutOfMemory>
    ensures { IfOk result (λ units. units ≡ text.now) }
{
    let mut units = Units::new(alloc);
    for byte in text.as_bytes() {
        units.push(u16::from(*byte))?;
    }
    Ok(units)
}

/// The same, as a text to be shared.
pub(crate) fn text_of(alloc: Global, text: &str) -> Result<Text, OutOfMemory>
    ensures { IfOk result (λ made. made ≡ text.now) }
{
    let units = units_of(alloc, text)?;
    Text::new(alloc, units.as_slice())
}
