//! Names as units.

use jk_model::Units;
use std::alloc::Global;
use std::test::Fail;

/// The units of ASCII characters.
pub(crate) fn units(alloc: Global, name: &str) -> Result<Units, Fail> {
    let mut units = Units::new(alloc);
    for byte in name.as_bytes() {
        units.push(u16::from(*byte))?;
    }
    Ok(units)
}
