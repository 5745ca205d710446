//! Finds a system class by its number or its name.

ghost use Rattle.std.specs.Prelude.{◌≡◌, ◌<◌, ◌==◌, length, bytes_eq, zip};
ghost use Rattle.std.specs.List.{list_all};
ghost use Rattle.jk_model.specs.SystemTable.{system_classes, number_named};
ghost use Rattle.system_table.specs.Entry.{IsEntry, HasName};

use crate::entry::SystemClass;
use crate::table::{errors, exceptions, kernel, language};

const COUNT: u16 = 45;

/// How many system classes there are: 45.
pub fn count() -> u16
    ensures { result ≡ length system_classes }
{
    COUNT
}

/// The system class of this number, which is its place in the table.
pub fn system_class(n: u16) -> SystemClass
    requires { n < length system_classes }
    ensures { IsEntry n result }
{
    match usize::from(n) {
        n @ 0..=9 => language()[n],
        n @ 10..=14 => kernel()[n - 10],
        n @ 15..=31 => exceptions()[n - 15],
        n => errors()[n - 32],
    }
}

/// Whether the units are the bytes, as far as both go.
fn agree(text: &str, units: &[u16]) -> bool
    ensures { result ≡ list_all (λ pair. pair.0 == pair.1) (zip text.now units.now) }
{
    text.bytes()
        .zip(units)
        .all(|(byte, unit)| u16::from(byte) == *unit)
}

/// Whether the units are this ASCII text.
fn is_text(text: &str, units: &[u16]) -> bool
    ensures { result ≡ bytes_eq text.now units.now }
{
    text.len() == units.len() && agree(text, units)
}

/// Whether the system class of this number has this name.
fn has_name(n: u16, name: &[u16]) -> bool
    requires { n < length system_classes }
    ensures { HasName n name.now result }
{
    is_text(system_class(n).name, name)
}

/// The number of the system class of this name, in UTF-16 code units with `/` between its parts. It
/// compares the length of each name first, and takes no memory.
pub fn class_named(name: &[u16]) -> Option<u16>
    ensures { result ≡ number_named name.now }
{
    (0..count()).find(
        |&n|
            requires { n < length system_classes }
        { has_name(n, name) },
    )
}
