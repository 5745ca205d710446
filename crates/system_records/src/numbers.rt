//! Numbers of the table, which are places, as classes.

ghost use Rattle.std.specs.Prelude.{◌≡◌, IfOk, map};
ghost use Rattle.std.specs.Option.{option_map};
ghost use Rattle.system_records.specs.Numbers.{numbered};

use jk_model::{ClassId, List, OutOfMemory};
use std::alloc::Global;

/// The class of a number of the table.
pub(crate) fn class_id(number: u16) -> ClassId
    ensures { result ≡ numbered number }
{
    ClassId(u32::from(number))
}

/// The class of a number, if there is one.
pub(crate) fn optional_class_id(number: Option<u16>) -> Option<ClassId>
    ensures { result ≡ option_map numbered number }
{
    number.map(class_id)
}

/// The classes of numbers of the table, in their order.
pub(crate) fn class_ids(alloc: Global, numbers: &[u16]) -> Result<List<ClassId>, OutOfMemory>
    ensures { IfOk result (λ ids. ids ≡ map numbered numbers.now) }
{
    let mut ids = List::new(alloc);
    for number in numbers {
        ids.push(class_id(*number))?;
    }
    Ok(ids)
}
