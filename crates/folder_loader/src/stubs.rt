//! The stubs of a folder's classes.

ghost use Rattle.std.specs.Prelude.{◌≤◌, IfOk, length};
ghost use Rattle.jk_model_folders.specs.Loads.{AreStubs};

use class_table::ClassTable;
use jk_model::{ClassId, List, OutOfMemory};
use jk_model_classes::Stub;
use std::alloc::Global;
use stub_maker::stub_of;

/// The stubs of the classes from `first` on, in rising number: one for each that implements jk/Remote.
pub(crate) fn stubs_of(
    alloc: Global,
    t: &ClassTable,
    first: ClassId,
) -> Result<List<Stub>, OutOfMemory>
    requires { first.0 ≤ length t.now }
    ensures { IfOk result (λ stubs. AreStubs t.now first stubs) }
{
    let mut stubs = List::new(alloc);
    for number in first.0..t.len() as u32 {
        if let Some(stub) = stub_of(alloc, t, ClassId(number))? {
            stubs.push(stub)?;
        }
    }
    Ok(stubs)
}
