//! The record of a system class.

ghost use Rattle.std.specs.Prelude.{◌≡◌, ◌<◌, ◌≤◌, IfOk, Some, length, slice_get};
ghost use Rattle.jk_model.specs.SystemTable.{SystemClass, system_classes};
ghost use Rattle.jk_model_classes.specs.Classes.{StandsAbove};
ghost use Rattle.jk_model_classes.specs.SystemRecords.{IsSystemRecord};

use crate::members::{field_records, method_records};
use crate::numbers::{class_ids, optional_class_id};
use crate::texts::text_of;
use jk_model::{List, OutOfMemory};
use jk_model_classes::ClassRecord;
use std::alloc::Global;
use system_table::system_class;

/// The record of the system class at this place of the table. It takes time and memory in proportion to the
/// class's members.
pub fn system_record(alloc: Global, n: u16) -> Result<ClassRecord, OutOfMemory>
    requires { n < length system_classes }
    ensures record_is { IfOk result (λ r. (entry : SystemClass) × (slice_get system_classes n ≡ Some entry) × IsSystemRecord n entry r) }
    ensures above { IfOk result (λ r. StandsAbove n r) }
    ensures few { IfOk result (λ r. (length r.fields ≤ 65535) × (length r.methods ≤ 65535)) }
{
    let class = system_class(n);
    let name = text_of(alloc, class.name)?;
    let interfaces = class_ids(alloc, class.interfaces)?;
    let fields = field_records(alloc, class.fields)?;
    let methods = method_records(alloc, class.methods)?;
    Ok(ClassRecord {
        name,
        home: None,
        flags: class.flags,
        parent: optional_class_id(class.parent),
        interfaces,
        fields,
        methods,
        links: List::new(alloc),
        references: List::new(alloc),
    })
}
