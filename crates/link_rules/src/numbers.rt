//! The numbers of members: fields count from 1 in the order of the file, and methods follow on.

ghost use Rattle.std.specs.Prelude.{◌≡◌, ◌+◌, ◌<◌, ◌≤◌, length};

use jk_model_classes::ClassRecord;

/// The number of the method at this place of a class.
pub(crate) fn method_number(r: &ClassRecord, place: usize) -> u32
    requires fields { length r.now.fields ≤ 65535 }
    requires methods { length r.now.methods ≤ 65535 }
    requires within { place < length r.now.methods }
    ensures { result ≡ length r.now.fields + place + 1 }
{
    (r.fields.len() + place + 1) as u32
}
