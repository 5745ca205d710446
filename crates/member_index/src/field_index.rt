//! The fields of one class by name and type.

use crate::entries::{Entry, first_from, sorted_entries};
use crate::keys::FieldKey;
use jk_model::OutOfMemory;
use jk_model_classes::FieldRecord;
use std::alloc::Global;
use std::marker::Model;

/// The fields of a class, in the order of their names' fingerprints, then of their types, then of
/// their places. It takes 24 bytes a field. A contract sees the entries, and `IsFieldIndex` of `specs/Index.antt`
/// says of which fields they are the index.
#[derive(Drop)]
pub struct FieldIndex {
    entries: Vec<Entry>,
}

impl Model for FieldIndex {
    ghost use Rattle.std.specs.Prelude.{List};
    ghost use Rattle.member_index.specs.declared.entries.Entry.{Entry};

    ghost Value = { List Entry };

    ghost view = { λ a. a.entries.items };
}

impl FieldIndex {
    ghost use Rattle.std.specs.Prelude.{◌≤◌, length, IfOk};
    ghost use Rattle.member_index.specs.Finding.{FindsFieldAt};
    ghost use Rattle.member_index.specs.Index.{IsFieldIndex};

    /// The index of these fields, which stand in the order of the class file. It takes time in proportion to
    /// n log n for n fields, whatever their names are, and memory for the entries alone.
    pub fn new(alloc: Global, fields: &[FieldRecord]) -> Result<FieldIndex, OutOfMemory>
        requires { length fields.now ≤ 65535 }
        ensures { IfOk result (λ index. IsFieldIndex index fields.now) }
    {
        let entries = sorted_entries(alloc, fields)?;
        Ok(FieldIndex { entries })
    }

    /// The place of the first field of this name and type that stands at `from` or after it; none where there is
    /// none. The fields are those that the index was made of. It takes no memory, and time in proportion to log n,
    /// and to the length of the name where it finds one.
    pub fn find(&self, fields: &[FieldRecord], key: &FieldKey<'_>, from: u16) -> Option<u16>
        requires { IsFieldIndex self.now fields.now }
        ensures { FindsFieldAt fields.now key.now from result }
    {
        first_from(self.entries.as_slice(), fields, key, from)
    }
}
