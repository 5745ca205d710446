//! The methods of one class by name and type.

use crate::entries::{Entry, first_from, sorted_entries};
use crate::keys::MethodKey;
use jk_model::OutOfMemory;
use jk_model_classes::MethodRecord;
use std::alloc::Global;
use std::marker::Model;

/// The methods of a class, in the order of their names' fingerprints, then of their types' fingerprints, then of
/// their places. It takes 24 bytes a method. A contract sees the entries, and `IsMethodIndex` of `specs/Index.antt`
/// says of which methods they are the index.
#[derive(Drop)]
pub struct MethodIndex {
    entries: Vec<Entry>,
}

impl Model for MethodIndex {
    ghost use Rattle.std.specs.Prelude.{List};
    ghost use Rattle.member_index.specs.declared.entries.Entry.{Entry};

    ghost Value = { List Entry };

    ghost view = { λ a. a.entries.items };
}

impl MethodIndex {
    ghost use Rattle.std.specs.Prelude.{◌≤◌, length, IfOk};
    ghost use Rattle.member_index.specs.Finding.{FindsMethodAt};
    ghost use Rattle.member_index.specs.Index.{IsMethodIndex};

    /// The index of these methods, which stand in the order of the class file. It takes time in proportion to
    /// n log n for n methods, whatever their names are, and memory for the entries alone.
    pub fn new(alloc: Global, methods: &[MethodRecord]) -> Result<MethodIndex, OutOfMemory>
        requires { length methods.now ≤ 65535 }
        ensures { IfOk result (λ index. IsMethodIndex index methods.now) }
    {
        let entries = sorted_entries(alloc, methods)?;
        Ok(MethodIndex { entries })
    }

    /// The place of the first method of this name and type that stands at `from` or after it; none where there is
    /// none. The methods are those that the index was made of. It takes no memory, and time in proportion to log n,
    /// and to the length of the name and of the type's descriptor where it finds one.
    pub fn find(&self, methods: &[MethodRecord], key: &MethodKey<'_>, from: u16) -> Option<u16>
        requires { IsMethodIndex self.now methods.now }
        ensures { FindsMethodAt methods.now key.now from result }
    {
        first_from(self.entries.as_slice(), methods, key, from)
    }
}
