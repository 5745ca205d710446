//! The entry of a class that is put after the others.

ghost use Rattle.std.specs.Prelude.{◌≡◌, ◌+◌, ◌^◌, ◌<◌, ◌≤◌, ◌++◌, ◌∷◌, [], length, IfOk};
ghost use Rattle.jk_model_classes.specs.Classes.{StandsAbove};
ghost use Rattle.class_table.specs.Entries.{IsEntry, IsTable, records};

use crate::entry::Entry;
use crate::own_places::own_places;
use crate::upwards::standing_of_new;
use crate::walks::walk_of_new;
use jk_model::OutOfMemory;
use jk_model_classes::ClassRecord;
use member_index::{FieldIndex, MethodIndex};
use std::alloc::Global;

/// The entry of a class. It takes time in proportion to the class's members (n log n for n of them) and to the walks of its
/// parent and of the interfaces that it lists.
pub(crate) fn new_entry(
    alloc: Global,
    entries: &[Entry],
    class: ClassRecord,
) -> Result<Entry, OutOfMemory>
    requires table { IsTable entries.now }
    requires few { length entries.now + 1 < 2 ^ 32 }
    requires above { StandsAbove (length entries.now) class }
    requires fields { length class.fields ≤ 65535 }
    requires methods { length class.methods ≤ 65535 }
    ensures of_class { IfOk result (λ e. e.class ≡ class) }
    ensures right { IfOk result (IsEntry (records entries.now ++ class ∷ []) (record { 0 = length entries.now })) }
{
    let walk = walk_of_new(alloc, entries, &class)?;
    let fields = FieldIndex::new(alloc, class.fields.as_slice())?;
    let methods = MethodIndex::new(alloc, class.methods.as_slice())?;
    let own = own_places(alloc, class.fields.as_slice())?;
    let standing = standing_of_new(entries, &class);
    Ok(Entry {
        class,
        walk,
        fields,
        methods,
        own,
        standing,
    })
}
