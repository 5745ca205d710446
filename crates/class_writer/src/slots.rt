//! Which indices of the constant pool are unusable (the Java Virtual Machine Specification, 4.4.5).

ghost use Rattle.std.specs.Prelude.{◌≡◌, ◌↔◌, IsTrue};
ghost use Rattle.jk_model.specs.ClassFile.{AreSlots, BeginsUnusable};
ghost use Rattle.class_writer.specs.Slots.{is_unusable, is_wide};

use jk_model::PoolEntry;

fn is_unusable(entry: &PoolEntry) -> bool
    ensures { result ≡ is_unusable entry.now }
{
    matches!(entry, PoolEntry::Unusable)
}

/// Whether the index after this entry is unusable.
fn is_wide(entry: &PoolEntry) -> bool
    ensures { result ≡ is_wide entry.now }
{
    matches!(entry, PoolEntry::Long(_) | PoolEntry::Double(_))
}

/// Whether index 0, and each index after a Long or a Double, is unusable, and no other is.
pub fn are_slots(pool: &[PoolEntry]) -> bool
    ensures { IsTrue result ↔ BeginsUnusable AreSlots pool.now }
{
    // Whether the next index has to be unusable.
    let mut due = true;
    for entry in pool {
        if is_unusable(entry) != due {
            return false;
        }
        due = is_wide(entry);
    }
    !due
}
