//! The second pass: what the entries say, in rising index.

ghost use Rattle.std.specs.Prelude.{◌≡◌, ◌↔◌, ◌<◌, ◌^◌, IsTrue, length};
ghost use Rattle.std.specs.List.{AllByRecursion};
ghost use Rattle.jk_model.specs.ClassFile.{IsEntry, IsUtf8Entry, IsClassEntry, IsPairEntry, NamesEntry, IsGoodEntry};
ghost use Rattle.jk_model.specs.Text.{IsModifiedUtf8};
ghost use Rattle.const_pool.specs.Answer.{IsJudgment, IsPoolJudgment};

use jk_model::PoolEntry;
use unit_text::bad_encoding;

/// Why an entry isn't good. The numbers are pool indices.
#[derive(Clone, Copy, Debug)]
pub enum EntryFault {
    /// It names an index that is out of range, or an entry of another kind.
    BadIndex(u16),
    /// Its text is no modified UTF-8.
    BadUtf(u16),
}

fn names_utf8(pool: &[PoolEntry], index: u16) -> bool
    ensures { IsTrue result ↔ NamesEntry IsUtf8Entry pool.now index }
{
    matches!(pool.get(index as usize), Some(PoolEntry::Utf8(_)))
}

fn names_class(pool: &[PoolEntry], index: u16) -> bool
    ensures { IsTrue result ↔ NamesEntry IsClassEntry pool.now index }
{
    matches!(pool.get(index as usize), Some(PoolEntry::Class(_)))
}

fn names_pair(pool: &[PoolEntry], index: u16) -> bool
    ensures { IsTrue result ↔ NamesEntry IsPairEntry pool.now index }
{
    matches!(pool.get(index as usize), Some(PoolEntry::NameAndType(_, _)))
}

/// Whether an entry that is no text names what it needs.
fn names_hold(pool: &[PoolEntry], entry: &PoolEntry) -> bool
    ensures { (IsUtf8Entry entry.now → ⊥) → (IsTrue result ↔ IsGoodEntry pool.now entry.now) }
{
    match entry {
        PoolEntry::Class(index) | PoolEntry::Str(index) => names_utf8(pool, *index),
        PoolEntry::FieldRef(class, pair)
        | PoolEntry::MethodRef(class, pair)
        | PoolEntry::InterfaceMethodRef(class, pair) => {
            names_class(pool, *class) && names_pair(pool, *pair)
        }
        PoolEntry::NameAndType(name, descriptor) => {
            names_utf8(pool, *name) && names_utf8(pool, *descriptor)
        }
        _ => true,
    }
}

/// Whether the bytes are modified UTF-8.
fn is_text(text: &[u8]) -> bool
    requires { length text.now < 2 ^ 16 }
    ensures { IsTrue result ↔ IsModifiedUtf8 text.now }
{
    bad_encoding(text).is_none()
}

/// Judges the entry at an index.
fn judge_entry(pool: &[PoolEntry], index: u16, entry: &PoolEntry) -> Result<(), EntryFault>
    requires { IsEntry entry.now }
    ensures { IsJudgment pool.now entry.now index result }
{
    if let PoolEntry::Utf8(text) = entry {
        if !is_text(text.as_slice()) {
            return Err(EntryFault::BadUtf(index));
        }
        return Ok(());
    }
    if !names_hold(pool, entry) {
        return Err(EntryFault::BadIndex(index));
    }
    Ok(())
}

/// Whether all entries are good, or which is the first that isn't. It takes no memory.
pub fn judge_pool(pool: &[PoolEntry]) -> Result<(), EntryFault>
    requires few { length pool.now < 2 ^ 16 }
    requires entries { AllByRecursion IsEntry pool.now }
    ensures { IsPoolJudgment pool.now result }
{
    for (i, entry) in pool.iter().enumerate() {
        judge_entry(pool, i as u16, entry)?;
    }
    Ok(())
}

/// Whether all entries are good: their texts are modified UTF-8, and each names entries of the kinds
/// that it needs. It takes no memory, and time linear in the entries and their texts.
pub fn is_good_pool(pool: &[PoolEntry]) -> bool
    requires few { length pool.now < 2 ^ 16 }
    requires entries { AllByRecursion IsEntry pool.now }
    ensures good { IsTrue result ↔ AllByRecursion (IsGoodEntry pool.now) pool.now }
{
    judge_pool(pool).is_ok()
}
