//! The first pass: entries are read by their tags, one after another.

ghost use Rattle.std.specs.Prelude.{◌≡◌, ◌≢◌, ◌↔◌, ◌+◌, ◌<◌, ◌++◌, ◌∷◌, [], IsTrue, OnOk, Err, if◌then◌else◌};
ghost use Rattle.std.specs.Int.{w16};
ghost use Rattle.byte_fields.specs.Reading.{Gives, GivesInMemory, block_at};
ghost use Rattle.jk_model.specs.declared.class_file.PoolEntry.TheVariants.{Unusable};
ghost use Rattle.jk_model.specs.ClassFile.{u2};
ghost use Rattle.const_pool.specs.Reading.{seen, is_wide, body_at};
ghost use Rattle.const_pool.specs.Answer.{second_index, group, IsTagAnswer, IsEntryAnswer, IsPoolAnswer};

use crate::pool::PoolError;
use crate::tags::{Tag, tag_of};
use byte_fields::{EndsEarly, ReadError, pair_of, short_block_of, u2_of, u4_of, u8_of};
use jk_model::{Bytes, List, OutOfMemory, PoolEntry};
use std::alloc::Global;

/// Bytes after their length, which are copied.
fn text_of(alloc: Global, bytes: &[u8]) -> Result<(Bytes, &[u8]), ReadError>
    ensures { GivesInMemory (λ x. (x.0, x.1.now)) result (block_at w16 bytes.now) }
{
    let (text, rest) = short_block_of(bytes)?;
    Ok((Bytes::from_slice(alloc, text)?, rest))
}

/// What stands after a tag that isn't that of a text.
#[tactic(auto, unfolding(crate::specs::Reading::body_at))]
fn number_body_of(tag: Tag, bytes: &[u8]) -> Result<(PoolEntry, &[u8]), EndsEarly>
    requires { tag ≢ Tag.Utf8 }
    ensures { Gives (λ x. (x.0, x.1.now)) result (body_at tag bytes.now) }
{
    match tag {
        Tag::Utf8 => unreachable!(),
        Tag::Integer => u4_of(bytes).map(|(n, rest)| (PoolEntry::Integer(n), rest)),
        Tag::Float => u4_of(bytes).map(|(bits, rest)| (PoolEntry::Float(bits), rest)),
        Tag::Long => u8_of(bytes).map(|(n, rest)| (PoolEntry::Long(n), rest)),
        Tag::Double => u8_of(bytes).map(|(bits, rest)| (PoolEntry::Double(bits), rest)),
        Tag::Class => u2_of(bytes).map(|(name, rest)| (PoolEntry::Class(name), rest)),
        Tag::Str => u2_of(bytes).map(|(text, rest)| (PoolEntry::Str(text), rest)),
        Tag::FieldRef => pair_of(bytes).map(|(pair, rest)| (
            PoolEntry::FieldRef(pair.0, pair.1),
            rest,
        )),
        Tag::MethodRef => pair_of(bytes).map(|(pair, rest)| (
            PoolEntry::MethodRef(pair.0, pair.1),
            rest,
        )),
        Tag::InterfaceMethodRef => pair_of(bytes).map(|(pair, rest)| (
            PoolEntry::InterfaceMethodRef(pair.0, pair.1),
            rest,
        )),
        Tag::NameAndType => pair_of(bytes).map(|(pair, rest)| (
            PoolEntry::NameAndType(pair.0, pair.1),
            rest,
        )),
    }
}

/// What stands after a tag. A text takes memory, and nothing else does.
#[tactic(auto, unfolding(crate::specs::Reading::body_at))]
fn body_of(alloc: Global, tag: Tag, bytes: &[u8]) -> Result<(PoolEntry, &[u8]), ReadError>
    ensures gives { GivesInMemory (λ x. (x.0, x.1.now)) result (body_at tag bytes.now) }
    ensures memory { result ≡ Err ReadError.OutOfMemory → tag ≡ Tag.Utf8 }
{
    match tag {
        Tag::Utf8 => {
            let (text, rest) = text_of(alloc, bytes)?;
            Ok((PoolEntry::Utf8(text), rest))
        }
        _ => Ok(number_body_of(tag, bytes)?),
    }
}

/// Whether an entry with this tag, and the unusable index after it, end below the count.
fn has_room(tag: Tag, index: u16, count: u16) -> bool
    requires { index < count }
    ensures { IsTrue result ↔ (IsTrue (is_wide tag) → index + 1 ≢ count) }
{
    !(tag.is_wide() && index + 1 == count)
}

/// The tag in front of the entry at an index of a pool of so many, and the bytes after it. There is no
/// room for a wide entry at the last index.
fn tag_in_front(index: u16, count: u16, bytes: &[u8]) -> Result<(Tag, &[u8]), PoolError>
    requires { index < count }
    ensures { IsTagAnswer index count bytes.now (seen (λ x. (x.0, x.1.now)) result) }
{
    let [byte, rest @ ..] = bytes else {
        return Err(PoolError::Truncated);
    };
    let Some(tag) = tag_of(*byte) else {
        return Err(PoolError::BadTag(index));
    };
    if !has_room(tag, index, count) {
        return Err(PoolError::BadTag(index));
    }
    Ok((tag, rest))
}

/// The entry at an index of a pool of so many.
fn entry_of(
    alloc: Global,
    index: u16,
    count: u16,
    bytes: &[u8],
) -> Result<(PoolEntry, &[u8]), PoolError>
    requires { index < count }
    ensures { IsEntryAnswer index count bytes.now (seen (λ x. (x.0, x.1.now)) result) }
{
    let (tag, rest) = tag_in_front(index, count, bytes)?;
    Ok(body_of(alloc, tag, rest)?)
}

fn is_wide_entry(entry: &PoolEntry) -> bool
    ensures { second_index entry.now ≡ (if result then Unusable ∷ [] else []) }
{
    matches!(entry, PoolEntry::Long(_) | PoolEntry::Double(_))
}

/// Puts an entry at the end, and the unusable index after it where it has one.
fn push_entry(entries: &mut List<PoolEntry>, entry: PoolEntry) -> Result<(), OutOfMemory>
    ensures { OnOk result (entries.new ≡ entries.old ++ group entry) }
{
    let wide = is_wide_entry(&entry);
    entries.push(entry)?;
    if wide {
        entries.push(PoolEntry::Unusable)?;
    }
    Ok(())
}

/// The entries at the indices below a count. Index 0 is unusable.
fn entries_of(
    alloc: Global,
    count: u16,
    bytes: &[u8],
) -> Result<(List<PoolEntry>, &[u8]), PoolError>
    requires { 0 < count }
    ensures { IsPoolAnswer (u2 count ++ bytes.now) (seen (λ x. (x.0, x.1.now)) result) }
{
    let mut entries = List::new(alloc);
    entries.push(PoolEntry::Unusable)?;
    let mut rest = bytes;
    while entries.len() < count as usize {
        let (entry, after) = entry_of(alloc, entries.len() as u16, count, rest)?;
        push_entry(&mut entries, entry)?;
        rest = after;
    }
    Ok((entries, rest))
}

/// The pool that is laid out in front, and the bytes after it.
pub fn pool_of(alloc: Global, bytes: &[u8]) -> Result<(List<PoolEntry>, &[u8]), PoolError>
    ensures { IsPoolAnswer bytes.now (seen (λ x. (x.0, x.1.now)) result) }
{
    let (count, rest) = u2_of(bytes)?;
    if count == 0 {
        return Err(PoolError::BadTag(0));
    }
    entries_of(alloc, count, rest)
}
