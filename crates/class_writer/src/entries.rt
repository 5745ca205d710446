//! The entries of the constant pool, as a kind of part: a tag, and what belongs to it (the Java Virtual
//! Machine Specification, 4.4).

ghost use Rattle.std.specs.Prelude.{◌≡◌, ◌<◌, ◌^◌, ◌∷◌, ◌++◌, length, OnOk};
ghost use Rattle.std.specs.Int.{w16};
ghost use Rattle.byte_fields.specs.Layouts.{IsBlock, block_bytes};
ghost use Rattle.jk_model.specs.ClassFile.{u2, u4, u8};
ghost use Rattle.class_writer.specs.Room.{Leaves};

use crate::numbers::{append_u2, append_u4, append_u8};
use crate::parts::Part;
use crate::room::{room_after, room_after_u2, room_after_u4, room_after_u8};
use jk_model::{Bytes, OutOfMemory, PoolEntry};

/// Puts a tag, the length of a text and its bytes at the end.
fn append_text(out: &mut Bytes, tag: u8, text: &[u8]) -> Result<(), OutOfMemory>
    requires { length text.now < 2 ^ 16 }
    ensures { OnOk result (out.new ≡ out.old ++ (tag ∷ u2 (length text.now) ++ text.now)) }
{
    out.push(tag)?;
    append_u2(out, text.len() as u16)?;
    out.extend_from_slice(text)
}

/// Puts a tag and an index at the end.
fn append_index(out: &mut Bytes, tag: u8, index: u16) -> Result<(), OutOfMemory>
    ensures { OnOk result (out.new ≡ out.old ++ tag ∷ u2 index) }
{
    out.push(tag)?;
    append_u2(out, index)
}

/// Puts a tag and two indices at the end.
fn append_indices(out: &mut Bytes, tag: u8, first: u16, second: u16) -> Result<(), OutOfMemory>
    ensures { OnOk result (out.new ≡ out.old ++ (tag ∷ u2 first ++ u2 second)) }
{
    out.push(tag)?;
    append_u2(out, first)?;
    append_u2(out, second)
}

/// Puts a tag and the 32 bits of a number at the end.
fn append_word(out: &mut Bytes, tag: u8, bits: u32) -> Result<(), OutOfMemory>
    ensures { OnOk result (out.new ≡ out.old ++ tag ∷ u4 bits) }
{
    out.push(tag)?;
    append_u4(out, bits)
}

/// Puts a tag and the 64 bits of a number at the end.
fn append_long(out: &mut Bytes, tag: u8, bits: u64) -> Result<(), OutOfMemory>
    ensures { OnOk result (out.new ≡ out.old ++ tag ∷ u8 bits) }
{
    out.push(tag)?;
    append_u8(out, bits)
}

/// The room after the length of a text and its bytes. None is left where the text is longer than 65,535
/// bytes, too.
fn room_after_text(text: &[u8], room: u32) -> Option<u32>
    ensures { Leaves (IsBlock (2 ^ 16) text.now) (length (block_bytes w16 text.now)) room result }
{
    let len = u16::try_from(text.len()).ok()?;
    room_after(text, room_after_u2(len, room)?)
}

/// An unusable index has no bytes. Each other entry has a tag of one byte in front.
impl Part for PoolEntry {
    ghost use Rattle.jk_model.specs.ClassFile.{entry_bytes, IsEntry};

    ghost part_bytes = { entry_bytes };

    ghost is_part = { IsEntry };

    fn room_after(&self, room: u32) -> Option<u32> {
        match self {
            PoolEntry::Unusable => Some(room),
            PoolEntry::Utf8(text) => room_after_text(text.as_slice(), room.checked_sub(1)?),
            PoolEntry::Integer(n) | PoolEntry::Float(n) => {
                room_after_u4(*n, room.checked_sub(1)?)
            }
            PoolEntry::Long(n) | PoolEntry::Double(n) => room_after_u8(*n, room.checked_sub(1)?),
            PoolEntry::Class(i) | PoolEntry::Str(i) => room_after_u2(*i, room.checked_sub(1)?),
            PoolEntry::FieldRef(first, second)
            | PoolEntry::MethodRef(first, second)
            | PoolEntry::InterfaceMethodRef(first, second)
            | PoolEntry::NameAndType(first, second) => {
                let room = room_after_u2(*first, room.checked_sub(1)?)?;
                room_after_u2(*second, room)
            }
        }
    }

    fn append(&self, out: &mut Bytes) -> Result<(), OutOfMemory> {
        match self {
            PoolEntry::Unusable => Ok(()),
            PoolEntry::Utf8(text) => append_text(out, 1, text.as_slice()),
            PoolEntry::Integer(n) => append_word(out, 3, *n),
            PoolEntry::Float(bits) => append_word(out, 4, *bits),
            PoolEntry::Long(n) => append_long(out, 5, *n),
            PoolEntry::Double(bits) => append_long(out, 6, *bits),
            PoolEntry::Class(name) => append_index(out, 7, *name),
            PoolEntry::Str(text) => append_index(out, 8, *text),
            PoolEntry::FieldRef(class, pair) => append_indices(out, 9, *class, *pair),
            PoolEntry::MethodRef(class, pair) => append_indices(out, 10, *class, *pair),
            PoolEntry::InterfaceMethodRef(class, pair) => append_indices(out, 11, *class, *pair),
            PoolEntry::NameAndType(name, descriptor) => {
                append_indices(out, 12, *name, *descriptor)
            }
        }
    }
}
