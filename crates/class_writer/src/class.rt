//! The whole of a class file.

ghost use Rattle.std.specs.Prelude.{◌≡◌, ◌↔◌, length, IsTrue, IfOk};
ghost use Rattle.jk_model.specs.ClassFile.{class_bytes, IsClass};
ghost use Rattle.jk_model.specs.ReadFaults.{IsWritable};
ghost use Rattle.class_writer.specs.Room.{Leaves, HasParts, IsShort};

use crate::lists::{append_list, room_after_list};
use crate::numbers::{append_u2, append_u4};
use crate::room::{room_after_u2, room_after_u4};
use crate::slots::are_slots;
use class_reader::{MAGIC, is_version};
use const_pool::is_good_pool;
use jk_model::{Bytes, ClassFile, OutOfMemory};
use std::alloc::Global;

/// The most bytes that a class file may have.
const LONGEST: u32 = 0x7fff_ffff;

/// How much of a room, in bytes, is left after all sections. None where a list or a text is longer than
/// its count allows, and where they have more bytes than the room.
fn room_after_class(c: &ClassFile, room: u32) -> Option<u32>
    ensures { Leaves (HasParts c.now) (length (class_bytes c.now)) room result }
{
    let room = room_after_u4(MAGIC, room)?;
    let room = room_after_u2(c.minor, room)?;
    let room = room_after_u2(c.major, room)?;
    let room = room_after_list(c.pool.as_slice(), room)?;
    let room = room_after_u2(c.flags, room)?;
    let room = room_after_u2(c.this_class, room)?;
    let room = room_after_u2(c.super_class, room)?;
    let room = room_after_list(c.interfaces.as_slice(), room)?;
    let room = room_after_list(c.fields.as_slice(), room)?;
    let room = room_after_list(c.methods.as_slice(), room)?;
    room_after_list(c.attributes.as_slice(), room)
}

/// Whether lists and texts fit their counts, and the file is shorter than 2^31 bytes.
fn is_short(c: &ClassFile) -> bool
    ensures { IsTrue result ↔ IsShort c.now }
{
    room_after_class(c, LONGEST).is_some()
}

/// Whether a record can be written as a class file (the Java Virtual Machine Specification, chapter 4).
///
/// Each list has at most 65,535 items and each text at most 65,535 bytes, the version is one from 45.3 to
/// 50.0, the entries of the constant pool are good and stand where a reader puts them, and the file is
/// shorter than 2^31 bytes. It takes no memory, and time linear in the record.
pub fn is_writable(c: &ClassFile) -> bool
    ensures writable { IsTrue result ↔ IsWritable c.now }
{
    let pool = c.pool.as_slice();
    is_version(c.major, c.minor) && is_short(c) && are_slots(pool) && is_good_pool(pool)
}

/// The bytes of a class file, in time linear in them (the Java Virtual Machine Specification, 4.1).
/// `is_writable` says which records have them. A file may also be longer than that allows.
pub fn write_class(alloc: Global, c: &ClassFile) -> Result<Bytes, OutOfMemory>
    requires { IsClass (class_bytes c.now) c.now }
    ensures written { IfOk result (λ bytes. bytes ≡ class_bytes c.now) }
{
    let mut out = Bytes::new(alloc);
    append_u4(&mut out, MAGIC)?;
    append_u2(&mut out, c.minor)?;
    append_u2(&mut out, c.major)?;
    append_list(&mut out, c.pool.as_slice())?;
    append_u2(&mut out, c.flags)?;
    append_u2(&mut out, c.this_class)?;
    append_u2(&mut out, c.super_class)?;
    append_list(&mut out, c.interfaces.as_slice())?;
    append_list(&mut out, c.fields.as_slice())?;
    append_list(&mut out, c.methods.as_slice())?;
    append_list(&mut out, c.attributes.as_slice())?;
    Ok(out)
}
