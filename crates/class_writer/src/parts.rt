//! The parts that the lists of a class file and of a Code attribute are made of: attributes, members, indices
//! and handlers.

ghost use Rattle.std.specs.Prelude.{◌≡◌, ℕ, ◌++◌, List, length, OnOk};
ghost use Rattle.class_writer.specs.Room.{Leaves};

use crate::lists::{append_list, room_after_list};
use crate::numbers::{append_u2, append_u4};
use crate::room::{room_after, room_after_u2, room_after_u4};
use jk_model::{Attribute, Bytes, Handler, MemberInfo, OutOfMemory};

/// A kind of part, such as an attribute.
pub trait Part {
    // the bytes of a part
    ghost part_bytes: { Self → List ℕ };

    // which parts have bytes: those whose lists are as short as their counts and lengths allow
    ghost is_part: { Self → Type 0 };

    /// How much of a room, in bytes, is left after the part. None where the part has no bytes, or
    /// more of them than the room.
    fn room_after(&self, room: u32) -> Option<u32>
        ensures { Leaves (is_part self.now) (length (part_bytes self.now)) room result };

    /// Puts the part's bytes at the end.
    fn append(&self, out: &mut Bytes) -> Result<(), OutOfMemory>
        requires { is_part self.now }
        ensures { OnOk result (out.new ≡ out.old ++ part_bytes self.now) };
}

/// An index into the constant pool.
impl Part for u16 {
    ghost use Rattle.jk_model.specs.ClassFile.{u2, IsU2};

    ghost part_bytes = { u2 };

    ghost is_part = { IsU2 };

    fn room_after(&self, room: u32) -> Option<u32> {
        room_after_u2(*self, room)
    }

    fn append(&self, out: &mut Bytes) -> Result<(), OutOfMemory> {
        append_u2(out, *self)
    }
}

/// An attribute: its name, the length of its body, and the body.
impl Part for Attribute {
    ghost use Rattle.jk_model.specs.ClassFile.{attribute_bytes, IsAttribute};

    ghost part_bytes = { attribute_bytes };

    ghost is_part = { IsAttribute };

    fn room_after(&self, room: u32) -> Option<u32> {
        let len = u32::try_from(self.body.len()).ok()?;
        let room = room_after_u2(self.name, room)?;
        let room = room_after_u4(len, room)?;
        room_after(self.body.as_slice(), room)
    }

    fn append(&self, out: &mut Bytes) -> Result<(), OutOfMemory> {
        append_u2(out, self.name)?;
        append_u4(out, self.body.len() as u32)?;
        out.extend_from_slice(self.body.as_slice())
    }
}

/// A field or a method: its flags, name and descriptor, and its attributes.
impl Part for MemberInfo {
    ghost use Rattle.jk_model.specs.ClassFile.{member_bytes, IsMember};

    ghost part_bytes = { member_bytes };

    ghost is_part = { IsMember };

    fn room_after(&self, room: u32) -> Option<u32> {
        let room = room_after_u2(self.flags, room)?;
        let room = room_after_u2(self.name, room)?;
        let room = room_after_u2(self.descriptor, room)?;
        room_after_list(self.attributes.as_slice(), room)
    }

    fn append(&self, out: &mut Bytes) -> Result<(), OutOfMemory> {
        append_u2(out, self.flags)?;
        append_u2(out, self.name)?;
        append_u2(out, self.descriptor)?;
        append_list(out, self.attributes.as_slice())
    }
}

/// An exception handler: three places, and the class that is caught.
impl Part for Handler {
    ghost use Rattle.jk_model.specs.ClassFile.{handler_bytes, IsHandler};

    ghost part_bytes = { handler_bytes };

    ghost is_part = { IsHandler };

    fn room_after(&self, room: u32) -> Option<u32> {
        let room = room_after_u2(self.start, room)?;
        let room = room_after_u2(self.end, room)?;
        let room = room_after_u2(self.handler, room)?;
        room_after_u2(self.catch, room)
    }

    fn append(&self, out: &mut Bytes) -> Result<(), OutOfMemory> {
        append_u2(out, self.start)?;
        append_u2(out, self.end)?;
        append_u2(out, self.handler)?;
        append_u2(out, self.catch)
    }
}
