//! How much of a room, in bytes, is left after bytes and numbers, and none where they don't fit in it.

ghost use Rattle.std.specs.Prelude.{length};
ghost use Rattle.jk_model.specs.ClassFile.{u2, u4, u8, IsU2, IsU4, IsU8, AreBytes};
ghost use Rattle.class_writer.specs.Room.{Leaves};

/// The room after these bytes.
pub fn room_after(bytes: &[u8], room: u32) -> Option<u32>
    ensures { Leaves (AreBytes bytes.now) (length bytes.now) room result }
{
    room.checked_sub(u32::try_from(bytes.len()).ok()?)
}

/// The room after a number of two bytes.
pub fn room_after_u2(n: u16, room: u32) -> Option<u32>
    ensures { Leaves (IsU2 n) (length (u2 n)) room result }
{
    room_after(&n.to_be_bytes(), room)
}

/// The room after a number of four bytes.
pub fn room_after_u4(n: u32, room: u32) -> Option<u32>
    ensures { Leaves (IsU4 n) (length (u4 n)) room result }
{
    room_after(&n.to_be_bytes(), room)
}

/// The room after a number of eight bytes.
pub fn room_after_u8(n: u64, room: u32) -> Option<u32>
    ensures { Leaves (IsU8 n) (length (u8 n)) room result }
{
    room_after(&n.to_be_bytes(), room)
}
