//! Lists of parts: a count of two bytes, and the parts one after another.

ghost use Rattle.std.specs.Prelude.{◌≡◌, ◌++◌, length, OnOk};
ghost use Rattle.byte_fields.specs.Layouts.{AreCounted, counted_bytes};
ghost use Rattle.class_writer.specs.Room.{Leaves};

use crate::numbers::append_u2;
use crate::parts::Part;
use crate::room::room_after_u2;
use jk_model::{Bytes, OutOfMemory};

/// How much of a room, in bytes, is left after the list. None where it has more than 65,535 parts,
/// where one of them has no bytes, and where all have more bytes than the room.
pub fn room_after_list<P: Part>(parts: &[P], room: u32) -> Option<u32>
    ensures { Leaves (AreCounted P.is_part parts.now) (length (counted_bytes P.part_bytes parts.now))
        room result }
{
    let count = u16::try_from(parts.len()).ok()?;
    let mut left = room_after_u2(count, room)?;
    for part in parts {
        left = part.room_after(left)?;
    }
    Some(left)
}

/// Puts the list's bytes at the end.
pub fn append_list<P: Part>(out: &mut Bytes, parts: &[P]) -> Result<(), OutOfMemory>
    requires { AreCounted P.is_part parts.now }
    ensures { OnOk result (out.new ≡ out.old ++ counted_bytes P.part_bytes parts.now) }
{
    append_u2(out, parts.len() as u16)?;
    for part in parts {
        part.append(out)?;
    }
    Ok(())
}
