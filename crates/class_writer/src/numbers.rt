//! Numbers at the end of bytes, the highest byte first.

ghost use Rattle.std.specs.Prelude.{◌≡◌, ◌++◌, OnOk};
ghost use Rattle.jk_model.specs.ClassFile.{u2, u4, u8};

use jk_model::{Bytes, OutOfMemory};

/// Puts a number of two bytes at the end.
pub fn append_u2(out: &mut Bytes, n: u16) -> Result<(), OutOfMemory>
    ensures { OnOk result (out.new ≡ out.old ++ u2 n) }
{
    out.extend_from_slice(&n.to_be_bytes())
}

/// Puts a number of four bytes at the end.
pub fn append_u4(out: &mut Bytes, n: u32) -> Result<(), OutOfMemory>
    ensures { OnOk result (out.new ≡ out.old ++ u4 n) }
{
    out.extend_from_slice(&n.to_be_bytes())
}

/// Puts a number of eight bytes at the end.
pub fn append_u8(out: &mut Bytes, n: u64) -> Result<(), OutOfMemory>
    ensures { OnOk result (out.new ≡ out.old ++ u8 n) }
{
    out.extend_from_slice(&n.to_be_bytes())
}
