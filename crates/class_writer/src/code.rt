//! The body of a Code attribute.

ghost use Rattle.std.specs.Prelude.{◌≡◌, IfOk};
ghost use Rattle.jk_model.specs.ClassFile.{code_bytes, CodeLayout};

use crate::lists::append_list;
use crate::numbers::{append_u2, append_u4};
use jk_model::{Bytes, Code, OutOfMemory};
use std::alloc::Global;

/// The body of a Code attribute, in time linear in its bytes (the Java Virtual Machine Specification, 4.7.3).
/// The code has 1 to 65,535 bytes.
pub fn write_code(alloc: Global, c: &Code) -> Result<Bytes, OutOfMemory>
    requires { CodeLayout (code_bytes c.now) c.now }
    ensures written { IfOk result (λ bytes. bytes ≡ code_bytes c.now) }
{
    let mut out = Bytes::new(alloc);
    append_u2(&mut out, c.max_stack)?;
    append_u2(&mut out, c.max_locals)?;
    append_u4(&mut out, c.code.len() as u32)?;
    out.extend_from_slice(c.code.as_slice())?;
    append_list(&mut out, c.handlers.as_slice())?;
    append_list(&mut out, c.attributes.as_slice())?;
    Ok(out)
}
