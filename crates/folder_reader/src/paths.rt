//! Paths, as names joined by `/`.

ghost use Rattle.std.specs.Prelude.{◌≡◌, IfOk, IsUtf8, string_bytes};
ghost use Rattle.folder_reader.specs.Paths.{child, whole_path};

use jk_model::{Bytes, OutOfMemory};
use std::alloc::Global;

/// The text in bytes of UTF-8.
pub(crate) fn text_of(bytes: &[u8]) -> &str
    requires { IsUtf8 bytes.now }
    ensures { result.now ≡ bytes.now }
{
    match str::from_utf8(bytes) {
        Ok(text) => text,
        Err(_) => unreachable!(),
    }
}

/// The path for the files of the system of what stands at a path below a folder.
pub(crate) fn whole_path(alloc: Global, root: &str, path: &str) -> Result<String, OutOfMemory>
    ensures { IfOk result (λ whole. string_bytes whole ≡ whole_path root.now path.now) }
{
    let mut whole = String::from_str(alloc, root)?;
    if !path.is_empty() {
        whole.push('/')?;
        whole.push_str(path)?;
    }
    Ok(whole)
}

/// The path of a name in the folder at a path.
pub(crate) fn child_path(alloc: Global, above: &[u8], name: &[u8]) -> Result<Bytes, OutOfMemory>
    ensures { IfOk result (λ path. path ≡ child above.now name.now) }
{
    let mut path = Bytes::from_slice(alloc, above)?;
    if !above.is_empty() {
        path.push(b'/')?;
    }
    path.extend_from_slice(name)?;
    Ok(path)
}
