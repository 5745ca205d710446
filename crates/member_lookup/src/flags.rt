//! Flags of classes and members.

ghost use Rattle.std.specs.Prelude.{◌≡◌, ◌↔◌, IsTrue};
ghost use Rattle.jk_model_classes.specs.Lookups.{IsUnmarked};

use jk_model::{AccessFlags, has};

/// Whether none of public, protected and private is set.
pub(crate) fn is_unmarked(flags: u16) -> bool
    ensures { IsTrue result ↔ IsUnmarked flags }
{
    !has(flags, AccessFlags::PUBLIC)
        && !has(flags, AccessFlags::PROTECTED)
        && !has(flags, AccessFlags::PRIVATE)
}
