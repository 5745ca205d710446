//! Calls that fail by their number.

ghost use Rattle.std.specs.Prelude.{◌≡◌};
ghost use Rattle.jk_outside.specs.Counts.{is_named};

/// Whether a call with this number fails.
pub(crate) fn is_named(fails: &[u32], number: u32) -> bool
    ensures { result ≡ is_named fails.now number }
{
    fails.contains(&number)
}
