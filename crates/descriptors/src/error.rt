//! Why units were not read as a descriptor.

ghost use Rattle.std.specs.Prelude.{◌≡◌, ℕ, ◌-◌, ◌<◌, ◌≤◌, ◌^◌, ◌∷◌, List, length, MatchOption};
ghost use Rattle.descriptors.specs.declared.error.DescriptorError.TheVariants as Error;

use jk_model::OutOfMemory;
use thiserror::Error;

/// Why units were not read as a descriptor.
#[derive(Clone, Copy, Debug, PartialEq, Eq, Error)]
pub enum DescriptorError {
    /// The units are no descriptor. So many of them, from the front on, begin one, and no more do.
    #[error("only {0} units begin a descriptor")]
    BadDescriptor(u32),
    /// No memory was left. It says nothing of the units.
    #[error("out of memory")]
    OutOfMemory,
}

impl From<OutOfMemory> for DescriptorError {
    ghost use Rattle.std.specs.Prelude.{◌≡◌};
    ghost use Rattle.descriptors.specs.declared.error.DescriptorError.TheVariants as Error;

    ghost from_gives = { λ _ e. e ≡ Error.OutOfMemory };

    fn from(_e: OutOfMemory) -> DescriptorError {
        DescriptorError::OutOfMemory
    }
}

/// Where the units of a descriptor stop being one: so many of them begin one. To find it takes no memory.
#[derive(Clone, Copy, Debug)]
pub(crate) struct StopPlace(pub(crate) u32);

impl From<StopPlace> for DescriptorError {
    ghost use Rattle.std.specs.Prelude.{◌≡◌};
    ghost use Rattle.descriptors.specs.declared.error.DescriptorError.TheVariants as Error;

    ghost from_gives = { λ place e. e ≡ Error.BadDescriptor place.0 };

    fn from(place: StopPlace) -> DescriptorError {
        DescriptorError::BadDescriptor(place.0)
    }
}

/// The place in front of this rest of a descriptor of `whole` units.
pub(crate) fn place_before(rest: &[u16], whole: usize) -> StopPlace
    requires within { length rest.now ≤ whole }
    requires short { whole < 2 ^ 31 }
    ensures { result.0 ≡ whole - length rest.now }
{
    StopPlace((whole - rest.len()) as u32)
}

/// The error of a descriptor of `whole` units that stops in front of this rest of it.
pub(crate) fn bad_before(rest: &[u16], whole: usize) -> DescriptorError
    requires within { length rest.now ≤ whole }
    requires short { whole < 2 ^ 31 }
    ensures { result ≡ Error.BadDescriptor (whole - length rest.now) }
{
    DescriptorError::from(place_before(rest, whole))
}

/// What follows this unit, if it stands in front.
pub(crate) fn rest_after(units: &[u16], first: u16) -> Option<&[u16]>
    ensures { MatchOption result ((more : List ℕ) → units.now ≡ first ∷ more → ⊥) (λ rest. units.now ≡ first ∷ rest.now) }
{
    match units {
        [unit, rest @ ..] if *unit == first => Some(rest),
        _ => None,
    }
}
