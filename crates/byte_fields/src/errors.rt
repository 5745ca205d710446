//! Why a field was not read.

ghost use Rattle.std.specs.Prelude.{◌≡◌};
ghost use Rattle.byte_fields.specs.declared.errors.ReadError.TheVariants as Error;

use jk_model::OutOfMemory;
use thiserror::Error;

/// The bytes end before the field does.
#[derive(Clone, Copy, Debug, PartialEq, Eq, Error)]
#[error("the bytes end early")]
pub struct EndsEarly;

/// Why a field was not read by a call that takes memory.
#[derive(Clone, Copy, Debug, PartialEq, Eq, Error)]
pub enum ReadError {
    /// The bytes end before the field does.
    #[error("the bytes end early")]
    EndsEarly,
    /// No memory was left. It says nothing of the bytes.
    #[error("out of memory")]
    OutOfMemory,
}

impl From<EndsEarly> for ReadError {
    ghost from_gives = { λ _ e. e ≡ Error.EndsEarly };

    fn from(_e: EndsEarly) -> ReadError {
        ReadError::EndsEarly
    }
}

impl From<OutOfMemory> for ReadError {
    ghost from_gives = { λ _ e. e ≡ Error.OutOfMemory };

    fn from(_e: OutOfMemory) -> ReadError {
        ReadError::OutOfMemory
    }
}
