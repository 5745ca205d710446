//! Why words are no call.

use std::alloc::AllocError;
use thiserror::Error;

/// Why words are no call.
#[derive(Clone, Copy, Debug, PartialEq, Eq, Error)]
pub enum CallError {
    /// The words have no form of a call.
    #[error("the words are no call")]
    Usage,
    /// No memory was left. It says nothing of the words.
    #[error("out of memory")]
    OutOfMemory,
}

impl From<AllocError> for CallError {
    ghost use Rattle.std.specs.Prelude.{◌≡◌};
    ghost use Rattle.command_words.specs.declared.error.CallError.TheVariants as Error;

    ghost from_gives = { λ _ e. e ≡ Error.OutOfMemory };

    fn from(_e: AllocError) -> CallError {
        CallError::OutOfMemory
    }
}
