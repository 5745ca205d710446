//! What the stores of heaps and of frames answer.

use crate::memory::OutOfMemory;
use thiserror::Error;

/// Why a domain gets no heap, or no room for its frames.
#[derive(Clone, Copy, Debug, PartialEq, Eq, Error)]
pub enum AdmitError {
    /// No free extent of the store is long enough.
    #[error("no room in the store")]
    NoExtent,
    #[error("out of memory")]
    OutOfMemory,
}

impl From<OutOfMemory> for AdmitError {
    ghost use Rattle.std.specs.Prelude.{◌≡◌};
    ghost use Rattle.jk_model.specs.declared.stores.AdmitError.TheVariants.{OutOfMemory as Lacks};

    ghost from_gives = { λ _ e. e ≡ Lacks };

    fn from(_e: OutOfMemory) -> AdmitError {
        AdmitError::OutOfMemory
    }
}

/// An object costs more words than the domain has free.
#[derive(Clone, Copy, Debug, PartialEq, Eq, Error)]
#[error("no room in the heap")]
pub struct NoRoom;

/// A frame, or a segment with its first frame, costs more chunks than the domain has free.
#[derive(Clone, Copy, Debug, PartialEq, Eq, Error)]
#[error("no room on the stacks")]
pub struct NoChunks;
