//! The one error that any call which takes memory may answer.

use std::alloc::{AllocError, AllocFailed};
use thiserror::Error;

/// No memory was left. It says nothing of the input.
#[derive(Clone, Copy, Debug, PartialEq, Eq, Error)]
#[error("out of memory")]
pub struct OutOfMemory;

impl From<AllocError> for OutOfMemory {
    fn from(_e: AllocError) -> OutOfMemory {
        OutOfMemory
    }
}

impl<T: Drop> From<AllocFailed<T>> for OutOfMemory {
    fn from(_e: AllocFailed<T>) -> OutOfMemory {
        OutOfMemory
    }
}
