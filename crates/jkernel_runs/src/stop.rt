//! Why a run stops before its end.

/// What stops a run.
#[derive(Clone, Copy)]
pub enum Stop {
    /// The files failed.
    ReadFault,
    /// The output failed.
    WriteFault,
    OutOfMemory,
}
