//! Why a line or a script was not read.

use jk_model::{FaultKind, OutOfMemory, ScriptFault};
use thiserror::Error;

/// Why a line was not read.
#[derive(Clone, Copy, Debug, PartialEq, Eq)]
pub(crate) enum LineError {
    Fault(FaultKind),
    /// No memory was left. It says nothing of the line.
    OutOfMemory,
}

impl From<FaultKind> for LineError {
    ghost use Rattle.std.specs.Prelude.{◌≡◌};
    ghost use Rattle.script_reader.specs.declared.error.LineError.TheVariants as Error;

    ghost from_gives = { λ kind e. e ≡ Error.Fault kind };

    fn from(kind: FaultKind) -> LineError {
        LineError::Fault(kind)
    }
}

impl From<OutOfMemory> for LineError {
    ghost use Rattle.std.specs.Prelude.{◌≡◌};
    ghost use Rattle.script_reader.specs.declared.error.LineError.TheVariants as Error;

    ghost from_gives = { λ _ e. e ≡ Error.OutOfMemory };

    fn from(_e: OutOfMemory) -> LineError {
        LineError::OutOfMemory
    }
}

/// Why bytes were not read as a script.
#[derive(Clone, Copy, Debug, PartialEq, Eq, Error)]
pub enum ScriptError {
    /// The first line at fault, and what is wrong with it.
    #[error("the script is at fault")]
    Fault(ScriptFault),
    /// No memory was left. It says nothing of the bytes.
    #[error("out of memory")]
    OutOfMemory,
}

impl From<OutOfMemory> for ScriptError {
    ghost use Rattle.std.specs.Prelude.{◌≡◌};
    ghost use Rattle.script_reader.specs.declared.error.ScriptError.TheVariants as Error;

    ghost from_gives = { λ _ e. e ≡ Error.OutOfMemory };

    fn from(_e: OutOfMemory) -> ScriptError {
        ScriptError::OutOfMemory
    }
}
