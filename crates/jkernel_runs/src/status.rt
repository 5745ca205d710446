//! How a run of the program ends.

ghost use Rattle.std.specs.Prelude.{◌≡◌};
ghost use Rattle.std.specs.Process.{exit_status};
ghost use Rattle.jkernel_runs.specs.Codes.{code_of};

use std::process::{ExitCode, Termination};

/// The status of a run, in the order of the exit statuses 0, 2, 3, 4, 5 and 6.
#[derive(Clone, Copy, Debug, PartialEq, Eq)]
pub enum Status {
    /// All events were run, and their text went out.
    Done,
    /// The words are no call.
    Usage,
    /// The script is at fault. Nothing was run.
    ScriptRefused,
    /// The files failed, or there is no script.
    ReadFault,
    /// The output failed.
    WriteFault,
    OutOfMemory,
}

impl Status {
    /// The exit status of the process.
    pub fn code(self) -> u8
        ensures { result ≡ code_of self }
    {
        match self {
            Status::Done => 0,
            Status::Usage => 2,
            Status::ScriptRefused => 3,
            Status::ReadFault => 4,
            Status::WriteFault => 5,
            Status::OutOfMemory => 6,
        }
    }
}

/// What a program's `main` answers ends its process with the exit status of the table.
impl Termination for Status {
    fn report<R: Eprint>(self, _rt: &R) -> ExitCode
        ensures { exit_status result ≡ code_of self }
    {
        ExitCode::from(self.code())
    }
}
