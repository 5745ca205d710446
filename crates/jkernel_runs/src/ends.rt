//! How a run ends, and what is said of it.

ghost use Rattle.std.specs.Prelude.{◌≡◌, ◌++◌, ◌∷◌, [], OnOk, OnErr};
ghost use Rattle.jk_model.specs.Outside.{Appends, AppendsPart, HasRisen};
ghost use Rattle.jkernel_runs.specs.Ends.{end_of, message_of, status_of};
ghost use Rattle.jkernel_runs.specs.Messages.{kind_text, fault_text};

use crate::status::Status;
use crate::stop::Stop;
use jk_model::{FaultKind, ScriptFault};
use jk_outside::{Part, Sink, SinkFailed, write_line};

/// How a run ends.
#[derive(Clone, Copy)]
pub enum End {
    Done,
    Usage,
    /// The script is at fault.
    Refused(ScriptFault),
    Stopped(Stop),
}

impl End {
    /// The status of a run that ends so.
    pub fn status(self) -> Status
        ensures { result ≡ status_of self }
    {
        match self {
            End::Done => Status::Done,
            End::Usage => Status::Usage,
            End::Refused(_) => Status::ScriptRefused,
            End::Stopped(Stop::ReadFault) => Status::ReadFault,
            End::Stopped(Stop::WriteFault) => Status::WriteFault,
            End::Stopped(Stop::OutOfMemory) => Status::OutOfMemory,
        }
    }
}

/// How a run ends whose events came to this.
pub fn ended(ran: Result<(), Stop>) -> End
    ensures { result ≡ end_of ran }
{
    match ran {
        Ok(()) => End::Done,
        Err(stop) => End::Stopped(stop),
    }
}

/// The name of a kind of fault.
fn kind_name(kind: FaultKind) -> &'static [u8]
    ensures { result.now ≡ kind_text kind }
{
    match kind {
        FaultKind::BadByte => b"BadByte",
        FaultKind::UnknownWord => b"UnknownWord",
        FaultKind::BadName => b"BadName",
        FaultKind::BadNumber => b"BadNumber",
        FaultKind::TooLong => b"TooLong",
        FaultKind::Extra => b"Extra",
        FaultKind::Missing => b"Missing",
    }
}

/// What is said where a run stops.
fn stop_text(stop: Stop) -> &'static [u8]
    ensures { result.now ++ 10 ∷ [] ≡ message_of (End.Stopped stop) }
{
    match stop {
        Stop::ReadFault => b"jkernel: cannot read",
        Stop::WriteFault => b"jkernel: cannot write",
        Stop::OutOfMemory => b"jkernel: out of memory",
    }
}

/// Says which line of the script is at fault.
fn say_fault<E: Sink>(err: &mut E, line: u32, kind: FaultKind) -> Result<(), SinkFailed>
    ensures ok { OnOk result
        (Appends (E.bytes err.old) (E.bytes err.new) (fault_text (record { line = line; kind = kind }))) }
    ensures part { OnErr result
        (AppendsPart (E.bytes err.old) (E.bytes err.new) (fault_text (record { line = line; kind = kind }))) }
    ensures cause { OnErr result (HasRisen (E.faults err.old) (E.faults err.new)) }
{
    write_line(
        err,
        &[
            Part::Bytes(b"jkernel: script line "),
            Part::Number(i64::from(line)),
            Part::Bytes(b": "),
            Part::Bytes(kind_name(kind)),
        ],
    )
}

/// Says how a run ended.
fn say<E: Sink>(err: &mut E, end: End) -> Result<(), SinkFailed>
    ensures ok { OnOk result (Appends (E.bytes err.old) (E.bytes err.new) (message_of end)) }
    ensures part { OnErr result
        (AppendsPart (E.bytes err.old) (E.bytes err.new) (message_of end)) }
    ensures cause { OnErr result (HasRisen (E.faults err.old) (E.faults err.new)) }
{
    match end {
        End::Done => Ok(()),
        End::Usage => write_line(
            err,
            &[Part::Bytes(b"usage: jkernel [--pool WORDS] ROOT SCRIPT")],
        ),
        End::Refused(fault) => say_fault(err, fault.line, fault.kind),
        End::Stopped(stop) => write_line(err, &[Part::Bytes(stop_text(stop))]),
    }
}

/// Says how a run ended, once. A sink that fails changes nothing, and has a part of the message, from the front on.
pub fn report<E: Sink>(err: &mut E, end: End)
    ensures whole { (HasRisen (E.faults err.old) (E.faults err.new) → ⊥)
        → Appends (E.bytes err.old) (E.bytes err.new) (message_of end) }
    ensures part { AppendsPart (E.bytes err.old) (E.bytes err.new) (message_of end) }
{
    let _ = say(err, end);
}
