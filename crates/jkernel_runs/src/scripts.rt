//! The script that the words name.

ghost use Rattle.std.specs.Prelude.{◌≡◌, ℕ, ◌≤◌, ◌⊎◌, List, [], ◌∷◌, ◌++◌, length, IfOk, Err, IsSome};
ghost use Rattle.std.specs.List.{AllByRecursion};
ghost use Rattle.jk_model.specs.Outside.{HasNoFile, HasLongFile, NeverFalls};
ghost use Rattle.jkernel_runs.specs.Asked.{ask_for_script};
ghost use Rattle.jkernel_runs.specs.Ends.{HasText, ScriptEnds, AnswersScript, AnswersFault};
ghost use Rattle.jkernel_runs.specs.Events.{IsOfScript};
ghost use Rattle.jkernel_runs.specs.Scripts.{IsScript, IsAtFault};

use crate::ends::End;
use crate::stop::Stop;
use jk_model::{Event, FaultKind, List, ScriptFault};
use jk_outside::{Files, FilesError};
use script_reader::{ScriptError, read_script};
use std::alloc::Global;

/// How many bytes a script may have.
const MAX_BYTES: u32 = 1_048_576;

/// What is wrong with a script that has too many bytes.
const TOO_LONG: ScriptFault = ScriptFault {
    line: 0,
    kind: FaultKind::TooLong,
};

/// The events of the script at a path, or how the run ends without them.
pub fn script_at<F: Files>(alloc: Global, files: &mut F, path: &str) -> Result<List<Event>, End>
    ensures ends { ScriptEnds (F.tree files.old) path.now (F.faults files.old) (F.faults files.new) result }
    ensures of_script { IfOk result (λ events. AllByRecursion IsOfScript events) }
    ensures few { IfOk result (λ events. length events ≤ 65536) }
    // A script without fault is read, and one at fault is refused for it, unless memory or the files fail.
    ensures script { (text : List ℕ) (events : List Event) → HasText (F.tree files.old) path.now text → IsScript text events
        → AnswersScript (F.faults files.old) (F.faults files.new) result }
    ensures fault { (text : List ℕ) (f : ScriptFault) → HasText (F.tree files.old) path.now text → IsAtFault text f
        → AnswersFault f (F.faults files.old) (F.faults files.new) result }
    // Want of memory is no answer where the tree tells another.
    ensures missing { HasNoFile (F.tree files.old) path.now → result ≡ Err (End.Stopped Stop.ReadFault) }
    ensures over { HasLongFile (F.tree files.old) path.now 1048576
        → (result ≡ Err (End.Refused (record { line = 0; kind = FaultKind.TooLong }))) ⊎ (result ≡ Err (End.Stopped Stop.ReadFault)) }
    ensures asks { F.asked files.new ≡ F.asked files.old ++ ask_for_script path.now ∷ [] }
    ensures calm { (result ≡ Err (End.Stopped Stop.ReadFault) → ⊥) → IsSome (F.tree files.old)
        → F.faults files.new ≡ F.faults files.old }
    ensures stays { F.tree files.new ≡ F.tree files.old }
    ensures faults { NeverFalls (F.faults files.old) (F.faults files.new) }
{
    let text = match files.read(path, MAX_BYTES) {
        Ok(text) => text,
        Err(FilesError::Failed) => return Err(End::Stopped(Stop::ReadFault)),
        Err(FilesError::Absent) => return Err(End::Stopped(Stop::ReadFault)),
        Err(FilesError::TooLong) => return Err(End::Refused(TOO_LONG)),
        Err(FilesError::OutOfMemory) => return Err(End::Stopped(Stop::OutOfMemory)),
    };
    match read_script(alloc, text.as_slice()) {
        Ok(events) => Ok(events),
        Err(ScriptError::Fault(fault)) => Err(End::Refused(fault)),
        Err(ScriptError::OutOfMemory) => Err(End::Stopped(Stop::OutOfMemory)),
    }
}
