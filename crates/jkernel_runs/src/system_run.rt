//! A run on the words and the files of the system, as a program makes it.

ghost use Rattle.std.specs.Prelude.{◌≡◌, ◌≢◌, ◌⊎◌, ℕ, List, [], None};
ghost use Rattle.std.specs.IoError.{error_kind};
ghost use Rattle.std.specs.declared.io.ErrorKind.TheVariants.{OutOfMemory as NoMemory};
ghost use Rattle.jk_model.specs.Outside.{HasRisen};
ghost use Rattle.kernel_events.specs.PrintedLines.{sink};
ghost use Rattle.jkernel_runs.specs.Statuses.{IsDone, IsStoppedAtDomain, IsStoppedInLines, Says, ScriptStopsAtDomain, BeginsToSay};

use crate::ends::{End, report};
use crate::program::jkernel;
use crate::status::Status;
use crate::stop::Stop;
use jk_outside::{Disk, DiskFiles, Sink};
use std::env::Env;
use std::{env, io, rt};

/// The words after the program's name.
fn words<R: Env + AllocGlobal>(rt: &R) -> io::Result<Vec<String>> {
    let mut words = Vec::new(rt.alloc());
    for word in env::args(rt)?.skip(1) {
        words.push(word)?;
    }
    Ok(words)
}

/// What is said, and the status, where the words could not be read: they are no text, or memory ran out.
fn not_read<E: Sink>(error: &io::Error, err: &mut E) -> Status
    ensures memory { error_kind error.now ≡ NoMemory → result ≡ Status.OutOfMemory }
    ensures usage { error_kind error.now ≢ NoMemory → result ≡ Status.Usage }
    ensures messages { (HasRisen (E.faults err.old) (E.faults err.new) → ⊥)
        → Says None [] (E.bytes err.old) (E.bytes err.new) result }
    ensures messages_part { BeginsToSay None [] (E.bytes err.old) (E.bytes err.new) result }
{
    let end = if error.kind() == io::ErrorKind::OutOfMemory {
        End::Stopped(Stop::OutOfMemory)
    } else {
        End::Usage
    };
    report(err, end);
    end.status()
}

/// Runs a script over a tree of folders, or the demo, as the words after the program's name say, on the files of the system. Which words
/// these are isn't told, nor what stands on the disk: what is said holds for some words, and for files that tell no tree.
pub fn run_on<R: Env + rt::Files + AllocGlobal + Clone + Drop, S: Sink, E: Sink>(
    rt: R,
    out: &mut S,
    err: &mut E,
) -> Status
    // All events of a script, or of the demo, were run, and their lines went out.
    ensures done { result ≡ Status.Done → (words : List (List ℕ)) × IsDone None words
        (sink (S.bytes out.old) (S.pieces out.old) (S.faults out.old))
        (sink (S.bytes out.new) (S.pieces out.new) (S.faults out.new)) }

    // Where the output failed in the lines of an event, those of the events before it went out whole, and nothing was printed after it.
    ensures early_write { result ≡ Status.WriteFault → (words : List (List ℕ)) × IsStoppedInLines None words
        (sink (S.bytes out.old) (S.pieces out.old) (S.faults out.old))
        (sink (S.bytes out.new) (S.pieces out.new) (S.faults out.new)) }
    // Memory wants, and files fail, before all events or at a `domain` event, of a name that no live domain has: the lines of those before it
    // went out whole.
    ensures early_memory { result ≡ Status.OutOfMemory
        → (sink (S.bytes out.new) (S.pieces out.new) (S.faults out.new) ≡ sink (S.bytes out.old) (S.pieces out.old) (S.faults out.old))
        ⊎ ((words : List (List ℕ)) × IsStoppedAtDomain None words
        (sink (S.bytes out.old) (S.pieces out.old) (S.faults out.old))
        (sink (S.bytes out.new) (S.pieces out.new) (S.faults out.new))) }
    ensures early_read { result ≡ Status.ReadFault
        → (sink (S.bytes out.new) (S.pieces out.new) (S.faults out.new) ≡ sink (S.bytes out.old) (S.pieces out.old) (S.faults out.old))
        ⊎ ((words : List (List ℕ)) × ScriptStopsAtDomain None words
        (sink (S.bytes out.old) (S.pieces out.old) (S.faults out.old))
        (sink (S.bytes out.new) (S.pieces out.new) (S.faults out.new))) }
    ensures early_none { (result ≡ Status.Usage) ⊎ (result ≡ Status.ScriptRefused)
        → sink (S.bytes out.new) (S.pieces out.new) (S.faults out.new) ≡ sink (S.bytes out.old) (S.pieces out.old) (S.faults out.old) }

    // No write failed that did not end the run, and none ended it that did not fail.
    ensures calm_out { (result ≡ Status.WriteFault → ⊥) → S.faults out.new ≡ S.faults out.old }
    ensures causes_write { result ≡ Status.WriteFault → HasRisen (S.faults out.old) (S.faults out.new) }

    // What is said of the run, unless the error sink fails.
    ensures messages { (HasRisen (E.faults err.old) (E.faults err.new) → ⊥)
        → (words : List (List ℕ)) × Says None words (E.bytes err.old) (E.bytes err.new) result }
    ensures messages_part { (words : List (List ℕ)) × BeginsToSay None words (E.bytes err.old) (E.bytes err.new) result }
{
    let words = match words(&rt) {
        Ok(words) => words,
        Err(error) => return not_read(&error, err),
    };
    let alloc = rt.alloc();
    let mut files = DiskFiles::new(alloc, Disk::new(alloc, rt));
    jkernel(alloc, words.as_slice(), &mut files, out, err)
}
