//! The top call: words, files and two sinks in, a status out.

ghost use Rattle.std.specs.Prelude.{◌≡◌, ◌⊎◌, ℕ, List, map, string_bytes, IsSome};
ghost use Rattle.jk_model.specs.Outside.{HasNoFile, HasLongFile, HasRisen};
ghost use Rattle.jk_model.specs.Script.{MAX_BYTES};
ghost use Rattle.jk_model.specs.declared.script.FaultKind.TheVariants.{TooLong};
ghost use Rattle.kernel_events.specs.PrintedLines.{sink};
ghost use Rattle.command_words.specs.CommandLine.{ArePlainWords, CallsDemo, CallsFor, CallsScript, IsForScript, IsNoCall};
ghost use Rattle.jkernel_runs.specs.declared.stop.Stop.TheVariants.{OutOfMemory, ReadFault, WriteFault};
ghost use Rattle.jkernel_runs.specs.Ends.{EndsDemo, EndsSo, EndsWell, EndsRefused, HasText, end_untaken};
ghost use Rattle.jkernel_runs.specs.Events.{moment};
ghost use Rattle.jkernel_runs.specs.Scripts.{IsScript, IsAtFault};
ghost use Rattle.jkernel_runs.specs.Statuses.{HasFault, LacksScript, EndsDone, EndsForFiles, EndsForMemory, EndsInLines, IsUnread, Asks, Says, BeginsToSay};

use crate::demo::run_demo;
use crate::ends::{End, ended, report};
use crate::events::run_events;
use crate::scripts::script_at;
use crate::status::Status;
use crate::stop::Stop;
use command_words::{Call, CallError, call_of};
use jk_model::{Event, ScriptFault};
use jk_outside::{Files, Sink};
use std::alloc::Global;

/// Runs a script over a tree of folders, and says nothing of it. What holds of it holds for all words that call for this script.
fn run_script<F: Files, S: Sink>(
    alloc: Global,
    root: &str,
    script: &str,
    files: &mut F,
    out: &mut S,
) -> End
    ensures ends { (words : List (List ℕ)) → CallsScript words root.now script.now → EndsSo (F.tree files.old) words
        (moment (sink (S.bytes out.old) (S.pieces out.old) (S.faults out.old)) (F.asked files.old) (F.faults files.old))
        (moment (sink (S.bytes out.new) (S.pieces out.new) (S.faults out.new)) (F.asked files.new) (F.faults files.new)) result }
    ensures asks { (words : List (List ℕ)) → CallsScript words root.now script.now
        → Asks (F.tree files.old) words (F.asked files.old) (F.asked files.new) }
    ensures calm { (result ≡ End.Stopped ReadFault → ⊥) → IsSome (F.tree files.old)
        → F.faults files.new ≡ F.faults files.old }
    ensures calm_out { (result ≡ End.Stopped WriteFault → ⊥) → S.faults out.new ≡ S.faults out.old }
    ensures missing { HasNoFile (F.tree files.old) script.now → result ≡ End.Stopped ReadFault }
    ensures over { HasLongFile (F.tree files.old) script.now MAX_BYTES
        → (result ≡ End.Refused (record { line = 0; kind = TooLong })) ⊎ (result ≡ End.Stopped ReadFault) }
    ensures script { (text : List ℕ) (events : List Event) → HasText (F.tree files.old) script.now text → IsScript text events
        → EndsWell (F.faults files.old) (F.faults files.new) (S.faults out.old) (S.faults out.new) result }
    ensures fault { (text : List ℕ) (f : ScriptFault) → HasText (F.tree files.old) script.now text → IsAtFault text f
        → EndsRefused f (F.faults files.old) (F.faults files.new) result }
{
    let events = match script_at(alloc, files, script) {
        Ok(events) => events,
        Err(end) => return end,
    };
    ended(run_events(alloc, root, events.as_slice(), files, out))
}

/// Runs what is called for, and says nothing of it. What holds of it holds for all words that call for this.
fn run_call<F: Files, S: Sink>(alloc: Global, call: Call<'_>, files: &mut F, out: &mut S) -> End
    ensures ends { (words : List (List ℕ)) → CallsFor words call.entry → EndsSo (F.tree files.old) words
        (moment (sink (S.bytes out.old) (S.pieces out.old) (S.faults out.old)) (F.asked files.old) (F.faults files.old))
        (moment (sink (S.bytes out.new) (S.pieces out.new) (S.faults out.new)) (F.asked files.new) (F.faults files.new)) result }
    ensures asks { (words : List (List ℕ)) → CallsFor words call.entry
        → Asks (F.tree files.old) words (F.asked files.old) (F.asked files.new) }
    ensures calm { (result ≡ End.Stopped ReadFault → ⊥) → IsSome (F.tree files.old)
        → F.faults files.new ≡ F.faults files.old }
    ensures calm_out { (result ≡ End.Stopped WriteFault → ⊥) → S.faults out.new ≡ S.faults out.old }
    ensures missing { (root script : List ℕ) → IsForScript call.entry root script → HasNoFile (F.tree files.old) script
        → result ≡ End.Stopped ReadFault }
    ensures over { (root script : List ℕ) → IsForScript call.entry root script → HasLongFile (F.tree files.old) script MAX_BYTES
        → (result ≡ End.Refused (record { line = 0; kind = TooLong })) ⊎ (result ≡ End.Stopped ReadFault) }
    ensures script { (root script text : List ℕ) (events : List Event) → IsForScript call.entry root script
        → HasText (F.tree files.old) script text → IsScript text events
        → EndsWell (F.faults files.old) (F.faults files.new) (S.faults out.old) (S.faults out.new) result }
    ensures fault { (root script text : List ℕ) (f : ScriptFault) → IsForScript call.entry root script
        → HasText (F.tree files.old) script text → IsAtFault text f
        → EndsRefused f (F.faults files.old) (F.faults files.new) result }
    ensures demo { (seed : ℕ) → call.entry ≡ Call.Demo seed → EndsDemo (S.faults out.old) (S.faults out.new) result }
{
    match call {
        Call::Script { root, script } => run_script(alloc, root, script, files, out),
        Call::Demo { seed } => run_demo(alloc, seed, out),
    }
}

/// How a run ends whose words were not taken.
fn untaken(error: CallError) -> End
    ensures { result ≡ end_untaken error }
{
    match error {
        CallError::Usage => End::Usage,
        CallError::OutOfMemory => End::Stopped(Stop::OutOfMemory),
    }
}

/// Runs what the words say, and says nothing of it.
fn run<F: Files, S: Sink>(alloc: Global, words: &[String], files: &mut F, out: &mut S) -> End
    ensures ends { EndsSo (F.tree files.old) (map string_bytes words.now)
        (moment (sink (S.bytes out.old) (S.pieces out.old) (S.faults out.old)) (F.asked files.old) (F.faults files.old))
        (moment (sink (S.bytes out.new) (S.pieces out.new) (S.faults out.new)) (F.asked files.new) (F.faults files.new)) result }
    ensures asks { Asks (F.tree files.old) (map string_bytes words.now) (F.asked files.old) (F.asked files.new) }
    ensures calm { (result ≡ End.Stopped ReadFault → ⊥) → IsSome (F.tree files.old)
        → F.faults files.new ≡ F.faults files.old }
    ensures calm_out { (result ≡ End.Stopped WriteFault → ⊥) → S.faults out.new ≡ S.faults out.old }
    ensures no_call { IsNoCall (map string_bytes words.now) → (result ≡ End.Usage) ⊎ (result ≡ End.Stopped OutOfMemory) }
    ensures missing { (root script : List ℕ) → CallsScript (map string_bytes words.now) root script
        → HasNoFile (F.tree files.old) script → (result ≡ End.Stopped ReadFault) ⊎ (result ≡ End.Stopped OutOfMemory) }
    ensures missing_plain { (root script : List ℕ) → ArePlainWords (map string_bytes words.now) root script
        → HasNoFile (F.tree files.old) script → result ≡ End.Stopped ReadFault }
    ensures over { (root script : List ℕ) → CallsScript (map string_bytes words.now) root script
        → HasLongFile (F.tree files.old) script MAX_BYTES
        → (result ≡ End.Refused (record { line = 0; kind = TooLong }))
        ⊎ ((result ≡ End.Stopped ReadFault) ⊎ (result ≡ End.Stopped OutOfMemory)) }
    ensures over_plain { (root script : List ℕ) → ArePlainWords (map string_bytes words.now) root script
        → HasLongFile (F.tree files.old) script MAX_BYTES
        → (result ≡ End.Refused (record { line = 0; kind = TooLong })) ⊎ (result ≡ End.Stopped ReadFault) }
    ensures script { (root script text : List ℕ) (events : List Event) → CallsScript (map string_bytes words.now) root script
        → HasText (F.tree files.old) script text → IsScript text events
        → EndsWell (F.faults files.old) (F.faults files.new) (S.faults out.old) (S.faults out.new) result }
    ensures fault { (root script text : List ℕ) (f : ScriptFault) → CallsScript (map string_bytes words.now) root script
        → HasText (F.tree files.old) script text → IsAtFault text f
        → EndsRefused f (F.faults files.old) (F.faults files.new) result }
    ensures demo { (seed : ℕ) → CallsDemo (map string_bytes words.now) seed
        → EndsDemo (S.faults out.old) (S.faults out.new) result }
{
    match call_of(alloc, words) {
        Ok(call) => run_call(alloc, call, files, out),
        Err(error) => untaken(error),
    }
}

/// Runs a script over a tree of folders, as the words ROOT and SCRIPT say, or the demo of a seed, as the words `--demo SEED` say: what the
/// programs print and what the kernel decides goes to `out`, and why a run stopped to `err`.
pub fn jkernel<F: Files, S: Sink, E: Sink>(
    alloc: Global,
    words: &[String],
    files: &mut F,
    out: &mut S,
    err: &mut E,
) -> Status
    // All events were run, their lines went out, and the files were asked for the script, and else for what its events need alone; for the demo nothing.
    ensures done { result ≡ Status.Done → EndsDone (F.tree files.old) (map string_bytes words.now)
        (moment (sink (S.bytes out.old) (S.pieces out.old) (S.faults out.old)) (F.asked files.old) (F.faults files.old))
        (moment (sink (S.bytes out.new) (S.pieces out.new) (S.faults out.new)) (F.asked files.new) (F.faults files.new)) }

    // Where the output failed in the lines of an event, those of the events before it went out whole, and nothing was printed or asked for after it.
    ensures early_write { result ≡ Status.WriteFault → EndsInLines (F.tree files.old) (map string_bytes words.now)
        (moment (sink (S.bytes out.old) (S.pieces out.old) (S.faults out.old)) (F.asked files.old) (F.faults files.old))
        (moment (sink (S.bytes out.new) (S.pieces out.new) (S.faults out.new)) (F.asked files.new) (F.faults files.new)) }
    // Memory wants, and files fail, before all events or at a `domain` event, of a name that no live domain has: the lines of those before it
    // went out whole.
    ensures early_memory { result ≡ Status.OutOfMemory → EndsForMemory (F.tree files.old) (map string_bytes words.now)
        (moment (sink (S.bytes out.old) (S.pieces out.old) (S.faults out.old)) (F.asked files.old) (F.faults files.old))
        (moment (sink (S.bytes out.new) (S.pieces out.new) (S.faults out.new)) (F.asked files.new) (F.faults files.new)) }
    ensures early_read { result ≡ Status.ReadFault → EndsForFiles (F.tree files.old) (map string_bytes words.now)
        (moment (sink (S.bytes out.old) (S.pieces out.old) (S.faults out.old)) (F.asked files.old) (F.faults files.old))
        (moment (sink (S.bytes out.new) (S.pieces out.new) (S.faults out.new)) (F.asked files.new) (F.faults files.new)) }
    ensures early_script { result ≡ Status.ScriptRefused → IsUnread (map string_bytes words.now)
        (moment (sink (S.bytes out.old) (S.pieces out.old) (S.faults out.old)) (F.asked files.old) (F.faults files.old))
        (moment (sink (S.bytes out.new) (S.pieces out.new) (S.faults out.new)) (F.asked files.new) (F.faults files.new)) }
    ensures early_usage { result ≡ Status.Usage
        → (sink (S.bytes out.new) (S.pieces out.new) (S.faults out.new) ≡ sink (S.bytes out.old) (S.pieces out.old) (S.faults out.old))
        × (F.asked files.new ≡ F.asked files.old) }

    // The files are asked for nothing but the script, and what the `domain` events need of their folders, each event for each file at most once.
    ensures asks { Asks (F.tree files.old) (map string_bytes words.now) (F.asked files.old) (F.asked files.new) }
    // Unless the run ended with a read fault, no call of told files failed.
    ensures calm { (result ≡ Status.ReadFault → ⊥) → IsSome (F.tree files.old) → F.faults files.new ≡ F.faults files.old }

    // No write failed that did not end the run.
    ensures calm_out { (result ≡ Status.WriteFault → ⊥) → S.faults out.new ≡ S.faults out.old }

    // Each status other than the good one has its cause.
    ensures causes_usage { result ≡ Status.Usage → IsNoCall (map string_bytes words.now) }
    ensures causes_no_call { IsNoCall (map string_bytes words.now) → (result ≡ Status.Usage) ⊎ (result ≡ Status.OutOfMemory) }
    ensures causes_script { result ≡ Status.ScriptRefused
        → (fault : ScriptFault) × HasFault (F.tree files.old) (map string_bytes words.now) fault }
    ensures causes_fault { (root script text : List ℕ) (fault : ScriptFault) → CallsScript (map string_bytes words.now) root script
        → HasText (F.tree files.old) script text → IsAtFault text fault → (HasRisen (F.faults files.old) (F.faults files.new) → ⊥)
        → (result ≡ Status.ScriptRefused) ⊎ (result ≡ Status.OutOfMemory) }
    ensures causes_missing { (root script : List ℕ) → CallsScript (map string_bytes words.now) root script
        → HasNoFile (F.tree files.old) script → (result ≡ Status.ReadFault) ⊎ (result ≡ Status.OutOfMemory) }
    ensures causes_over { (root script : List ℕ) → CallsScript (map string_bytes words.now) root script
        → HasLongFile (F.tree files.old) script MAX_BYTES
        → (result ≡ Status.ScriptRefused) ⊎ ((result ≡ Status.ReadFault) ⊎ (result ≡ Status.OutOfMemory)) }
    // Where the words are two, neither with `-` in front, it is said of a missing script, and of one that has too many bytes, even where no memory
    // is left.
    ensures causes_missing_plain { (root script : List ℕ) → ArePlainWords (map string_bytes words.now) root script
        → HasNoFile (F.tree files.old) script → result ≡ Status.ReadFault }
    ensures causes_over_plain { (root script : List ℕ) → ArePlainWords (map string_bytes words.now) root script
        → HasLongFile (F.tree files.old) script MAX_BYTES
        → (result ≡ Status.ScriptRefused) ⊎ (result ≡ Status.ReadFault) }
    ensures causes_read { result ≡ Status.ReadFault
        → HasRisen (F.faults files.old) (F.faults files.new) ⊎ LacksScript (F.tree files.old) (map string_bytes words.now) }
    ensures causes_write { result ≡ Status.WriteFault → HasRisen (S.faults out.old) (S.faults out.new) }

    // A told tree with a script without fault is run to its end, unless memory, the files or the output fail.
    ensures complete { (root script text : List ℕ) (events : List Event) → CallsScript (map string_bytes words.now) root script
        → HasText (F.tree files.old) script text → IsScript text events
        → (HasRisen (F.faults files.old) (F.faults files.new) → ⊥) → (HasRisen (S.faults out.old) (S.faults out.new) → ⊥)
        → (result ≡ Status.Done) ⊎ (result ≡ Status.OutOfMemory) }
    // And so is the demo, unless memory or the output fail.
    ensures complete_demo { (seed : ℕ) → CallsDemo (map string_bytes words.now) seed
        → (HasRisen (S.faults out.old) (S.faults out.new) → ⊥)
        → (result ≡ Status.Done) ⊎ (result ≡ Status.OutOfMemory) }

    // What is said of the run, unless the error sink fails.
    ensures messages { (HasRisen (E.faults err.old) (E.faults err.new) → ⊥)
        → Says (F.tree files.old) (map string_bytes words.now) (E.bytes err.old) (E.bytes err.new) result }
    ensures messages_part { BeginsToSay (F.tree files.old) (map string_bytes words.now) (E.bytes err.old) (E.bytes err.new) result }
{
    let end = run(alloc, words, files, out);
    report(err, end);
    end.status()
}
