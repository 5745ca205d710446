//! A run of the demo.

ghost use Rattle.std.specs.Prelude.{◌≡◌, ℕ, List, Option};
ghost use Rattle.jk_model.specs.Outside.{Ask, Tree};
ghost use Rattle.kernel_events.specs.PrintedLines.{sink};
ghost use Rattle.command_words.specs.CommandLine.{CallsDemo};
ghost use Rattle.jkernel_runs.specs.declared.stop.Stop.TheVariants.{WriteFault};
ghost use Rattle.jkernel_runs.specs.Ends.{EndsDemo, EndsSo};
ghost use Rattle.jkernel_runs.specs.Events.{moment};

use crate::ends::{End, ended};
use crate::events::run_events;
use crate::stop::Stop;
use jk_outside::Sink;
use ring_demo::{ROOT, demo_events, demo_files};
use std::alloc::Global;

/// Runs the demo of a seed, over its own files, and says nothing of it. What holds of it holds for all words that call for this demo, and
/// whatever other files tell: they are asked nothing.
pub fn run_demo<S: Sink>(alloc: Global, seed: u32, out: &mut S) -> End
    ensures ends { (words : List (List ℕ)) (tree : Option Tree) (asked : List Ask) (faults : ℕ) → CallsDemo words seed
        → EndsSo tree words
        (moment (sink (S.bytes out.old) (S.pieces out.old) (S.faults out.old)) asked faults)
        (moment (sink (S.bytes out.new) (S.pieces out.new) (S.faults out.new)) asked faults) result }
    ensures causes { EndsDemo (S.faults out.old) (S.faults out.new) result }
    ensures calm_out { (result ≡ End.Stopped WriteFault → ⊥) → S.faults out.new ≡ S.faults out.old }
{
    let Ok(mut files) = demo_files(alloc, seed) else {
        return End::Stopped(Stop::OutOfMemory);
    };
    let Ok(events) = demo_events(alloc, seed) else {
        return End::Stopped(Stop::OutOfMemory);
    };
    ended(run_events(alloc, ROOT, events.as_slice(), &mut files, out))
}
