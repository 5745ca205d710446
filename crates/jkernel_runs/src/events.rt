//! The events of a script, one by one and all of them.

ghost use Rattle.std.specs.Prelude.{◌≡◌, ◌≤◌, length, true, Err, IsSome, None};
ghost use Rattle.std.specs.List.{AllByRecursion};
ghost use Rattle.jk_model.specs.Outside.{NeverFalls};
ghost use Rattle.jk_model.specs.ScriptGrammar.{is_name};
ghost use Rattle.jk_model_machine_state.specs.Machines.{IsFirstMachine};
ghost use Rattle.jk_model_runs.specs.Events.{Kills, Rounds, Turns};
ghost use Rattle.jk_model_runs.specs.Starts.{Starts};
ghost use Rattle.kernel_events.specs.KernelCalls.{MayDraw, steps_of};
ghost use Rattle.kernel_events.specs.PrintedLines.{sink};
ghost use Rattle.jkernel_runs.specs.DomainEvents.{OpensFolder};
ghost use Rattle.kernel_openings.specs.StartedThreads.{AreStartWords};
ghost use Rattle.jkernel_runs.specs.DrawnNumbers.{MOST_DRAWN, MOST_THREADS, RiseInEvent};
ghost use Rattle.jkernel_runs.specs.Events.{IsOfScript, IsPrinted, EventEnds, EventAsks, RunEnds, RunAsks, moment};

use crate::opening::open_domain;
use crate::stop::Stop;
use frame_store::PlainFrames;
use jk_kernel::Kernel;
use jk_model::{Bytes, Event};
use jk_outside::{Files, Sink, SinkFailed};
use plain_store::PlainStore;
use std::alloc::Global;

/// The machine over objects and frames in vectors.
pub type PlainKernel = Kernel<PlainStore, PlainFrames>;

/// A `round` event: so many rounds, in each of which the live threads take so many steps.
fn run_rounds<S: Sink>(
    kernel: &mut PlainKernel,
    rounds: u32,
    steps: u32,
    out: &mut S,
) -> Result<(), Stop>
    requires numbers { MayDraw kernel.old (steps_of rounds steps kernel.old) }
    requires few { steps_of rounds steps kernel.old ≤ MOST_DRAWN }
    ensures ends { IsPrinted (Rounds rounds steps kernel.old) kernel.new
        (sink (S.bytes out.old) (S.pieces out.old) (S.faults out.old))
        (sink (S.bytes out.new) (S.pieces out.new) (S.faults out.new)) result }
    ensures calm_out { (result ≡ Err Stop.WriteFault → ⊥) → S.faults out.new ≡ S.faults out.old }
    ensures faults { NeverFalls (S.faults out.old) (S.faults out.new) }
    ensures counts { RiseInEvent kernel.old kernel.new }
{
    let went = kernel.rounds(rounds, steps, out);
    kernel.holds();
    match went {
        Ok(()) => Ok(()),
        Err(SinkFailed) => Err(Stop::WriteFault),
    }
}

/// A `turn` event, of so many steps of one thread.
fn turn_thread<S: Sink>(
    kernel: &mut PlainKernel,
    thread: u32,
    steps: u32,
    out: &mut S,
) -> Result<(), Stop>
    requires numbers { MayDraw kernel.old steps }
    requires few { steps ≤ MOST_DRAWN }
    ensures ends { IsPrinted (Turns steps (record { 0 = thread }) kernel.old) kernel.new
        (sink (S.bytes out.old) (S.pieces out.old) (S.faults out.old))
        (sink (S.bytes out.new) (S.pieces out.new) (S.faults out.new)) result }
    ensures calm_out { (result ≡ Err Stop.WriteFault → ⊥) → S.faults out.new ≡ S.faults out.old }
    ensures faults { NeverFalls (S.faults out.old) (S.faults out.new) }
    ensures counts { RiseInEvent kernel.old kernel.new }
{
    let went = kernel.turns(thread, steps, out);
    kernel.holds();
    match went {
        Ok(_changed) => Ok(()),
        Err(SinkFailed) => Err(Stop::WriteFault),
    }
}

/// A `start` event.
fn start_thread<S: Sink>(
    kernel: &mut PlainKernel,
    name: &[u8],
    class: &[u8],
    words: &[Bytes],
    out: &mut S,
) -> Result<(), Stop>
    requires named { is_name name.now ≡ true }
    requires short { length class.now ≤ 255 }
    requires words { AreStartWords words.now }
    requires threads { kernel.old.next_thread ≤ MOST_THREADS }
    requires numbers { MayDraw kernel.old MOST_DRAWN }
    ensures ends { IsPrinted (Starts kernel.old (record { domain = name.now; class = class.now; words = words.now })) kernel.new
        (sink (S.bytes out.old) (S.pieces out.old) (S.faults out.old))
        (sink (S.bytes out.new) (S.pieces out.new) (S.faults out.new)) result }
    ensures calm_out { (result ≡ Err Stop.WriteFault → ⊥) → S.faults out.new ≡ S.faults out.old }
    ensures faults { NeverFalls (S.faults out.old) (S.faults out.new) }
    ensures counts { RiseInEvent kernel.old kernel.new }
{
    let went = kernel.start(name, class, words, out);
    kernel.holds();
    match went {
        Ok(()) => Ok(()),
        Err(SinkFailed) => Err(Stop::WriteFault),
    }
}

/// A `kill` event.
fn kill_domain<S: Sink>(kernel: &mut PlainKernel, name: &[u8], out: &mut S) -> Result<(), Stop>
    requires named { is_name name.now ≡ true }
    ensures ends { IsPrinted (Kills kernel.old name.now) kernel.new
        (sink (S.bytes out.old) (S.pieces out.old) (S.faults out.old))
        (sink (S.bytes out.new) (S.pieces out.new) (S.faults out.new)) result }
    ensures calm_out { (result ≡ Err Stop.WriteFault → ⊥) → S.faults out.new ≡ S.faults out.old }
    ensures faults { NeverFalls (S.faults out.old) (S.faults out.new) }
    ensures counts { RiseInEvent kernel.old kernel.new }
{
    let went = kernel.kill(name, out);
    kernel.holds();
    match went {
        Ok(()) => Ok(()),
        Err(SinkFailed) => Err(Stop::WriteFault),
    }
}

/// One event of a script.
fn happen<F: Files, S: Sink>(
    kernel: &mut PlainKernel,
    root: &str,
    event: &Event,
    files: &mut F,
    out: &mut S,
) -> Result<(), Stop>
    requires of_script { IsOfScript event.now }
    requires threads { kernel.old.next_thread ≤ MOST_THREADS }
    requires numbers { MayDraw kernel.old MOST_DRAWN }
    ensures ends { EventEnds (F.tree files.old) root.now (OpensFolder (F.tree files.old) root.now) event.now kernel.old kernel.new
        (moment (sink (S.bytes out.old) (S.pieces out.old) (S.faults out.old)) (F.asked files.old) (F.faults files.old))
        (moment (sink (S.bytes out.new) (S.pieces out.new) (S.faults out.new)) (F.asked files.new) (F.faults files.new)) result }
    ensures asks { EventAsks (F.tree files.old) root.now event.now (F.asked files.old) (F.asked files.new) }
    ensures calm { (result ≡ Err Stop.ReadFault → ⊥) → IsSome (F.tree files.old) → F.faults files.new ≡ F.faults files.old }
    ensures stays { F.tree files.new ≡ F.tree files.old }
    ensures files_faults { NeverFalls (F.faults files.old) (F.faults files.new) }
    ensures calm_out { (result ≡ Err Stop.WriteFault → ⊥) → S.faults out.new ≡ S.faults out.old }
    ensures faults { NeverFalls (S.faults out.old) (S.faults out.new) }
    ensures counts { RiseInEvent kernel.old kernel.new }
{
    match event {
        Event::Domain { name, quotas } => open_domain(
            kernel,
            root,
            name.as_slice(),
            *quotas,
            files,
            out,
        ),
        Event::Start { name, class, words } => {
            start_thread(
                kernel,
                name.as_slice(),
                class.as_slice(),
                words.as_slice(),
                out,
            )
        }
        Event::Turn { thread, steps } => turn_thread(kernel, *thread, *steps, out),
        Event::Round { rounds, steps } => run_rounds(kernel, *rounds, *steps, out),
        Event::Kill { name } => kill_domain(kernel, name.as_slice(), out),
    }
}

/// All events of a script, one after the other, on a machine without domains.
fn all_happen<F: Files, S: Sink>(
    kernel: &mut PlainKernel,
    root: &str,
    events: &[Event],
    files: &mut F,
    out: &mut S,
) -> Result<(), Stop>
    requires first { IsFirstMachine None None kernel.old }
    requires of_script { AllByRecursion IsOfScript events.now }
    requires few { length events.now ≤ 65536 }
    ensures ends { RunEnds (F.tree files.old) root.now (OpensFolder (F.tree files.old) root.now) events.now
        (moment (sink (S.bytes out.old) (S.pieces out.old) (S.faults out.old)) (F.asked files.old) (F.faults files.old))
        (moment (sink (S.bytes out.new) (S.pieces out.new) (S.faults out.new)) (F.asked files.new) (F.faults files.new)) result }
    ensures asks { RunAsks (F.tree files.old) root.now events.now (F.asked files.old) (F.asked files.new) }
    ensures calm { (result ≡ Err Stop.ReadFault → ⊥) → IsSome (F.tree files.old) → F.faults files.new ≡ F.faults files.old }
    ensures stays { F.tree files.new ≡ F.tree files.old }
    ensures files_faults { NeverFalls (F.faults files.old) (F.faults files.new) }
    ensures calm_out { (result ≡ Err Stop.WriteFault → ⊥) → S.faults out.new ≡ S.faults out.old }
    ensures faults { NeverFalls (S.faults out.old) (S.faults out.new) }
{
    for event in events {
        happen(kernel, root, event, files, out)?;
    }
    Ok(())
}

/// All events of a script, from the machine without domains.
pub fn run_events<F: Files, S: Sink>(
    alloc: Global,
    root: &str,
    events: &[Event],
    files: &mut F,
    out: &mut S,
) -> Result<(), Stop>
    requires of_script { AllByRecursion IsOfScript events.now }
    requires few { length events.now ≤ 65536 }
    ensures ends { RunEnds (F.tree files.old) root.now (OpensFolder (F.tree files.old) root.now) events.now
        (moment (sink (S.bytes out.old) (S.pieces out.old) (S.faults out.old)) (F.asked files.old) (F.faults files.old))
        (moment (sink (S.bytes out.new) (S.pieces out.new) (S.faults out.new)) (F.asked files.new) (F.faults files.new)) result }
    ensures asks { RunAsks (F.tree files.old) root.now events.now (F.asked files.old) (F.asked files.new) }
    ensures calm { (result ≡ Err Stop.ReadFault → ⊥) → IsSome (F.tree files.old) → F.faults files.new ≡ F.faults files.old }
    ensures stays { F.tree files.new ≡ F.tree files.old }
    ensures files_faults { NeverFalls (F.faults files.old) (F.faults files.new) }
    ensures calm_out { (result ≡ Err Stop.WriteFault → ⊥) → S.faults out.new ≡ S.faults out.old }
    ensures faults { NeverFalls (S.faults out.old) (S.faults out.new) }
{
    let Ok(mut kernel) = Kernel::new(alloc, PlainStore::new(alloc), PlainFrames::new(alloc)) else {
        return Err(Stop::OutOfMemory);
    };
    all_happen(&mut kernel, root, events, files, out)
}
