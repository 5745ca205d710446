//! Steps of one thread.

ghost use Rattle.std.specs.Prelude.{◌≡◌, ◌<◌, ◌≤◌, ◌↔◌, [], List, length, Ok, false, OnErr, OnOk};
ghost use Rattle.jk_model.specs.declared.output.Line.{Line};
ghost use Rattle.jk_model_runs.specs.Events.{Turns};
ghost use Rattle.jk_model_runs.specs.Steps.{Steps};
ghost use Rattle.jk_outside.specs.SeveralLines.{PrintsLines};
ghost use Rattle.kernel_events.specs.KernelCalls.{MayDraw};
ghost use Rattle.kernel_events.specs.PrintedLines.{as_done, sink};
ghost use Rattle.kernel_events.specs.StepsInTurn.{NumbersRise, Rests, StepsApart, StopsAt, TurnsApart, TurnsBefore};
ghost use Rattle.kernel_turns.specs.RestingThreads.{IsResting};
ghost use Rattle.kernel_turns.specs.SegmentRuns.{RanSo, as_run};
ghost use Rattle.jk_kernel.specs.SoundMachines.{IsSoundMachine};

use crate::kernel::Kernel;
use crate::laws::{machines_go_on, machines_stay_sound, steps_are_apart};
use frame_store::FrameStore;
use jk_model::ThreadNo;
use jk_outside::{Sink, SinkFailed};
use kernel_events::laws::numbers_rise;
use kernel_turns::{Ran, run_segment};
use object_store::ObjectStore;

impl<H: ObjectStore + Drop, F: FrameStore + Drop> Kernel<H, F> {
    /// One step of a thread, whose lines are printed. A thread that isn't live does nothing. It takes no memory. Where the sink fails, the
    /// step has happened whole.
    pub fn turn<S: Sink>(&mut self, thread: u32, out: &mut S) -> Result<(), SinkFailed>
        requires numbers { MayDraw self.old 1 }
        // Also where the sink failed, the step has happened. It is confined to what its deed may change.
        ensures event { (lines : List Line)
            × PrintsLines (S.bytes out.old) (S.bytes out.new) (S.pieces out.old) (S.pieces out.new) (S.faults out.old) (S.faults out.new) result lines
            × StepsApart self.old (record { 0 = thread }) lines self.new }
        ensures counts { NumbersRise self.old 1 self.new × (length self.new.domains ≡ length self.old.domains) }
    {
        numbers_rise();
        steps_are_apart();
        let _changed = self.step(ThreadNo(thread), out)?;
        Ok(())
    }

    /// So many steps of a thread. Where they are one or more, it answers false exactly where the thread rests: it isn't live, is suspended,
    /// waits for a class that another thread initialises, or its domain has no steps left. Then no step of the thread changes anything until
    /// another thread, a start or a kill has changed something. It takes no memory. Steps that change nothing cost nothing but the first.
    /// Where the sink fails, the step in whose lines it failed has happened whole, and is the last one.
    pub fn turns<S: Sink>(
        &mut self,
        thread: u32,
        steps: u32,
        out: &mut S,
    ) -> Result<bool, SinkFailed>
        requires numbers { MayDraw self.old steps }
        ensures event { OnOk result ((lines : List Line)
            × PrintsLines (S.bytes out.old) (S.bytes out.new) (S.pieces out.old) (S.pieces out.new) (S.faults out.old) (S.faults out.new)
            (as_done result) lines
            × TurnsApart steps (record { 0 = thread }) self.old lines self.new) }
        // The lines of the steps before that one went out whole. The other steps are there too, though none was taken and nothing printed of them.
        ensures failed { OnErr result (StopsAt (record { 0 = thread }) (TurnsBefore steps (record { 0 = thread })) (Turns steps (record { 0 = thread }))
            self.old (sink (S.bytes out.old) (S.pieces out.old) (S.faults out.old)) (sink (S.bytes out.new) (S.pieces out.new) (S.faults out.new))
            self.new) }
        ensures rests { result ≡ Ok false → (self.new ≡ self.old) × Rests self.old (record { 0 = thread }) }
        ensures resting { 0 < steps → (result ≡ Ok false ↔ IsResting self.old (record { 0 = thread })) }
        ensures counts { NumbersRise self.old steps self.new × (length self.new.domains ≡ length self.old.domains) }
    {
        numbers_rise();
        machines_go_on();
        steps_are_apart();
        machines_stay_sound();
        self.is_sound();
        let mut done = 0;
        while done < steps {
            let ran = self.run_segment(ThreadNo(thread), steps - done, out)?;
            done += ran.steps;
            if done == steps {
                return Ok(true);
            }
            // The thread runs elsewhere, so it is looked up again where.
            if ran.left {
                continue;
            }
            if !self.step(ThreadNo(thread), out)? {
                return Ok(done > 0);
            }
            done += 1;
        }
        Ok(true)
    }

    /// One step of a thread, whose lines are printed. It answers false exactly where the thread rests, and nothing changes then.
    fn step<S: Sink>(&mut self, t: ThreadNo, out: &mut S) -> Result<bool, SinkFailed>
        requires numbers { MayDraw self.old 1 }
        ensures event { (lines : List Line)
            × PrintsLines (S.bytes out.old) (S.bytes out.new) (S.pieces out.old) (S.pieces out.new) (S.faults out.old) (S.faults out.new)
            (as_done result) lines
            × Steps self.old t lines self.new }
        ensures rests { result ≡ Ok false → (self.new ≡ self.old) × Steps self.old t [] self.old }
        ensures resting { result ≡ Ok false ↔ IsResting self.old t }
        ensures sound { IsSoundMachine self.old × IsSoundMachine self.new }
    {
        machines_stay_sound();
        kernel_turns::step(&mut self.parts, t, out)
    }

    /// At most so many steps of a thread that its top segment does alone, and the one by which the thread leaves it.
    fn run_segment<S: Sink>(
        &mut self,
        t: ThreadNo,
        most: u32,
        out: &mut S,
    ) -> Result<Ran, SinkFailed>
        requires numbers { MayDraw self.old 1 }
        ensures event { (lines : List Line)
            × PrintsLines (S.bytes out.old) (S.bytes out.new) (S.pieces out.old) (S.pieces out.new) (S.faults out.old) (S.faults out.new)
            (as_run result) lines
            × RanSo self.old t most result lines self.new }
        ensures resting { IsResting self.old t → result ≡ Ok (record { steps = 0; left = false }) }
        ensures sound { IsSoundMachine self.old × IsSoundMachine self.new }
    {
        machines_stay_sound();
        run_segment(&mut self.parts, t, most, out)
    }
}
