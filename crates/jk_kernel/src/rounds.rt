//! Rounds: all live threads take steps, in rising order.

ghost use Rattle.std.specs.Prelude.{◌≡◌, ◌*◌, [], List, length, Ok, false, OnErr, OnOk};
ghost use Rattle.jk_model.specs.declared.identifiers.ThreadNo.{ThreadNo as AThreadNo};
ghost use Rattle.jk_model.specs.declared.output.Line.{Line};
ghost use Rattle.jk_model_runs.specs.Events.{Goes, Rounds};
ghost use Rattle.jk_outside.specs.SeveralLines.{PrintsLines};
ghost use Rattle.kernel_events.specs.KernelCalls.{MayDraw, steps_of};
ghost use Rattle.kernel_events.specs.PrintedLines.{as_done, sink};
ghost use Rattle.kernel_events.specs.StepsInTurn.{GoesBefore, NumbersRise, RoundsBefore, StopsAt};

use crate::kernel::Kernel;
use crate::laws::machines_go_on;
use frame_store::FrameStore;
use jk_outside::{Sink, SinkFailed};
use kernel_events::laws::numbers_rise;
use object_store::ObjectStore;

impl<H: ObjectStore + Drop, F: FrameStore + Drop> Kernel<H, F> {
    /// So many rounds: in each the threads that are live as their places come take so many steps, in rising order. It takes no memory.
    /// Rounds of one step or more in which nothing changes cost nothing but the first, and a round takes time for the live threads and for
    /// their steps alone; rounds of no steps go over the live threads each time.
    /// Where the sink fails, the step in whose lines it failed has happened whole, and is the last one.
    pub fn rounds<S: Sink>(&mut self, count: u32, steps: u32, out: &mut S) -> Result<(), SinkFailed>
        requires numbers { MayDraw self.old (steps_of count steps self.old) }
        ensures event { OnOk result ((lines : List Line)
            × PrintsLines (S.bytes out.old) (S.bytes out.new) (S.pieces out.old) (S.pieces out.new) (S.faults out.old) (S.faults out.new) result lines
            × Rounds count steps self.old lines self.new) }
        // The lines of the steps before that one, which some thread took, went out whole. The other steps are there too, though none was taken
        // and nothing printed of them.
        ensures failed { OnErr result ((t : AThreadNo) × StopsAt t (RoundsBefore count steps t) (Rounds count steps)
            self.old (sink (S.bytes out.old) (S.pieces out.old) (S.faults out.old)) (sink (S.bytes out.new) (S.pieces out.new) (S.faults out.new))
            self.new) }
        ensures counts { NumbersRise self.old (steps_of count steps self.old) self.new × (length self.new.domains ≡ length self.old.domains) }
    {
        numbers_rise();
        machines_go_on();
        self.is_sound();
        for _ in 0..count {
            let changed = self.one_round(steps, out)?;
            self.is_sound();
            if !changed {
                return Ok(());
            }
        }
        Ok(())
    }

    /// One round, and whether anything changed.
    fn one_round<S: Sink>(&mut self, steps: u32, out: &mut S) -> Result<bool, SinkFailed>
        requires numbers { MayDraw self.old (steps * self.old.next_thread) }
        ensures event { OnOk result ((lines : List Line)
            × PrintsLines (S.bytes out.old) (S.bytes out.new) (S.pieces out.old) (S.pieces out.new) (S.faults out.old) (S.faults out.new)
            (as_done result) lines
            × Goes steps 1 self.old lines self.new) }
        ensures failed { OnErr result ((t : AThreadNo) × StopsAt t (GoesBefore steps t 1) (Goes steps 1)
            self.old (sink (S.bytes out.old) (S.pieces out.old) (S.faults out.old)) (sink (S.bytes out.new) (S.pieces out.new) (S.faults out.new))
            self.new) }
        // A round in which nothing changed is there again.
        ensures rests { result ≡ Ok false → (self.new ≡ self.old) × Goes steps 1 self.old [] self.old }
    {
        numbers_rise();
        machines_go_on();
        self.is_sound();
        let mut changed = false;
        let mut above = 0;
        while let Some(thread) = self.next_live(above) {
            changed |= self.turns(thread, steps, out)?;
            self.is_sound();
            above = thread;
        }
        Ok(changed)
    }
}
