//! Domains that are killed.

ghost use Rattle.std.specs.Prelude.{◌≡◌, true, length, List};
ghost use Rattle.jk_model.specs.declared.output.Line.{Line};
ghost use Rattle.jk_model.specs.ScriptGrammar.{is_name};
ghost use Rattle.jk_model_runs.specs.Events.{Kills};
ghost use Rattle.jk_outside.specs.SeveralLines.{PrintsLines};
ghost use Rattle.kernel_events.specs.FreedPages.{FreesPages};
ghost use Rattle.kernel_events.specs.StepsInTurn.{NumbersRise};

use crate::kernel::Kernel;
use crate::laws::machines_stay_sound;
use domain_ends::end_domain;
use frame_store::FrameStore;
use jk_outside::{LineRef, Sink, SinkFailed, print_next};
use kernel_events::laws::{kills_free_pages, numbers_rise};
use kernel_parts::KernelParts;
use object_store::ObjectStore;

impl<H: ObjectStore + Drop, F: FrameStore + Drop> Kernel<H, F> {
    /// The end of the live domain of this name: nothing is left of its objects, its frames and the names that it bound, its capabilities are
    /// revoked, and the lines of the threads that end with it are printed. Where no live domain has the name, the line of the rule K1 is
    /// printed. It takes no memory. Where the sink fails, the kill has happened whole.
    pub fn kill<S: Sink>(&mut self, name: &[u8], out: &mut S) -> Result<(), SinkFailed>
        requires named { is_name name.now ≡ true }
        // Also where the sink failed, the kill has happened.
        ensures event { (lines : List Line)
            × PrintsLines (S.bytes out.old) (S.bytes out.new) (S.pieces out.old) (S.pieces out.new) (S.faults out.old) (S.faults out.new) result lines
            × Kills self.old name.now lines self.new }
        // In a machine with pools the pages of the domain, and no others, are free then.
        ensures pages { FreesPages self.old name.now self.new }
        ensures counts { NumbersRise self.old 0 self.new × (length self.new.domains ≡ length self.old.domains) }
    {
        machines_stay_sound();
        numbers_rise();
        kills_free_pages();
        kill_in(&mut self.parts, name, out)
    }
}

/// The same of the kernel's parts.
fn kill_in<H: ObjectStore + Drop, F: FrameStore + Drop, S: Sink>(
    k: &mut KernelParts<H, F>,
    name: &[u8],
    out: &mut S,
) -> Result<(), SinkFailed>
    ensures { (lines : List Line)
        × PrintsLines (S.bytes out.old) (S.bytes out.new) (S.pieces out.old) (S.pieces out.new) (S.faults out.old) (S.faults out.new) result lines
        × Kills k.old name.now lines k.new }
{
    let Some(d) = k.world.live_named(name) else {
        return print_next(Ok(()), LineRef::KillRefused { domain: name }, out);
    };
    end_domain(
        &mut k.world,
        &mut k.owns,
        &mut k.shared,
        &mut k.heap,
        &mut k.frames,
        d,
        out,
    )
}
