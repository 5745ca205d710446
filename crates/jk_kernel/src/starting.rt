//! Starts of threads.

ghost use Rattle.std.specs.Prelude.{◌≡◌, ◌<◌, ◌≤◌, ◌^◌, ◌∷◌, [], true, List, length};
ghost use Rattle.jk_model.specs.declared.output.Line.{Line};
ghost use Rattle.jk_model.specs.ScriptGrammar.{is_name};
ghost use Rattle.jk_model_runs.specs.Starts.{Starts};
ghost use Rattle.jk_outside.specs.SeveralLines.{PrintsLines};
ghost use Rattle.kernel_events.specs.KernelCalls.{MayDraw};
ghost use Rattle.kernel_openings.specs.StartedThreads.{AreStartWords, told_of};

use crate::kernel::Kernel;
use crate::laws::machines_stay_sound;
use frame_store::FrameStore;
use jk_model::Bytes;
use jk_outside::{LineRef, Sink, SinkFailed, print_next};
use kernel_openings::{Beginning, start};
use object_store::ObjectStore;

impl<H: ObjectStore + Drop, F: FrameStore + Drop> Kernel<H, F> {
    /// The start of a thread in the live domain of this name, at the public static `main` of this class, with these words; or the first of
    /// the rules S1 to S6 that refuses it. The line of either is printed. It takes no memory. Where the sink fails, the start has happened
    /// whole.
    pub fn start<S: Sink>(
        &mut self,
        name: &[u8],
        class: &[u8],
        words: &[Bytes],
        out: &mut S,
    ) -> Result<(), SinkFailed>
        requires named { is_name name.now ≡ true }
        requires short { length class.now ≤ 255 }
        requires words { AreStartWords words.now }
        requires numbers { (self.old.next_thread < 2 ^ 31) × MayDraw self.old 1 }
        // Also where the sink failed, the start has happened.
        ensures event { (lines : List Line)
            × PrintsLines (S.bytes out.old) (S.bytes out.new) (S.pieces out.old) (S.pieces out.new) (S.faults out.old) (S.faults out.new) result lines
            × Starts self.old (record { domain = name.now; class = class.now; words = words.now }) lines self.new }
        ensures counts { length self.new.domains ≡ length self.old.domains }
    {
        machines_stay_sound();
        let began = start(&mut self.parts, name, class, words);
        tell(name, began, out)
    }
}

/// Prints what came of a start in the domain of this name.
fn tell<S: Sink>(name: &[u8], began: Beginning, out: &mut S) -> Result<(), SinkFailed>
    ensures { PrintsLines (S.bytes out.old) (S.bytes out.new) (S.pieces out.old) (S.pieces out.new) (S.faults out.old) (S.faults out.new) result
        (told_of name.now began ∷ []) }
{
    match began {
        Beginning::Begun(thread) => {
            let domain = name;
            print_next(Ok(()), LineRef::Started { thread, domain }, out)
        }
        Beginning::Refused(number) => {
            let domain = name;
            print_next(Ok(()), LineRef::StartRefused { domain, number }, out)
        }
    }
}
