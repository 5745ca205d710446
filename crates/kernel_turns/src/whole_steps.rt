//! One whole step of one thread over the parts of a kernel.

ghost use Rattle.std.specs.Prelude.{◌≡◌, ◌≢◌, ◌⊎◌, ◌↔◌, [], List as AList, Ok, Some, false, slice_get, true};
ghost use Rattle.jk_model.specs.declared.descriptors.MethodType.{MethodType};
ghost use Rattle.jk_model.specs.declared.output.Line.{Line};
ghost use Rattle.jk_model_domains.specs.declared.states.Look.TheVariants as Sees;
ghost use Rattle.jk_model_frames.specs.Frames.{FrameState as AFrame};
ghost use Rattle.jk_model_runs.specs.Steps.{Steps};
ghost use Rattle.class_init.specs.KeptStates.{KeptState};
ghost use Rattle.frame_store.specs.FrameContents.{TopFrame};
ghost use Rattle.jk_outside.specs.SeveralLines.{PrintsLines};
ghost use Rattle.kernel_events.specs.KernelCalls.{MayDraw};
ghost use Rattle.kernel_events.specs.PrintedLines.{as_done};
ghost use Rattle.machine_laws.specs.KnownMachines.{IsKnownMachine};
ghost use Rattle.segment_steps.specs.Meetings.{Meets};
ghost use Rattle.thread_segments.specs.Asked.{IsLiveDomain};
ghost use Rattle.thread_segments.specs.Answers.{steps_left_of};
ghost use Rattle.kernel_turns.specs.RestingThreads.{IsResting};

use crate::following::finish;
use crate::own_states::meet_in;
use crate::running::{Running, run_of};
use crate::stepping::begin;
use class_init::Own;
use domain_resolver::World;
use frame_store::FrameStore;
use jk_model::{DomainId, ThreadNo};
use jk_model_domains::Look;
use jk_model_runs::laws::first_rule_of_a_step_applies;
use jk_outside::{Sink, SinkFailed};
use kernel_parts::KernelParts;
use object_store::ObjectStore;
use segment_steps::Meeting;
use thread_segments::Shared;

/// One step of a thread, whose lines are printed. It answers false exactly where the thread rests, and the step changes nothing: it isn't live
/// or is held, or its domain has no step left. It takes no memory but the words of copies. Where the sink fails, the step has happened whole.
pub fn step<H: ObjectStore + Drop, F: FrameStore + Drop, S: Sink>(
    k: &mut KernelParts<H, F>,
    t: ThreadNo,
    out: &mut S,
) -> Result<bool, SinkFailed>
    requires known { IsKnownMachine k.old }
    requires numbers { MayDraw k.old 1 }
    ensures event { (lines : AList Line)
        × PrintsLines (S.bytes out.old) (S.bytes out.new) (S.pieces out.old) (S.pieces out.new) (S.faults out.old) (S.faults out.new)
        (as_done result) lines
        × Steps k.old t lines k.new }
    ensures rests { result ≡ Ok false → (k.new ≡ k.old) × Steps k.old t [] k.old }
    ensures resting { result ≡ Ok false ↔ IsResting k.old t }
{
    first_rule_of_a_step_applies();
    let Some(running) = run_of(&k.shared, t) else {
        return Ok(false);
    };
    let met = meet_in(&k.world, &k.owns, &k.frames, running.runs);
    if rests(&k.shared, &running, &met) {
        return Ok(false);
    }
    let went = begin(
        &k.world,
        &mut k.owns,
        &mut k.shared,
        &mut k.heap,
        &mut k.frames,
        running,
        &met,
        out,
    );
    finish(
        &mut k.world,
        &mut k.owns,
        &mut k.shared,
        &mut k.heap,
        &mut k.frames,
        running.runs,
        went,
        out,
    )?;
    Ok(true)
}

/// Whether a live thread is held, or its domain has no step left.
fn rests(shared: &Shared, running: &Running, met: &Meeting<'_>) -> bool
    requires { IsLiveDomain shared.now running.now.runs.domain }
    ensures yes { result ≡ true → (running.now.info.suspended ≡ true) ⊎ (met.now.look ≡ Sees.Waits)
        ⊎ ((running.now.info.suspended ≡ false) × (met.now.look ≢ Sees.Waits) × (steps_left_of shared.now running.now.runs.domain ≡ Some 0)) }
    ensures no { result ≡ false → (running.now.info.suspended ≡ false) × (met.now.look ≢ Sees.Waits)
        × (steps_left_of shared.now running.now.runs.domain ≢ Some 0) }
{
    if running.info.suspended {
        return true;
    }
    if met.look == Look::Waits {
        return true;
    }
    shared.steps_left(running.runs.domain) == Some(0)
}
