//! What a segment does, and what is raised in it, with the own state of its domain among those of all.

ghost use Rattle.std.specs.Prelude.{◌≡◌, ◌≢◌, Some, slice_get, slice_set};
ghost use Rattle.jk_model_domains.specs.declared.states.Look.TheVariants as Sees;
ghost use Rattle.jk_model_frames.specs.Frames.{FrameState as AFrame};
ghost use Rattle.jk_model_sharing.specs.SharedStates.{SharedState};
ghost use Rattle.class_init.specs.KeptStates.{KeptState};
ghost use Rattle.frame_store.specs.FrameContents.{HasTop, TopFrame};
ghost use Rattle.heap_laws.specs.RaisableObjects.{MayBeRaised};
ghost use Rattle.kernel_events.specs.PrintedLines.{Prints};
ghost use Rattle.step_contents.specs.Conditions.{MayRaise};
ghost use Rattle.step_contents.specs.Contents.{contents_of, here_at, left_behind};
ghost use Rattle.system_calls.specs.SystemSteps.{printed};
ghost use Rattle.segment_steps.specs.ActingSegments.{ActsSo, MayAct};
ghost use Rattle.segment_steps.specs.Meetings.{Meets};
ghost use Rattle.segment_steps.specs.RaisingHere.{RaisedHere};
ghost use Rattle.segment_steps.specs.StepsAlone.{went_so};
ghost use Rattle.kernel_turns.specs.StepsOfThreads.{sink_state};
ghost use Rattle.kernel_turns.specs.SteppedParts.{HasRoomsForLiterals};

use class_init::Own;
use domain_resolver::World;
use frame_store::FrameStore;
use jk_model::Raise;
use jk_outside::{Sink, SinkFailed};
use object_store::ObjectStore;
use segment_steps::{Meeting, Runs, Went, act, meet, raise_here};
use thread_segments::Shared;

/// Where the top frame of a segment of a live domain stands, and what its thread meets there.
#[inline(always)]
pub(crate) fn meet_in<'a, F: FrameStore>(
    w: &'a World,
    owns: &Vec<Option<Own>>,
    frames: &F,
    r: Runs,
) -> Meeting<'a>
    requires own { (own : KeptState) × (slice_get owns.now.items r.domain.0 ≡ Some (Some own)) }
    requires top { HasTop (F.content frames.now) r.segment }
    ensures { (own : KeptState) → slice_get owns.now.items r.domain.0 ≡ Some (Some own) → (f : AFrame)
        → TopFrame (F.content frames.now) r.segment f → Meets w.now.classes own.state r f result }
{
    match &owns[r.domain.0 as usize] {
        Some(own) => meet(w, own, frames, r),
        None => unreachable!(),
    }
}

/// One step of a segment of a live domain that acts, as `act`.
#[inline(always)]
pub(crate) fn act_in<H: ObjectStore, F: FrameStore, S: Sink>(
    w: &World,
    owns: &mut Vec<Option<Own>>,
    shared: &mut Shared,
    heap: &mut H,
    frames: &mut F,
    r: Runs,
    met: &Meeting<'_>,
    out: &mut S,
) -> Result<Went, SinkFailed>
    requires may { (own : KeptState) × (slice_get owns.old.items r.domain.0 ≡ Some (Some own))
        × MayAct (contents_of (H.content heap.old) (F.content frames.old) own) (here_at w.now shared.old r.domain r.segment)
        × ((f : AFrame) × TopFrame (F.content frames.old) r.segment f × Meets w.now.classes own.state r f met.now) }
    requires free { met.now.look ≢ Sees.Waits }
    ensures { (own : KeptState) → slice_get owns.old.items r.domain.0 ≡ Some (Some own) → (after : KeptState)
        × (owns.new.items ≡ slice_set owns.old.items r.domain.0 (Some after)) × HasRoomsForLiterals after
        × ActsSo (contents_of (H.content heap.old) (F.content frames.old) own) (here_at w.now shared.old r.domain r.segment) r.thread
        (left_behind (contents_of (H.content heap.new) (F.content frames.new) after) shared.new) (went_so result)
        (λ lines. Prints (sink_state (S.bytes out.old) (S.pieces out.old) (S.faults out.old))
        (sink_state (S.bytes out.new) (S.pieces out.new) (S.faults out.new)) (printed result) lines) }
{
    let own = &mut owns[r.domain.0 as usize];
    match own {
        Some(own) => {
            let went = act(w, heap, frames, own, shared, r, met, out);
            own.holds();
            went
        }
        None => unreachable!(),
    }
}

/// Raises something in a segment of a live domain. It takes no memory.
pub(crate) fn raise_in<H: ObjectStore, F: FrameStore>(
    w: &World,
    owns: &mut Vec<Option<Own>>,
    heap: &mut H,
    frames: &mut F,
    r: Runs,
    raise: Raise,
) -> Went
    requires may { (own : KeptState) × (slice_get owns.old.items r.domain.0 ≡ Some (Some own)) × ((shared : SharedState)
        × MayRaise (contents_of (H.content heap.old) (F.content frames.old) own) (here_at w.now shared r.domain r.segment)) }
    requires raise { MayBeRaised w.now.classes ((H.content heap.old).heap r.domain) raise }
    ensures { (own : KeptState) → slice_get owns.old.items r.domain.0 ≡ Some (Some own) → (after : KeptState)
        × (owns.new.items ≡ slice_set owns.old.items r.domain.0 (Some after)) × HasRoomsForLiterals after × ((shared : SharedState)
        → RaisedHere (contents_of (H.content heap.old) (F.content frames.old) own) (contents_of (H.content heap.new) (F.content frames.new) after)
        (here_at w.now shared r.domain r.segment) raise result) }
{
    let own = &mut owns[r.domain.0 as usize];
    match own {
        Some(own) => {
            let went = raise_here(w, heap, frames, own, r, raise);
            own.holds();
            went
        }
        None => unreachable!(),
    }
}
