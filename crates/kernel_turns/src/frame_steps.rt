//! Several steps of one thread that its top segment does alone, and the one by which the thread leaves it.

ghost use Rattle.std.specs.Prelude.{◌≡◌, ◌≤◌, [], false, true, List as AList, Ok, Option, Some, slice_get, slice_set};
ghost use Rattle.jk_model.specs.declared.descriptors.MethodType.{MethodType};
ghost use Rattle.jk_model.specs.declared.output.Line.{Line};
ghost use Rattle.jk_outside.specs.SeveralLines.{PrintsLines};
ghost use Rattle.kernel_events.specs.KernelCalls.{MayDraw};
ghost use Rattle.class_init.specs.KeptStates.{KeptState};
ghost use Rattle.thread_segments.specs.Asked.{IsLiveDomain};
ghost use Rattle.frame_store.specs.FrameContents.{KeepsDomains};
ghost use Rattle.step_contents.specs.Contents.{contents_of, here_at};
ghost use Rattle.segment_steps.specs.StepsThatLeave.{StepsComeTo};
ghost use Rattle.segment_steps.specs.declared.went.Went.TheVariants as Goes;
ghost use Rattle.machine_laws.specs.KnownMachines.{IsKnownMachine};
ghost use Rattle.kernel_turns.specs.ActingAlone.{IsActing};
ghost use Rattle.kernel_turns.specs.PaidSteps.{HasSteps, spent_times};
ghost use Rattle.kernel_turns.specs.RestingThreads.{IsResting};
ghost use Rattle.kernel_turns.specs.SegmentRuns.{RanSo, as_run, leaves};
ghost use Rattle.kernel_turns.specs.StepsOfThreads.{content_of};
ghost use Rattle.kernel_turns.specs.WorkingSegments.{MayWork, WorksOrLeaves};

use crate::following::follow;
use crate::running::{Running, run_of};
use class_init::Own;
use domain_resolver::World;
use frame_store::{FrameStore, OnSegment, SegmentFrames};
use jk_model::{DomainId, ThreadNo};
use jk_model_runs::laws::first_rule_of_a_step_applies;
use jk_outside::{Sink, SinkFailed};
use kernel_parts::KernelParts;
use machine_laws::machines::steps_stay_known;
use object_store::ObjectStore;
use row_laws::heap_rows::heap_rows_keep;
use row_laws::running::local_steps_keep;
use segment_steps::{Runs, Went, Worked, leave, run_in_frame, stand, work};
use thread_segments::Shared;

/// What a thread's top segment did.
#[derive(Clone, Copy, Debug, PartialEq, Eq)]
pub struct Ran {
    /// How many steps of the thread it was.
    pub steps: u32,
    /// Whether the last one was a call through a capability or the return of the lowest frame, so that the thread may run elsewhere.
    pub left: bool,
}

/// No step.
const NO_STEP: Ran = Ran {
    steps: 0,
    left: false,
};

/// At most so many steps of a thread, of which all but the last print nothing. They are meant to be those that its top segment does alone: it
/// computes, jumps, works on objects, calls a method with code, returns from one that is no class's initialiser, or throws what its frame
/// catches, needs no class that isn't ready, and raises nothing else; and one more by which the thread leaves the segment: it calls through a
/// capability, or the lowest frame returns. The clauses don't say that no other step is among them, nor that it goes on as long as it could. It
/// stops where the domain has no step left. Where the thread runs is looked up once. It takes no memory but the words of copies. Where the
/// sink fails, the last step has happened whole.
pub fn run_segment<H: ObjectStore + Drop, F: FrameStore + Drop, S: Sink>(
    k: &mut KernelParts<H, F>,
    t: ThreadNo,
    most: u32,
    out: &mut S,
) -> Result<Ran, SinkFailed>
    requires known { IsKnownMachine k.old }
    requires numbers { MayDraw k.old 1 }
    // Also where the sink failed, the steps have happened, and it failed in the lines of the last one.
    ensures event { (lines : AList Line)
        × PrintsLines (S.bytes out.old) (S.bytes out.new) (S.pieces out.old) (S.pieces out.new) (S.faults out.old) (S.faults out.new)
        (as_run result) lines
        × RanSo k.old t most result lines k.new }
    // A thread that rests takes none.
    ensures resting { IsResting k.old t → result ≡ Ok (record { steps = 0; left = false }) }
{
    let Some(running) = run_of(&k.shared, t) else {
        return Ok(NO_STEP);
    };
    if !is_free(&running) {
        return Ok(NO_STEP);
    }
    let runs = running.runs;
    let most = within_budget(&k.shared, runs.domain, most);
    let mut went = Went::GoesOn;
    let steps = work_in_domain(
        &k.world,
        &mut k.owns,
        &mut k.shared,
        &mut k.heap,
        &mut k.frames,
        runs,
        most,
        &mut went,
    );
    if !has_left(went) {
        return Ok(Ran { steps, left: false });
    }
    follow(
        &mut k.world,
        &mut k.owns,
        &mut k.shared,
        &mut k.heap,
        &mut k.frames,
        runs,
        went,
        out,
    )?;
    Ok(Ran { steps, left: true })
}

/// Whether a step that came to this leaves the segment.
#[inline(always)]
fn has_left(went: Went) -> bool
    ensures { result ≡ leaves went }
{
    match went {
        Went::GoesOn => false,
        _ => true,
    }
}

/// Whether the thread isn't suspended, and nothing is pending for it.
fn is_free(running: &Running) -> bool
    ensures { result ≡ true → (running.now.info.suspended ≡ false) × (running.now.info.stop ≡ false) × (running.now.info.revoked ≡ false) }
{
    let info = running.info;
    !(info.suspended || info.stop || info.revoked)
}

/// So many steps, or as many as the domain has left.
fn within_budget(shared: &Shared, d: DomainId, most: u32) -> u32
    requires { IsLiveDomain shared.now d }
    ensures few { result ≤ most }
    ensures budget { HasSteps result d shared.now }
{
    match shared.steps_left(d) {
        Some(left) => most.min(left),
        None => most,
    }
}

/// At most so many steps that a segment of a live domain does alone, the one by which its thread leaves it among them, and pays them.
fn work_in_domain<H: ObjectStore, F: FrameStore>(
    w: &World,
    owns: &mut Vec<Option<Own>>,
    shared: &mut Shared,
    heap: &mut H,
    frames: &mut F,
    r: Runs,
    most: u32,
    went: &mut Went,
) -> u32
    requires may { (own : KeptState) × (main : MethodType) × (slice_get owns.old.items r.domain.0 ≡ Some (Some own))
        × MayWork (content_of w.now owns.old.items shared.old (H.content heap.old) (F.content frames.old) main) r own }
    requires budget { HasSteps most r.domain shared.old }
    requires goes_on { went.old ≡ Goes.GoesOn }
    ensures few { result ≤ most }
    ensures event { (own : KeptState) (main : MethodType) → slice_get owns.old.items r.domain.0 ≡ Some (Some own)
        → MayWork (content_of w.now owns.old.items shared.old (H.content heap.old) (F.content frames.old) main) r own
        → WorksOrLeaves (content_of w.now owns.old.items shared.old (H.content heap.old) (F.content frames.old) main) r result went.new
        (content_of w.now owns.new.items shared.new (H.content heap.new) (F.content frames.new) main) }
{
    local_steps_keep();
    heap_rows_keep();
    steps_stay_known();
    first_rule_of_a_step_applies();
    match &mut owns[r.domain.0 as usize] {
        Some(own) => {
            let mut steps = Steps {
                world: w,
                shared,
                runs: r,
                count: most,
                went,
            };
            frames.with_segment(r.segment, &mut steps, heap, own);
            let done = steps.count;
            pay(shared, r.domain, done);
            done
        }
        None => unreachable!(),
    }
}

/// Steps that a segment does alone, none of which is paid yet: how many there may be at most, and how many there were once they are done, with
/// what the last of them came to.
#[derive(Drop)]
struct Steps<'a> {
    world: &'a World,
    shared: &'a Shared,
    runs: Runs,
    count: u32,
    went: &'a mut Went,
}

impl<H: ObjectStore> OnSegment<H, Own> for Steps<'_> {
    ghost use Rattle.std.specs.Prelude.{◌≡◌, ◌≤◌};
    ghost use Rattle.segment_steps.specs.declared.went.Went.TheVariants as Goes;
    ghost use Rattle.segment_steps.specs.StepsThatLeave.{StepsComeTo};
    ghost use Rattle.step_contents.specs.Contents.{contents_of, here_at};
    ghost use Rattle.kernel_turns.specs.ActingAlone.{IsActing};

    ghost may = { λ x heap own frames. (x.went.now ≡ Goes.GoesOn) × IsActing (contents_of (H.content heap) frames own)
        (here_at x.world.now x.shared.now x.runs.domain x.runs.segment) x.runs.thread };

    ghost did = { λ x y heap new_heap own new_own frames new_frames. (y.count ≤ x.count)
        × StepsComeTo (contents_of (H.content heap) frames own) (contents_of (H.content new_heap) new_frames new_own)
        (here_at x.world.now x.shared.now x.runs.domain x.runs.segment) x.runs.thread y.count y.went.now
        × (y.went.ghost_name ≡ x.went.ghost_name) };

    #[inline(always)]
    fn run<T: SegmentFrames>(&mut self, frames: &mut T, heap: &mut H, own: &mut Own) {
        self.count = work_on(
            self.world,
            own,
            self.shared,
            heap,
            frames,
            self.runs,
            self.count,
            &mut *self.went,
        );
    }
}

/// At most so many steps that a segment does alone, none of which is paid yet. Its frame and the frame's code are looked up where another
/// frame comes to the top alone.
#[inline(always)]
fn work_on<H: ObjectStore, F: SegmentFrames>(
    w: &World,
    own: &mut Own,
    shared: &Shared,
    heap: &mut H,
    frames: &mut F,
    r: Runs,
    most: u32,
    went: &mut Went,
) -> u32
    requires acting { IsActing (contents_of (H.content heap.old) (F.content frames.old) own.old) (here_at w.now shared.now r.domain r.segment)
        r.thread }
    requires goes_on { went.old ≡ Goes.GoesOn }
    ensures few { result ≤ most }
    ensures leads { StepsComeTo (contents_of (H.content heap.old) (F.content frames.old) own.old)
        (contents_of (H.content heap.new) (F.content frames.new) own.new) (here_at w.now shared.now r.domain r.segment) r.thread result went.new }
    ensures keeps { KeepsDomains (F.content frames.old) (F.content frames.new) }
{
    local_steps_keep();
    let Some(mut at) = stand(w, frames, r.segment) else {
        return 0;
    };
    let mut done = 0;
    while done < most {
        done += run_in_frame(w, heap, frames, r.domain, r.segment, &mut at, most - done);
        if done == most {
            return done;
        }
        let worked = work(w, heap, frames, own, shared, r, &mut at);
        own.holds();
        match worked {
            Worked::Undone => {
                if leave(w, frames, r, &at, went) {
                    return done + 1;
                }
                return done;
            }
            Worked::AtInstruction => done += 1,
            Worked::AtNeed => return done + 1,
        }
    }
    done
}

/// Pays so many steps of a domain.
fn pay(shared: &mut Shared, d: DomainId, steps: u32)
    requires { HasSteps steps d shared.old }
    ensures { shared.new ≡ spent_times steps d shared.old }
{
    shared.spend_steps(d, steps);
}
