//! A call through a capability: a segment of the capability's owner comes on top of the thread.

ghost use Rattle.std.specs.Prelude.{◌≡◌, ◌≢◌, ◌≤◌, ◌∷◌, [], ◌↔◌, ◌<◌, ◌^◌, false, true, IsTrue, length, List, Option, Some};
ghost use Rattle.jk_model.specs.declared.steps.Raise.{Raise as ARaise};
ghost use Rattle.jk_model.specs.declared.values.Value.{Value as AValue};
ghost use Rattle.jk_model.specs.declared.values.Value.TheVariants as Held;
ghost use Rattle.jk_model_classes.specs.declared.records.MethodRecord.{MethodRecord as AMethod};
ghost use Rattle.jk_model_classes.specs.Lookups.{MethodIs};
ghost use Rattle.jk_model_domains.specs.OwnStates.{OwnState};
ghost use Rattle.jk_model_frames.specs.Frames.{called_frame, head_chunks};
ghost use Rattle.jk_model_sharing.specs.SharedStates.{pushed};
ghost use Rattle.object_store.specs.HeapContents.{IsSame};
ghost use Rattle.frame_store.specs.FrameContents.{IsAdmitted, IsSame as AreSameFrames, free_chunks};
ghost use Rattle.graph_copy.specs.AskedOfCopies.{MayCopy};
ghost use Rattle.graph_copy.specs.CopyAnswers.{Copies, CopyAnswers};
ghost use Rattle.machine_parts.specs.FittingParts.{AreFittingParts};
ghost use Rattle.machine_parts.specs.MachineParts.{machine_of};
ghost use Rattle.domain_crossing.specs.AskedOfCrossings.{MayEnter};
ghost use Rattle.domain_crossing.specs.Crossings.{CrossesSo};
ghost use Rattle.domain_crossing.specs.EnteringCalls.{CopiesFitLocals, EntersSo, MayArriveAt, chunks_for, next_segment};
ghost use Rattle.domain_crossing.specs.MovedArguments.{Carries, FitsLocals, HasArrived, StandsToCall};
ghost use Rattle.domain_crossing.specs.TakenSegments.{AreApart, TopStands};

use crate::answers::Crossed;
use crate::arguments::{begin, carry, entries, names_object};
use crate::callees::{Callee, find_callee};
use domain_resolver::World;
use frame_store::FrameStore;
use graph_copy::{CopyAnswer, copy, would_copy};
use jk_model::{Args, CapId, DomainId, FrameHead, MemberId, Raise, SegmentNo, Standing, ThreadNo};
use member_lookup::method_record;
use object_store::ObjectStore;
use thread_segments::Shared;

/// The segment that calls, and how many arguments its top frame has on its stack, above the capability.
#[derive(Clone, Copy, Debug, PartialEq, Eq)]
pub(crate) struct Caller {
    pub(crate) segment: SegmentNo,
    pub(crate) domain: DomainId,
    pub(crate) given: u16,
}

/// Calls a method through a capability, both as the instruction hands them on at which a thread's top frame stands. Where the call enters, the
/// capability and the arguments have left that frame's stack, and a segment of the capability's owner is on top of the thread, whose
/// frame has the target and copies of the arguments. Where it is refused, nothing has changed. It takes no memory but the words of the copies,
/// and time in proportion to what it copies, to the classes above the target's, and to a logarithm of the number of segments.
// Not inlined, so that `bench/` can count it in the program.
#[inline(never)]
pub fn enter<H: ObjectStore, F: FrameStore>(
    heap: &mut H,
    frames: &mut F,
    shared: &mut Shared,
    w: &World,
    t: ThreadNo,
    k: CapId,
    method: MemberId,
) -> Crossed
    requires may { (owns : List (Option OwnState)) × MayEnter (record {
      world = w.now;
      owns = owns;
      shared = shared.old;
      heap = H.content heap.old;
      frames = F.content frames.old;
    }) t k method }
    ensures answer { (owns : List (Option OwnState)) (may : MayEnter (record {
      world = w.now;
      owns = owns;
      shared = shared.old;
      heap = H.content heap.old;
      frames = F.content frames.old;
    }) t k method) → CrossesSo may.call result (machine_of (record {
      world = w.now;
      owns = owns;
      shared = shared.new;
      heap = H.content heap.new;
      frames = F.content frames.new;
    })) }
    ensures as_before { (r : ARaise) → result ≡ Crossed.Refused r → (shared.new ≡ shared.old) × IsSame (H.content heap.old) (H.content heap.new)
        × AreSameFrames (F.content frames.old) (F.content frames.new) }
    ensures fitting { (owns : List (Option OwnState)) → AreFittingParts (record {
      world = w.now;
      owns = owns;
      shared = shared.old;
      heap = H.content heap.old;
      frames = F.content frames.old;
    }) → AreFittingParts (record {
      world = w.now;
      owns = owns;
      shared = shared.new;
      heap = H.content heap.new;
      frames = F.content frames.new;
    }) }
    ensures stubs { shared.new.stubs ≡ shared.old.stubs }
{
    let callee = match find_callee(w, shared, k, method) {
        Ok(callee) => callee,
        Err(r) => return Crossed::Refused(r),
    };
    let caller = caller_of(w, shared, t, method);
    cross(heap, frames, shared, w, t, &caller, &callee)
}

/// Who calls a method, which is there: the top segment of a live thread.
fn caller_of(w: &World, shared: &Shared, t: ThreadNo, method: MemberId) -> Caller
    requires apart { AreApart shared.now.threads }
    requires method { (r : AMethod) × MethodIs w.now.classes method r × (length r.params ≤ 255) }
    requires top { TopStands shared.now.threads t }
    ensures segment { (top : TopStands shared.now.threads t) → result.segment ≡ top.segment.number }
    ensures domain { (top : TopStands shared.now.threads t) → result.domain ≡ top.segment.domain }
    ensures given { (r : AMethod) → MethodIs w.now.classes method r → result.given ≡ length r.params }
{
    let Some(segment) = shared.top(t) else {
        unreachable!();
    };
    let Some(info) = shared.segment(segment) else {
        unreachable!();
    };
    let Some(record) = method_record(w.classes(), method) else {
        unreachable!();
    };
    Caller {
        segment,
        domain: info.domain,
        given: record.params.get().len() as u16,
    }
}

/// Lets a call enter, unless a copy or the owner's chunks refuse it.
#[inline(always)]
fn cross<H: ObjectStore, F: FrameStore>(
    heap: &mut H,
    frames: &mut F,
    shared: &mut Shared,
    w: &World,
    t: ThreadNo,
    caller: &Caller,
    callee: &Callee,
) -> Crossed
    requires arrives { MayArriveAt shared.old (F.content frames.old) t callee.now }
    requires few { caller.now.given ≤ 255 }
    requires may { (call : StandsToCall (F.content frames.old) caller.now.segment) × (length call.given ≡ caller.now.given)
        × MayCopy (H.content heap.old) w.now caller.now.domain callee.now.owner call.given
        × CopiesFitLocals (record { world = w.now; heap = H.content heap.old; from = caller.now.domain; to = callee.now.owner }) callee.now
        call.given }
    ensures { (call : StandsToCall (F.content frames.old) caller.now.segment) → length call.given ≡ caller.now.given
        → CopiesFitLocals (record { world = w.now; heap = H.content heap.old; from = caller.now.domain; to = callee.now.owner }) callee.now
        call.given → EntersSo (record { world = w.now; heap = H.content heap.old; from = caller.now.domain; to = callee.now.owner }) shared.old call t
        callee.now result (H.content heap.new) shared.new (F.content frames.new) }
{
    if names_object(frames, caller.segment, caller.given) {
        return cross_with_copies(heap, frames, shared, w, t, caller, callee);
    }
    if lacks_chunks(frames, callee) {
        return Crossed::Refused(Raise::Standing(Standing::Quota));
    }
    arrive(frames, shared, t, caller, callee, None);
    Crossed::Entered
}

/// Lets a call enter with copies of its arguments, unless a copy or the owner's chunks refuse it.
#[inline(never)]
fn cross_with_copies<H: ObjectStore, F: FrameStore>(
    heap: &mut H,
    frames: &mut F,
    shared: &mut Shared,
    w: &World,
    t: ThreadNo,
    caller: &Caller,
    callee: &Callee,
) -> Crossed
    requires arrives { MayArriveAt shared.old (F.content frames.old) t callee.now }
    requires few { caller.now.given ≤ 255 }
    requires may { (call : StandsToCall (F.content frames.old) caller.now.segment) × (length call.given ≡ caller.now.given)
        × MayCopy (H.content heap.old) w.now caller.now.domain callee.now.owner call.given
        × CopiesFitLocals (record { world = w.now; heap = H.content heap.old; from = caller.now.domain; to = callee.now.owner }) callee.now
        call.given }
    ensures { (call : StandsToCall (F.content frames.old) caller.now.segment) → length call.given ≡ caller.now.given
        → CopiesFitLocals (record { world = w.now; heap = H.content heap.old; from = caller.now.domain; to = callee.now.owner }) callee.now
        call.given → EntersSo (record { world = w.now; heap = H.content heap.old; from = caller.now.domain; to = callee.now.owner }) shared.old call t
        callee.now result (H.content heap.new) shared.new (F.content frames.new) }
{
    let mut values = entries(frames, caller.segment, caller.given);
    let lacks = lacks_chunks(frames, callee);
    match copy_unless(lacks, heap, w, caller.domain, callee.owner, &mut values) {
        CopyAnswer::Copied => {}
        CopyAnswer::NotCopiable(_) => {
            return Crossed::Refused(Raise::Standing(Standing::NotCopiable));
        }
        CopyAnswer::NoRoom(_) => return Crossed::Refused(Raise::Standing(Standing::Quota)),
    }
    if lacks {
        return Crossed::Refused(Raise::Standing(Standing::Quota));
    }
    arrive(frames, shared, t, caller, callee, Some(&values));
    Crossed::Entered
}

/// Copies values from one domain to another, or to the same, and replaces them by their copies; or only says what that would answer, and all is as
/// before, where the call can't enter in any case.
fn copy_unless<H: ObjectStore>(
    lacks: bool,
    heap: &mut H,
    w: &World,
    from: DomainId,
    to: DomainId,
    values: &mut Args,
) -> CopyAnswer
    requires { MayCopy (H.content heap.old) w.now from to values.old }
    ensures answer { CopyAnswers (H.content heap.old) w.now from to values.old result }
    ensures copied { lacks ≡ false → result ≡ CopyAnswer.Copied
        → Copies (H.content heap.old) (H.content heap.new) w.now.classes from to values.old values.new }
    ensures asked { lacks ≡ true → IsSame (H.content heap.old) (H.content heap.new) }
    ensures as_before { result ≢ CopyAnswer.Copied → IsSame (H.content heap.old) (H.content heap.new) }
{
    if lacks {
        would_copy(heap, w, from, to, values)
    } else {
        copy(heap, w, from, to, values)
    }
}

/// Whether too few of the owner's chunks are free for a segment and a frame of the callee.
fn lacks_chunks<F: FrameStore>(frames: &F, callee: &Callee) -> bool
    requires { IsAdmitted (F.content frames.now) callee.now.owner }
    ensures lacks { IsTrue result ↔ (free_chunks (F.content frames.now) callee.now.owner < chunks_for callee.now) }
    ensures few_locals { callee.now.head.max_locals < 2 ^ 16 }
{
    frames.free(callee.owner) < 1 + frame_chunks(&callee.head)
}

/// How many chunks a frame costs: a chunk has room for twenty values, and the frame needs that of four for itself.
fn frame_chunks(head: &FrameHead) -> u32
    ensures cost { result ≡ head_chunks head.now }
    ensures small { result < 2 ^ 16 }
    ensures few_locals { head.now.max_locals < 2 ^ 16 }
{
    (4 + u32::from(head.max_locals) + u32::from(head.max_stack) + 19) / 20
}

/// Puts a segment of the owner on top of the thread, whose frame has the target and the arguments, or copies of them where there are some;
/// and takes the capability and the arguments off the caller's stack.
#[inline(always)]
fn arrive<F: FrameStore>(
    frames: &mut F,
    shared: &mut Shared,
    t: ThreadNo,
    caller: &Caller,
    callee: &Callee,
    copies: Option<&Args>,
)
    requires arrives { MayArriveAt shared.old (F.content frames.old) t callee.now }
    requires few { caller.now.given ≤ 255 }
    requires chunks { chunks_for callee.now ≤ free_chunks (F.content frames.old) callee.now.owner }
    requires few_locals { callee.now.head.max_locals < 2 ^ 16 }
    requires fits { (call : StandsToCall (F.content frames.old) caller.now.segment) × (values : List AValue)
        × Carries call.given copies caller.now.given values × FitsLocals callee.now.head (Held.Obj callee.now.target ∷ values) }
    ensures shared { shared.new ≡ pushed t callee.now.owner shared.old }
    ensures frames { (call : StandsToCall (F.content frames.old) caller.now.segment) (values : List AValue)
        → Carries call.given copies.entry caller.now.given values → FitsLocals callee.now.head (Held.Obj callee.now.target ∷ values)
        → HasArrived call (next_segment shared.old) callee.now.owner (called_frame callee.now.head (Held.Obj callee.now.target ∷ values))
        (F.content frames.new) }
{
    let n = shared.push(t, callee.owner);
    if caller.given == 0 {
        let _capability = frames.pop_value(caller.segment);
        begin(frames, n, callee);
        return;
    }
    carry(frames, caller.segment, n, callee, caller.given, copies);
}
