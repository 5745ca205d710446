//! Instructions that a segment does alone, one after another: they ask nothing of what domains share, print nothing, and leave the
//! segment with a frame. The frame and its code aren't looked up again where it goes on.

ghost use Rattle.std.specs.Prelude.{◌≡◌, ◌≢◌, None, true};
ghost use Rattle.jk_model.specs.declared.identifiers.ClassId.{ClassId as AClassId};
ghost use Rattle.jk_model_call_rows.specs.CallRows.{IsOfCalls};
ghost use Rattle.jk_model_domains.specs.OwnStates.{OwnState as AOwnState};
ghost use Rattle.jk_model_frames.specs.Frames.{FrameState as AFrame};
ghost use Rattle.jk_model_heap_rows.specs.HeapRows.{IsOfHeaps};
ghost use Rattle.jk_model_heaps.specs.RunningCode.{InstrNeeds};
ghost use Rattle.jk_model_running.specs.Initialising.{IsReady};
ghost use Rattle.jk_model_sharing.specs.SharedStates.{SharedState};
ghost use Rattle.heap_laws.specs.RaisableObjects.{MayBeRaised};
ghost use Rattle.type_rows.specs.CodeViews.{scope_of};
ghost use Rattle.class_init.specs.KeptStates.{KeptState};
ghost use Rattle.frame_store.specs.FrameContents.{TopFrame};
ghost use Rattle.object_store.specs.HeapContents.{HeapContent};
ghost use Rattle.step_contents.specs.Conditions.{MayRaise};
ghost use Rattle.step_contents.specs.Contents.{contents_of, here_at};
ghost use Rattle.step_contents.specs.StandingFrames.{place_of};
ghost use Rattle.step_contents.specs.StandingTops.{StandsThere};
ghost use Rattle.segment_steps.specs.ActingSegments.{MayAct};
ghost use Rattle.segment_steps.specs.RaisingHere.{RaisedHere};
ghost use Rattle.segment_steps.specs.Returning.{PaysFrames};
ghost use Rattle.segment_steps.specs.StandingTops.{WaitsForNone};
ghost use Rattle.segment_steps.specs.StepsAlone.{StandsReady, Steps};
ghost use Rattle.segment_steps.specs.declared.went.Went.TheVariants as Goes;
ghost use Rattle.segment_steps.specs.declared.working.Worked.TheVariants as Work;

use crate::meeting::Runs;
use class_init::{Own, look};
use domain_resolver::World;
use exception_unwind::catch_here;
use frame_store::SegmentFrames;
use jk_model::opcodes::{IRETURN, RETURN};
use jk_model::{After, Raise, SegmentNo, ThreadNo};
use jk_model_domains::Look;
use jk_model_heap_rows::laws::what_follows_is_determined;
use object_store::ObjectStore;
use row_laws::heap_rows::heap_rows_keep;
use step_contents::{Kind, StandsAt, kind_of, needed_by, stands_at};
use thread_segments::Shared;

/// What came of an instruction that was tried.
#[derive(Clone, Copy, Debug, PartialEq, Eq)]
pub enum Worked {
    /// It isn't done, and nothing changed: another function is to do it.
    Undone,
    /// It is done, and the top frame stands at an instruction.
    AtInstruction,
    /// It is done, and the top frame has a need, or no code.
    AtNeed,
}

/// Does the instruction at which the top frame of a segment stands, where the class that it needs is ready, and it works on objects, calls a
/// method with code, returns to a frame below from one that initialises no class, or throws what its own frame catches, and raises nothing
/// else; and says where the top frame stands then. It leaves all other instructions undone. It takes no memory, and time as the functions of
/// the step crates say.
#[inline(always)]
pub fn work<'a, H: ObjectStore, F: SegmentFrames>(
    w: &'a World,
    heap: &mut H,
    frames: &mut F,
    own: &mut Own,
    shared: &Shared,
    r: Runs,
    at: &mut StandsAt<'a>,
) -> Worked
    requires may { MayAct (contents_of (H.content heap.old) (F.content frames.old) own.old) (here_at w.now shared.now r.domain r.segment) }
    requires stands { StandsThere (F.content frames.old) w.now.classes r.segment (place_of at.old) }
    requires paid { PaysFrames (F.content frames.old) r.segment }
    ensures undone { result ≡ Work.Undone → (H.content heap.new ≡ H.content heap.old) × (F.content frames.new ≡ F.content frames.old)
        × (own.new ≡ own.old) }
    ensures stays { result ≡ Work.Undone → at.new ≡ at.old }
    ensures free { result ≢ Work.Undone → WaitsForNone (F.content frames.old) w.now.classes r.segment own.old.state r.thread }
    ensures steps { result ≢ Work.Undone → Steps (contents_of (H.content heap.old) (F.content frames.old) own.old)
        (contents_of (H.content heap.new) (F.content frames.new) own.new) (here_at w.now shared.now r.domain r.segment) r.thread Goes.GoesOn }
    ensures stands { result ≡ Work.AtInstruction → StandsThere (F.content frames.new) w.now.classes r.segment (place_of at.new) }
{
    if IRETURN <= at.instr.op && at.instr.op <= RETURN {
        return return_below(w, frames, r, at);
    }
    if !is_ready(own, r.thread, at) {
        return Worked::Undone;
    }
    match kind_of(at) {
        Kind::Heap => work_on_heap(w, heap, frames, own, shared, r, at),
        Kind::Call => call(w, heap, frames, r, at),
        Kind::Numbers => Worked::Undone,
    }
}

/// Whether the class that the instruction needs is ready, or it needs none.
#[inline(always)]
fn is_ready(own: &Own, t: ThreadNo, at: &StandsAt<'_>) -> bool
    ensures { result ≡ true → (c : AClassId) → InstrNeeds (scope_of at.now.code) at.now.instr.now c → IsReady own.now.state t c }
{
    match needed_by(at) {
        Some(c) => look(own, t, c) == Look::Ready,
        None => true,
    }
}

/// An instruction on objects. What raises something is undone, but for what is thrown and caught by its own frame.
#[inline(always)]
fn work_on_heap<'a, H: ObjectStore, F: SegmentFrames>(
    w: &'a World,
    heap: &mut H,
    frames: &mut F,
    own: &mut Own,
    shared: &Shared,
    r: Runs,
    at: &mut StandsAt<'a>,
) -> Worked
    requires may { MayAct (contents_of (H.content heap.old) (F.content frames.old) own.old) (here_at w.now shared.now r.domain r.segment) }
    requires stands { StandsReady (F.content frames.old) w.now.classes own.old.state r (place_of at.old) }
    requires kind { IsOfHeaps (scope_of at.old.code) at.old.instr.now }
    ensures undone { result ≡ Work.Undone → (H.content heap.new ≡ H.content heap.old) × (F.content frames.new ≡ F.content frames.old)
        × (own.new ≡ own.old) }
    ensures stays { result ≡ Work.Undone → at.new ≡ at.old }
    ensures steps { result ≢ Work.Undone → Steps (contents_of (H.content heap.old) (F.content frames.old) own.old)
        (contents_of (H.content heap.new) (F.content frames.new) own.new) (here_at w.now shared.now r.domain r.segment) r.thread Goes.GoesOn }
    ensures stands { result ≡ Work.AtInstruction → StandsThere (F.content frames.new) w.now.classes r.segment (place_of at.new) }
{
    heap_rows_keep();
    what_follows_is_determined();
    let after = heap_ops::step(heap, frames, own, shared, w, r.domain, r.segment, at);
    own.holds();
    match after {
        After::Goto(n) => {
            frames.go(r.segment, n, None);
            match at.code.code.instrs.get(n as usize) {
                Some(instr) => {
                    at.head.at = n;
                    at.instr = instr;
                    Worked::AtInstruction
                }
                None => unreachable!(),
            }
        }
        After::Raise(raise) => catch_raised(w, heap, frames, r, at, raise),
        _ => Worked::Undone,
    }
}

/// Something is raised in the top frame: where it is an object that the frame catches, the frame goes on at its handler. All else is undone:
/// nothing is made, and other frames aren't looked at.
fn catch_raised<'a, H: ObjectStore, F: SegmentFrames>(
    w: &'a World,
    heap: &H,
    frames: &mut F,
    r: Runs,
    at: &mut StandsAt<'a>,
    raise: Raise,
) -> Worked
    requires may { (own : KeptState) × (shared : SharedState)
        × MayRaise (contents_of (H.content heap.now) (F.content frames.old) own) (here_at w.now shared r.domain r.segment) }
    requires raise { MayBeRaised w.now.classes ((H.content heap.now).heap r.domain) raise }
    requires stands { StandsThere (F.content frames.old) w.now.classes r.segment (place_of at.old) }
    ensures undone { result ≡ Work.Undone → F.content frames.new ≡ F.content frames.old }
    ensures stays { result ≡ Work.Undone → at.new ≡ at.old }
    ensures caught { result ≢ Work.Undone → (own : KeptState) (shared : SharedState)
        → RaisedHere (contents_of (H.content heap.now) (F.content frames.old) own) (contents_of (H.content heap.now) (F.content frames.new) own)
        (here_at w.now shared r.domain r.segment) raise Goes.GoesOn }
    ensures stands { result ≡ Work.AtInstruction → StandsThere (F.content frames.new) w.now.classes r.segment (place_of at.new) }
{
    let Raise::Object(thrown) = raise else {
        return Worked::Undone;
    };
    let Some(n) = catch_here(heap, frames, w, r.domain, r.segment, &at.head, thrown) else {
        return Worked::Undone;
    };
    match at.code.code.instrs.get(n as usize) {
        Some(instr) => {
            at.head.at = n;
            at.instr = instr;
            Worked::AtInstruction
        }
        None => unreachable!(),
    }
}

/// An instruction of call. What raises something, calls a method of the system, or calls through a capability is undone.
fn call<'a, H: ObjectStore, F: SegmentFrames>(
    w: &'a World,
    heap: &H,
    frames: &mut F,
    r: Runs,
    at: &mut StandsAt<'a>,
) -> Worked
    requires may { (own : KeptState) × (shared : SharedState)
        × MayAct (contents_of (H.content heap.now) (F.content frames.old) own) (here_at w.now shared r.domain r.segment)
        × StandsReady (F.content frames.old) w.now.classes own.state r (place_of at.old) }
    requires kind { IsOfCalls at.old.instr.now }
    ensures undone { result ≡ Work.Undone → F.content frames.new ≡ F.content frames.old }
    ensures stays { result ≡ Work.Undone → at.new ≡ at.old }
    ensures steps { result ≢ Work.Undone → (own : KeptState) (shared : SharedState)
        → StandsReady (F.content frames.old) w.now.classes own.state r (place_of at.old)
        → Steps (contents_of (H.content heap.now) (F.content frames.old) own) (contents_of (H.content heap.now) (F.content frames.new) own)
        (here_at w.now shared r.domain r.segment) r.thread Goes.GoesOn }
    ensures stands { result ≡ Work.AtInstruction → StandsThere (F.content frames.new) w.now.classes r.segment (place_of at.new) }
{
    match call_ops::step(heap, frames, w, r.domain, r.segment, at) {
        After::Goto(_) => Worked::AtInstruction,
        _ => Worked::Undone,
    }
}

/// A return to a frame below, which needs no class. From a frame that initialises a class it is undone, and so is one from the lowest frame,
/// and whatever is no return.
fn return_below<'a, F: SegmentFrames>(
    w: &'a World,
    frames: &mut F,
    r: Runs,
    at: &mut StandsAt<'a>,
) -> Worked
    requires may { (heaps : HeapContent) × (own : KeptState) × (shared : SharedState)
        × MayAct (contents_of heaps (F.content frames.old) own) (here_at w.now shared r.domain r.segment) }
    requires stands { StandsThere (F.content frames.old) w.now.classes r.segment (place_of at.old) }
    requires paid { PaysFrames (F.content frames.old) r.segment }
    ensures undone { result ≡ Work.Undone → F.content frames.new ≡ F.content frames.old }
    ensures stays { result ≡ Work.Undone → at.new ≡ at.old }
    ensures free { result ≢ Work.Undone → (own : AOwnState) → WaitsForNone (F.content frames.old) w.now.classes r.segment own r.thread }
    ensures steps { result ≢ Work.Undone → (heaps : HeapContent) (own : KeptState) (shared : SharedState)
        → Steps (contents_of heaps (F.content frames.old) own) (contents_of heaps (F.content frames.new) own)
        (here_at w.now shared r.domain r.segment) r.thread Goes.GoesOn }
    ensures stands { result ≡ Work.AtInstruction → StandsThere (F.content frames.new) w.now.classes r.segment (place_of at.new) }
{
    if at.instr.op < IRETURN || RETURN < at.instr.op {
        return Worked::Undone;
    }
    if at.head.initialises.is_some() {
        return Worked::Undone;
    }
    if frames.depth(r.segment) < 2 {
        return Worked::Undone;
    }
    match number_ops::step(frames, w, r.segment, &at.head, at.instr) {
        After::Return(v) => {
            frames.give_back(r.segment, v);
            stand_anew(w, frames, r.segment, at)
        }
        _ => unreachable!(),
    }
}

/// Looks up where the top frame, which has no need, stands.
#[inline(always)]
fn stand_anew<'a, F: SegmentFrames>(
    w: &'a World,
    frames: &F,
    s: SegmentNo,
    at: &mut StandsAt<'a>,
) -> Worked
    requires { (f : AFrame) × TopFrame (F.content frames.now) s f × (f.head.need ≡ None) }
    ensures done { result ≢ Work.Undone }
    ensures stands { result ≡ Work.AtInstruction → StandsThere (F.content frames.now) w.now.classes s (place_of at.new) }
{
    match stands_at(w.classes(), &frames.head(s)) {
        Some(there) => {
            at.head = frames.head(s);
            at.code = there.code;
            at.instr = there.instr;
            Worked::AtInstruction
        }
        None => Worked::AtNeed,
    }
}
