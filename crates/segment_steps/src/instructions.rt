//! The instruction at which the top frame stands, and what follows it in the segment.

ghost use Rattle.jk_model_domains.specs.NumberRows.{IsOfNumbers};
ghost use Rattle.jk_model_call_rows.specs.CallRows.{IsOfCalls};
ghost use Rattle.jk_model_heap_rows.specs.HeapRows.{IsOfHeaps};
ghost use Rattle.jk_model_sharing.specs.SharedStates.{SharedState};
ghost use Rattle.jk_outside.specs.SeveralLines.{PrintsLines};
ghost use Rattle.type_rows.specs.CodeViews.{scope_of};
ghost use Rattle.step_contents.specs.Contents.{contents_of, here_at, left_behind};
ghost use Rattle.step_contents.specs.StandingFrames.{place_of};
ghost use Rattle.system_calls.specs.SystemSteps.{printed};
ghost use Rattle.segment_steps.specs.ActingSegments.{ActsSo, MayAct};
ghost use Rattle.segment_steps.specs.CallsOnSystem.{CallsMethod};
ghost use Rattle.segment_steps.specs.FollowedCalls.{ComesTo};
ghost use Rattle.segment_steps.specs.StepsAlone.{StandsReady, Steps, went_so};

use crate::meeting::Runs;
use crate::raising::raise_here;
use crate::returning::give_back;
use crate::went::Went;
use class_init::Own;
use domain_resolver::World;
use frame_store::FrameStore;
use jk_model::{After, MemberId};
use jk_outside::{Sink, SinkFailed};
use object_store::ObjectStore;
use row_laws::heap_rows::heap_rows_keep;
use step_contents::{Kind, StandsAt, kind_of};
use thread_segments::Shared;

/// Does the instruction at which the top frame stands, and what follows it in the segment. The class that it needs is ready.
#[inline(always)]
pub(crate) fn execute<H: ObjectStore, F: FrameStore, S: Sink>(
    w: &World,
    heap: &mut H,
    frames: &mut F,
    own: &mut Own,
    shared: &mut Shared,
    r: Runs,
    at: &StandsAt<'_>,
    out: &mut S,
) -> Result<Went, SinkFailed>
    requires may { MayAct (contents_of (H.content heap.old) (F.content frames.old) own.old) (here_at w.now shared.old r.domain r.segment) }
    requires stands { StandsReady (F.content frames.old) w.now.classes own.old.state r (place_of at.now) }
    ensures { ActsSo (contents_of (H.content heap.old) (F.content frames.old) own.old) (here_at w.now shared.old r.domain r.segment) r.thread
        (left_behind (contents_of (H.content heap.new) (F.content frames.new) own.new) shared.new) (went_so result)
        (λ lines. PrintsLines (S.bytes out.old) (S.bytes out.new) (S.pieces out.old) (S.pieces out.new) (S.faults out.old) (S.faults out.new)
        (printed result) lines) }
{
    match kind_of(at) {
        Kind::Numbers => Ok(do_numbers(w, heap, frames, own, r, at)),
        Kind::Heap => Ok(do_heap(w, heap, frames, own, shared, r, at)),
        Kind::Call => match do_call(w, heap, frames, own, r, at) {
            Called::Went(went) => Ok(went),
            Called::OfSystem(m) => call_system(w, heap, frames, own, shared, r, at, m, out),
        },
    }
}

/// Does an instruction on numbers, by which the frame goes on, returns, or divided by 0.
fn do_numbers<H: ObjectStore, F: FrameStore>(
    w: &World,
    heap: &mut H,
    frames: &mut F,
    own: &mut Own,
    r: Runs,
    at: &StandsAt<'_>,
) -> Went
    requires may { (shared : SharedState)
        × MayAct (contents_of (H.content heap.old) (F.content frames.old) own.old) (here_at w.now shared r.domain r.segment) }
    requires stands { StandsReady (F.content frames.old) w.now.classes own.old.state r (place_of at.now) }
    requires kind { IsOfNumbers (scope_of at.now.code) at.now.instr.now }
    ensures { (shared : SharedState) → Steps (contents_of (H.content heap.old) (F.content frames.old) own.old)
        (contents_of (H.content heap.new) (F.content frames.new) own.new) (here_at w.now shared r.domain r.segment) r.thread result }
{
    match number_ops::step(frames, w, r.segment, &at.head, at.instr) {
        After::Goto(n) => {
            frames.go(r.segment, n, None);
            Went::GoesOn
        }
        After::Raise(raise) => raise_here(w, heap, frames, own, r, raise),
        After::Return(v) => give_back(own, frames, r.segment, &at.head, v),
        _ => unreachable!(),
    }
}

/// Does an instruction on objects, by which the frame goes on, or something is raised.
#[inline(never)]
fn do_heap<H: ObjectStore, F: FrameStore>(
    w: &World,
    heap: &mut H,
    frames: &mut F,
    own: &mut Own,
    shared: &Shared,
    r: Runs,
    at: &StandsAt<'_>,
) -> Went
    requires may { MayAct (contents_of (H.content heap.old) (F.content frames.old) own.old) (here_at w.now shared.now r.domain r.segment) }
    requires stands { StandsReady (F.content frames.old) w.now.classes own.old.state r (place_of at.now) }
    requires kind { IsOfHeaps (scope_of at.now.code) at.now.instr.now }
    ensures { Steps (contents_of (H.content heap.old) (F.content frames.old) own.old)
        (contents_of (H.content heap.new) (F.content frames.new) own.new) (here_at w.now shared.now r.domain r.segment) r.thread result }
{
    heap_rows_keep();
    let after = heap_ops::step(heap, frames, own, shared, w, r.domain, r.segment, at);
    own.holds();
    match after {
        After::Goto(n) => {
            frames.go(r.segment, n, None);
            Went::GoesOn
        }
        After::Raise(raise) => raise_here(w, heap, frames, own, r, raise),
        _ => unreachable!(),
    }
}

/// What an instruction of call comes to.
#[derive(Clone, Copy, Debug, PartialEq, Eq)]
pub(crate) enum Called {
    /// This, in the segment.
    Went(Went),
    /// This method of the system, which is to be done. Nothing changed yet.
    OfSystem(MemberId),
}

/// Does an instruction of call: the called method's frame is on top, a capability is to be called, or something is raised.
fn do_call<H: ObjectStore, F: FrameStore>(
    w: &World,
    heap: &mut H,
    frames: &mut F,
    own: &mut Own,
    r: Runs,
    at: &StandsAt<'_>,
) -> Called
    requires may { (shared : SharedState)
        × MayAct (contents_of (H.content heap.old) (F.content frames.old) own.old) (here_at w.now shared r.domain r.segment) }
    requires stands { StandsReady (F.content frames.old) w.now.classes own.old.state r (place_of at.now) }
    requires kind { IsOfCalls at.now.instr.now }
    ensures { (shared : SharedState) → ComesTo (contents_of (H.content heap.old) (F.content frames.old) own.old)
        (contents_of (H.content heap.new) (F.content frames.new) own.new) (here_at w.now shared r.domain r.segment) (place_of at.now) r.thread result }
{
    let mut there = *at;
    match call_ops::step(heap, frames, w, r.domain, r.segment, &mut there) {
        After::Goto(_) => Called::Went(Went::GoesOn),
        After::Raise(raise) => Called::Went(raise_here(w, heap, frames, own, r, raise)),
        After::Crossing(k, m) => Called::Went(Went::Crosses(k, m)),
        After::Call(m) => Called::OfSystem(m),
        _ => unreachable!(),
    }
}

/// Does a method m of the system that the instruction calls, and what follows it. Where its line doesn't go out whole, it is done all the same.
fn call_system<H: ObjectStore, F: FrameStore, S: Sink>(
    w: &World,
    heap: &mut H,
    frames: &mut F,
    own: &mut Own,
    shared: &mut Shared,
    r: Runs,
    at: &StandsAt<'_>,
    m: MemberId,
    out: &mut S,
) -> Result<Went, SinkFailed>
    requires may { MayAct (contents_of (H.content heap.old) (F.content frames.old) own.old) (here_at w.now shared.old r.domain r.segment) }
    requires stands { StandsReady (F.content frames.old) w.now.classes own.old.state r (place_of at.now) }
    requires calls { CallsMethod (contents_of (H.content heap.old) (F.content frames.old) own.old) (here_at w.now shared.old r.domain r.segment)
        (place_of at.now) m }
    ensures { ActsSo (contents_of (H.content heap.old) (F.content frames.old) own.old) (here_at w.now shared.old r.domain r.segment) r.thread
        (left_behind (contents_of (H.content heap.new) (F.content frames.new) own.new) shared.new) (went_so result)
        (λ lines. PrintsLines (S.bytes out.old) (S.bytes out.new) (S.pieces out.old) (S.pieces out.new) (S.faults out.old) (S.faults out.new)
        (printed result) lines) }
{
    match system_calls::call(heap, frames, shared, w, r.domain, r.segment, at, m, out) {
        Ok(after) => match after {
            After::Goto(n) => {
                frames.go(r.segment, n, None);
                Ok(Went::GoesOn)
            }
            After::Raise(raise) => Ok(raise_here(w, heap, frames, own, r, raise)),
            After::Terminate => Ok(Went::Terminates),
            _ => unreachable!(),
        },
        Err(failed) => {
            frames.go(r.segment, at.head.at + 1, None);
            Err(failed)
        }
    }
}
