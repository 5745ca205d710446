//! Instructions by which a segment's thread leaves it: a call through a capability, and the return of the lowest frame.

ghost use Rattle.std.specs.Prelude.{◌≡◌, false, true};
ghost use Rattle.jk_model_domains.specs.OwnStates.{OwnState as AOwnState};
ghost use Rattle.jk_model_sharing.specs.SharedStates.{SharedState};
ghost use Rattle.class_init.specs.KeptStates.{KeptState};
ghost use Rattle.object_store.specs.HeapContents.{HeapContent};
ghost use Rattle.step_contents.specs.Contents.{contents_of, here_at};
ghost use Rattle.step_contents.specs.StandingFrames.{place_of};
ghost use Rattle.step_contents.specs.StandingTops.{StandsThere};
ghost use Rattle.segment_steps.specs.ActingSegments.{MayAct};
ghost use Rattle.segment_steps.specs.LeavingSegments.{IsLeaving};
ghost use Rattle.segment_steps.specs.Returning.{PaysFrames};
ghost use Rattle.segment_steps.specs.StandingTops.{WaitsForNone};
ghost use Rattle.segment_steps.specs.StepsAlone.{Steps};

use crate::meeting::Runs;
use crate::went::Went;
use domain_resolver::World;
use frame_store::SegmentFrames;
use jk_model::After;
use jk_model::opcodes::{IRETURN, RETURN};
use step_contents::StandsAt;

/// Does the instruction at which the top frame of a segment stands, where it calls through a capability, or returns from the lowest frame, which
/// initialises no class; and says in `went` how the thread leaves the segment by it. It answers false, and nothing changed, where it is
/// another one.
#[inline(always)]
pub fn leave<F: SegmentFrames>(
    w: &World,
    frames: &mut F,
    r: Runs,
    at: &StandsAt<'_>,
    went: &mut Went,
) -> bool
    requires may { (heaps : HeapContent) × (own : KeptState) × (shared : SharedState)
        × MayAct (contents_of heaps (F.content frames.old) own) (here_at w.now shared r.domain r.segment) }
    requires stands { StandsThere (F.content frames.old) w.now.classes r.segment (place_of at.now) }
    requires paid { PaysFrames (F.content frames.old) r.segment }
    ensures no { result ≡ false → (F.content frames.new ≡ F.content frames.old) × (went.new ≡ went.old) }
    ensures leaving { result ≡ true → IsLeaving went.new }
    ensures free { result ≡ true → (own : AOwnState) → WaitsForNone (F.content frames.old) w.now.classes r.segment own r.thread }
    ensures steps { result ≡ true → (heaps : HeapContent) (own : KeptState) (shared : SharedState)
        → Steps (contents_of heaps (F.content frames.old) own) (contents_of heaps (F.content frames.new) own)
        (here_at w.now shared r.domain r.segment) r.thread went.new }
{
    if IRETURN <= at.instr.op && at.instr.op <= RETURN {
        return return_last(w, frames, r, at, went);
    }
    match call_ops::crossing_at(frames, w, r.segment, at) {
        Some(crossing) => {
            *went = Went::Crosses(crossing.capability, crossing.method);
            true
        }
        None => false,
    }
}

/// A return from the lowest frame, which initialises no class. From another it is undone, and so is whatever is no return.
#[inline(never)]
fn return_last<F: SegmentFrames>(
    w: &World,
    frames: &mut F,
    r: Runs,
    at: &StandsAt<'_>,
    went: &mut Went,
) -> bool
    requires may { (heaps : HeapContent) × (own : KeptState) × (shared : SharedState)
        × MayAct (contents_of heaps (F.content frames.old) own) (here_at w.now shared r.domain r.segment) }
    requires stands { StandsThere (F.content frames.old) w.now.classes r.segment (place_of at.now) }
    requires paid { PaysFrames (F.content frames.old) r.segment }
    ensures no { result ≡ false → (F.content frames.new ≡ F.content frames.old) × (went.new ≡ went.old) }
    ensures leaving { result ≡ true → IsLeaving went.new }
    ensures free { result ≡ true → (own : AOwnState) → WaitsForNone (F.content frames.old) w.now.classes r.segment own r.thread }
    ensures steps { result ≡ true → (heaps : HeapContent) (own : KeptState) (shared : SharedState)
        → Steps (contents_of heaps (F.content frames.old) own) (contents_of heaps (F.content frames.new) own)
        (here_at w.now shared r.domain r.segment) r.thread went.new }
{
    if at.instr.op < IRETURN || RETURN < at.instr.op {
        return false;
    }
    if at.head.initialises.is_some() {
        return false;
    }
    if frames.depth(r.segment) > 1 {
        return false;
    }
    match number_ops::step(frames, w, r.segment, &at.head, at.instr) {
        After::Return(v) => {
            frames.pop(r.segment);
            *went = Went::Returned(v);
            true
        }
        _ => unreachable!(),
    }
}
