//! What a thread meets before its top segment acts.

ghost use Rattle.std.specs.Prelude.{◌≡◌, List as AList, MatchOption, option_map};
ghost use Rattle.jk_model_classes.specs.declared.records.ClassRecord.{ClassRecord as AClassRecord};
ghost use Rattle.jk_model_domains.specs.declared.states.Look.TheVariants as Sees;
ghost use Rattle.jk_model_domains.specs.OwnStates.{IsLook, state_of};
ghost use Rattle.jk_model_frames.specs.Frames.{FrameState as AFrame};
ghost use Rattle.frame_store.specs.FrameContents.{HasTop, TopFrame};
ghost use Rattle.step_contents.specs.StandingFrames.{IsPlaceOf, place_of};
ghost use Rattle.segment_steps.specs.Meetings.{Meets, NeedsOf};

use class_init::{Own, look};
use domain_resolver::World;
use frame_store::SegmentFrames;
use jk_model::{ClassId, DomainId, FrameHead, SegmentNo, ThreadNo};
use jk_model_domains::Look;
use step_contents::{StandsAt, needed_by, stands_at};

/// Which thread steps, and where: its top segment, and that segment's domain.
#[derive(Clone, Copy, Debug, PartialEq, Eq)]
pub struct Runs {
    pub thread: ThreadNo,
    pub domain: DomainId,
    pub segment: SegmentNo,
}

/// Where the top frame of a segment stands, and what its thread meets there.
#[derive(Clone, Copy)]
pub struct Meeting<'a> {
    pub head: FrameHead,
    /// None for an initialiser frame without code.
    pub at: Option<StandsAt<'a>>,
    /// The class that the frame needs before it goes on: by its need, or else by its instruction.
    pub needed: Option<ClassId>,
    /// What the thread meets at that class; ready where it needs none.
    pub look: Look,
}

/// Where the top frame of a segment stands, and what its thread meets there. Nothing changes, and it takes constant time but for the
/// search of the class among those of the domain.
#[inline(always)]
pub fn meet<'a, F: SegmentFrames>(w: &'a World, own: &Own, frames: &F, r: Runs) -> Meeting<'a>
    requires { HasTop (F.content frames.now) r.segment }
    ensures { (f : AFrame) → TopFrame (F.content frames.now) r.segment f → Meets w.now.classes own.now.state r f result }
{
    let head = frames.head(r.segment);
    let at = stands_at(w.classes(), &head);
    let needed = class_needed(&head, &at);
    let look = look_at(own, r.thread, needed);
    Meeting {
        head,
        at,
        needed,
        look,
    }
}

/// The class that a frame with this head needs before it goes on, where it stands there: by its need, or else by its instruction.
#[inline(always)]
fn class_needed(head: &FrameHead, at: &Option<StandsAt<'_>>) -> Option<ClassId>
    ensures { (classes : AList AClassRecord) (f : AFrame) → f.head ≡ head.now → IsPlaceOf classes head.now (option_map place_of at.now)
        → NeedsOf classes f result }
{
    if let Some(c) = head.need {
        return Some(c);
    }
    match at {
        Some(at) => needed_by(at),
        None => None,
    }
}

/// What a thread meets at the class that it needs; ready where it needs none.
#[inline(always)]
fn look_at(own: &Own, t: ThreadNo, needed: Option<ClassId>) -> Look
    ensures { MatchOption needed (result ≡ Sees.Ready) (λ c. IsLook t (state_of own.now.state c) result) }
{
    match needed {
        Some(c) => look(own, t, c),
        None => Look::Ready,
    }
}
