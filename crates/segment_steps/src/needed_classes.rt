//! A class that is needed and isn't ready: it is initialised by a frame of its own, which needs the class's parent first.

ghost use Rattle.std.specs.Prelude.{◌≡◌, ◌≤◌, Some, length, MatchOption};
ghost use Rattle.jk_model.specs.declared.identifiers.ClassId.{ClassId as AClassId};
ghost use Rattle.jk_model_classes.specs.declared.records.ClassRecord.{ClassRecord as AClass};
ghost use Rattle.jk_model_classes.specs.Classes.{record_of};
ghost use Rattle.jk_model_domains.specs.declared.states.ClassState.TheVariants as State;
ghost use Rattle.jk_model_domains.specs.OwnStates.{state_of};
ghost use Rattle.jk_model_frames.specs.Frames.{FrameState as AFrame};
ghost use Rattle.jk_model_heaps.specs.CalledFrames.{call_head};
ghost use Rattle.jk_model_running.specs.Initialising.{FrameNeeds, IsInitialiserHead};
ghost use Rattle.jk_model_sharing.specs.SharedStates.{SharedState};
ghost use Rattle.jk_model_typing.specs.Scopes.{CodeScope as AScope, IsScopeOf};
ghost use Rattle.frame_store.specs.FrameContents.{TopFrame};
ghost use Rattle.heap_laws.specs.SoundCodes.{AreSoundCodes};
ghost use Rattle.step_contents.specs.Contents.{contents_of, here_at};
ghost use Rattle.segment_steps.specs.ActingSegments.{MayAct};
ghost use Rattle.segment_steps.specs.Initialisers.{IsFirstClinit, NoClinit};
ghost use Rattle.segment_steps.specs.StepsAlone.{Steps};

use crate::meeting::Runs;
use crate::raising::raise_here;
use crate::went::Went;
use call_ops::call_head;
use class_init::Own;
use class_table::ClassTable;
use domain_resolver::World;
use frame_store::FrameStore;
use jk_model::{ClassId, FrameHead, MemberId, Raise, Standing};
use jk_model_classes::MethodRecord;
use jk_model_domains::ClassState;
use jk_model_heaps::system_classes::NO_CLASS_DEF_FOUND_ERROR;
use object_store::ObjectStore;
use type_rows::CodeView;

/// The name of an initialiser.
const CLINIT: [u16; 8] = [0x3c, 0x63, 0x6c, 0x69, 0x6e, 0x69, 0x74, 0x3e];

/// The head of a frame without code.
const NO_CODE: FrameHead = FrameHead {
    method: None,
    at: 0,
    need: None,
    initialises: None,
    max_locals: 0,
    max_stack: 0,
};

/// A class that is needed is untouched: it is in progress by the thread from now on, and its initialiser frame is on top. Where there
/// is no room for that, the class stays untouched, and a StackOverflowError is raised. It takes time in proportion to the class's methods.
#[inline(never)]
pub(crate) fn touch<H: ObjectStore, F: FrameStore>(
    w: &World,
    heap: &mut H,
    frames: &mut F,
    own: &mut Own,
    r: Runs,
    c: ClassId,
) -> Went
    requires may { (shared : SharedState)
        × MayAct (contents_of (H.content heap.old) (F.content frames.old) own.old) (here_at w.now shared r.domain r.segment) }
    requires needs { (f : AFrame) × TopFrame (F.content frames.old) r.segment f × FrameNeeds w.now.classes f c }
    requires untouched { state_of own.old.state c ≡ State.Untouched }
    ensures { (shared : SharedState) → Steps (contents_of (H.content heap.old) (F.content frames.old) own.old)
        (contents_of (H.content heap.new) (F.content frames.new) own.new) (here_at w.now shared r.domain r.segment) r.thread result }
{
    let head = initialiser_head(w.classes(), c);
    match frames.push(r.segment, head) {
        Ok(()) => {
            own.set_state(c, ClassState::InProgress(r.thread));
            Went::GoesOn
        }
        Err(_) => {
            let raise = Raise::Standing(Standing::StackOverflowError);
            raise_here(w, heap, frames, own, r, raise)
        }
    }
}

/// A class that is needed is broken: a NoClassDefFoundError is raised.
#[inline(never)]
pub(crate) fn meet_broken<H: ObjectStore, F: FrameStore>(
    w: &World,
    heap: &mut H,
    frames: &mut F,
    own: &mut Own,
    r: Runs,
) -> Went
    requires may { (shared : SharedState)
        × MayAct (contents_of (H.content heap.old) (F.content frames.old) own.old) (here_at w.now shared r.domain r.segment) }
    requires broken { (f : AFrame) × TopFrame (F.content frames.old) r.segment f × (c : AClassId) × FrameNeeds w.now.classes f c
        × (state_of own.old.state c ≡ State.Broken) }
    ensures { (shared : SharedState) → Steps (contents_of (H.content heap.old) (F.content frames.old) own.old)
        (contents_of (H.content heap.new) (F.content frames.new) own.new) (here_at w.now shared r.domain r.segment) r.thread result }
{
    let raise = Raise::Fresh(NO_CLASS_DEF_FOUND_ERROR);
    raise_here(w, heap, frames, own, r, raise)
}

/// The head of the frame that initialises a class: it begins the class's `<clinit>`, where there is one.
fn initialiser_head(t: &ClassTable, c: ClassId) -> FrameHead
    requires sound { AreSoundCodes t.now }
    requires class { (k : AClass) × (p : AClassId) × (record_of t.now c ≡ Some k) × (k.parent ≡ Some p) }
    ensures { IsInitialiserHead t.now c result }
{
    t.ordered();
    let class = match t.class(c) {
        Some(class) => class,
        None => unreachable!(),
    };
    let code = match first_clinit(class.methods.as_slice()) {
        Some(index) => first_head(t, MemberId { class: c, index }),
        None => NO_CODE,
    };
    FrameHead {
        need: class.parent,
        initialises: Some(c),
        ..code
    }
}

/// The place of the first method `<clinit>`; none where there is none.
fn first_clinit(methods: &[MethodRecord]) -> Option<u16>
    requires { length methods.now ≤ 65535 }
    ensures { MatchOption result (NoClinit methods.now) (IsFirstClinit methods.now) }
{
    for i in 0..methods.len() {
        if methods[i].name.is(&CLINIT) {
            return Some(i as u16);
        }
    }
    None
}

/// The head of a frame that begins a method, which has code.
fn first_head(t: &ClassTable, m: MemberId) -> FrameHead
    requires { (scope : AScope) × IsScopeOf t.now m scope }
    ensures { (scope : AScope) × IsScopeOf t.now m scope × (result ≡ call_head m scope.code) }
{
    match CodeView::of(t, m) {
        Some(view) => call_head(m, view.code),
        None => unreachable!(),
    }
}
