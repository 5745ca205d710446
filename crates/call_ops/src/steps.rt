//! What an instruction of call does.

ghost use Rattle.std.specs.Prelude.{◌≡◌, ◌≢◌, ℕ, IfSome};
ghost use Rattle.jk_model.specs.declared.steps.After.TheVariants as Next;
ghost use Rattle.jk_model_call_rows.specs.CallRows.{IsOfCalls};
ghost use Rattle.jk_model_sharing.specs.SharedStates.{SharedState};
ghost use Rattle.jk_model.specs.declared.identifiers.DomainId.{DomainId as ADomainId};
ghost use Rattle.object_store.specs.HeapContents.{HeapContent};
ghost use Rattle.class_init.specs.KeptStates.{KeptState};
ghost use Rattle.step_contents.specs.Conditions.{MayDo};
ghost use Rattle.step_contents.specs.Contents.{contents_of, here_at};
ghost use Rattle.step_contents.specs.StandingFrames.{place_of};
ghost use Rattle.step_contents.specs.StandingTops.{StandsThere};
ghost use Rattle.call_ops.specs.CallSteps.{CallDone};

use crate::running::{run, run_static};
use crate::targets::{Target, target_at};
use domain_resolver::World;
use frame_store::SegmentFrames;
use jk_model::opcodes::{INVOKEINTERFACE, INVOKESTATIC};
use jk_model::{After, CapId, DomainId, MemberId, Raise, SegmentNo, Value};
use jk_model_heaps::system_classes::OBJECT;
use member_lookup::method_record;
use object_store::ObjectStore;
use step_contents::{StandsAt, method_of};

/// Does the call at which the top frame of a segment of domain d stands, and answers what is done next. `at` is where that frame
/// stands: at `invokevirtual`, `invokespecial`, `invokestatic` or `invokeinterface`, whose class is ready where it needs one.
///
/// A method with code has taken its receiver and arguments off the stack, and its new frame goes on at place 0: `Goto(0)`. Where
/// that frame's chunks don't fit, the standing StackOverflowError is raised. A method m of the system answers `Call(m)`, and a
/// method m that is called through a capability k `Crossing(k, m)`. After these, and after what is raised, the frame is as it was.
/// Where a frame is new, `at` is where it stands afterwards; else it is as it was.
///
/// Nothing here takes memory. A call takes time in proportion to the classes above the receiver's and to its arguments.
pub fn step<'a, H: ObjectStore, F: SegmentFrames>(
    heap: &H,
    frames: &mut F,
    w: &'a World,
    d: DomainId,
    s: SegmentNo,
    at: &mut StandsAt<'a>,
) -> After
    requires may { (own : KeptState) × (shared : SharedState)
        × MayDo (contents_of (H.content heap.now) (F.content frames.old) own) (here_at w.now shared d s) (place_of at.old) }
    requires kind { IsOfCalls at.old.instr.now }
    ensures call { (own : KeptState) (shared : SharedState)
        → CallDone (contents_of (H.content heap.now) (F.content frames.old) own)
        (contents_of (H.content heap.now) (F.content frames.new) own) (here_at w.now shared d s) (place_of at.old) result }
    ensures stands { (n : ℕ) → result ≡ Next.Goto n → StandsThere (F.content frames.new) w.now.classes s (place_of at.new) }
    ensures stays { ((n : ℕ) → result ≢ Next.Goto n) → at.new ≡ at.old }
{
    let t = w.classes();
    let named = method_of(at);
    if at.instr.op == INVOKESTATIC {
        return run_static(frames, t, s, named, at);
    }
    let method = match method_record(t, named) {
        Some(method) => method,
        None => unreachable!(),
    };
    let arguments = method.params.get().len() as u16;
    let receiver = frames.peek(s, arguments);
    match target_at(heap, t, d, at, named, method, receiver) {
        Target::Runs(m) => run(frames, t, s, m, arguments + 1, at),
        Target::Fails(c) => After::Raise(Raise::Fresh(c)),
        Target::Crosses(k) => After::Crossing(k, named),
    }
}

/// A call through a capability.
#[derive(Clone, Copy, Debug, PartialEq, Eq)]
pub struct Crossing {
    pub capability: CapId,
    pub method: MemberId,
}

/// The capability and the method of the call at which the top frame of a segment stands, where it goes through a capability; none where it doesn't.
/// As `step`, nothing changes then. Such a call is an `invokeinterface`.
#[inline(always)]
pub fn crossing_at<F: SegmentFrames>(
    frames: &F,
    w: &World,
    s: SegmentNo,
    at: &StandsAt<'_>,
) -> Option<Crossing>
    requires { (heaps : HeapContent) × (own : KeptState) × (shared : SharedState) × (d : ADomainId)
        × MayDo (contents_of heaps (F.content frames.now) own) (here_at w.now shared d s) (place_of at.now) }
    ensures kind { IfSome result (λ _. at.now.instr.now.op ≡ INVOKEINTERFACE) }
    ensures call { IfSome result (λ crossing. (heaps : HeapContent) (own : KeptState) (shared : SharedState) (d : ADomainId)
        → CallDone (contents_of heaps (F.content frames.now) own) (contents_of heaps (F.content frames.now) own) (here_at w.now shared d s)
        (place_of at.now) (Next.Crossing crossing.capability crossing.method)) }
{
    if at.instr.op != INVOKEINTERFACE {
        return None;
    }
    let t = w.classes();
    let named = method_of(at);
    if named.class == OBJECT {
        return None;
    }
    let method = match method_record(t, named) {
        Some(method) => method,
        None => unreachable!(),
    };
    let arguments = method.params.get().len() as u16;
    match frames.peek(s, arguments) {
        Value::Cap(k) => Some(Crossing {
            capability: k,
            method: named,
        }),
        _ => None,
    }
}
