//! Calls as rows of tables. Each is made only where it may be, so that a mistake in a table stops the test.

ghost use Rattle.std.specs.Prelude.{◌≡◌, ◌++◌, [], IfOk, None, OnOk};
ghost use Rattle.jk_model.specs.declared.identifiers.DomainId.{DomainId as ADomain};
ghost use Rattle.thread_check.specs.KnownStubs.{bare_stub, known_stubs};
ghost use Rattle.thread_segments.specs.Asked.{AreWithin};

use crate::answers::Answer;
use crate::asking::{
    expect_given, expect_live, expect_next, expect_room, expect_segment, expect_thread,
};
use crate::questions::{Question, told};
use frame_store::{FrameStore, PlainFrames};
use jk_model::{CapId, ClassId, DomainId, List, OutOfMemory, Quotas, Raise, SegmentNo, ThreadNo};
use jk_model_classes::Stub;
use std::alloc::Global;
use std::test::Fail;
use thread_segments::Shared;

/// Classes with stubs.
pub(crate) const ONE: ClassId = ClassId(50);

pub(crate) const TWO: ClassId = ClassId(60);

/// A class without one.
pub(crate) const BARE: ClassId = ClassId(70);

/// The domain without a budget of steps.
const UNBOUNDED: u32 = 3;

/// A call, with domains, threads, segments and capabilities by their numbers.
#[derive(Clone, Copy)]
pub(crate) enum Act {
    /// A thread begins in a domain.
    Begin(u32),
    /// A segment of a domain, which comes second, goes on top of a thread.
    Push(u32, u32),
    Pop(u32),
    Suspend(u64),
    Resume(u64),
    Stop(u64),
    /// ThreadDeath is pending no longer in a segment that is there.
    ClearStop(u64),
    /// RevokedException is pending in a segment that is there, or no longer.
    SetRevoked(u64, bool),
    /// A domain creates a capability at an object of a class.
    Create(u32, ClassId, u32),
    Revoke(u32, u32),
    Bind(u32, &'static [u16], u32),
    Unbind(u32, &'static [u16]),
    /// A domain pays a step.
    Spend(u32),
    End(u32),
    /// Nothing is changed.
    Ask(Question),
}

/// What a domain may have.
pub(crate) fn quotas(d: u32) -> Quotas
    ensures { AreWithin result }
{
    let steps = if d == UNBOUNDED { None } else { Some(5) };
    Quotas {
        heap: 64,
        chunks: 12,
        caps: 2,
        threads: 3,
        names: 2,
        steps,
    }
}

fn stub(alloc: Global, class: ClassId) -> Stub
    ensures { result ≡ bare_stub class.0 }
{
    Stub {
        class,
        interfaces: List::new(alloc),
    }
}

/// The stubs of the second domain, which are all that there are.
pub(crate) fn stubs(alloc: Global) -> Result<List<Stub>, OutOfMemory>
    ensures { IfOk result (λ stubs. stubs ≡ known_stubs) }
{
    let mut stubs = List::new(alloc);
    stubs.push(stub(alloc, ONE))?;
    stubs.push(stub(alloc, TWO))?;
    Ok(stubs)
}

/// Admits the next domain.
pub(crate) fn admit(shared: &mut Shared, d: u32, stubs: List<Stub>) -> Result<(), Fail>
    ensures { OnOk result (shared.new.stubs ≡ shared.old.stubs ++ stubs) }
{
    let q = quotas(d);
    let d = DomainId(d);
    expect_next(shared, d)?;
    shared.admit(d, &q, stubs)?;
    Ok(())
}

fn admit_all(alloc: Global, shared: &mut Shared) -> Result<(), Fail>
    requires { shared.old.stubs ≡ [] }
    ensures { IfOk result (λ _. shared.new.stubs ≡ known_stubs) }
{
    admit(shared, 0, List::new(alloc))?;
    admit(shared, 1, stubs(alloc)?)?;
    admit(shared, 2, List::new(alloc))?;
    admit(shared, 3, List::new(alloc))
}

/// Four domains, of which the second has the stubs.
pub(crate) fn opened(alloc: Global) -> Result<Shared, Fail>
    ensures { IfOk result (λ shared. shared.stubs ≡ known_stubs) }
{
    let mut shared = Shared::new(alloc)?;
    admit_all(alloc, &mut shared)?;
    Ok(shared)
}

/// Begins a thread with one segment. None where no thread may begin.
pub(crate) fn begin(shared: &mut Shared, d: u32) -> Result<Option<ThreadNo>, Fail>
    ensures { shared.new.stubs ≡ shared.old.stubs }
{
    let d = DomainId(d);
    expect_room(shared, d)?;
    Ok(shared.begin(d))
}

/// Puts a segment on top of a thread.
pub(crate) fn push(shared: &mut Shared, t: ThreadNo, d: u32) -> Result<SegmentNo, Fail>
    ensures { shared.new.stubs ≡ shared.old.stubs }
{
    let d = DomainId(d);
    expect_room(shared, d)?;
    expect_thread(shared, t)?;
    Ok(shared.push(t, d))
}

fn pop(shared: &mut Shared, t: ThreadNo) -> Result<Answer, Fail>
    ensures { shared.new.stubs ≡ shared.old.stubs }
{
    expect_thread(shared, t)?;
    shared.pop(t);
    Ok(Answer::Done)
}

fn suspend(shared: &mut Shared, s: SegmentNo) -> Answer
    ensures { shared.new.stubs ≡ shared.old.stubs }
{
    shared.suspend(s);
    Answer::Done
}

fn resume(shared: &mut Shared, s: SegmentNo) -> Answer
    ensures { shared.new.stubs ≡ shared.old.stubs }
{
    shared.resume(s);
    Answer::Done
}

fn stop(shared: &mut Shared, s: SegmentNo) -> Answer
    ensures { shared.new.stubs ≡ shared.old.stubs }
{
    shared.stop(s);
    Answer::Done
}

fn clear_stop(shared: &mut Shared, s: SegmentNo) -> Result<Answer, Fail>
    ensures { shared.new.stubs ≡ shared.old.stubs }
{
    expect_segment(shared, s)?;
    shared.clear_stop(s);
    Ok(Answer::Done)
}

fn set_revoked(shared: &mut Shared, s: SegmentNo, on: bool) -> Result<Answer, Fail>
    ensures { shared.new.stubs ≡ shared.old.stubs }
{
    expect_segment(shared, s)?;
    shared.set_revoked(s, on);
    Ok(Answer::Done)
}

fn create(shared: &mut Shared, d: u32, class: ClassId, target: u32) -> Result<Answer, Fail>
    ensures { shared.new.stubs ≡ shared.old.stubs }
{
    let d = DomainId(d);
    expect_live(shared, d)?;
    Ok(of_creation(shared.create(d, class, target)))
}

fn revoke(shared: &mut Shared, d: u32, k: CapId) -> Result<Answer, Fail>
    ensures { shared.new.stubs ≡ shared.old.stubs }
{
    let d = DomainId(d);
    expect_live(shared, d)?;
    expect_given(shared, k)?;
    Ok(of_change(shared.revoke(d, k)))
}

fn bind(shared: &mut Shared, d: u32, name: &[u16], k: CapId) -> Result<Answer, Fail>
    ensures { shared.new.stubs ≡ shared.old.stubs }
{
    let d = DomainId(d);
    expect_live(shared, d)?;
    expect_given(shared, k)?;
    Ok(of_change(shared.bind(d, name, k)))
}

fn unbind(shared: &mut Shared, d: u32, name: &[u16]) -> Result<Answer, Fail>
    ensures { shared.new.stubs ≡ shared.old.stubs }
{
    let d = DomainId(d);
    expect_live(shared, d)?;
    Ok(of_change(shared.unbind(d, name)))
}

/// Pays a step of a domain with a budget.
fn spend(shared: &mut Shared, d: u32) -> Result<Answer, Fail>
    ensures { shared.new.stubs ≡ shared.old.stubs }
{
    let d = DomainId(d);
    expect_live(shared, d)?;
    let Some(left) = shared.steps_left(d) else {
        return Err(Fail::from("the domain has no budget"));
    };
    if left == 0 {
        return Err(Fail::from("the domain has no steps left"));
    }
    shared.spend_step(d);
    Ok(Answer::Done)
}

/// Ends a domain, which has frames in a store of their own.
pub(crate) fn end(alloc: Global, shared: &mut Shared, d: u32) -> Result<Answer, Fail>
    ensures { shared.new.stubs ≡ shared.old.stubs }
{
    let mut frames = PlainFrames::new(alloc);
    end_in(&mut frames, shared, DomainId(d))
}

/// Ends a domain, which comes first into this store of frames.
fn end_in<F: FrameStore>(frames: &mut F, shared: &mut Shared, d: DomainId) -> Result<Answer, Fail>
    requires { (other : ADomain) → (F.content frames.old).quota other ≡ None }
    ensures { shared.new.stubs ≡ shared.old.stubs }
{
    expect_live(shared, d)?;
    frames.admit(d, 1)?;
    shared.drop_domain(frames, d);
    Ok(Answer::Done)
}

fn of_beginning(begun: Option<ThreadNo>) -> Answer {
    match begun {
        Some(t) => Answer::Number(u64::from(t.0)),
        None => Answer::Nothing,
    }
}

fn of_creation(created: Result<CapId, Raise>) -> Answer {
    match created {
        Ok(k) => Answer::Number(u64::from(k.0)),
        Err(raise) => Answer::Raised(raise),
    }
}

fn of_change(changed: Result<(), Raise>) -> Answer {
    match changed {
        Ok(()) => Answer::Done,
        Err(raise) => Answer::Raised(raise),
    }
}

/// Makes a call.
pub(crate) fn answer_to(alloc: Global, shared: &mut Shared, act: Act) -> Result<Answer, Fail>
    ensures { shared.new.stubs ≡ shared.old.stubs }
{
    match act {
        Act::Begin(d) => Ok(of_beginning(begin(shared, d)?)),
        Act::Push(t, d) => Ok(Answer::Number(push(shared, ThreadNo(t), d)?.0)),
        Act::Pop(t) => pop(shared, ThreadNo(t)),
        Act::Suspend(s) => Ok(suspend(shared, SegmentNo(s))),
        Act::Resume(s) => Ok(resume(shared, SegmentNo(s))),
        Act::Stop(s) => Ok(stop(shared, SegmentNo(s))),
        Act::ClearStop(s) => clear_stop(shared, SegmentNo(s)),
        Act::SetRevoked(s, on) => set_revoked(shared, SegmentNo(s), on),
        Act::Create(d, class, target) => create(shared, d, class, target),
        Act::Revoke(d, k) => revoke(shared, d, CapId(k)),
        Act::Bind(d, name, k) => bind(shared, d, name, CapId(k)),
        Act::Unbind(d, name) => unbind(shared, d, name),
        Act::Spend(d) => spend(shared, d),
        Act::End(d) => end(alloc, shared, d),
        Act::Ask(question) => told(shared, question),
    }
}
