//! A call of a method of the system, which is done in one step and has no frame of its own.

ghost use Rattle.std.specs.Prelude.{◌≡◌, ◌≢◌, ◌+◌, ◌<◌, ◌^◌, [], ◌∷◌, IfOk, OnOk, OnErr, List, Some, ℕ};
ghost use Rattle.jk_model.specs.Outside.{HasRisen, NeverFalls};
ghost use Rattle.jk_model.specs.declared.output.Line.TheVariants as line;
ghost use Rattle.jk_model.specs.declared.steps.After.TheVariants as Next;
ghost use Rattle.jk_model_classes.specs.Worlds.{DomainRecord, domain_of};
ghost use Rattle.jk_model_system_rows.specs.declared.meanings.SystemMeaning.TheVariants as Means;
ghost use Rattle.jk_model_system_rows.specs.Answers.{Tells};
ghost use Rattle.jk_outside.specs.SeveralLines.{PrintsLines};
ghost use Rattle.class_init.specs.KeptStates.{KeptState};
ghost use Rattle.object_store.specs.HeapContents.{HeapContent};
ghost use Rattle.row_laws.specs.GivenValues.{GivenFor};
ghost use Rattle.step_contents.specs.Contents.{contents_of, here_at, left_behind};
ghost use Rattle.step_contents.specs.StandingFrames.{place_of};
ghost use Rattle.system_calls.specs.DoneRows.{Finds};
ghost use Rattle.system_calls.specs.GivenOnTop.{FramesAfter, HasGiven, HasRoomAfter, next_after};
ghost use Rattle.system_calls.specs.MethodGroups.{IsAnswered, IsOfJk, Prints};
ghost use Rattle.system_calls.specs.MethodsDone.{MayAnswer, MethodDone};
ghost use Rattle.system_calls.specs.SystemSteps.{MayCall, SystemDone, call_site, printed};
ghost use Rattle.system_calls.specs.Wordings.{IsWorded};

use crate::answers::Answer;
use crate::capabilities::capability_answer;
use crate::given::{count_given, drop_given, put_answer, read_given, two_values};
use crate::here::Here;
use crate::meanings::meaning;
use crate::own_domain::domain_answer;
use crate::own_methods::{buffer_answer, copy_answer, object_answer, text_answer};
use crate::printing::print_said;
use crate::repository::repository_answer;
use crate::short_texts::no_text;
use crate::tasks::task_answer;
use crate::wordings::{Wording, wording_of};
use domain_resolver::World;
use frame_store::FrameStore;
use jk_model::{After, DomainId, MemberId, SegmentNo, Value};
use jk_model_system_rows::SystemMeaning;
use jk_outside::{Sink, SinkFailed};
use object_store::ObjectStore;
use step_contents::StandsAt;
use thread_segments::Shared;

/// Does a method m of the system that the top frame of segment s of domain d calls at `at`, and answers what is done next.
///
/// After `Goto` of the next place the receiver and the arguments are off the stack, and the answer is on it, where there is one; the
/// frame's place isn't moved. After `Raise` the stack is as it was, and so is the heap, but for items that were copied before one that
/// doesn't fit. After `Terminate` nothing changed: the running domain is to be killed. A line that is printed goes out in pieces; where
/// the sink fails, all else is done, as after `Goto`, and the text went out in part. Nothing here takes memory. A call takes time in
/// proportion to the texts and the items that it reads and writes.
pub fn call<H: ObjectStore, F: FrameStore, S: Sink>(
    heap: &mut H,
    frames: &mut F,
    shared: &mut Shared,
    w: &World,
    d: DomainId,
    s: SegmentNo,
    at: &StandsAt<'_>,
    m: MemberId,
    out: &mut S,
) -> Result<After, SinkFailed>
    requires { (own : KeptState) × MayCall (contents_of (H.content heap.old) (F.content frames.old) own)
        (call_site (here_at w.now shared.old d s) (place_of at.now) m) }
    ensures ok { IfOk result (λ after. (own : KeptState)
        → SystemDone (contents_of (H.content heap.old) (F.content frames.old) own) (call_site (here_at w.now shared.old d s) (place_of at.now) m)
        (left_behind (contents_of (H.content heap.new) (F.content frames.new) own) shared.new) after
        (λ lines. PrintsLines (S.bytes out.old) (S.bytes out.new) (S.pieces out.old) (S.pieces out.new) (S.faults out.old) (S.faults out.new)
        (printed result) lines)) }
    ensures err { OnErr result ((own : KeptState)
        → SystemDone (contents_of (H.content heap.old) (F.content frames.old) own) (call_site (here_at w.now shared.old d s) (place_of at.now) m)
        (left_behind (contents_of (H.content heap.new) (F.content frames.new) own) shared.new) (Next.Goto (at.now.head.at + 1))
        (λ lines. PrintsLines (S.bytes out.old) (S.bytes out.new) (S.pieces out.old) (S.pieces out.new) (S.faults out.old) (S.faults out.new)
        (printed result) lines)) }
    ensures cause { OnErr result (HasRisen (S.faults out.old) (S.faults out.new)) }
    ensures calm { OnOk result (S.faults out.new ≡ S.faults out.old) }
    ensures faults { NeverFalls (S.faults out.old) (S.faults out.new) }
{
    let Some(meaning) = meaning(m) else {
        unreachable!();
    };
    let count = count_given(meaning);
    let values = read_given(frames, s, count);
    let given = &values[..usize::from(count)];
    let here = Here {
        world: w,
        domain: d,
        segment: s,
    };
    match meaning {
        SystemMeaning::TerminatesDomain => Ok(After::Terminate),
        SystemMeaning::PrintsEmptyLine | SystemMeaning::Prints(_) => {
            let line = print_line(heap, &here, meaning, given, out);
            drop_given(frames, s, count);
            match line {
                Ok(()) => Ok(After::Goto(at.head.at + 1)),
                Err(failed) => Err(failed),
            }
        }
        _ => {
            let answer = answer(heap, shared, &here, meaning, given);
            Ok(finish(frames, s, at, count, answer))
        }
    }
}

/// What is done next where a method answers: the answer takes the place of what was given. Where something is raised, that stays.
fn finish<F: FrameStore>(
    frames: &mut F,
    s: SegmentNo,
    at: &StandsAt<'_>,
    count: u16,
    answer: Answer,
) -> After
    requires given { HasGiven (F.content frames.old) s count }
    requires room { IfOk answer (λ v. HasRoomAfter (F.content frames.old) s count v) }
    requires next { at.now.head.at + 1 < 2 ^ 32 }
    ensures frames { FramesAfter (F.content frames.old) (F.content frames.new) s count answer }
    ensures after { result ≡ next_after (at.now.head.at + 1) answer }
{
    match answer {
        Ok(v) => {
            put_answer(frames, s, count, v);
            After::Goto(at.head.at + 1)
        }
        Err(raise) => After::Raise(raise),
    }
}

/// What a method answers that prints nothing and lets its domain go on.
fn answer<H: ObjectStore>(
    heap: &mut H,
    shared: &mut Shared,
    here: &Here<'_>,
    meaning: SystemMeaning,
    given: &[Value],
) -> Answer
    requires may { MayAnswer (H.content heap.old) shared.old here.now meaning given.now }
    requires answered { IsAnswered meaning }
    ensures { MethodDone (H.content heap.old) (H.content heap.new) shared.old shared.new here.now meaning given.now result }
{
    let (t, d) = (here.world.classes(), here.domain);
    match meaning {
        SystemMeaning::TextLength
        | SystemMeaning::CharAt
        | SystemMeaning::IsSameText
        | SystemMeaning::Concat
        | SystemMeaning::Substring
        | SystemMeaning::TextOf(_) => text_answer(heap, t, d, meaning, given),
        SystemMeaning::BufferInitialises
        | SystemMeaning::BufferInitialisesWith
        | SystemMeaning::BufferLength
        | SystemMeaning::BufferText
        | SystemMeaning::Appends(_) => buffer_answer(heap, t, d, meaning, given),
        SystemMeaning::Initialises
        | SystemMeaning::IsSame
        | SystemMeaning::ParsesInt
        | SystemMeaning::SetsMessage
        | SystemMeaning::GetsMessage => object_answer(heap, t, d, meaning, given),
        SystemMeaning::CopiesArray => copy_answer(heap, shared, t, d, given),
        _ => jk_answer(heap, shared, here, meaning, given),
    }
}

/// What a method of package jk answers.
fn jk_answer<H: ObjectStore>(
    heap: &mut H,
    shared: &mut Shared,
    here: &Here<'_>,
    meaning: SystemMeaning,
    given: &[Value],
) -> Answer
    requires may { MayAnswer (H.content heap.old) shared.old here.now meaning given.now }
    requires group { IsOfJk meaning }
    requires goes_on { meaning ≢ Means.TerminatesDomain }
    ensures { MethodDone (H.content heap.old) (H.content heap.new) shared.old shared.new here.now meaning given.now result }
{
    match meaning {
        SystemMeaning::NamesDomain | SystemMeaning::CountsFreeWords | SystemMeaning::GetsTask => {
            domain_answer(heap, here, meaning, given)
        }
        SystemMeaning::CreatesCapability | SystemMeaning::RevokesCapability => {
            capability_answer(heap, shared, here, meaning, given)
        }
        SystemMeaning::BindsName | SystemMeaning::LooksUpName | SystemMeaning::UnbindsName => {
            repository_answer(heap, shared, here, meaning, given)
        }
        SystemMeaning::SuspendsTask | SystemMeaning::ResumesTask | SystemMeaning::StopsTask => {
            task_answer(heap, shared, here, meaning, given)
        }
        _ => unreachable!(),
    }
}

/// Prints the line of a `println`: the domain's name, and what the argument reads as.
fn print_line<H: ObjectStore, S: Sink>(
    heap: &H,
    here: &Here<'_>,
    meaning: SystemMeaning,
    given: &[Value],
    out: &mut S,
) -> Result<(), SinkFailed>
    requires group { Prints meaning }
    requires given { GivenFor ((H.content heap.now).heap here.now.domain) meaning given.now }
    requires domain { (names : DomainRecord) × (domain_of here.now.world.now here.now.domain ≡ Some names) }
    ensures said { (text : List ℕ) × Finds (H.content heap.now) here.now.domain meaning given.now (Tells text)
        × ((names : DomainRecord) → domain_of here.now.world.now here.now.domain ≡ Some names
        → PrintsLines (S.bytes out.old) (S.bytes out.new) (S.pieces out.old) (S.pieces out.new) (S.faults out.old) (S.faults out.new) result
        (line.Said names.name text ∷ [])) }
    ensures cause { OnErr result (HasRisen (S.faults out.old) (S.faults out.new)) }
    ensures calm { OnOk result (S.faults out.new ≡ S.faults out.old) }
    ensures faults { NeverFalls (S.faults out.old) (S.faults out.new) }
{
    let Some(names) = here.world.domain(here.domain) else {
        unreachable!();
    };
    let said = said(meaning, given);
    let name = names.name().as_slice();
    print_said(heap, here.world.classes(), here.domain, name, &said, out)
}

/// What the argument of a `println` reads as, behind the stream; nothing where there is none.
fn said(meaning: SystemMeaning, given: &[Value]) -> Wording
    requires group { Prints meaning }
    requires given { (c : HeapContent) × (d : DomainId) × GivenFor (c.heap d) meaning given.now }
    ensures { (c : HeapContent) (d : DomainId) → GivenFor (c.heap d) meaning given.now
        → (text : List ℕ) × Finds c d meaning given.now (Tells text) × IsWorded (c.heap d) result text }
{
    match meaning {
        SystemMeaning::Prints(shown) => {
            let (_, v) = two_values(given);
            wording_of(shown, v)
        }
        _ => Wording::Short(no_text()),
    }
}
