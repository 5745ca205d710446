//! A method run from its first instruction on, until it returns or something is raised.

ghost use Rattle.std.specs.Prelude.{◌≡◌, ◌<◌, ◌^◌, IfOk, None, length};
ghost use Rattle.jk_model.specs.declared.identifiers.DomainId.{DomainId as ADomain};
ghost use Rattle.jk_model.specs.declared.identifiers.SegmentNo.{SegmentNo as ASegment};
ghost use Rattle.jk_model_typing.specs.Scopes.{CodeScope, IsScopeOf};
ghost use Rattle.jk_model_typing.specs.Typing.{IsLeastTyping};
ghost use Rattle.type_rows.specs.CodeViews.{scope_of};
ghost use Rattle.frame_store.specs.FrameContents.{HasTop};
ghost use Rattle.number_check.specs.RunFrames.{AreFirst, HasNumbersAt, LeadsOn, RunsIn};

use crate::fitting::{all_fit, is_of_numbers, keys_rise};
use crate::methods::{Op, add_method};
use crate::stores::{SEGMENT, begin, locals_of, put_locals, stack_of};
use class_table::ClassTable;
use domain_resolver::World;
use frame_store::{FrameStore, PlainFrames};
use jk_model::{After, FrameHead, Instr, List, MemberId, Value};
use jk_model_typing::Typing;
use number_laws::laws::rows_keep_types;
use number_ops::step;
use std::alloc::Global;
use std::process::Abort;
use std::test::Fail;
use type_rows::CodeView;
use type_verifier::verify;

/// How many instructions a method may do.
const MOST_STEPS: u32 = 1000;

/// What a method came to: what its last instruction answered, and what its frame has then.
#[derive(Drop)]
pub(crate) struct Ended {
    pub(crate) after: After,
    pub(crate) locals: List<Value>,
    pub(crate) stack: List<Value>,
}

/// The code of a method.
fn view_of<'a>(rt: &impl Abort, classes: &'a ClassTable, method: MemberId) -> CodeView<'a>
    ensures scope { IsScopeOf classes.now method (scope_of result) }
    ensures short { length result.code.now.instrs < 2 ^ 32 }
{
    let Some(view) = CodeView::of(classes, method) else {
        panic!(rt; "there is no code");
    };
    assert!(rt; view.code.instrs.len() < 1000);
    view
}

/// The least typing of a method.
fn typing_of(
    rt: &impl Abort,
    alloc: Global,
    classes: &ClassTable,
    method: MemberId,
) -> Result<Typing, Fail>
    requires { (s : CodeScope) → IsScopeOf classes.now method s → length s.code.instrs < 2 ^ 32 }
    ensures { IfOk result (λ typing. IsLeastTyping classes.now method typing.frames) }
{
    match verify(alloc, classes, method)? {
        Some(typing) => Ok(typing),
        None => panic!(rt; "there is no typing"),
    }
}

/// Asserts that these values fit the type with which a method begins.
fn expect_start(rt: &impl Abort, typing: &Typing, locals: &[Value])
    ensures { AreFirst typing.now.frames locals.now }
{
    let Some(Some(start)) = typing.frames.get(0) else {
        panic!(rt; "the first instruction has no type");
    };
    assert!(rt; all_fit(locals, start.locals.as_slice()));
    assert!(rt; start.stack.is_empty());
}

/// The instruction at a place. Asserts that it is one of those on numbers, and that its keys rise.
fn instruction_at<'a>(rt: &impl Abort, view: &CodeView<'a>, place: u32) -> &'a Instr
    ensures { HasNumbersAt (scope_of view.now) place result.now }
{
    let Some(i) = view.code.instrs.get(place as usize) else {
        panic!(rt; "there is no instruction at {place}");
    };
    assert!(rt; is_of_numbers(view.links.as_slice(), i), "{i:?}");
    assert!(rt; keys_rise(i.cases.as_slice()), "{i:?}");
    i
}

/// Does the instruction at which the frame stands.
fn do_next<F: FrameStore>(rt: &impl Abort, frames: &mut F, world: &World, view: &CodeView) -> After
    requires { RunsIn (F.content frames.old) world.now.classes SEGMENT (scope_of view.now) }
    ensures { LeadsOn (F.content frames.new) world.now.classes SEGMENT (scope_of view.now) result }
{
    let head = frames.head(SEGMENT);
    let i = instruction_at(rt, view, head.at);
    world.holds();
    rows_keep_types();
    step(frames, world, SEGMENT, &head, i)
}

/// Does instructions from where the frame stands, until it returns or something is raised.
fn go_on<F: FrameStore>(rt: &impl Abort, frames: &mut F, world: &World, view: &CodeView) -> After
    requires { RunsIn (F.content frames.old) world.now.classes SEGMENT (scope_of view.now) }
    ensures { HasTop (F.content frames.new) SEGMENT }
{
    for _ in 0..MOST_STEPS {
        match do_next(rt, frames, world, view) {
            After::Goto(place) => frames.go(SEGMENT, place, None),
            after => return after,
        }
    }
    panic!(rt; "it goes on and on")
}

/// Runs a method of a class in a store without segments.
fn run_in<F: FrameStore>(
    rt: &impl Abort,
    alloc: Global,
    frames: &mut F,
    world: &World,
    method: MemberId,
    locals: &[Value],
) -> Result<Ended, Fail>
    requires domains { (d : ADomain) → (F.content frames.old).quota d ≡ None }
    requires segments { (s : ASegment) → (F.content frames.old).segment s ≡ None }
{
    let view = view_of(rt, world.classes(), method);
    let typing = typing_of(rt, alloc, world.classes(), method)?;
    let head = FrameHead {
        method: Some(method),
        at: 0,
        need: None,
        initialises: None,
        max_locals: view.code.max_locals,
        max_stack: view.code.max_stack,
    };
    begin(rt, frames, head);
    put_locals(rt, frames, head, locals);
    let first = locals_of(alloc, frames)?;
    expect_start(rt, &typing, first.as_slice());
    let after = go_on(rt, frames, world, &view);
    Ok(Ended {
        after,
        locals: locals_of(alloc, frames)?,
        stack: stack_of(alloc, frames)?,
    })
}

/// Runs a method with this code, whose locals have these values as it begins.
pub(crate) fn run(
    rt: &impl Abort,
    alloc: Global,
    code: &[Op],
    locals: &[Value],
) -> Result<Ended, Fail> {
    let mut world = World::new(alloc)?;
    let method = add_method(rt, alloc, &mut world, code, locals)?;
    let mut frames = PlainFrames::new(alloc);
    run_in(rt, alloc, &mut frames, &world, method, locals)
}
