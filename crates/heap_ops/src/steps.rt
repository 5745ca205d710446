//! One instruction.

ghost use Rattle.jk_model_heap_rows.specs.HeapRows.{IsOfHeaps};
ghost use Rattle.jk_model_sharing.specs.SharedStates.{SharedState as AShared};
ghost use Rattle.type_rows.specs.CodeViews.{scope_of};
ghost use Rattle.class_init.specs.KeptStates.{KeptState as AKept};
ghost use Rattle.step_contents.specs.InstructionKinds.{IsAccess};
ghost use Rattle.step_contents.specs.StandingFrames.{place_of};
ghost use Rattle.step_contents.specs.Conditions.{MayDo};
ghost use Rattle.step_contents.specs.Contents.{contents_of, here_at};
ghost use Rattle.heap_ops.specs.HeapSteps.{HeapDone, after_access};
ghost use Rattle.heap_ops.specs.OneInstruction.{MayStepAll, StepsAll};

use crate::array_trees::make_array_tree;
use crate::arrays::{array_length, load_element, store_element, store_reference};
use crate::casts::{cast, test_instance, throw};
use crate::fields::{get_field, put_field};
use crate::here::Here;
use crate::literals::load_text;
use crate::making::{make_array, make_object, make_reference_array};
use crate::statics::{get_static, put_static};
use class_init::Own;
use domain_resolver::World;
use frame_store::SegmentFrames;
use instance_tests::CapabilityTests;
use jk_model::opcodes::{
    AALOAD, AASTORE, ANEWARRAY, ARRAYLENGTH, ATHROW, BALOAD, BASTORE, CALOAD, CASTORE, CHECKCAST,
    GETFIELD, GETSTATIC, IALOAD, IASTORE, INSTANCEOF, LALOAD, LASTORE, LDC_W, MULTIANEWARRAY, NEW,
    NEWARRAY, PUTFIELD, PUTSTATIC, SALOAD, SASTORE,
};
use jk_model::{After, DomainId, Raise, SegmentNo};
use object_store::ObjectStore;
use step_contents::StandsAt;
use thread_segments::Shared;

/// Does the instruction at which the top frame of a segment stands, one that works on objects, static fields or literals, and
/// answers what is done next: the frame goes on behind it, or an exception is raised. The stored head stays as it is. Where
/// something is raised, heap, own state and stack are as before.
#[inline(always)]
pub fn step<H: ObjectStore, F: SegmentFrames>(
    heap: &mut H,
    frames: &mut F,
    own: &mut Own,
    shared: &Shared,
    w: &World,
    d: DomainId,
    s: SegmentNo,
    at: &StandsAt<'_>,
) -> After
    requires may { MayDo (contents_of (H.content heap.old) (F.content frames.old) own.old) (here_at w.now shared.now d s) (place_of at.now) }
    requires kind { IsOfHeaps (scope_of at.now.code) at.now.instr.now }
    ensures { HeapDone (contents_of (H.content heap.old) (F.content frames.old) own.old)
        (contents_of (H.content heap.new) (F.content frames.new) own.new) (here_at w.now shared.now d s) (place_of at.now) result }
{
    let here = Here {
        world: w,
        domain: d,
        segment: s,
        at,
    };
    match execute(heap, frames, own, shared, &here) {
        Ok(()) => After::Goto(at.head.at + 1),
        Err(raise) => After::Raise(raise),
    }
}

/// Does the instruction at which the top frame of a segment stands, one that accesses an element or the length of an array or a field of
/// an object. The frame goes on behind it, and its stored head stays as it is; the error is what is raised, and heap and stack are as
/// before then. It needs neither the domain's own state nor what domains share, and is done whatever these are.
#[inline(always)]
pub fn access<H: ObjectStore, F: SegmentFrames>(
    heap: &mut H,
    frames: &mut F,
    w: &World,
    d: DomainId,
    s: SegmentNo,
    at: &StandsAt<'_>,
) -> Result<(), Raise>
    requires may { (own : AKept) × (shared : AShared)
        × MayDo (contents_of (H.content heap.old) (F.content frames.old) own) (here_at w.now shared d s) (place_of at.now) }
    requires kind { IsAccess at.now.instr.now.op }
    ensures { (own : AKept) (shared : AShared)
        → HeapDone (contents_of (H.content heap.old) (F.content frames.old) own) (contents_of (H.content heap.new) (F.content frames.new) own)
        (here_at w.now shared d s) (place_of at.now) (after_access (place_of at.now) result) }
{
    let here = Here {
        world: w,
        domain: d,
        segment: s,
        at,
    };
    match at.instr.op {
        IALOAD | LALOAD | AALOAD | BALOAD | CALOAD | SALOAD => load_element(heap, frames, &here),
        IASTORE | LASTORE | BASTORE | CASTORE | SASTORE => store_element(heap, frames, &here),
        ARRAYLENGTH => array_length(heap, frames, &here),
        GETFIELD => get_field(heap, frames, &here),
        PUTFIELD => put_field(heap, frames, &here),
        _ => unreachable!(),
    }
}

/// Does the instruction; the error is what is raised, and all is as before then.
#[inline(always)]
fn execute<H: ObjectStore, F: SegmentFrames, C: CapabilityTests>(
    heap: &mut H,
    frames: &mut F,
    own: &mut Own,
    caps: &C,
    here: &Here<'_>,
) -> Result<(), Raise>
    requires may { MayStepAll (H.content heap.old) (F.content frames.old) own.old (C.known caps.now) here.now }
    requires right { C.agrees caps.now here.now.world.now.classes }
    ensures { StepsAll (H.content heap.old) (H.content heap.new) (F.content frames.old) (F.content frames.new) own.old own.new (C.known caps.now)
        here.now result }
{
    match here.at.instr.op {
        LDC_W => load_text(heap, frames, own, here),
        IALOAD | LALOAD | AALOAD | BALOAD | CALOAD | SALOAD => load_element(heap, frames, here),
        IASTORE | LASTORE | BASTORE | CASTORE | SASTORE => store_element(heap, frames, here),
        AASTORE => store_reference(heap, frames, caps, here),
        ARRAYLENGTH => array_length(heap, frames, here),
        GETSTATIC => get_static(frames, own, here),
        PUTSTATIC => put_static(frames, own, here),
        GETFIELD => get_field(heap, frames, here),
        PUTFIELD => put_field(heap, frames, here),
        NEW => make_object(heap, frames, here),
        NEWARRAY => make_array(heap, frames, here),
        ANEWARRAY => make_reference_array(heap, frames, here),
        MULTIANEWARRAY => make_array_tree(heap, frames, here),
        CHECKCAST => cast(heap, frames, caps, here),
        INSTANCEOF => test_instance(heap, frames, caps, here),
        ATHROW => throw(frames, here),
        _ => unreachable!(),
    }
}
