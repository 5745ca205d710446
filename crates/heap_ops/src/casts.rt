//! Casts, tests of instances, and throws.

ghost use Rattle.std.specs.Prelude.{◌≡◌, ◌⊎◌, ◌↔◌, IsTrue};
ghost use Rattle.jk_model.specs.declared.opcodes.TheConstants.{ATHROW, CHECKCAST, INSTANCEOF};
ghost use Rattle.jk_model.specs.declared.values.Value.TheVariants as Held;
ghost use Rattle.jk_model_heaps.specs.Instances.{IsInstance};
ghost use Rattle.jk_model_sealing.specs.SealedInsides.{IsKnownValue};
ghost use Rattle.object_store.specs.HeapContents.{HeapContent, IsReference};
ghost use Rattle.heap_ops.specs.OneInstruction.{MayStep, MayStepAmong, Steps, StepsAmong, place_in};

use crate::entries::{object_at, replace, value_at};
use crate::here::Here;
use frame_store::SegmentFrames;
use instance_tests::{CapabilityTests, is_instance, is_null_or_instance};
use jk_model::{Raise, Value};
use jk_model_classes::TypeRef;
use jk_model_heaps::system_classes::CLASS_CAST_EXCEPTION;
use object_store::ObjectStore;
use step_contents::type_named;

/// Raises the object on top, or a NullPointerException where that is null.
#[inline(never)]
pub(crate) fn throw<F: SegmentFrames>(frames: &F, here: &Here<'_>) -> Result<(), Raise>
    requires op { (place_in here.now).instr.op ≡ ATHROW }
    requires may { (heaps : HeapContent) × MayStep heaps (F.content frames.now) here.now }
    ensures { (heaps : HeapContent) → Steps heaps heaps (F.content frames.now) (F.content frames.now) here.now result }
{
    let a = object_at(frames, here.segment, 0)?;
    Err(Raise::Object(a))
}

/// Whether a reference is an instance of a type. Null is an instance of nothing.
fn is_instance_of<H: ObjectStore, C: CapabilityTests>(
    heap: &H,
    caps: &C,
    here: &Here<'_>,
    v: Value,
    kind: &TypeRef,
) -> bool
    requires reference { IsReference v }
    requires known { IsKnownValue (C.known caps.now).ranges ((H.content heap.now).heap here.now.domain) v }
    requires right { C.agrees caps.now here.now.world.now.classes }
    ensures { IsTrue result ↔ IsInstance here.now.world.now.classes (C.known caps.now) ((H.content heap.now).heap here.now.domain) v kind.now }
{
    match v {
        Value::Null => false,
        _ => is_instance(heap, caps, here.world.classes(), here.domain, v, kind),
    }
}

/// Whether a reference is null or an instance of a type.
pub(crate) fn may_be_cast<H: ObjectStore, C: CapabilityTests>(
    heap: &H,
    caps: &C,
    here: &Here<'_>,
    v: Value,
    kind: &TypeRef,
) -> bool
    requires reference { IsReference v }
    requires known { IsKnownValue (C.known caps.now).ranges ((H.content heap.now).heap here.now.domain) v }
    requires right { C.agrees caps.now here.now.world.now.classes }
    ensures { IsTrue result ↔ ((v ≡ Held.Null)
        ⊎ IsInstance here.now.world.now.classes (C.known caps.now) ((H.content heap.now).heap here.now.domain) v kind.now) }
{
    is_null_or_instance(heap, caps, here.world.classes(), here.domain, v, kind)
}

/// Leaves the top entry, which is null or an instance of the type that the instruction names; else a ClassCastException is raised.
#[inline(never)]
pub(crate) fn cast<H: ObjectStore, F: SegmentFrames, C: CapabilityTests>(
    heap: &H,
    frames: &F,
    caps: &C,
    here: &Here<'_>,
) -> Result<(), Raise>
    requires op { (place_in here.now).instr.op ≡ CHECKCAST }
    requires may { MayStepAmong (H.content heap.now) (F.content frames.now) (C.known caps.now) here.now }
    requires right { C.agrees caps.now here.now.world.now.classes }
    ensures { StepsAmong (H.content heap.now) (H.content heap.now) (F.content frames.now) (F.content frames.now) (C.known caps.now) here.now result }
{
    let v = value_at(frames, here.segment, 0);
    if may_be_cast(heap, caps, here, v, type_named(here.at)) {
        Ok(())
    } else {
        Err(Raise::Fresh(CLASS_CAST_EXCEPTION))
    }
}

/// Takes a reference, and pushes 1 where it is an instance of the type that the instruction names, else 0. Null is none.
#[inline(never)]
pub(crate) fn test_instance<H: ObjectStore, F: SegmentFrames, C: CapabilityTests>(
    heap: &H,
    frames: &mut F,
    caps: &C,
    here: &Here<'_>,
) -> Result<(), Raise>
    requires op { (place_in here.now).instr.op ≡ INSTANCEOF }
    requires may { MayStepAmong (H.content heap.now) (F.content frames.old) (C.known caps.now) here.now }
    requires right { C.agrees caps.now here.now.world.now.classes }
    ensures { StepsAmong (H.content heap.now) (H.content heap.now) (F.content frames.old) (F.content frames.new) (C.known caps.now) here.now result }
{
    let v = value_at(frames, here.segment, 0);
    if is_instance_of(heap, caps, here, v, type_named(here.at)) {
        replace(frames, here.segment, 1, Value::Int(1));
        Ok(())
    } else {
        replace(frames, here.segment, 1, Value::Int(0));
        Ok(())
    }
}
