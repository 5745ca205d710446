//! Elements of arrays, and their lengths.

ghost use Rattle.std.specs.Prelude.{◌≡◌, ◌≢◌, ◌<◌, ◌^◌, ℕ, pos, IsTrue, MatchResult};
ghost use Rattle.jk_model.specs.declared.opcodes.TheConstants.{AASTORE, ARRAYLENGTH as LENGTH};
ghost use Rattle.jk_model.specs.declared.steps.Raise.TheVariants as Raised;
ghost use Rattle.jk_model_classes.specs.declared.records.TypeRef.{TypeRef as AType};
ghost use Rattle.jk_model_heap_rows.specs.ElementRows.{is_element_load, is_element_store};
ghost use Rattle.jk_model_heaps.specs.SystemClasses.{ARRAY_INDEX_EXCEPTION};
ghost use Rattle.heap_ops.specs.HeapValues.{HasNoPlace, IsArrayAt};
ghost use Rattle.heap_ops.specs.OneInstruction.{MayStep, MayStepAmong, Steps, StepsAmong, place_in};

use crate::casts::may_be_cast;
use crate::entries::{drop_entries, int_at, object_at, replace, value_at};
use crate::here::Here;
use crate::stored::stored;
use frame_store::SegmentFrames;
use instance_tests::CapabilityTests;
use jk_model::{DomainId, Raise, Value};
use jk_model_classes::TypeRef;
use jk_model_heaps::Shape;
use jk_model_heaps::system_classes::{ARRAY_INDEX_EXCEPTION, ARRAY_STORE_EXCEPTION};
use object_store::ObjectStore;
use row_laws::heap_rows::heap_rows_keep;

/// The element type and the length of an array.
#[inline(always)]
fn array_at<H: ObjectStore>(heap: &H, d: DomainId, a: u32) -> (TypeRef, u32)
    requires { (element : AType) × (count : ℕ) × IsArrayAt (H.content heap.now) d a element count }
    ensures is { IsArrayAt (H.content heap.now) d a result.0 result.1 }
    ensures short { result.1 < 2 ^ 31 }
{
    match heap.shape(d, a) {
        Shape::Array(element, len) => (element, len),
        _ => unreachable!(),
    }
}

/// The place that an index means in an array of so many elements; an ArrayIndexOutOfBoundsException where it is below 0 or not
/// below the length.
#[inline(always)]
fn place_at(index: i32, len: u32) -> Result<u32, Raise>
    ensures { MatchResult result (λ place. (index ≡ pos place) × (place < len)) (λ r. HasNoPlace index len × (r ≡ Raised.Fresh ARRAY_INDEX_EXCEPTION)) }
{
    match u32::try_from(index) {
        Ok(place) if place < len => Ok(place),
        _ => Err(Raise::Fresh(ARRAY_INDEX_EXCEPTION)),
    }
}

/// A length as an int.
fn int_of(len: u32) -> i32
    requires { len < 2 ^ 31 }
    ensures { result ≡ pos len }
{
    len as i32
}

/// Takes an array, and pushes its length.
#[inline(always)]
pub(crate) fn array_length<H: ObjectStore, F: SegmentFrames>(
    heap: &H,
    frames: &mut F,
    here: &Here<'_>,
) -> Result<(), Raise>
    requires op { (place_in here.now).instr.op ≡ LENGTH }
    requires may { MayStep (H.content heap.now) (F.content frames.old) here.now }
    ensures { Steps (H.content heap.now) (H.content heap.now) (F.content frames.old) (F.content frames.new) here.now result }
{
    let a = object_at(frames, here.segment, 0)?;
    let (_, len) = array_at(heap, here.domain, a);
    replace(frames, here.segment, 1, Value::Int(int_of(len)));
    Ok(())
}

/// Takes an array and an index, and pushes the element there.
#[inline(always)]
pub(crate) fn load_element<H: ObjectStore, F: SegmentFrames>(
    heap: &H,
    frames: &mut F,
    here: &Here<'_>,
) -> Result<(), Raise>
    requires op { IsTrue (is_element_load (place_in here.now).instr.op) }
    requires may { MayStep (H.content heap.now) (F.content frames.old) here.now }
    ensures { Steps (H.content heap.now) (H.content heap.now) (F.content frames.old) (F.content frames.new) here.now result }
{
    let a = object_at(frames, here.segment, 1)?;
    let (_, len) = array_at(heap, here.domain, a);
    let index = int_at(frames, here.segment, 0);
    let place = place_at(index, len)?;
    let v = heap.read(here.world.classes(), here.domain, a, place);
    replace(frames, here.segment, 2, v);
    Ok(())
}

/// Takes an array, an index and a whole number, and stores the number there, as the array's own element type says.
#[inline(always)]
pub(crate) fn store_element<H: ObjectStore, F: SegmentFrames>(
    heap: &mut H,
    frames: &mut F,
    here: &Here<'_>,
) -> Result<(), Raise>
    requires op { IsTrue (is_element_store (place_in here.now).instr.op) }
    requires numbers { (place_in here.now).instr.op ≢ AASTORE }
    requires may { MayStep (H.content heap.old) (F.content frames.old) here.now }
    ensures { Steps (H.content heap.old) (H.content heap.new) (F.content frames.old) (F.content frames.new) here.now result }
{
    let a = object_at(frames, here.segment, 2)?;
    let (element, len) = array_at(heap, here.domain, a);
    let index = int_at(frames, here.segment, 1);
    let place = place_at(index, len)?;
    let top = value_at(frames, here.segment, 0);
    let v = stored(&element, top);
    // By this law the value is of the elements' kind.
    heap_rows_keep();
    heap.write(here.world.classes(), here.domain, a, place, v);
    drop_entries(frames, here.segment, 3);
    Ok(())
}

/// Takes an array, an index and a reference, and stores the reference there. An ArrayStoreException is raised where it is neither
/// null nor an instance of the array's own element type.
#[inline(never)]
pub(crate) fn store_reference<H: ObjectStore, F: SegmentFrames, C: CapabilityTests>(
    heap: &mut H,
    frames: &mut F,
    caps: &C,
    here: &Here<'_>,
) -> Result<(), Raise>
    requires op { (place_in here.now).instr.op ≡ AASTORE }
    requires may { MayStepAmong (H.content heap.old) (F.content frames.old) (C.known caps.now) here.now }
    requires right { C.agrees caps.now here.now.world.now.classes }
    ensures { StepsAmong (H.content heap.old) (H.content heap.new) (F.content frames.old) (F.content frames.new) (C.known caps.now) here.now result }
{
    let a = object_at(frames, here.segment, 2)?;
    let (element, len) = array_at(heap, here.domain, a);
    let index = int_at(frames, here.segment, 1);
    let place = place_at(index, len)?;
    let top = value_at(frames, here.segment, 0);
    if !may_be_cast(heap, caps, here, top, &element) {
        return Err(Raise::Fresh(ARRAY_STORE_EXCEPTION));
    }
    let v = stored(&element, top);
    // By this law the value is of the elements' kind.
    heap_rows_keep();
    heap.write(here.world.classes(), here.domain, a, place, v);
    drop_entries(frames, here.segment, 3);
    Ok(())
}
