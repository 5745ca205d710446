//! Objects and arrays that are made.

ghost use Rattle.std.specs.Prelude.{◌≡◌, ℕ, ℤ, pos, None, MatchResult};
ghost use Rattle.jk_model.specs.declared.opcodes.TheConstants.{ANEWARRAY, NEW, NEWARRAY};
ghost use Rattle.jk_model.specs.declared.steps.Raise.TheVariants as Raised;
ghost use Rattle.jk_model.specs.declared.values.Value.TheVariants as Held;
ghost use Rattle.jk_model_classes.specs.declared.records.BaseRef.{BaseRef as ABase};
ghost use Rattle.jk_model_typing.specs.Rows.{IsCodeOf};
ghost use Rattle.jk_model_heaps.specs.SystemClasses.{NEGATIVE_ARRAY_SIZE_EXCEPTION};
ghost use Rattle.jk_model_heap_rows.specs.NewObjectRows.{MakesArrayOf, count_of};
ghost use Rattle.step_contents.specs.StandingFrames.{place_of};
ghost use Rattle.object_store.specs.HeapContents.{HasBase};
ghost use Rattle.heap_ops.specs.OneInstruction.{MayStep, Steps, place_in};
ghost use Rattle.heap_ops.specs.TopEntries.{StandsBelow};

use crate::entries::{int_at, replace};
use crate::here::Here;
use frame_store::SegmentFrames;
use jk_model::{Raise, SegmentNo, Standing, Value};
use jk_model_classes::{BaseRef, TypeRef};
use jk_model_heaps::Shape;
use jk_model_heaps::system_classes::NEGATIVE_ARRAY_SIZE_EXCEPTION;
use object_store::ObjectStore;
use step_contents::{StandsAt, type_named};

/// Pushes a new object of the class that the instruction names.
#[inline(always)]
pub(crate) fn make_object<H: ObjectStore, F: SegmentFrames>(
    heap: &mut H,
    frames: &mut F,
    here: &Here<'_>,
) -> Result<(), Raise>
    requires op { (place_in here.now).instr.op ≡ NEW }
    requires may { MayStep (H.content heap.old) (F.content frames.old) here.now }
    ensures { Steps (H.content heap.old) (H.content heap.new) (F.content frames.old) (F.content frames.new) here.now result }
{
    let BaseRef::Class(class) = type_named(here.at).base else {
        unreachable!();
    };
    let shape = Shape::Plain(class);
    match heap.make(here.world.classes(), here.domain, shape) {
        Ok(a) => {
            frames.push_value(here.segment, Value::Obj(a));
            Ok(())
        }
        Err(_) => Err(Raise::Standing(Standing::OutOfMemoryError)),
    }
}

/// The whole-number type that newarray names by its code.
fn number_base(at: &StandsAt<'_>) -> BaseRef
    requires { (n : ℕ) × (base : ABase) × ((place_of at.now).instr.a ≡ pos n) × IsCodeOf base n }
    ensures { (n : ℕ) × ((place_of at.now).instr.a ≡ pos n) × IsCodeOf result n }
{
    match at.instr.a {
        4 => BaseRef::Bool,
        5 => BaseRef::Char,
        8 => BaseRef::Byte,
        9 => BaseRef::Short,
        10 => BaseRef::Int,
        11 => BaseRef::Long,
        _ => unreachable!(),
    }
}

/// The count that stands below so many entries; a NegativeArraySizeException where it is below 0.
pub(crate) fn count_at<F: SegmentFrames>(frames: &F, s: SegmentNo, above: u16) -> Result<u32, Raise>
    requires { (n : ℤ) × StandsBelow (F.content frames.now) s above (Held.Int n) }
    ensures { MatchResult result (λ m. StandsBelow (F.content frames.now) s above (Held.Int (pos m)))
        (λ r. ((n : ℤ) × StandsBelow (F.content frames.now) s above (Held.Int n) × (count_of n ≡ None))
        × (r ≡ Raised.Fresh NEGATIVE_ARRAY_SIZE_EXCEPTION)) }
{
    let n = int_at(frames, s, above);
    match u32::try_from(n) {
        Ok(count) => Ok(count),
        Err(_) => Err(Raise::Fresh(NEGATIVE_ARRAY_SIZE_EXCEPTION)),
    }
}

/// Takes a count, and pushes a new array of so many elements of a type.
fn make_array_of<H: ObjectStore, F: SegmentFrames>(
    heap: &mut H,
    frames: &mut F,
    here: &Here<'_>,
    element: TypeRef,
) -> Result<(), Raise>
    requires of { MakesArrayOf (place_in here.now).scope (place_in here.now).instr element }
    requires class { HasBase here.now.world.now.classes element.base }
    requires may { MayStep (H.content heap.old) (F.content frames.old) here.now }
    ensures { Steps (H.content heap.old) (H.content heap.new) (F.content frames.old) (F.content frames.new) here.now result }
{
    let count = count_at(frames, here.segment, 0)?;
    let shape = Shape::Array(element, count);
    match heap.make(here.world.classes(), here.domain, shape) {
        Ok(a) => {
            replace(frames, here.segment, 1, Value::Obj(a));
            Ok(())
        }
        Err(_) => Err(Raise::Standing(Standing::OutOfMemoryError)),
    }
}

/// Takes a count, and pushes a new array of so many whole numbers.
#[inline(never)]
pub(crate) fn make_array<H: ObjectStore, F: SegmentFrames>(
    heap: &mut H,
    frames: &mut F,
    here: &Here<'_>,
) -> Result<(), Raise>
    requires op { (place_in here.now).instr.op ≡ NEWARRAY }
    requires may { MayStep (H.content heap.old) (F.content frames.old) here.now }
    ensures { Steps (H.content heap.old) (H.content heap.new) (F.content frames.old) (F.content frames.new) here.now result }
{
    let base = number_base(here.at);
    make_array_of(heap, frames, here, TypeRef { dims: 0, base })
}

/// Takes a count, and pushes a new array of so many references of the type that the instruction names.
#[inline(never)]
pub(crate) fn make_reference_array<H: ObjectStore, F: SegmentFrames>(
    heap: &mut H,
    frames: &mut F,
    here: &Here<'_>,
) -> Result<(), Raise>
    requires op { (place_in here.now).instr.op ≡ ANEWARRAY }
    requires may { MayStep (H.content heap.old) (F.content frames.old) here.now }
    ensures { Steps (H.content heap.old) (H.content heap.new) (F.content frames.old) (F.content frames.new) here.now result }
{
    make_array_of(heap, frames, here, *type_named(here.at))
}
