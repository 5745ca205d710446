//! Fields of objects.

ghost use Rattle.std.specs.Prelude.{◌≡◌, ◌<◌, ◌^◌, ℕ, IsFalse};
ghost use Rattle.jk_model.specs.Flags.{has, STATIC};
ghost use Rattle.jk_model.specs.declared.opcodes.TheConstants.{GETFIELD, PUTFIELD};
ghost use Rattle.jk_model_classes.specs.declared.records.FieldRecord.{FieldRecord as AField};
ghost use Rattle.jk_model_classes.specs.Lookups.{FieldIs};
ghost use Rattle.heap_ops.specs.HeapValues.{IsOwnPlace};
ghost use Rattle.heap_ops.specs.OneInstruction.{MayStep, Steps, place_in};

use crate::entries::{drop_entries, object_at, replace, value_at};
use crate::here::Here;
use crate::statics::field_kind;
use crate::stored::stored;
use class_table::ClassTable;
use frame_store::SegmentFrames;
use jk_model::{MemberId, Raise};
use object_store::ObjectStore;
use row_laws::heap_rows::heap_rows_keep;
use step_contents::field_of;

/// The place of an instance field in the objects of its class and of all classes below it.
#[inline(always)]
fn place_of(t: &ClassTable, m: MemberId) -> u32
    requires field { (field : AField) × FieldIs t.now m field × IsFalse (has field.flags STATIC) }
    requires small { (place : ℕ) → IsOwnPlace t.now m place → place < 2 ^ 32 }
    ensures { IsOwnPlace t.now m result }
{
    match t.place_of(m) {
        Some(place) => place as u32,
        None => unreachable!(),
    }
}

/// Takes an object, and pushes the value of the field that the instruction names. A NullPointerException is raised at null.
#[inline(always)]
pub(crate) fn get_field<H: ObjectStore, F: SegmentFrames>(
    heap: &H,
    frames: &mut F,
    here: &Here<'_>,
) -> Result<(), Raise>
    requires op { (place_in here.now).instr.op ≡ GETFIELD }
    requires may { MayStep (H.content heap.now) (F.content frames.old) here.now }
    ensures { Steps (H.content heap.now) (H.content heap.now) (F.content frames.old) (F.content frames.new) here.now result }
{
    let a = object_at(frames, here.segment, 0)?;
    let t = here.world.classes();
    let field = field_of(here.at);
    let place = place_of(t, field);
    let v = heap.read(t, here.domain, a, place);
    replace(frames, here.segment, 1, v);
    Ok(())
}

/// Takes an object and a value above it, and stores the value into the field that the instruction names. A NullPointerException
/// is raised at null.
#[inline(always)]
pub(crate) fn put_field<H: ObjectStore, F: SegmentFrames>(
    heap: &mut H,
    frames: &mut F,
    here: &Here<'_>,
) -> Result<(), Raise>
    requires op { (place_in here.now).instr.op ≡ PUTFIELD }
    requires may { MayStep (H.content heap.old) (F.content frames.old) here.now }
    ensures { Steps (H.content heap.old) (H.content heap.new) (F.content frames.old) (F.content frames.new) here.now result }
{
    let a = object_at(frames, here.segment, 1)?;
    let t = here.world.classes();
    let field = field_of(here.at);
    let place = place_of(t, field);
    let top = value_at(frames, here.segment, 0);
    let v = stored(field_kind(t, field), top);
    // By this law the value is of the field's kind.
    heap_rows_keep();
    heap.write(t, here.domain, a, place, v);
    drop_entries(frames, here.segment, 2);
    Ok(())
}
