//! Static fields.

ghost use Rattle.std.specs.Prelude.{◌≡◌, ◌↔◌, IsTrue};
ghost use Rattle.jk_model.specs.declared.opcodes.TheConstants.{GETSTATIC, PUTSTATIC};
ghost use Rattle.jk_model_classes.specs.declared.records.FieldRecord.{FieldRecord as AField};
ghost use Rattle.jk_model_classes.specs.Lookups.{FieldIs};
ghost use Rattle.jk_model_heap_rows.specs.FieldRows.{IsSystemOut};
ghost use Rattle.object_store.specs.HeapContents.{HeapContent};
ghost use Rattle.heap_ops.specs.OneInstruction.{MayStepWith, StepsWith, place_in};

use crate::entries::{drop_entries, value_at};
use crate::here::Here;
use crate::stored::stored;
use class_init::Own;
use class_table::ClassTable;
use frame_store::SegmentFrames;
use jk_model::{MemberId, Raise, Value};
use jk_model_classes::TypeRef;
use member_lookup::field_record;
use step_contents::field_of;

/// The declared type of a field.
pub(crate) fn field_kind(t: &ClassTable, m: MemberId) -> &TypeRef
    requires { (field : AField) × FieldIs t.now m field }
    ensures { (field : AField) → FieldIs t.now m field → result.now ≡ field.kind }
{
    match field_record(t, m) {
        Some(field) => &field.kind,
        None => unreachable!(),
    }
}

/// Whether a field is System.out, the one static field of the system classes.
fn is_system_out(t: &ClassTable, m: MemberId) -> bool
    ensures { IsTrue result ↔ IsSystemOut t.now m }
{
    match t.class(m.class) {
        Some(class) => class.home.is_none(),
        None => false,
    }
}

/// Pushes the value of the static field that the instruction names.
#[inline(always)]
pub(crate) fn get_static<F: SegmentFrames>(
    frames: &mut F,
    own: &Own,
    here: &Here<'_>,
) -> Result<(), Raise>
    requires op { (place_in here.now).instr.op ≡ GETSTATIC }
    requires may { (heaps : HeapContent) × MayStepWith heaps (F.content frames.old) own.now here.now }
    ensures { (heaps : HeapContent) → StepsWith heaps heaps (F.content frames.old) (F.content frames.new) own.now own.now here.now result }
{
    let field = field_of(here.at);
    let v = if is_system_out(here.world.classes(), field) {
        Value::Obj(own.out())
    } else {
        own.static_value(field)
    };
    frames.push_value(here.segment, v);
    Ok(())
}

/// Takes the top entry, and stores it into the static field that the instruction names.
#[inline(always)]
pub(crate) fn put_static<F: SegmentFrames>(
    frames: &mut F,
    own: &mut Own,
    here: &Here<'_>,
) -> Result<(), Raise>
    requires op { (place_in here.now).instr.op ≡ PUTSTATIC }
    requires may { (heaps : HeapContent) × MayStepWith heaps (F.content frames.old) own.old here.now }
    ensures { (heaps : HeapContent) → StepsWith heaps heaps (F.content frames.old) (F.content frames.new) own.old own.new here.now result }
{
    let field = field_of(here.at);
    let top = value_at(frames, here.segment, 0);
    let v = stored(field_kind(here.world.classes(), field), top);
    own.set_static(field, v);
    drop_entries(frames, here.segment, 1);
    Ok(())
}
