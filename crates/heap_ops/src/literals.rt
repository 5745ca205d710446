//! The objects of literals: of texts that instructions load, and of the constants of static fields.

ghost use Rattle.std.specs.Prelude.{◌≡◌, Contains, IfOk, OnErr};
ghost use Rattle.jk_model.specs.declared.opcodes.TheConstants.{LDC_W};
ghost use Rattle.object_store.specs.HeapContents.{IsAdmitted};
ghost use Rattle.heap_ops.specs.LiteralObjects.{HasObject, LacksObject, LiteralCall};
ghost use Rattle.heap_ops.specs.OneInstruction.{MayStepWith, StepsWith, place_in};

use crate::here::Here;
use class_init::Own;
use class_table::ClassTable;
use frame_store::SegmentFrames;
use heap_loops::make_text;
use jk_model::{DomainId, NoRoom, Raise, Standing, Value};
use object_store::ObjectStore;
use shared_values::Text;
use step_contents::text_of;

/// The most words that a heap has.
const MOST_WORDS: usize = 16_777_216;

/// The object of a literal, which is made where there is none yet. It fails exactly where it has to be made and doesn't fit, and
/// then all is as before.
pub(crate) fn literal_object<H: ObjectStore>(
    heap: &mut H,
    own: &mut Own,
    t: &ClassTable,
    d: DomainId,
    text: &Text,
) -> Result<u32, NoRoom>
    requires admitted { IsAdmitted (H.content heap.old) d }
    requires known { Contains own.old.rooms text.now }
    ensures ok { IfOk result (λ a. let x : LiteralCall = record {
      heaps = H.content heap.old;
      new_heaps = H.content heap.new;
      own = own.old;
      new_own = own.new;
      domain = d;
      text = text.now;
    } in HasObject x t.now a) }
    ensures err { OnErr result (let x : LiteralCall = record {
      heaps = H.content heap.old;
      new_heaps = H.content heap.new;
      own = own.old;
      new_own = own.new;
      domain = d;
      text = text.now;
    } in LacksObject x) }
{
    if let Some(a) = own.literal(text) {
        return Ok(a);
    }
    let units = text.as_slice();
    if units.len() > MOST_WORDS {
        return Err(NoRoom);
    }
    match make_text(heap, t, d, units) {
        Ok(a) => {
            own.set_literal(text, a);
            Ok(a)
        }
        Err(e) => Err(e),
    }
}

/// Pushes the object of the text that the instruction loads.
#[inline(never)]
pub(crate) fn load_text<H: ObjectStore, F: SegmentFrames>(
    heap: &mut H,
    frames: &mut F,
    own: &mut Own,
    here: &Here<'_>,
) -> Result<(), Raise>
    requires op { (place_in here.now).instr.op ≡ LDC_W }
    requires may { MayStepWith (H.content heap.old) (F.content frames.old) own.old here.now }
    ensures { StepsWith (H.content heap.old) (H.content heap.new) (F.content frames.old) (F.content frames.new) own.old own.new here.now result }
{
    let Some(text) = text_of(here.at) else {
        unreachable!();
    };
    match literal_object(heap, own, here.world.classes(), here.domain, text) {
        Ok(a) => {
            frames.push_value(here.segment, Value::Obj(a));
            Ok(())
        }
        Err(_) => Err(Raise::Standing(Standing::OutOfMemoryError)),
    }
}
