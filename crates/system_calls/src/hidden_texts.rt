//! The hidden field of a buffer and of a throwable, a text or null: the first of its object.

ghost use Rattle.std.specs.Prelude.{◌≡◌, ◌⊎◌, ℕ};
ghost use Rattle.jk_model.specs.declared.values.Value.TheVariants as Held;
ghost use Rattle.jk_model_system_rows.specs.HiddenTexts.{TextHolder, with_text};
ghost use Rattle.object_store.specs.HeapContents.{HeapBecomes, IsName};
ghost use Rattle.system_calls.specs.DoneRows.{IsReady};
ghost use Rattle.row_laws.specs.GivenValues.{HoldsText};
ghost use Rattle.system_calls.specs.HiddenNames.{IsHidden};

use class_table::ClassTable;
use jk_model::{DomainId, Value};
use object_store::ObjectStore;

/// The place of the field.
const HIDDEN: u32 = 0;

/// The name of the text that the field has; none where it is null.
pub(crate) fn hidden<H: ObjectStore>(
    heap: &H,
    t: &ClassTable,
    d: DomainId,
    object: u32,
) -> Option<u32>
    requires ready { IsReady (H.content heap.now) t.now d }
    requires holds { HoldsText ((H.content heap.now).heap d) (Held.Obj object) }
    ensures { (h : TextHolder ((H.content heap.now).heap d) (Held.Obj object)) → IsHidden h.text result }
{
    match heap.read(t, d, object, HIDDEN) {
        Value::Obj(text) => Some(text),
        Value::Null => None,
        _ => unreachable!(),
    }
}

/// Sets the field to a text or to null.
pub(crate) fn set_hidden<H: ObjectStore>(
    heap: &mut H,
    t: &ClassTable,
    d: DomainId,
    object: u32,
    v: Value,
)
    requires ready { IsReady (H.content heap.old) t.now d }
    requires holds { HoldsText ((H.content heap.old).heap d) (Held.Obj object) }
    requires text { (v ≡ Held.Null) ⊎ ((a : ℕ) × (v ≡ Held.Obj a) × IsName (H.content heap.old) d a) }
    ensures { (h : TextHolder ((H.content heap.old).heap d) (Held.Obj object))
        → HeapBecomes (H.content heap.old) (H.content heap.new) d (with_text h v ((H.content heap.old).heap d)) ((H.content heap.old).used d) }
{
    heap.write(t, d, object, HIDDEN, v);
}
