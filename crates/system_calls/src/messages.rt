//! The message of a throwable, which may be null.

ghost use Rattle.std.specs.Prelude.{[], ◌∷◌};
ghost use Rattle.jk_model.specs.declared.values.Value.TheVariants as Held;
ghost use Rattle.jk_model_system_rows.specs.declared.meanings.SystemMeaning.TheVariants as Means;
ghost use Rattle.system_calls.specs.DoneRows.{Does, Finds, IsReady, answer_of};
ghost use Rattle.row_laws.specs.GivenValues.{GivenFor};

use crate::answers::Answer;
use crate::hidden_texts::{hidden, set_hidden};
use class_table::ClassTable;
use jk_model::{DomainId, Value};
use object_store::ObjectStore;

/// A throwable gets the argument as its message.
pub(crate) fn set_message<H: ObjectStore>(
    heap: &mut H,
    t: &ClassTable,
    d: DomainId,
    throwable: u32,
    v: Value,
) -> Answer
    requires ready { IsReady (H.content heap.old) t.now d }
    requires given { GivenFor ((H.content heap.old).heap d) Means.SetsMessage (Held.Obj throwable ∷ v ∷ []) }
    ensures { Does (H.content heap.old) (H.content heap.new) t.now d Means.SetsMessage (Held.Obj throwable ∷ v ∷ []) (answer_of result) }
{
    set_hidden(heap, t, d, throwable, v);
    Ok(None)
}

/// The message itself.
pub(crate) fn message<H: ObjectStore>(
    heap: &H,
    t: &ClassTable,
    d: DomainId,
    throwable: u32,
) -> Answer
    requires ready { IsReady (H.content heap.now) t.now d }
    requires given { GivenFor ((H.content heap.now).heap d) Means.GetsMessage (Held.Obj throwable ∷ []) }
    ensures { Finds (H.content heap.now) d Means.GetsMessage (Held.Obj throwable ∷ []) (answer_of result) }
{
    match hidden(heap, t, d, throwable) {
        Some(text) => Ok(Some(Value::Obj(text))),
        None => Ok(Some(Value::Null)),
    }
}
