//! The methods of java/lang/StringBuffer and java/lang/StringBuilder. A buffer is an object with one hidden field, which has its
//! text. Where that is null, the text counts as an empty one.

ghost use Rattle.std.specs.Prelude.{[], ◌∷◌};
ghost use Rattle.jk_model.specs.declared.values.Value.TheVariants as Held;
ghost use Rattle.jk_model_system_rows.specs.declared.meanings.SystemMeaning.TheVariants as Means;
ghost use Rattle.system_calls.specs.DoneRows.{Does, Finds, IsReady, answer_of};
ghost use Rattle.row_laws.specs.GivenValues.{GivenFor};

use crate::answers::{Answer, NO_MEMORY};
use crate::hidden_texts::{hidden, set_hidden};
use crate::new_texts::{joined, len_of};
use crate::wordings::wording_of;
use class_table::ClassTable;
use jk_model::{DomainId, Raise, Value};
use jk_model_heaps::Shape;
use jk_model_heaps::system_classes::NULL_POINTER_EXCEPTION;
use jk_model_system_rows::Shown;
use object_store::ObjectStore;

/// A buffer begins with a new empty text.
pub(crate) fn begin<H: ObjectStore>(
    heap: &mut H,
    t: &ClassTable,
    d: DomainId,
    buffer: u32,
) -> Answer
    requires ready { IsReady (H.content heap.old) t.now d }
    requires given { GivenFor ((H.content heap.old).heap d) Means.BufferInitialises (Held.Obj buffer ∷ []) }
    ensures { Does (H.content heap.old) (H.content heap.new) t.now d Means.BufferInitialises (Held.Obj buffer ∷ []) (answer_of result) }
{
    match heap.make(t, d, Shape::Text(0)) {
        Ok(a) => {
            set_hidden(heap, t, d, buffer, Value::Obj(a));
            Ok(None)
        }
        Err(_) => Err(NO_MEMORY),
    }
}

/// A buffer begins with the argument itself. NullPointerException is raised where it is null.
pub(crate) fn begin_with<H: ObjectStore>(
    heap: &mut H,
    t: &ClassTable,
    d: DomainId,
    buffer: u32,
    v: Value,
) -> Answer
    requires ready { IsReady (H.content heap.old) t.now d }
    requires given { GivenFor ((H.content heap.old).heap d) Means.BufferInitialisesWith (Held.Obj buffer ∷ v ∷ []) }
    ensures { Does (H.content heap.old) (H.content heap.new) t.now d Means.BufferInitialisesWith (Held.Obj buffer ∷ v ∷ []) (answer_of result) }
{
    match v {
        Value::Null => Err(Raise::Fresh(NULL_POINTER_EXCEPTION)),
        text => {
            set_hidden(heap, t, d, buffer, text);
            Ok(None)
        }
    }
}

/// How many units a buffer's text has.
pub(crate) fn buffer_length<H: ObjectStore>(
    heap: &H,
    t: &ClassTable,
    d: DomainId,
    buffer: u32,
) -> Answer
    requires ready { IsReady (H.content heap.now) t.now d }
    requires given { GivenFor ((H.content heap.now).heap d) Means.BufferLength (Held.Obj buffer ∷ []) }
    ensures { Finds (H.content heap.now) d Means.BufferLength (Held.Obj buffer ∷ []) (answer_of result) }
{
    let text = hidden(heap, t, d, buffer);
    Ok(Some(Value::Int(len_of(heap, d, text) as i32)))
}

/// A buffer's text itself, or, where that is null, a new empty one, which the buffer doesn't get.
pub(crate) fn buffer_text<H: ObjectStore>(
    heap: &mut H,
    t: &ClassTable,
    d: DomainId,
    buffer: u32,
) -> Answer
    requires ready { IsReady (H.content heap.old) t.now d }
    requires given { GivenFor ((H.content heap.old).heap d) Means.BufferText (Held.Obj buffer ∷ []) }
    ensures { Does (H.content heap.old) (H.content heap.new) t.now d Means.BufferText (Held.Obj buffer ∷ []) (answer_of result) }
{
    if let Some(text) = hidden(heap, t, d, buffer) {
        return Ok(Some(Value::Obj(text)));
    }
    match heap.make(t, d, Shape::Text(0)) {
        Ok(a) => Ok(Some(Value::Obj(a))),
        Err(_) => Err(NO_MEMORY),
    }
}

/// A buffer gets a new text: its own and after it what a value reads as. The buffer itself is answered.
pub(crate) fn append<H: ObjectStore>(
    heap: &mut H,
    t: &ClassTable,
    d: DomainId,
    shown: Shown,
    buffer: u32,
    v: Value,
) -> Answer
    requires ready { IsReady (H.content heap.old) t.now d }
    requires given { GivenFor ((H.content heap.old).heap d) (Means.Appends shown) (Held.Obj buffer ∷ v ∷ []) }
    ensures { Does (H.content heap.old) (H.content heap.new) t.now d (Means.Appends shown) (Held.Obj buffer ∷ v ∷ []) (answer_of result) }
{
    let front = hidden(heap, t, d, buffer);
    match joined(heap, t, d, front, &wording_of(shown, v)) {
        Ok(a) => {
            set_hidden(heap, t, d, buffer, Value::Obj(a));
            Ok(Some(Value::Obj(buffer)))
        }
        Err(_) => Err(NO_MEMORY),
    }
}
