//! New texts, made of texts and wordings.

ghost use Rattle.std.specs.Prelude.{◌≡◌, ◌+◌, ◌<◌, ◌≤◌, ◌++◌, ℕ, List, IfOk, OnErr, OnOk, length};
ghost use Rattle.jk_model_domains.specs.Objects.{Text};
ghost use Rattle.object_store.specs.HeapContents.{IsAdmitted, IsSame, MakesObject, words_left};
ghost use Rattle.heap_loops.specs.TextChanges.{HasUnits, WritesUnits};
ghost use Rattle.system_calls.specs.Wordings.{IsFrontOf, IsNotFront, IsWorded};

use crate::wordings::{Wording, wording_len, write_wording};
use class_table::ClassTable;
use heap_loops::{copy_units, text_len};
use jk_model::{DomainId, NoRoom};
use jk_model_heaps::Shape;
use object_store::ObjectStore;

/// How many units a text has; 0 where there is none.
pub(crate) fn len_of<H: ObjectStore>(heap: &H, d: DomainId, text: Option<u32>) -> u32
    requires { (units : List ℕ) × IsFrontOf ((H.content heap.now).heap d) text units }
    ensures len { (units : List ℕ) → IsFrontOf ((H.content heap.now).heap d) text units → result ≡ length units }
    ensures few { result ≤ 16777216 }
{
    match text {
        Some(a) => text_len(heap, d, a),
        None => 0,
    }
}

/// Sets the first units of a text that is another one to those of a text, where there is one. They have room there.
fn begin_text<H: ObjectStore>(
    heap: &mut H,
    t: &ClassTable,
    d: DomainId,
    front: Option<u32>,
    target: u32,
)
    requires front { (units : List ℕ) × IsFrontOf ((H.content heap.old).heap d) front units × HasUnits (H.content heap.old) d target (length units) }
    requires beside { IsNotFront front target }
    ensures { (units : List ℕ) → IsFrontOf ((H.content heap.old).heap d) front units
        → WritesUnits (H.content heap.old) (H.content heap.new) d target 0 units }
{
    if let Some(a) = front {
        let count = text_len(heap, d, a);
        copy_units(heap, t, d, a, 0, target, 0, count);
    }
}

/// Makes a text: the units of a text, or none, and after them those of a wording. It fails exactly where the text costs more words
/// than are free, and then all is as before.
pub(crate) fn joined<H: ObjectStore>(
    heap: &mut H,
    t: &ClassTable,
    d: DomainId,
    front: Option<u32>,
    back: &Wording,
) -> Result<u32, NoRoom>
    requires admitted { IsAdmitted (H.content heap.old) d }
    requires front { (units : List ℕ) × IsFrontOf ((H.content heap.old).heap d) front units }
    requires back { (text : List ℕ) × IsWorded ((H.content heap.old).heap d) back.now text }
    ensures ok { (units text : List ℕ) → IsFrontOf ((H.content heap.old).heap d) front units → IsWorded ((H.content heap.old).heap d) back.now text
        → IfOk result (λ a. MakesObject (H.content heap.old) (H.content heap.new) t.now d a (Text (units ++ text))) }
    ensures err { OnErr result (IsSame (H.content heap.old) (H.content heap.new)) }
    ensures room { (units text : List ℕ) → IsFrontOf ((H.content heap.old).heap d) front units → IsWorded ((H.content heap.old).heap d) back.now text
        → OnOk result (4 + length (units ++ text) ≤ words_left (H.content heap.old) d) }
    ensures no_room { (units text : List ℕ) → IsFrontOf ((H.content heap.old).heap d) front units → IsWorded ((H.content heap.old).heap d) back.now text
        → OnErr result (words_left (H.content heap.old) d < 4 + length (units ++ text)) }
{
    let front_len = len_of(heap, d, front);
    let back_len = wording_len(heap, d, back);
    let text = heap.make(t, d, Shape::Text(front_len + back_len))?;
    begin_text(heap, t, d, front, text);
    write_wording(heap, t, d, back, text, front_len);
    Ok(text)
}
