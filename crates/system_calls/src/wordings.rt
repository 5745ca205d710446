//! What a value reads as, where it is printed, added to a text or made a text of.

ghost use Rattle.std.specs.Prelude.{◌≡◌, ◌≢◌, ◌+◌, ◌≤◌, ℕ, List, length};
ghost use Rattle.jk_model_domains.specs.Objects.{NamedObject};
ghost use Rattle.jk_model_system_rows.specs.Texts.{ReadsAs};
ghost use Rattle.heap_loops.specs.TextChanges.{HasUnits, WritesUnits};
ghost use Rattle.object_store.specs.HeapContents.{HeapContent};
ghost use Rattle.row_laws.specs.GivenValues.{HasWording};
ghost use Rattle.system_calls.specs.Wordings.{IsBeside, IsWorded};

use crate::short_texts::{ShortText, null_text, number_text, truth_text, unit_text};
use class_table::ClassTable;
use heap_loops::{copy_units, text_len, write_units};
use jk_model::{DomainId, Value};
use jk_model_system_rows::Shown;
use object_store::ObjectStore;

/// What a value reads as.
#[derive(Clone, Copy)]
pub(crate) enum Wording {
    /// These units.
    Short(ShortText),
    /// The units of the text of this name in the running domain's heap.
    Text(u32),
}

/// What a value reads as that is written out so. A char counts by its low 16 bits, a truth value by its lowest bit.
pub(crate) fn wording_of(shown: Shown, v: Value) -> Wording
    requires { (heap : List NamedObject) × HasWording heap shown v }
    ensures { (heap : List NamedObject) (text : List ℕ) → ReadsAs heap shown v text → IsWorded heap result text }
{
    match (shown, v) {
        (Shown::Text, Value::Obj(a)) => Wording::Text(a),
        (Shown::Text, Value::Null) => Wording::Short(null_text()),
        (Shown::Int, Value::Int(n)) => Wording::Short(number_text(i64::from(n))),
        (Shown::Long, Value::Long(n)) => Wording::Short(number_text(n)),
        (Shown::Char, Value::Int(n)) => {
            Wording::Short(unit_text((n.cast_unsigned() % 65536) as u16))
        }
        (Shown::Truth, Value::Int(n)) => Wording::Short(truth_text(n.cast_unsigned() % 2 == 1)),
        _ => unreachable!(),
    }
}

/// How many units a wording has.
pub(crate) fn wording_len<H: ObjectStore>(heap: &H, d: DomainId, said: &Wording) -> u32
    requires { (text : List ℕ) × IsWorded ((H.content heap.now).heap d) said.now text }
    ensures len { (text : List ℕ) → IsWorded ((H.content heap.now).heap d) said.now text → result ≡ length text }
    ensures few { result ≤ 16777216 }
{
    match said {
        Wording::Short(text) => text.as_slice().len() as u32,
        Wording::Text(a) => text_len(heap, d, *a),
    }
}

/// Writes a wording into a text that is another one, from a place on. There it has room.
pub(crate) fn write_wording<H: ObjectStore>(
    heap: &mut H,
    t: &ClassTable,
    d: DomainId,
    said: &Wording,
    target: u32,
    from: u32,
)
    requires words { (text : List ℕ) × IsWorded ((H.content heap.old).heap d) said.now text × HasUnits (H.content heap.old) d target (from + length text) }
    requires beside { IsBeside said.now target }
    ensures { (text : List ℕ) → IsWorded ((H.content heap.old).heap d) said.now text
        → WritesUnits (H.content heap.old) (H.content heap.new) d target from text }
{
    match said {
        Wording::Short(text) => write_units(heap, t, d, target, from, text.as_slice()),
        Wording::Text(a) => {
            let count = text_len(heap, d, *a);
            copy_units(heap, t, d, *a, 0, target, from, count);
        }
    }
}
