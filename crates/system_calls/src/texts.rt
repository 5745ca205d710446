//! The methods of java/lang/String. Each text that they answer is a new one.

ghost use Rattle.std.specs.Prelude.{◌≡◌, ◌+◌, ◌-◌, ◌<◌, ◌≤◌, ◌≢◌, ◌↔◌, IsTrue, ℕ, pos, List, [], ◌∷◌, MatchOption, length};
ghost use Rattle.jk_model.specs.declared.values.Value.TheVariants as Held;
ghost use Rattle.jk_model_system_rows.specs.declared.meanings.SystemMeaning.TheVariants as Means;
ghost use Rattle.jk_model_system_rows.specs.Texts.{is_equal_text};
ghost use Rattle.object_store.specs.HeapContents.{IsName};
ghost use Rattle.heap_loops.specs.TextChanges.{HasUnits};
ghost use Rattle.jk_model_domains.specs.Objects.{Text};
ghost use Rattle.object_store.specs.HeapContents.{IsLive};
ghost use Rattle.system_calls.specs.DoneRows.{Does, Finds, IsReady, answer_of};
ghost use Rattle.row_laws.specs.GivenValues.{GivenFor};

use crate::answers::{Answer, NO_MEMORY};
use crate::new_texts::joined;
use crate::units::{have_same_units, unit_at};
use crate::wordings::{Wording, wording_of};
use class_table::ClassTable;
use heap_loops::{copy_units, text_len};
use jk_model::{DomainId, Raise, Value};
use jk_model_heaps::Shape;
use jk_model_heaps::system_classes::{NULL_POINTER_EXCEPTION, STRING_INDEX_EXCEPTION};
use jk_model_system_rows::Shown;
use object_store::ObjectStore;

/// What is raised at a place that a text doesn't have.
const OUTSIDE: Raise = Raise::Fresh(STRING_INDEX_EXCEPTION);

/// The place that an int names in something of this length; none where it has no such place.
fn place_in(place: i32, len: u32) -> Option<u32>
    ensures { MatchOption result ((n : ℕ) → place ≡ pos n → len ≤ n) (λ i. (place ≡ pos i) × (i < len)) }
{
    if place < 0 {
        return None;
    }
    let i = place as u32;
    if i < len { Some(i) } else { None }
}

/// The places from `begin` up to `end` of something of this length: the first of them, and how many they are. None unless
/// `0 <= begin <= end <= len`.
fn places_between(begin: i32, end: i32, len: u32) -> Option<(u32, u32)>
    ensures { MatchOption result ((b e : ℕ) → begin ≡ pos b → end ≡ pos e → b ≤ e → len < e)
        (λ places. (begin ≡ pos places.0) × (end ≡ pos (places.0 + places.1)) × (places.0 + places.1 ≤ len)) }
{
    if begin < 0 || end < begin {
        return None;
    }
    let first = begin as u32;
    let after = end as u32;
    if after <= len {
        Some((first, after - first))
    } else {
        None
    }
}

/// How many units a text has.
pub(crate) fn text_length<H: ObjectStore>(heap: &H, d: DomainId, text: u32) -> Answer
    requires { GivenFor ((H.content heap.now).heap d) Means.TextLength (Held.Obj text ∷ []) }
    ensures { Finds (H.content heap.now) d Means.TextLength (Held.Obj text ∷ []) (answer_of result) }
{
    Ok(Some(Value::Int(text_len(heap, d, text) as i32)))
}

/// The unit of a text at a place. StringIndexOutOfBoundsException is raised where there is none.
pub(crate) fn char_at<H: ObjectStore>(
    heap: &H,
    t: &ClassTable,
    d: DomainId,
    text: u32,
    place: i32,
) -> Answer
    requires { GivenFor ((H.content heap.now).heap d) Means.CharAt (Held.Obj text ∷ Held.Int place ∷ []) }
    ensures { Finds (H.content heap.now) d Means.CharAt (Held.Obj text ∷ Held.Int place ∷ []) (answer_of result) }
{
    match place_in(place, text_len(heap, d, text)) {
        Some(i) => Ok(Some(Value::Int(i32::from(unit_at(heap, t, d, text, i))))),
        None => Err(OUTSIDE),
    }
}

/// Whether a value is a text of the same units as a text.
pub(crate) fn is_same_text<H: ObjectStore>(
    heap: &H,
    t: &ClassTable,
    d: DomainId,
    text: u32,
    v: Value,
) -> Answer
    requires given { GivenFor ((H.content heap.now).heap d) Means.IsSameText (Held.Obj text ∷ v ∷ []) }
    requires known { (a : ℕ) → v ≡ Held.Obj a → IsName (H.content heap.now) d a }
    ensures { Finds (H.content heap.now) d Means.IsSameText (Held.Obj text ∷ v ∷ []) (answer_of result) }
{
    let same = match v {
        Value::Obj(other) => are_equal(heap, t, d, text, other),
        _ => false,
    };
    Ok(Some(Value::Int(i32::from(same))))
}

/// Whether an object is a text of the same units as a text.
fn are_equal<H: ObjectStore>(heap: &H, t: &ClassTable, d: DomainId, text: u32, other: u32) -> bool
    requires text { HasUnits (H.content heap.now) d text 0 }
    requires name { IsName (H.content heap.now) d other }
    ensures { (units : List ℕ) → IsLive (H.content heap.now) d text (Text units)
        → result ≡ is_equal_text ((H.content heap.now).heap d) units (Held.Obj other) }
{
    match heap.shape(d, other) {
        Shape::Text(len) => {
            len == text_len(heap, d, text) && have_same_units(heap, t, d, text, other, len)
        }
        _ => false,
    }
}

/// A new text: the units of a text, and after them those of another. NullPointerException is raised where the other is null.
pub(crate) fn concat<H: ObjectStore>(
    heap: &mut H,
    t: &ClassTable,
    d: DomainId,
    text: u32,
    v: Value,
) -> Answer
    requires ready { IsReady (H.content heap.old) t.now d }
    requires given { GivenFor ((H.content heap.old).heap d) Means.Concat (Held.Obj text ∷ v ∷ []) }
    ensures { Does (H.content heap.old) (H.content heap.new) t.now d Means.Concat (Held.Obj text ∷ v ∷ []) (answer_of result) }
{
    match v {
        Value::Obj(other) => match joined(heap, t, d, Some(text), &Wording::Text(other)) {
            Ok(a) => Ok(Some(Value::Obj(a))),
            Err(_) => Err(NO_MEMORY),
        },
        Value::Null => Err(Raise::Fresh(NULL_POINTER_EXCEPTION)),
        _ => unreachable!(),
    }
}

/// A new text: the units of a text from a place up to another. StringIndexOutOfBoundsException is raised where the places are out of
/// order, below 0 or past the end.
pub(crate) fn substring<H: ObjectStore>(
    heap: &mut H,
    t: &ClassTable,
    d: DomainId,
    text: u32,
    begin: i32,
    end: i32,
) -> Answer
    requires ready { IsReady (H.content heap.old) t.now d }
    requires given { GivenFor ((H.content heap.old).heap d) Means.Substring (Held.Obj text ∷ Held.Int begin ∷ Held.Int end ∷ []) }
    ensures { Does (H.content heap.old) (H.content heap.new) t.now d Means.Substring (Held.Obj text ∷ Held.Int begin ∷ Held.Int end ∷ [])
        (answer_of result) }
{
    let len = text_len(heap, d, text);
    let Some((first, count)) = places_between(begin, end, len) else {
        return Err(OUTSIDE);
    };
    match heap.make(t, d, Shape::Text(count)) {
        Ok(a) => {
            copy_units(heap, t, d, text, first, a, 0, count);
            Ok(Some(Value::Obj(a)))
        }
        Err(_) => Err(NO_MEMORY),
    }
}

/// A new text: what a value reads as.
pub(crate) fn value_of<H: ObjectStore>(
    heap: &mut H,
    t: &ClassTable,
    d: DomainId,
    shown: Shown,
    v: Value,
) -> Answer
    requires ready { IsReady (H.content heap.old) t.now d }
    requires given { GivenFor ((H.content heap.old).heap d) (Means.TextOf shown) (v ∷ []) }
    ensures { Does (H.content heap.old) (H.content heap.new) t.now d (Means.TextOf shown) (v ∷ []) (answer_of result) }
{
    match joined(heap, t, d, None, &wording_of(shown, v)) {
        Ok(a) => Ok(Some(Value::Obj(a))),
        Err(_) => Err(NO_MEMORY),
    }
}
