//! `parseInt` of java/lang/Integer.

ghost use Rattle.std.specs.Prelude.{◌≡◌, ◌+◌, ◌*◌, IfSome, option_and_then, ◌-◌, ◌≤◌, ◌&&◌, ℕ, List, [], ◌∷◌, Some, None, drop, length, nat_le, if◌then◌else◌};
ghost use Rattle.jk_model.specs.declared.values.Value.TheVariants as Held;
ghost use Rattle.jk_model.specs.ScriptGrammar.{is_digit};
ghost use Rattle.jk_model_domains.specs.Objects.{Text};
ghost use Rattle.jk_model_system_rows.specs.declared.meanings.SystemMeaning.TheVariants as Means;
ghost use Rattle.jk_model_system_rows.specs.ParsedNumbers.{parsed, int_above, int_below};
ghost use Rattle.heap_loops.specs.TextChanges.{HasUnits};
ghost use Rattle.object_store.specs.HeapContents.{IsLive};
ghost use Rattle.system_calls.specs.DoneRows.{Finds, answer_of};
ghost use Rattle.row_laws.specs.GivenValues.{GivenFor};
ghost use Rattle.system_calls.specs.Magnitudes.{capped_value, int_of_sign};

use crate::answers::Answer;
use crate::units::unit_at;
use class_table::ClassTable;
use heap_loops::text_len;
use jk_model::{DomainId, Raise, Value};
use jk_model_heaps::system_classes::NUMBER_FORMAT_EXCEPTION;
use object_store::ObjectStore;

/// The unit of `-`.
const MINUS: u16 = 0x2d;

/// The greatest magnitude of an int: 2^31.
const MOST: u64 = 2_147_483_648;

/// The int that a value writes: an optional `-`, then one ASCII digit or more, in range. All else, null too, raises
/// NumberFormatException.
pub(crate) fn parse_int<H: ObjectStore>(heap: &H, t: &ClassTable, d: DomainId, v: Value) -> Answer
    requires { GivenFor ((H.content heap.now).heap d) Means.ParsesInt (v ∷ []) }
    ensures { Finds (H.content heap.now) d Means.ParsesInt (v ∷ []) (answer_of result) }
{
    let number = match v {
        Value::Obj(text) => int_in(heap, t, d, text),
        _ => None,
    };
    match number {
        Some(n) => Ok(Some(Value::Int(n))),
        None => Err(Raise::Fresh(NUMBER_FORMAT_EXCEPTION)),
    }
}

/// The int that a text writes. It takes time in proportion to the text.
fn int_in<H: ObjectStore>(heap: &H, t: &ClassTable, d: DomainId, text: u32) -> Option<i32>
    requires { HasUnits (H.content heap.now) d text 0 }
    ensures { (units : List ℕ) → IsLive (H.content heap.now) d text (Text units) → result ≡ parsed units }
{
    let len = text_len(heap, d, text);
    if len == 0 {
        return None;
    }
    if unit_at(heap, t, d, text, 0) == MINUS {
        signed_in(heap, t, d, text, 1, len, true)
    } else {
        signed_in(heap, t, d, text, 0, len, false)
    }
}

/// The int of a sign and of the digits of a text from a place up to its end.
fn signed_in<H: ObjectStore>(
    heap: &H,
    t: &ClassTable,
    d: DomainId,
    text: u32,
    from: u32,
    len: u32,
    is_negative: bool,
) -> Option<i32>
    requires units { HasUnits (H.content heap.now) d text len }
    requires within { from ≤ len }
    ensures { (units : List ℕ) → IsLive (H.content heap.now) d text (Text units) → length units ≡ len
        → result ≡ option_and_then (int_of_sign is_negative) (capped_value (drop from units)) }
{
    match magnitude_in(heap, t, d, text, from, len) {
        Some(magnitude) => int_of(is_negative, magnitude),
        None => None,
    }
}

/// The number that the digits of a text write from a place up to its end. None where there is no digit, where one of the units is none,
/// and where the number is above 2^31.
fn magnitude_in<H: ObjectStore>(
    heap: &H,
    t: &ClassTable,
    d: DomainId,
    text: u32,
    from: u32,
    len: u32,
) -> Option<u64>
    requires units { HasUnits (H.content heap.now) d text len }
    requires within { from ≤ len }
    ensures read { (units : List ℕ) → IsLive (H.content heap.now) d text (Text units) → length units ≡ len → result ≡ capped_value (drop from units) }
    ensures few { IfSome result (λ magnitude. magnitude ≤ 2147483648) }
{
    if from == len {
        return None;
    }
    let mut magnitude = 0;
    for i in from..len {
        let Some(more) = with_digit(magnitude, unit_at(heap, t, d, text, i)) else {
            return None;
        };
        magnitude = more;
    }
    Some(magnitude)
}

/// A number with one more digit. None where the unit is no digit, and where the number is above 2^31 then.
fn with_digit(n: u64, unit: u16) -> Option<u64>
    requires { n ≤ 2147483648 }
    ensures { result ≡ (if is_digit unit && nat_le (n * 10 + (unit - 48)) 2147483648 then Some (n * 10 + (unit - 48)) else None) }
{
    match unit {
        0x30..=0x39 => {
            let more = n * 10 + u64::from(unit - 0x30);
            if more <= MOST { Some(more) } else { None }
        }
        _ => None,
    }
}

/// The int of a sign and a magnitude; none where it is out of range.
fn int_of(is_negative: bool, magnitude: u64) -> Option<i32>
    requires { magnitude ≤ 2147483648 }
    ensures { result ≡ int_of_sign is_negative magnitude }
{
    let n = magnitude as i64;
    let n = if is_negative { -n } else { n };
    i32::try_from(n).ok()
}
