//! What a method of the system is given: its receiver, where it has one, and its arguments, which stand on top of the operand stack of
//! the frame that calls it.

ghost use Rattle.std.specs.Prelude.{◌≡◌, ◌≤◌, ℕ, ℤ, [], ◌∷◌, length, take};
ghost use Rattle.jk_model.specs.declared.identifiers.CapId.{CapId as ACapId};
ghost use Rattle.jk_model.specs.declared.values.Value.{Value as AValue};
ghost use Rattle.jk_model.specs.declared.values.Value.TheVariants as Held;
ghost use Rattle.system_calls.specs.GivenOnTop.{HasGiven, HasRoomAfter, IsGiven, PutsFor, TakesOff, given_count};

use frame_store::FrameStore;
use jk_model::{CapId, SegmentNo, Value};
use jk_model_system_rows::SystemMeaning;

/// How many values a method is given at most.
pub(crate) const MOST_GIVEN: usize = 5;

/// How many values a method of this meaning is given.
pub(crate) fn count_given(meaning: SystemMeaning) -> u16
    ensures { result ≡ given_count meaning }
{
    match meaning {
        SystemMeaning::NamesDomain => 0,
        SystemMeaning::CountsFreeWords => 0,
        SystemMeaning::TerminatesDomain => 0,
        SystemMeaning::GetsTask => 0,
        SystemMeaning::IsSame => 2,
        SystemMeaning::CharAt => 2,
        SystemMeaning::IsSameText => 2,
        SystemMeaning::Concat => 2,
        SystemMeaning::BufferInitialisesWith => 2,
        SystemMeaning::Appends(_) => 2,
        SystemMeaning::Prints(_) => 2,
        SystemMeaning::SetsMessage => 2,
        SystemMeaning::BindsName => 2,
        SystemMeaning::Substring => 3,
        SystemMeaning::CopiesArray => 5,
        _ => 1,
    }
}

/// Reads so many entries on top of a segment's operand stack, five at most, the lowest of them first. What is behind them is null.
pub(crate) fn read_given<F: FrameStore>(frames: &F, s: SegmentNo, count: u16) -> [Value; MOST_GIVEN]
    requires given { HasGiven (F.content frames.now) s count }
    requires few { count ≤ 5 }
    ensures given { IsGiven (F.content frames.now) s (take count result) }
    ensures many { length (take count result) ≡ count }
{
    let mut values = [Value::Null; MOST_GIVEN];
    for i in 0..count {
        values[usize::from(i)] = frames.peek(s, count - 1 - i);
    }
    values
}

/// Takes so many entries off the top.
pub(crate) fn drop_given<F: FrameStore>(frames: &mut F, s: SegmentNo, count: u16)
    requires { HasGiven (F.content frames.old) s count }
    ensures { TakesOff (F.content frames.old) (F.content frames.new) s count }
{
    for _i in 0..count {
        let _entry = frames.pop_value(s);
    }
}

/// Puts an answer, where there is one, in the place of so many entries on top.
pub(crate) fn put_answer<F: FrameStore>(
    frames: &mut F,
    s: SegmentNo,
    count: u16,
    answer: Option<Value>,
)
    requires given { HasGiven (F.content frames.old) s count }
    requires room { HasRoomAfter (F.content frames.old) s count answer }
    ensures { PutsFor (F.content frames.old) (F.content frames.new) s count answer }
{
    drop_given(frames, s, count);
    if let Some(v) = answer {
        frames.push_value(s, v);
    }
}

// ---- What is given, by its kinds.

/// The only value.
pub(crate) fn value_alone(given: &[Value]) -> Value
    requires { (v : AValue) × (given.now ≡ v ∷ []) }
    ensures { given.now ≡ result ∷ [] }
{
    given[0]
}

/// The only value, which is an object.
pub(crate) fn object_alone(given: &[Value]) -> u32
    requires { (a : ℕ) × (given.now ≡ Held.Obj a ∷ []) }
    ensures { given.now ≡ Held.Obj result ∷ [] }
{
    match given[0] {
        Value::Obj(a) => a,
        _ => unreachable!(),
    }
}

/// The only value, which is a capability.
pub(crate) fn capability_alone(given: &[Value]) -> CapId
    requires { (k : ACapId) × (given.now ≡ Held.Cap k ∷ []) }
    ensures { given.now ≡ Held.Cap result ∷ [] }
{
    match given[0] {
        Value::Cap(k) => k,
        _ => unreachable!(),
    }
}

/// Two values.
pub(crate) fn two_values(given: &[Value]) -> (Value, Value)
    requires { (v : AValue) × (w : AValue) × (given.now ≡ v ∷ w ∷ []) }
    ensures { given.now ≡ result.0 ∷ result.1 ∷ [] }
{
    (given[0], given[1])
}

/// An object and a value.
pub(crate) fn object_and_value(given: &[Value]) -> (u32, Value)
    requires { (a : ℕ) × (v : AValue) × (given.now ≡ Held.Obj a ∷ v ∷ []) }
    ensures { given.now ≡ Held.Obj result.0 ∷ result.1 ∷ [] }
{
    match given[0] {
        Value::Obj(a) => (a, given[1]),
        _ => unreachable!(),
    }
}

/// An object and two values.
pub(crate) fn object_and_two(given: &[Value]) -> (u32, Value, Value)
    requires { (a : ℕ) × (v : AValue) × (w : AValue) × (given.now ≡ Held.Obj a ∷ v ∷ w ∷ []) }
    ensures { given.now ≡ Held.Obj result.0 ∷ result.1 ∷ result.2 ∷ [] }
{
    match given[0] {
        Value::Obj(a) => (a, given[1], given[2]),
        _ => unreachable!(),
    }
}

/// Five values.
pub(crate) fn five_values(given: &[Value]) -> (Value, Value, Value, Value, Value)
    requires { length given.now ≡ 5 }
    ensures { given.now ≡ result.0 ∷ result.1 ∷ result.2 ∷ result.3 ∷ result.4 ∷ [] }
{
    (given[0], given[1], given[2], given[3], given[4])
}

/// An int.
pub(crate) fn int_of(v: Value) -> i32
    requires { (n : ℤ) × (v ≡ Held.Int n) }
    ensures { v ≡ Held.Int result }
{
    match v {
        Value::Int(n) => n,
        _ => unreachable!(),
    }
}
