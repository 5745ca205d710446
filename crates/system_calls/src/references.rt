//! `equals` of java/lang/Object.

ghost use Rattle.std.specs.Prelude.{◌≡◌, [], ◌∷◌};
ghost use Rattle.jk_model_domains.specs.NumberRows.{is_same_reference};
ghost use Rattle.jk_model_system_rows.specs.Answers.{gives_truth};
ghost use Rattle.system_calls.specs.DoneRows.{answer_of};

use crate::answers::Answer;
use jk_model::Value;

/// Whether the receiver and the argument are one object, or one capability.
pub(crate) fn is_same(receiver: Value, v: Value) -> Answer
    ensures { answer_of result ≡ gives_truth (is_same_reference receiver v) }
{
    let same = match (receiver, v) {
        (Value::Obj(a), Value::Obj(b)) => a == b,
        (Value::Cap(k), Value::Cap(l)) => k == l,
        (Value::Null, Value::Null) => true,
        _ => false,
    };
    Ok(Some(Value::Int(i32::from(same))))
}
