//! One value that passes from a domain to another, as a copy.

ghost use Rattle.std.specs.Prelude.{◌≡◌, ◌∷◌, []};
ghost use Rattle.graph_copy.specs.AskedOfCopies.{MayCopy};
ghost use Rattle.domain_crossing.specs.PassedValues.{PassesSo};

use domain_resolver::World;
use graph_copy::{CopyAnswer, copy};
use jk_model::{Args, DomainId, Value};
use object_store::ObjectStore;

/// What comes of a value that is to pass.
#[derive(Clone, Copy, Debug, PartialEq, Eq)]
pub(crate) enum Passed {
    /// It is this value where it arrives.
    As(Value),
    /// It leads to an object that may not be copied.
    Uncopiable,
    /// Its copy costs more words than are free.
    TooLarge,
}

/// Passes a value from one domain to another, or to the same. What names no object passes as itself. Where it doesn't pass, all is as
/// before. It takes no memory but the words of the copies.
pub(crate) fn pass<H: ObjectStore>(
    heap: &mut H,
    w: &World,
    from: DomainId,
    to: DomainId,
    v: Value,
) -> Passed
    requires { MayCopy (H.content heap.old) w.now from to (v ∷ []) }
    ensures { PassesSo (record { world = w.now; heap = H.content heap.old; from = from; to = to }) v result (H.content heap.new) }
{
    match v {
        Value::Obj(_) => pass_object(heap, w, from, to, v),
        _ => Passed::As(v),
    }
}

/// Passes a value from one domain to another, or to the same.
fn pass_object<H: ObjectStore>(
    heap: &mut H,
    w: &World,
    from: DomainId,
    to: DomainId,
    v: Value,
) -> Passed
    requires { MayCopy (H.content heap.old) w.now from to (v ∷ []) }
    ensures { PassesSo (record { world = w.now; heap = H.content heap.old; from = from; to = to }) v result (H.content heap.new) }
{
    let mut values = Args::new();
    values.put(v);
    match copy(heap, w, from, to, &mut values) {
        CopyAnswer::Copied => Passed::As(values.get(0)),
        CopyAnswer::NotCopiable(_) => Passed::Uncopiable,
        CopyAnswer::NoRoom(_) => Passed::TooLarge,
    }
}
