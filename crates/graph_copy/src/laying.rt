//! Empty copies. From here on the mark of a source leads to its copy, and the mark of a copy to the next source.

ghost use Rattle.std.specs.Prelude.{◌≡◌, ℕ, List};
ghost use Rattle.jk_model_domains.specs.Objects.{Object as AnObject};
ghost use Rattle.object_store.specs.HeapContents.{IsLive, MakesObject};
ghost use Rattle.graph_copy.specs.Laid.{empty_copy, Lays, LaysOne, MayLay, MayLayOne, MayMakeLike};
ghost use Rattle.graph_copy.specs.Queues.{IsNext, IsQueue, head_of};

use crate::marks::{link, next_of};
use class_table::ClassTable;
use jk_model::DomainId;
use object_store::ObjectStore;

/// Makes an object of the shape of another, for which there is room.
fn make_like<H: ObjectStore>(
    store: &mut H,
    t: &ClassTable,
    from: DomainId,
    to: DomainId,
    a: u32,
) -> u32
    requires { MayMakeLike (H.content store.old) t.now from to a }
    ensures { (object : AnObject) → IsLive (H.content store.old) from a object
        → MakesObject (H.content store.old) (H.content store.new) t.now to result (empty_copy t.now object) }
{
    let shape = store.shape(from, a);
    match store.make(t, to, shape) {
        Ok(b) => b,
        Err(_) => unreachable!(),
    }
}

/// Makes an empty copy of the object at the head of a queue, puts the two in front of a chain, and answers what stands behind the object.
fn lay_one<H: ObjectStore>(
    store: &mut H,
    t: &ClassTable,
    from: DomainId,
    to: DomainId,
    a: u32,
    first: Option<u32>,
) -> Option<u32>
    requires { MayLayOne (H.content store.old) t.now from to a first }
    ensures next { IsNext ((H.content store.old).mark from a) result }
    ensures laid { (object : AnObject) → IsLive (H.content store.old) from a object
        → LaysOne (H.content store.old) (H.content store.new) t.now from to a object first }
{
    let rest = next_of(store.mark(from, a));
    let b = make_like(store, t, from, to, a);
    store.set_mark(from, a, b + 1);
    store.set_mark(to, b, link(first));
    rest
}

/// Makes an empty copy of each object of a queue, and answers the first source of their chain.
pub(crate) fn lay<H: ObjectStore>(
    store: &mut H,
    t: &ClassTable,
    from: DomainId,
    to: DomainId,
    head: Option<u32>,
) -> Option<u32>
    requires { MayLay (H.content store.old) t.now from to head }
    ensures { (names : List ℕ) → IsQueue (H.content store.old) from names → head ≡ head_of names
        → Lays (H.content store.old) (H.content store.new) t.now from to names result }
{
    let mut next = head;
    let mut first = None;
    while let Some(a) = next {
        next = lay_one(store, t, from, to, a, first);
        first = Some(a);
    }
    first
}
