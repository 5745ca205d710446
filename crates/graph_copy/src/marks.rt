//! Queues of objects, linked through their marks. An object that is on no queue has the mark 0. Of a queue the last object has a mark
//! of its own, and each other one the name of the next and 1. A queue changes at its head alone. Sources and their copies make a chain:
//! the mark of a source is the name of its copy and 1, and that of a copy leads to the next source as in a queue.

ghost use Rattle.std.specs.Prelude.{◌≡◌, ℕ, ⊤, ◌-◌, ◌^◌, ◌<◌, List, MatchOption};
ghost use Rattle.object_store.specs.HeapContents.{IsName};
ghost use Rattle.graph_copy.specs.Chains.{ForgetsPairs, HasChain, IsChain, first_source};
ghost use Rattle.graph_copy.specs.Queues.{Forgets, HasQueue, IsNext, IsQueue, head_of, link_to};

use jk_model::DomainId;
use object_store::ObjectStore;

/// The mark of a queue's last object. Names are below 2^30.
const LAST: u32 = u32::MAX;

/// The mark of an object, by the one behind it.
pub(crate) fn link(next: Option<u32>) -> u32
    requires { MatchOption next ⊤ (λ a. a < 2 ^ 30) }
    ensures { result ≡ link_to next }
{
    match next {
        Some(a) => a + 1,
        None => LAST,
    }
}

/// What stands behind an object of this mark.
pub(crate) fn next_of(mark: u32) -> Option<u32>
    requires { 0 < mark }
    ensures { IsNext mark result }
{
    if mark == LAST { None } else { Some(mark - 1) }
}

/// Sets the marks of a queue's objects to 0. It takes one step for each.
pub(crate) fn forget<H: ObjectStore>(store: &mut H, d: DomainId, head: Option<u32>)
    requires { HasQueue (H.content store.old) d head }
    ensures { (names : List ℕ) → IsQueue (H.content store.old) d names → head ≡ head_of names
        → Forgets (H.content store.old) (H.content store.new) d names }
{
    let mut next = head;
    while let Some(a) = next {
        next = next_of(store.mark(d, a));
        store.set_mark(d, a, 0);
    }
}

/// The copy to which the mark of a source leads.
pub(crate) fn copy_of<H: ObjectStore>(store: &H, from: DomainId, a: u32) -> u32
    requires named { IsName (H.content store.now) from a }
    requires marked { 0 < (H.content store.now).mark from a }
    ensures { result ≡ (H.content store.now).mark from a - 1 }
{
    store.mark(from, a) - 1
}

/// Sets the marks of the sources and copies of a chain to 0. It takes one step for each pair.
pub(crate) fn forget_pairs<H: ObjectStore>(
    store: &mut H,
    from: DomainId,
    to: DomainId,
    first: Option<u32>,
)
    requires { HasChain (H.content store.old) from to first }
    ensures { (pairs : List (ℕ × ℕ)) → IsChain (H.content store.old) from to pairs → first ≡ first_source pairs
        → ForgetsPairs (H.content store.old) (H.content store.new) from to pairs }
{
    let mut next = first;
    while let Some(a) = next {
        let b = copy_of(store, from, a);
        next = next_of(store.mark(to, b));
        store.set_mark(from, a, 0);
        store.set_mark(to, b, 0);
    }
}
