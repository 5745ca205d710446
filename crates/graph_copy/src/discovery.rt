//! What is reached from the given values. The objects that are met stand on two queues: those whose values are still to be walked over,
//! and those that are done.

ghost use Rattle.std.specs.Prelude.{Some};
ghost use Rattle.jk_model_domains.specs.Objects.{Object as AnObject};
ghost use Rattle.jk_model_graphs.specs.Followed.{followed};
ghost use Rattle.object_store.specs.HeapContents.{IsLive};
ghost use Rattle.graph_copy.specs.AskedOfCopies.{MayCopy};
ghost use Rattle.graph_copy.specs.Discovered.{Discovers, walk_of};
ghost use Rattle.graph_copy.specs.Finished.{Finishes, HasQueues};
ghost use Rattle.graph_copy.specs.Kinds.{IsKindOf};
ghost use Rattle.graph_copy.specs.Places.{IsWalked};
ghost use Rattle.graph_copy.specs.Visited.{Visits};

use crate::judge::passes;
use crate::kinds::{Kind, kind_of};
use crate::marks::{link, next_of};
use crate::meeting::{meet_given, meet_places};
use class_table::ClassTable;
use domain_resolver::World;
use jk_model::{Args, DomainId};
use jk_model_heaps::Shape;
use object_store::ObjectStore;

/// Puts the object at the head of the first queue at the head of the second, and answers what stood behind it.
fn finish<H: ObjectStore>(store: &mut H, d: DomainId, a: u32, done: Option<u32>) -> Option<u32>
    requires { HasQueues (H.content store.old) d (Some a) done }
    ensures { Finishes (H.content store.old) (H.content store.new) d a done result }
{
    let rest = next_of(store.mark(d, a));
    store.set_mark(d, a, link(done));
    rest
}

/// Goes over the object at the head of the first queue, whose shape and kind these are: it is done then, and what it leads to is met. The answer is
/// the head of the first queue.
pub(crate) fn visit<H: ObjectStore>(
    store: &mut H,
    t: &ClassTable,
    d: DomainId,
    a: u32,
    shape: &Shape,
    kind: &Kind,
    done: Option<u32>,
) -> Option<u32>
    requires queues { HasQueues (H.content store.old) d (Some a) done }
    requires walked { IsWalked (H.content store.old) t.now d a shape.now }
    requires kind { IsKindOf t.now shape.now kind.now }
    ensures { (object : AnObject) → IsLive (H.content store.old) d a object
        → Visits (H.content store.old) (H.content store.new) d a (followed t.now object) done result }
{
    let rest = finish(store, d, a, done);
    meet_places(store, t, d, a, shape, kind, rest)
}

/// What was found. Each object that was met is on one of the two queues, and each other object has the mark 0.
#[derive(Clone, Copy)]
pub(crate) struct Found {
    /// The head of the queue of objects that are done.
    pub(crate) done: Option<u32>,
    /// That of the queue of those that aren't. There is none where nothing was refused.
    pub(crate) todo: Option<u32>,
    /// What the objects that are done cost together, in words.
    pub(crate) sum: u64,
    /// An object that may not be copied, the first that was found.
    pub(crate) refused: Option<u32>,
}

/// Goes over what is reached from the values, up to the first object that may not be copied. It takes time in proportion to the words
/// of these objects.
pub(crate) fn discover<H: ObjectStore>(
    store: &mut H,
    w: &World,
    from: DomainId,
    to: DomainId,
    values: &Args,
) -> Found
    requires { MayCopy (H.content store.old) w.now from to values.now }
    ensures { Discovers (H.content store.old) (H.content store.new) (walk_of w.now from to values.now) result }
{
    let t = w.classes();
    let mut todo = meet_given(store, from, values);
    let mut done = None;
    let mut sum = 0u64;
    let mut last = None;
    while let Some(a) = todo {
        let shape = store.shape(from, a);
        if !passes(w, from, to, &shape, &last) {
            return Found {
                done,
                todo,
                sum,
                refused: Some(a),
            };
        }
        let kind = kind_of(t, &shape, &mut last);
        todo = visit(store, t, from, a, &shape, &kind, done);
        done = Some(a);
        sum += kind.words;
    }
    Found {
        done,
        todo,
        sum,
        refused: None,
    }
}
