//! Copies, and what a copy would answer.

ghost use Rattle.std.specs.Prelude.{◌≡◌, ◌≢◌};
ghost use Rattle.object_store.specs.HeapContents.{HeapContent, IsSame};
ghost use Rattle.graph_copy.specs.AnswersTold.{IsTold};
ghost use Rattle.graph_copy.specs.AskedOfCopies.{MayCopy};
ghost use Rattle.graph_copy.specs.CopiedAll.{IsAllFound};
ghost use Rattle.graph_copy.specs.CopyAnswers.{Copies, CopyAnswers};

use crate::answers::CopyAnswer;
use crate::discovery::discover;
use crate::filling::{fill, replace};
use crate::laying::lay;
use crate::marks::{forget, forget_pairs};
use domain_resolver::World;
use jk_model::{Args, DomainId};
use object_store::ObjectStore;

/// Copies what is reached from the values, all of it in the heap of one domain, into the heap of another or into the same, and replaces
/// the values by their copies. With any other answer than `Copied` all is as before. It takes no memory but the words of the copies, and
/// time in proportion to the words that it reaches, and for each object to the classes and interfaces above its own.
pub fn copy<H: ObjectStore>(
    store: &mut H,
    w: &World,
    from: DomainId,
    to: DomainId,
    values: &mut Args,
) -> CopyAnswer
    requires may { MayCopy (H.content store.old) w.now from to values.old }
    ensures answer { CopyAnswers (H.content store.old) w.now from to values.old result }
    ensures copied { result ≡ CopyAnswer.Copied
        → Copies (H.content store.old) (H.content store.new) w.now.classes from to values.old values.new }
    ensures as_before { result ≢ CopyAnswer.Copied → IsSame (H.content store.old) (H.content store.new) × (values.new ≡ values.old) }
{
    let found = discover(store, w, from, to, values);
    let answer = answer_of(found.refused, found.sum, store.free(to));
    if let CopyAnswer::Copied = answer {
        copy_all(store, w, from, to, found.done, values);
        return answer;
    }
    forget(store, from, found.todo);
    forget(store, from, found.done);
    answer
}

/// Copies the objects of a queue, which are all that is reached from the values, and for which there is room, and replaces the values.
fn copy_all<H: ObjectStore>(
    store: &mut H,
    w: &World,
    from: DomainId,
    to: DomainId,
    head: Option<u32>,
    values: &mut Args,
)
    requires { (c : HeapContent) × IsAllFound c (H.content store.old) w.now from to values.old head }
    ensures { (c : HeapContent) → IsAllFound c (H.content store.old) w.now from to values.old head
        → Copies c (H.content store.new) w.now.classes from to values.old values.new }
{
    let t = w.classes();
    let first = lay(store, t, from, to, head);
    fill(store, t, from, to, first);
    replace(store, from, values);
    forget_pairs(store, from, to, first);
}

/// What a copy of what is reached from the values, into the heap of another domain or into the same, would answer. All is as before.
/// It takes no memory, and time in proportion to the words that it reaches, and for each object to the classes and interfaces above its own.
pub fn would_copy<H: ObjectStore>(
    store: &mut H,
    w: &World,
    from: DomainId,
    to: DomainId,
    values: &Args,
) -> CopyAnswer
    requires may { MayCopy (H.content store.old) w.now from to values.now }
    ensures answer { CopyAnswers (H.content store.old) w.now from to values.now result }
    ensures same { IsSame (H.content store.old) (H.content store.new) }
{
    let found = discover(store, w, from, to, values);
    forget(store, from, found.todo);
    forget(store, from, found.done);
    answer_of(found.refused, found.sum, store.free(to))
}

/// The answer to what was found, where so many words are free.
fn answer_of(refused: Option<u32>, sum: u64, free: u32) -> CopyAnswer
    ensures { IsTold refused sum free result }
{
    match refused {
        Some(a) => CopyAnswer::NotCopiable(a),
        None if sum > u64::from(free) => CopyAnswer::NoRoom(sum),
        None => CopyAnswer::Copied,
    }
}
