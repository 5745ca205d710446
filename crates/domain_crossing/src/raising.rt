//! A segment that a throwable has left: it goes from its thread, and the throwable to the segment below.

ghost use Rattle.std.specs.Prelude.{◌≡◌, ◌∷◌, [], false, true, List, Option};
ghost use Rattle.jk_model.specs.declared.values.Value.TheVariants as Held;
ghost use Rattle.jk_model_domains.specs.OwnStates.{OwnState};
ghost use Rattle.graph_copy.specs.AskedOfCopies.{MayCopy};
ghost use Rattle.machine_parts.specs.FittingParts.{AreFittingParts};
ghost use Rattle.machine_parts.specs.MachineParts.{machine_of};
ghost use Rattle.domain_crossing.specs.AskedOfCrossings.{MayRaise};
ghost use Rattle.domain_crossing.specs.Crossings.{LeavesByThrow};
ghost use Rattle.domain_crossing.specs.PassedValues.{BringsSo};

use crate::answers::Left;
use crate::passing::{Passed, pass};
use crate::taking::take_off;
use domain_resolver::World;
use frame_store::FrameStore;
use jk_model::{ClassId, DomainId, Raise, Standing, ThreadNo, Value};
use jk_model_heaps::Shape;
use jk_model_heaps::system_classes::THREAD_DEATH;
use object_store::ObjectStore;
use thread_segments::Shared;

/// Leaves the top segment of a thread, of which no frame is left, by a throwable of its domain. The throwable is raised in the segment
/// below as a copy. A ThreadDeath, and what may not be copied, is a RemoteException there, and one that is too large an
/// OutOfMemoryError; an orphan's is dropped, and RevokedException is pending below. Where no segment is below, the thread has ended,
/// by the throwable's class where the segment was no orphan. It takes no memory but the words of the copies, and time in proportion to
/// what it copies and to a logarithm of the number of segments.
pub fn raise_across<H: ObjectStore, F: FrameStore>(
    heap: &mut H,
    frames: &mut F,
    shared: &mut Shared,
    w: &World,
    t: ThreadNo,
    throwable: u32,
) -> Left
    requires may { (owns : List (Option OwnState)) × MayRaise (record {
      world = w.now;
      owns = owns;
      shared = shared.old;
      heap = H.content heap.old;
      frames = F.content frames.old;
    }) t throwable }
    ensures answer { (owns : List (Option OwnState)) → MayRaise (record {
      world = w.now;
      owns = owns;
      shared = shared.old;
      heap = H.content heap.old;
      frames = F.content frames.old;
    }) t throwable → LeavesByThrow (machine_of (record {
      world = w.now;
      owns = owns;
      shared = shared.old;
      heap = H.content heap.old;
      frames = F.content frames.old;
    })) t throwable result (machine_of (record {
      world = w.now;
      owns = owns;
      shared = shared.new;
      heap = H.content heap.new;
      frames = F.content frames.new;
    })) }
    ensures fitting { (owns : List (Option OwnState)) → AreFittingParts (record {
      world = w.now;
      owns = owns;
      shared = shared.old;
      heap = H.content heap.old;
      frames = F.content frames.old;
    }) → AreFittingParts (record {
      world = w.now;
      owns = owns;
      shared = shared.new;
      heap = H.content heap.new;
      frames = F.content frames.new;
    }) }
    ensures stubs { shared.new.stubs ≡ shared.old.stubs }
{
    let taken = take_off(frames, shared, t);
    let Shape::Plain(class) = heap.shape(taken.domain, throwable) else {
        unreachable!();
    };
    let Some(below) = taken.below else {
        return ended(taken.orphan, class);
    };
    if taken.orphan {
        shared.set_revoked(below.segment, true);
        return Left::Delivered;
    }
    Left::Raised(bring(heap, w, taken.domain, below.domain, class, throwable))
}

/// How a thread ends by a throwable of a class that left its lowest segment.
fn ended(orphan: bool, class: ClassId) -> Left
    ensures orphan { orphan ≡ true → result ≡ Left.Ended }
    ensures other { orphan ≡ false → result ≡ Left.EndedBy class }
{
    if orphan {
        Left::Ended
    } else {
        Left::EndedBy(class)
    }
}

/// What a throwable of a class is in the segment below.
fn bring<H: ObjectStore>(
    heap: &mut H,
    w: &World,
    from: DomainId,
    to: DomainId,
    class: ClassId,
    throwable: u32,
) -> Raise
    requires { MayCopy (H.content heap.old) w.now from to (Held.Obj throwable ∷ []) }
    ensures { BringsSo (record { world = w.now; heap = H.content heap.old; from = from; to = to }) class throwable result
        (H.content heap.new) }
{
    if w.classes().is_subclass(class, THREAD_DEATH) {
        return Raise::Standing(Standing::Remote);
    }
    match pass(heap, w, from, to, Value::Obj(throwable)) {
        Passed::As(Value::Obj(copy)) => Raise::Object(copy),
        Passed::As(_) => unreachable!(),
        Passed::Uncopiable => Raise::Standing(Standing::Remote),
        Passed::TooLarge => Raise::Standing(Standing::OutOfMemoryError),
    }
}
