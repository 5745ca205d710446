//! The objects that stand in a heap from the opening on.

ghost use Rattle.std.specs.Prelude.{◌≡◌, ◌≤◌, ◌++◌, ℕ, length};
ghost use Rattle.jk_model_heaps.specs.Throwables.{fresh_throwable, standing_class};
ghost use Rattle.object_store.specs.HeapContents.{IsAdmitted, MakesObject, words_left};
ghost use Rattle.jk_model_classes.specs.Classes.{HasClass};
ghost use Rattle.jk_model_classes.specs.Layouts.{cost_of};
ghost use Rattle.heap_laws.specs.SoundCodes.{AreSoundCodes};
ghost use Rattle.kernel_openings.specs.StandingObjects.{MakesStanding};

use class_init::Own;
use class_table::ClassTable;
use jk_model::{ClassId, DomainId, NoRoom, Standing};
use jk_model_heaps::Shape;
use jk_model_heaps::system_classes::{
    NOT_COPIABLE_EXCEPTION, OUT_OF_MEMORY_ERROR, PRINT_STREAM, QUOTA_EXCEPTION, REMOTE_EXCEPTION,
    REVOKED_EXCEPTION, SECURITY_EXCEPTION, STACK_OVERFLOW_ERROR, THREAD_DEATH,
};
use object_store::ObjectStore;

/// In the order of their places.
const ALL_STANDING: [Standing; 8] = [
    Standing::OutOfMemoryError,
    Standing::StackOverflowError,
    Standing::Revoked,
    Standing::Quota,
    Standing::NotCopiable,
    Standing::Remote,
    Standing::ThreadDeath,
    Standing::Security,
];

/// Makes the PrintStream and the standing throwables in the heap of a domain: 44 words, for which there is room.
pub(crate) fn make_standing<H: ObjectStore>(
    heap: &mut H,
    t: &ClassTable,
    d: DomainId,
    own: &mut Own,
)
    requires admitted { IsAdmitted (H.content heap.old) d }
    requires classes { AreSoundCodes t.now }
    requires standing { length own.old.state.standing ≡ 8 }
    requires room { 44 ≤ words_left (H.content heap.old) d }
    ensures { MakesStanding (H.content heap.old) (H.content heap.new) t.now d own.old own.new }
{
    own.set_out(make_plain(heap, t, d, PRINT_STREAM));
    for s in ALL_STANDING {
        own.set_standing(s, make_plain(heap, t, d, standing_class(s)));
    }
}

/// Makes an object of a class, for which there is room, and answers its name.
fn make_plain<H: ObjectStore>(heap: &mut H, t: &ClassTable, d: DomainId, c: ClassId) -> u32
    requires admitted { IsAdmitted (H.content heap.old) d }
    requires there { HasClass t.now c }
    requires room { cost_of t.now c ≤ words_left (H.content heap.old) d }
    ensures { MakesObject (H.content heap.old) (H.content heap.new) t.now d result (fresh_throwable t.now c) }
{
    match heap.make(t, d, Shape::Plain(c)) {
        Ok(a) => a,
        Err(NoRoom) => unreachable!(),
    }
}

/// The class of a throwable that stands in a heap from the opening on.
fn standing_class(s: Standing) -> ClassId
    ensures { result ≡ standing_class s }
{
    match s {
        Standing::OutOfMemoryError => OUT_OF_MEMORY_ERROR,
        Standing::StackOverflowError => STACK_OVERFLOW_ERROR,
        Standing::Revoked => REVOKED_EXCEPTION,
        Standing::Quota => QUOTA_EXCEPTION,
        Standing::NotCopiable => NOT_COPIABLE_EXCEPTION,
        Standing::Remote => REMOTE_EXCEPTION,
        Standing::ThreadDeath => THREAD_DEATH,
        Standing::Security => SECURITY_EXCEPTION,
    }
}
