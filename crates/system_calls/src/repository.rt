//! The methods of jk/Repository: what they ask for is granted or denied by what domains share.

ghost use Rattle.std.specs.Prelude.{◌≡◌, ◌≤◌, ℕ, List, [], ◌∷◌, length, take};
ghost use Rattle.jk_model_domains.specs.Objects.{Text};
ghost use Rattle.jk_model_system_rows.specs.declared.meanings.SystemMeaning.TheVariants as Means;
ghost use Rattle.object_store.specs.HeapContents.{IsLive};
ghost use Rattle.heap_loops.specs.TextChanges.{HasUnits};
ghost use Rattle.system_calls.specs.MethodGroups.{IsOfRepository};
ghost use Rattle.system_calls.specs.MethodsDone.{MayAnswer, MethodDone};

use crate::answers::Answer;
use crate::given::{two_values, value_alone};
use crate::here::Here;
use crate::units::read_units;
use heap_loops::text_len;
use jk_model::{CapId, Raise, Value};
use jk_model_heaps::system_classes::NULL_POINTER_EXCEPTION;
use jk_model_system_rows::SystemMeaning;
use object_store::ObjectStore;
use thread_segments::Shared;

/// One unit more than the longest name that is bound to something.
const TOO_LONG: usize = 65;

/// What a method of jk/Repository answers.
pub(crate) fn repository_answer<H: ObjectStore>(
    heap: &H,
    shared: &mut Shared,
    here: &Here<'_>,
    meaning: SystemMeaning,
    given: &[Value],
) -> Answer
    requires may { MayAnswer (H.content heap.now) shared.old here.now meaning given.now }
    requires group { IsOfRepository meaning }
    ensures { MethodDone (H.content heap.now) (H.content heap.now) shared.old shared.new here.now meaning given.now result }
{
    match meaning {
        SystemMeaning::BindsName => {
            let (name, v) = two_values(given);
            bind(heap, shared, here, name, v)
        }
        SystemMeaning::LooksUpName => look_up(heap, shared, here, value_alone(given)),
        SystemMeaning::UnbindsName => unbind(heap, shared, here, value_alone(given)),
        _ => unreachable!(),
    }
}

/// Binds a name to a capability. NullPointerException is raised where either is null; what `Shared::bind` refuses is raised.
fn bind<H: ObjectStore>(
    heap: &H,
    shared: &mut Shared,
    here: &Here<'_>,
    name: Value,
    v: Value,
) -> Answer
    requires { MayAnswer (H.content heap.now) shared.old here.now Means.BindsName (name ∷ v ∷ []) }
    ensures { MethodDone (H.content heap.now) (H.content heap.now) shared.old shared.new here.now Means.BindsName (name ∷ v ∷ []) result }
{
    let Value::Obj(text) = name else {
        return Err(Raise::Fresh(NULL_POINTER_EXCEPTION));
    };
    let Value::Cap(k) = v else {
        return Err(Raise::Fresh(NULL_POINTER_EXCEPTION));
    };
    let mut buffer = [0; TOO_LONG];
    let count = read_name(heap, here, text, &mut buffer);
    match shared.bind(here.domain, &buffer[..count], k) {
        Ok(()) => Ok(None),
        Err(raise) => Err(raise),
    }
}

/// The capability to which a name is bound, or null. NullPointerException is raised where the name is null.
fn look_up<H: ObjectStore>(heap: &H, shared: &Shared, here: &Here<'_>, name: Value) -> Answer
    requires { MayAnswer (H.content heap.now) shared.now here.now Means.LooksUpName (name ∷ []) }
    ensures { MethodDone (H.content heap.now) (H.content heap.now) shared.now shared.now here.now Means.LooksUpName (name ∷ []) result }
{
    let Value::Obj(text) = name else {
        return Err(Raise::Fresh(NULL_POINTER_EXCEPTION));
    };
    shared.is_sound();
    let mut buffer = [0; TOO_LONG];
    let count = read_name(heap, here, text, &mut buffer);
    match shared.lookup(&buffer[..count]) {
        Some(k) => Ok(Some(Value::Cap(k))),
        None => Ok(Some(Value::Null)),
    }
}

/// Takes a name out. NullPointerException is raised where it is null; where another domain bound it, the standing SecurityException.
fn unbind<H: ObjectStore>(heap: &H, shared: &mut Shared, here: &Here<'_>, name: Value) -> Answer
    requires { MayAnswer (H.content heap.now) shared.old here.now Means.UnbindsName (name ∷ []) }
    ensures { MethodDone (H.content heap.now) (H.content heap.now) shared.old shared.new here.now Means.UnbindsName (name ∷ []) result }
{
    let Value::Obj(text) = name else {
        return Err(Raise::Fresh(NULL_POINTER_EXCEPTION));
    };
    shared.is_sound();
    let mut buffer = [0; TOO_LONG];
    let count = read_name(heap, here, text, &mut buffer);
    match shared.unbind(here.domain, &buffer[..count]) {
        Ok(()) => Ok(None),
        Err(raise) => Err(raise),
    }
}

/// Reads the units of a text, or the first 65, which are too many for a name, and answers how many they are.
fn read_name<H: ObjectStore>(heap: &H, here: &Here<'_>, text: u32, buffer: &mut [u16]) -> usize
    requires text { HasUnits (H.content heap.now) here.now.domain text 0 }
    requires room { length buffer.old ≡ 65 }
    ensures within { result ≤ 65 }
    ensures read { (units : List ℕ) → IsLive (H.content heap.now) here.now.domain text (Text units) → take result buffer.new ≡ take 65 units }
{
    let (t, d) = (here.world.classes(), here.domain);
    let len = text_len(heap, d, text);
    read_units(heap, t, d, text, 0, len, buffer)
}
