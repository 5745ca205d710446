//! The methods of jk/Capability: what they ask for is granted or denied by what domains share.

ghost use Rattle.std.specs.Prelude.{[], ◌∷◌};
ghost use Rattle.jk_model.specs.declared.values.Value.TheVariants as Held;
ghost use Rattle.jk_model_system_rows.specs.declared.meanings.SystemMeaning.TheVariants as Means;
ghost use Rattle.system_calls.specs.MethodGroups.{IsOfCapabilities};
ghost use Rattle.system_calls.specs.MethodsDone.{MayAnswer, MethodDone};

use crate::answers::Answer;
use crate::given::{capability_alone, value_alone};
use crate::here::Here;
use jk_model::{CapId, Raise, Value};
use jk_model_heaps::Shape;
use jk_model_heaps::system_classes::{ILLEGAL_ARGUMENT_EXCEPTION, NULL_POINTER_EXCEPTION};
use jk_model_system_rows::SystemMeaning;
use object_store::ObjectStore;
use thread_segments::Shared;

/// What a method of jk/Capability answers.
pub(crate) fn capability_answer<H: ObjectStore>(
    heap: &H,
    shared: &mut Shared,
    here: &Here<'_>,
    meaning: SystemMeaning,
    given: &[Value],
) -> Answer
    requires may { MayAnswer (H.content heap.now) shared.old here.now meaning given.now }
    requires group { IsOfCapabilities meaning }
    ensures { MethodDone (H.content heap.now) (H.content heap.now) shared.old shared.new here.now meaning given.now result }
{
    match meaning {
        SystemMeaning::CreatesCapability => create(heap, shared, here, value_alone(given)),
        SystemMeaning::RevokesCapability => revoke(heap, shared, here, capability_alone(given)),
        _ => unreachable!(),
    }
}

/// A new capability of the running domain that leads to the argument. NullPointerException is raised at null, and
/// IllegalArgumentException at a capability and at an object that isn't remote; where the domain has made all of its capabilities, the
/// standing QuotaException.
fn create<H: ObjectStore>(heap: &H, shared: &mut Shared, here: &Here<'_>, v: Value) -> Answer
    requires { MayAnswer (H.content heap.now) shared.old here.now Means.CreatesCapability (v ∷ []) }
    ensures { MethodDone (H.content heap.now) (H.content heap.now) shared.old shared.new here.now Means.CreatesCapability (v ∷ []) result }
{
    match v {
        Value::Obj(target) => create_for(heap, shared, here, target),
        Value::Null => Err(Raise::Fresh(NULL_POINTER_EXCEPTION)),
        Value::Cap(_) => Err(Raise::Fresh(ILLEGAL_ARGUMENT_EXCEPTION)),
        _ => unreachable!(),
    }
}

/// As `create`, for an object.
fn create_for<H: ObjectStore>(heap: &H, shared: &mut Shared, here: &Here<'_>, target: u32) -> Answer
    requires { MayAnswer (H.content heap.now) shared.old here.now Means.CreatesCapability (Held.Obj target ∷ []) }
    ensures { MethodDone (H.content heap.now) (H.content heap.now) shared.old shared.new here.now Means.CreatesCapability (Held.Obj target ∷ [])
        result }
{
    match heap.shape(here.domain, target) {
        Shape::Plain(class) => match shared.create(here.domain, class, target) {
            Ok(k) => Ok(Some(Value::Cap(k))),
            Err(raise) => Err(raise),
        },
        _ => Err(Raise::Fresh(ILLEGAL_ARGUMENT_EXCEPTION)),
    }
}

/// The receiver leads to nothing from now on. Where another domain made it, the standing SecurityException is raised.
fn revoke<H: ObjectStore>(heap: &H, shared: &mut Shared, here: &Here<'_>, k: CapId) -> Answer
    requires { MayAnswer (H.content heap.now) shared.old here.now Means.RevokesCapability (Held.Cap k ∷ []) }
    ensures { MethodDone (H.content heap.now) (H.content heap.now) shared.old shared.new here.now Means.RevokesCapability (Held.Cap k ∷ []) result }
{
    let _ = heap;
    match shared.revoke(here.domain, k) {
        Ok(()) => Ok(None),
        Err(raise) => Err(raise),
    }
}
