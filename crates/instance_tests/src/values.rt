//! Which values are instances of which types, and at which class a call on one begins to look for its method.

ghost use Rattle.std.specs.Prelude.{◌≡◌, ◌≢◌, ◌⊎◌, ◌↔◌, IsTrue, List};
ghost use Rattle.jk_model.specs.declared.values.Value.TheVariants as Held;
ghost use Rattle.jk_model_classes.specs.declared.records.ClassRecord.{ClassRecord};
ghost use Rattle.jk_model_heaps.specs.Capabilities.{CapabilityIsA, IsGivenOut, KnownCapabilities};
ghost use Rattle.jk_model_heaps.specs.Instances.{IsInstance, RunsAs};
ghost use Rattle.jk_model_sealing.specs.SealedInsides.{IsKnownValue};
ghost use Rattle.object_store.specs.HeapContents.{IsReference};
ghost use Rattle.instance_tests.specs.Tested.{Refers};

use crate::objects::is_object_a;
use class_table::ClassTable;
use jk_model::{CapId, ClassId, DomainId, Value};
use jk_model_classes::TypeRef;
use jk_model_heaps::Shape;
use jk_model_heaps::system_classes::{CAPABILITY, OBJECT, STRING, TASK};
use object_store::ObjectStore;

/// What keeps capabilities, as far as the test of one goes.
pub trait CapabilityTests {
    /// What is known of capabilities.
    ghost known: { Self → KnownCapabilities };

    /// What is kept of classes is right of these.
    ghost agrees: { Self → List ClassRecord → Type 0 };

    /// Whether a capability that was given out is an instance of a type: of java/lang/Object, jk/Capability, jk/Remote, or an
    /// interface that it shows.
    fn is_capability_a(&self, t: &ClassTable, k: CapId, kind: &TypeRef) -> bool
        requires given { IsGivenOut (known self.now).ranges k }
        requires right { agrees self.now t.now }
        ensures { IsTrue result ↔ CapabilityIsA t.now (known self.now) k kind.now };
}

/// Whether a reference of a domain, which isn't null, is an instance of a type.
pub fn is_instance<H: ObjectStore, C: CapabilityTests>(
    heap: &H,
    caps: &C,
    t: &ClassTable,
    d: DomainId,
    v: Value,
    kind: &TypeRef,
) -> bool
    requires reference { IsReference v }
    requires some { v ≢ Held.Null }
    requires known { IsKnownValue (C.known caps.now).ranges ((H.content heap.now).heap d) v }
    requires right { C.agrees caps.now t.now }
    ensures { IsTrue result ↔ IsInstance t.now (C.known caps.now) ((H.content heap.now).heap d) v kind.now }
{
    match v {
        Value::Obj(a) => is_object_a(t, &heap.shape(d, a), kind),
        Value::Cap(k) => caps.is_capability_a(t, k, kind),
        _ => unreachable!(),
    }
}

/// Whether a reference of a domain is null or an instance of a type: whether it may be cast to the type, and stored in an array of such
/// elements.
pub fn is_null_or_instance<H: ObjectStore, C: CapabilityTests>(
    heap: &H,
    caps: &C,
    t: &ClassTable,
    d: DomainId,
    v: Value,
    kind: &TypeRef,
) -> bool
    requires reference { IsReference v }
    requires known { IsKnownValue (C.known caps.now).ranges ((H.content heap.now).heap d) v }
    requires right { C.agrees caps.now t.now }
    ensures { IsTrue result ↔ ((v ≡ Held.Null) ⊎ IsInstance t.now (C.known caps.now) ((H.content heap.now).heap d) v kind.now) }
{
    v == Value::Null || is_instance(heap, caps, t, d, v, kind)
}

/// The class at which a call on a value of a domain, which is a reference and not null, begins to look for its method:
/// java/lang/Object at an array, and jk/Capability at a capability.
pub fn run_class<H: ObjectStore>(heap: &H, d: DomainId, v: Value) -> ClassId
    requires { Refers (H.content heap.now) d v }
    ensures { RunsAs ((H.content heap.now).heap d) v result }
{
    match v {
        Value::Obj(a) => match heap.shape(d, a) {
            Shape::Plain(c) => c,
            Shape::Array(_, _) => OBJECT,
            Shape::Text(_) => STRING,
            Shape::Task(_) => TASK,
        },
        Value::Cap(_) => CAPABILITY,
        _ => unreachable!(),
    }
}
