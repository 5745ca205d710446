//! The target of a method.

ghost use Rattle.std.specs.Prelude.{◌≡◌, ◌↔◌, Contains, IsTrue};
ghost use Rattle.jk_model_classes.specs.Stubs.{IsSystemMethod, IsTarget};

use class_table::ClassTable;
use jk_model::{ClassId, MemberId};
use jk_model_classes::{Body, Stub};
use member_lookup::{method_record, select};

/// What a call of a method through a capability with this stub runs: for a method that one of the stub's interfaces declares,
/// what `select` gives from the stub's class; none where that is none or a method of the system, and for every other method.
/// It takes no memory, and time as `select` from the stub's class does and in proportion to the stub's interfaces.
pub fn target_of(t: &ClassTable, stub: &Stub, method: MemberId) -> Option<MemberId>
    ensures { IsTarget t.now stub.now method result }
{
    if !shows(stub, method.class) {
        return None;
    }
    let selected = select(t, stub.class, method)?;
    if is_system_method(t, selected) {
        None
    } else {
        Some(selected)
    }
}

/// Whether the class is one of the stub's interfaces.
fn shows(stub: &Stub, c: ClassId) -> bool
    ensures { IsTrue result ↔ Contains stub.now.interfaces c }
{
    stub.interfaces.as_slice().contains(&c)
}

/// Whether there is such a method and it is one of the system.
fn is_system_method(t: &ClassTable, m: MemberId) -> bool
    ensures { IsTrue result ↔ IsSystemMethod t.now m }
{
    match method_record(t, m) {
        Some(method) => matches!(method.body, Body::System(_)),
        None => false,
    }
}
