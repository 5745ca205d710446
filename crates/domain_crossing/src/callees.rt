//! What a call through a capability runs.

ghost use Rattle.std.specs.Prelude.{◌≡◌, ◌↔◌, IsTrue, Some};
ghost use Rattle.jk_model_classes.specs.Stubs.{IsRemoteInterfaceOf};
ghost use Rattle.jk_model_heaps.specs.Capabilities.{IsGivenOut, OwnedCapability, capability_numbered};
ghost use Rattle.jk_model_sharing.specs.SharedStates.{caps_of};
ghost use Rattle.domain_crossing.specs.CalleesFound.{FindsCallee, FindsHead};

use call_ops::call_head;
use class_table::ClassTable;
use domain_resolver::World;
use jk_model::{AccessFlags, CapId, ClassId, DomainId, FrameHead, MemberId, Raise, Standing, has};
use jk_model_classes::Body;
use jk_model_heaps::system_classes::{
    ABSTRACT_METHOD_ERROR, ILLEGAL_ACCESS_ERROR, INCOMPATIBLE_CLASS_CHANGE_ERROR, REMOTE,
};
use member_lookup::{method_record, select};
use thread_segments::Shared;

/// What a call through a capability runs: a method whose frame begins with this head, at an object of the owner's heap.
#[derive(Clone, Copy, Debug, PartialEq, Eq)]
pub(crate) struct Callee {
    pub(crate) owner: DomainId,
    pub(crate) target: u32,
    pub(crate) head: FrameHead,
}

/// What a call of a method through a capability that was given out runs; or what is raised in its place, by the first rule that applies:
/// the capability is revoked, it doesn't show the interface, its target's class has no such method with code, or that isn't public. It takes
/// time in proportion to the classes and interfaces above the target's class.
#[inline(always)]
pub(crate) fn find_callee(
    w: &World,
    shared: &Shared,
    k: CapId,
    method: MemberId,
) -> Result<Callee, Raise>
    requires { IsGivenOut (caps_of shared.now) k }
    ensures { (c : OwnedCapability) → capability_numbered (caps_of shared.now) k ≡ Some c → FindsCallee w.now.classes c method result }
{
    let Some(status) = shared.status(k) else {
        unreachable!();
    };
    if status.revoked {
        return Err(Raise::Standing(Standing::Revoked));
    }
    let Some(class) = shared.capability_class(k) else {
        unreachable!();
    };
    match head_of(w.classes(), class, method) {
        Ok(head) => Ok(Callee {
            owner: status.owner,
            target: status.target,
            head,
        }),
        Err(class) => Err(Raise::Fresh(class)),
    }
}

/// How the frame begins that a call of a method through a capability runs, where the target is of this class; or of which class a
/// throwable is raised.
#[inline(always)]
fn head_of(t: &ClassTable, class: ClassId, method: MemberId) -> Result<FrameHead, ClassId>
    ensures { FindsHead t.now class method result }
{
    if !shows(t, class, method.class) {
        return Err(INCOMPATIBLE_CLASS_CHANGE_ERROR);
    }
    let Some(target) = select(t, class, method) else {
        return Err(ABSTRACT_METHOD_ERROR);
    };
    let Some(record) = method_record(t, target) else {
        unreachable!();
    };
    let Body::Linked(code) = &record.body else {
        return Err(ABSTRACT_METHOD_ERROR);
    };
    if has(record.flags, AccessFlags::PUBLIC) {
        Ok(call_head(target, code))
    } else {
        Err(ILLEGAL_ACCESS_ERROR)
    }
}

/// Whether a capability at an object of a class shows an interface.
fn shows(t: &ClassTable, class: ClassId, interface: ClassId) -> bool
    ensures { IsTrue result ↔ IsRemoteInterfaceOf t.now class interface }
{
    t.implements(class, interface) && t.implements(interface, REMOTE)
}
