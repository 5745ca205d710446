//! Which method a call at a receiver runs.

ghost use Rattle.std.specs.Prelude.{◌≡◌, ◌≢◌, ◌∷◌, List, IsTrue, false, true};
ghost use Rattle.jk_model.specs.declared.values.Value.{Value as AValue};
ghost use Rattle.jk_model.specs.declared.values.Value.TheVariants as Held;
ghost use Rattle.jk_model_classes.specs.Classes.{HasClass};
ghost use Rattle.jk_model_call_rows.specs.Targets.{InterfaceTarget, IsRunAsNamed, IsSelectedAbove, LocalTarget, PublicTarget, SelectedTarget, SpecialTarget};
ghost use Rattle.instance_tests.specs.Tested.{Refers};
ghost use Rattle.call_ops.specs.CodeTargets.{ComesTo, IsOfReceiver, target_of};

use class_table::ClassTable;
use instance_tests::run_class;
use jk_model::opcodes::{INVOKEINTERFACE, INVOKESPECIAL, INVOKEVIRTUAL};
use jk_model::{AccessFlags, CapId, ClassId, DomainId, MemberId, Value, has};
use jk_model_classes::MethodRecord;
use jk_model_heaps::system_classes::{
    ABSTRACT_METHOD_ERROR, ILLEGAL_ACCESS_ERROR, INCOMPATIBLE_CLASS_CHANGE_ERROR,
    NULL_POINTER_EXCEPTION, OBJECT,
};
use member_lookup::{method_record, select};
use object_store::ObjectStore;
use step_contents::StandsAt;

/// What a constructor is named: `<init>`.
const INIT: [u16; 6] = [0x3c, 0x69, 0x6e, 0x69, 0x74, 0x3e];

/// What a call comes to.
#[derive(Clone, Copy, Debug, PartialEq, Eq)]
pub(crate) enum Target {
    /// This method runs.
    Runs(MemberId),
    /// A new object of this class is raised.
    Fails(ClassId),
    /// The named method is called through this capability.
    Crosses(CapId),
}

/// What a call of the named method at a receiver comes to, for the instructions of call that have one.
#[inline(always)]
pub(crate) fn target_at<H: ObjectStore>(
    heap: &H,
    t: &ClassTable,
    d: DomainId,
    at: &StandsAt<'_>,
    named: MemberId,
    method: &MethodRecord,
    receiver: Value,
) -> Target
    requires kind { IsOfReceiver at.now.instr.now.op }
    requires class { HasClass t.now at.now.code.class }
    requires refers { receiver ≢ Held.Null → at.now.instr.now.op ≢ INVOKESPECIAL → Refers (H.content heap.now) d receiver }
    ensures { (arguments : List AValue) → ComesTo t.now ((H.content heap.now).heap d) at.now.instr.now.op at.now.code.class named method.now
        (receiver ∷ arguments) (target_of named result) }
{
    if receiver == Value::Null {
        return Target::Fails(NULL_POINTER_EXCEPTION);
    }
    match at.instr.op {
        INVOKEVIRTUAL => selected(t, run_class(heap, d, receiver), named),
        INVOKESPECIAL => special_target(t, at.code.class, named, method),
        INVOKEINTERFACE => interface_target(heap, t, d, named, receiver),
        _ => unreachable!(),
    }
}

/// The method that is selected from a class upwards.
#[inline(always)]
fn selected(t: &ClassTable, class: ClassId, named: MemberId) -> Target
    ensures { SelectedTarget t.now class named (target_of named result) }
{
    match select(t, class, named) {
        Some(m) => Target::Runs(m),
        None => Target::Fails(ABSTRACT_METHOD_ERROR),
    }
}

/// `invokespecial` in a method of the running class: the named method, or, where that is called as one of a class above, the one
/// that is selected from the running class's parent.
fn special_target(
    t: &ClassTable,
    running: ClassId,
    named: MemberId,
    method: &MethodRecord,
) -> Target
    requires { HasClass t.now running }
    ensures { SpecialTarget t.now running named method.now (target_of named result) }
{
    t.ordered();
    if runs_as_named(t, running, named, method) {
        return Target::Runs(named);
    }
    match t.class(running) {
        Some(class) => match class.parent {
            Some(parent) => selected(t, parent, named),
            None => unreachable!(),
        },
        None => unreachable!(),
    }
}

/// Whether `invokespecial` runs the very method that it names: a constructor, a private method, or one whose class doesn't stand
/// above the running one.
fn runs_as_named(t: &ClassTable, running: ClassId, named: MemberId, method: &MethodRecord) -> bool
    ensures named { result ≡ true → IsRunAsNamed t.now running named method.now }
    ensures above { result ≡ false → IsSelectedAbove t.now running named method.now }
{
    method.name.is(&INIT)
        || has(method.flags, AccessFlags::PRIVATE)
        || named.class == running
        || !t.is_subclass(running, named.class)
}

/// `invokeinterface`. A method of an interface is called through a capability; one of java/lang/Object never is.
#[inline(always)]
fn interface_target<H: ObjectStore>(
    heap: &H,
    t: &ClassTable,
    d: DomainId,
    named: MemberId,
    receiver: Value,
) -> Target
    requires { Refers (H.content heap.now) d receiver }
    ensures { InterfaceTarget t.now ((H.content heap.now).heap d) receiver named (target_of named result) }
{
    match receiver {
        Value::Cap(k) => {
            if named.class == OBJECT {
                local_target(heap, t, d, named, receiver)
            } else {
                Target::Crosses(k)
            }
        }
        _ => local_target(heap, t, d, named, receiver),
    }
}

/// `invokeinterface` in the caller's own domain. The interface that it asks for is the one that declares the method; a method of
/// java/lang/Object asks for none.
#[inline(always)]
fn local_target<H: ObjectStore>(
    heap: &H,
    t: &ClassTable,
    d: DomainId,
    named: MemberId,
    receiver: Value,
) -> Target
    requires { Refers (H.content heap.now) d receiver }
    ensures { LocalTarget t.now ((H.content heap.now).heap d) receiver named (target_of named result) }
{
    let class = run_class(heap, d, receiver);
    if named.class == OBJECT || t.implements(class, named.class) {
        public_target(t, class, named)
    } else {
        Target::Fails(INCOMPATIBLE_CLASS_CHANGE_ERROR)
    }
}

/// The method that is selected from a class upwards, which must be public.
#[inline(always)]
fn public_target(t: &ClassTable, class: ClassId, named: MemberId) -> Target
    ensures { PublicTarget t.now class named (target_of named result) }
{
    match select(t, class, named) {
        Some(m) => match method_record(t, m) {
            Some(method) => {
                if has(method.flags, AccessFlags::PUBLIC) {
                    Target::Runs(m)
                } else {
                    Target::Fails(ILLEGAL_ACCESS_ERROR)
                }
            }
            None => unreachable!(),
        },
        None => Target::Fails(ABSTRACT_METHOD_ERROR),
    }
}
