//! The method that a call runs.

ghost use Rattle.std.specs.Prelude.{◌≡◌, ◌↔◌, IsTrue};
ghost use Rattle.jk_model_classes.specs.declared.records.MethodRecord.{MethodRecord};
ghost use Rattle.jk_model_classes.specs.Classes.{superclasses};
ghost use Rattle.jk_model_classes.specs.Lookups.{FindsFrom, FindsOn, IsAbstract, IsMethodOf, IsOverriddenIn, MethodIs, RunsFor, Selects};
ghost use Rattle.member_lookup.specs.Words.{IsInstance};

use crate::flags::is_unmarked;
use crate::packages::in_one_package;
use crate::records::{is_interface, method_record, parent_of};
use class_table::{ClassTable, MethodKey};
use jk_model::{AccessFlags, ClassId, MemberId, has};
use jk_model_classes::MethodRecord;

/// Whether a method of class d with the same name and type overrides this one: it is public or protected, or without a
/// mark and in the same runtime package.
pub fn overrides(t: &ClassTable, d: ClassId, method: MemberId) -> bool
    ensures { IsTrue result ↔ ((m : MethodRecord) × MethodIs t.now method m × IsOverriddenIn t.now method m.flags d) }
{
    match method_record(t, method) {
        Some(m) => is_overridden_in(t, method, m.flags, d),
        None => false,
    }
}

/// What a call of a method on an object of the receiver class runs: of the receiver and its parents upwards, the first that
/// declares an instance method which is that method, or overrides it, or has its name and type where it is an
/// interface's. None where there is none, or where it is abstract. It takes one search by order for each class above the
/// receiver.
pub fn select(t: &ClassTable, receiver: ClassId, method: MemberId) -> Option<MemberId>
    ensures { Selects t.now receiver method result }
{
    let called = method_record(t, method)?;
    let found = first_runner(t, receiver, method, called)?;
    if is_abstract(t, found) {
        None
    } else {
        Some(found)
    }
}

/// Whether a method with these flags is overridden by those of class d that have its name and type.
fn is_overridden_in(t: &ClassTable, method: MemberId, flags: u16, d: ClassId) -> bool
    ensures { IsTrue result ↔ IsOverriddenIn t.now method flags d }
{
    has(flags, AccessFlags::PUBLIC)
        || has(flags, AccessFlags::PROTECTED)
        || (is_unmarked(flags) && in_one_package(t, d, method.class))
}

/// Of a class and its parents upwards, the first that has a method which runs for this one, and its first such method.
fn first_runner(
    t: &ClassTable,
    receiver: ClassId,
    method: MemberId,
    called: &MethodRecord,
) -> Option<MemberId>
    requires { MethodIs t.now method called.now }
    ensures { FindsOn (RunsFor t.now method) (superclasses t.now receiver) result }
{
    t.ordered();
    let mut next = Some(receiver);
    while let Some(d) = next {
        if let Some(index) = own_runner(t, d, method, called) {
            return Some(MemberId { class: d, index });
        }
        next = parent_of(t, d);
    }
    None
}

/// The first method of class d that runs for this one.
fn own_runner(t: &ClassTable, d: ClassId, method: MemberId, called: &MethodRecord) -> Option<u16>
    requires { MethodIs t.now method called.now }
    ensures { FindsFrom (RunsFor t.now method) d 0 result }
{
    t.ordered();
    let key = MethodKey::of_method(called);
    let mut from = 0;
    while let Some(index) = t.own_method(d, &key, from) {
        if runs_for(t, MemberId { class: d, index }, method, called) {
            return Some(index);
        }
        from = index + 1;
    }
    None
}

/// Whether a method of the same name and type runs for this one.
fn runs_for(t: &ClassTable, other: MemberId, method: MemberId, called: &MethodRecord) -> bool
    requires is { MethodIs t.now method called.now }
    requires same { IsMethodOf t.now called.now.name called.now.kind other }
    ensures { IsTrue result ↔ RunsFor t.now method other }
{
    is_instance(t, other)
        && (other == method
            || is_interface(t, method.class)
            || is_overridden_in(t, method, called.flags, other.class))
}

/// Whether there is such a method and it is no static one.
fn is_instance(t: &ClassTable, m: MemberId) -> bool
    ensures { IsTrue result ↔ IsInstance t.now m }
{
    match method_record(t, m) {
        Some(method) => !has(method.flags, AccessFlags::STATIC),
        None => false,
    }
}

/// Whether there is such a method and it is abstract.
fn is_abstract(t: &ClassTable, m: MemberId) -> bool
    ensures { IsTrue result ↔ IsAbstract t.now m }
{
    match method_record(t, m) {
        Some(method) => has(method.flags, AccessFlags::ABSTRACT),
        None => false,
    }
}
