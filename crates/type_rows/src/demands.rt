//! Whether an entry meets a demand.

ghost use Rattle.std.specs.Prelude.{◌≡◌, ℕ, ◌↔◌, IsTrue, IfNone, IfSome};
ghost use Rattle.jk_model_classes.specs.Lookups.{FlagsAre, class_of};
ghost use Rattle.jk_model_typing.specs.Rows.{IsAnyReference, IsArray, IsGuarded, IsReceiver, IsReference, IsReferenceArray, Meets};
ghost use Rattle.type_rows.specs.CodeViews.{scope_of};

use crate::code_view::CodeView;
use class_table::ClassTable;
use jk_model::{AccessFlags, ClassId, has};
use jk_model_classes::{BaseRef, Member};
use jk_model_typing::{Demand, VType};
use member_lookup::{field_record, in_one_package, method_record};
use type_frames::{fits, of_class};

/// Whether an entry meets a demand.
pub(crate) fn meets(view: &CodeView<'_>, demand: Demand, v: VType) -> bool
    ensures { IsTrue result ↔ Meets (scope_of view.now) demand v }
{
    match demand {
        Demand::Fitting(t) => fits(view.table, &v, &t),
        Demand::FittingEither(t, u) => fits(view.table, &v, &t) || fits(view.table, &v, &u),
        Demand::FittingBoth(t, u) => fits(view.table, &v, &t) && fits(view.table, &v, &u),
        Demand::Reference => is_reference(v),
        Demand::AnyReference => is_any_reference(v),
        Demand::ReferenceArray => is_reference_array(v),
        Demand::Array => is_array(v),
        Demand::Receiver(named, member) => is_receiver(view, named, member, v),
        Demand::PutReceiver(named, m) => {
            is_receiver(view, named, Member::Field(m), v)
                || (v == VType::FreshThis && m.class == view.class)
        }
    }
}

/// Whether it is null, or an object that isn't fresh.
fn is_reference(v: VType) -> bool
    ensures { IsTrue result ↔ IsReference v }
{
    matches!(v, VType::Null | VType::Ref(_))
}

/// Whether it is null or an object.
fn is_any_reference(v: VType) -> bool
    ensures { IsTrue result ↔ IsAnyReference v }
{
    matches!(
        v,
        VType::Null | VType::Ref(_) | VType::Fresh(_) | VType::FreshThis
    )
}

/// Whether it is null, or an array of references.
pub(crate) fn is_reference_array(v: VType) -> bool
    ensures { IsTrue result ↔ IsReferenceArray v }
{
    match v {
        VType::Null => true,
        VType::Ref(t) => t.dims > 1 || (t.dims == 1 && matches!(t.base, BaseRef::Class(_))),
        _ => false,
    }
}

/// Whether it is null, or an array.
fn is_array(v: VType) -> bool
    ensures { IsTrue result ↔ IsArray v }
{
    match v {
        VType::Null => true,
        VType::Ref(t) => t.dims > 0,
        _ => false,
    }
}

/// Whether it fits the class that a reference to the member names, and the own class where the member is guarded.
fn is_receiver(view: &CodeView<'_>, named: ClassId, member: Member, v: VType) -> bool
    ensures { IsTrue result ↔ IsReceiver (scope_of view.now) named member v }
{
    fits(view.table, &v, &of_class(view.table, named))
        && (fits(view.table, &v, &of_class(view.table, view.class)) || !is_guarded(view, member))
}

/// Whether the member is a protected one, not static, of a superclass in another runtime package.
pub(crate) fn is_guarded(view: &CodeView<'_>, member: Member) -> bool
    ensures { IsTrue result ↔ IsGuarded (scope_of view.now) member }
{
    let c = class_of(member);
    match flags_of(view.table, member) {
        Some(flags) => {
            has(flags, AccessFlags::PROTECTED)
                && !has(flags, AccessFlags::STATIC)
                && view.table.is_subclass(view.class, c)
                && !in_one_package(view.table, view.class, c)
        }
        None => false,
    }
}

/// The class of a member.
fn class_of(member: Member) -> ClassId
    ensures { result ≡ class_of member }
{
    match member {
        Member::Field(m) | Member::Method(m) => m.class,
    }
}

/// The flags of a member; none where there is no such member.
fn flags_of(t: &ClassTable, member: Member) -> Option<u16>
    ensures none { IfNone result ((flags : ℕ) → FlagsAre t.now member flags → ⊥) }
    ensures some { IfSome result (λ flags. FlagsAre t.now member flags) }
{
    match member {
        Member::Field(m) => Some(field_record(t, m)?.flags),
        Member::Method(m) => Some(method_record(t, m)?.flags),
    }
}
