//! Who may access what.

ghost use Rattle.std.specs.Prelude.{◌≡◌, ℕ, ◌↔◌, IsTrue, IfNone, IfSome};
ghost use Rattle.jk_model_classes.specs.Lookups.{AllowsFrom, FlagsAre, MayAccess, MayAccessClass, class_of};
ghost use Rattle.member_lookup.specs.Words.{IsPublicClass};

use crate::flags::is_unmarked;
use crate::packages::in_one_package;
use crate::records::{field_record, method_record};
use class_table::ClassTable;
use jk_model::{AccessFlags, ClassId, has};
use jk_model_classes::Member;

/// Whether a class may access another: that is public, or in the same runtime package.
pub fn may_access_class(t: &ClassTable, from: ClassId, c: ClassId) -> bool
    ensures { IsTrue result ↔ MayAccessClass t.now from c }
{
    is_public(t, c) || in_one_package(t, from, c)
}

/// Whether a class may access a member: it is public; or protected in a superclass or in the same runtime package; or
/// without a mark in the same runtime package; or private in the same class. False where there is no such member.
pub fn may_access(t: &ClassTable, from: ClassId, member: Member) -> bool
    ensures { IsTrue result ↔ MayAccess t.now from member }
{
    match flags_of(t, member) {
        Some(flags) => allows_from(t, from, class_of(member), flags),
        None => false,
    }
}

/// Whether there is such a class and it is public.
fn is_public(t: &ClassTable, c: ClassId) -> bool
    ensures { IsTrue result ↔ IsPublicClass t.now c }
{
    match t.class(c) {
        Some(r) => has(r.flags, AccessFlags::PUBLIC),
        None => false,
    }
}

/// The flags of a member; none where there is no such member.
fn flags_of(t: &ClassTable, member: Member) -> Option<u16>
    ensures none { IfNone result ((flags : ℕ) → FlagsAre t.now member flags → ⊥) }
    ensures some { IfSome result (λ flags. FlagsAre t.now member flags) }
{
    match member {
        Member::Field(m) => Some(field_record(t, m)?.flags),
        Member::Method(m) => Some(method_record(t, m)?.flags),
    }
}

/// The class of a member.
fn class_of(member: Member) -> ClassId
    ensures { result ≡ class_of member }
{
    match member {
        Member::Field(m) | Member::Method(m) => m.class,
    }
}

/// Whether a member with these flags, of class c, may be accessed from a class.
fn allows_from(t: &ClassTable, from: ClassId, c: ClassId, flags: u16) -> bool
    ensures { IsTrue result ↔ AllowsFrom t.now from c flags }
{
    has(flags, AccessFlags::PUBLIC)
        || (has(flags, AccessFlags::PROTECTED)
            && (t.is_subclass(from, c) || in_one_package(t, from, c)))
        || (is_unmarked(flags) && in_one_package(t, from, c))
        || (has(flags, AccessFlags::PRIVATE) && from == c)
}
