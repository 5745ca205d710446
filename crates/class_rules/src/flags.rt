//! The rule C6: which flags of a class and of its members may not stand together.

ghost use Rattle.std.specs.Prelude.{◌≡◌, ◌<◌, ◌^◌, ◌↔◌, IsTrue, length};
ghost use Rattle.jk_model.specs.Flags.{has};
ghost use Rattle.jk_model_classes.specs.ClassFlags.{is_final_and_open, has_two_marks, is_constant, is_bad_field, is_abstract_and_more, is_bad_method, is_bad_init, HasBadMethodFlags, HasBadFlags};
ghost use Rattle.class_rules.specs.Answers.{IsLeastSpot};
ghost use Rattle.class_rules.specs.Texts.{AreFacts};

use crate::known_pool::KnownPool;
use crate::members::{FirstPlaces, first_at};
use crate::texts::{TextFacts, Word};
use bitflags::Flags;
use jk_model::{AccessFlags, ClassFile, MemberInfo};

/// The number of the least spot whose flags may not stand together.
pub(crate) fn bad_flags(c: &ClassFile, facts: &[Option<TextFacts>]) -> Option<u32>
    requires known { AreFacts c.now.pool facts.now }
    requires fields { length c.now.fields < 2 ^ 16 }
    requires methods { length c.now.methods < 2 ^ 16 }
    ensures { IsLeastSpot (HasBadFlags c.now) result }
{
    let class = AccessFlags(c.flags);
    let places = FirstPlaces {
        class: is_final_and_open(class),
        field: first_at(
            c.fields.as_slice(),
            |field| is_bad_field(class, AccessFlags(field.flags)),
        ),
        method: first_at(
            c.methods.as_slice(),
            |method| has_bad_method_flags(c, facts, method),
        ),
        entry: None,
    };
    places.number(c.fields.len())
}

/// Whether the flags of this method may not stand together. Those of `<clinit>` are ignored.
fn has_bad_method_flags(c: &ClassFile, facts: &[Option<TextFacts>], method: &MemberInfo) -> bool
    requires { AreFacts c.now.pool facts.now }
    ensures { IsTrue result ↔ HasBadMethodFlags c.now method.now }
{
    let pool = KnownPool::of(c, facts);
    let class = AccessFlags(c.flags);
    let flags = AccessFlags(method.flags);
    if pool.is_word(method.name, Word::Clinit) {
        return false;
    }
    is_bad_method(class, flags)
        || pool.is_word(method.name, Word::Init) && is_bad_init(class, flags)
}

/// Final, and also an interface or abstract.
fn is_final_and_open(flags: AccessFlags) -> bool
    ensures { result ≡ is_final_and_open flags.0 }
{
    flags.contains(AccessFlags::FINAL)
        && (flags.contains(AccessFlags::INTERFACE) || flags.contains(AccessFlags::ABSTRACT))
}

/// Two of public, private and protected.
fn has_two_marks(flags: AccessFlags) -> bool
    ensures { result ≡ has_two_marks flags.0 }
{
    flags.contains(AccessFlags::PUBLIC) && flags.contains(AccessFlags::PRIVATE)
        || flags.contains(AccessFlags::PUBLIC) && flags.contains(AccessFlags::PROTECTED)
        || flags.contains(AccessFlags::PRIVATE) && flags.contains(AccessFlags::PROTECTED)
}

/// Public, static and final, as the field of an interface is.
fn is_constant(flags: AccessFlags) -> bool
    ensures { result ≡ is_constant flags.0 }
{
    flags.contains(AccessFlags::PUBLIC)
        && flags.contains(AccessFlags::STATIC)
        && flags.contains(AccessFlags::FINAL)
}

/// Abstract, and also what an abstract method may not be.
fn is_abstract_and_more(flags: AccessFlags) -> bool
    ensures { result ≡ is_abstract_and_more flags.0 }
{
    flags.contains(AccessFlags::ABSTRACT)
        && (flags.contains(AccessFlags::PRIVATE)
            || flags.contains(AccessFlags::STATIC)
            || flags.contains(AccessFlags::FINAL)
            || flags.contains(AccessFlags::NATIVE)
            || flags.contains(AccessFlags::SYNCHRONIZED)
            || flags.contains(AccessFlags::STRICT))
}

/// Whether a field may not have these flags, in a class of those.
fn is_bad_field(class: AccessFlags, flags: AccessFlags) -> bool
    ensures { result ≡ is_bad_field class.0 flags.0 }
{
    has_two_marks(flags)
        || flags.contains(AccessFlags::FINAL) && flags.contains(AccessFlags::VOLATILE)
        || class.contains(AccessFlags::INTERFACE) && !is_constant(flags)
}

/// Whether a method may not have these flags, in a class of those.
fn is_bad_method(class: AccessFlags, flags: AccessFlags) -> bool
    ensures { result ≡ is_bad_method class.0 flags.0 }
{
    has_two_marks(flags)
        || is_abstract_and_more(flags)
        || class.contains(AccessFlags::INTERFACE)
            && !(flags.contains(AccessFlags::PUBLIC) && flags.contains(AccessFlags::ABSTRACT))
}

/// Whether an `<init>` may not have these flags, in a class of those.
fn is_bad_init(class: AccessFlags, flags: AccessFlags) -> bool
    ensures { result ≡ is_bad_init class.0 flags.0 }
{
    class.contains(AccessFlags::INTERFACE)
        || flags.contains(AccessFlags::STATIC)
        || flags.contains(AccessFlags::FINAL)
        || flags.contains(AccessFlags::ABSTRACT)
        || flags.contains(AccessFlags::NATIVE)
        || flags.contains(AccessFlags::SYNCHRONIZED)
}
