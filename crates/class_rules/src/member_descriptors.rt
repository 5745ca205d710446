//! The rule C8: which descriptors are none, or may not be.

ghost use Rattle.std.specs.Prelude.{◌≡◌, ℕ, ◌<◌, ◌^◌, ◌↔◌, List, IsTrue, length, false};
ghost use Rattle.jk_model.specs.declared.class_file.PoolEntry.{PoolEntry};
ghost use Rattle.jk_model.specs.declared.descriptors.MethodType.{MethodType};
ghost use Rattle.jk_model.specs.Descriptors.{IsFieldDescriptor};
ghost use Rattle.jk_model_classes.specs.ClassNames.{HasText};
ghost use Rattle.jk_model_classes.specs.MemberDescriptors.{HasMethodType, IsReferenceDescriptor, HasBadDescriptor};
ghost use Rattle.class_rules.specs.Answers.{IsLeastSpot};
ghost use Rattle.class_rules.specs.Entries.{kind_of, IsBadReference};
ghost use Rattle.class_rules.specs.KnownPools.{IsKnown};
ghost use Rattle.class_rules.specs.MethodDescriptors.{FitsMethod, MayTake};
ghost use Rattle.class_rules.specs.Texts.{AreFacts, AreFactsOf, method_shape, word_text};
ghost use Rattle.class_rules.specs.declared.texts.Word.TheVariants.{NothingToNothing};

use crate::known_pool::{KnownPool, Reference, ReferenceKind};
use crate::members::{FirstPlaces, first_at};
use crate::texts::{MethodShape, TextFacts, Word};
use jk_model::{AccessFlags, ClassFile, MemberInfo, PoolEntry, has};

/// The number of the least spot whose descriptor is none, or may not be.
pub(crate) fn bad_descriptors(c: &ClassFile, facts: &[Option<TextFacts>]) -> Option<u32>
    requires known { AreFacts c.now.pool facts.now }
    requires fields { length c.now.fields < 2 ^ 16 }
    requires methods { length c.now.methods < 2 ^ 16 }
    requires entries { length c.now.pool < 2 ^ 16 }
    ensures { IsLeastSpot (HasBadDescriptor c.now) result }
{
    let pool = KnownPool::of(c, facts);
    let places = FirstPlaces {
        class: false,
        field: first_at(
            c.fields.as_slice(),
            |field| pool.lacks_field_descriptor(field.descriptor),
        ),
        method: first_at(
            c.methods.as_slice(),
            |method| lacks_method_type(c, facts, method),
        ),
        entry: first_at(c.pool.as_slice(), |entry| pool.is_bad_reference(entry)),
    };
    places.number(c.fields.len())
}

/// Whether the descriptor of this method is none, or is one that it may not have.
fn lacks_method_type(c: &ClassFile, facts: &[Option<TextFacts>], method: &MemberInfo) -> bool
    requires { AreFacts c.now.pool facts.now }
    ensures { IsTrue result ↔ (((t : MethodType) × HasMethodType c.now method.now t) → ⊥) }
{
    let pool = KnownPool::of(c, facts);
    let Some(descriptor) = pool.text(method.descriptor) else {
        return true;
    };
    let is_init = pool.is_word(method.name, Word::Init);
    if pool.is_word(method.name, Word::Clinit) {
        return !descriptor.fits_clinit(is_init);
    }
    let is_static = has(method.flags, AccessFlags::STATIC);
    !descriptor.fits_method(!is_static, is_init)
}

impl KnownPool<'_> {
    /// Whether no descriptor of a field stands at an index.
    fn lacks_field_descriptor(&self, i: u16) -> bool
        requires { IsKnown self.now }
        ensures { IsTrue result ↔ (HasText IsFieldDescriptor self.now.entries.now i → ⊥) }
    {
        match self.text(i) {
            Some(text) => !text.is_field_descriptor(),
            None => true,
        }
    }

    /// Whether an entry is a reference whose descriptor is none, or may not be.
    fn is_bad_reference(&self, entry: &PoolEntry) -> bool
        requires { IsKnown self.now }
        ensures { IsTrue result ↔ IsBadReference self.now.entries.now entry.now }
    {
        match self.reference(entry) {
            Some(reference) => !reference.has_descriptor(),
            None => false,
        }
    }
}

impl Reference {
    /// Whether it has a descriptor that it may have. A receiver is counted at an interface's method, and at `<init>`.
    fn has_descriptor(&self) -> bool
        ensures { (pool : List PoolEntry) (name descriptor : List ℕ) → AreFactsOf pool name self.now.name
            → AreFactsOf pool descriptor self.now.descriptor
            → IsTrue result ↔ IsReferenceDescriptor (kind_of self.now.kind) name descriptor }
    {
        let is_init = self.name.is(Word::Init);
        match self.kind {
            ReferenceKind::Field => self.descriptor.is_field_descriptor(),
            ReferenceKind::Method => self.descriptor.fits_method(is_init, is_init),
            ReferenceKind::InterfaceMethod => self.descriptor.fits_method(true, is_init),
        }
    }
}

impl TextFacts {
    /// Whether it is the descriptor of a field.
    fn is_field_descriptor(&self) -> bool
        ensures { (pool : List PoolEntry) (units : List ℕ) → AreFactsOf pool units self.now
            → IsTrue result ↔ IsFieldDescriptor units }
    {
        match self.field {
            Some(_) => true,
            None => false,
        }
    }

    /// Whether it is the descriptor of a method with few slots, and without a result where it is an `<init>`.
    fn fits_method(&self, receiver: bool, is_init: bool) -> bool
        ensures { (pool : List PoolEntry) (units : List ℕ) → AreFactsOf pool units self.now
            → IsTrue result ↔ ((t : MethodType) × FitsMethod receiver is_init units t) }
    {
        match self.method {
            Some(shape) => shape.fits(receiver, is_init),
            None => false,
        }
    }

    /// Whether it is the descriptor of a `<clinit>`, which is static and has neither parameters nor a result.
    fn fits_clinit(&self, is_init: bool) -> bool
        ensures { (pool : List PoolEntry) (units : List ℕ) → AreFactsOf pool units self.now
            → IsTrue result ↔ (((t : MethodType) × FitsMethod false is_init units t) × (units ≡ word_text NothingToNothing)) }
    {
        self.fits_method(false, is_init) && self.is(Word::NothingToNothing)
    }
}

impl MethodShape {
    /// Whether the arguments have few slots, and an `<init>` has no result.
    fn fits(self, receiver: bool, is_init: bool) -> bool
        ensures { (t : MethodType) → self ≡ method_shape t
            → IsTrue result ↔ MayTake receiver is_init t }
    {
        if is_init && self.has_result {
            return false;
        }
        if receiver {
            self.slots <= 254
        } else {
            self.slots <= 255
        }
    }
}
