//! The rule C7: which names of a class file have not the form that they need.

ghost use Rattle.std.specs.Prelude.{◌≡◌, ℕ, ◌<◌, ◌^◌, ◌↔◌, List, IsTrue, length};
ghost use Rattle.jk_model.specs.declared.class_file.PoolEntry.{PoolEntry};
ghost use Rattle.jk_model.specs.Descriptors.{IsName};
ghost use Rattle.jk_model_classes.specs.ClassNames.{HasText, IsPlainMethodName, IsMethodName, IsReferenceName, IsArrayDescriptor, IsClassEntryName, NamesClass, HasBadHeader, HasBadName};
ghost use Rattle.class_rules.specs.Answers.{IsLeastSpot};
ghost use Rattle.class_rules.specs.Entries.{kind_of, IsBadlyNamed};
ghost use Rattle.class_rules.specs.KnownPools.{IsKnown};
ghost use Rattle.class_rules.specs.Texts.{AreFacts, AreFactsOf};

use crate::known_pool::{KnownPool, ReferenceKind};
use crate::members::{FirstPlaces, first_at};
use crate::texts::{TextFacts, Word};
use jk_model::{ClassFile, PoolEntry};

/// The number of the least spot whose name has not the form that it needs.
pub(crate) fn bad_names(c: &ClassFile, facts: &[Option<TextFacts>]) -> Option<u32>
    requires known { AreFacts c.now.pool facts.now }
    requires fields { length c.now.fields < 2 ^ 16 }
    requires methods { length c.now.methods < 2 ^ 16 }
    requires entries { length c.now.pool < 2 ^ 16 }
    ensures { IsLeastSpot (HasBadName c.now) result }
{
    let pool = KnownPool::of(c, facts);
    let places = FirstPlaces {
        class: has_bad_header(c, facts),
        field: first_at(c.fields.as_slice(), |field| pool.lacks_name(field.name)),
        method: first_at(
            c.methods.as_slice(),
            |method| pool.lacks_method_name(method.name),
        ),
        entry: first_at(c.pool.as_slice(), |entry| pool.is_badly_named(entry)),
    };
    places.number(c.fields.len())
}

/// Whether the class, its parent or one of its interfaces is no Class entry, or is one of an array.
fn has_bad_header(c: &ClassFile, facts: &[Option<TextFacts>]) -> bool
    requires { AreFacts c.now.pool facts.now }
    ensures { IsTrue result ↔ HasBadHeader c.now }
{
    let pool = KnownPool::of(c, facts);
    if pool.names_no_class(c.this_class) {
        return true;
    }
    pool.names_no_class(c.super_class)
        || first_at(c.interfaces.as_slice(), |i| pool.names_no_class(*i)).is_some()
}

impl KnownPool<'_> {
    /// Whether no Class entry stands at an index, or one of an array.
    fn names_no_class(&self, i: u16) -> bool
        requires { IsKnown self.now }
        ensures { IsTrue result ↔ (NamesClass self.now.entries.now i → ⊥) }
    {
        !self.names_class(i)
    }

    /// Whether no text with the form of a name stands at an index.
    fn lacks_name(&self, i: u16) -> bool
        requires { IsKnown self.now }
        ensures { IsTrue result ↔ (HasText IsName self.now.entries.now i → ⊥) }
    {
        match self.text(i) {
            Some(text) => !text.is_name,
            None => true,
        }
    }

    /// Whether no text with the form of a method's name stands at an index.
    fn lacks_method_name(&self, i: u16) -> bool
        requires { IsKnown self.now }
        ensures { IsTrue result ↔ (HasText IsMethodName self.now.entries.now i → ⊥) }
    {
        match self.text(i) {
            Some(text) => !text.is_method_name(),
            None => true,
        }
    }

    /// Whether an entry is a class or a reference whose name has not the form that it needs.
    fn is_badly_named(&self, entry: &PoolEntry) -> bool
        requires { IsKnown self.now }
        ensures { IsTrue result ↔ IsBadlyNamed self.now.entries.now entry.now }
    {
        if let Some(name) = self.class_name(entry) {
            return !name.is_class_entry_name();
        }
        match self.reference(entry) {
            Some(reference) => !reference.name.is_reference_name(reference.kind),
            None => false,
        }
    }
}

impl TextFacts {
    /// Whether it is the name of a method other than `<init>` and `<clinit>`.
    fn is_plain_method_name(&self) -> bool
        ensures { (pool : List PoolEntry) (units : List ℕ) → AreFactsOf pool units self.now
            → IsTrue result ↔ IsPlainMethodName units }
    {
        self.is_name && !self.has_angle
    }

    /// Whether it is the name of a method.
    fn is_method_name(&self) -> bool
        ensures { (pool : List PoolEntry) (units : List ℕ) → AreFactsOf pool units self.now
            → IsTrue result ↔ IsMethodName units }
    {
        if self.is_plain_method_name() {
            return true;
        }
        self.is(Word::Init) || self.is(Word::Clinit)
    }

    /// Whether a reference of this kind may have this name.
    fn is_reference_name(&self, kind: ReferenceKind) -> bool
        ensures { (pool : List PoolEntry) (units : List ℕ) → AreFactsOf pool units self.now
            → IsTrue result ↔ IsReferenceName (kind_of kind) units }
    {
        match kind {
            ReferenceKind::Field => self.is_name && !self.is(Word::Clinit),
            ReferenceKind::Method => self.is_plain_method_name() || self.is(Word::Init),
            ReferenceKind::InterfaceMethod => self.is_plain_method_name(),
        }
    }

    /// Whether it is the descriptor of an array type.
    pub(crate) fn is_array(&self) -> bool
        ensures { (pool : List PoolEntry) (units : List ℕ) → AreFactsOf pool units self.now
            → IsTrue result ↔ IsArrayDescriptor units }
    {
        match self.field {
            Some(shape) => shape.dims >= 1,
            None => false,
        }
    }

    /// Whether a Class entry may have this name.
    fn is_class_entry_name(&self) -> bool
        ensures { (pool : List PoolEntry) (units : List ℕ) → AreFactsOf pool units self.now
            → IsTrue result ↔ IsClassEntryName units }
    {
        self.is_class_name || self.is_array()
    }
}
