//! The rule C10: descriptors, opcodes and constants of float or double.

ghost use Rattle.std.specs.Prelude.{◌≡◌, ℕ, ◌<◌, ◌^◌, ◌↔◌, List, IsTrue, IfSome, length};
ghost use Rattle.jk_model.specs.declared.class_file.PoolEntry.{PoolEntry};
ghost use Rattle.jk_model.specs.declared.descriptors.Base.{Base};
ghost use Rattle.jk_model_classes.specs.ClassNames.{HasText};
ghost use Rattle.jk_model_classes.specs.MemberCode.{UsesFloat};
ghost use Rattle.jk_model_classes.specs.MemberDescriptors.{IsFloatBase, IsFloatField, IsFloatArray, IsFloatMethod, IsFloatReference};
ghost use Rattle.class_rules.specs.Answers.{IsLeastSpot};
ghost use Rattle.class_rules.specs.CodeRules.{AreMethodsJudged};
ghost use Rattle.class_rules.specs.Entries.{kind_of, IsFloatEntry};
ghost use Rattle.class_rules.specs.KnownPools.{IsKnown};
ghost use Rattle.class_rules.specs.Texts.{AreFacts, AreFactsOf, kind_of as kind_of_base};
ghost use Rattle.class_rules.specs.Walks.{IsLeastItem};

use crate::code_rules::{CodeRule, first_code};
use crate::codes::CodeJudgment;
use crate::known_pool::{KnownPool, Reference, ReferenceKind};
use crate::members::{FirstPlaces, earlier, first_at};
use crate::texts::{Kind, TextFacts};
use jk_model::{ClassFile, PoolEntry};

/// The number of the least spot of float or double: a member or an entry with such a descriptor, or a method whose
/// code has such an opcode or loads such a constant.
pub(crate) fn bad_floats(
    c: &ClassFile,
    facts: &[Option<TextFacts>],
    judged: &[Option<CodeJudgment>],
) -> Option<u32>
    requires known { AreFacts c.now.pool facts.now }
    requires judged { AreMethodsJudged c.now judged.now }
    requires fields { length c.now.fields < 2 ^ 16 }
    requires methods { length c.now.methods < 2 ^ 16 }
    requires entries { length c.now.pool < 2 ^ 16 }
    ensures { IsLeastSpot (UsesFloat c.now) result }
{
    let by_descriptor = first_float_method(c, facts);
    let by_code = first_code(CodeRule::Floats, judged);
    let places = FirstPlaces {
        class: false,
        field: first_float_field(c, facts),
        method: earlier(by_descriptor, by_code),
        entry: first_float_entry(c, facts),
    };
    places.number(c.fields.len())
}

/// The place of the first field of float or double, or of an array of them.
fn first_float_field(c: &ClassFile, facts: &[Option<TextFacts>]) -> Option<usize>
    requires { AreFacts c.now.pool facts.now }
    ensures least { IsLeastItem (λ field. HasText IsFloatField c.now.pool field.descriptor) c.now.fields result }
    ensures within { IfSome result (λ i. i < length c.now.fields) }
{
    let pool = KnownPool::of(c, facts);
    first_at(
        c.fields.as_slice(),
        |field| pool.is_float_field(field.descriptor),
    )
}

/// The place of the first method with a parameter or a result of float or double, or of an array of them.
fn first_float_method(c: &ClassFile, facts: &[Option<TextFacts>]) -> Option<usize>
    requires { AreFacts c.now.pool facts.now }
    ensures least { IsLeastItem (λ method. HasText IsFloatMethod c.now.pool method.descriptor) c.now.methods result }
    ensures within { IfSome result (λ i. i < length c.now.methods) }
{
    let pool = KnownPool::of(c, facts);
    first_at(
        c.methods.as_slice(),
        |method| pool.is_float_method(method.descriptor),
    )
}

/// The index of the first entry that is an array of float or double, or refers to a member with such a type.
fn first_float_entry(c: &ClassFile, facts: &[Option<TextFacts>]) -> Option<usize>
    requires { AreFacts c.now.pool facts.now }
    ensures least { IsLeastItem (λ entry. IsFloatEntry c.now.pool entry) c.now.pool result }
    ensures within { IfSome result (λ i. i < length c.now.pool) }
{
    let pool = KnownPool::of(c, facts);
    first_at(c.pool.as_slice(), |entry| pool.is_float_entry(entry))
}

impl KnownPool<'_> {
    /// Whether the descriptor of a field of float or double stands at an index.
    fn is_float_field(&self, i: u16) -> bool
        requires { IsKnown self.now }
        ensures { IsTrue result ↔ HasText IsFloatField self.now.entries.now i }
    {
        match self.text(i) {
            Some(text) => text.is_float_field(),
            None => false,
        }
    }

    /// Whether the descriptor of a method with a float or double stands at an index.
    fn is_float_method(&self, i: u16) -> bool
        requires { IsKnown self.now }
        ensures { IsTrue result ↔ HasText IsFloatMethod self.now.entries.now i }
    {
        match self.text(i) {
            Some(text) => text.is_float_method(),
            None => false,
        }
    }

    /// Whether an entry is an array of float or double, or refers to a member with such a type.
    fn is_float_entry(&self, entry: &PoolEntry) -> bool
        requires { IsKnown self.now }
        ensures { IsTrue result ↔ IsFloatEntry self.now.entries.now entry.now }
    {
        if let Some(name) = self.class_name(entry) {
            return name.is_float_array();
        }
        match self.reference(entry) {
            Some(reference) => reference.is_float(),
            None => false,
        }
    }
}

impl Reference {
    /// Whether it refers to a member with a float or double.
    fn is_float(&self) -> bool
        ensures { (pool : List PoolEntry) (descriptor : List ℕ) → AreFactsOf pool descriptor self.now.descriptor
            → IsTrue result ↔ IsFloatReference (kind_of self.now.kind) descriptor }
    {
        match self.kind {
            ReferenceKind::Field => self.descriptor.is_float_field(),
            ReferenceKind::Method => self.descriptor.is_float_method(),
            ReferenceKind::InterfaceMethod => self.descriptor.is_float_method(),
        }
    }
}

impl TextFacts {
    /// Whether it is the descriptor of a field of float or double, or of an array of them.
    fn is_float_field(&self) -> bool
        ensures { (pool : List PoolEntry) (units : List ℕ) → AreFactsOf pool units self.now
            → IsTrue result ↔ IsFloatField units }
    {
        match self.field {
            Some(shape) => shape.kind.is_float(),
            None => false,
        }
    }

    /// Whether it is the descriptor of an array of float or double.
    fn is_float_array(&self) -> bool
        ensures { (pool : List PoolEntry) (units : List ℕ) → AreFactsOf pool units self.now
            → IsTrue result ↔ IsFloatArray units }
    {
        self.is_array() && self.is_float_field()
    }

    /// Whether it is the descriptor of a method with a parameter or a result of float or double, or of an array of them.
    fn is_float_method(&self) -> bool
        ensures { (pool : List PoolEntry) (units : List ℕ) → AreFactsOf pool units self.now
            → IsTrue result ↔ IsFloatMethod units }
    {
        match self.method {
            Some(shape) => shape.has_float,
            None => false,
        }
    }
}

impl Kind {
    /// Whether it is float or double.
    fn is_float(self) -> bool
        ensures { (base : Base) → self ≡ kind_of_base base → IsTrue result ↔ IsFloatBase base }
    {
        match self {
            Kind::Float | Kind::Double => true,
            _ => false,
        }
    }
}
