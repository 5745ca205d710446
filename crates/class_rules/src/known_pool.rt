//! A constant pool with what is known of its texts, and what its indices and entries lead to.

ghost use Rattle.std.specs.Prelude.{◌≡◌, ℕ, ◌↔◌, List, IsTrue, MatchOption, Some, None, slice_get};
ghost use Rattle.jk_model.specs.declared.class_file.PoolEntry.{PoolEntry};
ghost use Rattle.jk_model.specs.declared.class_file.PoolEntry.TheVariants.{NameAndType};
ghost use Rattle.jk_model_classes.specs.ClassNames.{NamesClass};
ghost use Rattle.jk_model_classes.specs.Members.{TextAt};
ghost use Rattle.class_rules.specs.Entries.{reference_of};
ghost use Rattle.class_rules.specs.KnownPools.{IsKnown, IsTextKnown, ArePairKnown, IsClassKnown, IsNameKnown, IsReferenceKnown};
ghost use Rattle.class_rules.specs.Texts.{AreFactsOf, word_text};

use crate::texts::{TextFacts, Word};
use jk_model::{ClassFile, PoolEntry};

/// A pool, and at the same indices what is known of its texts.
#[derive(Clone, Copy)]
pub(crate) struct KnownPool<'a> {
    pub entries: &'a [PoolEntry],
    pub texts: &'a [Option<TextFacts>],
}

/// What a reference refers to.
#[derive(Clone, Copy)]
pub(crate) enum ReferenceKind {
    Field,
    Method,
    InterfaceMethod,
}

/// What is known of a reference to a member.
#[derive(Clone, Copy)]
pub(crate) struct Reference {
    pub kind: ReferenceKind,
    pub name: TextFacts,
    pub descriptor: TextFacts,
}

impl TextFacts {
    /// Whether the text is this word.
    pub(crate) fn is(&self, word: Word) -> bool
        ensures { (pool : List PoolEntry) (units : List ℕ) → AreFactsOf pool units self.now
            → IsTrue result ↔ (units ≡ word_text word) }
    {
        self.word == Some(word)
    }
}

impl<'a> KnownPool<'a> {
    /// The pool of a class file.
    pub(crate) fn of(c: &'a ClassFile, facts: &'a [Option<TextFacts>]) -> KnownPool<'a>
        ensures entries { result.entries.now ≡ c.now.pool }
        ensures texts { result.texts.now ≡ facts.now }
    {
        KnownPool {
            entries: c.pool.as_slice(),
            texts: facts,
        }
    }

    /// The entry at an index.
    pub(crate) fn entry_at(&self, i: usize) -> Option<&PoolEntry>
        ensures { MatchOption result (slice_get self.now.entries.now i ≡ None)
            (λ entry. slice_get self.now.entries.now i ≡ Some entry.now) }
    {
        self.entries.get(i)
    }

    /// What is known of the text at an index.
    pub(crate) fn text(&self, i: u16) -> Option<TextFacts>
        requires { IsKnown self.now }
        ensures { IsTextKnown self.now.entries.now i result }
    {
        match self.texts.get(usize::from(i)) {
            Some(facts) => *facts,
            None => None,
        }
    }

    /// Whether this word stands at an index.
    pub(crate) fn is_word(&self, i: u16, word: Word) -> bool
        requires { IsKnown self.now }
        ensures { IsTrue result ↔ TextAt self.now.entries.now i (word_text word) }
    {
        match self.text(i) {
            Some(text) => text.is(word),
            None => false,
        }
    }

    /// The indices of the name and of the descriptor at an index.
    fn pair_at(&self, i: u16) -> Option<(u16, u16)>
        ensures { MatchOption result
            ((n d : ℕ) → slice_get self.now.entries.now i ≡ Some (NameAndType n d) → ⊥)
            (λ pair. slice_get self.now.entries.now i ≡ Some (NameAndType pair.0 pair.1)) }
    {
        match self.entries.get(usize::from(i)) {
            Some(PoolEntry::NameAndType(name, descriptor)) => Some((*name, *descriptor)),
            _ => None,
        }
    }

    /// What is known of the name and of the descriptor at an index.
    pub(crate) fn name_and_type(&self, i: u16) -> Option<(TextFacts, TextFacts)>
        requires { IsKnown self.now }
        ensures { ArePairKnown self.now.entries.now i result }
    {
        let (n, d) = self.pair_at(i)?;
        let name = self.text(n)?;
        let descriptor = self.text(d)?;
        Some((name, descriptor))
    }

    /// What is known of the name of a class, where the entry is one.
    pub(crate) fn class_name(&self, entry: &PoolEntry) -> Option<TextFacts>
        requires { IsKnown self.now }
        ensures { IsClassKnown self.now.entries.now entry.now result }
    {
        match entry {
            PoolEntry::Class(name) => self.text(*name),
            _ => None,
        }
    }

    /// What is known of the name of the class at an index.
    pub(crate) fn class_name_at(&self, i: usize) -> Option<TextFacts>
        requires { IsKnown self.now }
        ensures { IsNameKnown self.now.entries.now i result }
    {
        match self.entry_at(i) {
            Some(entry) => self.class_name(entry),
            None => None,
        }
    }

    /// Whether a class that isn't an array's stands at an index.
    pub(crate) fn names_class(&self, i: u16) -> bool
        requires { IsKnown self.now }
        ensures { IsTrue result ↔ NamesClass self.now.entries.now i }
    {
        match self.class_name_at(usize::from(i)) {
            Some(name) => !name.begins_array,
            None => false,
        }
    }

    /// What is known of a reference, where the entry is one.
    pub(crate) fn reference(&self, entry: &PoolEntry) -> Option<Reference>
        requires { IsKnown self.now }
        ensures { IsReferenceKnown self.now.entries.now entry.now result }
    {
        let (kind, pair) = kind_and_pair(entry)?;
        let (name, descriptor) = self.name_and_type(pair)?;
        Some(Reference {
            kind,
            name,
            descriptor,
        })
    }
}

/// The kind of a reference, and the index of its name and descriptor.
fn kind_and_pair(entry: &PoolEntry) -> Option<(ReferenceKind, u16)>
    ensures { result ≡ reference_of entry.now }
{
    match entry {
        PoolEntry::FieldRef(_, pair) => Some((ReferenceKind::Field, *pair)),
        PoolEntry::MethodRef(_, pair) => Some((ReferenceKind::Method, *pair)),
        PoolEntry::InterfaceMethodRef(_, pair) => Some((ReferenceKind::InterfaceMethod, *pair)),
        _ => None,
    }
}
