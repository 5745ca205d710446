//! A class file that is being linked, and what its indices lead to.

ghost use Rattle.std.specs.Prelude.{◌≡◌, ◌↔◌, ◌<◌, ℕ, IsSome, IsTrue, List, Some, length, slice_index};
ghost use Rattle.jk_model.specs.declared.identifiers.ClassId.{ClassId as AClass};
ghost use Rattle.jk_model_classes.specs.ClassNames.{NamesClass};
ghost use Rattle.jk_model_classes.specs.Members.{ClassAt, TextAt};
ghost use Rattle.jk_model_classes.specs.Worlds.{class_named};
ghost use Rattle.class_linker.specs.Scopes.{IsScope};
ghost use Rattle.class_linker.specs.TextsSaid.{Answers, NamesClassBy, SaysClass};

use crate::linking::name_at;
use class_texts::ClassTexts;
use domain_resolver::NameTable;
use jk_model::{ClassFile, ClassId};
use shared_values::Text;
use std::alloc::Global;

/// A class file with its texts and the classes that these name, and what names mean to it.
#[derive(Clone, Copy)]
pub(crate) struct Scope<'a> {
    pub(crate) alloc: Global,
    pub(crate) file: &'a ClassFile,
    pub(crate) texts: &'a ClassTexts,
    pub(crate) names: &'a NameTable,
    /// The class that each text names, if it names one.
    pub(crate) classes: &'a [Option<ClassId>],
}

/// The class that a name means.
pub(crate) fn class_of(names: &NameTable, name: &[u16]) -> ClassId
    requires { IsSome (class_named names.now name.now) }
    ensures { class_named names.now name.now ≡ Some result }
{
    names.resolve(name).unwrap()
}

impl<'a> Scope<'a> {
    /// What the text at an index spells.
    pub(crate) fn text(&self, i: u16) -> &'a Text
        requires scope { IsScope self.now }
        requires there { ((units : List ℕ) → TextAt self.now.file.now.pool i units → ⊥) → ⊥ }
        ensures { TextAt self.now.file.now.pool i result.now }
    {
        match self.texts.text(i) {
            Some(text) => text,
            None => unreachable!(),
        }
    }

    /// The name of the class that a Class entry is of, which is none of an array.
    pub(crate) fn class_name(&self, i: u16) -> &'a Text
        requires scope { IsScope self.now }
        requires named { (NamesClass self.now.file.now.pool i → ⊥) → ⊥ }
        ensures { ClassAt self.now.file.now.pool i result.now }
    {
        match self.texts.class_name(self.file.pool.as_slice(), i) {
            Some(name) => name,
            None => unreachable!(),
        }
    }

    /// The class that a Class entry is of, which is none of an array.
    pub(crate) fn class(&self, i: u16) -> ClassId
        requires scope { IsScope self.now }
        requires named { (NamesClass self.now.file.now.pool i → ⊥) → ⊥ }
        ensures { NamesClassBy self.now.names.now self.now.file.now.pool i result }
    {
        match name_at(self.file.pool.as_slice(), i) {
            Some(name) => self.class_by(name),
            None => unreachable!(),
        }
    }

    /// The class that the text at an index names, which names one.
    fn class_by(&self, name: u16) -> ClassId
        requires scope { IsScope self.now }
        requires named { ((class : AClass) → SaysClass self.now.names.now self.now.file.now.pool name class → ⊥) → ⊥ }
        ensures { SaysClass self.now.names.now self.now.file.now.pool name result }
    {
        match self.named(name) {
            Some(class) => class,
            None => unreachable!(),
        }
    }

    /// The class that the text at an index names; nothing where it names none.
    fn named(&self, name: u16) -> Option<ClassId>
        requires { IsScope self.now }
        ensures { Answers (SaysClass self.now.names.now self.now.file.now.pool name) result }
    {
        match self.classes.get(usize::from(name)) {
            Some(found) => *found,
            None => None,
        }
    }

    /// Whether the text at an index is this one, which is ASCII.
    pub(crate) fn spells(&self, i: u16, text: &str) -> bool
        requires { IsScope self.now }
        ensures { IsTrue result ↔ TextAt self.now.file.now.pool i text.now }
    {
        match self.texts.text(i) {
            Some(units) => is_text(units.as_slice(), text),
            None => false,
        }
    }
}

/// Whether units are the bytes of a text, as far as both go.
fn agrees(units: &[u16], text: &str) -> bool
    ensures { IsTrue result ↔ ((k : ℕ) → k < length text.now → k < length units.now → slice_index units.now k ≡ slice_index text.now k) }
{
    text.bytes()
        .zip(units)
        .all(|(byte, unit)| u16::from(byte) == *unit)
}

/// Whether the units are the characters of a text, each of which is ASCII.
fn is_text(units: &[u16], text: &str) -> bool
    ensures { IsTrue result ↔ (units.now ≡ text.now) }
{
    units.len() == text.len() && agrees(units, text)
}
