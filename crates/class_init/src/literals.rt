//! The literals of a domain: the texts that it knows, and the objects of those that have one.

ghost use Rattle.std.specs.Prelude.{◌≡◌, ◌↔◌, ◌++◌, ◌∷◌, [], ℕ, List as AList, bytes_eq, Contains, IfOk, IsTrue, None, Some, find, map, option_map, slice_get};
ghost use Rattle.shared_values.specs.Fingerprints.{fingerprint_of};
ghost use Rattle.jk_model_classes.specs.declared.records.FieldRecord.{FieldRecord as AField};
ghost use Rattle.jk_model_domains.specs.declared.states.LiteralImage.{LiteralImage as AnImage};
ghost use Rattle.jk_model_domains.specs.OwnStates.{Literal, OwnState, literal_image};
ghost use Rattle.class_init.specs.Literals.{literal_from};
ghost use Rattle.class_init.specs.MissingTexts.{HasTextConstant, IsCostOfMissing};

use crate::known_texts::KnownTexts;
use crate::missing_texts::{mark_missing, unmark_missing};
use indexmap::IndexMap;
use jk_model::{OutOfMemory, Units};
use jk_model_classes::FieldRecord;
use jk_model_domains::LiteralImage;
use shared_values::fingerprint;
use std::alloc::Global;
use std::marker::Model;

/// The texts that a domain knows, and the names of the objects of those that have one. It has room for one name for each text.
#[derive(Drop)]
pub(crate) struct Literals {
    texts: KnownTexts,
    /// By the place of a text, the name of its object, in the order in which they were given.
    /// The map's hash is known, but nobody picks its keys: they are places below the number of texts, and it has room for all
    /// of these from the beginning. So no more of them meet in it than of the numbers from 0 on, which spread.
    names: IndexMap<usize, u32>,
    /// A mark for each text, for `missing_words` alone: between calls no text is marked.
    marks: Vec<bool>,
}

impl Model for Literals {
    ghost use Rattle.class_init.specs.Literals.{LiteralTable};

    ghost Value = { LiteralTable };

    ghost use Rattle.std.specs.Prelude.{map};
    ghost use Rattle.indexmap.specs.IndexMap.{spare};
    ghost use Rattle.class_init.specs.Literals.{AreNamed, literal_of};

    ghost view = { λ l. record { texts = l.texts; literals = map (literal_of l.texts) l.names.entries } };

    ghost invariant = { λ l. AreNamed l.texts l.names.entries (spare l.names) l.marks.items };
}

impl Literals {
    /// These texts, of which none has an object yet, with room for the name of each.
    pub(crate) fn of(alloc: Global, texts: KnownTexts) -> Result<Literals, OutOfMemory>
        ensures { IfOk result (λ l. l ≡ record { texts = texts; literals = [] }) }
    {
        texts.differ();
        let names = IndexMap::with_capacity(alloc, texts.len())?;
        let marks = vec![in alloc; false; texts.len()]?;
        Ok(Literals {
            texts,
            names,
            marks,
        })
    }

    /// The name of the object of a text, which has this fingerprint; none where it has no object.
    pub(crate) fn named(&self, units: &[u16], fingerprint: u64) -> Option<u32>
        requires { fingerprint ≡ fingerprint_of units.now }
        ensures { result ≡ option_map (λ (l : Literal). l.name) (find (λ (l : Literal). bytes_eq l.text units.now) self.now.literals) }
    {
        let place = self.texts.place_of(units, fingerprint)?;
        self.names.get(&place).copied()
    }

    /// Whether a text, which has this fingerprint, is known.
    pub(crate) fn knows(&self, units: &[u16], fingerprint: u64) -> bool
        requires { fingerprint ≡ fingerprint_of units.now }
        ensures { IsTrue result ↔ Contains self.now.texts units.now }
    {
        self.texts.place_of(units, fingerprint).is_some()
    }

    /// Gives a text, which has this fingerprint, its object. It takes no memory.
    pub(crate) fn set(&mut self, units: &[u16], fingerprint: u64, name: u32)
        requires print { fingerprint ≡ fingerprint_of units.now }
        requires known { Contains self.old.texts units.now }
        requires new { find (λ (l : Literal). bytes_eq l.text units.now) self.old.literals ≡ None }
        ensures { self.new ≡ record self.old { literals = self.old.literals ++ record { text = units.now; name = name } ∷ [] } }
    {
        let Some(place) = self.texts.place_of(units, fingerprint) else {
            unreachable!()
        };
        match self.names.insert(place, name) {
            Ok(_) => {}
            Err(_) => unreachable!(),
        }
    }

    /// Gives these texts, which are known and of which no two are equal, their objects, where none has one yet. It takes no
    /// memory.
    pub(crate) fn restore_all(&mut self, images: &[LiteralImage])
        requires none { self.old.literals ≡ [] }
        requires known { (l : AnImage) → Contains images.now l → Contains self.old.texts l.text }
        requires differ { (i j : ℕ) (a b : AnImage) → slice_get images.now i ≡ Some a → slice_get images.now j ≡ Some b → a.text ≡ b.text → i ≡ j }
        ensures { self.new ≡ record self.old { literals = map literal_from images.now } }
    {
        for image in images {
            let units = image.text.as_slice();
            self.set(units, fingerprint(units), image.name);
        }
    }

    /// What the objects cost together of the texts that are constants of static fields among these and have no object yet, equal
    /// ones once. It takes no memory, and time in proportion to n log m for n fields and m texts.
    pub(crate) fn missing_words(&mut self, fields: &[FieldRecord]) -> u64
        requires { (f : AField) (text : AList ℕ) → Contains fields.now f → HasTextConstant f text → Contains self.old.texts text }
        ensures words { (own : OwnState) → own.literals ≡ self.old.literals → IsCostOfMissing own fields.now result }
        ensures same { self.new ≡ self.old }
    {
        let marks = self.marks.as_mut_slice();
        let words = mark_missing(&self.texts, &self.names, marks, fields);
        unmark_missing(&self.texts, &self.names, marks, fields);
        words
    }

    /// What holds of all texts and literals: no two texts are equal, no two literals have one text, and the text of each literal
    /// is known. It does nothing.
    pub(crate) fn differ(&self)
        ensures texts { (i j : ℕ) (text : AList ℕ) → slice_get self.now.texts i ≡ Some text → slice_get self.now.texts j ≡ Some text → i ≡ j }
        ensures literals { (i j : ℕ) (a b : Literal) → slice_get self.now.literals i ≡ Some a → slice_get self.now.literals j ≡ Some b
            → a.text ≡ b.text → i ≡ j }
        ensures known { (l : Literal) → Contains self.now.literals l → Contains self.now.texts l.text }
    {
        let _names = &self.names;
    }

    /// The literals that have an object, in the order in which they were given.
    pub(crate) fn images(&self, alloc: Global) -> Result<Vec<LiteralImage>, OutOfMemory>
        ensures { IfOk result (λ images. images.items ≡ map literal_image self.now.literals) }
    {
        let mut images = Vec::new(alloc);
        for (place, name) in self.names.iter() {
            let text = self.texts.at(*place);
            images.push(LiteralImage {
                text: Units::from_slice(alloc, text.as_slice())?,
                name: *name,
            })?;
        }
        Ok(images)
    }
}
