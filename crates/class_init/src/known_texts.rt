//! Texts that a domain knows, each once.

ghost use Rattle.std.specs.Prelude.{◌≡◌, ◌<◌, ◌++◌, ◌∷◌, [], ℕ, Contains, IfOk, MatchOption, None, OnErr, OnOk, Some, length, slice_get};
ghost use Rattle.shared_values.specs.Fingerprints.{fingerprint_of};
ghost use Rattle.class_init.specs.Texts.{AddsText, AreChained, HasTextAt, IsNewest, LacksText};

use jk_model::OutOfMemory;
use shared_values::{Text, fingerprint};
use std::alloc::Global;
use std::collections::BTreeMap;
use std::marker::Model;

/// A text that is known.
#[derive(Drop)]
struct TextEntry {
    text: Text,
    /// The place of the newest entry before this one whose text has the same fingerprint.
    before: Option<usize>,
}

/// Texts, of which no two are equal, in the order in which they were added. A contract sees the list of them. A text is found
/// by its fingerprint, and stands in memory once for all who share it.
#[derive(Drop)]
pub(crate) struct KnownTexts {
    entries: Vec<TextEntry>,
    /// The place of the newest entry whose text has a fingerprint. It is kept by order: strangers choose the texts, and where a
    /// hash is known, they find many that agree in the few bits of it that say where a hashed map puts them.
    newest: BTreeMap<u64, usize>,
}

impl Model for KnownTexts {
    ghost use Rattle.std.specs.Prelude.{List, ℕ, map};

    ghost Value = { List (List ℕ) };

    ghost use Rattle.class_init.specs.Texts.{IsIndex, text_of};

    ghost view = { λ t. map text_of t.entries.items };

    ghost invariant = { λ t. IsIndex t.entries.items t.newest.entries };
}

impl KnownTexts {
    /// No texts, which take no memory yet.
    pub(crate) fn new(alloc: Global) -> KnownTexts
        ensures { result ≡ [] }
    {
        KnownTexts {
            entries: Vec::new(alloc),
            newest: BTreeMap::new(alloc),
        }
    }

    /// How many texts there are.
    pub(crate) fn len(&self) -> usize
        ensures { result ≡ length self.now }
    {
        self.entries.len()
    }

    /// Adds a text after the others, where it isn't known. It copies no units, and compares units only with a text of the
    /// same fingerprint.
    pub(crate) fn add(&mut self, text: &Text) -> Result<(), OutOfMemory>
        ensures ok { OnOk result (AddsText self.old text.now self.new) }
        ensures err { OnErr result (self.new ≡ self.old) }
    {
        if self.place_of(text.as_slice(), text.fingerprint()).is_some() {
            return Ok(());
        }
        let text = text.share()?;
        self.push(text)
    }

    /// Adds a text of these units after the others, where it isn't known. It copies units only then, and compares them only
    /// with a text of the same fingerprint.
    pub(crate) fn add_units(&mut self, units: &[u16]) -> Result<(), OutOfMemory>
        ensures ok { OnOk result (AddsText self.old units.now self.new) }
        ensures err { OnErr result (self.new ≡ self.old) }
    {
        if self.place_of(units, fingerprint(units)).is_some() {
            return Ok(());
        }
        let text = Text::new(*self.entries.allocator(), units)?;
        self.push(text)
    }

    /// The place of a text that has this fingerprint; none where it isn't known.
    pub(crate) fn place_of(&self, units: &[u16], fingerprint: u64) -> Option<usize>
        requires { fingerprint ≡ fingerprint_of units.now }
        ensures { MatchOption result (Contains self.now units.now → ⊥) (λ place. slice_get self.now place ≡ Some units.now) }
    {
        let newest = self.newest.get(&fingerprint).copied();
        place_from(self.entries.as_slice(), newest, units)
    }

    /// The text at a place.
    pub(crate) fn at(&self, place: usize) -> &Text
        requires { place < length self.now }
        ensures { slice_get self.now place ≡ Some result.now }
    {
        let entry = &self.entries[place];
        &entry.text
    }

    /// What holds of all texts: no two are equal. It does nothing.
    pub(crate) fn differ(&self)
        ensures { (i j : ℕ) (text : Rattle.std.specs.Prelude.List ℕ) → slice_get self.now i ≡ Some text → slice_get self.now j ≡ Some text → i ≡ j }
    {
        let _entries = &self.entries;
    }

    /// Puts a text that isn't known after all others.
    fn push(&mut self, text: Text) -> Result<(), OutOfMemory>
        requires { Contains self.old text → ⊥ }
        ensures ok { OnOk result (self.new ≡ self.old ++ text ∷ []) }
        ensures err { OnErr result (self.new ≡ self.old) }
    {
        self.entries.reserve(1)?;
        let place = self.entries.len();
        let before = self.newest.insert(text.fingerprint(), place)?;
        self.entries.push_reserved(TextEntry { text, before });
        Ok(())
    }
}

/// The place of the entry with these units. It looks at the entries whose texts have their fingerprint, of which the newest
/// stands at the place given.
fn place_from(entries: &[TextEntry], newest: Option<usize>, units: &[u16]) -> Option<usize>
    requires newest { IsNewest entries.now (fingerprint_of units.now) (length entries.now) newest }
    requires each { AreChained entries.now }
    ensures { MatchOption result (LacksText entries.now units.now) (λ place. HasTextAt entries.now units.now place) }
{
    let mut next = newest;
    while let Some(place) = next {
        let entry = &entries[place];
        if entry.text.is(units) {
            return Some(place);
        }
        next = entry.before;
    }
    None
}
