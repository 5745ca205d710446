//! The texts of a pool.

ghost use Rattle.std.specs.Prelude.{◌≡◌, ◌<◌, ◌^◌, ℕ, IfOk, length, List, MatchOption, Option, Some, slice_get};
ghost use Rattle.std.specs.List.{AllByRecursion};
ghost use Rattle.jk_model.specs.declared.class_file.PoolEntry.TheVariants.{Class};
ghost use Rattle.jk_model.specs.ClassFile.{IsEntry, IsGoodEntry};
ghost use Rattle.jk_model.specs.Text.{IsModifiedUtf8, Spells};
ghost use Rattle.jk_model_classes.specs.Members.{ClassAt};
ghost use Rattle.class_texts.specs.EntryTexts.{IsText, IsTextOf};
ghost use Rattle.class_texts.specs.PoolTexts.{AreTextsOf};

use jk_model::{OutOfMemory, PoolEntry};
use shared_values::Text;
use std::alloc::Global;
use std::marker::Model;
use unit_text::{UnitsError, units_of};

/// What each Utf8 entry of a pool spells. Contracts see it as a list with one item for each entry: the units, or nothing for
/// entries of another kind.
#[derive(Drop)]
pub struct ClassTexts {
    texts: Vec<Option<Text>>,
}

impl Model for ClassTexts {
    ghost use Rattle.std.specs.Prelude.{List, Option, ℕ};

    ghost Value = { List (Option (List ℕ)) };

    ghost view = { λ t. t.texts.items };
}

impl ClassTexts {
    /// The texts of a pool as a class file has it, whose entries are good. It takes time and memory in proportion to the pool.
    pub fn of(alloc: Global, pool: &[PoolEntry]) -> Result<ClassTexts, OutOfMemory>
        requires good { AllByRecursion (IsGoodEntry pool.now) pool.now }
        requires entries { AllByRecursion IsEntry pool.now }
        ensures { IfOk result (λ t. AreTextsOf pool.now t) }
    {
        let mut texts = Vec::new(alloc);
        for entry in pool {
            texts.push(text_of(alloc, entry)?)?;
        }
        Ok(ClassTexts { texts })
    }

    /// What the entry at an index spells; nothing where it is no Utf8 entry.
    pub fn text(&self, i: u16) -> Option<&Text>
        ensures { MatchOption result ((units : List ℕ) → slice_get self.now i ≡ Some (Some units) → ⊥) (λ text. slice_get self.now i ≡ Some (Some text.now)) }
    {
        match self.texts.get(usize::from(i)) {
            Some(Some(text)) => Some(text),
            _ => None,
        }
    }

    /// The name of the Class entry at an index; nothing where it is no Class entry.
    pub fn class_name(&self, pool: &[PoolEntry], i: u16) -> Option<&Text>
        requires { AreTextsOf pool.now self.now }
        ensures { MatchOption result ((units : List ℕ) → ClassAt pool.now i units → ⊥) (λ text. ClassAt pool.now i text.now) }
    {
        let entry = pool.get(usize::from(i))?;
        let name = name_index(entry)?;
        self.text(name)
    }
}

/// Where the name stands of the class that an entry is of.
fn name_index(entry: &PoolEntry) -> Option<u16>
    ensures { MatchOption result ((n : ℕ) → entry.now ≡ Class n → ⊥) (λ n. entry.now ≡ Class n) }
{
    match entry {
        PoolEntry::Class(name) => Some(*name),
        _ => None,
    }
}

/// The text of bytes that are known to be one.
fn text_of_bytes(alloc: Global, bytes: &[u8]) -> Result<Text, OutOfMemory>
    requires text { IsModifiedUtf8 bytes.now }
    requires short { length bytes.now < 2 ^ 32 }
    ensures { IfOk result (λ text. Spells bytes.now text) }
{
    match units_of(alloc, bytes) {
        Ok(units) => Text::new(alloc, units.as_slice()),
        Err(UnitsError::BadForm(_)) => unreachable!(),
        Err(UnitsError::OutOfMemory) => Err(OutOfMemory),
    }
}

/// What an entry spells.
fn text_of(alloc: Global, entry: &PoolEntry) -> Result<Option<Text>, OutOfMemory>
    requires text { IsText entry.now }
    requires is_entry { IsEntry entry.now }
    ensures { IfOk result (λ text. IsTextOf entry.now text) }
{
    match entry {
        PoolEntry::Utf8(bytes) => Ok(Some(text_of_bytes(alloc, bytes.as_slice())?)),
        _ => Ok(None),
    }
}
