//! A text with several owners, which contracts see as its units.

ghost use Rattle.std.specs.Prelude.{◌≡◌, ◌↔◌, length, IfOk, IsTrue};
ghost use Rattle.shared_values.specs.Fingerprints.{fingerprint_of};

use crate::fingerprints::fingerprint;
use jk_model::{OutOfMemory, Units};
use std::alloc::Global;
use std::marker::Model;
use std::rc::Rc;

/// What stands in memory once.
#[derive(Drop)]
struct Stored {
    units: Units,
    fingerprint: u64,
}

/// UTF-16 code units that stand in memory once, for all who share them, with their fingerprint. An owner's
/// handle takes 8 bytes.
#[derive(Drop)]
pub struct Text {
    stored: Rc<Stored>,
}

impl Model for Text {
    ghost use Rattle.std.specs.Prelude.{◌≡◌, ℕ, List};
    ghost use Rattle.shared_values.specs.Fingerprints.{fingerprint_of};

    ghost Value = { List ℕ };

    ghost view = { λ t. t.stored.value.units };

    ghost invariant = { λ t. t.stored.value.fingerprint ≡ fingerprint_of t.stored.value.units };
}

impl Text {
    /// The text of these units, with one owner so far. It takes time and memory in proportion to the units.
    pub fn new(alloc: Global, units: &[u16]) -> Result<Text, OutOfMemory>
        ensures { IfOk result (λ text. text ≡ units.now) }
    {
        let fingerprint = fingerprint(units);
        let units = Units::from_slice(alloc, units)?;
        let stored = Rc::new(alloc, Stored { units, fingerprint })?;
        Ok(Text { stored })
    }

    /// One more owner of the same units. It takes no memory, and fails only where the count of owners is at
    /// its end.
    pub fn share(&self) -> Result<Text, OutOfMemory>
        ensures { IfOk result (λ text. text ≡ self.now) }
    {
        let stored = self.stored.clone()?;
        Ok(Text { stored })
    }

    /// How many units there are.
    pub fn len(&self) -> usize
        ensures { result ≡ length self.now }
    {
        self.as_slice().len()
    }

    /// The units.
    pub fn as_slice(&self) -> &[u16]
        ensures { result.now ≡ self.now }
    {
        self.stored.as_ref().units.as_slice()
    }

    /// The fingerprint, in constant time.
    pub fn fingerprint(&self) -> u64
        ensures { result ≡ fingerprint_of self.now }
    {
        self.stored.as_ref().fingerprint
    }

    /// Whether it has these units. It takes no memory, and constant time where the lengths differ.
    pub fn is(&self, units: &[u16]) -> bool
        ensures { IsTrue result ↔ (self.now ≡ units.now) }
    {
        self.as_slice() == units
    }
}
