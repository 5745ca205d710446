//! The parts that classes have in a domain.

ghost use Rattle.std.specs.Prelude.{◌≡◌, ◌≤◌, ◌↔◌, ◌++◌, ◌∷◌, [], ℕ, IfSome, IsTrue, MatchOption, None, OnErr, OnOk, Some, length, map, option_and_then, option_map, slice_get};
ghost use Rattle.jk_model_domains.specs.OwnStates.{ClassPart, static_in, with_field, with_part};
ghost use Rattle.class_init.specs.Parts.{FitsAll, HasPartOf, IsPartAt, class_part, first_part, part_in, restored, restored_all};

use crate::first_fields::first_fields;
use crate::statics::Statics;
use indexmap::IndexSet;
use jk_model::{ClassId, MemberId, OutOfMemory, Value};
use jk_model_classes::ClassRecord;
use jk_model_domains::{ClassState, OwnClass};
use std::alloc::Global;
use std::marker::Model;

/// The part of one class.
#[derive(Drop)]
pub(crate) struct Part {
    pub(crate) class: ClassId,
    pub(crate) state: ClassState,
    pub(crate) statics: Statics,
}

/// The parts of classes, of which none has two. A contract sees the list of them.
#[derive(Drop)]
pub(crate) struct ClassParts {
    pub(crate) parts: Vec<Part>,
    /// The numbers of their classes, in the same order.
    numbers: IndexSet<u32>,
}

impl Model for ClassParts {
    ghost use Rattle.std.specs.Prelude.{List, map};
    ghost use Rattle.jk_model_domains.specs.OwnStates.{ClassPart};

    ghost Value = { List ClassPart };

    ghost use Rattle.class_init.specs.Parts.{AreNumbered, class_part};

    ghost view = { λ p. map class_part p.parts.items };

    ghost invariant = { λ p. AreNumbered p.parts.items p.numbers.keys };
}

impl ClassParts {
    /// No parts, which take no memory yet.
    pub(crate) fn new(alloc: Global) -> ClassParts
        ensures { result ≡ [] }
    {
        ClassParts {
            parts: Vec::new(alloc),
            numbers: IndexSet::new(alloc),
        }
    }

    /// Whether a class has a part.
    pub(crate) fn has(&self, c: ClassId) -> bool
        ensures { IsTrue result ↔ HasPartOf self.now c }
    {
        self.place_of(c).is_some()
    }

    /// How far a class is initialised; none where it has no part.
    pub(crate) fn state(&self, c: ClassId) -> Option<ClassState>
        ensures { result ≡ option_map (λ (e : ClassPart). e.state) (part_in self.now c) }
    {
        let place = self.place_of(c)?;
        Some(self.parts[place].state)
    }

    /// Sets how far a class is initialised, where it has a part.
    pub(crate) fn set_state(&mut self, c: ClassId, s: ClassState)
        ensures { self.new ≡ with_part c (λ e. record e { state = s }) self.old }
    {
        if let Some(place) = self.place_of(c) {
            self.parts[place].state = s;
        }
    }

    /// The value of a static field; none where its class has no part or no such static field.
    pub(crate) fn value(&self, m: MemberId) -> Option<Value>
        ensures { result ≡ option_and_then (static_in m.index) (part_in self.now m.class) }
    {
        let place = self.place_of(m.class)?;
        let part = &self.parts[place];
        part.statics.value(m.index)
    }

    /// Sets the value of a static field, where its class has a part with it.
    pub(crate) fn set_value(&mut self, m: MemberId, v: Value)
        ensures { self.new ≡ with_part m.class (λ e. record e { statics = with_field m.index v e.statics }) self.old }
    {
        if let Some(place) = self.place_of(m.class) {
            let part = &mut self.parts[place];
            part.statics.set(m.index, v);
        }
    }

    /// Puts the part of a class that has none after the others, as it begins.
    pub(crate) fn add(&mut self, c: ClassId, class: &ClassRecord) -> Result<(), OutOfMemory>
        requires free { part_in self.old c ≡ None }
        requires few { length class.now.fields ≤ 65535 }
        ensures ok { OnOk result (self.new ≡ self.old ++ first_part c class.now ∷ []) }
        ensures err { OnErr result (self.new ≡ self.old) }
    {
        let statics = first_fields(*self.parts.allocator(), class.fields.as_slice())?;
        self.parts.reserve(1)?;
        self.numbers.insert(c.0)?;
        self.parts.push_reserved(Part {
            class: c,
            state: ClassState::Untouched,
            statics,
        });
        Ok(())
    }

    /// Gives a class the state and the values of a part in a list, where it has a part.
    pub(crate) fn restore(&mut self, part: &OwnClass)
        requires { (e : ClassPart) → part_in self.old part.now.class ≡ Some e → length part.now.statics ≡ length e.statics }
        ensures { self.new ≡ with_part part.now.class (restored part.now) self.old }
    {
        if let Some(place) = self.place_of(part.class) {
            let own = &mut self.parts[place];
            own.state = part.state;
            own.statics.restore(part.statics.as_slice());
        }
    }

    /// Restores each of these parts in turn.
    pub(crate) fn restore_all(&mut self, list: &[OwnClass])
        requires { FitsAll list.now self.old }
        ensures { self.new ≡ restored_all list.now self.old }
    {
        for part in list {
            self.restore(part);
        }
    }

    /// All parts in their order.
    pub(crate) fn as_slice(&self) -> &[Part]
        ensures { map class_part result.now ≡ self.now }
    {
        self.parts.as_slice()
    }

    /// What holds of all parts: no class has two. It does nothing.
    pub(crate) fn differ(&self)
        ensures { (i j : ℕ) (a b : ClassPart) → slice_get self.now i ≡ Some a → slice_get self.now j ≡ Some b → a.class ≡ b.class → i ≡ j }
    {
        let _parts = &self.parts;
    }

    /// Where the part of a class stands. A domain's own classes mostly have numbers in a row, so the place is looked at first that is
    /// as far from the first one as the number is from the first number.
    #[inline(always)]
    fn place_of(&self, c: ClassId) -> Option<usize>
        ensures { MatchOption result (part_in self.now c ≡ None) (λ place. IsPartAt self.now c place) }
    {
        match self.place_in_row(c) {
            Some(place) => Some(place),
            None => self.place_by_number(c),
        }
    }

    /// Where the part of a class stands, if that is as far from the first part as the class's number is from that of the first.
    #[inline(always)]
    fn place_in_row(&self, c: ClassId) -> Option<usize>
        ensures { IfSome result (λ place. IsPartAt self.now c place) }
    {
        let Some(first) = self.parts.first() else {
            return None;
        };
        let place = c.0.wrapping_sub(first.class.0) as usize;
        match self.parts.get(place) {
            Some(part) if part.class.0 == c.0 => Some(place),
            _ => None,
        }
    }

    /// Where the part of a class stands, by all their numbers.
    #[inline(never)]
    fn place_by_number(&self, c: ClassId) -> Option<usize>
        ensures { MatchOption result (part_in self.now c ≡ None) (λ place. IsPartAt self.now c place) }
    {
        self.numbers.get_index_of(&c.0)
    }
}
