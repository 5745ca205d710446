//! The static fields of a class in a domain.

ghost use Rattle.std.specs.Prelude.{◌≡◌, ◌==◌, IfOk, MatchOption, find, length, map, option_map, slice_get};
ghost use Rattle.jk_model_domains.specs.OwnStates.{StaticField, with_field};
ghost use Rattle.class_init.specs.Statics.{IsIndexAt, IsRising, LacksIndex, static_field, with_values};

use jk_model::{List, OutOfMemory, Value};
use std::alloc::Global;
use std::marker::Model;

/// A static field, by its place among all fields of its class, and its value.
#[derive(Clone, Copy)]
pub(crate) struct FieldSlot {
    pub(crate) index: u16,
    pub(crate) value: Value,
}

/// The static fields of a class, in the order of the class file. A contract sees the list of them.
#[derive(Drop)]
pub(crate) struct Statics {
    slots: Vec<FieldSlot>,
}

impl Model for Statics {
    ghost use Rattle.std.specs.Prelude.{List, map};
    ghost use Rattle.jk_model_domains.specs.OwnStates.{StaticField};

    ghost Value = { List StaticField };

    ghost use Rattle.class_init.specs.Statics.{IsRising, static_field};

    ghost view = { λ s. map static_field s.slots.items };

    ghost invariant = { λ s. IsRising s.slots.items };
}

impl Statics {
    /// These fields, whose places rise.
    pub(crate) fn of(slots: Vec<FieldSlot>) -> Statics
        requires { IsRising slots.items }
        ensures { result ≡ map static_field slots.items }
    {
        Statics { slots }
    }

    /// The value of the field with this place among all fields; none where that is no static field. It takes time in
    /// proportion to log n for n static fields.
    pub(crate) fn value(&self, index: u16) -> Option<Value>
        ensures { result ≡ option_map (λ (f : StaticField). f.value) (find (λ (f : StaticField). f.index == index) self.now) }
    {
        let place = place_of(self.slots.as_slice(), index)?;
        Some(self.slots[place].value)
    }

    /// Sets the value of the field with this place, in the time that `value` takes. Nothing changes where that is no static
    /// field.
    pub(crate) fn set(&mut self, index: u16, v: Value)
        ensures { self.new ≡ with_field index v self.old }
    {
        if let Some(place) = place_of(self.slots.as_slice(), index) {
            self.slots[place].value = v;
        }
    }

    /// The values in their order.
    pub(crate) fn values(&self, alloc: Global) -> Result<List<Value>, OutOfMemory>
        ensures { IfOk result (λ values. values ≡ map (λ (f : StaticField). f.value) self.now) }
    {
        let mut values = List::new(alloc);
        for slot in &self.slots {
            values.push(slot.value)?;
        }
        Ok(values)
    }

    /// Gives the fields these values in their order.
    pub(crate) fn restore(&mut self, values: &[Value])
        requires { length values.now ≡ length self.old }
        ensures { self.new ≡ with_values self.old values.now }
    {
        for (i, v) in values.iter().enumerate() {
            self.slots[i].value = *v;
        }
    }
}

/// Where the field with this index stands.
fn place_of(slots: &[FieldSlot], index: u16) -> Option<usize>
    requires { IsRising slots.now }
    ensures { MatchOption result (LacksIndex slots.now index) (λ place. IsIndexAt slots.now index place) }
{
    slots.binary_search_by(|slot| slot.index.cmp(&index)).ok()
}
