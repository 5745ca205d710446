//! The values that are handed to a method.

ghost use Rattle.std.specs.Prelude.{◌≡◌, ◌==◌, ◌<◌, ◌≤◌, ◌++◌, ◌∷◌, [], length, Some, slice_get, slice_set};

use crate::values::Value;
use std::marker::Model;

/// How many values a call has at most.
const MOST: usize = 255;

/// Up to 255 values in order, without memory of their own. Contracts see them as a list.
#[derive(Debug, Drop)]
pub struct Args {
    values: [Value; 255],
    len: usize,
}

impl Model for Args {
    ghost use Rattle.std.specs.Prelude.{◌≡◌, ◌≤◌, List, length, take};
    ghost use Rattle.jk_model.specs.declared.values.Value.{Value as Held};

    ghost Value = { List Held };

    ghost view = { λ a. take a.len a.values };

    ghost invariant = { λ a. (a.len ≤ 255) × (length a.values ≡ 255) };
}

impl Args {
    /// No values.
    pub fn new() -> Args
        ensures { result ≡ [] }
    {
        Args {
            values: [Value::Unset; MOST],
            len: 0,
        }
    }

    /// How many values there are.
    pub fn len(&self) -> usize
        ensures count { result ≡ length self.now }
        ensures few { result ≤ 255 }
    {
        self.len
    }

    /// Whether there is no value.
    pub fn is_empty(&self) -> bool
        ensures { result ≡ (length self.now == 0) }
    {
        self.len == 0
    }

    /// The value at a place, counted from 0.
    pub fn get(&self, i: usize) -> Value
        requires { i < length self.now }
        ensures { slice_get self.now i ≡ Some result }
    {
        self.held()[i]
    }

    /// All values in order.
    fn held(&self) -> &[Value]
        ensures { result.now ≡ self.now }
    {
        &self.values[..self.len]
    }

    /// Puts a value at the end.
    pub fn put(&mut self, value: Value)
        requires { length self.old < 255 }
        ensures { self.new ≡ self.old ++ value ∷ [] }
    {
        self.values[self.len] = value;
        self.len += 1;
    }

    /// Replaces the value at a place, counted from 0.
    pub fn set(&mut self, i: usize, value: Value)
        requires { i < length self.old }
        ensures { self.new ≡ slice_set self.old i value }
    {
        let held = &mut self.values[..self.len];
        held[i] = value;
    }
}
