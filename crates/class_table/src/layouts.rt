//! What an object is made of.

ghost use Rattle.std.specs.Prelude.{◌≡◌, ◌≤◌, length, option_map, slice_get, take};
ghost use Rattle.jk_model_classes.specs.Classes.{HasClass};
ghost use Rattle.jk_model_classes.specs.Layouts.{InstanceField, layout_of, up_to_32_bits, words_of};

use crate::places;
use crate::table::ClassTable;
use jk_model::{ClassId, MemberId};
use std::marker::Model;

/// The instance fields of a class, those of its parents first, and the words that they take. It is a view of the table,
/// so that a class shares with its parents all but its own fields. A contract sees it as the whole list.
#[derive(Drop)]
pub struct Layout<'t> {
    table: &'t ClassTable,
    class: ClassId,
}

impl<'t> Model for Layout<'t> {
    ghost use Rattle.jk_model_classes.specs.Classes.{HasClass};
    ghost use Rattle.jk_model_classes.specs.Layouts.{Layout, layout_of};

    ghost Value = { Layout };

    ghost view = { λ l. layout_of l.table.now l.class };

    ghost invariant = { λ l. HasClass l.table.now l.class };
}

impl<'t> Layout<'t> {
    /// The layout of a class of the table.
    pub(crate) fn new(table: &'t ClassTable, class: ClassId) -> Layout<'t>
        requires { HasClass table.now class }
        ensures { result ≡ layout_of table.now class }
    {
        Layout { table, class }
    }

    /// How many fields there are.
    pub fn len(&self) -> usize
        ensures { result ≡ length self.now.fields }
    {
        let table = self.table;
        places::field_count_of(table.entries.as_slice(), self.class)
    }

    /// How many words they take together, in constant time.
    pub fn words(&self) -> u32
        ensures { result ≡ self.now.words }
    {
        let table = self.table;
        places::words_of_class(table.entries.as_slice(), self.class)
    }

    /// The field at a place. It takes no memory, and time in proportion to the logarithm of the number of classes above.
    pub fn field(&self, i: usize) -> Option<MemberId>
        ensures { result ≡ option_map (λ (f : InstanceField). f.member) (slice_get self.now.fields i) }
    {
        let table = self.table;
        places::field_of(table.entries.as_slice(), self.class, i)
    }

    /// How many words the fields before a place take together, in the same time.
    pub fn words_before(&self, i: usize) -> u32
        requires { i ≤ length self.now.fields }
        ensures { result ≡ up_to_32_bits (words_of (take i self.now.fields)) }
    {
        let table = self.table;
        places::words_before(table.entries.as_slice(), self.class, i)
    }
}
