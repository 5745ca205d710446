//! The table.

ghost use Rattle.std.specs.Prelude.{◌≡◌, ◌<◌, ◌≤◌, ◌^◌, None, IsSome, IfOk, OnOk, OnErr};
ghost use Rattle.number_table.specs.NumberPlaces.{place_of, HasSamePlaces, Inserts, IsEmpty, Removes};

use crate::entry_table::{EntryTable, Place};
use jk_model::OutOfMemory;
use std::alloc::Global;
use std::marker::Model;

/// Places by numbers, which are its keys. A look-up takes constant time where the keys spread over the buckets, as those that rise by
/// one do. An entry and its bucket take 64 bytes together.
#[derive(Drop)]
pub struct NumberTable {
    table: EntryTable,
}

impl Model for NumberTable {
    ghost use Rattle.number_table.specs.NumberPlaces.{NumberPlaces};
    ghost use Rattle.number_table.specs.TableMoves.{listed, room};

    ghost Value = { NumberPlaces };

    ghost view = { λ t. record { entries = listed t.table; room = room t.table } };
}

impl NumberTable {
    /// A table without keys, and without room.
    pub fn empty(alloc: Global) -> NumberTable
        ensures empty { IsEmpty result }
        ensures room { result.room ≡ 0 }
    {
        let table = EntryTable::empty(alloc);
        NumberTable { table }
    }

    /// A table without keys, and with room for so many.
    pub fn make(alloc: Global, room: usize) -> Result<NumberTable, OutOfMemory>
        ensures empty { IfOk result IsEmpty }
        ensures room { IfOk result (λ t. t.room ≡ room) }
    {
        let table = if room == 0 {
            EntryTable::empty(alloc)
        } else {
            EntryTable::new(alloc, room)?
        };
        Ok(NumberTable { table })
    }

    /// How many more keys may be entered.
    pub fn room(&self) -> usize
        ensures { result ≡ self.now.room }
    {
        self.table.room()
    }

    /// The place of a key; none where it isn't there.
    pub fn get(&self, key: u64) -> Option<Place>
        ensures { result ≡ place_of self.now key }
    {
        self.table.get(key)
    }

    /// Enters a key that isn't there, where there is room.
    #[inline(always)]
    pub fn insert(&mut self, key: u64, place: Place)
        requires new { place_of self.old key ≡ None }
        requires room { 0 < self.old.room }
        ensures { Inserts self.old self.new key place }
    {
        self.table.insert(key, place);
    }

    /// Takes out a key that is there.
    pub fn remove(&mut self, key: u64)
        requires { IsSome (place_of self.old key) }
        ensures removes { Removes self.old self.new key }
        ensures few { self.new.room < 2 ^ 63 }
    {
        self.table.remove(key);
    }

    /// Makes room for so many more keys in all. Where there is less, the table is made anew, in time in proportion to what it has room for
    /// then. After an error all is as before.
    pub fn reserve(&mut self, alloc: Global, more: usize) -> Result<(), OutOfMemory>
        ensures same { HasSamePlaces self.old self.new }
        ensures ok { OnOk result (more ≤ self.new.room) }
        ensures err { OnErr result (self.new.room ≡ self.old.room) }
        ensures at_least { self.old.room ≤ self.new.room }
        ensures few { self.new.room < 2 ^ 63 }
    {
        self.table.reserve(alloc, more)
    }
}
