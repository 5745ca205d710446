//! Places by numbers, which are its keys. The keys are in as many buckets as the table has room for entries, by what is left of a
//! division, so a look-up takes constant time where they spread, as those that rise by one do. The entries are the nodes of
//! chains, whose stacks are the buckets, and the last stack has the free entries.

ghost use Rattle.std.specs.Prelude.{◌≡◌, ◌+◌, ◌<◌, ◌≤◌, ◌^◌, ◌%◌, None, Some, length, IfOk, OnOk, OnErr, IfSome};
ghost use Rattle.number_table.specs.Entries.{IsTable};

use crate::chains::Chains;
use jk_model::OutOfMemory;
use std::alloc::Global;

/// Where what has a number stands: its domain, and its slot there.
#[derive(Clone, Copy, PartialEq, Eq)]
pub struct Place {
    pub domain: u32,
    pub slot: u32,
}

/// A key, and its place.
#[derive(Clone, Copy)]
pub(crate) struct Entry {
    pub(crate) number: u64,
    pub(crate) place: Place,
}

/// The places of keys.
#[derive(Drop)]
pub(crate) struct EntryTable {
    pub(crate) chains: Chains,
    pub(crate) entries: Vec<Entry>,
    pub(crate) buckets: usize,
    ghost ok: { IsTable chains.nodes.items chains.stacks.items entries.items buckets },
}

impl EntryTable {
    ghost use Rattle.std.specs.Prelude.{◌≡◌, ◌+◌, ◌<◌, ◌≤◌, ◌^◌, ◌%◌, None, Some, IsSome, length, IfOk, OnOk, OnErr, IfSome};
    ghost use Rattle.number_table.specs.TableMoves.{find, place_in, room, size_of, IsSameTable, Inserts, Removes, IsEmptyTable};

    /// A table with no entries, and with room for so many.
    pub(crate) fn new(alloc: Global, size: usize) -> Result<EntryTable, OutOfMemory>
        requires some { 0 < size }
        ensures empty { IfOk result (λ t. IsEmptyTable t) }
        ensures room { IfOk result (λ t. room t ≡ size) }
        ensures few { OnOk result (size < 2 ^ 63) }
    {
        let entries = no_entries(alloc, size)?;
        let chains = Chains::new(alloc, size, size)?;
        Ok(EntryTable {
            chains,
            entries,
            buckets: size,
        })
    }

    /// A table with no entries and no room.
    pub(crate) fn empty(alloc: Global) -> EntryTable
        ensures empty { IsEmptyTable result }
        ensures room { room result ≡ 0 }
    {
        EntryTable {
            chains: Chains::empty(alloc),
            entries: Vec::new(alloc),
            buckets: 0,
        }
    }

    /// The place of this key.
    pub(crate) fn get(&self, number: u64) -> Option<Place>
        ensures { result ≡ place_in self.now number }
    {
        if self.buckets == 0 {
            return None;
        }
        match self.entry_of(number) {
            Some(entry) => Some(self.entries[entry].place),
            None => None,
        }
    }

    /// How many more entries the table has room for.
    pub(crate) fn room(&self) -> usize
        ensures { result ≡ room self.now }
    {
        if self.buckets == 0 {
            0
        } else {
            self.chains.count(self.buckets)
        }
    }

    /// Enters a key.
    pub(crate) fn insert(&mut self, number: u64, place: Place)
        requires new { place_in self.old number ≡ None }
        requires room { 0 < room self.old }
        ensures { Inserts self.old self.new number place }
    {
        let bucket = self.bucket(number);
        let entry = self.chains.move_top(self.buckets, bucket);
        self.entries[entry] = Entry { number, place };
    }

    /// Takes out a key.
    pub(crate) fn remove(&mut self, number: u64)
        requires { IsSome (place_in self.old number) }
        ensures { Removes self.old self.new number }
    {
        if let Some(entry) = self.entry_of(number) {
            let bucket = self.bucket(number);
            let top = self.chains.top(bucket);
            self.entries[entry] = self.entries[top];
            let _ = self.chains.free_top(bucket, self.buckets);
        }
    }

    /// Makes room for so many more entries. After an error all is as before.
    pub(crate) fn reserve(&mut self, alloc: Global, more: usize) -> Result<(), OutOfMemory>
        ensures same { IsSameTable self.old self.new }
        ensures ok { OnOk result (more ≤ room self.new) }
        ensures err { OnErr result (room self.new ≡ room self.old) }
        ensures at_least { room self.old ≤ room self.new }
    {
        if more <= self.room() {
            return Ok(());
        }
        let table = EntryTable::new(alloc, self.grown(more))?;
        *self = self.moved_to(table);
        Ok(())
    }

    /// The bucket of a number.
    fn bucket(&self, number: u64) -> usize
        requires { 0 < self.now.buckets }
        ensures { result ≡ number % self.now.buckets }
    {
        number as usize % self.buckets
    }

    /// The entry of a key.
    fn entry_of(&self, number: u64) -> Option<usize>
        requires { 0 < self.now.buckets }
        ensures { result ≡ find self.now number }
    {
        let bucket = self.bucket(number);
        let mut left = self.chains.count(bucket);
        while left > 0 {
            left -= 1;
            let entry = self.chains.at(bucket, left);
            if self.entries[entry].number == number {
                return Some(entry);
            }
        }
        None
    }

    /// The size of a table with at least twice the entries and room for so many more, as far as there are numbers.
    fn grown(&self, more: usize) -> usize
        requires { 0 < more }
        ensures some { 0 < result }
        ensures enough { result < 2 ^ 63 → size_of self.now + more ≤ result }
    {
        let had = self.entries.len();
        had.saturating_add(had.max(more))
    }

    /// The entries, moved to another table, which has none yet.
    fn moved_to(&self, mut table: EntryTable) -> EntryTable
        requires empty { IsEmptyTable table }
        requires room { size_of self.now ≤ room table }
        ensures same { IsSameTable self.now result }
        ensures room { room table ≤ room result + size_of self.now }
    {
        for entry in 0..self.entries.len() {
            if self.chains.stack_of(entry) != self.buckets {
                let moved = self.entries[entry];
                table.insert(moved.number, moved.place);
            }
        }
        table
    }
}

/// So many entries of no meaning.
fn no_entries(alloc: Global, count: usize) -> Result<Vec<Entry>, OutOfMemory>
    ensures size { IfOk result (λ v. length v.items ≡ count) }
    ensures few { OnOk result (count < 2 ^ 63) }
{
    let mut entries = Vec::with_capacity(alloc, count)?;
    for _ in 0..count {
        entries.push_reserved(Entry {
            number: 0,
            place: Place { domain: 0, slot: 0 },
        });
    }
    Ok(entries)
}
