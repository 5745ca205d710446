//! The repository: names that domains bound to capabilities.

ghost use Rattle.std.specs.Prelude.{◌≡◌, ℕ, ◌+◌, ◌-◌, ◌<◌, ◌≤◌, ◌++◌, ◌∷◌, [], Some, None, MatchOption, IfOk, OnOk, OnErr, bytes_eq, length, map, position, remove, set, slice_get};
ghost use Rattle.jk_model_sharing.specs.BoundNames.{BoundName, LooksUp, bound_as, longest_name, without_names_of};
ghost use Rattle.thread_segments.specs.NameEntries.{IsPlaceOfName, names_of};
ghost use Rattle.thread_segments.specs.StateParts.{name_part};
ghost use Rattle.thread_segments.specs.declared.names.NameEntry.{NameEntry as ANameEntry};

use crate::parts::NamePart;
use arrayvec::ArrayVec;
use jk_model::{CapId, DomainId, List, OutOfMemory, Units};
use std::alloc::Global;
use std::marker::Model;

/// How many units a name has at most.
pub(crate) const MOST_UNITS: usize = 64;

/// A name, the capability to which it leads, and the domain that bound it.
#[derive(Drop)]
pub(crate) struct NameEntry {
    pub(crate) text: ArrayVec<u16, 64>,
    pub(crate) cap: CapId,
    pub(crate) binder: DomainId,
}

/// The names in the order in which they were bound.
#[derive(Drop)]
pub(crate) struct Names {
    /// There is memory for as many as may be bound at once.
    entries: Vec<NameEntry>,
    most: usize,
}

impl Model for Names {
    ghost use Rattle.std.specs.Prelude.{vec_capacity};
    ghost use Rattle.thread_segments.specs.NameEntries.{HasNameRoom, NameList, names_of};

    ghost Value = { NameList };

    ghost view = { λ n. record { names = names_of n.entries.items; most = n.most } };

    ghost invariant = { λ n. HasNameRoom n.entries.items n.most (vec_capacity n.entries) };
}

impl Names {
    /// No names, and room for none.
    pub(crate) fn new(alloc: Global) -> Names
        ensures { result ≡ record { names = []; most = 0 } }
    {
        Names {
            entries: Vec::new(alloc),
            most: 0,
        }
    }

    /// Lets so many more names be bound at once, and takes the memory for them. After an error all is as before.
    pub(crate) fn reserve(&mut self, more: u32) -> Result<(), OutOfMemory>
        ensures ok { OnOk result (self.new ≡ record self.old { most = self.old.most + more }) }
        ensures err { OnErr result (self.new ≡ self.old) }
    {
        let most = self.most + more as usize;
        self.entries.reserve(most - self.entries.len())?;
        self.most = most;
        Ok(())
    }

    /// Lets so many fewer names be bound at once, where no more are. The memory stays, for those of later domains.
    pub(crate) fn release(&mut self, fewer: u32)
        requires { length self.old.names + fewer ≤ self.old.most }
        ensures { self.new ≡ record self.old { most = self.old.most - fewer } }
    {
        self.most -= fewer as usize;
    }

    /// The place of a name; none where it isn't bound.
    pub(crate) fn find(&self, text: &[u16]) -> Option<usize>
        ensures { IsPlaceOfName self.now.names text.now result }
    {
        place_of_text(self.entries.as_slice(), text)
    }

    /// The capability of a name; none where it isn't bound.
    pub(crate) fn cap(&self, text: &[u16]) -> Option<CapId>
        ensures { LooksUp self.now.names text.now result }
    {
        match place_of_text(self.entries.as_slice(), text) {
            Some(place) => Some(self.entries[place].cap),
            None => None,
        }
    }

    /// Which domain bound the name at a place.
    pub(crate) fn binder(&self, place: usize) -> DomainId
        requires { place < length self.now.names }
        ensures { (n : BoundName) → slice_get self.now.names place ≡ Some n → result ≡ n.binder }
    {
        self.entries[place].binder
    }

    /// The names as a plain list.
    pub(crate) fn parts(&self, alloc: Global) -> Result<List<NamePart>, OutOfMemory>
        ensures { IfOk result (λ parts. parts ≡ map name_part self.now.names) }
    {
        name_parts(alloc, self.entries.as_slice())
    }

    /// Lets the name at a place lead to another capability.
    pub(crate) fn set_cap(&mut self, place: usize, k: CapId)
        requires { place < length self.old.names }
        ensures { (n : BoundName) → slice_get self.old.names place ≡ Some n
            → self.new ≡ record self.old { names = set self.old.names place (record n { cap = k }) } }
    {
        let entry = &mut self.entries[place];
        entry.cap = k;
    }

    /// Binds a name that isn't bound, behind all others, where one more may be bound.
    pub(crate) fn add(&mut self, text: &[u16], k: CapId, binder: DomainId)
        requires room { length self.old.names < self.old.most }
        requires short { length text.now ≤ longest_name }
        ensures { self.new ≡ record self.old { names = self.old.names ++ record { text = text.now; cap = k; binder = binder } ∷ [] } }
    {
        let mut own = ArrayVec::new();
        match own.try_extend_from_slice(text) {
            Ok(()) => {}
            Err(_) => unreachable!(),
        }
        self.entries.push_reserved(NameEntry {
            text: own,
            cap: k,
            binder,
        });
    }

    /// Removes the name at a place.
    pub(crate) fn remove(&mut self, place: usize)
        requires { place < length self.old.names }
        ensures { self.new ≡ record self.old { names = remove self.old.names place } }
    {
        let _ = self.entries.remove(place);
    }

    /// Removes all names that a domain bound. It goes over all names.
    pub(crate) fn remove_all(&mut self, binder: DomainId)
        ensures { self.new ≡ record self.old { names = without_names_of binder self.old.names } }
    {
        self.entries.retain(|entry| entry.binder.0 != binder.0);
    }
}

/// Names as a plain list.
fn name_parts(alloc: Global, entries: &[NameEntry]) -> Result<List<NamePart>, OutOfMemory>
    ensures { IfOk result (λ parts. parts ≡ map name_part (names_of entries.now)) }
{
    let mut parts = List::new(alloc);
    for entry in entries {
        parts.push(NamePart {
            text: Units::from_slice(alloc, entry.text.as_slice())?,
            cap: entry.cap,
            binder: entry.binder,
        })?;
    }
    Ok(parts)
}

/// Where a text stands; none where it doesn't.
fn place_of_text(entries: &[NameEntry], text: &[u16]) -> Option<usize>
    ensures { IsPlaceOfName (names_of entries.now) text.now result }
{
    first_of_text(entries, text)
}

/// The place of the first name with a text.
fn first_of_text(entries: &[NameEntry], text: &[u16]) -> Option<usize>
    ensures { result ≡ position (λ (e : ANameEntry). bytes_eq e.text.items text.now) entries.now }
{
    entries.iter().position(|entry| is_text(entry, text))
}

/// Whether a name has a text.
fn is_text(entry: &NameEntry, text: &[u16]) -> bool
    ensures { result ≡ bytes_eq entry.now.text.items text.now }
{
    entry.text.as_slice() == text
}
