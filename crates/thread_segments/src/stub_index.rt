//! The stubs of all domains, found by the classes that they are of.

ghost use Rattle.std.specs.Prelude.{◌≡◌, ◌+◌, ◌==◌, ◌≤◌, ◌<◌, ◌++◌, ◌∷◌, [], List, OnOk, find, length, option_copied};
ghost use Rattle.indexmap.specs.IndexMap.{spare};
ghost use Rattle.jk_model_classes.specs.declared.sharing.Stub.{Stub as AStub};
ghost use Rattle.thread_segments.specs.StubPlaces.{ArePlacesOf, IsEntered, stubs_in};

use indexmap::IndexMap;
use jk_model::{ClassId, List, OutOfMemory};
use jk_model_classes::Stub;
use std::alloc::Global;
use std::marker::Model;

/// Where a stub stands: in which list, and where there.
#[derive(Clone, Copy)]
pub(crate) struct StubPlace {
    pub(crate) list: usize,
    pub(crate) at: usize,
}

/// The stubs as they were admitted, in lists, and where that of each class stands.
#[derive(Drop)]
pub(crate) struct StubIndex {
    lists: Vec<List<Stub>>,
    places: IndexMap<u32, StubPlace>,
}

impl Model for StubIndex {
    ghost use Rattle.std.specs.Prelude.{◌-◌, vec_len, vec_capacity};
    ghost use Rattle.indexmap.specs.IndexMap.{spare};
    ghost use Rattle.thread_segments.specs.StubPlaces.{ArePlacesOf, StubList, stubs_in};

    ghost Value = { StubList };

    ghost view = { λ x. record {
      stubs = stubs_in x.lists.items;
      room = spare x.places;
      list_room = vec_capacity x.lists - vec_len x.lists;
    } };

    ghost invariant = { λ x. ArePlacesOf x.places x.lists.items (stubs_in x.lists.items) };
}

impl StubIndex {
    /// No stubs.
    pub(crate) fn new(alloc: Global) -> StubIndex
        ensures { result.stubs ≡ [] }
    {
        StubIndex {
            lists: Vec::new(alloc),
            places: IndexMap::new(alloc),
        }
    }

    /// Makes room for a list of so many stubs.
    pub(crate) fn reserve(&mut self, count: usize) -> Result<(), OutOfMemory>
        ensures same { self.new.stubs ≡ self.old.stubs }
        ensures room { OnOk result (count ≤ self.new.room) }
        ensures list_room { OnOk result (1 ≤ self.new.list_room) }
    {
        self.lists.reserve(1)?;
        self.places.reserve(count)?;
        Ok(())
    }

    /// Adds a list of stubs, for which there is room. One of a class that has one already is never found.
    pub(crate) fn add(&mut self, stubs: List<Stub>)
        requires room { length stubs ≤ self.old.room }
        requires list_room { 1 ≤ self.old.list_room }
        ensures { self.new.stubs ≡ self.old.stubs ++ stubs }
    {
        enter(&mut self.places, self.lists.len(), stubs.as_slice());
        self.lists.push_reserved(stubs);
    }

    /// The stub of a class; none where it has none.
    pub(crate) fn find(&self, class: ClassId) -> Option<&Stub>
        ensures { option_copied result ≡ find (λ e. e.class.0 == class.0) self.now.stubs }
    {
        let place = self.places.get(&class.0)?;
        let stubs = self.lists.get(place.list)?;
        stubs.get(place.at)
    }
}

/// Enters the places of the stubs of a list, but of classes that have one already.
fn enter(places: &mut IndexMap<u32, StubPlace>, list: usize, stubs: &[Stub])
    requires { length stubs.now ≤ spare places.old }
    ensures { (lists : List (List AStub)) → length lists ≡ list → ArePlacesOf places.old lists (stubs_in lists)
        → ArePlacesOf places.new (lists ++ stubs.now ∷ []) (stubs_in (lists ++ stubs.now ∷ [])) }
{
    for (at, stub) in stubs.iter().enumerate() {
        enter_one(places, stub.class.0, StubPlace { list, at });
    }
}

/// Enters the place of a class, unless it has one already.
fn enter_one(places: &mut IndexMap<u32, StubPlace>, class: u32, place: StubPlace)
    requires { 0 < spare places.old }
    ensures entered { IsEntered places.old places.new class place }
    ensures room { spare places.old ≤ spare places.new + 1 }
{
    if places.contains_key(&class) {
        return;
    }
    match places.insert(class, place) {
        Ok(_) => {}
        Err(_) => unreachable!(),
    }
}
