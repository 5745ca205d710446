//! The map of extents.

ghost use Rattle.std.specs.Prelude.{◌≡◌, ◌+◌, ◌≤◌, [], MatchOption, IfOk, IfSome, IfNone};
ghost use Rattle.std.specs.List.{Contains};
ghost use Rattle.jk_model.specs.Extents.{IsFirstFit, HasNoFit};
ghost use Rattle.extent_map.specs.MapState.{IsSound, IsAmong};

use crate::free_runs::FreeRuns;
use jk_model::{Extent, OutOfMemory};
use std::alloc::Global;
use std::marker::Model;

/// The extents of a pool that are out, and how many more may be taken.
///
/// An extent begins at the least page from which enough pages are free. A call goes over the free runs
/// from the pool's start up to where it ends, in time in proportion to those.
#[derive(Debug, Drop)]
pub struct ExtentMap {
    free: FreeRuns,
    // An entry for each page: how many pages the extent has that begins there, or 0 where none does.
    starts: Vec<u32>,
}

impl Model for ExtentMap {
    ghost use Rattle.std.specs.Prelude.{◌≡◌, length};
    ghost use Rattle.extent_map.specs.MapState.{MapState, IsAscending};
    ghost use Rattle.extent_map.specs.RunState.{IsOut};
    ghost use Rattle.extent_map.specs.Starts.{extents_of};

    ghost Value = { MapState };

    ghost view = { λ a. record { pages = a.free.pages; extents = a.free.extents; out = extents_of 0 a.starts.items; spare = a.free.spare } };

    ghost invariant = { λ a. IsOut a.free (extents_of 0 a.starts.items) × IsAscending (extents_of 0 a.starts.items) × (length a.starts.items ≡ a.free.pages) };
}

impl ExtentMap {
    /// A map of so many pages, all free, of which at most so many extents may be out at one time.
    ///
    /// It takes all its memory here: for each extent that may be out and one more, and for each page.
    pub fn make(alloc: Global, pages: u32, extents: u32) -> Result<ExtentMap, OutOfMemory>
        ensures out { IfOk result (λ map. map.out ≡ []) }
        ensures pages { IfOk result (λ map. map.pages ≡ pages) }
        ensures extents { IfOk result (λ map. map.extents ≡ extents) }
        ensures spare { IfOk result (λ map. map.spare ≡ extents) }
    {
        let free = FreeRuns::make(alloc, pages, extents)?;
        let starts = vec![in alloc; 0; pages as usize]?;
        Ok(ExtentMap { free, starts })
    }

    /// How many pages there are.
    pub fn pages(&self) -> u32
        ensures pages { result ≡ self.now.pages }
        ensures sound { IsSound self.now }
    {
        self.free.pages()
    }

    /// How many extents may be out at one time.
    pub fn extents(&self) -> u32
        ensures extents { result ≡ self.now.extents }
        ensures sound { IsSound self.now }
    {
        self.free.extents()
    }

    /// How many extents more may be taken before one is given back.
    pub fn spare(&self) -> u32
        ensures spare { result ≡ self.now.spare }
        ensures sound { IsSound self.now }
    {
        self.free.spare()
    }

    /// Takes the first free run of so many pages, or answers that there is none.
    pub fn take(&mut self, pages: u32) -> Option<Extent>
        requires at_least_one { 1 ≤ pages }
        requires spare { 1 ≤ self.old.spare }
        // The first place that has so many free pages is answered, or that there is none.
        ensures place { MatchOption result (HasNoFit self.old.pages self.old.out pages) (λ e. IsFirstFit self.old.pages self.old.out pages e.first) }
        ensures size { IfSome result (λ e. e.pages ≡ pages) }
        // The extent is out then, among those that are out already.
        ensures out { IfSome result (λ e. IsAmong self.old.out e self.new.out) }
        ensures spare { IfSome result (λ _. self.new.spare + 1 ≡ self.old.spare) }
        ensures pages { self.new.pages ≡ self.old.pages }
        ensures extents { self.new.extents ≡ self.old.extents }
        ensures none { IfNone result (self.new ≡ self.old) }
        ensures sound { IsSound self.new }
    {
        let e = self.free.take(pages)?;
        self.starts[e.first as usize] = pages;
        Some(e)
    }

    /// Takes back an extent that is out. Its pages are joined with the free runs beside them.
    pub fn give_back(&mut self, e: Extent)
        requires { Contains self.old.out e }
        // The others are out then.
        ensures out { IsAmong self.new.out e self.old.out }
        ensures spare { self.new.spare ≡ self.old.spare + 1 }
        ensures pages { self.new.pages ≡ self.old.pages }
        ensures extents { self.new.extents ≡ self.old.extents }
        ensures sound { IsSound self.new }
    {
        self.free.give_back(e);
        self.starts[e.first as usize] = 0;
    }
}
