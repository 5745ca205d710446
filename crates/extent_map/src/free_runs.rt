//! The free runs of a pool. They say which extents are out, and not in which order.

ghost use Rattle.std.specs.Prelude.{◌≡◌, ◌+◌, ◌≤◌, List, [], ◌∷◌, ◌++◌, MatchOption, IfOk, IfSome, IfNone};
ghost use Rattle.jk_model.specs.declared.extents.Extent.{Extent};
ghost use Rattle.jk_model.specs.Extents.{IsFirstFit, HasNoFit};
ghost use Rattle.extent_map.specs.RunState.{IsOut, IsOneOut};

use crate::runs::{cut, fitting, join_low, place_of, put};
use jk_model::{Extent, OutOfMemory};
use std::alloc::Global;
use std::marker::Model;

/// Which pages of a pool are free, and how many extents more may be taken.
#[derive(Debug, Drop)]
pub struct FreeRuns {
    pages: u32,
    extents: u32,
    // From the last to the first, with a page or more between each two.
    free: Vec<Extent>,
    spare: u32,
}

impl Model for FreeRuns {
    ghost use Rattle.std.specs.Prelude.{◌+◌, ◌<◌, vec_capacity};
    ghost use Rattle.extent_map.specs.RunState.{RunState};
    ghost use Rattle.extent_map.specs.Runs.{AreRuns};

    ghost Value = { RunState };

    ghost view = { λ a. record { pages = a.pages; extents = a.extents; free = a.free.items; spare = a.spare } };

    // There is room for one run more than extents may be out. There are never more runs than that.
    ghost invariant = { λ a. AreRuns (a.pages + 1) a.free.items × (a.extents < vec_capacity a.free) };
}

impl FreeRuns {
    /// Runs of so many pages, all free, of which at most so many extents may be out at one time.
    ///
    /// It takes all its memory here: for one free run more than extents may be out.
    pub fn make(alloc: Global, pages: u32, extents: u32) -> Result<FreeRuns, OutOfMemory>
        ensures out { IfOk result (λ map. IsOut map []) }
        ensures pages { IfOk result (λ map. map.pages ≡ pages) }
        ensures extents { IfOk result (λ map. map.extents ≡ extents) }
        ensures spare { IfOk result (λ map. map.spare ≡ extents) }
    {
        let mut free = Vec::with_capacity(alloc, extents as usize + 1)?;
        if pages > 0 {
            free.push_reserved(Extent { first: 0, pages });
        }
        Ok(FreeRuns {
            pages,
            extents,
            free,
            spare: extents,
        })
    }

    /// How many pages there are.
    pub fn pages(&self) -> u32
        ensures { result ≡ self.now.pages }
    {
        self.pages
    }

    /// How many extents may be out at one time.
    pub fn extents(&self) -> u32
        ensures { result ≡ self.now.extents }
    {
        self.extents
    }

    /// How many extents more may be taken before one is given back.
    pub fn spare(&self) -> u32
        ensures { result ≡ self.now.spare }
    {
        self.spare
    }

    /// Takes the first free run of so many pages, or answers that there is none.
    pub fn take(&mut self, pages: u32) -> Option<Extent>
        requires at_least_one { 1 ≤ pages }
        requires spare { 1 ≤ self.old.spare }
        // The first place that has so many free pages is answered, or that there is none.
        ensures place { (out : List Extent) → IsOut self.old out
            → MatchOption result (HasNoFit self.old.pages out pages) (λ e. IsFirstFit self.old.pages out pages e.first) }
        ensures size { IfSome result (λ e. e.pages ≡ pages) }
        // The extent is out then, after those that are out already.
        ensures out { (out : List Extent) → IsOut self.old out → IfSome result (λ e. IsOut self.new (out ++ e ∷ [])) }
        ensures spare { IfSome result (λ _. self.new.spare + 1 ≡ self.old.spare) }
        ensures pages { self.new.pages ≡ self.old.pages }
        ensures extents { self.new.extents ≡ self.old.extents }
        ensures none { IfNone result (self.new ≡ self.old) }
    {
        let at = fitting(&self.free, pages)?;
        let first = cut(&mut self.free, at, pages);
        self.spare -= 1;
        Some(Extent { first, pages })
    }

    /// Takes back an extent that is out. Its pages are joined with the free runs beside them.
    pub fn give_back(&mut self, e: Extent)
        requires { IsOneOut self.old e }
        // Wherever it stands among those that are out, the others are out then.
        ensures out { (front back : List Extent) → IsOut self.old (front ++ e ∷ back) → IsOut self.new (front ++ back) }
        ensures spare { self.new.spare ≡ self.old.spare + 1 }
        ensures pages { self.new.pages ≡ self.old.pages }
        ensures extents { self.new.extents ≡ self.old.extents }
    {
        let at = place_of(&self.free, e.first);
        let joined = join_low(&mut self.free, at, e);
        put(&mut self.free, at, joined);
        self.spare += 1;
    }
}
