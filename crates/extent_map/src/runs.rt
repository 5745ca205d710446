//! Free runs in a vector, from the last to the first: a change moves only the runs that a search from
//! the vector's end has passed.

ghost use Rattle.std.specs.Prelude.{◌≡◌, ◌+◌, ◌-◌, ◌<◌, ◌≤◌, ◌^◌, length, drop, MatchOption, vec_len, vec_capacity};
ghost use Rattle.std.specs.List.{HoldsAt, insert};
ghost use Rattle.extent_map.specs.Runs.{AreShort, BeginBefore};
ghost use Rattle.extent_map.specs.Steps.{IsCut, IsJoined, IsPut, HasGapAbove};

use jk_model::Extent;

/// The place of the lowest run that has so many pages.
pub fn fitting(runs: &[Extent], pages: u32) -> Option<usize>
    ensures { MatchOption result (AreShort pages runs.now)
        (λ at. (at < length runs.now) × HoldsAt (λ run. pages ≤ run.pages) runs.now at × AreShort pages (drop (at + 1) runs.now)) }
{
    let mut at = runs.len();
    while at > 0 {
        at -= 1;
        if pages <= runs[at].pages {
            return Some(at);
        }
    }
    None
}

/// Takes so many pages from the front of a run, and answers the first of them.
pub fn cut(runs: &mut Vec<Extent>, at: usize, pages: u32) -> u32
    requires within { at < vec_len runs.old }
    requires enough { HoldsAt (λ run. pages ≤ run.pages) runs.old.items at }
    requires fits { HoldsAt (λ run. run.first + run.pages < 2 ^ 32) runs.old.items at }
    ensures cut { IsCut runs.old.items at pages result runs.new.items }
    ensures capacity { vec_capacity runs.new ≡ vec_capacity runs.old }
{
    let run = runs[at];
    if run.pages == pages {
        runs.remove(at);
    } else {
        runs[at] = Extent {
            first: run.first + pages,
            pages: run.pages - pages,
        };
    }
    run.first
}

/// How many runs begin at a page or after it.
pub fn place_of(runs: &[Extent], first: u32) -> usize
    ensures within { result ≤ length runs.now }
    ensures low { BeginBefore first (drop result runs.now) }
    ensures high { 0 < result → HoldsAt (λ run. first ≤ run.first) runs.now (result - 1) }
{
    let mut at = runs.len();
    while at > 0 && runs[at - 1].first < first {
        at -= 1;
    }
    at
}

/// Joins an extent with the run at this place, if that run ends where the extent begins. The run is
/// taken out then.
pub fn join_low(runs: &mut Vec<Extent>, at: usize, e: Extent) -> Extent
    requires within { at ≤ vec_len runs.old }
    requires fits { at < vec_len runs.old → HoldsAt (λ run. run.first + run.pages < 2 ^ 32) runs.old.items at }
    requires end_fits { e.first + e.pages < 2 ^ 32 }
    ensures joined { IsJoined runs.old.items at e runs.new.items result }
    ensures capacity { vec_capacity runs.new ≡ vec_capacity runs.old }
{
    if at == runs.len() {
        return e;
    }
    let low = runs[at];
    if low.first + low.pages != e.first {
        return e;
    }
    runs.remove(at);
    Extent {
        first: low.first,
        pages: low.pages + e.pages,
    }
}

/// Puts a run at this place, or joins it with the run in front, if that one begins where it ends.
pub fn put(runs: &mut Vec<Extent>, at: usize, e: Extent)
    requires within { at ≤ vec_len runs.old }
    requires fits { 0 < at → HoldsAt (λ run. run.first + run.pages < 2 ^ 32) runs.old.items (at - 1) }
    requires end_fits { e.first + e.pages < 2 ^ 32 }
    requires room { HasGapAbove runs.old.items at e → vec_len runs.old < vec_capacity runs.old }
    ensures put { IsPut runs.old.items at e runs.new.items }
    ensures capacity { vec_capacity runs.old ≤ vec_capacity runs.new }
{
    if at > 0 {
        let high = runs[at - 1];
        if e.first + e.pages == high.first {
            runs[at - 1] = Extent {
                first: e.first,
                pages: e.pages + high.pages,
            };
            return;
        }
    }
    insert_reserved(runs, at, e);
}

/// Inserts a run where there is room.
fn insert_reserved(runs: &mut Vec<Extent>, at: usize, e: Extent)
    requires within { at ≤ vec_len runs.old }
    requires room { vec_len runs.old < vec_capacity runs.old }
    ensures items { runs.new.items ≡ insert runs.old.items at e }
    ensures capacity { vec_capacity runs.old ≤ vec_capacity runs.new }
{
    let Ok(()) = runs.insert(at, e) else {
        unreachable!();
    };
}
