//! Threads as entries of a list. One that has ended stays as a mark for some time.

ghost use Rattle.std.specs.Prelude.{◌≡◌, ℕ, ◌*◌, ◌≤◌, filter, find, length, option_map, vec_capacity};
ghost use Rattle.thread_stacks.specs.Places.{AreRisingBy, IsPlaceOf, has_key};
ghost use Rattle.thread_stacks.specs.StackAnswers.{IsLeastAbove};
ghost use Rattle.thread_stacks.specs.StackChanges.{IsClosedUp, IsTopSet};
ghost use Rattle.thread_stacks.specs.Stacks.{IsEntered, IsRunning, IsStart, is_running, thread_key};

use jk_model::{DomainId, SegmentNo, ThreadNo};

/// A thread.
#[derive(Clone, Copy)]
pub(crate) struct ThreadEntry {
    pub(crate) number: u32,
    /// The domain in which it was started.
    pub(crate) domain: DomainId,
    /// Its top segment; none where it has ended.
    pub(crate) top: Option<SegmentNo>,
}

/// Where a thread stands, a marked one too; none where it isn't there. The last one is found at once.
fn place_of_thread(entries: &[ThreadEntry], t: ThreadNo) -> Option<usize>
    requires { AreRisingBy thread_key entries.now }
    ensures { IsPlaceOf (has_key thread_key t.0) entries.now result }
{
    let count = entries.len();
    if count > 0 {
        let last = count - 1;
        if entries[last].number == t.0 {
            return Some(last);
        }
    }
    entries
        .binary_search_by(|entry| entry.number.cmp(&t.0))
        .ok()
}

/// A thread's entry, a marked one too; none where it isn't there.
pub(crate) fn entry_of(entries: &[ThreadEntry], t: ThreadNo) -> Option<ThreadEntry>
    requires { AreRisingBy thread_key entries.now }
    ensures { result ≡ find (has_key thread_key t.0) entries.now }
{
    match place_of_thread(entries, t) {
        Some(place) => Some(entries[place]),
        None => None,
    }
}

/// Sets the top segment of a thread, and answers the entry as it was.
pub(crate) fn set_top(
    entries: &mut Vec<ThreadEntry>,
    t: ThreadNo,
    top: Option<SegmentNo>,
) -> ThreadEntry
    requires order { AreRisingBy thread_key entries.old.items }
    requires entered { IsEntered entries.old.items t.0 }
    ensures set { IsTopSet entries.old.items entries.new.items t.0 top result }
    ensures capacity { vec_capacity entries.new ≡ vec_capacity entries.old }
{
    let place = match place_of_thread(entries.as_slice(), t) {
        Some(place) => place,
        None => unreachable!(),
    };
    let entry = &mut entries[place];
    let was = *entry;
    entry.top = top;
    was
}

/// Drops the marked threads where they are more than the live ones, and one alone that stands last: so threads that end before all that
/// were begun before them leave no marks.
pub(crate) fn close_up_entries(entries: &mut Vec<ThreadEntry>, live: usize)
    requires { live ≡ length (filter is_running entries.old.items) }
    ensures closed { IsClosedUp is_running entries.old.items entries.new.items live }
    ensures capacity { vec_capacity entries.new ≡ vec_capacity entries.old }
{
    if entries.len() == live + 1 {
        if entries[live].top.is_none() {
            let _mark = entries.pop();
            return;
        }
    }
    if entries.len() > 2 * live {
        entries.retain(|entry| entry.top.is_some());
    }
}

/// The number of the first live thread above. None exactly where there is none.
pub(crate) fn next_running(entries: &[ThreadEntry], above: u32) -> Option<u32>
    requires { AreRisingBy thread_key entries.now }
    ensures { IsLeastAbove (IsRunning entries.now) above result }
{
    let start = first_above(entries, above);
    first_running(&entries[start..])
}

/// The number of the first live thread.
fn first_running(entries: &[ThreadEntry]) -> Option<u32>
    ensures { result ≡ option_map thread_key (find is_running entries.now) }
{
    entries
        .iter()
        .find(|entry| entry.top.is_some())
        .map(|entry| entry.number)
}

/// Where the entries with greater numbers begin.
pub(crate) fn first_above(entries: &[ThreadEntry], above: u32) -> usize
    requires { AreRisingBy thread_key entries.now }
    ensures { IsStart entries.now above result }
{
    entries.partition_point(|entry| entry.number <= above)
}
