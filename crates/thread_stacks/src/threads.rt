//! The live threads and their stacks of segments.

ghost use Rattle.std.specs.Prelude.{◌≡◌, ◌+◌, ◌-◌, ◌^◌, ◌<◌, ◌≤◌, ◌∷◌, ◌++◌, [], Contains, List, suc, length, option_map, set, slice_get, vec_capacity, IfOk, OnOk, OnErr, IsTrue, map, None, Some};
ghost use Rattle.jk_model.specs.declared.identifiers.DomainId.{DomainId as Domain};
ghost use Rattle.jk_model_sharing.specs.Segments.{SharedSegment, SharedThread, count_started_in, live_threads, new_segment, segment_below, segment_numbered, shared_form, thread_numbered, top_segment, with_segment, with_stack, with_stacks, without_top};
ghost use Rattle.thread_stacks.specs.declared.segments.TakenOut.{TakenOut as Taken};
ghost use Rattle.thread_stacks.specs.StackAnswers.{EndsWith, IsLeastAbove, IsLive, IsLiveNumber, count_ended, count_ended_in, info_of as told, number_of, segments_in, thread_number};
ghost use Rattle.thread_stacks.specs.LiveStacks.{AreLiveParts, Restores, segment_key};
ghost use Rattle.thread_stacks.specs.Places.{AreRisingBy};
ghost use Rattle.thread_stacks.specs.StackParts.{thread_part};
ghost use Rattle.thread_stacks.specs.StackChanges.{LeavesAll, TakesOut, flag_changed, newest_after};

use crate::endings::{list_endings, next_ending, next_listed};
use crate::entries::{ThreadEntry, close_up_entries, entry_of, next_running, set_top};
use crate::parts::{ThreadPart, all_parts};
use crate::restoring::{enter_all, placed_in_order, put_all};
use crate::segments::{Flag, SegmentInfo, TakenOut};
use crate::slots::{
    Link, Slot, below_of, close_up_slots, info_of, new_slot, place_of_segment, relink,
    set_flag_among, take_off, warn_neighbours,
};
use jk_model::{DomainId, List, OutOfMemory, SegmentNo, ThreadNo};
use std::alloc::Global;
use std::marker::Model;

/// The threads in rising number, and their segments in the order in which they were pushed. What is gone is marked, and marks are
/// dropped as soon as they are more than what is live: so whoever goes over all goes over twice the live ones at most. A search
/// takes a logarithm, and so does a segment that is pushed or, on average, taken off.
#[derive(Drop)]
pub struct Threads {
    /// There is memory for twice as many as may live at once.
    entries: Vec<ThreadEntry>,
    /// There is memory for twice as many as may live at once.
    slots: Vec<Slot>,
    /// The newest segment of each domain; none of one that has no segment.
    newest: Vec<Option<SegmentNo>>,
    /// The threads that end with the domain below, in rising number. There is memory for as many as segments may live at once.
    listed: Vec<u32>,
    /// The domain for which threads were listed; none where something changed since then.
    listed_for: Option<DomainId>,
    live: usize,
    live_segments: usize,
    /// How many threads may live at once.
    most: usize,
    /// How many segments may live at once.
    most_segments: usize,
    next_thread: u32,
    next_segment: u64,
}

impl Model for Threads {
    ghost use Rattle.std.specs.Prelude.{length, vec_capacity};
    ghost use Rattle.thread_stacks.specs.ListedEndings.{AreListed};
    ghost use Rattle.thread_stacks.specs.Stacks.{AreInOrder, AreLinked, AreOwned, HasRoom, ThreadList, is_live, is_running, threads_of};

    ghost Value = { ThreadList };

    ghost view = { λ t. record {
      threads = threads_of t.slots.items t.entries.items;
      next_thread = t.next_thread;
      next_segment = t.next_segment;
      most = t.most;
      most_segments = t.most_segments;
      domains = length t.newest.items;
    } };

    ghost invariant = { λ t. AreInOrder t.slots.items t.entries.items t.next_thread t.next_segment
        × AreLinked t.slots.items t.entries.items
        × HasRoom is_running t.entries.items t.live t.most (vec_capacity t.entries)
        × HasRoom is_live t.slots.items t.live_segments t.most_segments (vec_capacity t.slots)
        × AreOwned t.slots.items t.newest.items
        × AreListed t.entries.items t.slots.items t.listed_for t.listed.items t.most_segments (vec_capacity t.listed) };
}

impl Threads {
    /// No threads, and room for none. The first thread and the first segment will have the number 1.
    pub fn new(alloc: Global) -> Threads
        ensures { result ≡ record { threads = []; next_thread = 1; next_segment = 1; most = 0; most_segments = 0; domains = 0 } }
    {
        Threads {
            entries: Vec::new(alloc),
            slots: Vec::new(alloc),
            newest: Vec::new(alloc),
            listed: Vec::new(alloc),
            listed_for: None,
            live: 0,
            live_segments: 0,
            most: 0,
            most_segments: 0,
            next_thread: 1,
            next_segment: 1,
        }
    }

    /// Takes one more domain, and lets so many more threads and segments live at once. It takes the memory for them. After an error
    /// all is as before.
    pub fn reserve(&mut self, threads: u32, segments: u32) -> Result<(), OutOfMemory>
        ensures ok { OnOk result (self.new ≡ record self.old {
          most = self.old.most + threads;
          most_segments = self.old.most_segments + segments;
          domains = suc self.old.domains;
        }) }
        ensures err { OnErr result (self.new ≡ self.old) }
    {
        let most = self.most + threads as usize;
        let most_segments = self.most_segments + segments as usize;
        self.entries.reserve(2 * most - self.entries.len())?;
        self.slots.reserve(2 * most_segments - self.slots.len())?;
        self.listed_for = None;
        self.listed.clear();
        self.listed.reserve(most_segments)?;
        self.newest.reserve(1)?;
        self.newest.push_reserved(None);
        self.most = most;
        self.most_segments = most_segments;
        Ok(())
    }

    /// Lets so many fewer threads live at once, where no more do. The memory stays, for those of later domains.
    pub fn release_threads(&mut self, fewer: u32)
        requires { length self.old.threads + fewer ≤ self.old.most }
        ensures { self.new ≡ record self.old { most = self.old.most - fewer } }
    {
        self.most -= fewer as usize;
    }

    /// Lets so many fewer segments live at once, where no more do. The memory stays, for those of later domains.
    pub fn release_segments(&mut self, fewer: u32)
        requires { length (segments_in self.old.threads) + fewer ≤ self.old.most_segments }
        ensures { self.new ≡ record self.old { most_segments = self.old.most_segments - fewer } }
    {
        self.most_segments -= fewer as usize;
    }

    /// Begins a thread with a segment of a domain, where one more of each may live. Both take the next numbers.
    pub fn begin(&mut self, d: DomainId) -> ThreadNo
        requires room { length self.old.threads < self.old.most }
        requires segment_room { length (segments_in self.old.threads) < self.old.most_segments }
        requires domain { d.0 < self.old.domains }
        requires thread { self.old.next_thread < 2 ^ 31 }
        requires segment { self.old.next_segment < 2 ^ 64 - 1 }
        ensures number { result.0 ≡ self.old.next_thread }
        ensures begun { self.new ≡ record self.old {
          threads = self.old.threads ++ record {
            number = record { 0 = self.old.next_thread };
            domain = d;
            segments = new_segment (record { 0 = self.old.next_segment }) d ∷ [];
          } ∷ [];
          next_thread = suc self.old.next_thread;
          next_segment = suc self.old.next_segment;
        } }
    {
        let t = self.next_thread;
        let n = self.next_segment;
        self.next_thread = t + 1;
        self.next_segment = n + 1;
        self.listed_for = None;
        self.live += 1;
        self.live_segments += 1;
        let older = set_newest(&mut self.newest, d, Some(SegmentNo(n)));
        relink(&mut self.slots, older, Link::Newer, Some(SegmentNo(n)));
        self.slots
            .push_reserved(new_slot(n, ThreadNo(t), d, None, older));
        self.entries.push_reserved(ThreadEntry {
            number: t,
            domain: d,
            top: Some(SegmentNo(n)),
        });
        ThreadNo(t)
    }

    /// Puts a segment of a domain on top of a live thread, where one more may live, and answers its number, which is the next one.
    #[inline(always)]
    pub fn push(&mut self, t: ThreadNo, d: DomainId) -> SegmentNo
        requires thread { IsLive self.old.threads t }
        requires room { length (segments_in self.old.threads) < self.old.most_segments }
        requires domain { d.0 < self.old.domains }
        requires segment { self.old.next_segment < 2 ^ 64 - 1 }
        ensures number { result.0 ≡ self.old.next_segment }
        ensures pushed { self.new ≡ record self.old {
          threads = with_stack t (λ (segments : List SharedSegment). segments ++ new_segment (record { 0 = self.old.next_segment }) d ∷ [])
              self.old.threads;
          next_segment = suc self.old.next_segment;
        } }
    {
        let n = self.next_segment;
        let entry = set_top(&mut self.entries, t, Some(SegmentNo(n)));
        self.listed_for = None;
        self.next_segment = n + 1;
        self.live_segments += 1;
        let older = set_newest(&mut self.newest, d, Some(SegmentNo(n)));
        relink(&mut self.slots, entry.top, Link::Above, Some(SegmentNo(n)));
        relink(&mut self.slots, older, Link::Newer, Some(SegmentNo(n)));
        self.slots
            .push_reserved(new_slot(n, t, d, entry.top, older));
        SegmentNo(n)
    }

    /// Takes the top segment off a live thread. Where it has none left, it has ended, and the answer is the domain in which it was
    /// started.
    #[inline(always)]
    pub fn pop(&mut self, t: ThreadNo) -> Option<DomainId>
        requires { IsLive self.old.threads t }
        ensures popped { self.new ≡ record self.old { threads = live_threads (with_stack t without_top self.old.threads) } }
        ensures started { (e : SharedThread) (d : Domain) → thread_numbered self.old.threads t ≡ Some e → result ≡ Some d → d ≡ e.domain }
        ensures fewer { length self.new.threads + count_ended result ≡ length self.old.threads }
        ensures counted { (d : Domain) → count_started_in self.new.threads d + count_ended_in result d ≡ count_started_in self.old.threads d }
    {
        let top = match self.top(t) {
            Some(top) => top,
            None => unreachable!(),
        };
        self.listed_for = None;
        let slot = take_off(&mut self.slots, top);
        lower_newest(&mut self.newest, slot);
        self.live_segments -= 1;
        close_up_slots(&mut self.slots, self.live_segments);
        let entry = set_top(&mut self.entries, t, slot.below);
        if slot.below.is_some() {
            return None;
        }
        self.live -= 1;
        close_up_entries(&mut self.entries, self.live);
        Some(entry.domain)
    }

    /// Takes the newest segment of a domain out of its thread, wherever it stands. The one above it is an orphan then, or, where it was on
    /// top, a RevokedException is pending in the one below. So what the end of the domain leaves stays the same. None exactly where the
    /// domain has no segment, and then its end leaves all as it is.
    pub fn take_out(&mut self, d: DomainId) -> Option<TakenOut>
        requires { d.0 < self.old.domains }
        ensures none { result ≡ None → (self.new ≡ self.old) × LeavesAll self.old d }
        ensures taken { (t : Taken) → result ≡ Some t → TakesOut self.old self.new d t.ended }
    {
        let s = match self.newest[d.0 as usize] {
            Some(s) => s,
            None => return None,
        };
        self.listed_for = None;
        let was = take_off(&mut self.slots, s);
        lower_newest(&mut self.newest, was);
        warn_neighbours(&mut self.slots, was);
        self.live_segments -= 1;
        close_up_slots(&mut self.slots, self.live_segments);
        if was.above.is_some() {
            return Some(TakenOut { ended: None });
        }
        let entry = set_top(&mut self.entries, ThreadNo(was.thread), was.below);
        if was.below.is_some() {
            return Some(TakenOut { ended: None });
        }
        self.live -= 1;
        close_up_entries(&mut self.entries, self.live);
        Some(TakenOut {
            ended: Some(entry.domain),
        })
    }

    /// The top segment of a thread. None exactly where the thread isn't live.
    pub fn top(&self, t: ThreadNo) -> Option<SegmentNo>
        ensures { result ≡ option_map number_of (top_segment self.now.threads t) }
    {
        match entry_of(self.entries.as_slice(), t) {
            Some(entry) => entry.top,
            None => None,
        }
    }

    /// The segment directly below another. None exactly where that is a lowest one, or isn't there.
    pub fn below(&self, s: SegmentNo) -> Option<SegmentNo>
        ensures { result ≡ option_map number_of (segment_below self.now.threads s) }
    {
        match place_of_segment(self.slots.as_slice(), s) {
            Some(place) => below_of(&self.slots[place]),
            None => None,
        }
    }

    /// The least number of a live thread above. None exactly where there is none.
    pub fn next_live(&self, above: u32) -> Option<u32>
        ensures { IsLeastAbove (IsLiveNumber self.now.threads) above result }
    {
        next_running(self.entries.as_slice(), above)
    }

    /// Lists the threads of which the end of this domain leaves nothing, so that `next_ending` takes a logarithm as long as nothing else
    /// is changed. It takes time in proportion to the segments of the domain, with a logarithm, and no memory.
    pub fn list_endings(&mut self, d: DomainId)
        ensures { self.new ≡ self.old }
    {
        let newest = match newest_of(self.newest.as_slice(), d) {
            Some(newest) => newest,
            None => return,
        };
        list_endings(
            &mut self.listed,
            self.entries.as_slice(),
            self.slots.as_slice(),
            newest,
            d,
        );
        self.listed_for = Some(d);
    }

    /// The least number above of a live thread of which the end of this domain leaves nothing. None exactly where there is none. It takes
    /// a logarithm where `list_endings` was called for the domain and nothing has changed since, and constant time where the domain has no
    /// segment. Else it goes over the live threads from there on, over segments of the domain, and over one more of each thread.
    pub fn next_ending(&self, d: DomainId, above: u32) -> Option<ThreadNo>
        ensures { IsLeastAbove (EndsWith self.now.threads d) above (option_map thread_number result) }
    {
        if has_nothing(self.newest.as_slice(), d) {
            return None;
        }
        if is_for(self.listed_for, d) {
            return match next_listed(self.listed.as_slice(), above) {
                Some(number) => Some(ThreadNo(number)),
                None => None,
            };
        }
        match next_ending(self.entries.as_slice(), self.slots.as_slice(), d, above) {
            Some(number) => Some(ThreadNo(number)),
            None => None,
        }
    }

    /// The number of the next thread.
    pub fn next_thread(&self) -> u32
        ensures { result ≡ self.now.next_thread }
    {
        self.next_thread
    }

    /// The number of the next segment.
    pub fn next_segment(&self) -> u64
        ensures { result ≡ self.now.next_segment }
    {
        self.next_segment
    }

    /// The live threads in rising number, each with its segments, lowest first. It takes a logarithm for each segment.
    pub fn parts(&self, alloc: Global) -> Result<List<ThreadPart>, OutOfMemory>
        ensures { IfOk result (λ parts. parts ≡ map thread_part self.now.threads) }
    {
        all_parts(alloc, self.entries.as_slice(), self.slots.as_slice())
    }

    /// The segments of each live thread rise by number, since what comes on top draws the next one. It does nothing.
    pub fn segments_rise(&self)
        ensures { (t : SharedThread) → Contains self.now.threads t → AreRisingBy segment_key t.segments }
    {
        let _ = &self.next_segment;
    }

    /// Puts threads together of parts, where none is live. It takes the memory for them beside that for as many more as before, in time in
    /// proportion to them, with a logarithm for each segment.
    pub fn restore(
        &mut self,
        parts: &[ThreadPart],
        next_thread: u32,
        next_segment: u64,
    ) -> Result<(), OutOfMemory>
        requires none { self.old.threads ≡ [] }
        requires parts { AreLiveParts parts.now self.old.domains next_thread next_segment }
        ensures { OnOk result (Restores self.old self.new parts.now next_thread next_segment) }
    {
        let placed = placed_in_order(*self.entries.allocator(), parts)?;
        let most = self.most + parts.len();
        let most_segments = self.most_segments + placed.len();
        self.entries.reserve(2 * most - self.entries.len())?;
        self.slots.reserve(2 * most_segments - self.slots.len())?;
        self.listed_for = None;
        self.listed.clear();
        self.listed.reserve(most_segments)?;
        enter_all(&mut self.entries, parts);
        put_all(
            &mut self.entries,
            &mut self.slots,
            &mut self.newest,
            placed.as_slice(),
        );
        self.live = parts.len();
        self.live_segments = placed.len();
        self.most = most;
        self.most_segments = most_segments;
        self.next_thread = next_thread;
        self.next_segment = next_segment;
        Ok(())
    }

    /// What is known of a segment. None exactly where it isn't there.
    pub fn segment(&self, s: SegmentNo) -> Option<SegmentInfo>
        ensures { result ≡ option_map told (segment_numbered self.now.threads s) }
    {
        match place_of_segment(self.slots.as_slice(), s) {
            Some(place) => info_of(&self.slots[place]),
            None => None,
        }
    }

    /// Sets or clears a flag of a segment. Nothing changes where it isn't there.
    pub fn set_flag(&mut self, s: SegmentNo, flag: Flag, on: bool)
        ensures { self.new ≡ record self.old { threads = with_stacks (with_segment shared_form s (flag_changed flag on)) self.old.threads } }
    {
        self.listed_for = None;
        set_flag_among(&mut self.slots, s, flag, on);
    }
}

/// Whether something was listed for this domain.
fn is_for(listed_for: Option<DomainId>, d: DomainId) -> bool
    ensures { IsTrue result → listed_for ≡ Some d }
{
    match listed_for {
        Some(of) => of.0 == d.0,
        None => false,
    }
}

/// The newest segment of a domain, where it is there.
fn newest_of(newest: &[Option<SegmentNo>], d: DomainId) -> Option<Option<SegmentNo>>
    ensures { result ≡ slice_get newest.now d.0 }
{
    newest.get(d.0 as usize).copied()
}

/// Whether a domain is there and has no segment.
fn has_nothing(newest: &[Option<SegmentNo>], d: DomainId) -> bool
    ensures { IsTrue result → slice_get newest.now d.0 ≡ Some None }
{
    match newest.get(d.0 as usize) {
        Some(s) => s.is_none(),
        None => false,
    }
}

/// Sets the newest segment of a domain, and answers the one that was.
pub(crate) fn set_newest(
    newest: &mut Vec<Option<SegmentNo>>,
    d: DomainId,
    s: Option<SegmentNo>,
) -> Option<SegmentNo>
    requires { d.0 < length newest.old.items }
    ensures was { slice_get newest.old.items d.0 ≡ Some result }
    ensures set { newest.new.items ≡ set newest.old.items d.0 s }
    ensures capacity { vec_capacity newest.new ≡ vec_capacity newest.old }
{
    let entry = &mut newest[d.0 as usize];
    let was = *entry;
    *entry = s;
    was
}

/// Lets the next older segment be the newest of its domain, where the one that was taken off was that.
fn lower_newest(newest: &mut Vec<Option<SegmentNo>>, was: Slot)
    requires { was.domain.0 < length newest.old.items }
    ensures { newest.new.items ≡ newest_after was newest.old.items }
{
    if was.newer.is_none() {
        newest[was.domain.0 as usize] = was.older;
    }
}
