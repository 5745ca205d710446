//! A store of frames over vectors.

ghost use Rattle.std.specs.Prelude.{◌≡◌, ◌≤◌, IsSome, Some, None, nat_eq};
ghost use Rattle.indexmap.specs.IndexMap.{get};
ghost use Rattle.frame_store.specs.StoreContents.{IsStore, AreForgotten};
ghost use Rattle.frame_store.specs.ForgottenSegments.{Forgets};
ghost use Rattle.frame_store.specs.Cursors.{IsCursor};

use crate::cursor::{Cursor, NOWHERE};
use crate::domain_frames::DomainFrames;
use crate::frame_blocks::head_chunks;
use crate::one_segment::lend;
use crate::slot_set::SlotSet;
use crate::store::{FrameStore, OnSegment, SegmentFrames};
use indexmap::IndexMap;
use jk_model::{AdmitError, ClassId, DomainId, FrameHead, NoChunks, OutOfMemory, SegmentNo, Value};
use number_table::{NumberTable, Place};
use std::alloc::Global;
use std::marker::Brand;

/// A store of frames that keeps each domain's frames in vectors, which `admit` reserves.
#[derive(Drop)]
pub struct PlainFrames {
    alloc: Global,
    /// The domains, by their numbers.
    domains: IndexMap<u32, DomainFrames>,
    /// Where each segment stands.
    places: NumberTable,
    /// How many more segments the domains may begin.
    owed: u64,
    /// Where the store was last at work.
    cursor: Cursor,
    ghost ok: { IsStore domains places owed },
    ghost at: { IsCursor domains places cursor },
}

impl PlainFrames {
    ghost use Rattle.std.specs.Prelude.{◌≡◌, IsSome, Some, None, OnOk, OnErr, false, nat_eq};
    ghost use Rattle.indexmap.specs.IndexMap.{get};
    ghost use Rattle.jk_model.specs.declared.identifiers.DomainId.{DomainId};
    ghost use Rattle.jk_model.specs.declared.identifiers.SegmentNo.{SegmentNo};
    ghost use Rattle.number_table.specs.NumberPlaces.{place_of};
    ghost use Rattle.frame_store.specs.StoreContents.{content_of, IsStanding, IsFound, Enters, IsUnentered, StandsAt};

    /// A store without domains.
    pub fn new(alloc: Global) -> PlainFrames
        ensures pages { (content_of result.domains result.places).pages ≡ None }
        ensures took_all { (content_of result.domains result.places).took_all ≡ false }
        ensures domains { (d : DomainId) → (content_of result.domains result.places).quota d ≡ None }
        ensures segments { (s : SegmentNo) → (content_of result.domains result.places).segment s ≡ None }
    {
        PlainFrames {
            alloc,
            domains: IndexMap::new(alloc),
            places: NumberTable::empty(alloc),
            owed: 0,
            cursor: NOWHERE,
        }
    }

    /// Where a segment stands.
    fn place(&self, s: SegmentNo) -> Place
        requires { IsSome (place_of self.now.places s.0) }
        ensures { place_of self.now.places s.0 ≡ Some result }
    {
        self.places.get(s.0).unwrap()
    }

    /// A domain. It stands at its own number where none was closed before it, so that most look-ups want no hash.
    fn domain(&self, d: u32) -> &DomainFrames
        requires { IsSome (get nat_eq self.now.domains d) }
        ensures { get nat_eq self.now.domains d ≡ Some result.now }
    {
        if let Some((number, x)) = self.domains.get_index(d as usize) {
            if *number == d {
                return x;
            }
        }
        self.domains.get(&d).unwrap()
    }

    /// Where a domain stands in the map.
    fn index_of(&self, d: u32) -> usize
        requires { IsSome (get nat_eq self.now.domains d) }
        ensures { StandsAt self.now.domains d result }
    {
        if let Some((number, _)) = self.domains.get_index(d as usize) {
            if *number == d {
                return d as usize;
            }
        }
        match self.domains.get_full(&d) {
            Some((place, _, _)) => place,
            None => unreachable!(),
        }
    }

    /// Makes room for a domain's segments, and enters it. After an error all is as before.
    fn enter(&mut self, d: u32, fresh: DomainFrames) -> Result<(), OutOfMemory>
        requires new { get nat_eq self.old.domains d ≡ None }
        requires none { fresh.slots.live ≡ 0 }
        ensures ok { OnOk result (Enters self.old.domains self.new.domains self.old.places self.new.places d fresh) }
        ensures err { OnErr result (IsUnentered self.old.domains self.new.domains self.old.places self.new.places) }
    {
        let more = self.owed + u64::from(fresh.chunks);
        self.places.reserve(self.alloc, more as usize)?;
        self.domains.insert(d, fresh)?;
        self.owed = more;
        Ok(())
    }

    /// A segment's place, and its domain.
    fn find(&self, s: SegmentNo) -> (&DomainFrames, u32)
        requires { IsStanding self.now.domains self.now.places s.0 }
        ensures { IsFound self.now.domains self.now.places s.0 result.0.now result.1 }
    {
        let p = self.place(s);
        (self.domain(p.domain), p.slot)
    }
}

impl PlainFrames {
    ghost use Rattle.std.specs.Prelude.{◌≡◌, ℕ, ◌-◌, Some, IsSome, IsTrue, ◌↔◌, length, option_map, slice_get};
    ghost use Rattle.number_table.specs.NumberPlaces.{place_of};
    ghost use Rattle.jk_model_frames.specs.Frames.{FrameState as AFrame};
    ghost use Rattle.frame_store.specs.FrameContents.{HasTop, HasLocal, HasEntry, IsThere, TopFrame};
    ghost use Rattle.frame_store.specs.StoreContents.{content_of, StandsAt};
    ghost use Rattle.frame_store.specs.Cursors.{HasDomainAt, IsRightFor, IsTopAt, PointsAt};

    /// Whether the cursor is at a segment.
    #[inline(always)]
    fn is_at(&self, s: SegmentNo) -> bool
        ensures is { IsTrue result ↔ (self.now.cursor.segment ≡ s.0) }
        ensures right { IsTrue result → IsRightFor self.now.domains self.now.places s.0 self.now.cursor }
        ensures points { IsTrue result → HasTop (content_of self.now.domains self.now.places) s
            → PointsAt self.now.domains self.now.places s.0 self.now.cursor }
    {
        self.cursor.segment == s.0
    }

    /// Moves the cursor to a segment, if it isn't there.
    #[inline(always)]
    fn touch(&mut self, s: SegmentNo)
        requires { IsThere (content_of self.old.domains self.old.places) s }
        ensures same { content_of self.new.domains self.new.places ≡ content_of self.old.domains self.old.places }
        ensures at { self.new.cursor.segment ≡ s.0 }
        ensures right { IsRightFor self.new.domains self.new.places s.0 self.new.cursor }
        ensures points { HasTop (content_of self.old.domains self.old.places) s → PointsAt self.new.domains self.new.places s.0 self.new.cursor }
    {
        if !self.is_at(s) {
            self.move_to(s);
        }
    }

    /// Moves the cursor to a segment.
    #[cold]
    #[inline(never)]
    fn move_to(&mut self, s: SegmentNo)
        requires { IsThere (content_of self.old.domains self.old.places) s }
        ensures same { content_of self.new.domains self.new.places ≡ content_of self.old.domains self.old.places }
        ensures at { self.new.cursor.segment ≡ s.0 }
        ensures right { IsRightFor self.new.domains self.new.places s.0 self.new.cursor }
    {
        self.cursor = self.look_up(s);
    }

    /// Where a segment is, and its top frame, if it has one.
    #[inline(always)]
    fn look_up(&self, s: SegmentNo) -> Cursor
        requires { IsThere (content_of self.now.domains self.now.places) s }
        ensures segment { result.segment ≡ s.0 }
        ensures right { IsRightFor self.now.domains self.now.places s.0 result }
    {
        let place = self.place(s);
        let domain = self.index_of(place.domain);
        let mut found = cursor_at(s.0, place, domain);
        let x = self.at(domain);
        if x.depth(place.slot) > 0 {
            x.aim(&mut found);
        }
        found
    }

    /// The domain at a place of the map.
    fn at(&self, place: usize) -> &DomainFrames
        requires { HasDomainAt self.now.domains place }
        ensures { (d : ℕ) (stands : StandsAt self.now.domains d place) → result.now ≡ stands.domain }
    {
        match self.domains.get_index(place) {
            Some((_, x)) => x,
            None => unreachable!(),
        }
    }

    /// The place of a segment's domain in the map, and the number of the segment's top frame.
    #[inline(always)]
    fn top(&self, s: SegmentNo) -> (usize, usize)
        requires { HasTop (content_of self.now.domains self.now.places) s }
        ensures { IsTopAt self.now.domains self.now.places s.0 result.0 result.1 }
    {
        if self.is_at(s) {
            (self.cursor.domain, self.cursor.frame)
        } else {
            self.far_top(s)
        }
    }

    /// As `top`, where the cursor is elsewhere.
    #[cold]
    #[inline(never)]
    fn far_top(&self, s: SegmentNo) -> (usize, usize)
        requires { HasTop (content_of self.now.domains self.now.places) s }
        ensures { IsTopAt self.now.domains self.now.places s.0 result.0 result.1 }
    {
        let found = self.look_up(s);
        (found.domain, found.frame)
    }

    /// As `depth`, where the cursor is elsewhere.
    #[cold]
    #[inline(never)]
    fn far_depth(&self, s: SegmentNo) -> u32
        requires { IsThere (content_of self.now.domains self.now.places) s }
        ensures { Some result ≡ option_map (λ g. length g.frames) ((content_of self.now.domains self.now.places).segment s) }
    {
        let (x, slot) = self.find(s);
        x.depth(slot)
    }

    /// As `local`, where the cursor is elsewhere.
    #[cold]
    #[inline(never)]
    fn far_local(&self, s: SegmentNo, i: u16) -> Value
        requires { HasLocal (content_of self.now.domains self.now.places) s i }
        ensures { (f : AFrame) → TopFrame (content_of self.now.domains self.now.places) s f → slice_get f.locals i ≡ Some result }
    {
        let found = self.look_up(s);
        self.at(found.domain).local(found.frame, found.start, i)
    }

    /// As `peek`, where the cursor is elsewhere.
    #[cold]
    #[inline(never)]
    fn far_peek(&self, s: SegmentNo, below: u16) -> Value
        requires { HasEntry (content_of self.now.domains self.now.places) s below }
        ensures { (f : AFrame) → TopFrame (content_of self.now.domains self.now.places) s f
            → slice_get f.stack (length f.stack - 1 - below) ≡ Some result }
    {
        let found = self.look_up(s);
        self.at(found.domain).entry_below(found, below)
    }
}

impl SegmentFrames for PlainFrames {
    ghost use Rattle.frame_store.specs.StoreContents.{content_of};

    ghost content = { λ x. content_of x.domains x.places };

    fn push(&mut self, s: SegmentNo, head: FrameHead) -> Result<(), NoChunks> {
        self.touch(s);
        let (_, x) = self.domains.pair_mut(self.cursor.domain);
        let blocks = head_chunks(&head);
        if blocks > x.free() {
            return Err(NoChunks);
        }
        x.push_top(&mut self.cursor, head, blocks);
        Ok(())
    }

    fn call(&mut self, s: SegmentNo, head: FrameHead, arguments: u16) -> Result<(), NoChunks> {
        self.touch(s);
        let (_, x) = self.domains.pair_mut(self.cursor.domain);
        let blocks = head_chunks(&head);
        if blocks > x.free() {
            return Err(NoChunks);
        }
        x.call(&mut self.cursor, head, blocks, arguments);
        Ok(())
    }

    #[inline(always)]
    fn pop(&mut self, s: SegmentNo) {
        self.touch(s);
        let (_, x) = self.domains.pair_mut(self.cursor.domain);
        x.pop_top(&mut self.cursor);
    }

    #[inline(always)]
    fn depth(&self, s: SegmentNo) -> u32 {
        if self.is_at(s) {
            let domains = self.domains.as_slice();
            domains[self.cursor.domain].depth(self.cursor.place.slot)
        } else {
            self.far_depth(s)
        }
    }

    #[inline(always)]
    fn head(&self, s: SegmentNo) -> FrameHead {
        let (domain, frame) = self.top(s);
        self.domains.as_slice()[domain].head(frame)
    }

    #[inline(always)]
    fn go(&mut self, s: SegmentNo, at: u32, need: Option<ClassId>) {
        self.touch(s);
        let (_, x) = self.domains.pair_mut(self.cursor.domain);
        x.go(self.cursor.frame, at, need);
    }

    #[inline(always)]
    fn go_on(&mut self, s: SegmentNo) {
        self.touch(s);
        let (_, x) = self.domains.pair_mut(self.cursor.domain);
        x.go_on(self.cursor.frame);
    }

    #[inline(always)]
    fn local(&self, s: SegmentNo, i: u16) -> Value {
        if self.is_at(s) {
            let domains = self.domains.as_slice();
            domains[self.cursor.domain].local(self.cursor.frame, self.cursor.start, i)
        } else {
            self.far_local(s, i)
        }
    }

    #[inline(always)]
    fn set_local(&mut self, s: SegmentNo, i: u16, v: Value) {
        self.touch(s);
        let (_, x) = self.domains.pair_mut(self.cursor.domain);
        x.set_local(self.cursor.frame, self.cursor.start, i, v);
    }

    #[inline(always)]
    fn height(&self, s: SegmentNo) -> u16 {
        let (domain, frame) = self.top(s);
        self.domains.as_slice()[domain].height(frame)
    }

    #[inline(always)]
    fn peek(&self, s: SegmentNo, below: u16) -> Value {
        if self.is_at(s) {
            let domains = self.domains.as_slice();
            domains[self.cursor.domain].entry_below(self.cursor, below)
        } else {
            self.far_peek(s, below)
        }
    }

    #[inline(always)]
    fn push_value(&mut self, s: SegmentNo, v: Value) {
        self.touch(s);
        let (_, x) = self.domains.pair_mut(self.cursor.domain);
        x.push_value(self.cursor, v);
    }

    #[inline(always)]
    fn pop_value(&mut self, s: SegmentNo) -> Value {
        self.touch(s);
        let (_, x) = self.domains.pair_mut(self.cursor.domain);
        x.pop_value(self.cursor)
    }

    #[inline(always)]
    fn drop_entries(&mut self, s: SegmentNo, count: u16) {
        self.touch(s);
        let (_, x) = self.domains.pair_mut(self.cursor.domain);
        x.drop_entries(self.cursor.frame, count);
    }

    #[inline(always)]
    fn exchange(&mut self, s: SegmentNo, count: u16, v: Value) {
        self.touch(s);
        let (_, x) = self.domains.pair_mut(self.cursor.domain);
        x.exchange(self.cursor, count, v);
    }

    fn give_back(&mut self, s: SegmentNo, v: Option<Value>) {
        self.touch(s);
        let (_, x) = self.domains.pair_mut(self.cursor.domain);
        x.give_back(&mut self.cursor, v);
    }
}

impl FrameStore for PlainFrames {
    ghost use Rattle.frame_store.specs.StoreIsContent.{store_holds};

    fn admit(&mut self, d: DomainId, chunks: u32) -> Result<(), AdmitError> {
        let fresh = DomainFrames::new(self.alloc, chunks)?;
        self.enter(d.0, fresh)?;
        Ok(())
    }

    fn free(&self, d: DomainId) -> u32 {
        self.domain(d.0).free()
    }

    #[inline(always)]
    fn begin(&mut self, d: DomainId, s: SegmentNo, head: FrameHead) -> Result<(), NoChunks> {
        let domain = self.index_of(d.0);
        // The segment isn't in the table yet, so the cursor may be at it.
        self.cursor.segment = s.0;
        self.cursor.place.domain = d.0;
        self.cursor.domain = domain;
        let (_, x) = self.domains.pair_mut(domain);
        x.begin(&mut self.cursor, s.0, head)?;
        self.places.insert(s.0, self.cursor.place);
        self.owed -= 1;
        Ok(())
    }

    #[inline(always)]
    fn end(&mut self, s: SegmentNo) {
        self.touch(s);
        let (_, x) = self.domains.pair_mut(self.cursor.domain);
        x.end(self.cursor.place.slot);
        // The segment goes from the table, so the cursor may stay at it.
        self.places.remove(s.0);
        self.owed += 1;
    }

    fn close(&mut self, d: DomainId) {
        if let Some(x) = self.domains.get(&d.0) {
            let chunks = x.chunks;
            let live = x.slots.live;
            forget_all(&mut self.places, &x.slots, d.0);
            let _ = self.domains.swap_remove(&d.0);
            self.owed -= u64::from(chunks - live);
            // The domain of the cursor's segment may stand elsewhere in the map now.
            if let Some((index, _, _)) = self.domains.get_full(&self.cursor.place.domain) {
                self.cursor.domain = index;
            }
        }
    }

    fn pool_words(&self) -> Option<u32> {
        None
    }

    fn first_page(&self, _d: DomainId) -> Option<u32> {
        None
    }

    fn head_at(&self, s: SegmentNo, n: u32) -> FrameHead {
        let (x, slot) = self.find(s);
        x.head(x.frame(slot, n))
    }

    fn local_at(&self, s: SegmentNo, n: u32, i: u16) -> Value {
        let (x, slot) = self.find(s);
        let frame = x.frame(slot, n);
        x.local(frame, x.start(frame), i)
    }

    fn entry_at(&self, s: SegmentNo, n: u32, i: u16) -> Option<Value> {
        let (x, slot) = self.find(s);
        let frame = x.frame(slot, n);
        if i < x.height(frame) {
            Some(x.entry(frame, x.start(frame), i))
        } else {
            None
        }
    }

    #[inline(always)]
    fn with_segment<A, B, W: OnSegment<A, B>>(
        &mut self,
        s: SegmentNo,
        work: &mut W,
        a: &mut A,
        b: &mut B,
    ) {
        self.touch(s);
        let (_, x) = self.domains.pair_mut(self.cursor.domain);
        lend::<Brand, A, B, W>(x, &mut self.cursor, work, a, b);
    }

    ghost holds = { λ x. store_holds x.domains x.places x.owed x.ok };
}

/// A cursor at a segment that stands so, in the domain at this place of the map, with nothing of a frame yet.
fn cursor_at(segment: u64, place: Place, domain: usize) -> Cursor
    ensures segment { result.segment ≡ segment }
    ensures place { result.place ≡ place }
    ensures domain { result.domain ≡ domain }
{
    let mut cursor = NOWHERE;
    cursor.segment = segment;
    cursor.place = place;
    cursor.domain = domain;
    cursor
}

/// Takes out the segments of all live slots of a domain.
fn forget_all(places: &mut NumberTable, slots: &SlotSet, domain: u32)
    ensures { AreForgotten places.old places.new slots.now domain slots.now.live }
{
    for t in 0..slots.live {
        forget(places, slots.number_at(t), domain);
    }
}

/// Takes out a segment, if it is there and stands in this domain.
fn forget(places: &mut NumberTable, number: u64, domain: u32)
    ensures { Forgets places.old places.new number domain }
{
    let Some(place) = places.get(number) else {
        return;
    };
    if place.domain != domain {
        return;
    }
    places.remove(number);
}
