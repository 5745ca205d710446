//! The frames of one segment, lent out of a store for a run of calls. The segment is looked up once, when it is lent.

ghost use Rattle.std.specs.Prelude.{◌≡◌, ℕ};
ghost use Rattle.frame_store.specs.LentSegments.{IsAtSegment, StaysBeside, content_at};

use crate::cursor::Cursor;
use crate::domain_frames::DomainFrames;
use crate::frame_blocks::head_chunks;
use crate::store::{OnSegment, SegmentFrames};
use jk_model::{ClassId, FrameHead, NoChunks, SegmentNo, Value};
use std::marker::{Brand, PhantomData};

/// What stays as it is while a segment is lent. Each loan picks it.
pub(crate) trait Lending {
    ghost use Rattle.frame_store.specs.LentSegments.{Beside};

    /// What the segment's domain has beside the frames of the segment.
    ghost beside: { Beside };
}

impl Lending for Brand {
    ghost use Rattle.frame_store.specs.LentSegments.{nothing_beside};

    ghost beside = { nothing_beside };
}

/// A segment's domain, and a cursor at the segment. All calls are for this segment, so none looks at the number that it is given.
#[derive(Drop)]
pub(crate) struct OneSegment<'a, K: Lending> {
    domain: &'a mut DomainFrames,
    at: Cursor,
    of: PhantomData<K>,
    ghost right: { IsAtSegment domain.now at },
    ghost stays: { StaysBeside K.beside domain.now at },
}

impl<K: Lending> SegmentFrames for OneSegment<'_, K> {
    ghost content = { λ x. content_at x.domain.ghost_name x.domain.now x.at };

    fn push(&mut self, _s: SegmentNo, head: FrameHead) -> Result<(), NoChunks> {
        let blocks = head_chunks(&head);
        if blocks > self.domain.free() {
            return Err(NoChunks);
        }
        self.domain.push_top(&mut self.at, head, blocks);
        Ok(())
    }

    fn call(&mut self, _s: SegmentNo, head: FrameHead, arguments: u16) -> Result<(), NoChunks> {
        let blocks = head_chunks(&head);
        if blocks > self.domain.free() {
            return Err(NoChunks);
        }
        self.domain.call(&mut self.at, head, blocks, arguments);
        Ok(())
    }

    #[inline(always)]
    fn pop(&mut self, _s: SegmentNo) {
        self.domain.pop_top(&mut self.at);
    }

    #[inline(always)]
    fn depth(&self, _s: SegmentNo) -> u32 {
        self.domain.depth(self.at.place.slot)
    }

    #[inline(always)]
    fn head(&self, _s: SegmentNo) -> FrameHead {
        self.domain.head(self.at.frame)
    }

    #[inline(always)]
    fn go(&mut self, _s: SegmentNo, at: u32, need: Option<ClassId>) {
        self.domain.go(self.at.frame, at, need);
    }

    #[inline(always)]
    fn go_on(&mut self, _s: SegmentNo) {
        self.domain.go_on(self.at.frame);
    }

    #[inline(always)]
    fn local(&self, _s: SegmentNo, i: u16) -> Value {
        self.domain.local(self.at.frame, self.at.start, i)
    }

    #[inline(always)]
    fn set_local(&mut self, _s: SegmentNo, i: u16, v: Value) {
        self.domain.set_local(self.at.frame, self.at.start, i, v);
    }

    #[inline(always)]
    fn height(&self, _s: SegmentNo) -> u16 {
        self.domain.height(self.at.frame)
    }

    #[inline(always)]
    fn peek(&self, _s: SegmentNo, below: u16) -> Value {
        self.domain.entry_below(self.at, below)
    }

    #[inline(always)]
    fn push_value(&mut self, _s: SegmentNo, v: Value) {
        self.domain.push_value(self.at, v);
    }

    #[inline(always)]
    fn pop_value(&mut self, _s: SegmentNo) -> Value {
        self.domain.pop_value(self.at)
    }

    #[inline(always)]
    fn drop_entries(&mut self, _s: SegmentNo, count: u16) {
        self.domain.drop_entries(self.at.frame, count);
    }

    #[inline(always)]
    fn exchange(&mut self, _s: SegmentNo, count: u16, v: Value) {
        self.domain.exchange(self.at, count, v);
    }

    fn give_back(&mut self, _s: SegmentNo, v: Option<Value>) {
        self.domain.give_back(&mut self.at, v);
    }
}

/// Lends the segment at which the cursor is out of its domain, and moves the cursor to where its top frame is afterwards.
#[inline(always)]
pub(crate) fn lend<K: Lending, A, B, W: OnSegment<A, B>>(
    domain: &mut DomainFrames,
    cursor: &mut Cursor,
    work: &mut W,
    a: &mut A,
    b: &mut B,
)
    requires right { IsAtSegment domain.old cursor.old }
    requires beside { StaysBeside K.beside domain.old cursor.old }
    requires may { (name : ℕ) → W.may work.old a.old b.old (content_at name domain.old cursor.old) }
    ensures right { IsAtSegment domain.new cursor.new }
    ensures beside { StaysBeside K.beside domain.new cursor.new }
    ensures did { (name : ℕ) × W.did work.old work.new a.old a.new b.old b.new (content_at name domain.old cursor.old) (content_at name domain.new cursor.new) }
{
    let mut one: OneSegment<'_, K> = OneSegment {
        domain,
        at: Cursor {
            segment: cursor.segment,
            place: cursor.place,
            domain: cursor.domain,
            frame: cursor.frame,
            start: cursor.start,
            base: cursor.base,
            room: cursor.room,
        },
        of: PhantomData,
    };
    work.run(&mut one, a, b);
    cursor.segment = one.at.segment;
    cursor.place = one.at.place;
    cursor.domain = one.at.domain;
    cursor.frame = one.at.frame;
    cursor.start = one.at.start;
    cursor.base = one.at.base;
    cursor.room = one.at.room;
}
