//! The frames of one domain. All its memory is taken when it is made.

ghost use Rattle.std.specs.Prelude.{◌≡◌, ◌+◌, ◌*◌, ◌<◌, ◌≤◌, ◌^◌, length, IfOk};
ghost use Rattle.jk_model_frames.specs.Frames.{as_locals};
ghost use Rattle.frame_store.specs.FrameBlocks.{IsDomain};

use crate::cursor::Cursor;
use crate::frame_blocks::{
    BLOCK, FrameRecord, entry_index, give_blocks, head_chunks, take_blocks, value_index,
};
use crate::slot_set::SlotSet;
use jk_model::{ClassId, FrameHead, NoChunks, OutOfMemory, Value};
use number_table::chains::Chains;
use std::alloc::Global;

/// The frames of a domain's segments. A segment has a slot. A frame has a number, under which its record stands; the numbers
/// of the frames of a segment are the stack of its slot, and the last stack has the free numbers. A frame's number is that of
/// the stack of its blocks too, and the last stack of those has the free blocks.
#[derive(Drop)]
pub(crate) struct DomainFrames {
    pub(crate) chunks: u32,
    pub(crate) used: u32,
    pub(crate) slots: SlotSet,
    pub(crate) frames: Chains,
    pub(crate) parts: Chains,
    pub(crate) records: Vec<FrameRecord>,
    pub(crate) values: Vec<Value>,
    ghost ok: { IsDomain chunks used slots frames parts records.items values.items },
}

impl DomainFrames {
    ghost use Rattle.std.specs.Prelude.{◌≡◌, ℕ, ◌+◌, ◌-◌, ◌*◌, ◌^◌, ◌<◌, ◌≤◌, ◌++◌, ◌∷◌, [], List, Some, None, length, slice_get, slice_set, IfOk, OnOk, OnErr};
    ghost use Rattle.jk_model.specs.declared.values.Value.{Value as AValue};
    ghost use Rattle.jk_model_frames.specs.Frames.{FrameState as AFrame, called_frame, new_frame, head_chunks, frames_chunks};
    ghost use Rattle.number_table.specs.ChainMoves.{MovesTop, place};
    ghost use Rattle.frame_store.specs.FrameContents.{TwoFrames};
    ghost use Rattle.frame_store.specs.Cursors.{HasValuesAt, IsAimed, AimsIfThere, at_slot};
    ghost use Rattle.frame_store.specs.DomainMoves.{MayGive, GivesTo, HasGiven, CallsOn, depth_of, frames_of, top_of, top_number, locals_at, lower_of, start_of, value_at, IsSlot, HasTop, IsTopOf, IsFrameNumber, IsFresh, Opens, Becomes, Begins, Ends, TakesTopEntry, DropsTopEntries, ExchangesTopEntries, GivesTopBack};

    /// A domain without segments, which may use so many chunks.
    pub(crate) fn new(alloc: Global, chunks: u32) -> Result<DomainFrames, OutOfMemory>
        requires least { 1 ≤ chunks }
        requires most { chunks ≤ 262144 }
        ensures { IfOk result (λ d. IsFresh d chunks) }
    {
        let slots = SlotSet::new(alloc, chunks)?;
        let size = chunks as usize;
        let frames = Chains::new(alloc, size, size)?;
        let parts = Chains::new(alloc, size, size)?;
        let records = no_records(alloc, chunks)?;
        let values = no_values(alloc, chunks)?;
        Ok(DomainFrames {
            chunks,
            used: 0,
            slots,
            frames,
            parts,
            records,
            values,
        })
    }

    /// How many chunks the domain may still use.
    pub(crate) fn free(&self) -> u32
        ensures { result ≡ self.now.chunks - self.now.used }
    {
        self.chunks - self.used
    }

    /// Begins a segment with one frame, in a slot. The cursor is at the segment's slot then, and at that frame.
    #[inline(always)]
    pub(crate) fn begin(
        &mut self,
        c: &mut Cursor,
        number: u64,
        head: FrameHead,
    ) -> Result<(), NoChunks>
        ensures ok { OnOk result (Begins self.old self.new number head c.new.place.slot) }
        ensures aims { OnOk result (IsAimed self.new (at_slot c.old c.new.place.slot) c.new) }
        ensures cursor { OnErr result (c.new ≡ c.old) }
        ensures err { OnErr result (self.new ≡ self.old) }
        ensures room { OnOk result (1 + head_chunks head ≤ self.old.chunks - self.old.used) }
        ensures no_room { OnErr result (self.old.chunks - self.old.used < 1 + head_chunks head) }
    {
        let blocks = head_chunks(&head);
        if blocks >= self.chunks - self.used {
            return Err(NoChunks);
        }
        let slot = self.open(number);
        let (frame, start) = self.add(slot, head, blocks);
        c.place.slot = slot;
        self.aim_at(c, frame, start);
        Ok(())
    }

    /// Takes out a segment with its frames.
    #[inline(always)]
    pub(crate) fn end(&mut self, slot: u32)
        requires { IsSlot self.old slot }
        ensures { Ends self.old self.new slot }
    {
        self.empty(slot);
        self.slots.give(slot);
        self.used -= 1;
    }

    /// Puts a frame on top of a segment, where the chunks that it costs are free.
    pub(crate) fn push(&mut self, slot: u32, head: FrameHead, blocks: u32)
        requires slot { IsSlot self.old slot }
        requires cost { blocks ≡ head_chunks head }
        requires room { blocks ≤ self.old.chunks - self.old.used }
        requires small { head.max_stack < 2 ^ 16 }
        ensures { Becomes self.old self.new slot (frames_of self.old slot ++ new_frame head ∷ []) (self.old.used + head_chunks head) }
    {
        let _added = self.add(slot, head, blocks);
    }

    /// Puts a frame on top of a segment, where the chunks that it costs are free, and moves so many arguments from the frame
    /// below, at which the cursor is, into its first locals. The cursor moves to the new frame.
    #[inline(always)]
    pub(crate) fn call(&mut self, c: &mut Cursor, head: FrameHead, blocks: u32, arguments: u16)
        requires slot { IsSlot self.old c.old.place.slot }
        requires top { IsTopOf self.old c.old.place.slot c.old.frame }
        requires values { HasValuesAt self.old c.old }
        requires given { HasGiven self.old c.old.place.slot head arguments }
        requires cost { blocks ≡ head_chunks head }
        requires room { blocks ≤ self.old.chunks - self.old.used }
        requires small { head.max_stack < 2 ^ 16 }
        requires few_locals { head.max_locals < 2 ^ 16 }
        ensures calls { CallsOn self.old self.new c.old.place.slot head arguments }
        ensures aims { IsAimed self.new c.old c.new }
    {
        let (frame, start) = self.add(c.place.slot, head, blocks);
        self.give(c.frame, c.start, frame, start, arguments);
        self.shorten(c.frame, arguments);
        self.aim_at(c, frame, start);
    }

    /// Takes the top frame off a segment.
    #[inline(always)]
    pub(crate) fn pop(&mut self, slot: u32)
        requires { HasTop self.old slot }
        ensures { Becomes self.old self.new slot (lower_of self.old slot) (self.old.used - head_chunks (top_of self.old slot).head) }
    {
        let frame = self.frames.free_top(slot as usize, self.chunks as usize);
        let blocks = self.parts.count(frame) as u32;
        give_blocks(&mut self.parts, self.chunks as usize, frame);
        self.used -= blocks;
    }

    /// How many frames a segment has.
    pub(crate) fn depth(&self, slot: u32) -> u32
        requires { IsSlot self.now slot }
        ensures { result ≡ length (frames_of self.now slot) }
    {
        self.frames.count(slot as usize) as u32
    }

    /// Moves a cursor at a segment to the segment's top frame.
    pub(crate) fn aim(&self, c: &mut Cursor)
        requires { HasTop self.now c.old.place.slot }
        ensures { IsAimed self.now c.old c.new }
    {
        let frame = self.top(c.place.slot);
        let start = self.start(frame);
        self.aim_at(c, frame, start);
    }

    /// Moves a cursor at a segment to the segment's top frame, which has this number, and the values of which begin here.
    #[inline(always)]
    fn aim_at(&self, c: &mut Cursor, frame: usize, start: usize)
        requires is_frame { IsFrameNumber self.now frame }
        requires top { frame ≡ top_number self.now c.old.place.slot }
        requires start { start ≡ start_of self.now frame }
        requires few { start < 5242880 }
        ensures { IsAimed self.now c.old c.new }
    {
        let locals = self.locals(frame);
        c.frame = frame;
        c.start = start;
        c.base = start + usize::from(locals);
        c.room = BLOCK.saturating_sub(locals);
    }

    /// The number of the top frame of a segment.
    pub(crate) fn top(&self, slot: u32) -> usize
        requires { HasTop self.now slot }
        ensures number { result ≡ top_number self.now slot }
        ensures is_frame { IsFrameNumber self.now result }
    {
        self.frames.top(slot as usize)
    }

    /// The number of a frame of a segment, by how many are below it.
    pub(crate) fn frame(&self, slot: u32, depth: u32) -> usize
        requires slot { slot < self.now.chunks }
        requires there { depth < depth_of self.now slot }
        ensures frame { slice_get (frames_of self.now slot) depth ≡ Some (value_at self.now result) }
        ensures is_frame { IsFrameNumber self.now result }
    {
        self.frames.at(slot as usize, depth as usize)
    }

    /// The head of a frame.
    pub(crate) fn head(&self, frame: usize) -> FrameHead
        requires { IsFrameNumber self.now frame }
        ensures { result ≡ (value_at self.now frame).head }
    {
        self.records[frame].head
    }

    /// How many locals a frame has.
    #[inline(always)]
    fn locals(&self, frame: usize) -> u16
        requires { IsFrameNumber self.now frame }
        ensures { result ≡ locals_at self.now frame }
    {
        self.records[frame].head.max_locals
    }

    /// How many entries the operand stack of a frame has.
    pub(crate) fn height(&self, frame: usize) -> u16
        requires { IsFrameNumber self.now frame }
        ensures { result ≡ length (value_at self.now frame).stack }
    {
        self.records[frame].height
    }

    /// Where the values of a frame begin.
    pub(crate) fn start(&self, frame: usize) -> usize
        requires { IsFrameNumber self.now frame }
        ensures is { result ≡ start_of self.now frame }
        ensures few { result < 5242880 }
    {
        20 * self.parts.at(frame, 0)
    }

    /// A local of a frame, whose values begin here.
    pub(crate) fn local(&self, frame: usize, start: usize, i: u16) -> Value
        requires frame { IsFrameNumber self.now frame }
        requires start { start ≡ start_of self.now frame }
        requires there { i < length (value_at self.now frame).locals }
        ensures { slice_get (value_at self.now frame).locals i ≡ Some result }
    {
        self.values[value_index(&self.parts, frame, start, u32::from(i))]
    }

    /// An entry of the operand stack of a frame, whose values begin here.
    pub(crate) fn entry(&self, frame: usize, start: usize, i: u16) -> Value
        requires frame { IsFrameNumber self.now frame }
        requires start { start ≡ start_of self.now frame }
        requires there { i < length (value_at self.now frame).stack }
        ensures { slice_get (value_at self.now frame).stack i ≡ Some result }
    {
        let locals = self.records[frame].head.max_locals;
        self.values[value_index(&self.parts, frame, start, u32::from(locals) + u32::from(i))]
    }

    /// An entry of the operand stack of a frame, at which the cursor is, by how many entries are above it.
    #[inline(always)]
    pub(crate) fn entry_below(&self, c: Cursor, above: u16) -> Value
        requires frame { IsFrameNumber self.now c.frame }
        requires values { HasValuesAt self.now c }
        requires there { above < length (value_at self.now c.frame).stack }
        ensures { let entries = (value_at self.now c.frame).stack in slice_get entries (length entries - 1 - above) ≡ Some result }
    {
        let record = &self.records[c.frame];
        let entry = record.height - 1 - above;
        let locals = record.head.max_locals;
        self.values[entry_index(&self.parts, c.frame, c.base, c.room, locals, entry)]
    }

    /// Sets where a top frame stands, and which class it needs.
    pub(crate) fn go(&mut self, frame: usize, at: u32, need: Option<ClassId>)
        requires { IsFrameNumber self.old frame }
        ensures frames { self.new.frames ≡ self.old.frames }
        ensures parts { self.new.parts ≡ self.old.parts }
        ensures locals { locals_at self.new frame ≡ locals_at self.old frame }
        ensures becomes { (slot : ℕ) → IsTopOf self.old slot frame → let f = top_of self.old slot in
            Becomes self.old self.new slot (lower_of self.old slot ++ record f { head = record f.head { at = at; need = need } } ∷ []) self.old.used }
    {
        let set = &mut self.records[frame];
        set.head.at = at;
        set.head.need = need;
    }

    /// Sets a local of a top frame, whose values begin here.
    pub(crate) fn set_local(&mut self, frame: usize, start: usize, i: u16, v: Value)
        requires frame { IsFrameNumber self.old frame }
        requires start { start ≡ start_of self.old frame }
        requires there { i < length (value_at self.old frame).locals }
        ensures frames { self.new.frames ≡ self.old.frames }
        ensures parts { self.new.parts ≡ self.old.parts }
        ensures locals { locals_at self.new frame ≡ locals_at self.old frame }
        ensures becomes { (slot : ℕ) → IsTopOf self.old slot frame → let f = top_of self.old slot in
            Becomes self.old self.new slot (lower_of self.old slot ++ record f { locals = slice_set f.locals i v } ∷ []) self.old.used }
    {
        let index = value_index(&self.parts, frame, start, u32::from(i));
        self.values[index] = v;
    }

    /// Pushes an entry on the operand stack of a top frame, at which the cursor is.
    #[inline(always)]
    pub(crate) fn push_value(&mut self, c: Cursor, v: Value)
        requires frame { IsFrameNumber self.old c.frame }
        requires values { HasValuesAt self.old c }
        requires room { length (value_at self.old c.frame).stack < (value_at self.old c.frame).head.max_stack }
        ensures frames { self.new.frames ≡ self.old.frames }
        ensures parts { self.new.parts ≡ self.old.parts }
        ensures locals { locals_at self.new c.frame ≡ locals_at self.old c.frame }
        ensures becomes { (slot : ℕ) → IsTopOf self.old slot c.frame → let f = top_of self.old slot in
            Becomes self.old self.new slot (lower_of self.old slot ++ record f { stack = f.stack ++ v ∷ [] } ∷ []) self.old.used }
    {
        let record = &mut self.records[c.frame];
        let height = record.height;
        record.height = height + 1;
        let locals = record.head.max_locals;
        let index = entry_index(&self.parts, c.frame, c.base, c.room, locals, height);
        self.values[index] = v;
    }

    /// Takes the top entry off the operand stack of a top frame, at which the cursor is.
    #[inline(always)]
    pub(crate) fn pop_value(&mut self, c: Cursor) -> Value
        requires frame { IsFrameNumber self.old c.frame }
        requires values { HasValuesAt self.old c }
        requires some { 0 < length (value_at self.old c.frame).stack }
        ensures frames { self.new.frames ≡ self.old.frames }
        ensures parts { self.new.parts ≡ self.old.parts }
        ensures locals { locals_at self.new c.frame ≡ locals_at self.old c.frame }
        ensures becomes { (slot : ℕ) → IsTopOf self.old slot c.frame → TakesTopEntry self.old self.new slot result }
    {
        let record = &mut self.records[c.frame];
        let height = record.height - 1;
        record.height = height;
        let locals = record.head.max_locals;
        let index = entry_index(&self.parts, c.frame, c.base, c.room, locals, height);
        self.values[index]
    }

    /// Takes so many entries off the operand stack of a top frame.
    #[inline(always)]
    pub(crate) fn drop_entries(&mut self, frame: usize, count: u16)
        requires frame { IsFrameNumber self.old frame }
        requires enough { count ≤ length (value_at self.old frame).stack }
        ensures frames { self.new.frames ≡ self.old.frames }
        ensures parts { self.new.parts ≡ self.old.parts }
        ensures locals { locals_at self.new frame ≡ locals_at self.old frame }
        ensures becomes { (slot : ℕ) → IsTopOf self.old slot frame → DropsTopEntries self.old self.new slot count }
    {
        self.shorten(frame, count);
    }

    /// Puts a value in the place of so many entries of the operand stack of a top frame, at which the cursor is.
    #[inline(always)]
    pub(crate) fn exchange(&mut self, c: Cursor, count: u16, v: Value)
        requires frame { IsFrameNumber self.old c.frame }
        requires values { HasValuesAt self.old c }
        requires some { 1 ≤ count }
        requires enough { count ≤ length (value_at self.old c.frame).stack }
        ensures frames { self.new.frames ≡ self.old.frames }
        ensures parts { self.new.parts ≡ self.old.parts }
        ensures locals { locals_at self.new c.frame ≡ locals_at self.old c.frame }
        ensures becomes { (slot : ℕ) → IsTopOf self.old slot c.frame → ExchangesTopEntries self.old self.new slot count v }
    {
        let record = &mut self.records[c.frame];
        let height = record.height - count;
        record.height = height + 1;
        let locals = record.head.max_locals;
        let index = entry_index(&self.parts, c.frame, c.base, c.room, locals, height);
        self.values[index] = v;
    }

    /// Puts a frame on top of a segment, where the chunks that it costs are free, and moves the cursor, which is at the segment,
    /// to the new frame.
    #[inline(always)]
    pub(crate) fn push_top(&mut self, c: &mut Cursor, head: FrameHead, blocks: u32)
        requires slot { IsSlot self.old c.old.place.slot }
        requires cost { blocks ≡ head_chunks head }
        requires room { blocks ≤ self.old.chunks - self.old.used }
        requires small { head.max_stack < 2 ^ 16 }
        ensures becomes { let slot = c.old.place.slot in
            Becomes self.old self.new slot (frames_of self.old slot ++ new_frame head ∷ []) (self.old.used + head_chunks head) }
        ensures aims { IsAimed self.new c.old c.new }
    {
        self.push(c.place.slot, head, blocks);
        self.aim(c);
    }

    /// Takes the top frame off a segment, and moves the cursor, which is at the segment, to the frame below, if there is one.
    #[inline(always)]
    pub(crate) fn pop_top(&mut self, c: &mut Cursor)
        requires { HasTop self.old c.old.place.slot }
        ensures becomes { let slot = c.old.place.slot in
            Becomes self.old self.new slot (lower_of self.old slot) (self.old.used - head_chunks (top_of self.old slot).head) }
        ensures aims { AimsIfThere self.new c.old c.new }
    {
        self.pop(c.place.slot);
        if self.depth(c.place.slot) > 0 {
            self.aim(c);
        }
    }

    /// Takes the top frame off a segment, at which the cursor is, and lets the frame below go on after its call, with this value
    /// on its operand stack, if it is one. The cursor moves to that frame.
    pub(crate) fn give_back(&mut self, c: &mut Cursor, v: Option<Value>)
        requires slot { IsSlot self.old c.old.place.slot }
        requires two { TwoFrames (frames_of self.old c.old.place.slot) v }
        ensures gives { GivesTopBack self.old self.new c.old.place.slot v }
        ensures aims { IsAimed self.new c.old c.new }
    {
        let mut below = *c;
        self.pop(below.place.slot);
        self.aim(&mut below);
        self.go_on(below.frame);
        if let Some(v) = v {
            self.push_value(below, v);
        }
        *c = below;
    }

    /// Lets a top frame go on after its call.
    #[inline(always)]
    pub(crate) fn go_on(&mut self, frame: usize)
        requires frame { IsFrameNumber self.old frame }
        requires place { (value_at self.old frame).head.at + 1 < 2 ^ 32 }
        ensures frames { self.new.frames ≡ self.old.frames }
        ensures parts { self.new.parts ≡ self.old.parts }
        ensures locals { locals_at self.new frame ≡ locals_at self.old frame }
        ensures becomes { (slot : ℕ) → IsTopOf self.old slot frame → let f = top_of self.old slot in
            Becomes self.old self.new slot (lower_of self.old slot ++ record f { head = record f.head { at = f.head.at + 1; need = None } }
            ∷ []) self.old.used }
    {
        let at = self.records[frame].head.at;
        self.go(frame, at + 1, None);
    }

    /// Copies the topmost entries of a frame's operand stack, so many, into the first locals of the frame above. The values of
    /// both begin at these places.
    fn give(&mut self, caller: usize, low: usize, frame: usize, start: usize, count: u16)
        requires may { MayGive self.old caller frame count }
        requires low { low ≡ start_of self.old caller }
        requires start { start ≡ start_of self.old frame }
        ensures frames { self.new.frames ≡ self.old.frames }
        ensures parts { self.new.parts ≡ self.old.parts }
        ensures gives { (may : MayGive self.old caller frame count) → GivesTo self.old self.new may.slot may.head may.given }
    {
        let first = self.height(caller) - count;
        let mut at = 0;
        for k in 0..count {
            let v = self.entry(caller, low, first + k);
            self.set_local(frame, start, at, v);
            at += slots(v);
        }
    }

    /// Takes so many entries off the operand stack of a frame.
    #[inline(always)]
    fn shorten(&mut self, frame: usize, count: u16)
        requires frame { IsFrameNumber self.old frame }
        requires enough { count ≤ length (value_at self.old frame).stack }
        ensures frames { self.new.frames ≡ self.old.frames }
        ensures parts { self.new.parts ≡ self.old.parts }
        ensures locals { locals_at self.new frame ≡ locals_at self.old frame }
        ensures becomes { (slot n : ℕ) (below given : List AValue) → slot < self.old.chunks → n < depth_of self.old slot → frame ≡ place self.old.frames slot n
            → (value_at self.old frame).stack ≡ below ++ given → length given ≡ count
            → Becomes self.old self.new slot (slice_set (frames_of self.old slot) n (record (value_at self.old frame) { stack = below })) self.old.used }
    {
        self.records[frame].height -= count;
    }

    /// Takes a slot for a segment, which has no frames yet.
    fn open(&mut self, number: u64) -> u32
        requires { self.old.used < self.old.chunks }
        ensures { Opens self.old self.new number result }
    {
        let slot = self.slots.take(number);
        self.used += 1;
        slot
    }

    /// Puts a frame on top of a segment, where the chunks that it costs are free. The answer is its number, and where its values begin.
    #[inline(always)]
    fn add(&mut self, slot: u32, head: FrameHead, blocks: u32) -> (usize, usize)
        requires slot { IsSlot self.old slot }
        requires cost { blocks ≡ head_chunks head }
        requires room { self.old.used + blocks ≤ self.old.chunks }
        requires small { head.max_stack < 2 ^ 16 }
        ensures becomes { Becomes self.old self.new slot (frames_of self.old slot ++ new_frame head ∷ []) (self.old.used + blocks) }
        ensures moves { MovesTop self.old.frames self.new.frames self.old.chunks slot result.0 }
        ensures start { result.1 ≡ start_of self.new result.0 }
        ensures few { result.1 < 5242880 }
        ensures starts { (g : ℕ) → IsFrameNumber self.old g → start_of self.new g ≡ start_of self.old g }
    {
        let frame = self.frames.move_top(self.chunks as usize, slot as usize);
        self.records[frame] = FrameRecord { head, height: 0 };
        let lowest = take_blocks(
            &mut self.parts,
            &mut self.values,
            self.chunks as usize,
            frame,
            blocks,
            head.max_locals,
        );
        self.used += blocks;
        (frame, 20 * lowest)
    }

    /// Takes all frames off a segment.
    fn empty(&mut self, slot: u32)
        requires { IsSlot self.old slot }
        ensures { Becomes self.old self.new slot [] (self.old.used - frames_chunks (frames_of self.old slot)) }
    {
        while self.frames.count(slot as usize) > 0 {
            self.pop(slot);
        }
    }
}

/// How many locals a value takes.
fn slots(v: Value) -> u16
    ensures { result ≡ length (as_locals v) }
{
    match v {
        Value::Long(_) => 2,
        _ => 1,
    }
}

/// So many records of no meaning.
fn no_records(alloc: Global, count: u32) -> Result<Vec<FrameRecord>, OutOfMemory>
    ensures { IfOk result (λ v. length v.items ≡ count) }
{
    let mut records = Vec::with_capacity(alloc, count as usize)?;
    for _ in 0..count {
        records.push_reserved(FrameRecord {
            head: FrameHead {
                method: None,
                at: 0,
                need: None,
                initialises: None,
                max_locals: 0,
                max_stack: 0,
            },
            height: 0,
        });
    }
    Ok(records)
}

/// Twenty values for each of so many blocks.
fn no_values(alloc: Global, blocks: u32) -> Result<Vec<Value>, OutOfMemory>
    requires { blocks ≤ 262144 }
    ensures { IfOk result (λ v. length v.items ≡ 20 * blocks) }
{
    let count = 20 * blocks as usize;
    let mut values = Vec::with_capacity(alloc, count)?;
    for _ in 0..count {
        values.push_reserved(Value::Unset);
    }
    Ok(values)
}
