//! What each store of frames does, and what the calls on one of its segments do.

ghost use Rattle.std.specs.Prelude.{◌≡◌, ◌≢◌, ◌+◌, ◌-◌, ◌*◌, ◌^◌, ◌<◌, ◌≤◌, ◌⊎◌, ◌++◌, ◌∷◌, [], true, length, option_map, slice_get, slice_set, Some, None, Err, OnOk, OnErr};
ghost use Rattle.jk_model.specs.declared.stores.AdmitError.TheVariants as Why;
ghost use Rattle.jk_model_frames.specs.Frames.{FrameState as AFrame, head_chunks};
ghost use Rattle.jk_model_frames.specs.Pools.{HasNoPlace};
ghost use Rattle.frame_store.specs.FrameContents.{FrameContent, IsAdmitted, IsThere, HasTop, TopFrame, FrameAt, HasLocal, HasEntry, HasEntries, HasFreeEntry, HasFrame, HasLocalAt, HasRoomFor, HasArguments, Calls, TakesEntry, DropsEntries, ExchangesEntries, MayGiveBack, GivesBack, IsSame, IsOnly, KeepsDomains, KeepsOthers, Begins, Pushes, Pops, Ends, SetsTop, Admits, Closes, HasFewDomains, IsContent, free_chunks, pool_of};

use jk_model::{AdmitError, ClassId, DomainId, FrameHead, NoChunks, SegmentNo, Value};

/// The frames of segments, by the calls that concern one segment. None of them takes memory.
pub trait SegmentFrames {
    /// All that is held.
    ghost content: { Self → FrameContent };

    /// Puts another frame on top of a segment. It fails exactly where its chunks exceed what is free, and then all is as before.
    fn push(&mut self, s: SegmentNo, head: FrameHead) -> Result<(), NoChunks>
        requires { IsThere (content self.old) s }
        ensures ok { OnOk result (Pushes (content self.old) (content self.new) s head) }
        ensures err { OnErr result (IsSame (content self.old) (content self.new)) }
        ensures room { OnOk result (HasRoomFor (content self.old) s head) }
        ensures no_room { OnErr result (HasRoomFor (content self.old) s head → ⊥) };

    /// Puts another frame on top of a segment, and moves so many arguments off the operand stack of the frame below into its
    /// first locals, in order, a long into the first of its two. It fails exactly where its chunks exceed what is free, and then
    /// all is as before.
    fn call(&mut self, s: SegmentNo, head: FrameHead, arguments: u16) -> Result<(), NoChunks>
        requires { HasArguments (content self.old) s head arguments }
        ensures ok { OnOk result (Calls (content self.old) (content self.new) s head arguments) }
        ensures err { OnErr result (IsSame (content self.old) (content self.new)) }
        ensures room { OnOk result (HasRoomFor (content self.old) s head) }
        ensures no_room { OnErr result (HasRoomFor (content self.old) s head → ⊥) };

    /// Takes the top frame off a segment.
    fn pop(&mut self, s: SegmentNo)
        requires { HasTop (content self.old) s }
        ensures { Pops (content self.old) (content self.new) s };

    /// How many frames a segment has.
    fn depth(&self, s: SegmentNo) -> u32
        requires { IsThere (content self.now) s }
        ensures { Some result ≡ option_map (λ g. length g.frames) ((content self.now).segment s) };

    /// The head of the top frame.
    fn head(&self, s: SegmentNo) -> FrameHead
        requires { HasTop (content self.now) s }
        ensures { (f : AFrame) → TopFrame (content self.now) s f → result ≡ f.head };

    /// Sets where the top frame stands, and which class it needs before it goes on.
    fn go(&mut self, s: SegmentNo, at: u32, need: Option<ClassId>)
        requires { HasTop (content self.old) s }
        ensures { (f : AFrame) → TopFrame (content self.old) s f
            → SetsTop (content self.old) (content self.new) s (record f { head = record f.head { at = at; need = need } }) };

    /// Lets the top frame go on after its call: its place is one more, and it needs no class.
    fn go_on(&mut self, s: SegmentNo)
        requires { (f : AFrame) × TopFrame (content self.old) s f × (f.head.at + 1 < 2 ^ 32) }
        ensures { (f : AFrame) → TopFrame (content self.old) s f
            → SetsTop (content self.old) (content self.new) s (record f { head = record f.head { at = f.head.at + 1; need = None } }) };

    /// A local of the top frame.
    fn local(&self, s: SegmentNo, i: u16) -> Value
        requires { HasLocal (content self.now) s i }
        ensures { (f : AFrame) → TopFrame (content self.now) s f → slice_get f.locals i ≡ Some result };

    /// Sets a local of the top frame.
    fn set_local(&mut self, s: SegmentNo, i: u16, v: Value)
        requires { HasLocal (content self.old) s i }
        ensures { (f : AFrame) → TopFrame (content self.old) s f
            → SetsTop (content self.old) (content self.new) s (record f { locals = slice_set f.locals i v }) };

    /// How many entries the operand stack of the top frame has.
    fn height(&self, s: SegmentNo) -> u16
        requires { HasTop (content self.now) s }
        ensures { (f : AFrame) → TopFrame (content self.now) s f → result ≡ length f.stack };

    /// An entry of the operand stack of the top frame, by how many are above it.
    fn peek(&self, s: SegmentNo, below: u16) -> Value
        requires { HasEntry (content self.now) s below }
        ensures { (f : AFrame) → TopFrame (content self.now) s f → slice_get f.stack (length f.stack - 1 - below) ≡ Some result };

    /// Pushes an entry on the operand stack of the top frame.
    fn push_value(&mut self, s: SegmentNo, v: Value)
        requires { HasFreeEntry (content self.old) s }
        ensures { (f : AFrame) → TopFrame (content self.old) s f
            → SetsTop (content self.old) (content self.new) s (record f { stack = f.stack ++ v ∷ [] }) };

    /// Takes the top entry off the operand stack of the top frame.
    fn pop_value(&mut self, s: SegmentNo) -> Value
        requires { HasEntry (content self.old) s 0 }
        ensures { (f : AFrame) → TopFrame (content self.old) s f → TakesEntry (content self.old) (content self.new) s f result };

    /// Takes so many entries off the operand stack of the top frame.
    fn drop_entries(&mut self, s: SegmentNo, count: u16)
        requires { HasEntries (content self.old) s count }
        ensures { (f : AFrame) → TopFrame (content self.old) s f → DropsEntries (content self.old) (content self.new) s f count };

    /// Puts a value in the place of so many entries on top of the operand stack of the top frame, one or more.
    fn exchange(&mut self, s: SegmentNo, count: u16, v: Value)
        requires some { 1 ≤ count }
        requires there { HasEntries (content self.old) s count }
        ensures { (f : AFrame) → TopFrame (content self.old) s f → ExchangesEntries (content self.old) (content self.new) s f count v };

    /// Takes the top frame off, and lets the frame below go on after its call: its place is one more, it needs no class, and
    /// where there is a value, it is pushed on its operand stack.
    fn give_back(&mut self, s: SegmentNo, v: Option<Value>)
        requires { MayGiveBack (content self.old) s v }
        ensures { GivesBack (content self.old) (content self.new) s v };
}

/// Work on one segment, the same whatever holds its frames. It is handed two things to work with besides.
pub trait OnSegment<A, B> {
    /// When the work may be done, by what holds the segment.
    ghost may: { Self → A → B → FrameContent → Type 0 };

    /// What the work did, by what held the segment and holds it then.
    ghost did: { Self → Self → A → A → B → B → FrameContent → FrameContent → Type 0 };

    /// Does the work.
    fn run<T: SegmentFrames>(&mut self, frames: &mut T, a: &mut A, b: &mut B)
        requires { may self.old a.old b.old (T.content frames.old) }
        ensures did { did self.old self.new a.old a.new b.old b.new (T.content frames.old) (T.content frames.new) }
        ensures keeps { KeepsDomains (T.content frames.old) (T.content frames.new) };
}

/// The frames of all segments. A segment belongs to a domain, which pays for it in chunks: one for the segment itself, and for
/// each frame one for every twenty values begun, its own needs counting as four. No call but `admit` takes memory.
pub trait FrameStore: SegmentFrames {
    /// Gives a domain so many chunks for its segments, of which it has none yet. `NoExtent` comes exactly where the store
    /// has a pool of pages and no free run of it is long enough, and `OutOfMemory` only where memory was asked for and not
    /// given: never because of numbers that are too narrow. After an error all is as before.
    fn admit(&mut self, d: DomainId, chunks: u32) -> Result<(), AdmitError>
        requires new { (Self.content self.old).quota d ≡ None }
        requires few { HasFewDomains (Self.content self.old) }
        requires least { 1 ≤ chunks }
        requires most { chunks ≤ 262144 }
        ensures ok { OnOk result (Admits (Self.content self.old) (Self.content self.new) d chunks) }
        ensures err { OnErr result (IsSame (Self.content self.old) (Self.content self.new)) }
        ensures no_extent { result ≡ Err Why.NoExtent → HasNoPlace (pool_of (Self.content self.old)) chunks }
        ensures only_no_extent { HasNoPlace (pool_of (Self.content self.old)) chunks → (result ≡ Err Why.NoExtent) ⊎ (result ≡ Err Why.OutOfMemory) }
        ensures out_of_memory { result ≡ Err Why.OutOfMemory → (Self.content self.old).took_all ≡ true → ⊥ };

    /// How many chunks a domain may still use.
    fn free(&self, d: DomainId) -> u32
        requires { IsAdmitted (Self.content self.now) d }
        ensures { result ≡ free_chunks (Self.content self.now) d };

    /// Begins a segment with one frame. It fails exactly where the chunks of both exceed what is free, and then all is as before.
    fn begin(&mut self, d: DomainId, s: SegmentNo, head: FrameHead) -> Result<(), NoChunks>
        requires admitted { IsAdmitted (Self.content self.old) d }
        requires new { (Self.content self.old).segment s ≡ None }
        ensures ok { OnOk result (Begins (Self.content self.old) (Self.content self.new) d s head) }
        ensures err { OnErr result (IsSame (Self.content self.old) (Self.content self.new)) }
        ensures room { OnOk result (1 + head_chunks head ≤ free_chunks (Self.content self.old) d) }
        ensures no_room { OnErr result (free_chunks (Self.content self.old) d < 1 + head_chunks head) };

    /// Takes out a segment with all its frames, wherever it stands in its thread.
    fn end(&mut self, s: SegmentNo)
        requires { IsThere (Self.content self.old) s }
        ensures { Ends (Self.content self.old) (Self.content self.new) s };

    /// Takes out a domain with all its segments.
    fn close(&mut self, d: DomainId)
        requires { IsAdmitted (Self.content self.old) d }
        ensures { Closes (Self.content self.old) (Self.content self.new) d };

    /// How many words of 32 bits the store's pool has: 64 for each page. None exactly where it has no pool.
    fn pool_words(&self) -> Option<u32>
        ensures { result ≡ option_map (λ p. 64 * p) (Self.content self.now).pages };

    /// The first page of a domain. None exactly where the store has no pool.
    fn first_page(&self, d: DomainId) -> Option<u32>
        requires { IsAdmitted (Self.content self.now) d }
        ensures { result ≡ (Self.content self.now).first_page d };

    /// The head of a frame, by how many are below it in its segment.
    fn head_at(&self, s: SegmentNo, n: u32) -> FrameHead
        requires { HasFrame (Self.content self.now) s n }
        ensures { (f : AFrame) → FrameAt (Self.content self.now) s n f → result ≡ f.head };

    /// A local of a frame.
    fn local_at(&self, s: SegmentNo, n: u32, i: u16) -> Value
        requires { HasLocalAt (Self.content self.now) s n i }
        ensures { (f : AFrame) → FrameAt (Self.content self.now) s n f → slice_get f.locals i ≡ Some result };

    /// An entry of the operand stack of a frame, the lowest being 0. None exactly where there is none.
    fn entry_at(&self, s: SegmentNo, n: u32, i: u16) -> Option<Value>
        requires { HasFrame (Self.content self.now) s n }
        ensures { (f : AFrame) → FrameAt (Self.content self.now) s n f → result ≡ slice_get f.stack i };

    /// Does work on one segment. The work sees that segment alone, and so changes no other. Each of its calls finds the segment's
    /// frames at once, where a call on the store has to ask first whether they are those that it last touched.
    fn with_segment<A, B, W: OnSegment<A, B>>(
        &mut self,
        s: SegmentNo,
        work: &mut W,
        a: &mut A,
        b: &mut B,
    )
        requires there { IsThere (Self.content self.old) s }
        requires may { (one : FrameContent) → IsOnly (Self.content self.old) s one → W.may work.old a.old b.old one }
        ensures keeps { KeepsOthers (Self.content self.old) (Self.content self.new) s }
        ensures did { (was is : FrameContent) × IsOnly (Self.content self.old) s was × IsOnly (Self.content self.new) s is
            × W.did work.old work.new a.old a.new b.old b.new was is };

    /// What holds of each store.
    ghost holds: { (x : Self) → IsContent (Self.content x) };
}
