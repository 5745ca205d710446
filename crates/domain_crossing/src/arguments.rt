//! The arguments of a call through a capability: they are read from the caller's operand stack, come into the locals of a new frame, and
//! leave the stack.

ghost use Rattle.std.specs.Prelude.{◌≡◌, ◌+◌, ◌<◌, ◌≤◌, ◌^◌, ◌∷◌, ◌++◌, [], false, length, List, None, Some};
ghost use Rattle.jk_model.specs.declared.frames.FrameHead.{FrameHead as AHead};
ghost use Rattle.jk_model.specs.declared.values.Value.{Value as AValue};
ghost use Rattle.jk_model.specs.declared.values.Value.TheVariants as Held;
ghost use Rattle.jk_model_frames.specs.Frames.{called_frame, head_chunks, locals_of};
ghost use Rattle.frame_store.specs.FrameContents.{Changes, IsAdmitted, SetsTop, free_chunks};
ghost use Rattle.domain_crossing.specs.MovedArguments.{BeginsWith, Carries, CopiesReach, FitsLocals, HasArrived, HasOnTop, IsHanded, StandsToCall};
ghost use Rattle.domain_crossing.specs.NoObjects.{NameNoObject};

use crate::callees::Callee;
use frame_store::FrameStore;
use jk_model::{Args, NoChunks, SegmentNo, Value};

/// Whether one of so many entries on top of a segment's operand stack names an object.
pub(crate) fn names_object<F: FrameStore>(frames: &F, s: SegmentNo, count: u16) -> bool
    requires { (values : List AValue) × HasOnTop (F.content frames.now) s values × (length values ≡ count) }
    ensures { (values : List AValue) → HasOnTop (F.content frames.now) s values → length values ≡ count → result ≡ false
        → NameNoObject values }
{
    for above in 0..count {
        if let Value::Obj(_) = frames.peek(s, above) {
            return true;
        }
    }
    false
}

/// So many entries on top of a segment's operand stack, the lowest first.
pub(crate) fn entries<F: FrameStore>(frames: &F, s: SegmentNo, count: u16) -> Args
    requires few { count ≤ 255 }
    requires on_top { (values : List AValue) × HasOnTop (F.content frames.now) s values × (length values ≡ count) }
    ensures { (values : List AValue) → HasOnTop (F.content frames.now) s values → length values ≡ count → result ≡ values }
{
    let mut values = Args::new();
    for i in 0..count {
        values.put(frames.peek(s, count - 1 - i));
    }
    values
}

/// Begins a segment of the callee's owner, whose frame has the target in its first local. There are chunks enough.
#[inline(always)]
pub(crate) fn begin<F: FrameStore>(frames: &mut F, n: SegmentNo, callee: &Callee)
    requires admitted { IsAdmitted (F.content frames.old) callee.now.owner }
    requires new { (F.content frames.old).segment n ≡ None }
    requires chunks { 1 + head_chunks callee.now.head ≤ free_chunks (F.content frames.old) callee.now.owner }
    requires local { 1 ≤ callee.now.head.max_locals }
    ensures { Changes (F.content frames.old) (F.content frames.new) n callee.now.owner
        (Some (record { domain = callee.now.owner; frames = called_frame callee.now.head (Held.Obj callee.now.target ∷ []) ∷ [] }))
        ((F.content frames.old).used callee.now.owner + 1 + head_chunks callee.now.head) }
{
    match frames.begin(callee.owner, n, callee.head) {
        Ok(()) => {}
        Err(NoChunks) => unreachable!(),
    }
    frames.set_local(n, 0, Value::Obj(callee.target));
}

/// Puts a value into the next local of a segment's top frame, and answers which local is next: a long takes two.
fn put<F: FrameStore>(frames: &mut F, n: SegmentNo, at: u16, v: Value) -> u16
    requires { (head : AHead) × (before : List AValue) × BeginsWith (F.content frames.old) n head before × (at ≡ length (locals_of before))
        × FitsLocals head (before ++ v ∷ []) × (head.max_locals < 2 ^ 16) }
    ensures { (head : AHead) (before : List AValue) → BeginsWith (F.content frames.old) n head before → at ≡ length (locals_of before)
        → FitsLocals head (before ++ v ∷ [])
        → SetsTop (F.content frames.old) (F.content frames.new) n (called_frame head (before ++ v ∷ []))
        × (result ≡ length (locals_of (before ++ v ∷ []))) }
{
    frames.set_local(n, at, v);
    match v {
        Value::Long(_) => at + 2,
        _ => at + 1,
    }
}

/// Takes the capability and so many arguments above it off a segment's operand stack, and begins a segment of the callee's owner, whose frame
/// has the target and the arguments, or copies of them where there are some, in its locals. It answers which local is next. The arguments are
/// held while the one segment is left for the other, so that each is looked up once.
pub(crate) fn carry<F: FrameStore>(
    frames: &mut F,
    s: SegmentNo,
    n: SegmentNo,
    callee: &Callee,
    count: u16,
    copies: Option<&Args>,
) -> u16
    requires admitted { IsAdmitted (F.content frames.old) callee.now.owner }
    requires new { (F.content frames.old).segment n ≡ None }
    requires chunks { 1 + head_chunks callee.now.head ≤ free_chunks (F.content frames.old) callee.now.owner }
    requires few_locals { callee.now.head.max_locals < 2 ^ 16 }
    requires carries { (call : StandsToCall (F.content frames.old) s) × (values : List AValue) × Carries call.given copies count values
        × FitsLocals callee.now.head (Held.Obj callee.now.target ∷ values) }
    ensures { (call : StandsToCall (F.content frames.old) s) (values : List AValue) → Carries call.given copies.entry count values
        → FitsLocals callee.now.head (Held.Obj callee.now.target ∷ values)
        → HasArrived call n callee.now.owner (called_frame callee.now.head (Held.Obj callee.now.target ∷ values)) (F.content frames.new)
        × (result ≡ length (locals_of (Held.Obj callee.now.target ∷ values))) }
{
    let taken = frames.pop_value(s);
    if count == 0 {
        begin(frames, n, callee);
        return 1;
    }
    let at = carry(frames, s, n, callee, count - 1, copies);
    put(frames, n, at, handed(copies, count - 1, taken))
}

/// What is handed over at a place: the copy that stands there, where there are copies, and else this argument.
fn handed(copies: Option<&Args>, i: u16, argument: Value) -> Value
    requires { CopiesReach copies i }
    ensures { IsHanded copies.entry i argument result }
{
    match copies {
        Some(values) => values.get(usize::from(i)),
        None => argument,
    }
}
