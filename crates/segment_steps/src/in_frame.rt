//! Steps that stay in their frame, as most do: they compute or jump, or access an element or a field, and need no class.

ghost use Rattle.std.specs.Prelude.{◌≡◌, ◌≤◌, ℕ, None, true, IfNone, IfSome, slice_get, Some};
ghost use Rattle.jk_model_sharing.specs.SharedStates.{SharedState};
ghost use Rattle.class_init.specs.KeptStates.{KeptState};
ghost use Rattle.frame_store.specs.FrameContents.{HasTop};
ghost use Rattle.step_contents.specs.Contents.{contents_of, here_at};
ghost use Rattle.step_contents.specs.InstructionKinds.{HasRow, IsAccess};
ghost use Rattle.step_contents.specs.PlacesInCode.{IsPlaceIn};
ghost use Rattle.step_contents.specs.StandingFrames.{place_of};
ghost use Rattle.step_contents.specs.StandingTops.{StandsThere};
ghost use Rattle.segment_steps.specs.ActingSegments.{MayAct};
ghost use Rattle.segment_steps.specs.InFrameTurns.{Accesses, GoesOnInFrame, IsInFrame, IsReadyAt, MayActOnceStored, RunsInFrame, StaysAsItIs, StoresPlace, TakesNoTurn, TakesTurn};

use domain_resolver::World;
use frame_store::SegmentFrames;
use jk_model::opcodes::{ALOAD, ASTORE, IFNONNULL, IFNULL, ISTORE, LDC_W, LOOKUPSWITCH, NOP, POP};
use jk_model::{After, DomainId, Instr, SegmentNo};
use jk_model_heap_rows::laws::what_follows_is_determined;
use object_store::ObjectStore;
use row_laws::heap_rows::heap_rows_keep;
use step_contents::{StandsAt, is_access, stands_at, text_of};

/// Where a frame goes on: at this instruction of its code.
#[derive(Clone, Copy)]
struct NextInstr<'a> {
    at: u32,
    instr: &'a Instr,
}

/// Where the top frame of a segment stands; none where it has a need, or no code.
#[inline(always)]
pub fn stand<'a, F: SegmentFrames>(w: &'a World, frames: &F, s: SegmentNo) -> Option<StandsAt<'a>>
    requires { HasTop (F.content frames.now) s }
    ensures { IfSome result (λ at. StandsThere (F.content frames.now) w.now.classes s (place_of at)) }
{
    let head = frames.head(s);
    if head.need.is_some() {
        return None;
    }
    stands_at(w.classes(), &head)
}

/// Takes at most so many steps of the top frame of a segment of domain d, which stands there, as long as each computes, jumps or makes an
/// access, and stays in the frame; and answers how many it took. It stops before an instruction of another kind, and before one that raises
/// something, and says where. It takes no memory, and no own state: the frame and its code aren't looked up again, so that such a step costs
/// less than another.
#[inline(always)]
pub fn run_in_frame<'a, H: ObjectStore, F: SegmentFrames>(
    w: &'a World,
    heap: &mut H,
    frames: &mut F,
    d: DomainId,
    s: SegmentNo,
    at: &mut StandsAt<'a>,
    steps: u32,
) -> u32
    requires may { (own : KeptState) × (shared : SharedState)
        × MayAct (contents_of (H.content heap.old) (F.content frames.old) own) (here_at w.now shared d s) }
    requires stands { StandsThere (F.content frames.old) w.now.classes s (place_of at.old) }
    ensures few { result ≤ steps }
    ensures runs { (own : KeptState) (shared : SharedState)
        → RunsInFrame (contents_of (H.content heap.old) (F.content frames.old) own) (contents_of (H.content heap.new) (F.content frames.new) own)
        (here_at w.now shared d s) result }
    ensures stands { StandsThere (F.content frames.new) w.now.classes s (place_of at.new) }
{
    heap_rows_keep();
    for done in 0..steps {
        match next_in_frame(w, heap, frames, d, s, at) {
            Some(next) => {
                at.head.at = next.at;
                at.instr = next.instr;
            }
            None => {
                frames.go(s, at.head.at, None);
                return done;
            }
        }
    }
    frames.go(s, at.head.at, None);
    steps
}

/// Does the instruction at which the top frame stands, where it computes, jumps or makes an access, and answers where the frame goes on.
/// None, and nothing changed but the place that is stored, where it is another one or raises something.
#[inline(always)]
fn next_in_frame<'a, H: ObjectStore, F: SegmentFrames>(
    w: &World,
    heap: &mut H,
    frames: &mut F,
    d: DomainId,
    s: SegmentNo,
    here: &StandsAt<'a>,
) -> Option<NextInstr<'a>>
    requires place { IsPlaceIn w.now.classes (place_of here.now) }
    requires row { HasRow (place_of here.now) }
    requires ready { IsReadyAt (F.content frames.old) w.now.classes s (place_of here.now) }
    requires top { HasTop (F.content frames.old) s }
    requires may { MayActOnceStored (H.content heap.old) (F.content frames.old) w.now d s (place_of here.now) }
    ensures none { IfNone result (TakesNoTurn (H.content heap.old) (H.content heap.new) (F.content frames.old) (F.content frames.new) s
        (place_of here.now)) }
    ensures some { IfSome result (λ next. TakesTurn (H.content heap.old) (H.content heap.new) (F.content frames.old) (F.content frames.new) w.now d s
        (place_of here.now) next.at) }
    ensures there { IfSome result (λ next. slice_get (place_of here.now).scope.code.instrs next.at ≡ Some next.instr.now) }
{
    heap_rows_keep();
    let Some(n) = take_turn(w, heap, frames, d, s, here) else {
        return None;
    };
    let instrs = here.code.code.instrs.as_slice();
    Some(NextInstr {
        at: n,
        instr: &instrs[n as usize],
    })
}

/// As `next_in_frame`: the answer is the place where the frame goes on.
#[inline(always)]
fn take_turn<H: ObjectStore, F: SegmentFrames>(
    w: &World,
    heap: &mut H,
    frames: &mut F,
    d: DomainId,
    s: SegmentNo,
    here: &StandsAt<'_>,
) -> Option<u32>
    requires row { HasRow (place_of here.now) }
    requires ready { IsReadyAt (F.content frames.old) w.now.classes s (place_of here.now) }
    requires top { HasTop (F.content frames.old) s }
    requires may { MayActOnceStored (H.content heap.old) (F.content frames.old) w.now d s (place_of here.now) }
    ensures none { IfNone result (TakesNoTurn (H.content heap.old) (H.content heap.new) (F.content frames.old) (F.content frames.new) s
        (place_of here.now)) }
    ensures some { IfSome result (λ n. TakesTurn (H.content heap.old) (H.content heap.new) (F.content frames.old) (F.content frames.new) w.now d s
        (place_of here.now) n) }
{
    if stays_in_frame(here) {
        compute_in_frame(w, frames, s, here)
    } else if is_access(here.instr.op) {
        access_in_frame(w, heap, frames, d, s, here)
    } else {
        None
    }
}

/// Does the instruction at which the top frame stands, which computes or jumps within the frame, and answers where the frame goes on.
/// None, and nothing changed, where it raises something.
#[inline(always)]
fn compute_in_frame<F: SegmentFrames>(
    w: &World,
    frames: &mut F,
    s: SegmentNo,
    here: &StandsAt<'_>,
) -> Option<u32>
    requires stays { IsInFrame (place_of here.now) }
    requires ready { IsReadyAt (F.content frames.old) w.now.classes s (place_of here.now) }
    ensures none { IfNone result (StaysAsItIs (F.content frames.old) (F.content frames.new) s) }
    ensures some { IfSome result (λ n. GoesOnInFrame (F.content frames.old) (F.content frames.new) w.now.classes s (place_of here.now) n) }
{
    match number_ops::step(frames, w, s, &here.head, here.instr) {
        After::Goto(n) => Some(n),
        _ => None,
    }
}

/// Makes the access at which the top frame stands, and answers where the frame goes on. The place where it stands is stored first. None, and
/// nothing else changed, where something is raised.
#[inline(always)]
fn access_in_frame<H: ObjectStore, F: SegmentFrames>(
    w: &World,
    heap: &mut H,
    frames: &mut F,
    d: DomainId,
    s: SegmentNo,
    here: &StandsAt<'_>,
) -> Option<u32>
    requires access { IsAccess here.now.instr.now.op }
    requires top { HasTop (F.content frames.old) s }
    requires may { MayActOnceStored (H.content heap.old) (F.content frames.old) w.now d s (place_of here.now) }
    ensures none { IfNone result (StoresPlace (F.content frames.old) (F.content frames.new) s (place_of here.now)) }
    ensures same { IfNone result (H.content heap.new ≡ H.content heap.old) }
    ensures some { IfSome result (λ n. Accesses (H.content heap.old) (H.content heap.new) (F.content frames.old) (F.content frames.new) w.now d s
        (place_of here.now) n) }
{
    heap_rows_keep();
    what_follows_is_determined();
    frames.go(s, here.head.at, None);
    match heap_ops::access(heap, frames, w, d, s, here) {
        Ok(()) => Some(here.head.at + 1),
        Err(_) => None,
    }
}

/// Whether the instruction at which a frame stands computes or jumps within the frame, unless it raises something. It is told by the
/// opcode, the most frequent ones first: constants and loads; stores; what works on the stack, arithmetic and jumps.
#[inline(always)]
fn stays_in_frame(at: &StandsAt<'_>) -> bool
    requires { HasRow (place_of at.now) }
    ensures { result ≡ true → IsInFrame (place_of at.now) }
{
    match at.instr.op {
        LDC_W => text_of(at).is_none(),
        NOP..=ALOAD | ISTORE..=ASTORE | POP..=LOOKUPSWITCH | IFNULL..=IFNONNULL => true,
        _ => false,
    }
}
