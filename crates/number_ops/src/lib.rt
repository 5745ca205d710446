//! What the instructions do that work on whole numbers, on locals and on the operand stack: those that need no heap, no
//! class and no call. They change the top frame of a segment, in whatever store the frames stand.
#![tactic(auto)]

mod arithmetic;
mod constants;
mod entries;
mod jumps;
mod locals;
mod moves;
mod parts;
mod switches;

ghost use Rattle.number_ops.specs.NumberSteps.{DoesNumbers, IsReady};

use crate::arithmetic::calculate;
use crate::constants::constant;
use crate::entries::{pop, pop_int, push};
use crate::jumps::{decides, place_of};
use crate::locals::{increment, load, store};
use crate::moves::move_entries;
use crate::parts::{Part, part_of};
use crate::switches::target;
use domain_resolver::World;
use frame_store::SegmentFrames;
use jk_model::{After, ClassId, FrameHead, Instr, Raise, SegmentNo};

/// java/lang/ArithmeticException, by its place in the system table.
const ARITHMETIC_EXCEPTION: ClassId = ClassId(19);

/// Does the instruction at which the top frame of a segment stands, and answers what is done next: the frame goes on at
/// another place, an exception is raised, or the frame returns. The stored head stays as it is. A division by 0 leaves
/// its operands on the stack, and a return takes the value off. The frame stands where the head says that is handed in, which
/// is the stored one but for the place: the caller may go on from place to place, and store the last one alone.
#[inline(always)]
pub fn step<F: SegmentFrames>(
    frames: &mut F,
    w: &World,
    s: SegmentNo,
    head: &FrameHead,
    i: &Instr,
) -> After
    requires { IsReady (F.content frames.old) w.now.classes s head.now i.now }
    ensures { DoesNumbers (F.content frames.old) (F.content frames.new) w.now.classes s head.now i.now result }
{
    match part_of(i.op) {
        Part::Nothing => {}
        Part::Constant => push(frames, s, constant(w, head.method, i)),
        Part::Load => load(frames, s, head.max_locals, i),
        Part::Store => store(frames, s, head.max_locals, i),
        Part::Move => move_entries(frames, s, i),
        Part::Calculate(kind) => {
            if !calculate(frames, s, i, kind) {
                return After::Raise(Raise::Fresh(ARITHMETIC_EXCEPTION));
            }
        }
        Part::Increment => increment(frames, s, head.max_locals, i),
        Part::Decide(kind) => {
            if decides(frames, s, i, kind) {
                return After::Goto(place_of(i.a));
            }
        }
        Part::Switch => {
            let key = pop_int(frames, s);
            return After::Goto(place_of(target(i, key)));
        }
        Part::ReturnValue => return After::Return(Some(pop(frames, s))),
        Part::ReturnNothing => return After::Return(None),
        Part::Other => unreachable!(),
    }
    After::Goto(head.at + 1)
}
