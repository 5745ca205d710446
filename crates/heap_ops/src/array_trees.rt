//! Arrays of arrays that are made at once.

ghost use Rattle.std.specs.Prelude.{◌≡◌, ◌↔◌, ◌≤◌, ℕ, List, ℤ, pos, length, Some, None, IfErr, IsFalse, IsTrue, MatchOption, OnOk};
ghost use Rattle.jk_model.specs.declared.opcodes.TheConstants.{MULTIANEWARRAY};
ghost use Rattle.jk_model.specs.declared.steps.Raise.TheVariants as Raised;
ghost use Rattle.jk_model_heaps.specs.SystemClasses.{NEGATIVE_ARRAY_SIZE_EXCEPTION};
ghost use Rattle.jk_model_heap_rows.specs.NewObjectRows.{counts_of};
ghost use Rattle.step_contents.specs.StandingFrames.{place_of};
ghost use Rattle.heap_ops.specs.ArrayCounts.{AreIntsOnTop};
ghost use Rattle.heap_ops.specs.OneInstruction.{MayStep, Steps, place_in};

use crate::entries::replace;
use crate::here::Here;
use crate::making::count_at;
use frame_store::SegmentFrames;
use heap_loops::{arrays_words, make_arrays};
use jk_model::{Raise, SegmentNo, Standing, Value};
use object_store::ObjectStore;
use step_contents::{StandsAt, type_named};

/// How many counts an instruction takes at most.
const MOST_COUNTS: usize = 255;

/// Puts as many counts from the top of the stack into the list as it has places, the deepest first. A NegativeArraySizeException
/// is raised where one of them is below 0.
fn read_counts<F: SegmentFrames>(frames: &F, s: SegmentNo, counts: &mut [u32]) -> Result<(), Raise>
    requires few { length counts.old ≤ 255 }
    requires ints { (ks : List ℤ) × AreIntsOnTop (F.content frames.now) s ks × (length ks ≡ length counts.old) }
    ensures ok { OnOk result ((ks : List ℤ) → AreIntsOnTop (F.content frames.now) s ks → length ks ≡ length counts.old
        → counts_of ks ≡ Some counts.new) }
    ensures err { IfErr result (λ r. ((ks : List ℤ) → AreIntsOnTop (F.content frames.now) s ks → length ks ≡ length counts.old
        → counts_of ks ≡ None) × (r ≡ Raised.Fresh NEGATIVE_ARRAY_SIZE_EXCEPTION)) }
{
    let dims = counts.len();
    for i in 0..dims {
        match count_at(frames, s, (dims - 1 - i) as u16) {
            Ok(count) => counts[i] = count,
            Err(raise) => return Err(raise),
        }
    }
    Ok(())
}

/// Whether so many words are free, where none is more than a heap can have.
fn fits(words: Option<u64>, free: u64) -> bool
    ensures { MatchOption words (IsFalse result) (λ n. IsTrue result ↔ (n ≤ free)) }
{
    match words {
        Some(n) => n <= free,
        None => false,
    }
}

/// Makes the arrays that these counts ask for, which stand on top of the stack, and pushes the first in their place. Where all of them
/// don't fit together, nothing is made.
fn make_counted<H: ObjectStore, F: SegmentFrames>(
    heap: &mut H,
    frames: &mut F,
    here: &Here<'_>,
    counts: &[u32],
) -> Result<(), Raise>
    requires op { (place_in here.now).instr.op ≡ MULTIANEWARRAY }
    requires may { MayStep (H.content heap.old) (F.content frames.old) here.now }
    requires counts { (ks : List ℤ) × AreIntsOnTop (F.content frames.old) here.now.segment ks × ((place_in here.now).instr.b ≡ pos (length ks))
        × (counts_of ks ≡ Some counts.now) }
    ensures { Steps (H.content heap.old) (H.content heap.new) (F.content frames.old) (F.content frames.new) here.now result }
{
    let kind = type_named(here.at);
    let free = u64::from(heap.free(here.domain));
    if !fits(arrays_words(kind, counts), free) {
        return Err(Raise::Standing(Standing::OutOfMemoryError));
    }
    let a = make_arrays(heap, here.world.classes(), here.domain, kind, counts);
    replace(frames, here.segment, counts.len() as u16, Value::Obj(a));
    Ok(())
}

/// How many counts the instruction takes.
fn many_counts(at: &StandsAt<'_>) -> usize
    requires { (n : ℕ) × ((place_of at.now).instr.b ≡ pos n) × (n ≤ 255) }
    ensures is { (place_of at.now).instr.b ≡ pos result }
    ensures few { result ≤ 255 }
{
    match usize::try_from(at.instr.b) {
        Ok(n) => n,
        Err(_) => unreachable!(),
    }
}

/// Reads the counts into a list that has places for all of them, and makes the arrays.
fn make_read<H: ObjectStore, F: SegmentFrames>(
    heap: &mut H,
    frames: &mut F,
    here: &Here<'_>,
    counts: &mut [u32],
) -> Result<(), Raise>
    requires op { (place_in here.now).instr.op ≡ MULTIANEWARRAY }
    requires may { MayStep (H.content heap.old) (F.content frames.old) here.now }
    requires many { (place_in here.now).instr.b ≡ pos (length counts.old) }
    requires few { length counts.old ≤ 255 }
    ensures { Steps (H.content heap.old) (H.content heap.new) (F.content frames.old) (F.content frames.new) here.now result }
{
    match read_counts(frames, here.segment, counts) {
        Ok(()) => make_counted(heap, frames, here, counts),
        Err(raise) => Err(raise),
    }
}

/// Takes counts, and pushes a new array of the type that the instruction names, with all arrays below it that they ask for. Where
/// one of the counts is below 0, or all of the arrays don't fit together, nothing is made.
#[inline(never)]
pub(crate) fn make_array_tree<H: ObjectStore, F: SegmentFrames>(
    heap: &mut H,
    frames: &mut F,
    here: &Here<'_>,
) -> Result<(), Raise>
    requires op { (place_in here.now).instr.op ≡ MULTIANEWARRAY }
    requires may { MayStep (H.content heap.old) (F.content frames.old) here.now }
    ensures { Steps (H.content heap.old) (H.content heap.new) (F.content frames.old) (F.content frames.new) here.now result }
{
    let many = many_counts(here.at);
    let mut room = [0u32; MOST_COUNTS];
    make_read(heap, frames, here, &mut room[..many])
}
