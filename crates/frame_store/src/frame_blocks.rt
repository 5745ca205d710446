//! The blocks of a frame: twenty values each, as many blocks as the frame costs chunks. A frame's blocks are a stack of
//! chains whose nodes are the blocks, so each value is found in a logarithm of the frame's size.

ghost use Rattle.std.specs.Prelude.{◌≡◌, ◌≢◌, ◌+◌, ◌-◌, ◌*◌, ◌^◌, ◌<◌, ◌≤◌, length, slice_index_or};
ghost use Rattle.jk_model.specs.declared.values.Value.TheVariants.{Unset};
ghost use Rattle.jk_model_frames.specs.Frames.{head_chunks};
ghost use Rattle.number_table.specs.ChainMoves.{count, place, nodes, stacks};
ghost use Rattle.frame_store.specs.FrameBlocks.{index_of, IsCleared, TakesBlocks, GivesBlocks};

use jk_model::{FrameHead, Value};
use number_table::chains::Chains;

/// How many values a block has.
pub(crate) const BLOCK: u16 = 20;

/// A frame's head, and how many entries its operand stack has.
#[derive(Clone, Copy)]
pub(crate) struct FrameRecord {
    pub(crate) head: FrameHead,
    pub(crate) height: u16,
}

/// How many chunks a frame costs.
pub(crate) fn head_chunks(head: &FrameHead) -> u32
    ensures cost { result ≡ head_chunks head.now }
    ensures least { 1 ≤ result }
    ensures small { head.now.max_stack < 2 ^ 16 }
    ensures few_locals { head.now.max_locals < 2 ^ 16 }
{
    (4 + u32::from(head.max_locals) + u32::from(head.max_stack) + 19) / 20
}

/// Where a value of a frame is, whose first value is here: most values are in its lowest block.
#[inline(always)]
pub(crate) fn value_index(parts: &Chains, frame: usize, start: usize, value: u32) -> usize
    requires there { frame < stacks parts.now }
    requires start { start ≡ 20 * place parts.now frame 0 }
    requires some { value < 20 * count parts.now frame }
    requires few { nodes parts.now ≤ 262144 }
    ensures index { result ≡ index_of parts.now frame value }
    ensures within { result < 20 * nodes parts.now }
{
    if value < 20 {
        return start + value as usize;
    }
    far_index(parts, frame, value)
}

/// Where an entry of the operand stack of a frame is, whose lowest entry is here where the frame's lowest block, which has room
/// for so many, has it: most entries are there.
#[inline(always)]
pub(crate) fn entry_index(
    parts: &Chains,
    frame: usize,
    base: usize,
    room: u16,
    locals: u16,
    entry: u16,
) -> usize
    requires there { frame < stacks parts.now }
    requires base { base ≡ 20 * place parts.now frame 0 + locals }
    requires room { room ≡ 20 - locals }
    requires some { locals + entry < 20 * count parts.now frame }
    requires few { nodes parts.now ≤ 262144 }
    ensures index { result ≡ index_of parts.now frame (locals + entry) }
    ensures within { result < 20 * nodes parts.now }
{
    if entry < room {
        return base + usize::from(entry);
    }
    far_index(parts, frame, u32::from(locals) + u32::from(entry))
}

/// Where a value of a frame is, in whichever block.
#[cold]
#[inline(never)]
fn far_index(parts: &Chains, frame: usize, value: u32) -> usize
    requires there { frame < stacks parts.now }
    requires some { value < 20 * count parts.now frame }
    requires few { nodes parts.now ≤ 262144 }
    ensures index { result ≡ index_of parts.now frame value }
    ensures within { result < 20 * nodes parts.now }
{
    let block = parts.at(frame, (value / 20) as usize);
    20 * block + (value % 20) as usize
}

/// Gives a frame without blocks so many of the free ones, which are on the last stack, and unsets its locals. The entries of
/// its operand stack have no meaning before they are pushed, so they are left as they are. The answer is the lowest block, the
/// only one of most frames.
#[inline(always)]
pub(crate) fn take_blocks(
    parts: &mut Chains,
    values: &mut Vec<Value>,
    last: usize,
    frame: usize,
    blocks: u32,
    locals: u16,
) -> usize
    requires there { last < stacks parts.old }
    requires frame { frame < last }
    requires some { 1 ≤ blocks }
    requires bare { count parts.old frame ≡ 0 }
    requires enough { blocks ≤ count parts.old last }
    requires values { length values.old.items ≡ 20 * nodes parts.old }
    ensures takes { TakesBlocks parts.old parts.new values.old.items values.new.items last frame blocks locals }
    ensures lowest { result ≡ place parts.new frame 0 }
    ensures within { result < nodes parts.old }
{
    let lowest = parts.move_top(last, frame);
    clear(values, lowest, locals.min(BLOCK));
    let mut left = locals.saturating_sub(BLOCK);
    for _ in 1..blocks {
        let block = parts.move_top(last, frame);
        let here = left.min(BLOCK);
        clear(values, block, here);
        left -= here;
    }
    lowest
}

/// Gives back all blocks of a frame.
#[inline(always)]
pub(crate) fn give_blocks(parts: &mut Chains, last: usize, frame: usize)
    requires there { last < stacks parts.old }
    requires frame { frame < last }
    ensures { GivesBlocks parts.old parts.new last frame }
{
    while parts.count(frame) > 0 {
        let _ = parts.free_top(frame, last);
    }
}

/// Unsets the first values of a block, so many.
fn clear(values: &mut Vec<Value>, block: usize, some: u16)
    requires there { 20 * block + 20 ≤ length values.old.items }
    requires within { some ≤ 20 }
    ensures { IsCleared values.old.items values.new.items block some }
{
    let start = 20 * block;
    for k in 0..usize::from(some) {
        values[start + k] = Value::Unset;
    }
}
