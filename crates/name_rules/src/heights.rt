//! How many places stand above each place of a graph in a row, and the places in the order of that.

ghost use Rattle.std.specs.Prelude.{◌≡◌, ◌+◌, ◌<◌, ◌≤◌, ◌^◌, ℕ, IfOk, OnOk, Some, length, slice_get, true, false};
ghost use Rattle.name_rules.specs.Graphs.{AreHeights, AreHeightsBelow, AreInOrder, HasEdge, HasNoRing, IsHeight, IsOrderOf, IsSquare};

use crate::rings::has_edge;
use jk_model::OutOfMemory;
use std::alloc::Global;

/// Whether a place goes to one that is at least so high.
fn goes_high(rows: &[Vec<bool>], heights: &[usize], i: usize, least: usize) -> bool
    requires square { IsSquare rows.now }
    requires place { i < length rows.now }
    requires heights { length heights.now ≡ length rows.now }
    ensures yes { result ≡ true → (j : ℕ) × (n : ℕ) × HasEdge rows.now i j × (slice_get heights.now j ≡ Some n) × (least ≤ n) }
    ensures no { result ≡ false → (j n : ℕ) → HasEdge rows.now i j → slice_get heights.now j ≡ Some n → n < least }
{
    for j in 0..rows.len() {
        if has_edge(rows, i, j) && heights[j] >= least {
            return true;
        }
    }
    false
}

/// Raises each place above `height` that goes to one of at least this height, and answers whether there was one.
fn raise(rows: &[Vec<bool>], heights: &mut [usize], height: usize) -> bool
    requires square { IsSquare rows.now }
    requires heights { AreHeightsBelow rows.now height heights.old }
    requires few { height < length rows.now }
    ensures raised { AreHeightsBelow rows.now (height + 1) heights.new }
    ensures none { result ≡ false → (i n : ℕ) → slice_get heights.new i ≡ Some n → IsHeight (HasEdge rows.now) i n }
{
    let mut raised = false;
    for i in 0..rows.len() {
        if goes_high(rows, heights, i, height) {
            heights[i] = height + 1;
            raised = true;
        }
    }
    raised
}

/// How many places stand above each in a row, at the most. It takes time in proportion to the square of the number of
/// places times the greatest height.
pub(crate) fn heights(alloc: Global, rows: &[Vec<bool>]) -> Result<Vec<usize>, OutOfMemory>
    requires square { IsSquare rows.now }
    requires no_ring { HasNoRing rows.now }
    ensures { IfOk result (λ heights. AreHeights rows.now heights.items) }
{
    let mut heights = vec![in alloc; 0usize; rows.len()]?;
    for height in 0..rows.len() {
        if !raise(rows, &mut heights, height) {
            break;
        }
    }
    Ok(heights)
}

/// Adds the places of this height.
fn add_height(order: &mut Vec<usize>, heights: &[usize], height: usize) -> Result<(), OutOfMemory>
    requires { AreInOrder heights.now height 0 order.old.items }
    ensures { OnOk result (AreInOrder heights.now (height + 1) 0 order.new.items) }
{
    for (place, own) in heights.iter().enumerate() {
        if *own == height {
            order.push(place)?;
        }
    }
    Ok(())
}

/// The places in the order of their heights, and those of one height in their own order. It takes time in proportion to
/// the square of their number.
pub(crate) fn by_height(alloc: Global, heights: &[usize]) -> Result<Vec<usize>, OutOfMemory>
    requires { (i n : ℕ) → slice_get heights.now i ≡ Some n → n < length heights.now }
    ensures { IfOk result (λ order. IsOrderOf heights.now order.items) }
{
    let mut order = Vec::with_capacity(alloc, heights.len())?;
    for height in 0..heights.len() {
        add_height(&mut order, heights, height)?;
    }
    Ok(order)
}
