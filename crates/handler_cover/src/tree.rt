//! The tree.

ghost use Rattle.std.specs.Prelude.{◌≡◌, ◌<◌, [], IfOk, OnOk, length, map, replicate, slice_get, Some};
ghost use Rattle.handler_cover.specs.Building.{HasLevels, HoldsEntry, IsBare, IsNoted, row};
ghost use Rattle.handler_cover.specs.Covering.{IsCoverTree, entries_at};

use jk_model::OutOfMemory;
use jk_model_classes::Caught;
use std::alloc::Global;
use std::marker::Model;

/// The numbers of the catch entries at each node, level by level, which is what contracts see of it. Without entries it has
/// no level and takes no memory.
#[derive(Drop)]
pub struct CoverTree {
    levels: Vec<Vec<Vec<usize>>>,
}

impl Model for CoverTree {
    ghost use Rattle.std.specs.Prelude.{List, ℕ, map};

    ghost Value = { List (List (List ℕ)) };

    ghost view = { λ t. map (λ level. map (λ node. node.items) level.items) t.levels.items };
}

impl CoverTree {
    /// The tree of the entries over so many places. It takes memory and time in proportion to the places, and for
    /// each entry in proportion to the logarithm of the places. Of an entry that covers places past the code's end
    /// the others count.
    pub fn new(alloc: Global, places: usize, handlers: &[Caught]) -> Result<CoverTree, OutOfMemory>
        ensures { IfOk result (λ t. IsCoverTree places handlers.now t) }
    {
        if handlers.is_empty() {
            return Ok(CoverTree {
                levels: Vec::new(alloc),
            });
        }
        let mut tree = CoverTree::bare(alloc, places)?;
        for (x, entry) in handlers.iter().enumerate() {
            tree.note_entry(places, x, entry)?;
        }
        Ok(tree)
    }

    /// The tree of no entry. On each level `width` nodes stand over places of the code, and of these `whole` nodes are over
    /// no place past its end: entries stand at those alone, so a level that has none of them is not made.
    fn bare(alloc: Global, places: usize) -> Result<CoverTree, OutOfMemory>
        ensures { IfOk result (λ t. IsBare places t) }
    {
        let mut levels = Vec::new(alloc);
        let mut whole = places;
        let mut width = places;
        while whole > 0 {
            levels.push(bare_level(alloc, width)?)?;
            whole /= 2;
            width = width / 2 + width % 2;
        }
        Ok(CoverTree { levels })
    }

    /// Notes an entry at the nodes that together are over the places that it covers, at most two on a level. What is left of
    /// it on a level are the nodes from `left` up to `right`. An end whose parent is also over a node outside is noted;
    /// the others are what their parents are over.
    fn note_entry(&mut self, places: usize, x: usize, entry: &Caught) -> Result<(), OutOfMemory>
        requires { HasLevels places self.old }
        ensures { OnOk result (HoldsEntry places x entry.now self.old self.new) }
    {
        let mut left = entry.start as usize;
        let mut right = (entry.end as usize).min(places);
        for level in 0..self.len() {
            if left >= right {
                break;
            }
            if left % 2 == 1 {
                self.note(level, left, x)?;
                left += 1;
            }
            if right % 2 == 1 {
                right -= 1;
                self.note(level, right, x)?;
            }
            left /= 2;
            right /= 2;
        }
        Ok(())
    }

    /// Notes an entry at a node.
    fn note(&mut self, level: usize, node: usize, x: usize) -> Result<(), OutOfMemory>
        requires level { level < length self.old }
        requires node { node < length (row self.old level) }
        ensures { OnOk result (IsNoted self.old self.new level node x) }
    {
        self.levels[level][node].push(x)?;
        Ok(())
    }

    /// How many levels there are.
    pub fn len(&self) -> usize
        ensures { result ≡ length self.now }
    {
        self.levels.len()
    }

    /// How many nodes a level has.
    pub fn width(&self, level: usize) -> usize
        requires { level < length self.now }
        ensures { (nodes : _) → slice_get self.now level ≡ Some nodes → result ≡ length nodes }
    {
        self.levels[level].len()
    }

    /// The numbers of the entries at a node, in constant time; nothing where there is no such node.
    pub fn entries_at(&self, level: usize, node: usize) -> &[usize]
        ensures { result.now ≡ entries_at self.now level node }
    {
        match self.levels.get(level) {
            Some(nodes) => match nodes.get(node) {
                Some(entries) => entries.as_slice(),
                None => &[],
            },
            None => &[],
        }
    }
}

/// A level of so many nodes with no entry.
fn bare_level(alloc: Global, width: usize) -> Result<Vec<Vec<usize>>, OutOfMemory>
    ensures { IfOk result (λ level. map (λ node. node.items) level.items ≡ replicate width []) }
{
    let mut level = Vec::with_capacity(alloc, width)?;
    for _ in 0..width {
        level.push(Vec::new(alloc))?;
    }
    Ok(level)
}
