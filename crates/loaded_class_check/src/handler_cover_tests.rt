//! Which entries are found on the way up from each place, and at how many nodes they stand.

use handler_cover::*;
use jk_model::OutOfMemory;
use jk_model_classes::Caught;
use std::alloc::Global;
use std::test::Fail;

/// The tree over so many places of entries with these starts and ends.
fn tree(alloc: Global, places: usize, entries: &[(u32, u32)]) -> Result<CoverTree, OutOfMemory> {
    let mut handlers = Vec::new(alloc);
    for (start, end) in entries {
        handlers.push(Caught {
            start: *start,
            end: *end,
            handler: 0,
            class: None,
        })?;
    }
    CoverTree::new(alloc, places, handlers.as_slice())
}

/// The entries at the nodes over a place, by their numbers.
fn covering(alloc: Global, tree: &CoverTree, place: usize) -> Result<Vec<usize>, OutOfMemory> {
    let mut found = Vec::new(alloc);
    let mut node = place;
    for level in 0..tree.len() {
        found.extend_from_slice(tree.entries_at(level, node))?;
        node /= 2;
    }
    found.sort_unstable();
    Ok(found)
}

/// Entries over six places, and which of them cover each place.
const ENTRIES: &[(u32, u32)] = &[(0, 6), (1, 3), (2, 2), (5, 9), (4, 1)];

const COVERING: &[&[usize]] = &[&[0], &[0, 1], &[0, 1], &[0], &[0], &[0, 3]];

#[test]
fn entries_of_each_place(rt: HostRuntime) -> Result<(), Fail> {
    let alloc = rt.alloc();
    let six = tree(alloc, 6, ENTRIES)?;
    for (place, numbers) in COVERING.iter().enumerate() {
        assert!(rt; covering(alloc, &six, place)?.as_slice() == *numbers);
    }
    assert!(rt; tree(alloc, 6, &[])?.len() == 0);
    Ok(())
}

/// The widths of the levels over thirteen places, each with the nodes at which the entry over 3 to 11 stands.
const LEVELS: &[(usize, &[usize])] = &[(13, &[3]), (7, &[]), (4, &[1, 2]), (2, &[])];

/// Whether a level has so many nodes, and the one entry stands at these alone.
fn has_level(tree: &CoverTree, level: usize, width: usize, nodes: &[usize]) -> bool {
    if level >= tree.len() || tree.width(level) != width {
        return false;
    }
    for node in 0..width {
        let wanted: &[usize] = if nodes.contains(&node) { &[0] } else { &[] };
        if tree.entries_at(level, node) != wanted {
            return false;
        }
    }
    true
}

#[test]
fn nodes_of_an_entry(rt: HostRuntime) -> Result<(), Fail> {
    let tree = tree(rt.alloc(), 13, &[(3, 12)])?;
    assert!(rt; tree.len() == 4);
    for (level, (width, nodes)) in LEVELS.iter().enumerate() {
        assert!(rt; has_level(&tree, level, *width, nodes), "level {level}");
    }
    Ok(())
}
