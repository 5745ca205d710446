//! Calls of stores: extents, words and capabilities.

ghost use Rattle.std.specs.Prelude.{◌≤◌, IfOk};
ghost use Rattle.extent_map.specs.MapState.{AreSame};

use capability_table::CapabilityTable;
use extent_map::{Extent, ExtentMap};
use jk_model::{CapId, DomainId, OutOfMemory};
use std::alloc::Global;
use word_pool::WordPool;

/// Takes so many pages and gives them back, where there are as many.
fn take_and_return(map: &mut ExtentMap, pages: u32) -> bool
    requires { 1 ≤ pages }
    ensures { AreSame map.new.out map.old.out }
{
    if map.spare() == 0 {
        return false;
    }
    let Some(taken) = map.take(pages) else {
        return false;
    };
    map.give_back(taken);
    true
}

/// Takes one page, and keeps the extent after the others.
fn take_one(map: &mut ExtentMap, out: &mut Vec<Extent>) -> bool
    requires { AreSame map.old.out out.old.items }
    ensures { AreSame map.new.out out.new.items }
{
    if map.spare() == 0 || out.len() == out.capacity() {
        return false;
    }
    let Some(extent) = map.take(1) else {
        return false;
    };
    out.push_reserved(extent);
    true
}

/// Gives back the extent at a place among those that are out.
fn return_at(map: &mut ExtentMap, out: &mut Vec<Extent>, place: usize) -> bool
    requires { AreSame map.old.out out.old.items }
    ensures { AreSame map.new.out out.new.items }
{
    if place >= out.len() {
        return false;
    }
    let extent = out.remove(place);
    map.give_back(extent);
    true
}

/// A map with all pages free, and room to keep twice so many extents.
fn empty_map(alloc: Global, runs: u32) -> Result<(ExtentMap, Vec<Extent>), OutOfMemory>
    requires { runs ≤ 65536 }
    ensures { IfOk result (λ pair. AreSame pair.0.out pair.1.items) }
{
    let map = ExtentMap::make(alloc, 2 * runs + 64, 2 * runs + 1)?;
    let out = Vec::with_capacity(alloc, 2 * runs as usize)?;
    Ok((map, out))
}

/// Makes so many free runs of one page, with a page that is out between each two, and a longer run
/// after them.
fn make_runs(map: &mut ExtentMap, out: &mut Vec<Extent>, runs: u32)
    requires { AreSame map.old.out out.old.items }
    ensures { AreSame map.new.out out.new.items }
{
    for _ in 0..runs {
        take_one(map, out);
        take_one(map, out);
    }
    for place in 0..runs {
        return_at(map, out, place as usize);
    }
}

/// A thousand takes and returns of so many pages.
fn a_thousand(map: &mut ExtentMap, pages: u32) -> usize
    requires { 1 ≤ pages }
    ensures { AreSame map.new.out map.old.out }
{
    let mut taken = 0;
    for _ in 0..1000u32 {
        if take_and_return(map, pages) {
            taken = pages as usize;
        }
    }
    taken
}

/// A thousand takes and returns of so many pages, in a map with so many free runs of one page and a
/// longer one.
pub fn extents(alloc: Global, size: usize, pages: u32, calls: bool) -> Option<usize>
    requires { 1 ≤ pages }
{
    let runs = u16::try_from(size).ok()?;
    let (mut map, mut out) = empty_map(alloc, u32::from(runs)).ok()?;
    make_runs(&mut map, &mut out, u32::from(runs));
    if !calls {
        return Some(out.len());
    }
    Some(a_thousand(&mut map, pages))
}

/// A pool of so many words.
pub fn words(alloc: Global, size: usize) -> Option<usize> {
    let words = u32::try_from(size).ok()?;
    let _pool = WordPool::make(alloc, words).ok()?;
    Some(size)
}

/// A range of so many numbers of capabilities, each of which is looked up.
pub fn numbers(alloc: Global, size: usize, calls: bool) -> Option<usize> {
    let count = u32::try_from(size).ok()?;
    let mut table = CapabilityTable::new(alloc);
    if !calls {
        return Some(size);
    }
    table.admit(DomainId(0), count).ok()?;
    let mut given = 0;
    for number in 1..=count {
        if table.status(CapId(number)).is_some() {
            given = number as usize;
        }
    }
    Some(given)
}
