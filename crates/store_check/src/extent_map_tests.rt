//! Known places and joins.

ghost use Rattle.std.specs.Prelude.{◌<◌, ◌≤◌, IfOk};
ghost use Rattle.extent_map.specs.MapState.{AreSame};

use extent_map::*;
use jk_model::OutOfMemory;
use std::alloc::Global;
use std::test::Fail;

/// Takes so many pages, and says whether they are found at this place, or at none.
fn takes(map: &mut ExtentMap, out: &mut Vec<Extent>, pages: u32, first: Option<u32>) -> bool
    requires some { 1 ≤ pages }
    requires out { AreSame map.old.out out.old.items }
    ensures { AreSame map.new.out out.new.items }
{
    if map.spare() == 0 || out.len() == out.capacity() {
        return false;
    }
    let Some(e) = map.take(pages) else {
        return first.is_none();
    };
    out.push_reserved(e);
    first == Some(e.first) && e.pages == pages
}

/// Gives back the extent at this place among those that are out.
fn gives(map: &mut ExtentMap, out: &mut Vec<Extent>, place: usize) -> bool
    requires { AreSame map.old.out out.old.items }
    ensures { AreSame map.new.out out.new.items }
{
    if place >= out.len() {
        return false;
    }
    let e = out.remove(place);
    map.give_back(e);
    true
}

/// A map of so many pages, and room for the extents that are out.
fn pool(alloc: Global, pages: u32, extents: u32) -> Result<(ExtentMap, Vec<Extent>), OutOfMemory>
    ensures { IfOk result (λ pair. AreSame pair.0.out pair.1.items) }
{
    let map = ExtentMap::make(alloc, pages, extents)?;
    let out = Vec::with_capacity(alloc, extents as usize)?;
    Ok((map, out))
}

#[test]
fn first_fit(rt: HostRuntime) -> Result<(), OutOfMemory> {
    let (mut map, mut out) = pool(rt.alloc(), 10, 4)?;
    assert!(rt; map.pages() == 10 && map.extents() == 4);
    assert!(rt; takes(&mut map, &mut out, 11, None));
    assert!(rt; takes(&mut map, &mut out, 3, Some(0)));
    assert!(rt; takes(&mut map, &mut out, 8, None));
    assert!(rt; takes(&mut map, &mut out, 7, Some(3)));
    assert!(rt; takes(&mut map, &mut out, 1, None));
    assert!(rt; map.spare() == 2);
    assert!(rt; gives(&mut map, &mut out, 0));
    assert!(rt; map.spare() == 3);
    assert!(rt; takes(&mut map, &mut out, 4, None));
    assert!(rt; takes(&mut map, &mut out, 3, Some(0)));
    Ok(())
}

/// Three extents of two pages are out of a pool of six, and these two are given back.
fn three_out(
    alloc: Global,
    first: usize,
    second: usize,
) -> Result<(ExtentMap, Vec<Extent>), OutOfMemory>
    ensures { IfOk result (λ pair. AreSame pair.0.out pair.1.items) }
{
    let (mut map, mut out) = pool(alloc, 6, 3)?;
    let _ = takes(&mut map, &mut out, 2, Some(0));
    let _ = takes(&mut map, &mut out, 2, Some(2));
    let _ = takes(&mut map, &mut out, 2, Some(4));
    let _ = gives(&mut map, &mut out, first);
    let _ = gives(&mut map, &mut out, second);
    Ok((map, out))
}

#[test]
fn joined_on_both_sides(rt: HostRuntime) -> Result<(), OutOfMemory> {
    // Pages 0 and 1, and 4 and 5 are given back: they are apart until 2 and 3 come back too.
    let (mut map, mut out) = three_out(rt.alloc(), 0, 1)?;
    assert!(rt; takes(&mut map, &mut out, 3, None));
    assert!(rt; gives(&mut map, &mut out, 0));
    assert!(rt; takes(&mut map, &mut out, 6, Some(0)));
    Ok(())
}
