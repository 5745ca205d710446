//! Tables of numbers: keys that share a bucket, keys that don't, and tables that grow.

use number_table::{NumberTable, Place};
use std::process::Abort;
use std::test::Fail;

/// Keys that stand in one bucket of a table with four or eight, and keys that don't.
const KEYS: [u64; 8] = [
    8,
    16,
    24,
    32,
    1,
    3,
    4_294_967_304,
    18_446_744_073_709_551_615,
];

/// A slot of the domain that has the last number.
fn at(slot: u32) -> Place {
    Place {
        domain: u32::MAX,
        slot,
    }
}

/// Enters a key that isn't there, and asserts that it is then, with its place.
fn enter(rt: &impl Abort, table: &mut NumberTable, key: u64, slot: u32) {
    let room = table.room();
    assert!(rt; room > 0);
    assert!(rt; table.get(key) == None, "{key} isn't there yet");
    table.insert(key, at(slot));
    assert!(rt; table.get(key) == Some(at(slot)), "{key}");
    assert!(rt; table.room() == room - 1);
}

/// Takes out a key that is there with this place, and asserts that it isn't then.
fn take_out(rt: &impl Abort, table: &mut NumberTable, key: u64, slot: u32) {
    assert!(rt; table.get(key) == Some(at(slot)), "{key}");
    table.remove(key);
    assert!(rt; table.get(key) == None, "{key} is out");
}

#[test]
fn keys_come_and_go(rt: HostRuntime) -> Result<(), Fail> {
    let mut table = NumberTable::make(rt.alloc(), 8)?;
    for (i, key) in KEYS.iter().enumerate() {
        assert!(rt; table.room() == 8 - i);
        enter(&rt, &mut table, *key, i as u32);
    }
    assert!(rt; table.get(2) == None);
    assert!(rt; table.get(40) == None);
    // One from between, the first and the last of those that share a bucket.
    take_out(&rt, &mut table, 24, 2);
    take_out(&rt, &mut table, 8, 0);
    take_out(&rt, &mut table, 4_294_967_304, 6);
    assert!(rt; table.room() == 3);
    for (slot, key) in [
        (1, 16),
        (3, 32),
        (4, 1),
        (5, 3),
        (7, 18_446_744_073_709_551_615),
    ] {
        assert!(rt; table.get(key) == Some(at(slot)), "{key}");
    }
    // A key comes again, with another place.
    enter(&rt, &mut table, 8, 77);
    assert!(rt; table.get(16) == Some(at(1)));
    Ok(())
}

#[test]
fn tables_grow(rt: HostRuntime) -> Result<(), Fail> {
    let mut table = NumberTable::make(rt.alloc(), 0)?;
    assert!(rt; table.room() == 0);
    assert!(rt; table.get(0) == None);
    table.reserve(rt.alloc(), 3)?;
    assert!(rt; table.room() >= 3);
    enter(&rt, &mut table, 5, 50);
    enter(&rt, &mut table, 6, 60);
    take_out(&rt, &mut table, 6, 60);
    table.reserve(rt.alloc(), 100)?;
    assert!(rt; table.room() >= 100);
    for key in 8..108 {
        enter(&rt, &mut table, key, 2);
    }
    for (key, place) in [
        (5, Some(at(50))),
        (6, None),
        (8, Some(at(2))),
        (107, Some(at(2))),
        (108, None),
    ] {
        assert!(rt; table.get(key) == place, "{key}");
    }
    Ok(())
}
