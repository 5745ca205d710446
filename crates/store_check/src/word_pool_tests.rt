//! Pools of a few words, of none, and of a gigabyte.

ghost use Rattle.std.specs.Prelude.{◌≡◌, ◌+◌, ◌^◌, ◌<◌, ◌≤◌, length};

use jk_model::OutOfMemory;
use std::alloc::Global;
use std::test::Fail;
use word_pool::*;

#[test]
fn words_are_cleared_again(rt: HostRuntime) -> Result<(), OutOfMemory> {
    let mut pool = WordPool::make(rt.alloc(), 4)?;
    pool.clear(0, 4);
    pool.store(0, 1);
    pool.store(1, 2);
    pool.store(3, 4);
    pool.clear(1, 2);
    assert!(rt; pool.load(0) == 1);
    assert!(rt; pool.load(1) == 0);
    assert!(rt; pool.load(2) == 0);
    assert!(rt; pool.load(3) == 4);
    Ok(())
}

/// Two pools, and one without words, of which the others know nothing.
#[test]
fn two_pools(rt: HostRuntime) -> Result<(), OutOfMemory> {
    let mut one = WordPool::make(rt.alloc(), 2)?;
    let mut none = WordPool::make(rt.alloc(), 0)?;
    let mut other = WordPool::make(rt.alloc(), 2)?;
    one.clear(0, 2);
    none.clear(0, 0);
    other.clear(1, 1);
    one.store(1, 5);
    other.store(1, 6);
    assert!(rt; one.load(1) == 5);
    assert!(rt; other.load(1) == 6);
    Ok(())
}

/// Whether two words side by side can be cleared, stored and loaded.
fn has_words(pool: &mut WordPool, at: u32) -> bool
    requires { (at + 2 ≤ length pool.old) × (at + 1 < 2 ^ 32) }
    ensures { length pool.new ≡ length pool.old }
{
    pool.clear(at, 2);
    pool.store(at, 7);
    pool.load(at) == 7 && pool.load(at + 1) == 0
}

/// Whether a pool of so many words has two at its beginning, and two at its end.
fn has_ends(alloc: Global, words: u32) -> Result<bool, OutOfMemory>
    requires { 2 ≤ words }
{
    let mut pool = WordPool::make(alloc, words)?;
    Ok(has_words(&mut pool, 0) && has_words(&mut pool, words - 2))
}

#[test]
fn a_gigabyte(rt: HostRuntime) {
    assert!(rt; matches!(has_ends(rt.alloc(), 268_435_456), Ok(true)));
}
