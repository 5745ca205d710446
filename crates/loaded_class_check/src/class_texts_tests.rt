//! The texts of a small pool.

ghost use Rattle.std.specs.Prelude.{◌≡◌, IfOk};
ghost use Rattle.loaded_class_check.specs.SmallPool.{small_pool};

use class_texts::ClassTexts;
use jk_model::{Bytes, List, OutOfMemory, PoolEntry};
use std::alloc::Global;
use std::test::Fail;

/// Nothing, the text `A`, and the class of that name.
fn small(alloc: Global) -> Result<List<PoolEntry>, OutOfMemory>
    ensures { IfOk result (λ pool. pool ≡ small_pool) }
{
    let mut text = Bytes::new(alloc);
    text.push(b'A')?;
    let mut pool = List::new(alloc);
    pool.push(PoolEntry::Unusable)?;
    pool.push(PoolEntry::Utf8(text))?;
    pool.push(PoolEntry::Class(1))?;
    Ok(pool)
}

#[test]
fn texts_and_names(rt: HostRuntime) -> Result<(), Fail> {
    let pool = small(rt.alloc())?;
    let texts = ClassTexts::of(rt.alloc(), pool.as_slice())?;
    assert!(rt; texts.text(1).expect(&rt, "a text").as_slice() == [65].as_slice());
    assert!(rt; texts.text(0).is_none() && texts.text(2).is_none() && texts.text(3).is_none());
    let name = texts.class_name(pool.as_slice(), 2).expect(&rt, "a name");
    assert!(rt; name.as_slice() == [65].as_slice());
    assert!(rt; texts.class_name(pool.as_slice(), 1).is_none());
    Ok(())
}
