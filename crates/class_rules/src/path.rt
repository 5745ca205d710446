//! C17: whether a class stands under its own path.

ghost use Rattle.std.specs.Prelude.{◌≡◌, ◌⊎◌, ◌↔◌, ◌++◌, ℕ, List, codes, IsTrue, IfOk, MatchOption};
ghost use Rattle.std.specs.Bool.{MatchBool};
ghost use Rattle.std.specs.List.{AllByRecursion};
ghost use Rattle.jk_model.specs.ClassFile.{IsEntry};
ghost use Rattle.jk_model.specs.Outside.{IsPrefix};
ghost use Rattle.jk_model.specs.Text.{utf16_of};
ghost use Rattle.jk_model_classes.specs.Members.{TextAt, ClassAt};
ghost use Rattle.jk_model_classes.specs.ClassNames.{HasWrongPath};
ghost use Rattle.class_rules.specs.Answers.{IsLeastSpot};
ghost use Rattle.class_rules.specs.Paths.{MayStand, MayNotStand};

use crate::spelling::{begins_with, is_text};
use jk_model::{ClassFile, List, OutOfMemory, PoolEntry, Units};
use std::alloc::Global;
use unit_text::{UnitsError, units_of};

/// The units of a text in UTF-8.
fn utf16(alloc: Global, text: &str) -> Result<Units, OutOfMemory>
    ensures { IfOk result (λ units. units ≡ utf16_of text.now) }
{
    let mut units = List::new(alloc);
    for c in text.chars() {
        units.extend_from_slice(c.encode_utf16(&mut [0; 2]))?;
    }
    Ok(units)
}

/// The units of the text at an index, if there is one.
fn text_at(alloc: Global, pool: &[PoolEntry], index: u16) -> Result<Option<Units>, OutOfMemory>
    requires { AllByRecursion IsEntry pool.now }
    ensures { IfOk result (λ found. MatchOption found ((units : List ℕ) → TextAt pool.now index units → ⊥) (λ units. TextAt pool.now index units)) }
{
    let Some(PoolEntry::Utf8(bytes)) = pool.get(usize::from(index)) else {
        return Ok(None);
    };
    match units_of(alloc, bytes.as_slice()) {
        Ok(units) => Ok(Some(units)),
        Err(UnitsError::BadForm(_)) => Ok(None),
        Err(UnitsError::OutOfMemory) => Err(OutOfMemory),
    }
}

/// The name of the class at an index, if there is one.
fn class_at(alloc: Global, pool: &[PoolEntry], index: u16) -> Result<Option<Units>, OutOfMemory>
    requires { AllByRecursion IsEntry pool.now }
    ensures { IfOk result (λ found. MatchOption found ((units : List ℕ) → ClassAt pool.now index units → ⊥) (λ units. ClassAt pool.now index units)) }
{
    let Some(PoolEntry::Class(name)) = pool.get(usize::from(index)) else {
        return Ok(None);
    };
    text_at(alloc, pool, *name)
}

/// Whether these are the units of a class's name and `.class`.
fn is_path_of(path: &[u16], name: &[u16]) -> bool
    ensures { IsTrue result ↔ (path.now ≡ name.now ++ codes ".class") }
{
    path.starts_with(name) && is_text(&path[name.len()..], ".class")
}

/// Whether a name is one that is kept for system classes.
fn is_reserved(name: &[u16]) -> bool
    ensures { IsTrue result ↔ (IsPrefix (codes "java/") name.now ⊎ IsPrefix (codes "jk/") name.now) }
{
    begins_with(name, "java/") || begins_with(name, "jk/")
}

/// Whether a class of this name may stand under this path.
fn may_stand(path: &[u16], name: &[u16]) -> bool
    ensures { MatchBool result (MayStand path.now name.now) (MayNotStand path.now name.now) }
{
    is_path_of(path, name) && !is_reserved(name)
}

/// The number of the class itself where C17 is broken: the path isn't the name of the class with `.class`, or
/// the name is one that is kept for system classes.
pub(crate) fn wrong_path(
    alloc: Global,
    c: &ClassFile,
    path: &str,
) -> Result<Option<u32>, OutOfMemory>
    requires { AllByRecursion IsEntry c.now.pool }
    ensures { IfOk result (IsLeastSpot (HasWrongPath c.now path.now)) }
{
    let Some(name) = class_at(alloc, c.pool.as_slice(), c.this_class)? else {
        return Ok(Some(0));
    };
    let path = utf16(alloc, path)?;
    if may_stand(path.as_slice(), name.as_slice()) {
        return Ok(None);
    }
    Ok(Some(0))
}
