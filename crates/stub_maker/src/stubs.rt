//! The stub of a class.

ghost use Rattle.std.specs.Prelude.{◌≡◌, ◌↔◌, IfNone, IfOk, IfSome, IsTrue, OnErr};
ghost use Rattle.jk_model_classes.specs.Stubs.{ImplementsRemote, IsRemote, IsStub};
ghost use Rattle.stub_maker.specs.Kept.{IsInOrder, IsKept, IsShown};

use crate::remote::remote;
use class_table::ClassTable;
use jk_model::{ClassId, List, OutOfMemory};
use jk_model_classes::Stub;
use member_lookup::is_interface;
use std::alloc::Global;

/// The stub of a class: its interfaces that are jk/Remote or below it, in rising number. None exactly where the class doesn't
/// implement jk/Remote, or there is no such class.
///
/// It asks each class and interface above the class whether it implements jk/Remote, and puts the n that do in order, in time
/// in proportion to n log n. The stub takes 4 bytes for each of its interfaces, and the work as much again. A class
/// without a stub takes no memory.
pub fn stub_of(alloc: Global, t: &ClassTable, c: ClassId) -> Result<Option<Stub>, OutOfMemory>
    ensures some { IfOk result (λ o. IfSome o (λ stub. IsStub t.now c stub)) }
    ensures none { IfOk result (λ o. IfNone o (ImplementsRemote t.now c → ⊥)) }
    ensures err { OnErr result (ImplementsRemote t.now c) }
{
    match (remote(), t.walk(c)) {
        (Some(remote), Some(walk)) if t.implements(c, remote) => {
            let interfaces = shown_in_order(alloc, t, walk, remote)?;
            Ok(Some(Stub {
                class: c,
                interfaces,
            }))
        }
        _ => Ok(None),
    }
}

/// Those of the walk that are interfaces and implement jk/Remote, in rising number.
fn shown_in_order(
    alloc: Global,
    t: &ClassTable,
    walk: &[ClassId],
    remote: ClassId,
) -> Result<List<ClassId>, OutOfMemory>
    ensures { IfOk result (λ list. IsInOrder (IsShown t.now remote) walk.now list) }
{
    let mut shown = shown_on_walk(alloc, t, walk, remote)?;
    shown.sort_unstable_by_key(|c| c.0);
    List::from_slice(alloc, shown.as_slice())
}

/// Those of the walk that are interfaces and implement jk/Remote, in the order of the walk.
fn shown_on_walk(
    alloc: Global,
    t: &ClassTable,
    walk: &[ClassId],
    remote: ClassId,
) -> Result<Vec<ClassId>, OutOfMemory>
    ensures { IfOk result (λ list. IsKept (IsShown t.now remote) walk.now list.items) }
{
    let mut shown = Vec::new(alloc);
    for &i in walk {
        if is_shown(t, remote, i) {
            shown.push(i)?;
        }
    }
    Ok(shown)
}

/// Whether it is an interface that implements jk/Remote.
fn is_shown(t: &ClassTable, remote: ClassId, i: ClassId) -> bool
    ensures { IsTrue result ↔ IsShown t.now remote i }
{
    is_interface(t, i) && t.implements(i, remote)
}
