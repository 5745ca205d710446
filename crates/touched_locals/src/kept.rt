//! Which locals of a code are kept.

ghost use Rattle.std.specs.Prelude.{◌≡◌, ℕ, ◌+◌, ◌≤◌, ◌<◌, ◌^◌, IfOk, Some, length, slice_get};
ghost use Rattle.touched_locals.specs.KeptLocals.{AreKeptLocals, IsRising};
ghost use Rattle.touched_locals.specs.Narrowing.{names_local};

use jk_model::opcodes::{ALOAD, ASTORE, IINC, ILOAD, ISTORE, LLOAD, LSTORE};
use jk_model::{Instr, OutOfMemory};
use jk_model_classes::LinkedCode;
use std::alloc::Global;

/// Whether an instruction with this opcode names a local.
pub(crate) fn names_local(op: u8) -> bool
    ensures { result ≡ names_local op }
{
    matches!(op, ILOAD | LLOAD | ALOAD | ISTORE | LSTORE | ASTORE | IINC)
}

/// The locals of a code that are kept, so many first ones among them, in their order. It takes time in proportion to these and to
/// n log n for n instructions.
pub(crate) fn kept_locals(
    alloc: Global,
    code: &LinkedCode,
    first: usize,
) -> Result<Vec<usize>, OutOfMemory>
    requires { first ≤ code.now.max_locals }
    ensures { IfOk result (λ kept. AreKeptLocals first code.now.max_locals kept.items) }
{
    let named = named_locals(alloc, code.instrs.as_slice())?;
    with_named(
        first_locals(alloc, first)?,
        first,
        named.as_slice(),
        usize::from(code.max_locals),
    )
}

/// So many first locals.
fn first_locals(alloc: Global, first: usize) -> Result<Vec<usize>, OutOfMemory>
    ensures rising { IfOk result (λ kept. IsRising 0 kept.items first) }
    ensures all { IfOk result (λ kept. (n : ℕ) → n < first → slice_get kept.items n ≡ Some n) }
{
    let mut kept = Vec::new(alloc);
    for n in 0..first {
        kept.push(n)?;
    }
    Ok(kept)
}

/// The locals that instructions name and those beside them, in order, some of them more than once.
fn named_locals(alloc: Global, instrs: &[Instr]) -> Result<Vec<usize>, OutOfMemory> {
    let mut named = Vec::new(alloc);
    for i in instrs {
        if names_local(i.op) && i.a >= 0 {
            let local = i.a as usize;
            named.push(local.saturating_sub(1))?;
            named.push(local)?;
            named.push(local.saturating_add(1))?;
        }
    }
    named.as_mut_slice().sort_unstable();
    Ok(named)
}

/// Puts each of these locals that comes after all before it, and is one of `count`, after the `first` ones.
fn with_named(
    first_ones: Vec<usize>,
    first: usize,
    named: &[usize],
    count: usize,
) -> Result<Vec<usize>, OutOfMemory>
    requires rising { IsRising 0 first_ones.items first }
    requires all { (n : ℕ) → n < first → slice_get first_ones.items n ≡ Some n }
    requires count { first ≤ count }
    ensures { IfOk result (λ kept. AreKeptLocals first count kept.items) }
{
    let mut kept = first_ones;
    let mut next = first;
    for n in named {
        next = keep(&mut kept, next, *n, count)?;
    }
    Ok(kept)
}

/// Puts a local after those that are kept, where it comes after them and is one of `count`. Answers which one may come next.
fn keep(
    kept: &mut Vec<usize>,
    next: usize,
    local: usize,
    count: usize,
) -> Result<usize, OutOfMemory>
    requires rising { IsRising 0 kept.old.items next }
    requires within { next ≤ count }
    ensures rising { IfOk result (λ after. IsRising 0 kept.new.items after) }
    ensures within { IfOk result (λ after. after ≤ count) }
    ensures stay { IfOk result (λ after. (n m : ℕ) → slice_get kept.old.items n ≡ Some m → slice_get kept.new.items n ≡ Some m) }
{
    if next <= local && local < count {
        kept.push(local)?;
        Ok(local + 1)
    } else {
        Ok(next)
    }
}
