//! A code over the locals that are kept: its instructions name them by their numbers among these.

ghost use Rattle.std.specs.Prelude.{◌≡◌, ◌+◌, ◌*◌, ◌≤◌, ◌<◌, ◌^◌, Bool, IfOk, IfSome, List as AList, Some, length, slice_get};
ghost use Rattle.jk_model_typing.specs.Scopes.{CodeScope};
ghost use Rattle.touched_locals.specs.KeptLocals.{AreRenamedBy, IsOperandBy, IsRenamedBy, IsTouchedAmong};
ghost use Rattle.touched_locals.specs.Narrowing.{IsNarrowed};

use crate::kept::{kept_locals, names_local};
use jk_model::{Instr, List, OutOfMemory};
use jk_model_classes::{LinkedCode, MethodRecord};
use std::alloc::Global;

/// The most parameters for which a code is narrowed.
const MOST_PARAMETERS: usize = 255;

/// A method's code over the locals that it can touch; none where it has fewer than its parameters may take, where the method has
/// more parameters than a descriptor may have, and where an instruction names a local that isn't there. It takes time in proportion
/// to the parameters and to n log n for n instructions, and memory for these.
pub fn narrow_code(
    alloc: Global,
    code: &LinkedCode,
    method: &MethodRecord,
) -> Result<Option<LinkedCode>, OutOfMemory>
    ensures { IfOk result (λ o. IfSome o (λ narrow. (s : CodeScope) → s.code ≡ code.now → s.method ≡ method.now
        → (marks : AList Bool) × IsNarrowed s marks narrow)) }
{
    let Some(first) = given_locals(code, method) else {
        return Ok(None);
    };
    let locals = kept_locals(alloc, code, first)?;
    let kept = locals.as_slice();
    let count = usize::from(code.max_locals);
    let renamed = renamed_instrs(alloc, kept, count, code.instrs.as_slice())?;
    let Some(instrs) = renamed else {
        return Ok(None);
    };
    let max_locals = kept.len() as u16;
    let handlers = code.handlers.copied()?;
    Ok(Some(LinkedCode {
        max_stack: code.max_stack,
        max_locals,
        instrs,
        handlers,
    }))
}

/// How many first locals a receiver and the method's parameters may take; none where the code has fewer, or the method more
/// parameters than a descriptor may have.
fn given_locals(code: &LinkedCode, method: &MethodRecord) -> Option<usize>
    ensures { IfSome result (λ first. (first ≤ code.now.max_locals) × (2 * length method.now.params + 1 ≤ first)) }
{
    let params = method.params.get().len();
    if params > MOST_PARAMETERS {
        return None;
    }
    let first = 2 * params + 1;
    if first <= usize::from(code.max_locals) {
        Some(first)
    } else {
        None
    }
}

/// The same instructions, which name kept locals by their numbers; none where one names another local.
fn renamed_instrs(
    alloc: Global,
    kept: &[usize],
    count: usize,
    instrs: &[Instr],
) -> Result<Option<List<Instr>>, OutOfMemory>
    requires few { length kept.now ≤ 65535 }
    ensures { IfOk result (λ o. IfSome o (λ renamed. AreRenamedBy kept.now count instrs.now renamed)) }
{
    let mut renamed = List::new(alloc);
    for i in instrs {
        let Some(instr) = renamed_instr(kept, count, i)? else {
            return Ok(None);
        };
        renamed.push(instr)?;
    }
    Ok(Some(renamed))
}

/// The same instruction, which names a kept local by its number; none where it names another local.
fn renamed_instr(kept: &[usize], count: usize, i: &Instr) -> Result<Option<Instr>, OutOfMemory>
    requires few { length kept.now ≤ 65535 }
    ensures { IfOk result (λ o. IfSome o (λ j. IsRenamedBy kept.now count i.now j)) }
{
    let Some(a) = operand(kept, count, i) else {
        return Ok(None);
    };
    let cases = i.cases.copied()?;
    Ok(Some(Instr {
        at: i.at,
        op: i.op,
        a,
        b: i.b,
        cases,
    }))
}

/// The first operand of an instruction, where that is a local its number; none where the local isn't kept.
fn operand(kept: &[usize], count: usize, i: &Instr) -> Option<i32>
    requires few { length kept.now ≤ 65535 }
    ensures { IfSome result (λ a. IsOperandBy kept.now count i.now a) }
{
    if !names_local(i.op) {
        return Some(i.a);
    }
    if i.a < 0 {
        return None;
    }
    let k = touched_number(kept, count, i.a as usize)?;
    Some(k as i32)
}

/// The number of a local that is kept with those beside it; none where one of them isn't.
fn touched_number(kept: &[usize], count: usize, local: usize) -> Option<usize>
    requires small { local < 2 ^ 32 }
    ensures { IfSome result (λ k. IsTouchedAmong kept.now count local k) }
{
    if local > 0 {
        number_of(kept, local - 1)?;
    }
    if local + 1 < count {
        number_of(kept, local + 1)?;
    }
    number_of(kept, local)
}

/// The number of a local among those that are kept; none where it isn't.
fn number_of(kept: &[usize], local: usize) -> Option<usize>
    ensures { IfSome result (λ k. slice_get kept.now k ≡ Some local) }
{
    kept.binary_search(&local).ok()
}
