//! The two switches.

ghost use Rattle.std.specs.Prelude.{◌≡◌, ◌<◌, ◌≤ℤ◌, ◌^◌, IfOk, IsOk, Err};
ghost use Rattle.jk_model.specs.Instructions.{target};
ghost use Rattle.jk_opcodes.specs.Reading.{Gives, GivesInMemory};
ghost use Rattle.jk_opcodes.specs.Switches.{filling_at, key_case_at, table_cases_at, table_head_at, table_switch_at, is_above, pair_at, count_at, lookup_cases_at, lookup_head_at, lookup_switch_at, span, switch_of};

use crate::errors::{StepError, Stop};
use crate::operands::int_of;
use crate::plain::target;
use byte_fields::bytes_of;
use jk_model::{Instr, List, SwitchCase};
use std::alloc::Global;

/// The bytes after those that fill the gap up to a multiple of four from the code's start.
#[tactic(auto, unfolding(crate::specs::Switches::filling_at))]
fn after_filling(at: u32, after: &[u8]) -> Result<&[u8], Stop>
    ensures { Gives (λ x. x.now) result (filling_at at after.now) }
{
    let (_, rest) = bytes_of((3 - at % 4) as usize, after)?;
    Ok(rest)
}

/// The case of this key, whose offset is in front.
#[tactic(auto, unfolding(crate::specs::Switches::key_case_at))]
fn case_of(at: u32, key: i32, bytes: &[u8]) -> Result<(SwitchCase, &[u8]), Stop>
    requires { at < 2 ^ 16 }
    ensures { Gives (λ x. (x.0, x.1.now)) result (key_case_at at key bytes.now) }
{
    let (offset, rest) = int_of(bytes)?;
    let case = SwitchCase {
        key,
        target: target(at, offset),
    };
    Ok((case, rest))
}

/// A switch with this offset of the default, and these cases.
fn switch_of(at: u32, op: u8, default: i32, cases: List<SwitchCase>) -> Instr
    requires { at < 2 ^ 16 }
    ensures { result ≡ switch_of at op default cases }
{
    Instr {
        at,
        op,
        a: target(at, default),
        b: 0,
        cases,
    }
}

/// An offset for each key from the lowest to the highest.
fn table_cases(
    alloc: Global,
    at: u32,
    low: i32,
    high: i32,
    bytes: &[u8],
) -> Result<(List<SwitchCase>, &[u8]), StepError>
    requires place { at < 2 ^ 16 }
    requires order { low ≤ℤ high }
    ensures { GivesInMemory (λ x. (x.0, x.1.now)) result (table_cases_at at low (span low high) bytes.now) }
{
    let mut cases = List::new(alloc);
    let mut key = low;
    let mut rest = bytes;
    loop {
        let (case, after) = case_of(at, key, rest)?;
        cases.push(case)?;
        rest = after;
        if high <= key {
            return Ok((cases, rest));
        }
        key += 1;
    }
}

/// The operands of a `tableswitch` before its cases: the offset of the default, and the keys between
/// which its cases lie.
#[derive(Clone, Copy, Debug)]
pub struct TableHead {
    pub default: i32,
    pub low: i32,
    pub high: i32,
}

/// The head of a table, whose lowest key isn't above the highest.
#[tactic(auto, unfolding(crate::specs::Switches::table_head_at))]
fn table_head(at: u32, after: &[u8]) -> Result<(TableHead, &[u8]), Stop>
    ensures gives { Gives (λ x. (x.0, x.1.now)) result (table_head_at at after.now) }
    ensures order { IfOk result (λ x. x.0.low ≤ℤ x.0.high) }
{
    let rest = after_filling(at, after)?;
    let (default, rest) = int_of(rest)?;
    let (low, rest) = int_of(rest)?;
    let (high, rest) = int_of(rest)?;
    if high < low {
        return Err(Stop::BadSwitch);
    }
    Ok((TableHead { default, low, high }, rest))
}

/// `tableswitch`: its head, and an offset for each key. The cases alone take memory.
#[tactic(auto, unfolding(crate::specs::Switches::table_switch_at), using(crate::proofs::LoopReadsCases::fails_on))]
pub fn table_switch(
    alloc: Global,
    at: u32,
    op: u8,
    after: &[u8],
) -> Result<(Instr, &[u8]), StepError>
    requires { at < 2 ^ 16 }
    ensures gives { GivesInMemory (λ x. (x.0, x.1.now)) result (table_switch_at at op after.now) }
    ensures memory { result ≡ Err StepError.Memory → IsOk (table_head_at at after.now) }
{
    let (head, rest) = table_head(at, after)?;
    let (cases, rest) = table_cases(alloc, at, head.low, head.high, rest)?;
    Ok((switch_of(at, op, head.default, cases), rest))
}

/// Whether a key is above the one before it, where there is one.
fn is_above(before: Option<i32>, key: i32) -> bool
    ensures { result ≡ is_above before key }
{
    match before {
        None => true,
        Some(before) => before < key,
    }
}

/// A key above the one before it, where there is one, and its offset.
#[tactic(auto, unfolding(crate::specs::Switches::pair_at))]
fn pair_of(at: u32, before: Option<i32>, bytes: &[u8]) -> Result<(SwitchCase, &[u8]), Stop>
    requires { at < 2 ^ 16 }
    ensures { Gives (λ x. (x.0, x.1.now)) result (pair_at at before bytes.now) }
{
    let (key, rest) = int_of(bytes)?;
    if !is_above(before, key) {
        return Err(Stop::BadSwitch);
    }
    case_of(at, key, rest)
}

/// A number of pairs, which isn't negative.
fn count_of(count: i32) -> Result<u32, Stop>
    ensures { Gives (λ n. n) result (count_at count) }
{
    if count < 0 {
        return Err(Stop::BadSwitch);
    }
    Ok(count as u32)
}

/// So many pairs of a key and an offset, whose keys rise.
fn lookup_cases(
    alloc: Global,
    at: u32,
    count: u32,
    bytes: &[u8],
) -> Result<(List<SwitchCase>, &[u8]), StepError>
    requires { at < 2 ^ 16 }
    ensures { GivesInMemory (λ x. (x.0, x.1.now)) result (lookup_cases_at at None count bytes.now) }
{
    let mut cases = List::new(alloc);
    let mut before = None;
    let mut rest = bytes;
    for _ in 0..count {
        let (case, after) = pair_of(at, before, rest)?;
        before = Some(case.key);
        cases.push(case)?;
        rest = after;
    }
    Ok((cases, rest))
}

/// The offset of the default of a `lookupswitch`, and its number of pairs.
#[tactic(auto, unfolding(crate::specs::Switches::lookup_head_at))]
fn lookup_head(at: u32, after: &[u8]) -> Result<((i32, u32), &[u8]), Stop>
    ensures { Gives (λ x. (x.0, x.1.now)) result (lookup_head_at at after.now) }
{
    let rest = after_filling(at, after)?;
    let (default, rest) = int_of(rest)?;
    let (count, rest) = int_of(rest)?;
    Ok(((default, count_of(count)?), rest))
}

/// `lookupswitch`: the offset of the default, the number of pairs, and so many pairs, whose keys rise.
/// The pairs alone take memory.
#[tactic(auto, unfolding(crate::specs::Switches::lookup_switch_at), using(crate::proofs::LoopReadsCases::fails_on))]
pub fn lookup_switch(
    alloc: Global,
    at: u32,
    op: u8,
    after: &[u8],
) -> Result<(Instr, &[u8]), StepError>
    requires { at < 2 ^ 16 }
    ensures gives { GivesInMemory (λ x. (x.0, x.1.now)) result (lookup_switch_at at op after.now) }
    ensures memory { result ≡ Err StepError.Memory → IsOk (lookup_head_at at after.now) }
{
    let ((default, count), rest) = lookup_head(at, after)?;
    let (cases, rest) = lookup_cases(alloc, at, count, rest)?;
    Ok((switch_of(at, op, default, cases), rest))
}
