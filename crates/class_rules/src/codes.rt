//! What one method's code says: which of the rules on codes it breaks.

mod operands;
mod places;

ghost use Rattle.std.specs.Prelude.{◌≡◌, ℕ, ◌↔◌, ◌<◌, ◌⊎◌, ◌^◌, pos, IsTrue, IfOk, IfErr, length};
ghost use Rattle.jk_model.specs.declared.class_file.Handler.{Handler};
ghost use Rattle.jk_model_classes.specs.ClassNames.{NamesClass};
ghost use Rattle.jk_model_classes.specs.Items.{HasItem};
ghost use Rattle.jk_model_classes.specs.MemberCode.{LoadsFloat, IsBadInstr, BeginsAt, IsGoodHandler};
ghost use Rattle.class_rules.specs.Codes.{IsJudgment, IsReading, ArePlaces, LoadsClassBy, IsMisuse, IsBadIn, refused_judgment, IsMemoryError};
ghost use Rattle.class_rules.specs.KnownPools.{IsKnown};

use crate::known_pool::KnownPool;
use jk_model::{Code, Handler, Instr, OutOfMemory, PoolEntry};
use jk_opcodes::{CodeError, decode};
use operands::{
    calls_init, has_bad_entry, has_bad_local, loads_class, loads_float, makes_bad_array,
};
use places::{is_marked, leads_out, places_of};
use std::alloc::Global;

/// Which of the rules on codes a code breaks.
#[derive(Clone, Copy)]
pub(crate) struct CodeJudgment {
    /// C10: an opcode of float or double, or a constant of them.
    pub has_float: bool,
    /// C11: an opcode of subroutines.
    pub has_subroutine: bool,
    /// C12: an opcode on monitors.
    pub has_monitor: bool,
    /// C14: a class is loaded as a constant.
    pub loads_class: bool,
    /// C15: it doesn't decode, or something that it names or leads to may not be.
    pub is_bad: bool,
}

/// Whether some instruction loads a constant of float or double.
fn has_float(pool: &[PoolEntry], instrs: &[Instr]) -> bool
    ensures { IsTrue result ↔ HasItem (LoadsFloat pool.now) instrs.now }
{
    for instr in instrs {
        if loads_float(pool, instr) {
            return true;
        }
    }
    false
}

/// Whether some instruction loads a class as a constant.
fn has_class(pool: &[PoolEntry], instrs: &[Instr]) -> bool
    ensures { IsTrue result ↔ HasItem (LoadsClassBy pool.now) instrs.now }
{
    for instr in instrs {
        if loads_class(pool, instr) {
            return true;
        }
    }
    false
}

/// Whether an instruction names a local that isn't there, makes what it may not, or names `<init>` where it
/// may not.
fn is_misuse(pool: &KnownPool, max_locals: u16, instr: &Instr) -> bool
    requires { IsKnown pool.now }
    ensures { IsTrue result ↔ IsMisuse pool.now.entries.now max_locals instr.now }
{
    if has_bad_local(max_locals, instr) {
        return true;
    }
    makes_bad_array(pool, instr) || calls_init(pool, instr)
}

/// Whether an instruction leads to where none begins, or names what it may not.
fn is_bad_instr(pool: &KnownPool, code: &Code, places: &[bool], instr: &Instr) -> bool
    requires known { IsKnown pool.now }
    requires places { ArePlaces code.now places.now }
    ensures { IsTrue result ↔ IsBadInstr pool.now.entries.now code.now instr.now }
{
    if leads_out(places, instr) {
        return true;
    }
    if has_bad_entry(pool.entries, instr) {
        return true;
    }
    is_misuse(pool, code.max_locals, instr)
}

/// Whether some instruction is bad.
fn has_bad_instr(pool: &KnownPool, code: &Code, places: &[bool], instrs: &[Instr]) -> bool
    requires known { IsKnown pool.now }
    requires places { ArePlaces code.now places.now }
    ensures { IsTrue result ↔ HasItem (IsBadInstr pool.now.entries.now code.now) instrs.now }
{
    for instr in instrs {
        if is_bad_instr(pool, code, places, instr) {
            return true;
        }
    }
    false
}

/// Whether an instruction begins at a place.
fn begins_at(code: &Code, places: &[bool], place: u16) -> bool
    requires { ArePlaces code.now places.now }
    ensures { IsTrue result ↔ BeginsAt code.now (pos place) }
{
    is_marked(places, usize::from(place))
}

/// Whether a handler catches all, or a class.
fn catches(pool: &KnownPool, i: u16) -> bool
    requires { IsKnown pool.now }
    ensures { IsTrue result ↔ ((i ≡ 0) ⊎ NamesClass pool.now.entries.now i) }
{
    i == 0 || pool.names_class(i)
}

/// Whether instructions end at a place.
fn ends_at(code: &Code, places: &[bool], place: u16) -> bool
    requires { ArePlaces code.now places.now }
    ensures { IsTrue result ↔ (BeginsAt code.now (pos place) ⊎ (place ≡ length code.now.code)) }
{
    begins_at(code, places, place) || usize::from(place) == code.code.len()
}

/// Whether a handler covers instructions, is at one, and catches a class or all.
fn is_good_handler(pool: &KnownPool, code: &Code, places: &[bool], h: &Handler) -> bool
    requires known { IsKnown pool.now }
    requires places { ArePlaces code.now places.now }
    ensures { IsTrue result ↔ IsGoodHandler pool.now.entries.now code.now h.now }
{
    let covers = begins_at(code, places, h.start) && ends_at(code, places, h.end);
    let is_there = begins_at(code, places, h.handler) && catches(pool, h.catch);
    h.start < h.end && covers && is_there
}

/// Whether some handler of a code is bad.
fn has_bad_handler(pool: &KnownPool, code: &Code, places: &[bool], handlers: &[Handler]) -> bool
    requires known { IsKnown pool.now }
    requires places { ArePlaces code.now places.now }
    ensures { IsTrue result ↔ HasItem (λ (h : Handler). IsGoodHandler pool.now.entries.now code.now h → ⊥) handlers.now }
{
    for h in handlers {
        if !is_good_handler(pool, code, places, h) {
            return true;
        }
    }
    false
}

/// Whether a code with these instructions is bad.
fn is_bad_code(
    pool: &KnownPool,
    code: &Code,
    places: &[bool],
    instrs: &[Instr],
    arguments: u32,
) -> bool
    requires known { IsKnown pool.now }
    requires places { ArePlaces code.now places.now }
    ensures { IsTrue result ↔ IsBadIn pool.now.entries.now arguments code.now instrs.now }
{
    if has_few_locals(code, arguments) {
        return true;
    }
    has_bad_instr(pool, code, places, instrs)
        || has_bad_handler(pool, code, places, code.handlers.as_slice())
}

/// Whether a code has fewer locals than the arguments take.
fn has_few_locals(code: &Code, arguments: u32) -> bool
    ensures { IsTrue result ↔ (code.now.max_locals < arguments) }
{
    u32::from(code.max_locals) < arguments
}

/// What a code says whose instructions are these.
fn judge_instrs(
    alloc: Global,
    pool: &KnownPool,
    code: &Code,
    instrs: &[Instr],
    arguments: u32,
) -> Result<CodeJudgment, OutOfMemory>
    requires known { IsKnown pool.now }
    requires reading { IsReading code.now instrs.now }
    ensures { IfOk result (λ j. IsJudgment pool.now.entries.now arguments code.now j) }
{
    let places = places_of(alloc, code.code.len(), instrs)?;
    Ok(CodeJudgment {
        has_float: has_float(pool.entries, instrs),
        has_subroutine: false,
        has_monitor: false,
        loads_class: has_class(pool.entries, instrs),
        is_bad: is_bad_code(pool, code, places.as_slice(), instrs, arguments),
    })
}

/// What a code says that is refused with this error, and may have too few locals.
fn judge_error(e: CodeError, few: bool) -> Result<CodeJudgment, OutOfMemory>
    ensures judgment { IfOk result (λ j. j ≡ refused_judgment e few) }
    ensures memory { IfOk result (λ _. IsMemoryError e → ⊥) }
    ensures only_memory { IfErr result (λ _. IsMemoryError e) }
{
    let judgment = CodeJudgment {
        has_float: matches!(e, CodeError::FloatOpcode(_)),
        has_subroutine: matches!(e, CodeError::Subroutine(_)),
        has_monitor: matches!(e, CodeError::Monitor(_)),
        loads_class: false,
        is_bad: few,
    };
    match e {
        CodeError::OutOfMemory => Err(OutOfMemory),
        CodeError::FloatOpcode(_) | CodeError::Subroutine(_) | CodeError::Monitor(_) => {
            Ok(judgment)
        }
        _ => Ok(CodeJudgment {
            is_bad: true,
            ..judgment
        }),
    }
}

/// What a code says, whose method's arguments take so many slots. The code is decoded once.
pub(crate) fn judge_code(
    alloc: Global,
    pool: &KnownPool,
    code: &Code,
    arguments: u32,
) -> Result<CodeJudgment, OutOfMemory>
    requires known { IsKnown pool.now }
    requires short { length code.now.code < 2 ^ 16 }
    ensures { IfOk result (λ j. IsJudgment pool.now.entries.now arguments code.now j) }
{
    match decode(alloc, code.code.as_slice()) {
        Ok(instrs) => judge_instrs(alloc, pool, code, instrs.as_slice(), arguments),
        Err(e) => judge_error(e, has_few_locals(code, arguments)),
    }
}
