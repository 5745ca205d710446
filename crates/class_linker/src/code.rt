//! Codes with places of instructions in place of those of bytes.

ghost use Rattle.std.specs.Prelude.{◌≡◌, ◌≢◌, ℕ, ◌<◌, ◌||◌, IfOk, IsTrue, None, Some, length, not, pos, slice_get};
ghost use Rattle.jk_model.specs.declared.class_file.Handler.{Handler};
ghost use Rattle.jk_model.specs.declared.identifiers.ClassId.{ClassId};
ghost use Rattle.jk_model.specs.declared.instructions.SwitchCase.{SwitchCase};
ghost use Rattle.jk_model_classes.specs.ClassNames.{NamesClass};
ghost use Rattle.jk_model_classes.specs.LinkRules.{LinkScope};
ghost use Rattle.jk_model_classes.specs.MemberCode.{is_jump, is_switch};
ghost use Rattle.jk_model_folders.specs.LinkedClasses.{GoAlong, IsCaseFor, IsCaughtFor, IsEndFor, IsInstrFor, IsLinkedCode, IsPlaceOf};
ghost use Rattle.class_linker.specs.KnownCodes.{AreInOrder, HasEnd, HasPlace, HasPlaces, IsDecodable, IsGoodCode, IsReading, LeadWithin, LeadsWithin};
ghost use Rattle.class_linker.specs.LinkedFiles.{HasNames};
ghost use Rattle.class_linker.specs.Scopes.{IsScope};
ghost use Rattle.class_linker.specs.TextsSaid.{NamesClassBy};

use crate::scope::Scope;
use jk_model::opcodes::{GOTO, IFEQ, IFNONNULL, IFNULL, LOOKUPSWITCH, TABLESWITCH};
use jk_model::{ClassId, Code, Handler, Instr, List, OutOfMemory, SwitchCase};
use jk_model_classes::{Caught, LinkedCode};
use jk_opcodes::{CodeError, decode};
use std::alloc::Global;

/// Why a code isn't decoded that has a reading.
fn only_memory(e: CodeError) -> OutOfMemory
    requires { e ≡ CodeError.OutOfMemory }
{
    match e {
        CodeError::OutOfMemory => OutOfMemory,
        _ => unreachable!(),
    }
}

/// The instructions of a code.
fn decoded(alloc: Global, code: &Code) -> Result<List<Instr>, OutOfMemory>
    requires { IsDecodable code.now }
    ensures { IfOk result (IsReading code.now) }
{
    match decode(alloc, code.code.as_slice()) {
        Ok(instrs) => Ok(instrs),
        Err(e) => Err(only_memory(e)),
    }
}

/// The place of the instruction that begins at a byte.
fn place_at(instrs: &[Instr], byte: u32) -> u32
    requires order { AreInOrder instrs.now }
    requires there { HasPlace instrs.now (pos byte) }
    ensures place { IsPlaceOf instrs.now (pos byte) result }
    ensures within { result < length instrs.now }
{
    match instrs.binary_search_by(|instr| instr.at.cmp(&byte)) {
        Ok(place) => place as u32,
        Err(_) => unreachable!(),
    }
}

/// The place of the instruction to which a jump or a case leads.
fn target_at(instrs: &[Instr], target: i32) -> i32
    requires order { AreInOrder instrs.now }
    requires there { HasPlace instrs.now target }
    ensures { (n : ℕ) × IsPlaceOf instrs.now target n × (result ≡ pos n) }
{
    if target < 0 {
        unreachable!()
    }
    place_at(instrs, target as u32) as i32
}

/// A jump or a switch, whose first operand is a place.
fn is_branch(op: u8) -> bool
    ensures { result ≡ (is_jump op || is_switch op) }
{
    matches!(
        op,
        IFEQ..=GOTO | TABLESWITCH | LOOKUPSWITCH | IFNULL | IFNONNULL
    )
}

/// The first operand of an instruction.
fn first_operand(instrs: &[Instr], instr: &Instr) -> i32
    requires order { AreInOrder instrs.now }
    requires leads { LeadsWithin instrs.now instr.now }
    ensures leads { IsTrue (is_jump instr.now.op || is_switch instr.now.op) → (n : ℕ) × IsPlaceOf instrs.now instr.now.a n × (result ≡ pos n) }
    ensures names { IsTrue (not (is_jump instr.now.op || is_switch instr.now.op)) → result ≡ instr.now.a }
{
    if is_branch(instr.op) {
        target_at(instrs, instr.a)
    } else {
        instr.a
    }
}

/// A case of a switch.
fn linked_case(instrs: &[Instr], case: SwitchCase) -> SwitchCase
    requires order { AreInOrder instrs.now }
    requires leads { HasPlace instrs.now case.target }
    ensures { IsCaseFor instrs.now case result }
{
    SwitchCase {
        key: case.key,
        target: target_at(instrs, case.target),
    }
}

/// The cases of a switch, in their order.
fn linked_cases(
    alloc: Global,
    instrs: &[Instr],
    cases: &[SwitchCase],
) -> Result<List<SwitchCase>, OutOfMemory>
    requires order { AreInOrder instrs.now }
    requires leads { (i : ℕ) (s : SwitchCase) → slice_get cases.now i ≡ Some s → HasPlace instrs.now s.target }
    ensures { IfOk result (λ list. GoAlong (IsCaseFor instrs.now) cases.now list) }
{
    let mut linked = List::new(alloc);
    for case in cases {
        linked.push(linked_case(instrs, *case))?;
    }
    Ok(linked)
}

/// An instruction.
fn linked_instr(alloc: Global, instrs: &[Instr], instr: &Instr) -> Result<Instr, OutOfMemory>
    requires order { AreInOrder instrs.now }
    requires leads { LeadsWithin instrs.now instr.now }
    ensures { IfOk result (IsInstrFor instrs.now instr.now) }
{
    let a = first_operand(instrs, instr);
    let cases = linked_cases(alloc, instrs, instr.cases.as_slice())?;
    Ok(Instr {
        at: instr.at,
        op: instr.op,
        a,
        b: instr.b,
        cases,
    })
}

/// The instructions of a code, in their order.
fn linked_instrs(alloc: Global, instrs: &[Instr]) -> Result<List<Instr>, OutOfMemory>
    requires order { AreInOrder instrs.now }
    requires leads { LeadWithin instrs.now }
    ensures { IfOk result (λ list. GoAlong (IsInstrFor instrs.now) instrs.now list) }
{
    let mut linked = List::new(alloc);
    for instr in instrs {
        linked.push(linked_instr(alloc, instrs, instr)?)?;
    }
    Ok(linked)
}

/// Where a catch entry ends: at an instruction, or at the end of the code.
fn end_at(code: &Code, instrs: &[Instr], end: u16) -> u32
    requires order { AreInOrder instrs.now }
    requires there { HasEnd code.now instrs.now end }
    ensures { IsEndFor code.now instrs.now end result }
{
    if usize::from(end) == code.code.len() {
        instrs.len() as u32
    } else {
        place_at(instrs, u32::from(end))
    }
}

/// What a catch entry catches; nothing stands for all.
fn caught_class(scope: &Scope, index: u16) -> Option<ClassId>
    requires scope { IsScope scope.now }
    requires named { index ≢ 0 → (NamesClass scope.now.file.now.pool index → ⊥) → ⊥ }
    ensures any { index ≡ 0 → result ≡ None }
    ensures class { index ≢ 0 → (class : ClassId) × NamesClassBy scope.now.names.now scope.now.file.now.pool index class × (result ≡ Some class) }
{
    if index == 0 {
        None
    } else {
        Some(scope.class(index))
    }
}

/// A catch entry.
fn caught(scope: &Scope, code: &Code, instrs: &[Instr], handler: Handler) -> Caught
    requires scope { IsScope scope.now }
    requires order { AreInOrder instrs.now }
    requires places { HasPlaces scope.now.file.now.pool code.now instrs.now handler }
    ensures { (s : LinkScope) → HasNames scope.now.names.now s → IsCaughtFor s scope.now.file.now code.now instrs.now handler result }
{
    Caught {
        start: place_at(instrs, u32::from(handler.start)),
        end: end_at(code, instrs, handler.end),
        handler: place_at(instrs, u32::from(handler.handler)),
        class: caught_class(scope, handler.catch),
    }
}

/// The catch entries of a code, in their order.
fn linked_handlers(
    scope: &Scope,
    code: &Code,
    instrs: &[Instr],
) -> Result<List<Caught>, OutOfMemory>
    requires scope { IsScope scope.now }
    requires order { AreInOrder instrs.now }
    requires places { (i : ℕ) (h : Handler) → slice_get code.now.handlers i ≡ Some h → HasPlaces scope.now.file.now.pool code.now instrs.now h }
    ensures { IfOk result (λ list. (s : LinkScope) → HasNames scope.now.names.now s
        → GoAlong (IsCaughtFor s scope.now.file.now code.now instrs.now) code.now.handlers list) }
{
    let mut linked = List::new(scope.alloc);
    for handler in code.handlers.as_slice() {
        linked.push(caught(scope, code, instrs, *handler))?;
    }
    Ok(linked)
}

/// The code of a method.
pub(crate) fn linked_code(scope: &Scope, code: &Code) -> Result<LinkedCode, OutOfMemory>
    requires scope { IsScope scope.now }
    requires good { IsGoodCode scope.now.file.now.pool code.now }
    ensures { IfOk result (λ l. (s : LinkScope) → HasNames scope.now.names.now s → IsLinkedCode s scope.now.file.now code.now l) }
{
    let decoded = decoded(scope.alloc, code)?;
    let instrs = linked_instrs(scope.alloc, decoded.as_slice())?;
    let handlers = linked_handlers(scope, code, decoded.as_slice())?;
    Ok(LinkedCode {
        max_stack: code.max_stack,
        max_locals: code.max_locals,
        instrs,
        handlers,
    })
}
