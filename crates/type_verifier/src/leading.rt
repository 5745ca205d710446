//! Finds the leaders of a code.

ghost use Rattle.std.specs.Prelude.{◌≡◌, ℕ, ◌+◌, ◌<◌, ◌^◌, ◌||◌, Contains, IfOk, Some, length, pos, slice_get};
ghost use Rattle.jk_model.specs.declared.instructions.Instr.{Instr as AnInstr};
ghost use Rattle.jk_model.specs.declared.instructions.SwitchCase.{SwitchCase as ACase};
ghost use Rattle.jk_model_classes.specs.declared.records.Caught.{Caught as ACaught};
ghost use Rattle.jk_model_classes.specs.Items.{HasItem};
ghost use Rattle.jk_model_classes.specs.MemberCode.{is_jump, is_switch};
ghost use Rattle.type_verifier.specs.Leaders.{AreLeaders};
ghost use Rattle.type_verifier.specs.Marks.{IsEntryMarked, IsInstrMarked, IsMarked, KeepsMarks};

use jk_model::opcodes::{
    GOTO, IFEQ, IFNONNULL, IFNULL, INVOKESPECIAL, LOOKUPSWITCH, NEW, TABLESWITCH,
};
use jk_model::{Instr, OutOfMemory, SwitchCase};
use jk_model_classes::{Caught, LinkedCode};
use std::alloc::Global;

/// Whether a place is a leader, for each place of a code: the first one, targets of jumps and cases, handlers, the first place
/// that a catch entry covers and the first after those that it covers, and those after `new` and after a constructor's call.
/// It takes time in proportion to the instructions, cases and entries.
pub(crate) fn leaders(alloc: Global, code: &LinkedCode) -> Result<Vec<bool>, OutOfMemory>
    ensures { IfOk result (λ leads. AreLeaders code.now leads.items) }
{
    let mut leads = vec![in alloc; false; code.instrs.len()]?;
    mark_leaders(leads.as_mut_slice(), code);
    Ok(leads)
}

/// Marks the leaders of a code, among as many places as it has instructions.
fn mark_leaders(leads: &mut [bool], code: &LinkedCode)
    requires { length leads.old ≡ length code.now.instrs }
    ensures { AreLeaders code.now leads.new }
{
    mark(leads, 0);
    mark_instrs(leads, code.instrs.as_slice());
    mark_entries(leads, code.handlers.as_slice());
}

/// Marks a place, where it is one.
fn mark(leads: &mut [bool], place: usize)
    ensures kept { KeepsMarks leads.old leads.new }
    ensures marked { IsMarked leads.new place }
{
    if place < leads.len() {
        leads[place] = true;
    }
}

/// Marks the place where a jump or a case leads.
fn mark_target(leads: &mut [bool], target: i32)
    ensures kept { KeepsMarks leads.old leads.new }
    ensures marked { (next : ℕ) → pos next ≡ target → IsMarked leads.new next }
{
    if target >= 0 {
        mark(leads, target as usize);
    }
}

/// Marks where the cases of a switch lead.
fn mark_cases(leads: &mut [bool], cases: &[SwitchCase])
    ensures kept { KeepsMarks leads.old leads.new }
    ensures marked { (next : ℕ) → HasItem (λ (s : ACase). pos next ≡ s.target) cases.now → IsMarked leads.new next }
{
    for case in cases {
        mark_target(leads, case.target);
    }
}

/// Whether an instruction with this opcode is a jump or a switch, whose first operand is a target.
pub(crate) fn is_branch(op: u8) -> bool
    ensures { result ≡ (is_jump op || is_switch op) }
{
    matches!(
        op,
        IFEQ..=GOTO | TABLESWITCH | LOOKUPSWITCH | IFNULL | IFNONNULL
    )
}

/// Marks where an instruction leads, and the place after it where locals change there that it doesn't name.
fn mark_instr(leads: &mut [bool], place: usize, i: &Instr)
    requires { place + 1 < 2 ^ 64 }
    ensures kept { KeepsMarks leads.old leads.new }
    ensures marked { IsInstrMarked leads.new place i.now }
{
    if is_branch(i.op) {
        mark_target(leads, i.a);
    }
    mark_cases(leads, i.cases.as_slice());
    if i.op == NEW || i.op == INVOKESPECIAL {
        mark(leads, place + 1);
    }
}

/// Marks what each instruction asks for.
fn mark_instrs(leads: &mut [bool], instrs: &[Instr])
    ensures kept { KeepsMarks leads.old leads.new }
    ensures marked { (place : ℕ) (i : AnInstr) → slice_get instrs.now place ≡ Some i → IsInstrMarked leads.new place i }
{
    for (place, i) in instrs.iter().enumerate() {
        mark_instr(leads, place, i);
    }
}

/// Marks where a catch entry begins and ends to cover, and where it goes on.
fn mark_entry(leads: &mut [bool], h: &Caught)
    ensures kept { KeepsMarks leads.old leads.new }
    ensures marked { IsEntryMarked leads.new h.now }
{
    mark(leads, h.handler as usize);
    mark(leads, h.start as usize);
    mark(leads, h.end as usize);
}

/// Marks what each catch entry asks for.
fn mark_entries(leads: &mut [bool], handlers: &[Caught])
    ensures kept { KeepsMarks leads.old leads.new }
    ensures marked { (h : ACaught) → Contains handlers.now h → IsEntryMarked leads.new h }
{
    for h in handlers {
        mark_entry(leads, h);
    }
}
