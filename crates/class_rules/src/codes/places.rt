//! The places at which instructions begin, and whether an instruction leads to another.

ghost use Rattle.std.specs.Prelude.{◌≡◌, ℕ, ◌↔◌, ◌||◌, true, Some, slice_get, IsTrue, IfOk, length};
ghost use Rattle.jk_model.specs.declared.instructions.SwitchCase.{SwitchCase};
ghost use Rattle.jk_model_classes.specs.Items.{HasItem};
ghost use Rattle.jk_model_classes.specs.MemberCode.{is_jump, is_switch};
ghost use Rattle.class_rules.specs.Codes.{HasPlace, ArePlacesOf, IsBadBranch, LeadsOut, BeginWithin};

use jk_model::opcodes::{GOTO, IFEQ, IFNONNULL, IFNULL, LOOKUPSWITCH, TABLESWITCH};
use jk_model::{Instr, OutOfMemory, SwitchCase};
use std::alloc::Global;

/// A table of the bytes of a code of this length: whether an instruction begins at each.
pub(crate) fn places_of(
    alloc: Global,
    long: usize,
    instrs: &[Instr],
) -> Result<Vec<bool>, OutOfMemory>
    requires { BeginWithin long instrs.now }
    ensures { IfOk result (λ places. ArePlacesOf instrs.now places.items) }
{
    let mut places = vec![in alloc; false; long]?;
    for instr in instrs {
        places[instr.at as usize] = true;
    }
    Ok(places)
}

/// Whether a table has a true at a place.
pub(crate) fn is_marked(places: &[bool], i: usize) -> bool
    ensures { IsTrue result ↔ (slice_get places.now i ≡ Some true) }
{
    match places.get(i) {
        Some(begins) => *begins,
        None => false,
    }
}

/// Whether an instruction begins at a place.
fn is_place(places: &[bool], place: i32) -> bool
    ensures { IsTrue result ↔ HasPlace places.now place }
{
    place >= 0 && is_marked(places, place as usize)
}

/// A jump or a switch.
fn is_branch(op: u8) -> bool
    ensures { result ≡ (is_jump op || is_switch op) }
{
    matches!(
        op,
        IFEQ..=GOTO | TABLESWITCH | LOOKUPSWITCH | IFNULL | IFNONNULL
    )
}

/// Whether a case of a switch leads to where an instruction begins.
fn is_good_case(places: &[bool], case: &SwitchCase) -> bool
    ensures { IsTrue result ↔ HasPlace places.now case.now.target }
{
    is_place(places, case.target)
}

/// Whether some case of a switch leads to where no instruction begins.
fn has_bad_case(places: &[bool], cases: &[SwitchCase]) -> bool
    ensures { IsTrue result ↔ HasItem (λ (s : SwitchCase). HasPlace places.now s.target → ⊥) cases.now }
{
    for case in cases {
        if !is_good_case(places, case) {
            return true;
        }
    }
    false
}

/// Whether a jump or a switch leads to where an instruction begins, by its first operand.
fn is_good_target(places: &[bool], instr: &Instr) -> bool
    ensures { IsTrue result ↔ HasPlace places.now instr.now.a }
{
    is_place(places, instr.a)
}

/// Whether an instruction is a jump or a switch whose first operand leads to where none begins.
fn is_bad_branch(places: &[bool], instr: &Instr) -> bool
    ensures { IsTrue result ↔ IsBadBranch places.now instr.now }
{
    is_branch(instr.op) && !is_good_target(places, instr)
}

/// Whether an instruction leads to where none begins.
pub(crate) fn leads_out(places: &[bool], instr: &Instr) -> bool
    ensures { IsTrue result ↔ LeadsOut places.now instr.now }
{
    is_bad_branch(places, instr) || has_bad_case(places, instr.cases.as_slice())
}
