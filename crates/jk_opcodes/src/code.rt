//! Instructions one after another.

ghost use Rattle.std.specs.Prelude.{◌≡◌, ℕ, ◌<◌, ◌⊎◌, ◌^◌, List, length, MatchResult, IfOk, Err};
ghost use Rattle.jk_model.specs.declared.instructions.Instr.{Instr};
ghost use Rattle.jk_model.specs.Instructions.{Decodes, Fault, HasFault, IsCutAt};
ghost use Rattle.jk_opcodes.specs.Errors.{error_of};
ghost use Rattle.jk_opcodes.specs.Formats.{format_view, IsSwitch, BeginsWithSwitch};
ghost use Rattle.jk_opcodes.specs.Reading.{GivesInMemory};
ghost use Rattle.jk_opcodes.specs.Steps.{step_of, step_at};
ghost use Rattle.jk_opcodes.specs.Answer.{IsAnswer};

use crate::errors::{CodeError, StepError, Stop};
use crate::formats::{Format, format_of};
use crate::plain::{
    array_of_kind, byte_constant, byte_index, far_jump, increment, interface_call, jump,
    many_dimensions, plain, short_constant, short_index, wide,
};
use crate::switches::{lookup_switch, table_switch};
use jk_model::opcodes::LDC_W;
use jk_model::{Instr, List};
use std::alloc::Global;

/// The instruction of this format, whose operands are in front. That of a switch alone takes memory.
fn step_of(
    alloc: Global,
    format: Format,
    at: u32,
    op: u8,
    after: &[u8],
) -> Result<(Instr, &[u8]), StepError>
    requires { at < 2 ^ 16 }
    ensures gives { GivesInMemory (λ x. (x.0, x.1.now)) result (step_of (format_view format) at op after.now) }
    ensures memory { result ≡ Err StepError.Memory → IsSwitch (format_view format) }
{
    match format {
        Format::AsIs => Ok((plain(alloc, at, op, 0, 0), after)),
        Format::Short(long, first) => {
            let a = i32::from(op) - i32::from(first);
            Ok((plain(alloc, at, long, a, 0), after))
        }
        Format::ByteConstant => Ok(byte_constant(alloc, at, after)?),
        Format::ShortConstant => Ok(short_constant(alloc, at, after)?),
        Format::LocalIndex => Ok(byte_index(alloc, at, op, after)?),
        Format::BytePoolIndex => Ok(byte_index(alloc, at, LDC_W, after)?),
        Format::PoolIndex => Ok(short_index(alloc, at, op, after)?),
        Format::Increment => Ok(increment(alloc, at, op, after)?),
        Format::Jump => Ok(jump(alloc, at, op, after)?),
        Format::FarJump => Ok(far_jump(alloc, at, after)?),
        Format::InterfaceCall => Ok(interface_call(alloc, at, op, after)?),
        Format::ArrayOfKind => Ok(array_of_kind(alloc, at, op, after)?),
        Format::ManyDimensions => Ok(many_dimensions(alloc, at, op, after)?),
        Format::TableSwitch => table_switch(alloc, at, op, after),
        Format::LookupSwitch => lookup_switch(alloc, at, op, after),
        Format::Wide => Ok(wide(alloc, at, after)?),
        Format::Float => Err(StepError::Stop(Stop::FloatOpcode)),
        Format::Subroutine => Err(StepError::Stop(Stop::Subroutine)),
        Format::Monitor => Err(StepError::Stop(Stop::Monitor)),
        Format::NoOpcode => Err(StepError::Stop(Stop::IllegalOpcode)),
    }
}

/// The instruction in front, which stands at this place of the code, and the bytes after it.
fn step(alloc: Global, at: u32, bytes: &[u8]) -> Result<(Instr, &[u8]), StepError>
    requires { at < 2 ^ 16 }
    ensures gives { GivesInMemory (λ x. (x.0, x.1.now)) result (step_at at bytes.now) }
    ensures memory { result ≡ Err StepError.Memory → BeginsWithSwitch bytes.now }
{
    match bytes {
        [] => Err(StepError::Stop(Stop::CutInstruction)),
        [op, after @ ..] => step_of(alloc, format_of(*op), at, *op, after),
    }
}

/// The instructions of a code, or where it stops being one.
fn read(alloc: Global, code: &[u8]) -> Result<List<Instr>, CodeError>
    requires { length code.now < 2 ^ 16 }
    ensures { IsAnswer code.now result }
{
    let mut instrs = List::new(alloc);
    let mut rest = code;
    while !rest.is_empty() {
        let place = (code.len() - rest.len()) as u32;
        match step(alloc, place, rest) {
            Ok((instr, after)) => {
                instrs.push(instr)?;
                rest = after;
            }
            Err(e) => return Err(e.at(place)),
        }
    }
    Ok(instrs)
}

/// The instructions of a code of up to 65,535 bytes, one after the other, in time linear in its
/// bytes.
///
/// A short form is decoded as its long form, and a jump to the place that it leads to. The
/// instructions on float and double, on subroutines and on monitors are refused. Bytes are judged as
/// they are met: an opcode that isn't allowed speaks before its operands are missed, and so do a bad
/// count of `invokeinterface`, a lowest key above the highest, a negative number of pairs and a key
/// that doesn't rise (the Java Virtual Machine Specification, chapter 6).
pub fn decode(alloc: Global, code: &[u8]) -> Result<List<Instr>, CodeError>
    requires { length code.now < 2 ^ 16 }
    ensures read { IfOk result (λ instrs. Decodes code.now instrs) }
    // A code has one reading, and it is found unless memory runs out.
    ensures only { (instrs : List Instr) → Decodes code.now instrs
        → MatchResult result (λ found. found ≡ instrs) (λ e. e ≡ CodeError.OutOfMemory) }

    ensures fault { (f : Fault) (place : ℕ) → result ≡ Err (error_of f place) → HasFault code.now f place }
    ensures only_fault { (f : Fault) (place : ℕ) → HasFault code.now f place
        → MatchResult result (λ _. ⊥) (λ e. (e ≡ error_of f place) ⊎ (e ≡ CodeError.OutOfMemory)) }

    ensures cut { (place : ℕ) → result ≡ Err (CodeError.CutInstruction place) → IsCutAt code.now place }
    ensures only_cut { (place : ℕ) → IsCutAt code.now place
        → MatchResult result (λ _. ⊥) (λ e. (e ≡ CodeError.CutInstruction place) ⊎ (e ≡ CodeError.OutOfMemory)) }
{
    read(alloc, code)
}
