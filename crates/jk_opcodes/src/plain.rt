//! The instructions without cases. Reading one takes no memory.

ghost use Rattle.std.specs.Prelude.{◌≡◌, ℕ, ◌<◌, ◌^◌, pos, length};
ghost use Rattle.jk_model.specs.Instructions.{plain, target};
ghost use Rattle.jk_opcodes.specs.Formats.{wide_view};
ghost use Rattle.jk_opcodes.specs.Reading.{Gives};
ghost use Rattle.jk_opcodes.specs.Plain.{byte_constant_at, short_constant_at, byte_index_at, short_index_at, increment_at, jump_at, far_jump_at, interface_call_at, array_of_kind_at, many_dimensions_at, wide_increment_at, widened_at, wide_at};

use crate::errors::Stop;
use crate::formats::{WideFormat, wide_format_of};
use crate::operands::int_of;
use byte_fields::{u1_of, u2_of};
use jk_model::opcodes::{GOTO, SIPUSH};
use jk_model::{Instr, List};
use std::alloc::Global;

/// An instruction without cases.
pub fn plain(alloc: Global, at: u32, op: u8, a: i32, b: i32) -> Instr
    ensures { result ≡ plain at op a b }
{
    Instr {
        at,
        op,
        a,
        b,
        cases: List::new(alloc),
    }
}

/// Where an offset leads from a place: -1 where that is no place of a code.
pub fn target(at: u32, offset: i32) -> i32
    requires { at < 2 ^ 16 }
    ensures { result ≡ target at offset }
{
    let place = i64::from(at) + i64::from(offset);
    if 0 <= place && place <= 65535 {
        place as i32
    } else {
        -1
    }
}

/// `sipush`, with a constant of one byte.
#[tactic(auto, unfolding(crate::specs::Plain::byte_constant_at))]
pub fn byte_constant(alloc: Global, at: u32, after: &[u8]) -> Result<(Instr, &[u8]), Stop>
    ensures { Gives (λ x. (x.0, x.1.now)) result (byte_constant_at at after.now) }
{
    let (constant, rest) = u1_of(after)?;
    let constant = i32::from(constant.cast_signed());
    Ok((plain(alloc, at, SIPUSH, constant, 0), rest))
}

/// `sipush`, with a constant of two bytes.
#[tactic(auto, unfolding(crate::specs::Plain::short_constant_at))]
pub fn short_constant(alloc: Global, at: u32, after: &[u8]) -> Result<(Instr, &[u8]), Stop>
    ensures { Gives (λ x. (x.0, x.1.now)) result (short_constant_at at after.now) }
{
    let (constant, rest) = u2_of(after)?;
    let constant = i32::from(constant.cast_signed());
    Ok((plain(alloc, at, SIPUSH, constant, 0), rest))
}

/// This opcode, with a local or pool index of one byte.
#[tactic(auto, unfolding(crate::specs::Plain::byte_index_at))]
pub fn byte_index(alloc: Global, at: u32, op: u8, after: &[u8]) -> Result<(Instr, &[u8]), Stop>
    ensures { Gives (λ x. (x.0, x.1.now)) result (byte_index_at at op after.now) }
{
    let (index, rest) = u1_of(after)?;
    Ok((plain(alloc, at, op, i32::from(index), 0), rest))
}

/// This opcode, with a local or pool index of two bytes.
#[tactic(auto, unfolding(crate::specs::Plain::short_index_at))]
pub fn short_index(alloc: Global, at: u32, op: u8, after: &[u8]) -> Result<(Instr, &[u8]), Stop>
    ensures { Gives (λ x. (x.0, x.1.now)) result (short_index_at at op after.now) }
{
    let (index, rest) = u2_of(after)?;
    Ok((plain(alloc, at, op, i32::from(index), 0), rest))
}

/// `iinc`: a local and a signed step, of one byte each.
#[tactic(auto, unfolding(crate::specs::Plain::increment_at))]
pub fn increment(alloc: Global, at: u32, op: u8, after: &[u8]) -> Result<(Instr, &[u8]), Stop>
    ensures { Gives (λ x. (x.0, x.1.now)) result (increment_at at op after.now) }
{
    let (local, rest) = u1_of(after)?;
    let (step, rest) = u1_of(rest)?;
    let step = i32::from(step.cast_signed());
    Ok((plain(alloc, at, op, i32::from(local), step), rest))
}

/// A jump, with a signed offset of two bytes.
#[tactic(auto, unfolding(crate::specs::Plain::jump_at))]
pub fn jump(alloc: Global, at: u32, op: u8, after: &[u8]) -> Result<(Instr, &[u8]), Stop>
    requires { at < 2 ^ 16 }
    ensures { Gives (λ x. (x.0, x.1.now)) result (jump_at at op after.now) }
{
    let (offset, rest) = u2_of(after)?;
    let offset = i32::from(offset.cast_signed());
    Ok((plain(alloc, at, op, target(at, offset), 0), rest))
}

/// `goto`, with a signed offset of four bytes.
#[tactic(auto, unfolding(crate::specs::Plain::far_jump_at))]
pub fn far_jump(alloc: Global, at: u32, after: &[u8]) -> Result<(Instr, &[u8]), Stop>
    requires { at < 2 ^ 16 }
    ensures { Gives (λ x. (x.0, x.1.now)) result (far_jump_at at after.now) }
{
    let (offset, rest) = int_of(after)?;
    Ok((plain(alloc, at, GOTO, target(at, offset), 0), rest))
}

/// `invokeinterface`: a pool index of two bytes, a count above 0, and a byte 0.
#[tactic(auto, unfolding(crate::specs::Plain::interface_call_at))]
pub fn interface_call(alloc: Global, at: u32, op: u8, after: &[u8]) -> Result<(Instr, &[u8]), Stop>
    ensures { Gives (λ x. (x.0, x.1.now)) result (interface_call_at at op after.now) }
{
    let (index, rest) = u2_of(after)?;
    let (count, rest) = u1_of(rest)?;
    if count == 0 {
        return Err(Stop::BadOperand);
    }
    let (last, rest) = u1_of(rest)?;
    if last != 0 {
        return Err(Stop::BadOperand);
    }
    Ok((plain(alloc, at, op, i32::from(index), 0), rest))
}

/// `newarray`: the code of what the elements are.
#[tactic(auto, unfolding(crate::specs::Plain::array_of_kind_at))]
pub fn array_of_kind(alloc: Global, at: u32, op: u8, after: &[u8]) -> Result<(Instr, &[u8]), Stop>
    ensures { Gives (λ x. (x.0, x.1.now)) result (array_of_kind_at at op after.now) }
{
    let (kind, rest) = u1_of(after)?;
    match kind {
        4 | 5 | 8..=11 => Ok((plain(alloc, at, op, i32::from(kind), 0), rest)),
        6 | 7 => Err(Stop::FloatOpcode),
        _ => Err(Stop::BadOperand),
    }
}

/// `multianewarray`: a pool index of two bytes, and a number of dimensions above 0.
#[tactic(auto, unfolding(crate::specs::Plain::many_dimensions_at))]
pub fn many_dimensions(alloc: Global, at: u32, op: u8, after: &[u8]) -> Result<(Instr, &[u8]), Stop>
    ensures { Gives (λ x. (x.0, x.1.now)) result (many_dimensions_at at op after.now) }
{
    let (index, rest) = u2_of(after)?;
    let (dimensions, rest) = u1_of(rest)?;
    if dimensions == 0 {
        return Err(Stop::BadOperand);
    }
    let index = i32::from(index);
    Ok((plain(alloc, at, op, index, i32::from(dimensions)), rest))
}

/// `iinc` after `wide`: a local and a signed step, of two bytes each.
#[tactic(auto, unfolding(crate::specs::Plain::wide_increment_at))]
fn wide_increment(alloc: Global, at: u32, op: u8, after: &[u8]) -> Result<(Instr, &[u8]), Stop>
    ensures { Gives (λ x. (x.0, x.1.now)) result (wide_increment_at at op after.now) }
{
    let (local, rest) = u2_of(after)?;
    let (step, rest) = u2_of(rest)?;
    let step = i32::from(step.cast_signed());
    Ok((plain(alloc, at, op, i32::from(local), step), rest))
}

/// An opcode of this format after `wide`, with operands of two bytes each.
fn widened(
    alloc: Global,
    format: WideFormat,
    at: u32,
    op: u8,
    after: &[u8],
) -> Result<(Instr, &[u8]), Stop>
    ensures { Gives (λ x. (x.0, x.1.now)) result (widened_at (wide_view format) at op after.now) }
{
    match format {
        WideFormat::Local => short_index(alloc, at, op, after),
        WideFormat::Increment => wide_increment(alloc, at, op, after),
        WideFormat::Float => Err(Stop::FloatOpcode),
        WideFormat::Subroutine => Err(Stop::Subroutine),
        WideFormat::NotWide => Err(Stop::BadOperand),
    }
}

/// `wide`: another opcode, with operands of two bytes each.
#[tactic(auto, unfolding(crate::specs::Plain::wide_at))]
pub fn wide(alloc: Global, at: u32, after: &[u8]) -> Result<(Instr, &[u8]), Stop>
    ensures { Gives (λ x. (x.0, x.1.now)) result (wide_at at after.now) }
{
    let (op, rest) = u1_of(after)?;
    widened(alloc, wide_format_of(op), at, op, rest)
}
