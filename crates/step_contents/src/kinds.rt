//! Which of the step crates does an instruction.

ghost use Rattle.std.specs.Prelude.{◌≡◌};
ghost use Rattle.jk_model_heap_rows.specs.HeapRows.{heap_opcodes};
ghost use Rattle.step_contents.specs.InstructionKinds.{HasRow, IsOfKind, access_opcodes};
ghost use Rattle.step_contents.specs.OpcodeTests.{is_listed};
ghost use Rattle.step_contents.specs.StandingFrames.{place_of};

use crate::operands::text_of;
use crate::places::StandsAt;
use jk_model::opcodes::{
    AALOAD, AASTORE, ARRAYLENGTH, BASTORE, GETFIELD, GETSTATIC, IALOAD, IASTORE, INSTANCEOF,
    INVOKEINTERFACE, INVOKEVIRTUAL, LALOAD, LASTORE, LDC_W, MULTIANEWARRAY, NEW, PUTFIELD, SALOAD,
    SASTORE,
};

/// What an instruction works on.
#[derive(Clone, Copy, Debug, PartialEq, Eq)]
pub enum Kind {
    /// Numbers, locals and the operand stack alone.
    Numbers,
    /// Objects, static fields and literals.
    Heap,
    /// A method that it calls.
    Call,
}

/// What the instruction works on at which a frame stands.
#[inline(always)]
pub fn kind_of(at: &StandsAt<'_>) -> Kind
    requires { HasRow (place_of at.now) }
    ensures { IsOfKind (place_of at.now) result }
{
    match at.instr.op {
        LDC_W => match text_of(at) {
            Some(_) => Kind::Heap,
            None => Kind::Numbers,
        },
        INVOKEVIRTUAL..=INVOKEINTERFACE => Kind::Call,
        op => {
            if works_on_heap(op) {
                Kind::Heap
            } else {
                Kind::Numbers
            }
        }
    }
}

/// Whether an opcode is that of an access: it loads an element of an array or stores a number into one, takes an array's length, or
/// gets or puts a field of an object.
#[inline(always)]
pub fn is_access(op: u8) -> bool
    ensures { result ≡ is_listed access_opcodes op }
{
    matches!(
        op,
        IALOAD..=LALOAD
            | AALOAD..=SALOAD
            | IASTORE..=LASTORE
            | BASTORE..=SASTORE
            | GETFIELD..=PUTFIELD
            | ARRAYLENGTH
    )
}

/// Whether an opcode other than that of ldc works on objects or static fields.
#[inline(always)]
fn works_on_heap(op: u8) -> bool
    ensures { result ≡ is_listed heap_opcodes op }
{
    matches!(
        op,
        IALOAD..=LALOAD
            | AALOAD..=SALOAD
            | IASTORE..=LASTORE
            | AASTORE..=SASTORE
            | GETSTATIC..=PUTFIELD
            | NEW..=INSTANCEOF
            | MULTIANEWARRAY
    )
}
