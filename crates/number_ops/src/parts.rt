//! What kind of work an instruction on numbers is, by its opcode.

ghost use Rattle.std.specs.Prelude.{◌≡◌, IsTrue};
ghost use Rattle.number_ops.specs.Parts.{is_part, jump_part, local_part, number_part, part_at};

use jk_model::opcodes::{
    ACONST_NULL, ALOAD, ARETURN, ASTORE, GOTO, I2B, I2C, I2L, I2S, IADD, IAND, IDIV, IF_ACMPEQ,
    IF_ACMPNE, IF_ICMPEQ, IF_ICMPLE, IFEQ, IFLE, IFNONNULL, IFNULL, IINC, ILOAD, IMUL, INEG, IOR,
    IREM, IRETURN, ISHL, ISHR, ISTORE, ISUB, IUSHR, IXOR, L2I, LADD, LAND, LCMP, LCONST_0, LDC_W,
    LDC2_W, LDIV, LLOAD, LMUL, LNEG, LOOKUPSWITCH, LOR, LREM, LRETURN, LSHL, LSHR, LSTORE, LSUB,
    LUSHR, LXOR, NOP, POP, RETURN, SIPUSH, SWAP, TABLESWITCH,
};

/// Instructions of arithmetic.
#[derive(Clone, Copy)]
pub(crate) enum Arithmetic {
    Ints,
    IntDivision,
    Longs,
    LongDivision,
    LongShift,
    IntConversion,
    LongConversion,
    LongComparison,
}

/// Jumps, by what they ask.
#[derive(Clone, Copy)]
pub(crate) enum Jump {
    Zero,
    Ints,
    Same,
    Different,
    Null,
    NotNull,
    Always,
}

/// Instructions on numbers, locals and the stack.
#[derive(Clone, Copy)]
pub(crate) enum Part {
    Nothing,
    Constant,
    Load,
    Store,
    Move,
    Calculate(Arithmetic),
    Increment,
    Decide(Jump),
    Switch,
    ReturnValue,
    ReturnNothing,
    /// None of these.
    Other,
}

/// What kind of work an opcode asks for.
#[inline(always)]
pub(crate) fn part_of(op: u8) -> Part
    ensures { IsTrue (is_part op result) }
{
    part_at(op)
}

/// The kind of an opcode, by tests.
#[tactic(auto, unfolding(crate::specs::Parts::part_at))]
#[inline(always)]
fn part_at(op: u8) -> Part
    ensures { result ≡ part_at op }
{
    match op {
        NOP..=ASTORE => local_part(op),
        POP..=SWAP => Part::Move,
        IADD..=LCMP => number_part(op),
        IFEQ..=IFNONNULL => jump_part(op),
        _ => Part::Other,
    }
}

/// Constants, loads and stores.
#[tactic(auto, unfolding(crate::specs::Parts::local_part))]
#[inline(always)]
fn local_part(op: u8) -> Part
    ensures { result ≡ local_part op }
{
    match op {
        NOP => Part::Nothing,
        ACONST_NULL | LCONST_0 | SIPUSH | LDC_W | LDC2_W => Part::Constant,
        ILOAD | LLOAD | ALOAD => Part::Load,
        ISTORE | LSTORE | ASTORE => Part::Store,
        _ => Part::Other,
    }
}

/// Arithmetic.
#[tactic(auto, unfolding(crate::specs::Parts::number_part))]
#[inline(always)]
fn number_part(op: u8) -> Part
    ensures { result ≡ number_part op }
{
    match op {
        IADD | ISUB | IMUL | ISHL | ISHR | IUSHR | IAND | IOR | IXOR => {
            Part::Calculate(Arithmetic::Ints)
        }
        IDIV | IREM => Part::Calculate(Arithmetic::IntDivision),
        LADD | LSUB | LMUL | LAND | LOR | LXOR => Part::Calculate(Arithmetic::Longs),
        LDIV | LREM => Part::Calculate(Arithmetic::LongDivision),
        LSHL | LSHR | LUSHR => Part::Calculate(Arithmetic::LongShift),
        INEG | I2L | I2B | I2C | I2S => Part::Calculate(Arithmetic::IntConversion),
        LNEG | L2I => Part::Calculate(Arithmetic::LongConversion),
        LCMP => Part::Calculate(Arithmetic::LongComparison),
        IINC => Part::Increment,
        _ => Part::Other,
    }
}

/// Jumps, switches and returns.
#[tactic(auto, unfolding(crate::specs::Parts::jump_part))]
#[inline(always)]
fn jump_part(op: u8) -> Part
    ensures { result ≡ jump_part op }
{
    match op {
        IFEQ..=IFLE => Part::Decide(Jump::Zero),
        IF_ICMPEQ..=IF_ICMPLE => Part::Decide(Jump::Ints),
        IF_ACMPEQ => Part::Decide(Jump::Same),
        IF_ACMPNE => Part::Decide(Jump::Different),
        GOTO => Part::Decide(Jump::Always),
        TABLESWITCH | LOOKUPSWITCH => Part::Switch,
        IRETURN | LRETURN | ARETURN => Part::ReturnValue,
        RETURN => Part::ReturnNothing,
        IFNULL => Part::Decide(Jump::Null),
        IFNONNULL => Part::Decide(Jump::NotNull),
        _ => Part::Other,
    }
}
