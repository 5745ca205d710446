//! What an opcode means, and which operands stand after it.

ghost use Rattle.std.specs.Prelude.{◌≡◌, ◌≤◌, ◌<◌};
ghost use Rattle.jk_opcodes.specs.Formats.{format_view, wide_view, constant_format, local_format, number_format, other_format, format_at, wide_format_at};

use jk_model::opcodes::{
    AALOAD, AASTORE, ACONST_NULL, ALOAD, ALOAD_0, ALOAD_3, ANEWARRAY, ARETURN, ARRAYLENGTH, ASTORE,
    ASTORE_0, ASTORE_3, ATHROW, BIPUSH, CHECKCAST, D2F, DADD, DCMPG, DCONST_1, DDIV, DLOAD, DMUL,
    DNEG, DREM, DRETURN, DSTORE, DSUB, FADD, FCMPL, FCONST_0, FDIV, FLOAD, FMUL, FNEG, FREM,
    FRETURN, FSTORE, FSUB, GETSTATIC, GOTO, GOTO_W, I2D, I2F, IALOAD, IASTORE, ICONST_0, ICONST_5,
    ICONST_M1, IFEQ, IFNONNULL, IFNULL, IINC, ILOAD, ILOAD_0, ILOAD_3, INSTANCEOF, INVOKEINTERFACE,
    INVOKESTATIC, IRETURN, ISTORE, ISTORE_0, ISTORE_3, JSR, JSR_W, L2F, LALOAD, LASTORE, LCONST_0,
    LCONST_1, LDC, LDC2_W, LLOAD, LLOAD_0, LLOAD_3, LOOKUPSWITCH, LRETURN, LSTORE, LSTORE_0,
    LSTORE_3, MONITORENTER, MONITOREXIT, MULTIANEWARRAY, NEW, NEWARRAY, NOP, POP, RET, RETURN,
    SALOAD, SASTORE, SIPUSH, TABLESWITCH, WIDE,
};

/// The format of an instruction, as its opcode tells it: what it means, and which operands it has.
#[derive(Clone, Copy, Debug)]
pub enum Format {
    /// Itself, without operands.
    AsIs,
    /// The first opcode, with its own opcode less the second as the constant or local.
    Short(u8, u8),
    ByteConstant,
    ShortConstant,
    LocalIndex,
    BytePoolIndex,
    PoolIndex,
    Increment,
    Jump,
    FarJump,
    InterfaceCall,
    ArrayOfKind,
    ManyDimensions,
    TableSwitch,
    LookupSwitch,
    Wide,
    Float,
    Subroutine,
    Monitor,
    NoOpcode,
}

/// What an opcode after `wide` means.
#[derive(Clone, Copy, Debug)]
pub enum WideFormat {
    Local,
    Increment,
    Float,
    Subroutine,
    NotWide,
}

/// nop and the constants.
#[tactic(auto, unfolding(crate::specs::Formats::constant_format))]
fn constant_format(op: u8) -> Format
    ensures { format_view result ≡ constant_format op }
{
    match op {
        NOP..=ACONST_NULL => Format::AsIs,
        ICONST_M1..=ICONST_5 => Format::Short(SIPUSH, ICONST_0),
        LCONST_0..=LCONST_1 => Format::Short(LCONST_0, LCONST_0),
        FCONST_0..=DCONST_1 => Format::Float,
        BIPUSH => Format::ByteConstant,
        SIPUSH => Format::ShortConstant,
        LDC => Format::BytePoolIndex,
        _ => Format::PoolIndex,
    }
}

/// Loads and stores, of locals and of arrays.
#[tactic(auto, unfolding(crate::specs::Formats::local_format))]
fn local_format(op: u8) -> Format
    ensures { format_view result ≡ local_format op }
{
    match op {
        ILOAD | LLOAD | ALOAD | ISTORE | LSTORE | ASTORE => Format::LocalIndex,
        ILOAD_0..=ILOAD_3 => Format::Short(ILOAD, ILOAD_0),
        LLOAD_0..=LLOAD_3 => Format::Short(LLOAD, LLOAD_0),
        ALOAD_0..=ALOAD_3 => Format::Short(ALOAD, ALOAD_0),
        ISTORE_0..=ISTORE_3 => Format::Short(ISTORE, ISTORE_0),
        LSTORE_0..=LSTORE_3 => Format::Short(LSTORE, LSTORE_0),
        ASTORE_0..=ASTORE_3 => Format::Short(ASTORE, ASTORE_0),
        IALOAD | LALOAD | AALOAD..=SALOAD | IASTORE | LASTORE | AASTORE..=SASTORE => Format::AsIs,
        _ => Format::Float,
    }
}

/// The operand stack, arithmetic and conversions.
#[tactic(auto, unfolding(crate::specs::Formats::number_format))]
fn number_format(op: u8) -> Format
    ensures { format_view result ≡ number_format op }
{
    match op {
        IINC => Format::Increment,
        FADD..=DADD | FSUB..=DSUB | FMUL..=DMUL | FDIV..=DDIV => Format::Float,
        FREM..=DREM | FNEG..=DNEG | I2F..=I2D => Format::Float,
        L2F..=D2F | FCMPL..=DCMPG => Format::Float,
        _ => Format::AsIs,
    }
}

/// Jumps, returns, members, objects, and what is left.
#[tactic(auto, unfolding(crate::specs::Formats::other_format))]
fn other_format(op: u8) -> Format
    ensures { format_view result ≡ other_format op }
{
    match op {
        IFEQ..=GOTO | IFNULL..=IFNONNULL => Format::Jump,
        JSR..=RET | JSR_W => Format::Subroutine,
        TABLESWITCH => Format::TableSwitch,
        LOOKUPSWITCH => Format::LookupSwitch,
        FRETURN..=DRETURN => Format::Float,
        IRETURN..=LRETURN | ARETURN..=RETURN | ARRAYLENGTH..=ATHROW => Format::AsIs,
        GETSTATIC..=INVOKESTATIC | NEW | ANEWARRAY | CHECKCAST..=INSTANCEOF => Format::PoolIndex,
        INVOKEINTERFACE => Format::InterfaceCall,
        NEWARRAY => Format::ArrayOfKind,
        MONITORENTER..=MONITOREXIT => Format::Monitor,
        WIDE => Format::Wide,
        MULTIANEWARRAY => Format::ManyDimensions,
        GOTO_W => Format::FarJump,
        _ => Format::NoOpcode,
    }
}

/// The format that an opcode tells.
#[tactic(auto, unfolding(crate::specs::Formats::format_at))]
pub fn format_of(op: u8) -> Format
    ensures { format_view result ≡ format_at op }
{
    match op {
        NOP..=LDC2_W => constant_format(op),
        ILOAD..=SASTORE => local_format(op),
        POP..=DCMPG => number_format(op),
        _ => other_format(op),
    }
}

/// What an opcode after `wide` means.
#[tactic(auto, unfolding(crate::specs::Formats::wide_format_at))]
pub fn wide_format_of(op: u8) -> WideFormat
    ensures { wide_view result ≡ wide_format_at op }
{
    match op {
        ILOAD | LLOAD | ALOAD | ISTORE | LSTORE | ASTORE => WideFormat::Local,
        FLOAD | DLOAD | FSTORE | DSTORE => WideFormat::Float,
        IINC => WideFormat::Increment,
        RET => WideFormat::Subroutine,
        _ => WideFormat::NotWide,
    }
}
