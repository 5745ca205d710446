//! The names of instructions, and which operands they have.

ghost use Rattle.std.specs.Prelude.{◌≡◌, map, option_map};
ghost use Rattle.asm_reader.specs.Mnemonics.{mnemonics, mnemonic_named};
ghost use Rattle.asm_reader.specs.Rows.{row_of};

use crate::items::MemberKind;
use jk_model::opcodes;

/// Which operands an instruction has.
#[derive(Clone, Copy, Debug, PartialEq, Eq)]
pub(crate) enum Operands {
    /// None.
    Nothing,
    /// A number of two bytes.
    Number,
    /// `int N`, or `text "T"`.
    SingleConstant,
    /// `long N`.
    WideConstant,
    /// The number of a local.
    Local,
    /// The number of a local, and a step.
    LocalAndStep,
    /// A label.
    Label,
    /// A class, a name and a descriptor.
    Member(MemberKind),
    /// A class.
    ClassName,
    /// The code of the type of an array's elements.
    ArrayKind,
    /// A class, and a number of dimensions.
    Dimensions,
    /// The label of the default, and keys with labels.
    Cases,
}

/// An instruction: its name, its opcode, and its operands.
#[derive(Clone, Copy, Debug)]
pub(crate) struct Mnemonic {
    pub name: &'static str,
    pub op: u8,
    pub operands: Operands,
}

/// A row of the table: a name, an opcode, the operands, and the kind of member that they name.
macro_rules! row {
    ($name:literal $op:ident $operands:ident) => {
        Mnemonic { name: $name, op: opcodes::$op, operands: Operands::$operands }
    };
    ($name:literal $op:ident $operands:ident $kind:ident) => {
        Mnemonic { name: $name, op: opcodes::$op, operands: Operands::$operands(MemberKind::$kind) }
    };
}

static MNEMONICS: [Mnemonic; 103] = [
    row!("nop" NOP Nothing),
    row!("aconst_null" ACONST_NULL Nothing),
    row!("lconst_0" LCONST_0 Nothing),
    row!("lconst_1" LCONST_1 Nothing),
    row!("sipush" SIPUSH Number),
    row!("ldc_w" LDC_W SingleConstant),
    row!("ldc2_w" LDC2_W WideConstant),
    row!("iload" ILOAD Local),
    row!("lload" LLOAD Local),
    row!("aload" ALOAD Local),
    row!("iaload" IALOAD Nothing),
    row!("laload" LALOAD Nothing),
    row!("aaload" AALOAD Nothing),
    row!("baload" BALOAD Nothing),
    row!("caload" CALOAD Nothing),
    row!("saload" SALOAD Nothing),
    row!("istore" ISTORE Local),
    row!("lstore" LSTORE Local),
    row!("astore" ASTORE Local),
    row!("iastore" IASTORE Nothing),
    row!("lastore" LASTORE Nothing),
    row!("aastore" AASTORE Nothing),
    row!("bastore" BASTORE Nothing),
    row!("castore" CASTORE Nothing),
    row!("sastore" SASTORE Nothing),
    row!("pop" POP Nothing),
    row!("pop2" POP2 Nothing),
    row!("dup" DUP Nothing),
    row!("dup_x1" DUP_X1 Nothing),
    row!("dup_x2" DUP_X2 Nothing),
    row!("dup2" DUP2 Nothing),
    row!("dup2_x1" DUP2_X1 Nothing),
    row!("dup2_x2" DUP2_X2 Nothing),
    row!("swap" SWAP Nothing),
    row!("iadd" IADD Nothing),
    row!("ladd" LADD Nothing),
    row!("isub" ISUB Nothing),
    row!("lsub" LSUB Nothing),
    row!("imul" IMUL Nothing),
    row!("lmul" LMUL Nothing),
    row!("idiv" IDIV Nothing),
    row!("ldiv" LDIV Nothing),
    row!("irem" IREM Nothing),
    row!("lrem" LREM Nothing),
    row!("ineg" INEG Nothing),
    row!("lneg" LNEG Nothing),
    row!("ishl" ISHL Nothing),
    row!("lshl" LSHL Nothing),
    row!("ishr" ISHR Nothing),
    row!("lshr" LSHR Nothing),
    row!("iushr" IUSHR Nothing),
    row!("lushr" LUSHR Nothing),
    row!("iand" IAND Nothing),
    row!("land" LAND Nothing),
    row!("ior" IOR Nothing),
    row!("lor" LOR Nothing),
    row!("ixor" IXOR Nothing),
    row!("lxor" LXOR Nothing),
    row!("iinc" IINC LocalAndStep),
    row!("i2l" I2L Nothing),
    row!("l2i" L2I Nothing),
    row!("i2b" I2B Nothing),
    row!("i2c" I2C Nothing),
    row!("i2s" I2S Nothing),
    row!("lcmp" LCMP Nothing),
    row!("ifeq" IFEQ Label),
    row!("ifne" IFNE Label),
    row!("iflt" IFLT Label),
    row!("ifge" IFGE Label),
    row!("ifgt" IFGT Label),
    row!("ifle" IFLE Label),
    row!("if_icmpeq" IF_ICMPEQ Label),
    row!("if_icmpne" IF_ICMPNE Label),
    row!("if_icmplt" IF_ICMPLT Label),
    row!("if_icmpge" IF_ICMPGE Label),
    row!("if_icmpgt" IF_ICMPGT Label),
    row!("if_icmple" IF_ICMPLE Label),
    row!("if_acmpeq" IF_ACMPEQ Label),
    row!("if_acmpne" IF_ACMPNE Label),
    row!("goto" GOTO Label),
    row!("switch" LOOKUPSWITCH Cases),
    row!("ireturn" IRETURN Nothing),
    row!("lreturn" LRETURN Nothing),
    row!("areturn" ARETURN Nothing),
    row!("return" RETURN Nothing),
    row!("getstatic" GETSTATIC Member Field),
    row!("putstatic" PUTSTATIC Member Field),
    row!("getfield" GETFIELD Member Field),
    row!("putfield" PUTFIELD Member Field),
    row!("invokevirtual" INVOKEVIRTUAL Member Method),
    row!("invokespecial" INVOKESPECIAL Member Method),
    row!("invokestatic" INVOKESTATIC Member Method),
    row!("invokeinterface" INVOKEINTERFACE Member InterfaceMethod),
    row!("new" NEW ClassName),
    row!("newarray" NEWARRAY ArrayKind),
    row!("anewarray" ANEWARRAY ClassName),
    row!("arraylength" ARRAYLENGTH Nothing),
    row!("athrow" ATHROW Nothing),
    row!("checkcast" CHECKCAST ClassName),
    row!("instanceof" INSTANCEOF ClassName),
    row!("multianewarray" MULTIANEWARRAY Dimensions),
    row!("ifnull" IFNULL Label),
    row!("ifnonnull" IFNONNULL Label),
];

/// The table, in the order of the opcodes.
fn table() -> &'static [Mnemonic]
    ensures { map row_of result.now ≡ mnemonics }
{
    &MNEMONICS
}

/// The instruction of this name.
pub(crate) fn mnemonic_named(name: &[u8]) -> Option<Mnemonic>
    ensures { option_map row_of result ≡ mnemonic_named name.now }
{
    table()
        .iter()
        .find(|mnemonic| mnemonic.name.as_bytes() == name)
        .copied()
}
