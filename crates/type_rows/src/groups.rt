//! Which instructions ask the same of a frame, and which go on elsewhere.

ghost use Rattle.std.specs.Prelude.{◌≡◌};
ghost use Rattle.jk_model_typing.specs.Groups.{group_of};
ghost use Rattle.jk_model_typing.specs.Typing.{is_store, leaves_line};
ghost use Rattle.type_rows.specs.OpcodeGroups.{element_group, group_at, group_view, jump_group, local_group, number_group, object_group, stack_group};

use crate::shapes::INT;
use crate::shapes::LONG;
use crate::shapes::THROWABLE;
use jk_model::opcodes::AALOAD;
use jk_model::opcodes::AASTORE;
use jk_model::opcodes::ACONST_NULL;
use jk_model::opcodes::ALOAD;
use jk_model::opcodes::ALOAD_3;
use jk_model::opcodes::ANEWARRAY;
use jk_model::opcodes::ARETURN;
use jk_model::opcodes::ARRAYLENGTH;
use jk_model::opcodes::ASTORE;
use jk_model::opcodes::ASTORE_3;
use jk_model::opcodes::ATHROW;
use jk_model::opcodes::BALOAD;
use jk_model::opcodes::BASTORE;
use jk_model::opcodes::CALOAD;
use jk_model::opcodes::CASTORE;
use jk_model::opcodes::CHECKCAST;
use jk_model::opcodes::DCMPG;
use jk_model::opcodes::DUP;
use jk_model::opcodes::DUP_X1;
use jk_model::opcodes::DUP_X2;
use jk_model::opcodes::DUP2;
use jk_model::opcodes::DUP2_X1;
use jk_model::opcodes::DUP2_X2;
use jk_model::opcodes::GETFIELD;
use jk_model::opcodes::GETSTATIC;
use jk_model::opcodes::GOTO;
use jk_model::opcodes::I2B;
use jk_model::opcodes::I2L;
use jk_model::opcodes::I2S;
use jk_model::opcodes::IADD;
use jk_model::opcodes::IALOAD;
use jk_model::opcodes::IAND;
use jk_model::opcodes::IASTORE;
use jk_model::opcodes::IDIV;
use jk_model::opcodes::IF_ACMPEQ;
use jk_model::opcodes::IF_ACMPNE;
use jk_model::opcodes::IF_ICMPEQ;
use jk_model::opcodes::IF_ICMPLE;
use jk_model::opcodes::IFEQ;
use jk_model::opcodes::IFLE;
use jk_model::opcodes::IFNONNULL;
use jk_model::opcodes::IFNULL;
use jk_model::opcodes::IINC;
use jk_model::opcodes::ILOAD;
use jk_model::opcodes::IMUL;
use jk_model::opcodes::INEG;
use jk_model::opcodes::INSTANCEOF;
use jk_model::opcodes::INVOKEINTERFACE;
use jk_model::opcodes::INVOKESPECIAL;
use jk_model::opcodes::INVOKESTATIC;
use jk_model::opcodes::INVOKEVIRTUAL;
use jk_model::opcodes::IOR;
use jk_model::opcodes::IREM;
use jk_model::opcodes::IRETURN;
use jk_model::opcodes::ISHL;
use jk_model::opcodes::ISHR;
use jk_model::opcodes::ISTORE;
use jk_model::opcodes::ISUB;
use jk_model::opcodes::IUSHR;
use jk_model::opcodes::IXOR;
use jk_model::opcodes::L2I;
use jk_model::opcodes::LADD;
use jk_model::opcodes::LALOAD;
use jk_model::opcodes::LAND;
use jk_model::opcodes::LASTORE;
use jk_model::opcodes::LCMP;
use jk_model::opcodes::LCONST_0;
use jk_model::opcodes::LDC_W;
use jk_model::opcodes::LDC2_W;
use jk_model::opcodes::LDIV;
use jk_model::opcodes::LLOAD;
use jk_model::opcodes::LMUL;
use jk_model::opcodes::LNEG;
use jk_model::opcodes::LOOKUPSWITCH;
use jk_model::opcodes::LOR;
use jk_model::opcodes::LREM;
use jk_model::opcodes::LRETURN;
use jk_model::opcodes::LSHL;
use jk_model::opcodes::LSHR;
use jk_model::opcodes::LSTORE;
use jk_model::opcodes::LSUB;
use jk_model::opcodes::LUSHR;
use jk_model::opcodes::LXOR;
use jk_model::opcodes::MULTIANEWARRAY;
use jk_model::opcodes::NEW;
use jk_model::opcodes::NEWARRAY;
use jk_model::opcodes::NOP;
use jk_model::opcodes::POP;
use jk_model::opcodes::POP2;
use jk_model::opcodes::PUTFIELD;
use jk_model::opcodes::PUTSTATIC;
use jk_model::opcodes::RETURN;
use jk_model::opcodes::SALOAD;
use jk_model::opcodes::SASTORE;
use jk_model::opcodes::SIPUSH;
use jk_model::opcodes::SWAP;
use jk_model::opcodes::TABLESWITCH;
use jk_model_classes::BaseRef;
use jk_model_classes::TypeRef;
use jk_model_typing::Demand;
use jk_model_typing::VType;

/// Which operands what an instruction does rests on, and what it does where it rests on none.
#[derive(Clone, Copy)]
pub(crate) enum Group {
    Fixed(Fixed),
    LoadsLocal(Demand),
    StoresLocal(Demand),
    IncrementsLocal,
    LoadsConstant,
    LoadsLong,
    Returns(Returned),
    UsesField(FieldUse),
    Calls(CallKind),
    NamesType(TypeUse),
    NoGroup,
}

/// What an instruction does that rests on its opcode alone.
#[derive(Clone, Copy)]
pub(crate) enum Fixed {
    /// Takes nothing, and pushes an entry, or none.
    TakesNone(Option<VType>),
    /// Takes entries that meet these demands, the last of them from the top, and pushes an entry, or none.
    TakesOne(Demand, Option<VType>),
    TakesTwo(Demand, Demand, Option<VType>),
    TakesThree(Demand, Demand, Demand),
    /// Takes so many slots.
    Drops(usize),
    /// Puts a copy of the topmost slots, as many as the second number says, below those before them, as many as the
    /// first says.
    Copies(usize, usize),
    Swaps,
    LoadsElement,
}

/// What a method answers at its end.
#[derive(Clone, Copy)]
pub(crate) enum Returned {
    Int,
    Long,
    Reference,
    Nothing,
}

/// What is done at a field.
#[derive(Clone, Copy)]
pub(crate) enum FieldUse {
    GetsStatic,
    PutsStatic,
    Gets,
    Puts,
}

/// How a method is called.
#[derive(Clone, Copy)]
pub(crate) enum CallKind {
    Virtual,
    Special,
    Static,
    Interface,
}

/// What is done with a type that an operand names.
#[derive(Clone, Copy)]
pub(crate) enum TypeUse {
    MakesObject,
    MakesArray,
    MakesArrays,
    Casts,
    Tests,
    MakesNumbers,
}

const ANY: Demand = Demand::AnyReference;

const INTS: Demand = Demand::Fitting(VType::Ref(TypeRef {
    dims: 1,
    base: BaseRef::Int,
}));

const LONGS: Demand = Demand::Fitting(VType::Ref(TypeRef {
    dims: 1,
    base: BaseRef::Long,
}));

const CHARS: Demand = Demand::Fitting(VType::Ref(TypeRef {
    dims: 1,
    base: BaseRef::Char,
}));

const SHORTS: Demand = Demand::Fitting(VType::Ref(TypeRef {
    dims: 1,
    base: BaseRef::Short,
}));

/// Byte and boolean are loaded and stored alike.
const BYTES: Demand = Demand::FittingEither(
    VType::Ref(TypeRef {
        dims: 1,
        base: BaseRef::Byte,
    }),
    VType::Ref(TypeRef {
        dims: 1,
        base: BaseRef::Bool,
    }),
);

const AN_INT: Option<VType> = Some(VType::Int);

const A_LONG: Option<VType> = Some(VType::Long);

/// Whether control doesn't go on from an instruction with this opcode to the next one.
pub fn leaves_line(op: u8) -> bool
    ensures { result ≡ leaves_line op }
{
    matches!(
        op,
        GOTO | TABLESWITCH | LOOKUPSWITCH | IRETURN..=RETURN | ATHROW
    )
}

/// Whether an instruction with this opcode puts something into a local.
pub fn is_store(op: u8) -> bool
    ensures { result ≡ is_store op }
{
    matches!(op, ISTORE | LSTORE | ASTORE | IINC)
}

/// The group of an instruction with this opcode.
pub(crate) fn group_of(op: u8) -> Group
    ensures { group_view result ≡ group_of op }
{
    group_at(op)
}

/// The group of an opcode, by tests.
#[tactic(auto, unfolding(crate::specs::OpcodeGroups::group_at))]
fn group_at(op: u8) -> Group
    ensures { group_view result ≡ group_at op }
{
    match op {
        POP..=SWAP => stack_group(op),
        IINC | NOP..=ALOAD_3 | ISTORE..=ASTORE_3 => local_group(op),
        IALOAD..=SASTORE => element_group(op),
        IADD..=DCMPG => number_group(op),
        IFEQ..=RETURN | ATHROW | IFNULL..=IFNONNULL => jump_group(op),
        _ => object_group(op),
    }
}

/// Constants, and loads and stores of locals.
#[tactic(auto, unfolding(crate::specs::OpcodeGroups::local_group))]
fn local_group(op: u8) -> Group
    ensures { group_view result ≡ local_group op }
{
    match op {
        NOP => Group::Fixed(Fixed::TakesNone(None)),
        ACONST_NULL => Group::Fixed(Fixed::TakesNone(Some(VType::Null))),
        LCONST_0 => Group::Fixed(Fixed::TakesNone(A_LONG)),
        SIPUSH => Group::Fixed(Fixed::TakesNone(AN_INT)),
        LDC_W => Group::LoadsConstant,
        LDC2_W => Group::LoadsLong,
        ILOAD => Group::LoadsLocal(INT),
        LLOAD => Group::LoadsLocal(LONG),
        ALOAD => Group::LoadsLocal(ANY),
        ISTORE => Group::StoresLocal(INT),
        LSTORE => Group::StoresLocal(LONG),
        ASTORE => Group::StoresLocal(ANY),
        IINC => Group::IncrementsLocal,
        _ => Group::NoGroup,
    }
}

/// Loads and stores of elements.
#[tactic(auto, unfolding(crate::specs::OpcodeGroups::element_group))]
fn element_group(op: u8) -> Group
    ensures { group_view result ≡ element_group op }
{
    match op {
        IALOAD => Group::Fixed(Fixed::TakesTwo(INTS, INT, AN_INT)),
        LALOAD => Group::Fixed(Fixed::TakesTwo(LONGS, INT, A_LONG)),
        AALOAD => Group::Fixed(Fixed::LoadsElement),
        BALOAD => Group::Fixed(Fixed::TakesTwo(BYTES, INT, AN_INT)),
        CALOAD => Group::Fixed(Fixed::TakesTwo(CHARS, INT, AN_INT)),
        SALOAD => Group::Fixed(Fixed::TakesTwo(SHORTS, INT, AN_INT)),
        IASTORE => Group::Fixed(Fixed::TakesThree(INTS, INT, INT)),
        LASTORE => Group::Fixed(Fixed::TakesThree(LONGS, INT, LONG)),
        AASTORE => Group::Fixed(Fixed::TakesThree(Demand::ReferenceArray, INT, Demand::Reference)),
        BASTORE => Group::Fixed(Fixed::TakesThree(BYTES, INT, INT)),
        CASTORE => Group::Fixed(Fixed::TakesThree(CHARS, INT, INT)),
        SASTORE => Group::Fixed(Fixed::TakesThree(SHORTS, INT, INT)),
        _ => Group::NoGroup,
    }
}

/// The operand stack.
#[tactic(auto, unfolding(crate::specs::OpcodeGroups::stack_group))]
fn stack_group(op: u8) -> Group
    ensures { group_view result ≡ stack_group op }
{
    match op {
        POP => Group::Fixed(Fixed::Drops(1)),
        POP2 => Group::Fixed(Fixed::Drops(2)),
        DUP => Group::Fixed(Fixed::Copies(0, 1)),
        DUP_X1 => Group::Fixed(Fixed::Copies(1, 1)),
        DUP_X2 => Group::Fixed(Fixed::Copies(2, 1)),
        DUP2 => Group::Fixed(Fixed::Copies(0, 2)),
        DUP2_X1 => Group::Fixed(Fixed::Copies(1, 2)),
        DUP2_X2 => Group::Fixed(Fixed::Copies(2, 2)),
        SWAP => Group::Fixed(Fixed::Swaps),
        _ => Group::NoGroup,
    }
}

/// Arithmetic and conversions.
#[tactic(auto, unfolding(crate::specs::OpcodeGroups::number_group))]
fn number_group(op: u8) -> Group
    ensures { group_view result ≡ number_group op }
{
    match op {
        IADD | ISUB | IMUL | IDIV | IREM | ISHL | ISHR | IUSHR | IAND | IOR | IXOR => {
            Group::Fixed(Fixed::TakesTwo(INT, INT, AN_INT))
        }
        LADD | LSUB | LMUL | LDIV | LREM | LAND | LOR | LXOR => {
            Group::Fixed(Fixed::TakesTwo(LONG, LONG, A_LONG))
        }
        LSHL | LSHR | LUSHR => Group::Fixed(Fixed::TakesTwo(LONG, INT, A_LONG)),
        INEG | I2B..=I2S => Group::Fixed(Fixed::TakesOne(INT, AN_INT)),
        LNEG => Group::Fixed(Fixed::TakesOne(LONG, A_LONG)),
        I2L => Group::Fixed(Fixed::TakesOne(INT, A_LONG)),
        L2I => Group::Fixed(Fixed::TakesOne(LONG, AN_INT)),
        LCMP => Group::Fixed(Fixed::TakesTwo(LONG, LONG, AN_INT)),
        _ => Group::NoGroup,
    }
}

/// Jumps and returns.
#[tactic(auto, unfolding(crate::specs::OpcodeGroups::jump_group))]
fn jump_group(op: u8) -> Group
    ensures { group_view result ≡ jump_group op }
{
    match op {
        IFEQ..=IFLE | TABLESWITCH..=LOOKUPSWITCH => Group::Fixed(Fixed::TakesOne(INT, None)),
        IF_ICMPEQ..=IF_ICMPLE => Group::Fixed(Fixed::TakesTwo(INT, INT, None)),
        IF_ACMPEQ..=IF_ACMPNE => Group::Fixed(Fixed::TakesTwo(ANY, ANY, None)),
        GOTO => Group::Fixed(Fixed::TakesNone(None)),
        IRETURN => Group::Returns(Returned::Int),
        LRETURN => Group::Returns(Returned::Long),
        ARETURN => Group::Returns(Returned::Reference),
        RETURN => Group::Returns(Returned::Nothing),
        ATHROW => Group::Fixed(Fixed::TakesOne(Demand::Fitting(THROWABLE), None)),
        IFNULL..=IFNONNULL => Group::Fixed(Fixed::TakesOne(ANY, None)),
        _ => Group::NoGroup,
    }
}

/// Fields, methods, objects and arrays.
#[tactic(auto, unfolding(crate::specs::OpcodeGroups::object_group))]
fn object_group(op: u8) -> Group
    ensures { group_view result ≡ object_group op }
{
    match op {
        GETSTATIC => Group::UsesField(FieldUse::GetsStatic),
        PUTSTATIC => Group::UsesField(FieldUse::PutsStatic),
        GETFIELD => Group::UsesField(FieldUse::Gets),
        PUTFIELD => Group::UsesField(FieldUse::Puts),
        INVOKEVIRTUAL => Group::Calls(CallKind::Virtual),
        INVOKESPECIAL => Group::Calls(CallKind::Special),
        INVOKESTATIC => Group::Calls(CallKind::Static),
        INVOKEINTERFACE => Group::Calls(CallKind::Interface),
        NEW => Group::NamesType(TypeUse::MakesObject),
        NEWARRAY => Group::NamesType(TypeUse::MakesNumbers),
        ANEWARRAY => Group::NamesType(TypeUse::MakesArray),
        ARRAYLENGTH => Group::Fixed(Fixed::TakesOne(Demand::Array, AN_INT)),
        CHECKCAST => Group::NamesType(TypeUse::Casts),
        INSTANCEOF => Group::NamesType(TypeUse::Tests),
        MULTIANEWARRAY => Group::NamesType(TypeUse::MakesArrays),
        _ => Group::NoGroup,
    }
}
