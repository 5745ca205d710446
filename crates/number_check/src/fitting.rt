//! Tests of what the definitions ask before an instruction is done: values of the types that typing has, opcodes that are those
//! of numbers, and keys that rise.

ghost use Rattle.std.specs.Prelude.{◌≡◌, ℕ, ℤ, IsTrue, Some, pos, slice_get};
ghost use Rattle.jk_model.specs.Instructions.{Rises};
ghost use Rattle.jk_model_classes.specs.declared.records.Link.TheVariants as To;
ghost use Rattle.jk_model_typing.specs.Scopes.{CodeScope};
ghost use Rattle.jk_model_domains.specs.NumberRows.{IsOfNumbers, number_opcodes};
ghost use Rattle.jk_model_domains.specs.ValueTypes.{EachValueFits, ValueFits};
ghost use Rattle.number_ops.specs.Operands.{keys_of};
ghost use Rattle.number_ops.specs.Parts.{is_in};
ghost use Rattle.number_check.specs.RunFrames.{HEAP};

use jk_model::opcodes::{
    ACONST_NULL, ALOAD, ARETURN, ASTORE, GOTO, I2B, I2L, IFEQ, IFNONNULL, IFNULL, ISTORE, L2I,
    LCMP, LCONST_0, LDC_W, LDC2_W, LLOAD, LRETURN, LSTORE, NOP, POP, RETURN, SIPUSH, TABLESWITCH,
};
use jk_model::{ClassId, Instr, SwitchCase, Value};
use jk_model_classes::{BaseRef, Link, TypeRef};
use jk_model_typing::VType;

/// java/lang/Object.
pub(crate) const OBJECT: TypeRef = TypeRef {
    dims: 0,
    base: BaseRef::Class(ClassId(0)),
};

/// jk/Capability.
pub(crate) const CAPABILITY: TypeRef = TypeRef {
    dims: 0,
    base: BaseRef::Class(ClassId(11)),
};

/// Whether two types are one.
fn is_one_type(t: TypeRef, u: TypeRef) -> bool
    ensures { IsTrue result → t ≡ u }
{
    t == u
}

/// Whether a reference fits the type of a class, where the heap has two objects of java/lang/Object, named 1 and 2.
fn refers_to(v: Value, t: TypeRef) -> bool
    ensures { IsTrue result → (s : CodeScope) → ValueFits s HEAP v (VType.Ref t) }
{
    match v {
        Value::Null => true,
        Value::Obj(1) => is_one_type(t, OBJECT),
        Value::Obj(2) => is_one_type(t, OBJECT),
        Value::Cap(_) => is_one_type(t, CAPABILITY),
        _ => false,
    }
}

/// Whether a value fits a type.
fn fits(v: Value, t: VType) -> bool
    ensures { IsTrue result → (s : CodeScope) → ValueFits s HEAP v t }
{
    match t {
        VType::Unusable => true,
        VType::Int => matches!(v, Value::Int(_)),
        VType::Long => matches!(v, Value::Long(_)),
        VType::Ref(t) => refers_to(v, t),
        _ => false,
    }
}

/// Whether there are as many values as types, and each fits the type at its place.
pub(crate) fn all_fit(values: &[Value], types: &[VType]) -> bool
    ensures { IsTrue result → (s : CodeScope) → EachValueFits s HEAP values.now types.now }
{
    let Some((v, more)) = values.split_first() else {
        return types.is_empty();
    };
    let Some((t, types)) = types.split_first() else {
        return false;
    };
    fits(*v, *t) && all_fit(more, types)
}

/// Whether an opcode is one of those on numbers. That of ldc isn't, since not every constant is a number.
fn is_number_opcode(op: u8) -> bool
    ensures { IsTrue result → IsTrue (is_in number_opcodes op) }
{
    match op {
        NOP..=ACONST_NULL => true,
        LCONST_0 => true,
        SIPUSH => true,
        LDC2_W..=LLOAD => true,
        ALOAD => true,
        ISTORE..=LSTORE => true,
        ASTORE => true,
        POP..=I2L => true,
        L2I => true,
        I2B..=LCMP => true,
        IFEQ..=GOTO => true,
        TABLESWITCH..=LRETURN => true,
        ARETURN..=RETURN => true,
        IFNULL..=IFNONNULL => true,
        _ => false,
    }
}

/// Whether the operand of an instruction leads to an int.
fn leads_to_int(links: &[Link], i: &Instr) -> bool
    ensures { IsTrue result → (n : ℤ) × (place : ℕ) × (i.now.a ≡ pos place) × (slice_get links.now place ≡ Some (To.Int n)) }
{
    let Ok(place) = usize::try_from(i.a) else {
        return false;
    };
    matches!(links.get(place), Some(Link::Int(_)))
}

/// Whether an instruction is one of those on numbers, where these are the links of its class.
pub(crate) fn is_of_numbers(links: &[Link], i: &Instr) -> bool
    ensures { IsTrue result → (s : CodeScope) → s.links ≡ links.now → IsOfNumbers s i.now }
{
    is_number_opcode(i.op) || (i.op == LDC_W && leads_to_int(links, i))
}

/// Whether each key is above the one before it.
pub(crate) fn keys_rise(cases: &[SwitchCase]) -> bool
    ensures { IsTrue result → Rises (keys_of cases.now) }
{
    let Some((first, more)) = cases.split_first() else {
        return true;
    };
    match more.first() {
        Some(next) => first.key < next.key && keys_rise(more),
        None => true,
    }
}
