//! What an instruction's operands name: entries of the pool, locals, classes and members.

ghost use Rattle.std.specs.Prelude.{◌≡◌, ℕ, ◌↔◌, ◌<◌, ◌^◌, pos, MatchOption, IfSome, IsTrue};
ghost use Rattle.jk_model_classes.specs.MemberCode.{UsesEntry, LoadsFloat, HasBadEntry, is_of_local, is_of_long_local, HasBadLocal, MakesBadArray, CallsInit};
ghost use Rattle.class_rules.specs.Codes.{LoadsClassBy, IsOfKind, needed_kind, HasShapeDimensions, IsWrongArray, RefersToInit, MayNotNameInit};
ghost use Rattle.class_rules.specs.KnownPools.{IsKnown};

use crate::known_pool::KnownPool;
use crate::texts::{FieldShape, TextFacts, Word};
use jk_model::opcodes::{
    ALOAD, ANEWARRAY, ASTORE, CHECKCAST, GETSTATIC, IINC, ILOAD, INSTANCEOF, INVOKEINTERFACE,
    INVOKESTATIC, INVOKEVIRTUAL, ISTORE, LDC_W, LDC2_W, LLOAD, LSTORE, MULTIANEWARRAY, NEW,
    PUTFIELD,
};
use jk_model::{Instr, PoolEntry};

/// What kind of entry an instruction names.
#[derive(Clone, Copy)]
pub(crate) enum EntryKind {
    /// An int or a string.
    Constant,
    Long,
    Float,
    Double,
    Class,
    Field,
    Method,
    InterfaceMethod,
}

/// Whether an entry is of this kind.
fn is_of_kind(entry: &PoolEntry, kind: EntryKind) -> bool
    ensures { IsTrue result ↔ IsOfKind kind entry.now }
{
    match kind {
        EntryKind::Constant => matches!(entry, PoolEntry::Integer(_) | PoolEntry::Str(_)),
        EntryKind::Long => matches!(entry, PoolEntry::Long(_)),
        EntryKind::Float => matches!(entry, PoolEntry::Float(_)),
        EntryKind::Double => matches!(entry, PoolEntry::Double(_)),
        EntryKind::Class => matches!(entry, PoolEntry::Class(_)),
        EntryKind::Field => matches!(entry, PoolEntry::FieldRef(_, _)),
        EntryKind::Method => matches!(entry, PoolEntry::MethodRef(_, _)),
        EntryKind::InterfaceMethod => matches!(entry, PoolEntry::InterfaceMethodRef(_, _)),
    }
}

/// The first operand, as an index.
fn index_of(instr: &Instr) -> Option<usize>
    ensures is { MatchOption result ((i : ℕ) → instr.now.a ≡ pos i → ⊥) (λ i. instr.now.a ≡ pos i) }
    ensures small { IfSome result (λ i. i < 2 ^ 31) }
{
    if instr.a < 0 {
        None
    } else {
        Some(instr.a as usize)
    }
}

/// Whether the first operand is the index of an entry of this kind.
fn uses_entry(pool: &[PoolEntry], instr: &Instr, kind: EntryKind) -> bool
    ensures { IsTrue result ↔ UsesEntry (IsOfKind kind) pool.now instr.now }
{
    let Some(i) = index_of(instr) else {
        return false;
    };
    match pool.get(i) {
        Some(entry) => is_of_kind(entry, kind),
        None => false,
    }
}

/// Whether an instruction loads a constant of float or double.
pub(crate) fn loads_float(pool: &[PoolEntry], instr: &Instr) -> bool
    ensures { IsTrue result ↔ LoadsFloat pool.now instr.now }
{
    (instr.op == LDC_W && uses_entry(pool, instr, EntryKind::Float))
        || (instr.op == LDC2_W && uses_entry(pool, instr, EntryKind::Double))
}

/// Whether an instruction loads a class as a constant.
pub(crate) fn loads_class(pool: &[PoolEntry], instr: &Instr) -> bool
    ensures { IsTrue result ↔ LoadsClassBy pool.now instr.now }
{
    instr.op == LDC_W && uses_entry(pool, instr, EntryKind::Class)
}

/// The kind of entry that an instruction of this opcode needs.
#[tactic(auto, unfolding(crate::specs::Codes::needed_kind))]
fn needed_kind(op: u8) -> Option<EntryKind>
    ensures { result ≡ needed_kind op }
{
    match op {
        LDC_W => Some(EntryKind::Constant),
        LDC2_W => Some(EntryKind::Long),
        GETSTATIC..=PUTFIELD => Some(EntryKind::Field),
        INVOKEVIRTUAL..=INVOKESTATIC => Some(EntryKind::Method),
        INVOKEINTERFACE => Some(EntryKind::InterfaceMethod),
        NEW | ANEWARRAY | CHECKCAST | INSTANCEOF | MULTIANEWARRAY => Some(EntryKind::Class),
        _ => None,
    }
}

/// Whether the entry that an instruction needs is missing, or of another kind.
pub(crate) fn has_bad_entry(pool: &[PoolEntry], instr: &Instr) -> bool
    ensures { IsTrue result ↔ HasBadEntry pool.now instr.now }
{
    match needed_kind(instr.op) {
        Some(kind) => !uses_entry(pool, instr, kind),
        None => false,
    }
}

/// `iload`, `aload`, `istore`, `astore` and `iinc`.
fn is_of_local(op: u8) -> bool
    ensures { result ≡ is_of_local op }
{
    matches!(op, ILOAD | ALOAD | ISTORE | ASTORE | IINC)
}

/// `lload` and `lstore`.
fn is_of_long_local(op: u8) -> bool
    ensures { result ≡ is_of_long_local op }
{
    matches!(op, LLOAD | LSTORE)
}

/// Whether the local of an instruction, or the second half of a long's, isn't there.
pub(crate) fn has_bad_local(max_locals: u16, instr: &Instr) -> bool
    ensures { IsTrue result ↔ HasBadLocal max_locals instr.now }
{
    let Some(local) = index_of(instr) else {
        return false;
    };
    let end = usize::from(max_locals);
    (is_of_local(instr.op) && end <= local) || (is_of_long_local(instr.op) && end <= local + 1)
}

/// Whether a type is an array's with at least so many dimensions.
fn has_dimensions(field: Option<FieldShape>, n: i32) -> bool
    ensures { IsTrue result ↔ HasShapeDimensions field n }
{
    match field {
        Some(shape) => shape.dims >= 1 && i32::from(shape.dims) >= n,
        None => false,
    }
}

/// Whether a class of this name is wrong for an instruction that makes an array or an object of it.
fn is_wrong_array(instr: &Instr, name: TextFacts) -> bool
    ensures { IsTrue result ↔ IsWrongArray instr.now name }
{
    match instr.op {
        NEW => name.begins_array,
        MULTIANEWARRAY => !has_dimensions(name.field, instr.b),
        ANEWARRAY => has_dimensions(name.field, 255),
        _ => false,
    }
}

/// Whether an instruction makes an array of a class that isn't right for it, or an object of an array's.
pub(crate) fn makes_bad_array(pool: &KnownPool, instr: &Instr) -> bool
    requires { IsKnown pool.now }
    ensures { IsTrue result ↔ MakesBadArray pool.now.entries.now instr.now }
{
    let Some(i) = index_of(instr) else {
        return false;
    };
    match pool.class_name_at(i) {
        Some(name) => is_wrong_array(instr, name),
        None => false,
    }
}

/// Whether a reference to a member called `<init>` stands at an index.
fn refers_to_init(pool: &KnownPool, i: usize) -> bool
    requires { IsKnown pool.now }
    ensures { IsTrue result ↔ RefersToInit pool.now.entries.now i }
{
    let Some(entry) = pool.entry_at(i) else {
        return false;
    };
    match pool.reference(entry) {
        Some(reference) => reference.name.is(Word::Init),
        None => false,
    }
}

/// Whether an instruction of this opcode may name a member, but none called `<init>`.
fn may_not_name_init(op: u8) -> bool
    ensures { IsTrue result ↔ MayNotNameInit op }
{
    matches!(
        op,
        GETSTATIC..=INVOKEVIRTUAL | INVOKESTATIC | INVOKEINTERFACE
    )
}

/// Whether an instruction other than `invokespecial` names `<init>`.
pub(crate) fn calls_init(pool: &KnownPool, instr: &Instr) -> bool
    requires { IsKnown pool.now }
    ensures { IsTrue result ↔ CallsInit pool.now.entries.now instr.now }
{
    match index_of(instr) {
        Some(i) => may_not_name_init(instr.op) && refers_to_init(pool, i),
        None => false,
    }
}
