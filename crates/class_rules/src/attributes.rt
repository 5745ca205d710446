//! The rule C9 on the attributes of a class, of a field and of a method.

ghost use Rattle.std.specs.Prelude.{◌≡◌, ℕ, ◌↔◌, ◌<◌, ◌⊎◌, ◌^◌, IsTrue, IfOk, IfSome, MatchOption, Some, length};
ghost use Rattle.jk_model.specs.declared.class_file.Code.{Code};
ghost use Rattle.jk_model.specs.ClassFile.{u2, IsU2, IsClassEntry, CodeLayout, NamesEntry};
ghost use Rattle.jk_model_classes.specs.Items.{HasItem, HasTwoItems};
ghost use Rattle.jk_model_classes.specs.MemberAttributes.{HasUnnamed, IsConstant, HasBadConstant, IsBadCode, AreThrown};
ghost use Rattle.class_rules.specs.Attributes.{IsUnnamed, IsCalledBy, IsOfConstantKind, IsBadConstant, HasWrongConstant, HasBadFieldAttributes, CountFlags, needs_code, LacksCode, HasUselessCode, IsCodeMissed, AreClasses, AreAllClasses, AreBadExceptions, HasWrongExceptions, HasWrongCode, HasBadMethodAttributes, AreShort};
ghost use Rattle.class_rules.specs.declared.texts.Kind.{Kind};
ghost use Rattle.class_rules.specs.KnownPools.{IsKnown};
ghost use Rattle.class_rules.specs.Texts.{AreFacts};

use crate::known_pool::KnownPool;
use crate::texts::{FieldShape, Kind, TextFacts, Word};
use byte_fields::{ReadError, U2, counted_of, u2_of};
use class_reader::{CodeRefusal, read_code};
use jk_model::{AccessFlags, Attribute, ClassFile, Code, MemberInfo, OutOfMemory, PoolEntry, has};
use std::alloc::Global;

/// Whether the name of an attribute is no text.
fn is_unnamed(pool: &[PoolEntry], a: &Attribute) -> bool
    ensures { IsTrue result ↔ IsUnnamed pool.now a.now }
{
    !matches!(pool.get(usize::from(a.name)), Some(PoolEntry::Utf8(_)))
}

/// Whether some attribute has no name.
pub(crate) fn has_unnamed(pool: &[PoolEntry], attributes: &[Attribute]) -> bool
    ensures { IsTrue result ↔ HasUnnamed pool.now attributes.now }
{
    for a in attributes {
        if is_unnamed(pool, a) {
            return true;
        }
    }
    false
}

/// Whether the name of an attribute is this word.
pub(crate) fn is_called(pool: &KnownPool, word: Word, a: &Attribute) -> bool
    requires { IsKnown pool.now }
    ensures { IsTrue result ↔ IsCalledBy pool.now.entries.now word a.now }
{
    pool.is_word(a.name, word)
}

/// Whether some attribute is called so.
fn some_called(pool: &KnownPool, word: Word, attributes: &[Attribute]) -> bool
    requires { IsKnown pool.now }
    ensures { IsTrue result ↔ HasItem (IsCalledBy pool.now.entries.now word) attributes.now }
{
    for a in attributes {
        if is_called(pool, word, a) {
            return true;
        }
    }
    false
}

/// Whether two attributes are called so.
fn two_called(pool: &KnownPool, word: Word, attributes: &[Attribute]) -> bool
    requires { IsKnown pool.now }
    ensures { IsTrue result ↔ HasTwoItems (IsCalledBy pool.now.entries.now word) attributes.now }
{
    let mut seen = false;
    for a in attributes {
        if is_called(pool, word, a) {
            if seen {
                return true;
            }
            seen = true;
        }
    }
    false
}

/// Whether an entry is a constant of this kind.
fn is_of_kind(kind: Kind, entry: &PoolEntry) -> bool
    ensures { IsTrue result ↔ IsOfConstantKind kind entry.now }
{
    match kind {
        Kind::Int => matches!(entry, PoolEntry::Integer(_)),
        Kind::Long => matches!(entry, PoolEntry::Long(_)),
        Kind::Text => matches!(entry, PoolEntry::Str(_)),
        Kind::Float | Kind::Double | Kind::Other => false,
    }
}

/// Whether an entry of this kind of constant stands at an index.
fn names_constant(pool: &[PoolEntry], kind: Kind, i: u16) -> bool
    ensures { IsTrue result ↔ NamesEntry (IsOfConstantKind kind) pool.now i }
{
    match pool.get(usize::from(i)) {
        Some(entry) => is_of_kind(kind, entry),
        None => false,
    }
}

/// The index that two bytes are.
fn index_of(body: &[u8]) -> Option<u16>
    ensures { MatchOption result ((i : ℕ) → IsU2 i → body.now ≡ u2 i → ⊥) (λ i. IsU2 i × (body.now ≡ u2 i)) }
{
    let Ok((i, rest)) = u2_of(body) else {
        return None;
    };
    if rest.is_empty() { Some(i) } else { None }
}

/// The kind of constant that a type which is no array needs.
fn constant_kind(field: Option<FieldShape>) -> Option<Kind>
    ensures { MatchOption result
        ((kind : Kind) → field ≡ Some (record { dims = 0; kind = kind }) → ⊥)
        (λ kind. field ≡ Some (record { dims = 0; kind = kind })) }
{
    match field {
        Some(shape) => {
            if shape.dims == 0 {
                Some(shape.kind)
            } else {
                None
            }
        }
        None => None,
    }
}

/// Whether a body is that of a ConstantValue of this field.
fn is_constant(pool: &KnownPool, field: &MemberInfo, body: &[u8]) -> bool
    requires { IsKnown pool.now }
    ensures { IsTrue result ↔ IsConstant pool.now.entries.now field.now body.now }
{
    let Some(descriptor) = pool.text(field.descriptor) else {
        return false;
    };
    let Some(kind) = constant_kind(descriptor.field) else {
        return false;
    };
    match index_of(body) {
        Some(i) => names_constant(pool.entries, kind, i),
        None => false,
    }
}

/// Whether an attribute is a ConstantValue whose body is none.
fn is_bad_constant(pool: &KnownPool, field: &MemberInfo, a: &Attribute) -> bool
    requires { IsKnown pool.now }
    ensures { IsTrue result ↔ IsBadConstant pool.now.entries.now field.now a.now }
{
    is_called(pool, Word::ConstantValue, a) && !is_constant(pool, field, a.body.as_slice())
}

/// Whether some attribute is a ConstantValue whose body is none.
fn some_bad_constant(pool: &KnownPool, field: &MemberInfo, attributes: &[Attribute]) -> bool
    requires { IsKnown pool.now }
    ensures { IsTrue result ↔ HasItem (IsBadConstant pool.now.entries.now field.now) attributes.now }
{
    for a in attributes {
        if is_bad_constant(pool, field, a) {
            return true;
        }
    }
    false
}

/// Whether of these attributes of a field two are ConstantValues, or one is a bad one.
fn has_wrong_constant(pool: &KnownPool, field: &MemberInfo, attributes: &[Attribute]) -> bool
    requires { IsKnown pool.now }
    ensures { IsTrue result ↔ HasWrongConstant pool.now.entries.now field.now attributes.now }
{
    two_called(pool, Word::ConstantValue, attributes) || some_bad_constant(pool, field, attributes)
}

/// Whether a static field has two ConstantValues, or a bad one.
fn has_bad_constant(pool: &KnownPool, field: &MemberInfo) -> bool
    requires { IsKnown pool.now }
    ensures { IsTrue result ↔ HasBadConstant pool.now.entries.now field.now }
{
    has(field.flags, AccessFlags::STATIC)
        && has_wrong_constant(pool, field, field.attributes.as_slice())
}

/// Whether a field breaks C9.
pub(crate) fn has_bad_field_attributes(pool: &KnownPool, field: &MemberInfo) -> bool
    requires { IsKnown pool.now }
    ensures { IsTrue result ↔ HasBadFieldAttributes pool.now.entries.now field.now }
{
    has_unnamed(pool.entries, field.attributes.as_slice()) || has_bad_constant(pool, field)
}

/// The flags that count of a method.
pub(crate) fn method_flags(pool: &KnownPool, method: &MemberInfo) -> u16
    requires { IsKnown pool.now }
    ensures { CountFlags pool.now.entries.now method.now result }
{
    if pool.is_word(method.name, Word::Clinit) {
        AccessFlags::STATIC.0
    } else {
        method.flags
    }
}

/// Whether a method with these flags has to have code.
pub(crate) fn needs_code(flags: u16) -> bool
    ensures { result ≡ needs_code flags }
{
    !has(flags, AccessFlags::ABSTRACT) && !has(flags, AccessFlags::NATIVE)
}

/// Whether there isn't exactly one Code.
fn lacks_code(pool: &KnownPool, attributes: &[Attribute]) -> bool
    requires { IsKnown pool.now }
    ensures { IsTrue result ↔ LacksCode pool.now.entries.now attributes.now }
{
    !some_called(pool, Word::Code, attributes) || two_called(pool, Word::Code, attributes)
}

/// Whether the method is abstract and there is a Code.
fn has_useless_code(pool: &KnownPool, flags: u16, attributes: &[Attribute]) -> bool
    requires { IsKnown pool.now }
    ensures { IsTrue result ↔ HasUselessCode pool.now.entries.now flags attributes.now }
{
    has(flags, AccessFlags::ABSTRACT) && some_called(pool, Word::Code, attributes)
}

/// Whether a method with these flags and attributes lacks its one Code, or has one where it is abstract.
fn misses_code(pool: &KnownPool, flags: u16, attributes: &[Attribute]) -> bool
    requires { IsKnown pool.now }
    ensures { IsTrue result ↔ IsCodeMissed pool.now.entries.now flags attributes.now }
{
    if needs_code(flags) {
        lacks_code(pool, attributes)
    } else {
        has_useless_code(pool, flags, attributes)
    }
}

/// What the body of a Code attribute says, where it is one.
pub(crate) fn code_of(alloc: Global, body: &[u8]) -> Result<Option<Code>, OutOfMemory>
    requires { length body.now < 2 ^ 31 }
    ensures layout { IfOk result (λ found. MatchOption found
        ((code : Code) → CodeLayout body.now code → ⊥)
        (λ code. CodeLayout body.now code)) }
    ensures only { IfOk result (λ found. IfSome found (λ code.
        (other : Code) → CodeLayout body.now other → code ≡ other)) }
{
    match read_code(alloc, body) {
        Ok(code) => Ok(Some(code)),
        Err(CodeRefusal::OutOfMemory) => Err(OutOfMemory),
        Err(CodeRefusal::Cut | CodeRefusal::Trailing(_) | CodeRefusal::CodeLength(_)) => Ok(None),
    }
}

/// Whether an attribute is a Code whose body is none, or has an attribute without a name.
fn is_bad_code(alloc: Global, pool: &KnownPool, a: &Attribute) -> Result<bool, OutOfMemory>
    requires known { IsKnown pool.now }
    requires short { length a.now.body < 2 ^ 31 }
    ensures { IfOk result (λ b. IsTrue b ↔ IsBadCode pool.now.entries.now a.now) }
{
    if !is_called(pool, Word::Code, a) {
        return Ok(false);
    }
    match code_of(alloc, a.body.as_slice())? {
        Some(code) => Ok(has_unnamed(pool.entries, code.attributes.as_slice())),
        None => Ok(true),
    }
}

/// Whether some attribute is a bad Code.
fn some_bad_code(
    alloc: Global,
    pool: &KnownPool,
    attributes: &[Attribute],
) -> Result<bool, OutOfMemory>
    requires known { IsKnown pool.now }
    requires short { AreShort attributes.now }
    ensures { IfOk result (λ b. IsTrue b ↔ HasItem (IsBadCode pool.now.entries.now) attributes.now) }
{
    for a in attributes {
        let is_bad = is_bad_code(alloc, pool, a)?;
        if is_bad {
            return Ok(true);
        }
    }
    Ok(false)
}

/// Whether all of these are indices of Class entries.
fn are_classes(pool: &[PoolEntry], indices: &[u16]) -> bool
    ensures { IsTrue result ↔ AreClasses pool.now indices.now }
{
    for i in indices {
        if !is_class(pool, *i) {
            return false;
        }
    }
    true
}

/// Whether a Class entry stands at an index.
fn is_class(pool: &[PoolEntry], i: u16) -> bool
    ensures { IsTrue result ↔ NamesEntry IsClassEntry pool.now i }
{
    matches!(pool.get(usize::from(i)), Some(PoolEntry::Class(_)))
}

/// Whether nothing follows these indices, and all of them are those of classes.
fn are_all_classes(pool: &[PoolEntry], indices: &[u16], rest: &[u8]) -> bool
    ensures { IsTrue result ↔ AreAllClasses pool.now indices.now rest.now }
{
    rest.is_empty() && are_classes(pool, indices)
}

/// Whether a body is that of an Exceptions: a count, and so many indices of classes.
fn are_thrown(alloc: Global, pool: &[PoolEntry], body: &[u8]) -> Result<bool, OutOfMemory>
    ensures { IfOk result (λ b. IsTrue b ↔ AreThrown pool.now body.now) }
{
    match counted_of::<U2>(alloc, body) {
        Ok((indices, rest)) => Ok(are_all_classes(pool, indices.as_slice(), rest)),
        Err(ReadError::EndsEarly) => Ok(false),
        Err(ReadError::OutOfMemory) => Err(OutOfMemory),
    }
}

/// Whether an attribute is an Exceptions whose body is none.
fn are_bad_exceptions(alloc: Global, pool: &KnownPool, a: &Attribute) -> Result<bool, OutOfMemory>
    requires { IsKnown pool.now }
    ensures { IfOk result (λ b. IsTrue b ↔ AreBadExceptions pool.now.entries.now a.now) }
{
    if !is_called(pool, Word::Exceptions, a) {
        return Ok(false);
    }
    let thrown = are_thrown(alloc, pool.entries, a.body.as_slice())?;
    Ok(!thrown)
}

/// Whether some attribute is a bad Exceptions.
fn some_bad_exceptions(
    alloc: Global,
    pool: &KnownPool,
    attributes: &[Attribute],
) -> Result<bool, OutOfMemory>
    requires { IsKnown pool.now }
    ensures { IfOk result (λ b. IsTrue b ↔ HasItem (AreBadExceptions pool.now.entries.now) attributes.now) }
{
    for a in attributes {
        let is_bad = are_bad_exceptions(alloc, pool, a)?;
        if is_bad {
            return Ok(true);
        }
    }
    Ok(false)
}

/// Whether there are two Exceptions, or a bad one.
fn has_wrong_exceptions(
    alloc: Global,
    pool: &KnownPool,
    attributes: &[Attribute],
) -> Result<bool, OutOfMemory>
    requires { IsKnown pool.now }
    ensures { IfOk result (λ b. IsTrue b ↔ HasWrongExceptions pool.now.entries.now attributes.now) }
{
    if two_called(pool, Word::Exceptions, attributes) {
        return Ok(true);
    }
    some_bad_exceptions(alloc, pool, attributes)
}

/// Whether these attributes of a method with these flags break C9, but for Exceptions.
fn has_wrong_code(
    alloc: Global,
    pool: &KnownPool,
    flags: u16,
    attributes: &[Attribute],
) -> Result<bool, OutOfMemory>
    requires known { IsKnown pool.now }
    requires short { AreShort attributes.now }
    ensures { IfOk result (λ b. IsTrue b ↔ HasWrongCode pool.now.entries.now flags attributes.now) }
{
    if has_unnamed(pool.entries, attributes) {
        return Ok(true);
    }
    if misses_code(pool, flags, attributes) {
        return Ok(true);
    }
    some_bad_code(alloc, pool, attributes)
}

/// Whether these attributes of a method with these flags break C9.
fn has_wrong_attributes(
    alloc: Global,
    pool: &KnownPool,
    flags: u16,
    attributes: &[Attribute],
) -> Result<bool, OutOfMemory>
    requires known { IsKnown pool.now }
    requires short { AreShort attributes.now }
    ensures { IfOk result (λ b. IsTrue b ↔
        (HasWrongCode pool.now.entries.now flags attributes.now ⊎ HasWrongExceptions pool.now.entries.now attributes.now)) }
{
    let has_wrong = has_wrong_code(alloc, pool, flags, attributes)?;
    if has_wrong {
        return Ok(true);
    }
    has_wrong_exceptions(alloc, pool, attributes)
}

/// Whether a method breaks C9.
pub(crate) fn has_bad_method_attributes(
    alloc: Global,
    c: &ClassFile,
    facts: &[Option<TextFacts>],
    method: &MemberInfo,
) -> Result<bool, OutOfMemory>
    requires facts { AreFacts c.now.pool facts.now }
    requires short { AreShort method.now.attributes }
    ensures { IfOk result (λ b. IsTrue b ↔ HasBadMethodAttributes c.now method.now) }
{
    let pool = KnownPool::of(c, facts);
    let flags = method_flags(&pool, method);
    has_wrong_attributes(alloc, &pool, flags, method.attributes.as_slice())
}
