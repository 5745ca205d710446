//! The constants with which static fields begin.

ghost use Rattle.std.specs.Prelude.{◌≡◌, ℕ, IfOk, MatchOption, Some};
ghost use Rattle.jk_model.specs.declared.class_file.Attribute.{Attribute};
ghost use Rattle.jk_model.specs.declared.class_file.PoolEntry.{PoolEntry};
ghost use Rattle.jk_model.specs.declared.class_file.PoolEntry.TheVariants.{Str};
ghost use Rattle.jk_model.specs.ClassFile.{IsU2, u2};
ghost use Rattle.jk_model_classes.specs.MemberAttributes.{HasBadConstant};
ghost use Rattle.jk_model_folders.specs.LinkedClasses.{HasConstantEntry, IsConstantFrom, IsConstantOfField, kept_bits};
ghost use Rattle.class_linker.specs.KnownConstants.{HasNoBadConstant, HasTextOf, IsConstantKind, IsEntryOf, NamesConstant};
ghost use Rattle.class_linker.specs.Scopes.{IsScope};

use crate::scope::Scope;
use byte_fields::u2_of;
use jk_model::{AccessFlags, Attribute, MemberInfo, OutOfMemory, PoolEntry, has};
use jk_model_classes::{BaseRef, Link, TypeRef};

/// A number as a store into a field of this type leaves it.
fn kept_bits(base: BaseRef, n: u32) -> i32
    ensures { result ≡ kept_bits base n }
{
    match base {
        BaseRef::Byte => i32::from(((n % 256) as u8).cast_signed()),
        BaseRef::Char => (n % 65_536) as i32,
        BaseRef::Short => i32::from(((n % 65_536) as u16).cast_signed()),
        BaseRef::Bool => (n % 2) as i32,
        BaseRef::Int | BaseRef::Long | BaseRef::Class(_) => n.cast_signed(),
    }
}

/// The index that two bytes are.
fn index_of(body: &[u8]) -> Option<u16>
    ensures { MatchOption result ((i : ℕ) → IsU2 i → body.now ≡ u2 i → ⊥) (λ i. IsU2 i × (body.now ≡ u2 i)) }
{
    let Ok((i, rest)) = u2_of(body) else {
        return None;
    };
    if rest.is_empty() { Some(i) } else { None }
}

/// The entry that the body of a ConstantValue names.
fn named_entry<'a>(scope: &Scope<'a>, body: &[u8]) -> &'a PoolEntry
    requires { NamesConstant scope.now.file.now.pool body.now }
    ensures { IsEntryOf scope.now.file.now.pool body.now result.now }
{
    let Some(i) = index_of(body) else {
        unreachable!()
    };
    match scope.file.pool.get(usize::from(i)) {
        Some(entry) => entry,
        None => unreachable!(),
    }
}

/// The entry that the first ConstantValue among these attributes names.
fn constant_entry<'a>(scope: &Scope<'a>, attributes: &[Attribute]) -> Option<&'a PoolEntry>
    requires scope { IsScope scope.now }
    requires good { HasNoBadConstant scope.now.file.now.pool attributes.now }
    ensures { MatchOption result
        ((entry : PoolEntry) → HasConstantEntry scope.now.file.now.pool attributes.now entry → ⊥)
        (λ entry. HasConstantEntry scope.now.file.now.pool attributes.now entry.now × IsConstantKind entry.now) }
{
    for a in attributes {
        if scope.spells(a.name, "ConstantValue") {
            return Some(named_entry(scope, a.body.as_slice()));
        }
    }
    None
}

/// What a constant leaves in a field of this type.
fn constant_from(scope: &Scope, kind: TypeRef, entry: &PoolEntry) -> Result<Link, OutOfMemory>
    requires scope { IsScope scope.now }
    requires constant { IsConstantKind entry.now }
    requires text { HasTextOf scope.now.file.now.pool entry.now }
    ensures { IfOk result (IsConstantFrom scope.now.file.now.pool kind entry.now) }
{
    match entry {
        PoolEntry::Integer(n) => Ok(Link::Int(kept_bits(kind.base, *n))),
        PoolEntry::Long(n) => Ok(Link::Long(n.cast_signed())),
        PoolEntry::Str(text) => Ok(Link::Text(scope.text(*text).share()?)),
        _ => unreachable!(),
    }
}

/// The constant with which a field of this type begins.
pub(crate) fn constant_of(
    scope: &Scope,
    field: &MemberInfo,
    kind: TypeRef,
) -> Result<Link, OutOfMemory>
    requires scope { IsScope scope.now }
    requires good { HasBadConstant scope.now.file.now.pool field.now → ⊥ }
    ensures { IfOk result (IsConstantOfField scope.now.file.now.pool field.now kind) }
{
    if !has(field.flags, AccessFlags::STATIC) {
        return Ok(Link::Nothing);
    }
    match constant_entry(scope, field.attributes.as_slice()) {
        Some(entry) => constant_from(scope, kind, entry),
        None => Ok(Link::Nothing),
    }
}
