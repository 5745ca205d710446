//! Members by name and type. What was found of a class and a name and type is remembered, so that many references to one
//! member cost one search.

ghost use Rattle.std.specs.Prelude.{◌≡◌, ◌==◌, ℕ, IfOk, OnOk, Some, if◌then◌else◌};
ghost use Rattle.std.specs.BTreeMap.{get};
ghost use Rattle.std.specs.Ordering.{nat_cmp};
ghost use Rattle.jk_model_classes.specs.Lookups.{FindsField, FindsMethod};
ghost use Rattle.class_linker.specs.LinkParts.{AreFields, AreMethods, key_of};
ghost use Rattle.class_linker.specs.TextsSaid.{IsPairOf, SaysField, SaysMethod};

use crate::linking::Linking;
use class_table::{FieldKey, MethodKey};
use jk_model::{ClassId, MemberId, OutOfMemory};
use jk_model_classes::TypeRef;
use member_lookup::{find_field_by, find_method_by};
use shared_values::{SharedKind, Text};
use std::collections::BTreeMap;

/// What was found before. It goes by order, and not by a hash: a file could pick its references so that their hashes meet.
pub(crate) type Found = BTreeMap<u64, Option<MemberId>>;

/// Where it is kept what a class and the name and type at an index find.
fn key_of(class: ClassId, pair: u16) -> u64
    ensures { result ≡ key_of class pair }
{
    u64::from(class.0) * 65536 + u64::from(pair)
}

/// What was found before at a key.
fn found_at(found: &Found, key: u64) -> Option<Option<MemberId>>
    ensures { result ≡ get nat_cmp found.now key }
{
    found.get(&key).copied()
}

/// Remembers what was found at a key.
fn remember(found: &mut Found, key: u64, m: Option<MemberId>) -> Result<(), OutOfMemory>
    ensures { OnOk result ((q : ℕ) → get nat_cmp found.new q ≡ (if key == q then Some m else get nat_cmp found.old q)) }
{
    found.insert(key, m)?;
    Ok(())
}

/// The field that a class and the name and type at an index find.
pub(crate) fn field_found(
    l: &Linking<'_>,
    found: &mut Found,
    class: ClassId,
    pair: u16,
    name: &Text,
    kind: TypeRef,
) -> Result<Option<MemberId>, OutOfMemory>
    requires pair { IsPairOf (SaysField l.now.names.now l.now.pool.now) l.now.pool.now pair name.now kind }
    requires known { AreFields l.now (λ key. get nat_cmp found.old key) }
    ensures found { IfOk result (λ m. FindsField l.now.t.now class name.now kind m) }
    ensures known { OnOk result (AreFields l.now (λ key. get nat_cmp found.new key)) }
{
    let key = key_of(class, pair);
    if let Some(m) = found_at(found, key) {
        return Ok(m);
    }
    let m = find_field_by(l.t, class, &FieldKey::of_text(name, kind));
    remember(found, key, m)?;
    Ok(m)
}

/// The method that a class and the name and type at an index find.
pub(crate) fn method_found(
    l: &Linking<'_>,
    found: &mut Found,
    class: ClassId,
    pair: u16,
    name: &Text,
    kind: &SharedKind,
) -> Result<Option<MemberId>, OutOfMemory>
    requires pair { IsPairOf (SaysMethod l.now.pool.now) l.now.pool.now pair name.now kind.now }
    requires known { AreMethods l.now (λ key. get nat_cmp found.old key) }
    ensures found { IfOk result (λ m. FindsMethod l.now.t.now class name.now kind.now m) }
    ensures known { OnOk result (AreMethods l.now (λ key. get nat_cmp found.new key)) }
{
    let key = key_of(class, pair);
    if let Some(m) = found_at(found, key) {
        return Ok(m);
    }
    let m = find_method_by(l.t, class, &MethodKey::of_shared(name, kind));
    remember(found, key, m)?;
    Ok(m)
}
