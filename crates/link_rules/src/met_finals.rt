//! Final methods that were met on the way down from class to class, by name, type and package.

ghost use Rattle.std.specs.Prelude.{◌≡◌, ◌⊎◌, ◌↔◌, ℕ, IfNone, IfSome, IsTrue, OnOk, Some, slice_get};
ghost use Rattle.std.specs.BTreeMap.{get};
ghost use Rattle.jk_model.specs.Flags.{FINAL, has};
ghost use Rattle.jk_model_classes.specs.declared.records.MethodRecord.{MethodRecord as AMethod};
ghost use Rattle.jk_model_classes.specs.Lookups.{IsUnmarked};
ghost use Rattle.link_rules.specs.contracts.met_finals.FinalKeyOrd.TheImpl as block;
ghost use Rattle.link_rules.specs.MetFinals.{Grows, IsKept, IsMet, IsOpen, IsPackageNumber, key_in};

use jk_model::{AccessFlags, OutOfMemory, has};
use jk_model_classes::MethodRecord;
use shared_values::fingerprint;
use std::collections::BTreeMap;

const SLASH: u16 = 47;

/// What a final method is met by: the fingerprints of its name and of its type, and the number of its package where it is
/// overridden in that alone, else 0.
#[derive(Clone, Copy, Debug, PartialEq, Eq, PartialOrd, Ord)]
pub(crate) struct FinalKey {
    name: u64,
    kind: u64,
    package_number: u64,
}

/// Up to which number a final method was met. It goes by order, and not by a hash: a folder could pick its names so that their
/// hashes meet.
pub(crate) type MetFinals = BTreeMap<FinalKey, u32>;

/// What a method is met by in a package. It takes constant time.
fn key_in(package_number: u64, method: &MethodRecord) -> FinalKey
    ensures { result ≡ key_in package_number method.now }
{
    FinalKey {
        name: method.name.fingerprint(),
        kind: method.kind.fingerprint(),
        package_number,
    }
}

/// The number of a name's package: the fingerprint of the name up to its last `/`.
pub(crate) fn number_of_package(name: &[u16]) -> u64
    ensures { IsPackageNumber name.now result }
{
    let mut end = name.len();
    while end > 0 && name[end - 1] != SLASH {
        end -= 1;
    }
    fingerprint(&name[..end])
}

/// Up to which number a method was met by a key.
fn met_at(met: &MetFinals, key: FinalKey) -> Option<u32>
    ensures { result ≡ get block.ghosts.cmp met.now key }
{
    met.get(&key).copied()
}

/// Whether a method was met by a key up to a number.
fn is_met(met: &MetFinals, key: FinalKey, n: u32) -> bool
    ensures { IsTrue result ↔ IsMet met.now key n }
{
    match met_at(met, key) {
        Some(until) => n <= until,
        None => false,
    }
}

/// Keeps that a method was met up to a number. What was met up to a greater one stays.
fn raise(met: &mut MetFinals, key: FinalKey, until: u32) -> Result<(), OutOfMemory>
    ensures grows { OnOk result (Grows met.old met.new) }
    ensures met { OnOk result (IsMet met.new key until) }
{
    if is_met(met, key, until) {
        return Ok(());
    }
    met.insert(key, until)?;
    Ok(())
}

/// Whether it is public or protected, and so overridden in all packages.
fn is_open(flags: u16) -> bool
    ensures { IsTrue result ↔ IsOpen flags }
{
    has(flags, AccessFlags::PUBLIC) || has(flags, AccessFlags::PROTECTED)
}

/// In which package a method of this one is kept: in none that has a number where it is public or protected. None where it isn't
/// final, or private.
fn package_kept(flags: u16, package_number: u64) -> Option<u64>
    ensures none { IfNone result (IsTrue (has flags FINAL) → IsOpen flags ⊎ IsUnmarked flags → ⊥) }
    ensures some { IfSome result (λ p. (IsOpen flags → p ≡ 0) × (IsUnmarked flags → p ≡ package_number)) }
{
    if !has(flags, AccessFlags::FINAL) {
        return None;
    }
    if is_open(flags) {
        return Some(0);
    }
    if has(flags, AccessFlags::PRIVATE) {
        return None;
    }
    Some(package_number)
}

/// Keeps a method up to a number, if it is final and not private.
fn keep(
    met: &mut MetFinals,
    until: u32,
    package_number: u64,
    method: &MethodRecord,
) -> Result<(), OutOfMemory>
    ensures grows { OnOk result (Grows met.old met.new) }
    ensures kept { OnOk result (IsKept met.new until package_number method.now) }
{
    let Some(own) = package_kept(method.flags, package_number) else {
        return Ok(());
    };
    let key = key_in(own, method);
    raise(met, key, until)?;
    Ok(())
}

/// Keeps the final methods among these up to a number. It takes time in proportion to n log n for n final ones among as many
/// that were met, and memory for those that weren't.
pub(crate) fn keep_finals(
    met: &mut MetFinals,
    until: u32,
    package_number: u64,
    methods: &[MethodRecord],
) -> Result<(), OutOfMemory>
    ensures grows { OnOk result (Grows met.old met.new) }
    ensures kept { OnOk result ((i : ℕ) (method : AMethod) → slice_get methods.now i ≡ Some method → IsKept met.new until package_number method) }
{
    for i in 0..methods.len() {
        keep(met, until, package_number, &methods[i])?;
    }
    Ok(())
}

/// Whether a final method of this one's name and type, which a class of the package would override, was met up to a number.
pub(crate) fn may_override(
    met: &MetFinals,
    n: u32,
    package_number: u64,
    method: &MethodRecord,
) -> bool
    ensures { IsMet met.now (key_in 0 method.now) n ⊎ IsMet met.now (key_in package_number method.now) n → IsTrue result }
{
    is_met(met, key_in(0, method), n) || is_met(met, key_in(package_number, method), n)
}
