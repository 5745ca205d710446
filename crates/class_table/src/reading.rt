//! What the entries of a table answer about one class.

ghost use Rattle.std.specs.Prelude.{◌≡◌, ◌+◌, ◌-◌, ◌^◌, ◌≤◌, ◌↔◌, Contains, Some, IfNone, IfSome, IsTrue, length, min, option_map, slice_get};
ghost use Rattle.jk_model.specs.Flags.{STATIC, has};
ghost use Rattle.jk_model_classes.specs.declared.records.FieldRecord.{FieldRecord};
ghost use Rattle.jk_model_classes.specs.Classes.{HasClass, Implements, IsInterface, field_walk, firsts, with_interfaces};
ghost use Rattle.jk_model_classes.specs.Layouts.{InstanceField, cost_of, instance_fields};
ghost use Rattle.jk_model_classes.specs.Lookups.{FieldIs, FindsFrom, IsFieldOf, IsMethodOf};
ghost use Rattle.class_table.specs.Entries.{IsTable, records};

use crate::entry::Entry;
use crate::own_places::is_instance_field;
use crate::upwards::entry_at;
use crate::walks::interface_walk;
use jk_model::{AccessFlags, ClassId, MemberId, has};
use member_index::{FieldKey, MethodKey};

/// What an object costs beside its payload, in words.
const HEADER_WORDS: u32 = 4;

/// Whether i is an interface that class a implements.
pub(crate) fn implements(entries: &[Entry], a: ClassId, i: ClassId) -> bool
    requires { IsTable entries.now }
    ensures { IsTrue result ↔ Implements (records entries.now) a i }
{
    match entry_at(entries, a) {
        Some(entry) => { is_interface(entries, i) && has_class(entry.walk.classes.as_slice(), i) }
        None => false,
    }
}

/// Whether a class is an interface.
fn is_interface(entries: &[Entry], i: ClassId) -> bool
    ensures { IsTrue result ↔ IsInterface (records entries.now) i }
{
    match entry_at(entries, i) {
        Some(entry) => has(entry.class.flags, AccessFlags::INTERFACE),
        None => false,
    }
}

/// Whether a class is among these.
fn has_class(classes: &[ClassId], c: ClassId) -> bool
    ensures { IsTrue result ↔ Contains classes.now c }
{
    classes.contains(&c)
}

/// How many words the fields of an object of a class take.
pub(crate) fn words(entry: &Entry) -> u32
    requires { length entry.now.own.fields ≤ 65535 }
    ensures { result ≡ min (entry.now.standing.words + (length entry.now.own.fields + entry.now.own.longs)) (2 ^ 32 - 1) }
{
    entry.standing.words.saturating_add(entry.own.words())
}

/// How many words an object of a class costs; none where there is no such class.
pub(crate) fn cost(entries: &[Entry], c: ClassId) -> Option<u32>
    requires { IsTable entries.now }
    ensures none { IfNone result (HasClass (records entries.now) c → ⊥) }
    ensures some { IfSome result (λ n. HasClass (records entries.now) c × (n ≡ cost_of (records entries.now) c)) }
{
    let entry = entry_at(entries, c)?;
    Some(words(entry).saturating_add(HEADER_WORDS))
}

/// The place of an instance field in layouts; none where the member is no instance field.
pub(crate) fn place_of(entries: &[Entry], m: MemberId) -> Option<usize>
    requires { IsTable entries.now }
    ensures none { IfNone result ((field : FieldRecord) → FieldIs (records entries.now) m field → IsTrue (has field.flags STATIC)) }
    ensures some { IfSome result (λ i. option_map (λ (f : InstanceField). f.member)
        (slice_get (instance_fields (records entries.now) m.class) i) ≡ Some m) }
{
    let entry = entry_at(entries, m.class)?;
    let field = entry.class.fields.get(usize::from(m.index))?;
    if !is_instance_field(field) {
        return None;
    }
    let rank = entry.own.ranks.as_slice()[usize::from(m.index)];
    Some(entry.standing.before + usize::from(rank))
}

/// The class's own field of a name and a type, at a place or after it.
pub(crate) fn own_field(entries: &[Entry], c: ClassId, key: &FieldKey<'_>, from: u16) -> Option<u16>
    requires { IsTable entries.now }
    ensures { FindsFrom (IsFieldOf (records entries.now) key.now.name key.now.kind) c from result }
{
    let entry = entry_at(entries, c)?;
    entry.fields.find(entry.class.fields.as_slice(), key, from)
}

/// The class's own method of a name and a type, at a place or after it.
pub(crate) fn own_method(
    entries: &[Entry],
    c: ClassId,
    key: &MethodKey<'_>,
    from: u16,
) -> Option<u16>
    requires { IsTable entries.now }
    ensures { FindsFrom (IsMethodOf (records entries.now) key.now.name key.now.kind) c from result }
{
    let entry = entry_at(entries, c)?;
    entry
        .methods
        .find(entry.class.methods.as_slice(), key, from)
}

/// The classes among which a field of a class is looked for; none where there is no such class.
pub(crate) fn walk(entries: &[Entry], c: ClassId) -> Option<&[ClassId]>
    requires { IsTable entries.now }
    ensures none { IfNone result (HasClass (records entries.now) c → ⊥) }
    ensures some { IfSome result (λ w. HasClass (records entries.now) c × (w.now ≡ firsts (field_walk (records entries.now) c))) }
{
    let entry = entry_at(entries, c)?;
    Some(entry.walk.classes.as_slice())
}

/// An interface and those above it; none where there is no such class.
pub(crate) fn interface_walk_of(entries: &[Entry], i: ClassId) -> Option<&[ClassId]>
    requires { IsTable entries.now }
    ensures none { IfNone result (HasClass (records entries.now) i → ⊥) }
    ensures some { IfSome result (λ w. HasClass (records entries.now) i × (w.now ≡ firsts (with_interfaces (records entries.now) i))) }
{
    let entry = entry_at(entries, i)?;
    Some(interface_walk(entry))
}
