//! The fields of an object by their places, read from the entries of the classes that declare them.

ghost use Rattle.std.specs.Prelude.{◌≡◌, ◌+◌, ◌<◌, ◌≤◌, length, option_map, slice_get, take};
ghost use Rattle.jk_model_classes.specs.Layouts.{InstanceField, instance_fields, up_to_32_bits, words_of};
ghost use Rattle.class_table.specs.Entries.{IsTable, records};

use crate::entry::Entry;
use crate::reading::words;
use crate::upwards::{entry_of, field_count, holder};
use jk_model::{ClassId, MemberId};

/// How many instance fields an object of a class has.
pub(crate) fn field_count_of(entries: &[Entry], c: ClassId) -> usize
    requires table { IsTable entries.now }
    requires class { c.0 < length entries.now }
    ensures { result ≡ length (instance_fields (records entries.now) c) }
{
    field_count(entry_of(entries, c))
}

/// How many words they take.
pub(crate) fn words_of_class(entries: &[Entry], c: ClassId) -> u32
    requires table { IsTable entries.now }
    requires class { c.0 < length entries.now }
    ensures { result ≡ up_to_32_bits (words_of (instance_fields (records entries.now) c)) }
{
    words(entry_of(entries, c))
}

/// The field at a place.
pub(crate) fn field_of(entries: &[Entry], c: ClassId, i: usize) -> Option<MemberId>
    requires table { IsTable entries.now }
    requires class { c.0 < length entries.now }
    ensures { result ≡ option_map (λ (f : InstanceField). f.member) (slice_get (instance_fields (records entries.now) c) i) }
{
    if i >= field_count_of(entries, c) {
        return None;
    }
    let class = holder(entries, c, i);
    let entry = entry_of(entries, class);
    let own = entry.own.fields.as_slice()[i - entry.standing.before];
    Some(MemberId {
        class,
        index: own.place,
    })
}

/// How many words the fields before a place take.
pub(crate) fn words_before(entries: &[Entry], c: ClassId, i: usize) -> u32
    requires table { IsTable entries.now }
    requires class { c.0 < length entries.now }
    requires place { i ≤ length (instance_fields (records entries.now) c) }
    ensures { result ≡ up_to_32_bits (words_of (take i (instance_fields (records entries.now) c))) }
{
    if i == field_count_of(entries, c) {
        return words_of_class(entries, c);
    }
    let entry = entry_of(entries, holder(entries, c, i));
    let rank = i - entry.standing.before;
    let own = entry.own.fields.as_slice()[rank];
    entry
        .standing
        .words
        .saturating_add(rank as u32 + u32::from(own.longs))
}
