//! Searches from a class upwards, in long steps where the way is long.

ghost use Rattle.std.specs.Prelude.{◌≡◌, ◌+◌, ◌<◌, ◌^◌, ◌↔◌, ◌++◌, ◌∷◌, [], Contains, IsTrue, MatchOption, Some, length, option_copied, slice_get};
ghost use Rattle.jk_model_classes.specs.Classes.{IsSubclass, StandsAbove, superclasses};
ghost use Rattle.jk_model_classes.specs.Layouts.{instance_fields};
ghost use Rattle.class_table.specs.Entries.{IsStanding, IsTable, fields_above, records};
ghost use Rattle.class_table.specs.Holders.{Holds};

use crate::entry::{Entry, Standing};
use jk_model::ClassId;
use jk_model_classes::ClassRecord;

/// The entry of a class.
pub(crate) fn entry_of(entries: &[Entry], c: ClassId) -> &Entry
    requires { c.0 < length entries.now }
    ensures { slice_get entries.now c.0 ≡ Some result.now }
{
    &entries[c.0 as usize]
}

/// The entry of a class; none where there is no such class.
pub(crate) fn entry_at(entries: &[Entry], c: ClassId) -> Option<&Entry>
    ensures { option_copied result ≡ slice_get entries.now c.0 }
{
    entries.get(c.0 as usize)
}

/// Whether class a is class b or stands below it through parents.
pub(crate) fn is_subclass(entries: &[Entry], a: ClassId, b: ClassId) -> bool
    requires { IsTable entries.now }
    ensures { IsTrue result ↔ IsSubclass (records entries.now) a b }
{
    let mut at = a;
    while at.0 > b.0 {
        match step_towards(entries, at, b) {
            Some(next) => at = next,
            None => return false,
        }
    }
    at == b
}

/// The next class on the way from a class up to another that would stand above it; none where the way ends.
fn step_towards(entries: &[Entry], at: ClassId, to: ClassId) -> Option<ClassId>
    requires table { IsTable entries.now }
    requires above { to.0 < at.0 }
    ensures { MatchOption result (IsSubclass (records entries.now) at to → ⊥)
        (λ next. (next.0 < at.0) × (IsSubclass (records entries.now) at to ↔ IsSubclass (records entries.now) next to)) }
{
    let entry = entry_at(entries, at)?;
    let jump = entry.standing.jump;
    if jump.0 < at.0 && jump.0 >= to.0 {
        return Some(jump);
    }
    entry.class.parent
}

/// The class that declares the instance field at a place of a class's layout.
pub(crate) fn holder(entries: &[Entry], c: ClassId, i: usize) -> ClassId
    requires table { IsTable entries.now }
    requires class { c.0 < length entries.now }
    requires place { i < length (instance_fields (records entries.now) c) }
    ensures { Holds entries.now c i result }
{
    let mut at = c;
    while i < entry_of(entries, at).standing.before {
        at = step_to_holder(entries, at, i);
    }
    at
}

/// A class above this one that has the place in its layout, where the class above it has.
fn step_to_holder(entries: &[Entry], at: ClassId, i: usize) -> ClassId
    requires table { IsTable entries.now }
    requires class { at.0 < length entries.now }
    requires place { i < length (fields_above (records entries.now) at) }
    ensures lower { result.0 < at.0 }
    ensures above { IsSubclass (records entries.now) at result }
    ensures place { i < length (instance_fields (records entries.now) result) }
{
    let entry = entry_of(entries, at);
    let jump = entry.standing.jump;
    if jump.0 < at.0 && i < field_count(entry_of(entries, jump)) {
        return jump;
    }
    match entry.class.parent {
        Some(parent) => parent,
        None => unreachable!(),
    }
}

/// How many instance fields an object of a class has.
pub(crate) fn field_count(entry: &Entry) -> usize
    requires { entry.now.standing.before + length entry.now.own.fields < 2 ^ 64 }
    ensures { result ≡ entry.now.standing.before + length entry.now.own.fields }
{
    entry.standing.before + entry.own.fields.len()
}

/// What follows for a class that is put after the others from those above it.
pub(crate) fn standing_of_new(entries: &[Entry], class: &ClassRecord) -> Standing
    requires table { IsTable entries.now }
    requires few { length entries.now + 1 < 2 ^ 32 }
    requires above { StandsAbove (length entries.now) class.now }
    ensures { IsStanding (records entries.now ++ class.now ∷ []) (record { 0 = length entries.now }) result }
{
    match class.parent {
        None => Standing {
            before: 0,
            words: 0,
            depth: 0,
            jump: ClassId(entries.len() as u32),
        },
        Some(parent) => {
            let entry = entry_of(entries, parent);
            Standing {
                before: field_count(entry),
                words: entry.standing.words.saturating_add(entry.own.words()),
                depth: entry.standing.depth.saturating_add(1),
                jump: jump_over(entries, parent),
            }
        }
    }
}

/// Where a class directly below this one jumps to: so that any search upwards takes steps in proportion to the logarithm of
/// the number of classes above. Where two jumps one after the other are of one length, the class below jumps over both.
fn jump_over(entries: &[Entry], c: ClassId) -> ClassId
    requires table { IsTable entries.now }
    requires class { c.0 < length entries.now }
    ensures { Contains (superclasses (records entries.now) c) result }
{
    let here = entry_of(entries, c).standing;
    let next = entry_of(entries, here.jump).standing;
    let last = entry_of(entries, next.jump).standing;
    if here.depth.abs_diff(next.depth) == next.depth.abs_diff(last.depth) {
        next.jump
    } else {
        c
    }
}
