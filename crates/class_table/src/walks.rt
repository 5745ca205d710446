//! The classes among which the fields of a class are looked for, each once, worked out of the walks of its interfaces
//! and its parent.

ghost use Rattle.std.specs.Prelude.{◌≡◌, ◌+◌, ◌<◌, ◌≤◌, ◌^◌, ◌++◌, ◌∷◌, [], length, flat_map, take, IfOk, OnOk};
ghost use Rattle.std.specs.List.{AllByRecursion};
ghost use Rattle.std.specs.Option.{option_map_or};
ghost use Rattle.jk_model_classes.specs.Classes.{IsBelow, ParentIsBelow, StandsAbove, field_walk, with_interfaces};
ghost use Rattle.class_table.specs.Entries.{IsTable, IsWalk, records};
ghost use Rattle.class_table.specs.Walks.{classes_numbered, with_all};

use crate::entry::{Entry, Walk};
use crate::upwards::entry_of;
use indexmap::IndexSet;
use jk_model::{ClassId, List, OutOfMemory};
use jk_model_classes::ClassRecord;
use std::alloc::Global;

/// The walk of a class that is put after the others. It takes time in proportion to the interfaces that the class lists, to
/// the walks of those that aren't there through others, and to the walk of the parent.
pub(crate) fn walk_of_new(
    alloc: Global,
    entries: &[Entry],
    class: &ClassRecord,
) -> Result<Walk, OutOfMemory>
    requires table { IsTable entries.now }
    requires few { length entries.now + 1 < 2 ^ 32 }
    requires above { StandsAbove (length entries.now) class.now }
    ensures { IfOk result (IsWalk (records entries.now ++ class.now ∷ []) (record { 0 = length entries.now })) }
{
    let mut seen = IndexSet::new(alloc);
    seen.insert(entries.len() as u32)?;
    add_interfaces(&mut seen, entries, class.interfaces.as_slice())?;
    let own = seen.as_slice().len();
    add_parent(&mut seen, entries, class.parent)?;
    let classes = class_list(alloc, seen.as_slice())?;
    Ok(Walk { classes, own })
}

/// Adds each of these interfaces with those above it, where it isn't there yet. Above one that is there, all are.
fn add_interfaces(
    seen: &mut IndexSet<u32>,
    entries: &[Entry],
    interfaces: &[ClassId],
) -> Result<(), OutOfMemory>
    requires table { IsTable entries.now }
    requires below { AllByRecursion (IsBelow (length entries.now)) interfaces.now }
    requires alone { seen.old.keys ≡ length entries.now ∷ [] }
    ensures { OnOk result
        (seen.new.keys ≡ with_all seen.old.keys (flat_map (with_interfaces (records entries.now)) interfaces.now)) }
{
    for i in interfaces {
        if !seen.contains(&i.0) {
            add_walk(seen, interface_walk(entry_of(entries, *i)))?;
        }
    }
    Ok(())
}

/// Adds the walk of the parent, where there is one.
fn add_parent(
    seen: &mut IndexSet<u32>,
    entries: &[Entry],
    parent: Option<ClassId>,
) -> Result<(), OutOfMemory>
    requires table { IsTable entries.now }
    requires below { ParentIsBelow (length entries.now) parent }
    ensures { OnOk result
        (seen.new.keys ≡ with_all seen.old.keys (option_map_or (field_walk (records entries.now)) parent [])) }
{
    match parent {
        Some(parent) => add_walk(seen, entry_of(entries, parent).walk.classes.as_slice()),
        None => Ok(()),
    }
}

/// The class and the interfaces above it through interfaces alone.
pub(crate) fn interface_walk(entry: &Entry) -> &[ClassId]
    requires { entry.now.walk.own ≤ length entry.now.walk.classes }
    ensures { result.now ≡ take entry.now.walk.own entry.now.walk.classes }
{
    &entry.walk.classes.as_slice()[..entry.walk.own]
}

/// Adds each of these classes where it isn't there yet.
fn add_walk(seen: &mut IndexSet<u32>, walk: &[ClassId]) -> Result<(), OutOfMemory>
    ensures { OnOk result (seen.new.keys ≡ with_all seen.old.keys walk.now) }
{
    for class in walk {
        seen.insert(class.0)?;
    }
    Ok(())
}

/// The classes of these numbers.
fn class_list(alloc: Global, numbers: &[u32]) -> Result<List<ClassId>, OutOfMemory>
    ensures { IfOk result (λ list. list ≡ classes_numbered numbers.now) }
{
    let mut list = List::new(alloc);
    for n in numbers {
        list.push(ClassId(*n))?;
    }
    Ok(list)
}
