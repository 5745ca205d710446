//! Classes brought into a name table with all that they refer to.

ghost use Rattle.std.specs.Prelude.{◌≡◌, Some, IsTrue};
ghost use Rattle.jk_model.specs.declared.identifiers.ClassId.{ClassId as AClass};
ghost use Rattle.jk_model_classes.specs.declared.records.ClassRecord.{ClassRecord as ARecord};
ghost use Rattle.jk_model_classes.specs.Classes.{record_of};
ghost use Rattle.jk_model_classes.specs.Worlds.{NamesClasses};

use crate::names::name;
use crate::records::{CLASS, OBJECT, class_record};
use crate::worlds::{after, are_below, put};
use class_table::ClassTable;
use domain_resolver::{NameTable, World};
use jk_model::{ClassId, List};
use std::alloc::Global;

/// To how many classes each class refers: the next ones.
const REFERENCES: u16 = 16;

/// Adds so many classes, each of which refers to those next after it. The first will have this number.
fn add_classes(alloc: Global, world: &mut World, first: ClassId, size: u16) -> Option<()> {
    for number in 0..size {
        let mut class = class_record(alloc, &name(0, number), CLASS, OBJECT).ok()?;
        let mut references = List::new(alloc);
        for next in number..number.saturating_add(REFERENCES).min(size) {
            references.push(after(first, next)).ok()?;
        }
        class.references = references;
        put(world, class)?;
    }
    Some(())
}

/// Whether each class refers to classes of the table alone.
fn all_refer_well(classes: &ClassTable) -> bool
    ensures { IsTrue result → (c : AClass) (r : ARecord) → record_of classes.now c ≡ Some r → NamesClasses classes.now r }
{
    let count = classes.len();
    for number in 0..count as u32 {
        match classes.class(ClassId(number)) {
            Some(class) if are_below(count, class.references.as_slice()) => {}
            _ => return false,
        }
    }
    true
}

/// The first of so many classes is brought into an empty table, with all others. Answers how many names the table has.
pub fn brought(alloc: Global, size: u16, calls: bool) -> Option<usize> {
    let mut world = World::new(alloc).ok()?;
    let first = ClassId(world.classes().len() as u32);
    add_classes(alloc, &mut world, first, size)?;
    let classes = world.classes();
    if classes.class(first).is_none() || !all_refer_well(classes) {
        return None;
    }
    if !calls {
        return Some(0);
    }
    let mut table = NameTable::new(alloc);
    if !table.import(classes, first).ok()? {
        return None;
    }
    Some(table.len())
}
