//! What stands above a class: interfaces in diamonds, and a long chain of parents.

use crate::names::name;
use crate::records::{CLASS, INT, INTERFACE, OBJECT, Signature, class_record};
use crate::worlds::put;
use domain_resolver::World;
use jk_model::{ClassId, List};
use member_lookup::{find_field, find_method};
use std::alloc::Global;

/// How often each call on diamonds is made.
const ROUNDS: usize = 100;

/// How often it is asked whether a class stands below another.
const QUESTIONS: usize = 1000;

/// Adds an interface below these.
fn add_interface(
    alloc: Global,
    world: &mut World,
    name: &[u16],
    above: &[ClassId],
) -> Option<ClassId> {
    let mut interface = class_record(alloc, name, INTERFACE, OBJECT).ok()?;
    interface.interfaces = List::from_slice(alloc, above).ok()?;
    put(world, interface)
}

/// Adds an interface, and so many diamonds of interfaces one above another below it. Answers the interface below all.
fn add_diamonds(alloc: Global, world: &mut World, first: ClassId, size: u16) -> Option<ClassId> {
    let mut lowest = first;
    for i in 0..size {
        let left = add_interface(alloc, world, &name(1, i), &[lowest])?;
        let right = add_interface(alloc, world, &name(2, i), &[lowest])?;
        lowest = add_interface(alloc, world, &name(3, i), &[left, right])?;
    }
    Some(lowest)
}

/// A class that implements the interface above all through so many diamonds.
#[derive(Clone, Copy)]
struct Ends {
    highest: ClassId,
    class: ClassId,
}

/// Adds them.
fn add_class_below(alloc: Global, world: &mut World, size: u16) -> Option<Ends> {
    let highest = add_interface(alloc, world, &name(0, 0), &[])?;
    let lowest = add_diamonds(alloc, world, highest, size)?;
    let mut class = class_record(alloc, &name(4, 0), CLASS, OBJECT).ok()?;
    class.interfaces = List::from_slice(alloc, &[lowest]).ok()?;
    let class = put(world, class)?;
    Some(Ends { highest, class })
}

/// So many diamonds are added. Answers how many classes are looked at for a field of the class below them.
pub fn diamonds_added(alloc: Global, size: u16, calls: bool) -> Option<usize> {
    let mut world = World::new(alloc).ok()?;
    if !calls {
        return Some(0);
    }
    let made = add_class_below(alloc, &mut world, size)?;
    Some(world.classes().walk(made.class)?.len())
}

/// Whether the class implements the interface above all, a hundred times, and look-ups of a field and of a method that
/// none of them has. Answers how many of them answer right.
pub fn diamonds(alloc: Global, size: u16, calls: bool) -> Option<usize> {
    let mut world = World::new(alloc).ok()?;
    let made = add_class_below(alloc, &mut world, size)?;
    let empty = Signature::empty(alloc).ok()?;
    if !calls {
        return Some(0);
    }
    let classes = world.classes();
    let sought = name(5, 0);
    let implemented = (0..ROUNDS)
        .filter(|_| classes.implements(made.class, made.highest))
        .count();
    let no_field = (0..ROUNDS)
        .filter(|_| find_field(classes, made.class, &sought, &INT).is_none())
        .count();
    let no_method = (0..ROUNDS)
        .filter(|_| find_method(classes, made.class, &sought, empty.kind.get()).is_none())
        .count();
    Some(
        implemented
            .saturating_add(no_field)
            .saturating_add(no_method),
    )
}

/// Whether the lowest class of a chain of so many stands below the highest, a thousand times. Answers how often it does.
pub fn chain(alloc: Global, size: u16, calls: bool) -> Option<usize> {
    let mut world = World::new(alloc).ok()?;
    let mut lowest = OBJECT;
    let mut highest = None;
    for i in 0..size {
        let class = class_record(alloc, &name(0, i), CLASS, lowest).ok()?;
        lowest = put(&mut world, class)?;
        highest = highest.or(Some(lowest));
    }
    let highest = highest?;
    if !calls {
        return Some(0);
    }
    let classes = world.classes();
    let found = (0..QUESTIONS)
        .filter(|_| classes.is_subclass(lowest, highest))
        .count();
    Some(found)
}
