//! Members by name and type, in a class with many and in sixteen parents with as many together.

use crate::names::name;
use crate::records::{CLASS, INT, OBJECT, Signature, class_record, field_record};
use crate::worlds::{after, put};
use domain_resolver::World;
use jk_model::{ClassId, List, MemberId, MethodType, OutOfMemory};
use jk_model_classes::{FieldRecord, MethodRecord};
use member_lookup::{find_field, find_method};
use shared_values::Text;
use std::alloc::Global;

/// How many parents the class has.
const PARENTS: u8 = 16;

/// A group of names that no member has.
const UNUSED: u8 = 25;

/// Abstract methods whose names are those of a group.
fn method_list(
    alloc: Global,
    signature: &Signature,
    group: u8,
    count: u16,
) -> Result<List<MethodRecord>, OutOfMemory> {
    let mut methods = List::new(alloc);
    for i in 0..count {
        let name = Text::new(alloc, &name(group, i))?;
        methods.push(signature.declared(name)?)?;
    }
    Ok(methods)
}

/// Fields whose names are those of a group.
fn field_list(alloc: Global, group: u8, count: u16) -> Result<List<FieldRecord>, OutOfMemory> {
    let mut fields = List::new(alloc);
    for i in 0..count {
        fields.push(field_record(Text::new(alloc, &name(group, i))?))?;
    }
    Ok(fields)
}

/// Which members a class of the chain has.
#[derive(Clone, Copy)]
enum Members {
    Methods,
    Fields,
}

/// Adds a class with so many members of one kind, whose names are those of a group.
fn add_class(
    alloc: Global,
    world: &mut World,
    parent: ClassId,
    members: Members,
    group: u8,
    count: u16,
) -> Option<ClassId> {
    let mut class = class_record(alloc, &name(group, 0), CLASS, parent).ok()?;
    match members {
        Members::Methods => {
            let signature = Signature::empty(alloc).ok()?;
            class.methods = method_list(alloc, &signature, group, count).ok()?;
        }
        Members::Fields => class.fields = field_list(alloc, group, count).ok()?,
    }
    put(world, class)
}

/// A class with many members below sixteen parents with a sixteenth as many each.
#[derive(Clone, Copy)]
struct Below {
    /// The highest of the parents. The others follow on.
    first: ClassId,
    class: ClassId,
}

/// Adds them.
fn add_all(alloc: Global, world: &mut World, members: Members, size: u16) -> Option<Below> {
    let first = add_class(alloc, world, OBJECT, members, 0, size / 16)?;
    let mut lowest = first;
    for group in 1..PARENTS {
        lowest = add_class(alloc, world, lowest, members, group, size / 16)?;
    }
    let class = add_class(alloc, world, lowest, members, PARENTS, size)?;
    Some(Below { first, class })
}

/// The group and the number of the member that is looked for at a time: each parent's first, then each one's second, and
/// so on.
fn place(time: u16) -> (u8, u16) {
    ((time % 16) as u8, time / 16)
}

/// The member of a parent.
fn member(first: ClassId, group: u8, index: u16) -> MemberId {
    let class = after(first, u16::from(group));
    MemberId { class, index }
}

/// Whether the method of a parent is found.
fn finds_method(world: &World, below: &Below, time: u16, kind: &MethodType) -> bool {
    let (group, number) = place(time);
    let found = find_method(world.classes(), below.class, &name(group, number), kind);
    found == Some(member(below.first, group, number))
}

/// Whether the field of a parent is found.
fn finds_field(world: &World, below: &Below, time: u16) -> bool {
    let (group, number) = place(time);
    let found = find_field(world.classes(), below.class, &name(group, number), &INT);
    found == Some(member(below.first, group, number))
}

/// So many look-ups of methods that are found, spread over the parents, and as many of such that no class has. Answers how
/// many answer right.
pub fn methods(alloc: Global, size: u16, calls: bool) -> Option<usize> {
    let mut world = World::new(alloc).ok()?;
    let below = add_all(alloc, &mut world, Members::Methods, size)?;
    let signature = Signature::empty(alloc).ok()?;
    if !calls {
        return Some(0);
    }
    let kind = signature.kind.get();
    let found = (0..size)
        .filter(|time| finds_method(&world, &below, *time, kind))
        .count();
    let missing = (0..size)
        .filter(|i| {
            find_method(world.classes(), below.class, &name(UNUSED, *i), kind).is_none()
        })
        .count();
    Some(found.saturating_add(missing))
}

/// The same of fields.
pub fn fields(alloc: Global, size: u16, calls: bool) -> Option<usize> {
    let mut world = World::new(alloc).ok()?;
    let below = add_all(alloc, &mut world, Members::Fields, size)?;
    if !calls {
        return Some(0);
    }
    let found = (0..size)
        .filter(|time| finds_field(&world, &below, *time))
        .count();
    let missing = (0..size)
        .filter(|i| find_field(world.classes(), below.class, &name(UNUSED, *i), &INT).is_none())
        .count();
    Some(found.saturating_add(missing))
}
