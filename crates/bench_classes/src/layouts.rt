//! What objects are made of.

use crate::names::name;
use crate::records::{CLASS, OBJECT, class_record, field_record};
use crate::worlds::{after, put};
use domain_resolver::World;
use jk_model::{ClassId, List, MemberId, OutOfMemory};
use jk_model_classes::FieldRecord;
use shared_values::Text;
use std::alloc::Global;

/// How many classes stand above the children.
const ABOVE: u16 = 16;

/// How many children the lowest of these has.
const CHILDREN: u16 = 490;

/// How often a field is read.
const READS: u16 = 1000;

/// The names of so many fields.
fn field_names(alloc: Global, count: u16) -> Result<List<Text>, OutOfMemory> {
    let mut names = List::new(alloc);
    for i in 0..count {
        names.push(Text::new(alloc, &name(1, i))?)?;
    }
    Ok(names)
}

/// Fields of these names.
fn field_list(alloc: Global, names: &[Text]) -> Result<List<FieldRecord>, OutOfMemory> {
    let mut fields = List::new(alloc);
    for name in names {
        fields.push(field_record(name.share()?))?;
    }
    Ok(fields)
}

/// Adds a class with fields of these names.
fn add_class(
    alloc: Global,
    world: &mut World,
    parent: ClassId,
    number: u16,
    names: &[Text],
) -> Option<ClassId> {
    let mut class = class_record(alloc, &name(0, number), CLASS, parent).ok()?;
    class.fields = field_list(alloc, names).ok()?;
    put(world, class)
}

/// Classes each below the one before.
#[derive(Clone, Copy)]
struct Chain {
    highest: ClassId,
    lowest: ClassId,
}

/// Adds so many and one more, all with fields of these names.
fn add_chain(alloc: Global, world: &mut World, more: u16, names: &[Text]) -> Option<Chain> {
    let highest = add_class(alloc, world, OBJECT, 0, names)?;
    let mut lowest = highest;
    for number in 1..=more {
        lowest = add_class(alloc, world, lowest, number, names)?;
    }
    Some(Chain { highest, lowest })
}

/// Whether the last field of a class's layout is this one.
fn ends_with(world: &World, class: ClassId, field: MemberId) -> bool {
    match world.classes().layout(class) {
        Some(layout) => layout.field(layout.len().saturating_sub(1)) == Some(field),
        None => false,
    }
}

/// Children without fields of their own are added below sixteen classes with so many fields each, and the last field of
/// each child's layout is read. Answers for how many it is the last field of the lowest of the sixteen.
pub fn children(alloc: Global, size: u16, calls: bool) -> Option<usize> {
    let mut world = World::new(alloc).ok()?;
    let names = field_names(alloc, size).ok()?;
    let chain = add_chain(alloc, &mut world, ABOVE - 1, names.as_slice())?;
    if !calls {
        return Some(0);
    }
    let last = MemberId {
        class: chain.lowest,
        index: size.saturating_sub(1),
    };
    let first = add_class(alloc, &mut world, chain.lowest, ABOVE, &[])?;
    for number in 1..CHILDREN {
        add_class(alloc, &mut world, chain.lowest, ABOVE + number, &[])?;
    }
    let read = (0..CHILDREN)
        .filter(|child| ends_with(&world, after(first, *child), last))
        .count();
    Some(read)
}

/// Whether a class's layout has the one field of a class of the chain at that class's place in the chain.
fn has_field(world: &World, chain: &Chain, place: u16) -> bool {
    let class = after(chain.highest, place);
    match world.classes().layout(chain.lowest) {
        Some(layout) => layout.field(usize::from(place)) == Some(MemberId { class, index: 0 }),
        None => false,
    }
}

/// A thousand reads of fields of a class below a chain, in which each of so many classes has a field. Answers how many
/// answer right.
pub fn chain_fields(alloc: Global, size: u16, calls: bool) -> Option<usize> {
    if size == 0 {
        return None;
    }
    let mut world = World::new(alloc).ok()?;
    let names = field_names(alloc, 1).ok()?;
    let chain = add_chain(alloc, &mut world, size - 1, names.as_slice())?;
    if !calls {
        return Some(0);
    }
    let read = (0..READS)
        .filter(|time| has_field(&world, &chain, *time % size))
        .count();
    Some(read)
}
