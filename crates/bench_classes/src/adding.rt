//! Classes in which one long text stands for many: the name of all methods, their type, or what all links lead to.

use crate::names::name;
use crate::records::{CLASS, OBJECT, Signature, class_record};
use crate::worlds::put;
use domain_resolver::World;
use jk_model::{ClassId, List, OutOfMemory, Units};
use jk_model_classes::{ClassRecord, Link, MethodRecord};
use shared_values::Text;
use std::alloc::Global;

/// How many units the long text has.
const LONG: u16 = 60_000;

/// A text of so many units.
fn long_text(alloc: Global, count: u16) -> Result<Units, OutOfMemory> {
    let mut units = Units::new(alloc);
    for _ in 0..count {
        units.push(u16::from(b'a'))?;
    }
    Ok(units)
}

/// A class without members yet.
fn class_alone(alloc: Global) -> Result<ClassRecord, OutOfMemory> {
    class_record(alloc, &name(0, 0), CLASS, OBJECT)
}

/// Methods of one name, each of another type.
fn of_one_name(alloc: Global, count: u16) -> Result<List<MethodRecord>, OutOfMemory> {
    let text = Text::new(alloc, long_text(alloc, LONG)?.as_slice())?;
    let mut methods = List::new(alloc);
    for i in 0..count {
        let signature = Signature::of_class(alloc, &name(1, i))?;
        methods.push(signature.declared(text.share()?)?)?;
    }
    Ok(methods)
}

/// Methods of one type, each of another name. The type's descriptor has five units more than the name of its parameter's
/// class: `(L` and `;)V`.
fn of_one_kind(alloc: Global, count: u16) -> Result<List<MethodRecord>, OutOfMemory> {
    let class = long_text(alloc, LONG - 5)?;
    let signature = Signature::of_class(alloc, class.as_slice())?;
    let mut methods = List::new(alloc);
    for i in 0..count {
        methods.push(signature.declared(Text::new(alloc, &name(1, i))?)?)?;
    }
    Ok(methods)
}

/// Adds a class with these methods. Answers how many the class that was added has.
fn added(alloc: Global, methods: List<MethodRecord>, calls: bool) -> Option<usize> {
    let mut world = World::new(alloc).ok()?;
    let mut class = class_alone(alloc).ok()?;
    class.methods = methods;
    if !calls {
        return Some(0);
    }
    let class = put(&mut world, class)?;
    Some(world.classes().class(class)?.methods.len())
}

/// A class with so many methods of one name of 60,000 units is added.
pub fn one_name(alloc: Global, size: u16, calls: bool) -> Option<usize> {
    added(alloc, of_one_name(alloc, size).ok()?, calls)
}

/// A class with so many methods of one type, whose descriptor has 60,000 units, is added.
pub fn one_kind(alloc: Global, size: u16, calls: bool) -> Option<usize> {
    added(alloc, of_one_kind(alloc, size).ok()?, calls)
}

/// Links to one text.
fn links(alloc: Global, text: &Text, count: u16) -> Result<List<Link>, OutOfMemory> {
    let mut links = List::new(alloc);
    for _ in 0..count {
        links.push(Link::Text(text.share()?))?;
    }
    Ok(links)
}

/// A class gets so many links to one text of 60,000 units. Answers how many it has.
pub fn one_text(alloc: Global, size: u16, calls: bool) -> Option<usize> {
    let mut world = World::new(alloc).ok()?;
    let class = put(&mut world, class_alone(alloc).ok()?)?;
    let text = Text::new(alloc, long_text(alloc, LONG).ok()?.as_slice()).ok()?;
    if !calls {
        return Some(0);
    }
    let links = links(alloc, &text, size).ok()?;
    world.set_links(class, links);
    Some(world.classes().class(class)?.links.len())
}
