//! Offers of classes that all refer to one another, and the rules on what is shared.

use crate::names::{letters, name};
use crate::records::{CLASS, OBJECT, class_record};
use crate::worlds::{after, put};
use domain_resolver::{Offers, World};
use jk_model::{Bytes, ClassId, DomainId, List, OutOfMemory};
use jk_model_classes::Offer;
use shared_interfaces::share_fault;
use std::alloc::Global;

/// How many classes there are.
const CLASSES: u16 = 50;

/// Adds classes that all refer to one another. The first will have this number.
fn add_classes(alloc: Global, world: &mut World, first: ClassId) -> Option<()> {
    let mut all = List::new(alloc);
    for number in 0..CLASSES {
        all.push(after(first, number)).ok()?;
    }
    for number in 0..CLASSES {
        let mut class = class_record(alloc, &name(0, number), CLASS, OBJECT).ok()?;
        class.references = all.copied().ok()?;
        put(world, class)?;
    }
    Some(())
}

/// So many offers, half of them to every domain, over and over, and half to named ones. All classes go to the same.
fn offers(alloc: Global, first: ClassId, count: u16) -> Result<Vec<Offer>, OutOfMemory> {
    let half = count / 2;
    let mut offers = Vec::new(alloc);
    for number in 0..half {
        let class = after(first, number % CLASSES);
        offers.push(Offer { class, to: None })?;
    }
    for number in 0..half {
        let class = after(first, number % CLASSES);
        let to = Bytes::from_slice(alloc, &letters(1, number / CLASSES))?;
        offers.push(Offer {
            class,
            to: Some(to),
        })?;
    }
    Ok(offers)
}

/// So many offers are put in order. They come by domain, and the order is by class. Answers how many there are.
pub fn sorted(alloc: Global, size: u16, calls: bool) -> Option<usize> {
    let offers = offers(alloc, ClassId(0), size).ok()?;
    if !calls {
        return Some(0);
    }
    Some(Offers::of(offers).ok()?.as_slice().len())
}

/// Whether so many offers of the classes break a rule on what is shared. Answers 0 where they break none.
pub fn judged(alloc: Global, size: u16, calls: bool) -> Option<usize> {
    let mut world = World::new(alloc).ok()?;
    let first = ClassId(world.classes().len() as u32);
    add_classes(alloc, &mut world, first)?;
    let offers = Offers::of(offers(alloc, first, size).ok()?).ok()?;
    if !calls {
        return Some(0);
    }
    match share_fault(&world, DomainId(0), first, &offers) {
        Some((_, fault)) => Some(fault.rule as usize + 1),
        None => Some(0),
    }
}
