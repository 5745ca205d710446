//! Stubs of many classes that have the methods of one remote interface from their parent.

use crate::names::name;
use crate::records::{CLASS, INTERFACE, OBJECT, Signature, class_record};
use crate::worlds::{after, put};
use domain_resolver::World;
use jk_model::{ClassId, List, MemberId, OutOfMemory};
use jk_model_classes::{MethodRecord, Stub};
use shared_values::Text;
use std::alloc::Global;
use stub_maker::{stub_of, target_of};
use system_table::class_named;

/// How many classes stand below the parent.
const CLASSES: u16 = 500;

/// Of so many methods one is called.
const STEP: u16 = 100;

/// The number of jk/Remote.
fn remote(alloc: Global) -> Option<ClassId> {
    let mut units = List::new(alloc);
    for byte in b"jk/Remote" {
        units.push(u16::from(*byte)).ok()?;
    }
    let number = class_named(units.as_slice())?;
    Some(ClassId(u32::from(number)))
}

/// So many methods, as the interface declares them and as the parent defines them.
#[derive(Drop)]
struct MethodLists {
    declared: List<MethodRecord>,
    defined: List<MethodRecord>,
}

/// Makes them.
fn methods(alloc: Global, count: u16) -> Result<MethodLists, OutOfMemory> {
    let signature = Signature::empty(alloc)?;
    let mut declared = List::new(alloc);
    let mut defined = List::new(alloc);
    for i in 0..count {
        let name = Text::new(alloc, &name(0, i))?;
        defined.push(signature.defined(alloc, name.share()?)?)?;
        declared.push(signature.declared(name)?)?;
    }
    Ok(MethodLists { declared, defined })
}

/// A remote interface, a class that implements it, and the first class below that one, which the others follow.
#[derive(Clone, Copy)]
struct Family {
    interface: ClassId,
    parent: ClassId,
    first: ClassId,
}

/// Adds the interface and the class that implements it.
fn add_parent(alloc: Global, world: &mut World, count: u16) -> Option<(ClassId, ClassId)> {
    let methods = methods(alloc, count).ok()?;
    let mut interface = class_record(alloc, &name(1, 0), INTERFACE, OBJECT).ok()?;
    interface.interfaces = List::from_slice(alloc, &[remote(alloc)?]).ok()?;
    interface.methods = methods.declared;
    let interface = put(world, interface)?;
    let mut parent = class_record(alloc, &name(2, 0), CLASS, OBJECT).ok()?;
    parent.interfaces = List::from_slice(alloc, &[interface]).ok()?;
    parent.methods = methods.defined;
    let parent = put(world, parent)?;
    Some((interface, parent))
}

/// Adds all.
fn add_all(alloc: Global, world: &mut World, count: u16) -> Option<Family> {
    let (interface, parent) = add_parent(alloc, world, count)?;
    let first = put(world, class_record(alloc, &name(3, 0), CLASS, parent).ok()?)?;
    for i in 1..CLASSES {
        put(world, class_record(alloc, &name(3, i), CLASS, parent).ok()?)?;
    }
    Some(Family {
        interface,
        parent,
        first,
    })
}

/// The stubs of all classes below the parent.
fn make_stubs(world: &World, alloc: Global, first: ClassId) -> Option<List<Stub>> {
    let mut stubs = List::new(alloc);
    for i in 0..CLASSES {
        stubs
            .push(stub_of(alloc, world.classes(), after(first, i)).ok()??)
            .ok()?;
    }
    Some(stubs)
}

/// The stub of each class. Answers how many interfaces all stubs have together.
pub fn stubs(alloc: Global, size: u16, calls: bool) -> Option<usize> {
    let mut world = World::new(alloc).ok()?;
    let family = add_all(alloc, &mut world, size)?;
    if !calls {
        return Some(0);
    }
    let stubs = make_stubs(&world, alloc, family.first)?;
    let mut interfaces = 0usize;
    for stub in stubs.as_slice() {
        interfaces = interfaces.saturating_add(stub.interfaces.len());
    }
    Some(interfaces)
}

/// Whether a method of the interface runs the parent's, by a stub.
fn runs_parent(world: &World, family: &Family, stub: &Stub, index: u16) -> bool {
    let called = MemberId {
        class: family.interface,
        index,
    };
    let found = target_of(world.classes(), stub, called);
    found
        == Some(MemberId {
            class: family.parent,
            index,
        })
}

/// What every hundredth method of the interface runs by each stub. Answers how often it is the parent's of its place.
pub fn targets(alloc: Global, size: u16, calls: bool) -> Option<usize> {
    let mut world = World::new(alloc).ok()?;
    let family = add_all(alloc, &mut world, size)?;
    let stubs = make_stubs(&world, alloc, family.first)?;
    if !calls {
        return Some(0);
    }
    let mut right = 0usize;
    for stub in stubs.as_slice() {
        let of_stub = (0..size / STEP)
            .filter(|i| runs_parent(&world, &family, stub, i.saturating_mul(STEP)))
            .count();
        right = right.saturating_add(of_stub);
    }
    Some(right)
}
