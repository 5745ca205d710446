//! Texts of `resolver.txt` in a folder without class files and a world without domains. What is wanted is worked out by hand
//! from the rules in words.

ghost use Rattle.std.specs.Prelude.{◌≤◌, length, take, IfOk};
ghost use Rattle.jk_model.specs.SystemTable.{system_classes};
ghost use Rattle.jk_model_classes.specs.SystemRecords.{AreSystemRecords};
ghost use Rattle.jk_model_classes.specs.Worlds.{IsWorld};
ghost use Rattle.jk_model_folders.specs.FolderTrees.{AreFiles};

use crate::class_rows::units;
use domain_resolver::{NameTable, World};
use jk_model::{Bytes, ClassId, List, OutOfMemory};
use jk_model_folders::FolderFiles;
use resolver_rules::*;
use std::alloc::Global;
use std::test::Fail;

/// A folder without class files.
fn files(alloc: Global, text: &[u8]) -> Result<FolderFiles, OutOfMemory>
    requires { length text.now ≤ 1000 }
    ensures { IfOk result AreFiles }
{
    let resolver = Bytes::from_slice(alloc, text)?;
    let classes = List::new(alloc);
    Ok(FolderFiles { classes, resolver })
}

/// A world without domains.
fn world(alloc: Global) -> Result<World, OutOfMemory>
    ensures world { IfOk result (λ w. IsWorld w (length w.domains)) }
    ensures system { IfOk result (λ w. AreSystemRecords (take (length system_classes) w.classes)) }
{
    let world = World::new(alloc)?;
    world.holds();
    Ok(world)
}

/// What is answered of a text.
fn answer(alloc: Global, text: &[u8]) -> Result<OuterNames, ResolverFault> {
    if text.len() > 1000 {
        return Err(ResolverFault::OutOfMemory);
    }
    let folder = files(alloc, text)?;
    let w = world(alloc)?;
    outer_names(alloc, &folder, &w, b"new")
}

/// The names of a text that shares and imports nothing.
fn names(alloc: Global) -> Result<NameTable, Fail> {
    match answer(alloc, b"# nothing\r\n\n \t") {
        Ok(outer) if outer.lines.is_empty() => Ok(outer.names),
        _ => Err(Fail::from("lines or a fault")),
    }
}

fn resolve(alloc: Global, names: &NameTable, name: &str) -> Result<Option<ClassId>, OutOfMemory> {
    let name = units(alloc, name)?;
    Ok(names.resolve(name.as_slice()))
}

#[test]
fn names_of_the_system(rt: HostRuntime) -> Result<(), Fail> {
    let names = names(rt.alloc())?;
    assert!(rt; names.len() == 45);
    assert!(rt; resolve(rt.alloc(), &names, "java/lang/Object")? == Some(ClassId(0)));
    assert!(rt; resolve(rt.alloc(), &names, "a")?.is_none());
    Ok(())
}

/// A line that is bad, or that imports what it may not.
#[derive(Clone, Copy, PartialEq, Eq)]
enum Line {
    Bad(u32),
    NotOffered(u32),
}

const FAULTS: &[(&[u8], Line)] = &[
    (b"share a", Line::Bad(1)),
    (b"# a\nshare a\nfly\n", Line::Bad(2)),
    (b"import a b\n\nfly\nshare a", Line::Bad(3)),
    (b"import a b", Line::NotOffered(1)),
    (b"\n#\nimport a b\nimport c d\n", Line::NotOffered(3)),
];

/// The line that is answered of a text.
fn fault(alloc: Global, text: &[u8]) -> Option<Line> {
    match answer(alloc, text) {
        Err(ResolverFault::BadLine(n)) => Some(Line::Bad(n)),
        Err(ResolverFault::NotOffered(n)) => Some(Line::NotOffered(n)),
        _ => None,
    }
}

#[test]
fn faults(rt: HostRuntime) {
    for (text, line) in FAULTS {
        assert!(rt; fault(rt.alloc(), text) == Some(*line));
    }
}
