//! Worlds of domains that were loaded one after another.

ghost use Rattle.std.specs.Prelude.{◌≡◌, ◌<◌, ◌-◌, ◌^◌, IfOk, OnErr, OnOk, length};
ghost use Rattle.jk_model.specs.declared.identifiers.DomainId.{DomainId as ADomainId};
ghost use Rattle.jk_model.specs.Outside.{◌/-◌};
ghost use Rattle.jk_model_classes.specs.Worlds.{IsLiveNamed};
ghost use Rattle.jk_model_folders.specs.Loads.{MayLoad};
ghost use Rattle.folder_loader.specs.LoadAnswers.{HasLoaded};

use crate::folders::{File, add_folder};
use domain_resolver::World;
use folder_loader::{LoadAnswer, Loaded, load};
use jk_model::{Bytes, DomainId, OutOfMemory};
use jk_outside::{Files, MemoryFiles};
use std::alloc::Global;
use std::process::Abort;
use std::test::Fail;

/// A domain by its name, and the files of its folder.
pub(crate) type Domain<'a> = (&'a str, &'a [File<'a>]);

/// A world has fewer classes here, and fewer domains.
const MOST: usize = 1_000_000;

/// The system classes, and no domain.
pub(crate) fn first_world(alloc: Global) -> Result<World, OutOfMemory>
    ensures { IfOk result (λ world. MayLoad world) }
{
    let world = World::new(alloc)?;
    world.holds();
    Ok(world)
}

/// Asserts that there are few classes and domains.
fn expect_few(rt: &impl Abort, world: &World)
    ensures classes { length world.now.classes < 2 ^ 32 - 513 }
    ensures domains { length world.now.domains < 2 ^ 32 - 2 }
{
    assert!(rt; world.classes().len() < MOST);
    assert!(rt; world.domain_count() < MOST);
}

/// The loader's answer of the folder of a name below a root, through the bound.
pub(crate) fn answer<F: Files>(
    rt: &impl Abort,
    alloc: Global,
    files: &mut F,
    root: &str,
    name: &str,
    world: &mut World,
) -> Result<Loaded, LoadAnswer>
    requires { MayLoad world.old }
    ensures ok { IfOk result (λ l. HasLoaded (F.tree files.old) (root.now /- name.now) world.old name.now l world.new) }
    ensures err { OnErr result (world.new ≡ world.old) }
    ensures may { MayLoad world.new }
    ensures few { length world.new.domains < 2 ^ 32 - 2 }
{
    let answered = load(alloc, files, root, name, world);
    world.holds();
    expect_few(rt, world);
    answered
}

/// Asserts that no live domain has a name.
fn expect_free(rt: &impl Abort, world: &World, name: &[u8])
    ensures { (d : ADomainId) → IsLiveNamed world.now name.now d → ⊥ }
{
    match world.live_named(name) {
        None => {}
        Some(_) => panic!(rt; "the name is taken"),
    }
}

/// Loads the folder of a name below the root `r`, which breaks no rule, and adds its domain.
pub(crate) fn open(
    rt: &impl Abort,
    alloc: Global,
    files: &mut MemoryFiles,
    name: &str,
    world: &mut World,
) -> Result<DomainId, Fail>
    requires { MayLoad world.old }
    ensures { OnOk result (MayLoad world.new) }
{
    match answer(rt, alloc, files, "r", name, world) {
        Ok(loaded) => {
            let name = Bytes::from_slice(alloc, name.as_bytes())?;
            expect_free(rt, world, name.as_slice());
            let id = world.add_domain(name, loaded.table, loaded.offers)?;
            world.holds();
            Ok(id)
        }
        Err(LoadAnswer::Refused(rule, place)) => panic!(rt; "{name} breaks {rule:?} at {place:?}"),
        Err(_) => panic!(rt; "{name} isn't loaded"),
    }
}

/// Ends a domain.
pub(crate) fn end(world: &mut World, domain: DomainId)
    requires may { MayLoad world.old }
    requires there { domain.0 < length world.old.domains }
    ensures { MayLoad world.new }
{
    world.end_domain(domain);
    world.holds();
}

/// The world after these domains were added one after another, whose folders are in the tree by then.
pub(crate) fn opened(
    rt: &impl Abort,
    alloc: Global,
    files: &mut MemoryFiles,
    domains: &[Domain],
) -> Result<World, Fail>
    ensures { IfOk result (λ world. MayLoad world) }
{
    let mut world = first_world(alloc)?;
    for (name, folder) in domains {
        add_folder(rt, alloc, files, name, folder)?;
        open(rt, alloc, files, name, &mut world)?;
    }
    Ok(world)
}
