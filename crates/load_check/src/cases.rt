//! Folders with what is to be answered of them.

ghost use Rattle.jk_model_folders.specs.Loads.{MayLoad};

use crate::folders::{File, add_folder};
use crate::worlds::{Domain, answer, opened};
use domain_resolver::World;
use folder_loader::LoadAnswer;
use jk_model::{Place, Rule};
use jk_outside::MemoryFiles;
use std::alloc::Global;
use std::process::Abort;
use std::test::Fail;

/// What is to be answered of a folder.
#[derive(Clone, Copy, Debug)]
pub(crate) enum Wanted<'a> {
    /// Its classes are loaded.
    Loads,
    /// It breaks this rule as a whole.
    Whole(Rule),
    /// It breaks this rule in the file of this path, at this number.
    At(Rule, &'a str, u32),
}

/// A folder by the name of its domain, with what is to be answered of it.
pub(crate) type Case<'a> = (&'a str, &'a [File<'a>], Wanted<'a>);

/// Whether a refusal has a rule and a place.
fn is_refusal(rule: Rule, place: &Place, wanted: &Wanted) -> bool {
    match (place, wanted) {
        (Place::Whole, Wanted::Whole(other)) => rule == *other,
        (Place::At { path, number }, Wanted::At(other, file, at)) => {
            rule == *other && path.as_slice() == file.as_bytes() && *number == *at
        }
        _ => false,
    }
}

/// Asserts what is answered of the folder of a name, and that the world is as before where it is refused.
pub(crate) fn expect_answer(
    rt: &impl Abort,
    alloc: Global,
    files: &mut MemoryFiles,
    name: &str,
    world: &mut World,
    wanted: Wanted,
) -> Result<(), Fail>
    requires { MayLoad world.old }
    ensures { MayLoad world.new }
{
    let (classes, domains) = (world.classes().len(), world.domain_count());
    match answer(rt, alloc, files, "r", name, world) {
        Ok(loaded) => {
            assert!(rt;
                matches!(wanted, Wanted::Loads),
                "{name}: {wanted:?}, but it loads"
            );
            assert!(rt; loaded.first.0 as usize == classes, "{name}");
        }
        Err(LoadAnswer::Refused(rule, place)) => {
            assert!(rt;
                is_refusal(rule, &place, &wanted),
                "{name}: {wanted:?}, but {rule:?} at {place:?}"
            );
            assert!(rt; world.classes().len() == classes, "{name}");
        }
        Err(_) => panic!(rt; "{name}: {wanted:?}, but a fault"),
    }
    assert!(rt; world.domain_count() == domains, "{name}");
    assert!(rt; files.faults() == 0, "{name}");
    Ok(())
}

/// Asserts what is answered of a folder, in a world of its own after these domains.
fn expect_case(
    rt: &impl Abort,
    alloc: Global,
    domains: &[Domain],
    case: &Case,
) -> Result<(), Fail> {
    let (name, folder, wanted) = case;
    let mut files = MemoryFiles::new(alloc);
    let mut world = opened(rt, alloc, &mut files, domains)?;
    add_folder(rt, alloc, &mut files, name, folder)?;
    expect_answer(rt, alloc, &mut files, name, &mut world, *wanted)
}

/// Asserts what is answered of each folder of a table, each in a world of its own after these domains.
pub(crate) fn expect_answers(
    rt: &impl Abort,
    alloc: Global,
    domains: &[Domain],
    cases: &[Case],
) -> Result<(), Fail> {
    for case in cases {
        expect_case(rt, alloc, domains, case)?;
    }
    Ok(())
}
