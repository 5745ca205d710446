//! Imports of classes whose domain ended.

ghost use Rattle.std.specs.Prelude.{OnOk};
ghost use Rattle.jk_model_folders.specs.Loads.{MayLoad};

use crate::cases::Wanted::{At, Loads};
use crate::cases::{Wanted, expect_answer};
use crate::folders::{File, add_folder};
use crate::worlds::{end, first_world, open};
use domain_resolver::World;
use jk_model::Rule;
use jk_outside::MemoryFiles;
use std::alloc::Global;
use std::process::Abort;
use std::test::Fail;

const BOX: (&str, &str) = ("Box.class", "class 0021 Box java/lang/Object");

/// What is done with a domain.
#[derive(Clone, Copy)]
enum Does<'a> {
    /// Its folder gets these files, and it is opened.
    Opens(&'a [File<'a>]),
    /// Its folder gets these files, and this is answered of it.
    Answers(&'a [File<'a>], Wanted<'a>),
    Ends,
}

const MINE: (&str, &str) = ("My.class", "class 0021 My java/lang/Object|field 1 b LBox;");

const WRAP: (&str, &str) = (
    "Wrap.class",
    "class 0021 Wrap java/lang/Object|field 1 b LBox;",
);

/// `a` wraps a box of `b`, which was offered to it and to two more. Then `b` ends, and there is a new one.
const ENDED: &[(&str, Does<'static>)] = &[
    (
        "b",
        Does::Opens(&[BOX, ("resolver.txt", "share Box a|share Box c|share Box d")]),
    ),
    (
        "a",
        Does::Opens(&[
            WRAP,
            ("resolver.txt", "share Wrap c|share Wrap d|import b Box"),
        ]),
    ),
    ("b", Does::Ends),
    (
        "c",
        Does::Answers(
            &[MINE, ("resolver.txt", "import b Box")],
            At(Rule::L7, "resolver.txt", 1),
        ),
    ),
    // The box's offers are those of the ended domain.
    (
        "c",
        Does::Answers(
            &[("resolver.txt", "import a Wrap|share My")],
            At(Rule::C26, "My.class", 0),
        ),
    ),
    (
        "c",
        Does::Opens(&[("resolver.txt", "import a Wrap|share My d")]),
    ),
    // The new domain has another class of that name.
    ("b", Does::Opens(&[("resolver.txt", "share Box")])),
    (
        "d",
        Does::Answers(
            &[("resolver.txt", "import a Wrap|import b Box")],
            At(Rule::L7, "resolver.txt", 2),
        ),
    ),
    (
        "d",
        Does::Answers(
            &[("resolver.txt", "import b Box|import c My")],
            At(Rule::L7, "resolver.txt", 2),
        ),
    ),
    (
        "d",
        Does::Answers(&[("resolver.txt", "import a Wrap|import c My")], Loads),
    ),
];

/// Ends the domain of a name.
fn end_named(rt: &impl Abort, world: &mut World, name: &str)
    requires { MayLoad world.old }
    ensures { MayLoad world.new }
{
    match world.live_named(name.as_bytes()) {
        Some(domain) => {
            assert!(rt; (domain.0 as usize) < world.domain_count());
            end(world, domain);
        }
        None => panic!(rt; "no domain {name}"),
    }
}

fn take_step(
    rt: &impl Abort,
    alloc: Global,
    files: &mut MemoryFiles,
    world: &mut World,
    name: &str,
    does: &Does,
) -> Result<(), Fail>
    requires { MayLoad world.old }
    ensures { OnOk result (MayLoad world.new) }
{
    match does {
        Does::Opens(folder) => {
            add_folder(rt, alloc, files, name, folder)?;
            open(rt, alloc, files, name, world)?;
        }
        Does::Answers(folder, wanted) => {
            add_folder(rt, alloc, files, name, folder)?;
            expect_answer(rt, alloc, files, name, world, *wanted)?;
        }
        Does::Ends => end_named(rt, world, name),
    }
    Ok(())
}

/// Takes these steps one after another, in a world without domains.
fn take_steps(rt: &impl Abort, alloc: Global, steps: &[(&str, Does)]) -> Result<(), Fail> {
    let mut files = MemoryFiles::new(alloc);
    let mut world = first_world(alloc)?;
    for (name, does) in steps {
        take_step(rt, alloc, &mut files, &mut world, name, does)?;
    }
    Ok(())
}

#[test]
fn imports_of_ended_domains(rt: HostRuntime) -> Result<(), Fail> {
    take_steps(&rt, rt.alloc(), ENDED)
}
