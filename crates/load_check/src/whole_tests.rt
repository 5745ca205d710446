//! The rules of a folder as a whole, which come before all others: L1, L2 and L5.

ghost use Rattle.jk_model_folders.specs.Loads.{MayLoad};

use crate::cases::{Wanted, expect_answer};
use crate::folders::{add, add_bytes};
use crate::small_tests::SMALL;
use crate::worlds::{Domain, answer, first_world, opened};
use domain_resolver::World;
use folder_loader::LoadAnswer;
use jk_model::{Bytes, Place, Rule};
use jk_outside::MemoryFiles;
use std::alloc::Global;
use std::process::Abort;
use std::test::Fail;

/// The domain that is live.
const LIVE: &[Domain<'static>] = &[("b", &[("B.class", "class 0021 B java/lang/Object")])];

/// Folders beside the domain `b`, whose folder has a class file by now that breaks a rule.
const FOLDERS: &[(&str, Wanted<'static>)] = &[
    ("b", Wanted::Whole(Rule::L1)),
    ("none", Wanted::Whole(Rule::L2)),
    ("file", Wanted::Whole(Rule::L2)),
    // 1,048,576 bytes and one more; in the second folder a line is outside the grammar too
    ("long", Wanted::At(Rule::C4, "A.class", 53)),
    ("longer", Wanted::Whole(Rule::L5)),
    ("deep", Wanted::Loads),
    ("deeper", Wanted::Whole(Rule::L5)),
];

/// A class file of as many bytes as it may have, most of them behind its end.
fn long_file(alloc: Global) -> Result<Bytes, Fail> {
    let zeros = vec![in alloc; 0u8; 1_048_523]?;
    let mut long = Bytes::from_slice(alloc, SMALL)?;
    long.extend_from_slice(zeros.as_slice())?;
    Ok(long)
}

/// Folders at the limit of a file's bytes, below the root `r`.
fn add_long_files(rt: &impl Abort, alloc: Global, files: &mut MemoryFiles) -> Result<(), Fail> {
    let mut long = long_file(alloc)?;
    add_bytes(rt, alloc, files, "long", "A.class", long.as_slice())?;
    long.push(0)?;
    add_bytes(rt, alloc, files, "longer", "A.class", long.as_slice())?;
    add_bytes(rt, alloc, files, "longer", "resolver.txt", b"share")
}

/// Puts so many files of these bytes into the folder of a name.
fn add_numbered(
    rt: &impl Abort,
    alloc: Global,
    files: &mut MemoryFiles,
    name: &str,
    ending: &str,
    bytes: &[u8],
    count: u32,
) -> Result<(), Fail> {
    for i in 0..count {
        let path = format!(in alloc; "K{i}.{ending}")?;
        add_bytes(rt, alloc, files, name, path.as_str(), bytes)?;
    }
    Ok(())
}

/// Folders at the limit of levels.
fn add_deep_files(rt: &impl Abort, files: &mut MemoryFiles) {
    add(
        rt,
        files,
        "r/deep/1/2/3/4/5/6/7/8/9/10/11/12/13/14/15/16/a",
        b"",
    );
    add(
        rt,
        files,
        "r/deeper/1/2/3/4/5/6/7/8/9/10/11/12/13/14/15/16/17/a",
        b"",
    );
}

/// All of these, a file that is no folder, and a class file of the live domain that breaks a rule.
fn add_folders(rt: &impl Abort, alloc: Global, files: &mut MemoryFiles) -> Result<(), Fail> {
    add_bytes(rt, alloc, files, "b", "C.class", b"no class file")?;
    add(rt, files, "r/file", b"no folder");
    add_long_files(rt, alloc, files)?;
    add_deep_files(rt, files);
    Ok(())
}

/// Asserts what is answered of each folder of a table.
fn expect_wholes(
    rt: &impl Abort,
    alloc: Global,
    files: &mut MemoryFiles,
    world: &mut World,
    rows: &[(&str, Wanted)],
) -> Result<(), Fail>
    requires { MayLoad world.old }
    ensures { MayLoad world.new }
{
    for (name, wanted) in rows {
        expect_answer(rt, alloc, files, name, world, *wanted)?;
    }
    Ok(())
}

#[test]
fn folders_as_a_whole(rt: HostRuntime) -> Result<(), Fail> {
    let alloc = rt.alloc();
    let mut files = MemoryFiles::new(alloc);
    let mut world = opened(&rt, alloc, &mut files, LIVE)?;
    add_folders(&rt, alloc, &mut files)?;
    expect_wholes(&rt, alloc, &mut files, &mut world, FOLDERS)?;
    // L1 comes before L2.
    let unknown = answer(&rt, alloc, &mut files, "nothing", "b", &mut world);
    assert!(rt; matches!(unknown, Err(LoadAnswer::Refused(Rule::L1, Place::Whole))));
    Ok(())
}

/// 512 class files, and one more in a folder below.
#[test]
fn class_files_of_a_folder(rt: HostRuntime) -> Result<(), Fail> {
    let alloc = rt.alloc();
    let mut files = MemoryFiles::new(alloc);
    let mut world = first_world(alloc)?;
    add_numbered(&rt, alloc, &mut files, "a", "class", SMALL, 512)?;
    let wanted = Wanted::At(Rule::C17, "K0.class", 0);
    expect_answer(&rt, alloc, &mut files, "a", &mut world, wanted)?;
    add_bytes(&rt, alloc, &mut files, "a", "one/more.class", b"")?;
    let wanted = Wanted::Whole(Rule::L5);
    expect_answer(&rt, alloc, &mut files, "a", &mut world, wanted)
}

/// Class files of 16,777,216 bytes together, and one byte more.
#[test]
fn bytes_of_a_folder(rt: HostRuntime) -> Result<(), Fail> {
    let alloc = rt.alloc();
    let mut files = MemoryFiles::new(alloc);
    let mut world = first_world(alloc)?;
    let long = long_file(alloc)?;
    add_numbered(&rt, alloc, &mut files, "a", "class", long.as_slice(), 16)?;
    let wanted = Wanted::At(Rule::C4, "K0.class", 53);
    expect_answer(&rt, alloc, &mut files, "a", &mut world, wanted)?;
    add_bytes(&rt, alloc, &mut files, "a", "one.class", b"\xca")?;
    let wanted = Wanted::Whole(Rule::L5);
    expect_answer(&rt, alloc, &mut files, "a", &mut world, wanted)
}
