//! What the loader asks of files: each folder once and each file that counts once, and what it answers where they fail.

use crate::folders::{File, add_folder};
use crate::worlds::{answer, first_world};
use folder_loader::LoadAnswer;
use jk_outside::MemoryFiles;
use std::alloc::Global;
use std::process::Abort;
use std::test::Fail;

/// Whether a load ends with a fault where the call of this number fails. Then the world is as before.
fn fails_at(rt: &impl Abort, alloc: Global, folder: &[File], call: u32) -> Result<bool, Fail> {
    let mut files = MemoryFiles::new(alloc);
    add_folder(rt, alloc, &mut files, "a", folder)?;
    files.fail_at(call)?;
    let mut world = first_world(alloc)?;
    let answered = answer(rt, alloc, &mut files, "r", "a", &mut world);
    let failed = matches!(answered, Err(LoadAnswer::ReadFault));
    assert!(rt; files.faults() == u64::from(failed));
    assert!(rt; !failed || world.classes().len() == 45);
    Ok(failed)
}

/// Asserts that the loader makes so many calls of the files of a folder.
fn expect_calls(rt: &impl Abort, alloc: Global, folder: &[File], calls: u32) -> Result<(), Fail> {
    for call in 1..=calls {
        let failed = fails_at(rt, alloc, folder, call)?;
        assert!(rt; failed, "call {call}");
    }
    let failed = fails_at(rt, alloc, folder, calls.saturating_add(1))?;
    assert!(rt; !failed, "one call more than {calls}");
    Ok(())
}

/// Folders with the number of calls: that of the folders, the class files and `resolver.txt` at the top.
const CALLS: &[(&[File<'static>], u32)] = &[
    (&[], 1),
    (&[("note.txt", "no class")], 1),
    (&[("resolver.txt", "share")], 2),
    // It loads.
    (
        &[
            ("A.class", "class 0021 A p/B p/q/C"),
            ("p/B.class", "class 0021 p/B java/lang/Object"),
            ("p/q/C.class", "class 0601 p/q/C java/lang/Object"),
            ("p/q/note.txt", "no class"),
            ("p/resolver.txt", "no resolver"),
            ("resolver.txt", "share A|share p/B|share p/q/C"),
        ],
        7,
    ),
    // The first file breaks a rule on bytes, and the last one among all classes.
    (
        &[
            ("A.class", "class 0431 A java/lang/Object"),
            ("B.class", "class 0021 B java/lang/Object"),
        ],
        3,
    ),
    (
        &[
            ("A.class", "class 0021 A java/lang/Object"),
            ("B.class", "class 0021 B C"),
        ],
        3,
    ),
];

/// Asserts the calls of each folder of a table.
fn expect_all_calls(rt: &impl Abort, alloc: Global, rows: &[(&[File], u32)]) -> Result<(), Fail> {
    for (folder, calls) in rows {
        expect_calls(rt, alloc, folder, *calls)?;
    }
    Ok(())
}

#[test]
fn each_file_once(rt: HostRuntime) -> Result<(), Fail> {
    expect_all_calls(&rt, rt.alloc(), CALLS)
}
