//! Folders in memory, and what is read of them.

use folder_reader::{FolderError, read_folder};
use jk_model_folders::FolderFiles;
use jk_outside::{Files, MemoryFiles};
use std::alloc::Global;
use std::process::Abort;
use std::test::Fail;

/// The reading of a folder through the bound.
fn read<F: Files>(alloc: Global, files: &mut F, root: &str) -> Result<FolderFiles, FolderError> {
    read_folder(alloc, files, root)
}

/// Puts a file into a told tree.
fn add(rt: &impl Abort, files: &mut MemoryFiles, path: &str, bytes: &[u8]) {
    assert!(rt; files.is_addable(path), "no file may stand at {path}");
    assert!(rt; files.add(path, bytes).is_ok());
}

// ---- Short files.

/// A file, by its path and its bytes.
type File<'a> = (&'a str, &'a [u8]);

const SHORT: &[File<'static>] = &[
    ("r/one/a/b.class", b"2"),
    ("r/one/a.class", b"1"),
    ("r/one/a-b.class", b"0"),
    ("r/one/a/c/d.class", b"3"),
    ("r/one/a/note.txt", b"passed over"),
    ("r/one/a/resolver.txt", b"no resolver"),
    ("r/one/resolver.txt", b"share"),
    ("r/two/resolver.txt/x.class", b"4"),
    ("r/two/y.class/z", b"no class"),
];

/// The class files of each folder in the order of their paths, and its `resolver.txt`.
const FOLDERS: &[(&str, &[File<'static>], &[u8])] = &[
    (
        "r/one",
        &[
            ("a-b.class", b"0"),
            ("a.class", b"1"),
            ("a/b.class", b"2"),
            ("a/c/d.class", b"3"),
        ],
        b"share",
    ),
    ("r/two", &[("resolver.txt/x.class", b"4")], b""),
];

/// A told tree of these files.
fn tree(rt: &impl Abort, alloc: Global, rows: &[File]) -> MemoryFiles {
    let mut files = MemoryFiles::new(alloc);
    for (path, bytes) in rows {
        add(rt, &mut files, path, bytes);
    }
    files
}

/// Whether a folder has these class files and this `resolver.txt`.
fn has_files(found: &FolderFiles, rows: &[File], resolver: &[u8]) -> bool {
    let classes = found.classes.as_slice();
    let are_same = classes.iter().zip(rows).all(|(class, row)| {
        class.path.as_slice() == row.0.as_bytes() && class.bytes.as_slice() == row.1
    });
    are_same && classes.len() == rows.len() && found.resolver.as_slice() == resolver
}

#[test]
fn reads_nested_folders(rt: HostRuntime) -> Result<(), Fail> {
    let mut files = tree(&rt, rt.alloc(), SHORT);
    for (root, rows, resolver) in FOLDERS {
        assert!(rt;
            has_files(&read(rt.alloc(), &mut files, root)?, rows, resolver),
            "{root}"
        );
    }
    let absent = read(rt.alloc(), &mut files, "r/three");
    assert!(rt; matches!(absent, Err(FolderError::NoFolder)));
    assert!(rt; files.faults() == 0);
    Ok(())
}

// ---- Large folders.

/// So many files of so many bytes in a folder. The end of their names stands after their number, and is the whole name of a single one.
type FileRow<'a> = (&'a str, &'a str, usize, u32);

/// For each limit of levels, bytes and files a folder that keeps it and one that doesn't.
const LARGE: &[FileRow<'static>] = &[
    (
        "deep/1/2/3/4/5/6/7/8/9/10/11/12/13/14/15/16",
        "a.class",
        0,
        1,
    ),
    (
        "deeper/1/2/3/4/5/6/7/8/9/10/11/12/13/14/15/16/17",
        "a.class",
        0,
        1,
    ),
    ("long", "a.class", 1_048_576, 1),
    ("longer", "a.class", 1_048_577, 1),
    ("resolved", "resolver.txt", 1_048_576, 1),
    ("unresolved", "resolver.txt", 1_048_577, 1),
    ("passed", "note.txt", 1_048_577, 1),
    ("heavy", ".class", 1_048_576, 16),
    ("heavier", ".class", 1_048_576, 16),
    ("heavier", "last.class", 1, 1),
    ("many/a", ".class", 0, 512),
    ("more/a", ".class", 0, 512),
    ("more", "b.class", 0, 1),
];

/// How many class files each folder has, or none where it is too large.
const COUNTS: &[(&str, Option<usize>)] = &[
    ("deep", Some(1)),
    ("deeper", None),
    ("long", Some(1)),
    ("longer", None),
    ("resolved", Some(0)),
    ("unresolved", None),
    ("passed", Some(0)),
    ("heavy", Some(16)),
    ("heavier", None),
    ("many", Some(512)),
    ("more", None),
];

/// Puts these files into a told tree.
fn add_large(
    rt: &impl Abort,
    alloc: Global,
    files: &mut MemoryFiles,
    row: &FileRow,
) -> Result<(), Fail> {
    let (folder, name, length, count) = row;
    let bytes = vec![in alloc; 0u8; *length]?;
    for i in 0..*count {
        let path = if *count == 1 {
            format!(in alloc; "{folder}/{name}")?
        } else {
            format!(in alloc; "{folder}/{i}{name}")?
        };
        add(rt, files, path.as_str(), bytes.as_slice());
    }
    Ok(())
}

/// How many class files a folder has; none where it is too large.
fn class_files(
    alloc: Global,
    files: &mut MemoryFiles,
    root: &str,
) -> Result<Option<usize>, FolderError> {
    match read(alloc, files, root) {
        Ok(found) => Ok(Some(found.classes.len())),
        Err(FolderError::TooLarge) => Ok(None),
        Err(other) => Err(other),
    }
}

#[test]
fn tells_large_folders(rt: HostRuntime) -> Result<(), Fail> {
    let mut files = MemoryFiles::new(rt.alloc());
    for row in LARGE {
        add_large(&rt, rt.alloc(), &mut files, row)?;
    }
    for (root, wanted) in COUNTS {
        assert!(rt;
            class_files(rt.alloc(), &mut files, root)? == *wanted,
            "{root}"
        );
    }
    assert!(rt; files.faults() == 0);
    Ok(())
}

// ---- Faults.

const FAULTY: &[File<'static>] = &[("r/a/b.class", b"1"), ("r/resolver.txt", b"")];

/// Whether the reading of a folder fails where the call of this number does, and the fault is counted.
fn fails_at(rt: &impl Abort, alloc: Global, call: u32) -> Result<bool, Fail> {
    let mut files = tree(rt, alloc, FAULTY);
    files.fail_at(call)?;
    let failed = match read(alloc, &mut files, "r") {
        Ok(_) => false,
        Err(FolderError::ReadFault) => true,
        Err(other) => return Err(Fail::from(other)),
    };
    assert!(rt; files.faults() == u64::from(failed), "call {call}");
    Ok(failed)
}

/// Two folders are listed and two files read, and each of these calls may fail.
#[test]
fn tells_faults(rt: HostRuntime) -> Result<(), Fail> {
    for call in 1..6 {
        assert!(rt;
            fails_at(&rt, rt.alloc(), call)? == (call < 5),
            "call {call}"
        );
    }
    Ok(())
}
