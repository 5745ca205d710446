//! Files at work, in memory and on the disk, each generic call through its bound at a concrete type.

ghost use Rattle.std.specs.Prelude.{◌≤◌, length};

use jk_outside::{Disk, DiskFiles, Entry, Files, FilesError, MemoryFiles, System};
use std::alloc::Global;
use std::fs::Metadata;
use std::io::{Error, ErrorKind};
use std::os::unix;
use std::process::Abort;
use std::test::Fail;
use std::{env, fs, io, process};

/// What is asked of files below a root, with the most that may come, and what is answered. A path begins with `/`, or is empty.
enum Question<'a> {
    /// A folder is listed: the names, and whether they are of folders.
    List(&'a str, u32, Result<&'a [Name<'a>], FilesError>),
    /// A folder is listed, which has so many entries in any order, all of them folders.
    Folders(&'a str, u32, usize),
    /// A file is read.
    Read(&'a str, u32, Result<&'a [u8], FilesError>),
}

/// The name of an entry, and whether it is that of a folder.
type Name<'a> = (&'a [u8], bool);

fn are_named(entries: &[Entry], names: &[Name]) -> bool {
    let are_same = entries.iter().zip(names).all(|(entry, name)| entry.name.as_slice() == name.0
        && entry.folder == name.1);
    are_same && entries.len() == names.len()
}

fn lists<F: Files>(
    files: &mut F,
    path: &str,
    limit: u32,
    wanted: &Result<&[Name], FilesError>,
) -> bool {
    match files.list(path, limit) {
        Ok(entries) => matches!(wanted, Ok(names) if are_named(entries.as_slice(), names)),
        Err(error) => matches!(wanted, Err(other) if error == *other),
    }
}

fn has_folders<F: Files>(files: &mut F, path: &str, limit: u32, count: usize) -> bool {
    match files.list(path, limit) {
        Ok(entries) => {
            let entries = entries.as_slice();
            entries.len() == count && entries.iter().all(|entry| entry.folder)
        }
        Err(_) => false,
    }
}

fn reads<F: Files>(
    files: &mut F,
    path: &str,
    limit: u32,
    wanted: &Result<&[u8], FilesError>,
) -> bool {
    match files.read(path, limit) {
        Ok(bytes) => matches!(wanted, Ok(other) if bytes.as_slice() == *other),
        Err(error) => matches!(wanted, Err(other) if error == *other),
    }
}

/// A path below a root.
fn below(alloc: Global, root: &str, path: &str) -> Result<String, Fail> {
    Ok(format!(in alloc; "{root}{path}")?)
}

/// Whether a question is answered as it says.
fn answers<F: Files>(
    alloc: Global,
    files: &mut F,
    root: &str,
    question: &Question,
) -> Result<bool, Fail> {
    match question {
        Question::List(path, limit, wanted) => {
            let path = below(alloc, root, path)?;
            Ok(lists(files, path.as_str(), *limit, wanted))
        }
        Question::Folders(path, limit, count) => {
            let path = below(alloc, root, path)?;
            Ok(has_folders(files, path.as_str(), *limit, *count))
        }
        Question::Read(path, limit, wanted) => {
            let path = below(alloc, root, path)?;
            Ok(reads(files, path.as_str(), *limit, wanted))
        }
    }
}

// ---- A tree in memory.

/// The files of a told tree, of which one is added twice.
const TREE: &[(&str, &[u8])] = &[
    ("root/one/a/B.class", b"1"),
    ("root/one/resolver.txt", b"22"),
    ("root/one/a/C.class", b"333"),
    ("root/one/resolver.txt", b"4444"),
];

const TOLD: &[Question<'static>] = &[
    Question::List("/one", 2, Ok(&[(b"a", true), (b"resolver.txt", false)])),
    Question::Read("/one/resolver.txt", 4, Ok(b"4444")),
    Question::List("/one", 1, Err(FilesError::TooLong)),
    Question::Read("/one/resolver.txt", 3, Err(FilesError::TooLong)),
    Question::List("/two", 2, Err(FilesError::Absent)),
    Question::Read("/one", 9, Err(FilesError::Absent)),
];

/// Puts a file into a told tree.
fn add(rt: &impl Abort, files: &mut MemoryFiles, path: &str, bytes: &[u8]) {
    assert!(rt; files.is_addable(path), "no file may stand at {path}");
    assert!(rt; files.add(path, bytes).is_ok());
}

#[test]
fn tells_a_tree(rt: HostRuntime) -> Result<(), Fail> {
    let mut files = MemoryFiles::new(rt.alloc());
    for (path, bytes) in TREE {
        add(&rt, &mut files, path, bytes);
    }
    for (i, question) in TOLD.iter().enumerate() {
        assert!(rt;
            answers(rt.alloc(), &mut files, "root", question)?,
            "question {i}"
        );
    }
    assert!(rt; files.faults() == 0);
    Ok(())
}

// ---- A disk, and other systems.

/// What is done on a disk, or asked of the files of a system.
enum Step<'a> {
    /// A folder is made.
    Folder(&'a str),
    /// A file is written.
    File(&'a str, &'a [u8]),
    /// A link is made that leads to this path.
    Link(&'a str, &'a str),
    Asks(Question<'a>),
    /// So many faults were counted.
    Faults(u64),
    /// So many bytes and entries were taken.
    Taken(u64),
}

const READS: &[Step<'static>] = &[
    Step::Folder("/folder"),
    Step::File("/folder/file", b"bytes"),
    Step::Asks(Question::List("", 1, Ok(&[(b"folder", true)]))),
    Step::Asks(Question::List("/folder", 1, Ok(&[(b"file", false)]))),
    Step::Asks(Question::Read("/folder/file", 5, Ok(b"bytes"))),
    Step::Faults(0),
    Step::Taken(7),
    Step::Asks(Question::Read("/folder/file", 4, Err(FilesError::TooLong))),
    Step::Asks(Question::List("/folder", 0, Err(FilesError::TooLong))),
    Step::Taken(13),
];

const FAULTS: &[Step<'static>] = &[
    Step::File("/file", b"bytes"),
    Step::Asks(Question::List("/file", 5, Err(FilesError::Absent))),
    Step::Asks(Question::Read("", 5, Err(FilesError::Failed))),
    Step::Asks(Question::Read("/link", 5, Err(FilesError::Absent))),
    Step::Faults(3),
    Step::Link("/link", "nowhere"),
    Step::Asks(Question::List("", 5, Err(FilesError::Failed))),
    Step::Faults(4),
];

const LINKS: &[Step<'static>] = &[
    Step::Folder("/folder"),
    Step::File("/folder/resolver.txt", b"share A\n"),
    Step::Link("/link", "folder"),
    Step::Asks(Question::Folders("", 2, 2)),
    Step::Asks(Question::List("/link", 1, Ok(&[(b"resolver.txt", false)]))),
    Step::Asks(Question::Read("/link/resolver.txt", 8, Ok(b"share A\n"))),
    Step::Faults(0),
];

/// Makes what a step makes on the disk.
fn make(rt: &HostRuntime, root: &str, step: &Step) -> Result<(), Fail> {
    match step {
        Step::Folder(path) => {
            let path = below(rt.alloc(), root, path)?;
            fs::create_dir_all(rt, path.as_str())?;
        }
        Step::File(path, bytes) => {
            let path = below(rt.alloc(), root, path)?;
            fs::write(rt, path.as_str(), *bytes)?;
        }
        Step::Link(path, to) => {
            let path = below(rt.alloc(), root, path)?;
            unix::fs::symlink(rt, to, path.as_str())?;
        }
        _ => {}
    }
    Ok(())
}

/// Whether what a step asks of the files of a system is answered as it says.
fn comes_out<S: System + Drop>(
    alloc: Global,
    files: &mut DiskFiles<S>,
    root: &str,
    step: &Step,
) -> Result<bool, Fail> {
    match step {
        Step::Asks(question) => answers(alloc, files, root, question),
        Step::Faults(faults) => Ok(files.faults() == *faults),
        Step::Taken(taken) => Ok(files.taken() == *taken),
        _ => Ok(true),
    }
}

/// A folder of the system's, which a test may fill.
fn new_folder(rt: &HostRuntime, name: &str) -> io::Result<String> {
    let id = process::id(rt.process());
    let temporary = env::temp_dir(rt)?;
    let root = format!(in rt.alloc(); "{}/jk_outside_{name}_{id}", temporary.as_str())?;
    fs::create_dir_all(rt, root.as_str())?;
    Ok(root)
}

/// Takes each step in a new folder of a name on the disk.
fn take_steps(rt: &HostRuntime, name: &str, steps: &[Step]) -> Result<(), Fail> {
    let root = new_folder(rt, name)?;
    let mut files = DiskFiles::new(rt.alloc(), Disk::new(rt.alloc(), rt.clone()?));
    for (i, step) in steps.iter().enumerate() {
        make(rt, root.as_str(), step)?;
        if !comes_out(rt.alloc(), &mut files, root.as_str(), step)? {
            return Err(Fail::from(format!(in rt.alloc(); "step {i} in {name}")?));
        }
    }
    fs::remove_dir_all(rt, root.as_str())?;
    Ok(())
}

#[test]
fn reads_a_disk(rt: HostRuntime) -> Result<(), Fail> {
    take_steps(&rt, "reads", READS)?;
    take_steps(&rt, "faults", FAULTS)?;
    take_steps(&rt, "links", LINKS)
}

/// A file of three bytes a turn, whose turns come after one that is interrupted.
#[derive(Drop)]
struct Turns {
    left: u8,
    interrupted: bool,
}

impl Turns {
    fn next(&mut self, piece: &mut [u8]) -> usize
        ensures { result ≤ length piece.new }
    {
        self.left = self.left.saturating_sub(1);
        let n = if self.left == 0 {
            0
        } else {
            piece.len().min(3)
        };
        for b in &mut piece[..n] {
            *b = self.left;
        }
        n
    }
}

/// How many names were given.
#[derive(Drop)]
struct Given {
    names: u32,
}

/// A system of one folder, whose call of the number `fails` fails, counted from 1. Where a file is exchanged for a pipe,
/// only what was opened tells it.
#[derive(Drop)]
struct Fake {
    alloc: Global,
    calls: u32,
    fails: u32,
    exchanged: bool,
}

impl Fake {
    fn new(alloc: Global, fails: u32, exchanged: bool) -> Fake {
        Fake {
            alloc,
            calls: 0,
            fails,
            exchanged,
        }
    }

    fn count_call(&mut self) -> io::Result<()> {
        self.calls = self.calls.saturating_add(1);
        if self.calls == self.fails {
            return Err(Error::from(ErrorKind::Other));
        }
        Ok(())
    }
}

impl System for Fake {
    type File = Turns;

    type Folder = Given;

    fn look_at(&mut self, path: &str) -> io::Result<Metadata> {
        self.count_call()?;
        if path.ends_with("/pipe.class") {
            return Ok(Metadata::of_symlink(1));
        }
        if path.ends_with("/c") {
            return Ok(Metadata::of_dir());
        }
        Ok(Metadata::of_file(1))
    }

    fn open_file(&mut self, _path: &str) -> io::Result<Turns> {
        self.count_call()?;
        Ok(Turns {
            left: 3,
            interrupted: false,
        })
    }

    fn look_into(&mut self, _file: &Turns) -> io::Result<Metadata> {
        self.count_call()?;
        if self.exchanged {
            return Ok(Metadata::of_symlink(1));
        }
        Ok(Metadata::of_file(1))
    }

    fn read(&mut self, file: &mut Turns, piece: &mut [u8]) -> io::Result<usize> {
        file.interrupted = !file.interrupted;
        if file.interrupted {
            return Err(Error::from(ErrorKind::Interrupted));
        }
        self.count_call()?;
        Ok(file.next(piece))
    }

    fn open_folder(&mut self, _path: &str) -> io::Result<Given> {
        self.count_call()?;
        Ok(Given { names: 0 })
    }

    fn next_name(&mut self, folder: &mut Given) -> io::Result<Option<String>> {
        self.count_call()?;
        let name = match folder.names {
            0 => "pipe.class",
            1 => ".B.class",
            2 => "c",
            _ => return Ok(None),
        };
        folder.names = folder.names.saturating_add(1);
        Ok(Some(String::from_str(self.alloc, name)?))
    }
}

/// The bytes of a file of this system.
const TURNS: &[u8] = b"\x02\x02\x02\x01\x01\x01";

const NAMES: &[Name<'static>] = &[(b".B.class", false), (b"c", true)];

/// A script may be a pipe, and what a listed folder has may not.
const PIPE: &[Step<'static>] = &[
    Step::Asks(Question::Read("a/pipe.class", 6, Ok(TURNS))),
    Step::Asks(Question::List("a", 2, Ok(NAMES))),
    Step::Taken(9),
    Step::Asks(Question::Read("a/pipe.class", 6, Err(FilesError::Failed))),
    Step::Asks(Question::Read("a/c", 6, Err(FilesError::Failed))),
    Step::Asks(Question::Read("a/.B.class", 6, Ok(TURNS))),
    Step::Faults(2),
];

/// A file was exchanged for a pipe.
const EXCHANGED: &[Step<'static>] = &[
    Step::Asks(Question::List("a", 2, Ok(NAMES))),
    Step::Asks(Question::Read("a/.B.class", 6, Err(FilesError::Failed))),
];

/// A listing fails at the first try alone, and a reading.
const LISTED_TWICE: &[Step<'static>] = &[
    Step::Asks(Question::List("a", 2, Err(FilesError::Failed))),
    Step::Asks(Question::List("a", 2, Ok(NAMES))),
    Step::Faults(1),
];

const READ_TWICE: &[Step<'static>] = &[
    Step::Asks(Question::Read("a/b", 6, Err(FilesError::Failed))),
    Step::Asks(Question::Read("a/b", 6, Ok(TURNS))),
    Step::Faults(1),
];

/// Takes each step at a system.
fn expect_steps(rt: &impl Abort, alloc: Global, fake: Fake, steps: &[Step]) -> Result<(), Fail> {
    let mut files = DiskFiles::new(alloc, fake);
    for (i, step) in steps.iter().enumerate() {
        assert!(rt; comes_out(alloc, &mut files, "", step)?, "step {i}");
    }
    Ok(())
}

/// A listing makes 8 calls that may fail, and a reading 6.
#[test]
fn asks_a_system(rt: HostRuntime) -> Result<(), Fail> {
    let alloc = rt.alloc();
    expect_steps(&rt, alloc, Fake::new(alloc, 0, false), PIPE)?;
    expect_steps(&rt, alloc, Fake::new(alloc, 0, true), EXCHANGED)?;
    for fails in 1..=8 {
        expect_steps(&rt, alloc, Fake::new(alloc, fails, false), LISTED_TWICE)?;
    }
    for fails in 1..=6 {
        expect_steps(&rt, alloc, Fake::new(alloc, fails, false), READ_TWICE)?;
    }
    Ok(())
}

// ---- Long files.

/// The most bytes of a file that counts.
const MOST: u32 = 1_048_576;

/// So many bytes.
fn many_bytes(alloc: Global, count: u32) -> Result<Vec<u8>, Fail> {
    let mut bytes = Vec::new(alloc);
    for i in 0..count {
        bytes.push((i % 251) as u8)?;
    }
    Ok(bytes)
}

/// Whether a file of so many bytes is read as it was written, where so many may be; otherwise it is too long. No fault is counted.
fn reads_file(rt: &HostRuntime, path: &str, count: u32, most: u32) -> Result<bool, Fail> {
    let bytes = many_bytes(rt.alloc(), count)?;
    fs::write(rt, path, bytes.as_slice())?;
    let mut files = DiskFiles::new(rt.alloc(), Disk::new(rt.alloc(), rt.clone()?));
    let wanted = if count <= most {
        Ok(bytes.as_slice())
    } else {
        Err(FilesError::TooLong)
    };
    Ok(reads(&mut files, path, most, &wanted) && files.faults() == 0)
}

#[test]
fn reads_up_to_the_limit(rt: HostRuntime) -> Result<(), Fail> {
    let root = new_folder(&rt, "limit")?;
    let file = below(rt.alloc(), root.as_str(), "/A.class")?;
    for count in [MOST, MOST + 1] {
        assert!(rt;
            reads_file(&rt, file.as_str(), count, MOST)?,
            "{count} bytes"
        );
    }
    fs::remove_dir_all(&rt, root.as_str())?;
    Ok(())
}
