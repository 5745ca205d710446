//! One folder: the entries in it, and the bytes of a file.

ghost use Rattle.std.specs.Prelude.{◌≡◌, ◌≢◌, ◌≤◌, ◌+◌, ◌⊎◌, ◌++◌, ◌∷◌, [], ℕ, length, vec_len, true, Err, IfOk, IsUtf8, Option, Some, List, take};
ghost use Rattle.std.specs.List.{AllByRecursion};
ghost use Rattle.jk_model.specs.declared.entries.Entry.{Entry};
ghost use Rattle.jk_model.specs.Outside.{AreNamed, FileIs, FolderIs, FolderIsAbsent, FolderIsLong, HasLongFolder, HasNoFolder, HasRisen, ListOf, Tree};
ghost use Rattle.jk_model_folders.specs.FolderTrees.{MAX_FILE, MOST_ENTRIES, MOST_LEVELS};
ghost use Rattle.jk_outside.specs.Counts.{HasTaken};
ghost use Rattle.folder_reader.specs.AskedOnce.{AsksSome};
ghost use Rattle.folder_reader.specs.Calls.{HasFile, IsListing, IsLongFile, Moves};
ghost use Rattle.folder_reader.specs.FolderAnswers.{AskedFor, Counts, IsLarge, IsWithin};
ghost use Rattle.folder_reader.specs.Paths.{child_of, children, has_name, is_dots, whole_path};
ghost use Rattle.folder_reader.specs.Walks.{IsPlace};
ghost use Rattle.folder_reader.specs.declared.reading.FolderError.TheVariants as Why;

use crate::found::Found;
use crate::paths::{child_path, text_of, whole_path};
use crate::reading::FolderError;
use jk_model::{Bytes, Entry, List, OutOfMemory};
use jk_outside::{Files, FilesError};
use std::alloc::Global;

/// How many entries there may be at all levels, and so in each folder.
const MOST_LISTED: u32 = 4096;

/// How many bytes a file may have.
const MOST_BYTES: u32 = 1_048_576;

/// The entries of a folder.
fn entries_of<F: Files>(files: &mut F, root: &str, folder: &str) -> Result<List<Entry>, FolderError>
    requires { IsWithin root.now folder.now }
    ensures listing { IfOk result (λ entries. IsListing (F.tree files.old) folder.now entries) }
    ensures counted { IfOk result (λ entries. HasTaken (F.tree files.old) (length entries) (F.taken files.old) (F.taken files.new)) }
    ensures no_folder { result ≡ Err Why.NoFolder → FolderIsAbsent (F.tree files.old) folder.now (F.faults files.old) (F.faults files.new) }
    ensures too_large { result ≡ Err Why.TooLarge
        → FolderIsLong (F.tree files.old) folder.now MOST_ENTRIES (F.taken files.old) (F.taken files.new) }
    ensures long_named { result ≡ Err Why.TooLarge
        → (entries : List Entry) → FolderIs (F.tree files.old) folder.now entries → AreNamed (F.tree files.old) entries }
    ensures read_fault { result ≡ Err Why.ReadFault → HasRisen (F.faults files.old) (F.faults files.new) }
    ensures something { F.asked files.new ≢ F.asked files.old }
    ensures asked { F.asked files.new ≡ F.asked files.old ++ ListOf folder.now MOST_ENTRIES ∷ [] }
    // It takes no memory itself: want of memory is no answer where the tree tells another.
    ensures missing { HasNoFolder (F.tree files.old) folder.now → (result ≡ Err Why.NoFolder) ⊎ (result ≡ Err Why.ReadFault) }
    ensures over { HasLongFolder (F.tree files.old) folder.now MOST_ENTRIES → (result ≡ Err Why.TooLarge) ⊎ (result ≡ Err Why.ReadFault) }
    ensures calm { (t : Tree) → F.tree files.old ≡ Some t → result ≢ Err Why.ReadFault → F.faults files.new ≡ F.faults files.old }
    ensures moves { Moves root.now (F.tree files.old) (F.tree files.new) (F.faults files.old) (F.faults files.new)
        (F.taken files.old) (F.taken files.new) (F.asked files.old) (F.asked files.new) }
{
    match files.list(folder, MOST_LISTED) {
        Ok(entries) => Ok(entries),
        Err(FilesError::Absent) => Err(FolderError::NoFolder),
        Err(FilesError::TooLong) => Err(FolderError::TooLarge),
        Err(FilesError::Failed) => Err(FolderError::ReadFault),
        Err(FilesError::OutOfMemory) => Err(FolderError::OutOfMemory),
    }
}

/// Whether a name leads to the folder itself, or to the one above.
fn is_dots(name: &[u8]) -> bool
    ensures { result ≡ is_dots name.now }
{
    name == b".".as_slice() || name == b"..".as_slice()
}

/// Whether an entry has a name that leads down: a byte at least, no slash, and neither `.` nor `..`.
fn is_named(entry: &Entry) -> bool
    ensures { result ≡ has_name entry.now }
{
    entry.name.len() != 0
        && !entry.name.as_slice().contains(&b'/')
        && !is_dots(entry.name.as_slice())
}

/// An entry of a folder, as it is found.
fn found_in(alloc: Global, above: &Found, entry: &Entry) -> Result<Found, OutOfMemory>
    requires { above.now.level ≤ 16 }
    ensures { IfOk result (λ found. found ≡ child_of above.now entry.now) }
{
    let path = child_path(alloc, above.path.as_slice(), entry.name.as_slice())?;
    Ok(Found {
        path,
        level: above.level + 1,
        folder: entry.folder,
    })
}

/// The entries of a folder that have names, as they are found.
fn named_in(alloc: Global, above: &Found, entries: &[Entry]) -> Result<Vec<Found>, OutOfMemory>
    requires { above.now.level ≤ 16 }
    ensures { IfOk result (λ below. below.items ≡ children above.now entries.now) }
{
    let mut below = Vec::new(alloc);
    for entry in entries {
        if is_named(entry) {
            below.push(found_in(alloc, above, entry)?)?;
        }
    }
    Ok(below)
}

/// What stands in a folder. Only the one that is read may be absent: one that was listed is there.
pub(crate) fn below_of<F: Files>(
    alloc: Global,
    files: &mut F,
    root: &str,
    above: &Found,
) -> Result<Vec<Found>, FolderError>
    requires utf8 { IsUtf8 above.now.path }
    requires within { IsWithin root.now (whole_path root.now above.now.path) }
    requires folder { above.now.folder ≡ true }
    requires shallow { above.now.level ≤ 16 }
    requires top { above.now.level ≡ 0 → above.now.path ≡ [] }
    requires place { IsPlace (F.tree files.old) root.now above.now }
    ensures below { IfOk result (λ below. (entries : List Entry) × IsListing (F.tree files.old) (whole_path root.now above.now.path) entries
        × (below.items ≡ children above.now entries)) }
    ensures counted { IfOk result (λ below. HasTaken (F.tree files.old) (vec_len below) (F.taken files.old) (F.taken files.new)) }
    ensures no_folder { result ≡ Err Why.NoFolder → FolderIsAbsent (F.tree files.old) root.now (F.faults files.old) (F.faults files.new) }
    ensures missed { result ≡ Err Why.NoFolder → AskedFor (F.asked files.old) (F.asked files.new) (ListOf root.now MOST_ENTRIES) }
    ensures once { AsksSome (F.asked files.old) (F.asked files.new) (whole_path root.now above.now.path ∷ []) [] }
    ensures too_large { result ≡ Err Why.TooLarge → IsLarge (F.tree files.old) root.now }
    ensures large { result ≡ Err Why.TooLarge → HasTaken (F.tree files.old) (MOST_LEVELS + 1) (F.taken files.old) (F.taken files.new) }
    ensures read_fault { result ≡ Err Why.ReadFault → HasRisen (F.faults files.old) (F.faults files.new) }
    ensures something { result ≡ Err Why.ReadFault → F.asked files.new ≢ F.asked files.old }
    ensures calm { (t : Tree) → F.tree files.old ≡ Some t → result ≢ Err Why.ReadFault → F.faults files.new ≡ F.faults files.old }
    ensures moves { Moves root.now (F.tree files.old) (F.tree files.new) (F.faults files.old) (F.faults files.new)
        (F.taken files.old) (F.taken files.new) (F.asked files.old) (F.asked files.new) }
{
    let folder = whole_path(alloc, root, text_of(above.path.as_slice()))?;
    match entries_of(files, root, folder.as_str()) {
        Ok(entries) => Ok(named_in(alloc, above, entries.as_slice())?),
        Err(FolderError::NoFolder) if above.level > 0 => Err(FolderError::ReadFault),
        Err(e) => Err(e),
    }
}

/// The bytes of a file below a folder. It was listed, so it is gone only where the files failed.
pub(crate) fn read_file<F: Files>(
    alloc: Global,
    files: &mut F,
    root: &str,
    path: &str,
) -> Result<Bytes, FolderError>
    requires within { IsWithin root.now (whole_path root.now path.now) }
    requires counts { Counts path.now }
    requires there { HasFile (F.tree files.old) (whole_path root.now path.now) }
    ensures bytes { IfOk result (λ bytes. FileIs (F.tree files.old) (whole_path root.now path.now) bytes) }
    ensures short { IfOk result (λ bytes. length bytes ≤ MAX_FILE) }
    ensures counted { IfOk result (λ bytes. HasTaken (F.tree files.old) (length bytes) (F.taken files.old) (F.taken files.new)) }
    ensures once { AsksSome (F.asked files.old) (F.asked files.new) [] (whole_path root.now path.now ∷ []) }
    ensures no_folder { result ≢ Err Why.NoFolder }
    ensures too_large { result ≡ Err Why.TooLarge → IsLongFile (F.tree files.old) (whole_path root.now path.now) }
    ensures large { result ≡ Err Why.TooLarge → HasTaken (F.tree files.old) (MOST_LEVELS + 1) (F.taken files.old) (F.taken files.new) }
    ensures read_fault { result ≡ Err Why.ReadFault → HasRisen (F.faults files.old) (F.faults files.new) }
    ensures something { result ≡ Err Why.ReadFault → F.asked files.new ≢ F.asked files.old }
    ensures calm { (t : Tree) → F.tree files.old ≡ Some t → result ≢ Err Why.ReadFault → F.faults files.new ≡ F.faults files.old }
    ensures moves { Moves root.now (F.tree files.old) (F.tree files.new) (F.faults files.old) (F.faults files.new)
        (F.taken files.old) (F.taken files.new) (F.asked files.old) (F.asked files.new) }
{
    let whole = whole_path(alloc, root, path)?;
    match files.read(whole.as_str(), MOST_BYTES) {
        Ok(bytes) => Ok(bytes),
        Err(FilesError::TooLong) => Err(FolderError::TooLarge),
        Err(FilesError::Absent | FilesError::Failed) => Err(FolderError::ReadFault),
        Err(FilesError::OutOfMemory) => Err(FolderError::OutOfMemory),
    }
}
