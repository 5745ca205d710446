//! Files in memory, whose faults are told in advance.

ghost use Rattle.std.specs.Prelude.{◌≡◌, ◌≢◌, ◌<◌, ◌≤◌, ◌↔◌, ◌⊎◌, ◌+◌, ◌^◌, ◌-◌, [], ◌∷◌, ◌++◌, length, min, take, IfOk, IfSome, OnOk, OnErr, IsErrOf, IsTrue, IsSome, Some, None, Err, true, false, MatchOption};
ghost use Rattle.std.specs.Option.{option_copied};
ghost use Rattle.std.specs.List.{AllByRecursion, list_any};
ghost use Rattle.std.specs.Str.{IsUtf8, is_utf8};
ghost use Rattle.jk_model.specs.Outside.{ListOf, BytesOf, AreNamed, AreThere, FoldersAreThere, FolderIs, FileIs, FolderIsAbsent, FileIsAbsent, FolderIsLong, FileIsLong, HasNoFolder, HasNoFile, HasLongFolder, HasLongFile, HasRisen, NeverFalls};
ghost use Rattle.jk_outside.specs.Asks.{ask_of};
ghost use Rattle.jk_model.specs.declared.entries.Entry.{Entry};
ghost use Rattle.jk_outside.specs.Counts.{next_number, is_named, min_fits, HasTaken};
ghost use Rattle.jk_outside.specs.EntryNames.{ArePlain};
ghost use Rattle.jk_outside.specs.MemoryTrees.{after_call, are_paths, all_apart, stand_apart, place_of, slash_of, tree_of, file_of, folder_of, has_folder, entries_of, is_below, after_folder, entry_of, has_name, puts_name, has_full_names, is_addable, is_full, with_byte, with_file};

use crate::asked::{Asked, Call};
use crate::files::{Files, FilesError};
use crate::numbers::is_named;
use jk_model::{Bytes, Entry, List, OutOfMemory};
use std::alloc::Global;
use std::marker::Model;

/// A file of a told tree.
#[derive(Drop)]
pub struct MemoryFile {
    /// Its path in UTF-8: names joined by `/`.
    pub path: Bytes,
    pub bytes: Bytes,
}

/// A told tree of files. A folder is there where a file is below it. Its calls of `list` and `read`
/// are numbered together from 1, and a call whose number is named fails.
#[derive(Drop)]
pub struct MemoryFiles {
    alloc: Global,
    files: List<MemoryFile>,
    fails: List<u32>,
    calls: u32,
    faults: u64,
    asked: Asked,
}

impl Model for MemoryFiles {
    ghost use Rattle.std.specs.Prelude.{◌≡◌, true};
    ghost use Rattle.jk_outside.specs.MemoryTrees.{FilesState, are_paths};

    ghost Value = { FilesState };

    ghost view = { λ s. record {
      files = s.files;
      fails = s.fails;
      calls = s.calls;
      faults = s.faults;
      asked = s.asked.asks;
    } };

    ghost invariant = { λ s. are_paths s.files ≡ true };
}

impl MemoryFiles {
    /// A tree of no files.
    pub fn new(alloc: Global) -> MemoryFiles
        ensures { result ≡ record { files = []; fails = []; calls = 0; faults = 0; asked = [] } }
    {
        MemoryFiles {
            alloc,
            files: List::new(alloc),
            fails: List::new(alloc),
            calls: 0,
            faults: 0,
            asked: Asked::nothing(),
        }
    }

    /// Whether a file may stand at a path: it is made of names joined by `/`, none of them empty, `.` or
    /// `..`, is no folder yet, and runs through no file.
    pub fn is_addable(&self, path: &str) -> bool
        ensures { IsTrue result ↔ IsTrue (is_addable self.now.files path.now) }
    {
        may_stand(self.files.as_slice(), path.as_bytes())
    }

    /// Puts a file at a path, or other bytes for the file that is there.
    pub fn add(&mut self, path: &str, bytes: &[u8]) -> Result<(), OutOfMemory>
        requires { IsTrue (is_addable self.old.files path.now) }
        ensures ok { OnOk result
            (self.new ≡ record self.old { files = with_file self.old.files path.now bytes.now }) }
        ensures err { OnErr result (self.new ≡ self.old) }
    {
        let file = MemoryFile {
            path: Bytes::from_slice(self.alloc, path.as_bytes())?,
            bytes: Bytes::from_slice(self.alloc, bytes)?,
        };
        put_file(&mut self.files, file)
    }

    /// Lets the call with this number fail, counted from 1.
    pub fn fail_at(&mut self, call: u32) -> Result<(), OutOfMemory>
        ensures ok { OnOk result (self.new ≡ record self.old { fails = self.old.fails ++ call ∷ [] }) }
        ensures err { OnErr result (self.new ≡ self.old) }
    {
        self.fails.push(call)
    }

    /// How many faults there were.
    pub fn faults(&self) -> u64
        ensures { result ≡ self.now.faults }
    {
        self.faults
    }

    /// Counts a call, and answers whether it fails.
    fn count_call(&mut self, call: &Call<'_>) -> bool
        ensures fails { result ≡ is_named self.old.fails (next_number self.old.calls) }
        ensures after { self.new ≡ after_call self.old (ask_of call.now) }
    {
        self.asked = self.asked.and(call);
        self.calls = self.calls.saturating_add(1);
        let failed = is_named(self.fails.as_slice(), self.calls);
        if failed {
            self.faults = self.faults.saturating_add(1);
        }
        failed
    }
}

impl Files for MemoryFiles {
    ghost tree = { λ s. Some (tree_of s.files) };

    ghost faults = { λ s. min s.faults (2 ^ 64 - 1) };

    ghost taken = { λ s. 0 };

    ghost asked = { λ s. s.asked };

    ghost faults_fit = { λ s. min_fits s.faults };

    ghost taken_fits = { λ s. min_fits 0 };

    fn list(&mut self, folder: &str, limit: u32) -> Result<List<Entry>, FilesError>
        ensures found { IfOk result (λ entries. FolderIs (Some (tree_of self.old.files)) folder.now entries) }
        ensures within { IfOk result (λ entries. length entries ≤ limit) }
        ensures names { IfOk result (λ entries. AllByRecursion (λ entry. IsUtf8 entry.name) entries) }
        ensures named { IfOk result (λ entries. AreNamed (Some (tree_of self.old.files)) entries) }
        ensures plain { IfOk result (λ entries. ArePlain (Some (tree_of self.old.files)) entries) }
        ensures there { IfOk result (λ entries. AreThere (Some (tree_of self.old.files)) folder.now entries) }
        ensures folders { IfOk result (λ entries. FoldersAreThere (Some (tree_of self.old.files)) folder.now entries) }
        ensures counted { IfOk result (λ entries. HasTaken (Some (tree_of self.old.files)) (length entries) 0 0) }

        ensures failed { result ≡ Err FilesError.Failed
            → HasRisen (min self.old.faults (2 ^ 64 - 1)) (min self.new.faults (2 ^ 64 - 1)) }
        ensures absent { result ≡ Err FilesError.Absent
            → FolderIsAbsent (Some (tree_of self.old.files)) folder.now (min self.old.faults (2 ^ 64 - 1)) (min self.new.faults (2 ^ 64 - 1)) }
        ensures too_long { result ≡ Err FilesError.TooLong
            → FolderIsLong (Some (tree_of self.old.files)) folder.now limit 0 0 }
        ensures long_named { result ≡ Err FilesError.TooLong
            → (entries : List Entry) → FolderIs (Some (tree_of self.old.files)) folder.now entries
            → AreNamed (Some (tree_of self.old.files)) entries }

        ensures missing { HasNoFolder (Some (tree_of self.old.files)) folder.now
            → (result ≡ Err FilesError.Absent) ⊎ (result ≡ Err FilesError.Failed) }
        ensures over { HasLongFolder (Some (tree_of self.old.files)) folder.now limit
            → (result ≡ Err FilesError.TooLong) ⊎ (result ≡ Err FilesError.Failed) }

        ensures calm { result ≢ Err FilesError.Failed
            → (result ≡ Err FilesError.Absent → IsSome (Some (tree_of self.old.files)))
            → min self.new.faults (2 ^ 64 - 1) ≡ min self.old.faults (2 ^ 64 - 1) }
        ensures stays { Some (tree_of self.new.files) ≡ Some (tree_of self.old.files) }
        ensures faults { NeverFalls (min self.old.faults (2 ^ 64 - 1)) (min self.new.faults (2 ^ 64 - 1)) }
        ensures taken { NeverFalls 0 0 }
        ensures asked { self.new.asked ≡ self.old.asked ++ ListOf folder.now limit ∷ [] }

        // Exactly the calls with a number that is named fail.
        ensures fails { IsErrOf result FilesError.Failed
            ↔ IsTrue (is_named self.old.fails (next_number self.old.calls)) }
        ensures after { self.new ≡ after_call self.old (ListOf folder.now limit) }
    {
        if self.count_call(&Call::List(folder.as_bytes(), limit)) {
            return Err(FilesError::Failed);
        }
        list_of(self.alloc, self.files.as_slice(), folder.as_bytes(), limit)
    }

    fn read(&mut self, path: &str, limit: u32) -> Result<Bytes, FilesError>
        ensures found { IfOk result (λ bytes. FileIs (Some (tree_of self.old.files)) path.now bytes) }
        ensures within { IfOk result (λ bytes. length bytes ≤ limit) }
        ensures counted { IfOk result (λ bytes. HasTaken (Some (tree_of self.old.files)) (length bytes) 0 0) }

        ensures failed { result ≡ Err FilesError.Failed
            → HasRisen (min self.old.faults (2 ^ 64 - 1)) (min self.new.faults (2 ^ 64 - 1)) }
        ensures absent { result ≡ Err FilesError.Absent
            → FileIsAbsent (Some (tree_of self.old.files)) path.now (min self.old.faults (2 ^ 64 - 1)) (min self.new.faults (2 ^ 64 - 1)) }
        ensures too_long { result ≡ Err FilesError.TooLong
            → FileIsLong (Some (tree_of self.old.files)) path.now limit 0 0 }

        ensures missing { HasNoFile (Some (tree_of self.old.files)) path.now
            → (result ≡ Err FilesError.Absent) ⊎ (result ≡ Err FilesError.Failed) }
        ensures over { HasLongFile (Some (tree_of self.old.files)) path.now limit
            → (result ≡ Err FilesError.TooLong) ⊎ (result ≡ Err FilesError.Failed) }

        ensures calm { result ≢ Err FilesError.Failed
            → (result ≡ Err FilesError.Absent → IsSome (Some (tree_of self.old.files)))
            → min self.new.faults (2 ^ 64 - 1) ≡ min self.old.faults (2 ^ 64 - 1) }
        ensures stays { Some (tree_of self.new.files) ≡ Some (tree_of self.old.files) }
        ensures faults { NeverFalls (min self.old.faults (2 ^ 64 - 1)) (min self.new.faults (2 ^ 64 - 1)) }
        ensures taken { NeverFalls 0 0 }
        ensures asked { self.new.asked ≡ self.old.asked ++ BytesOf path.now limit ∷ [] }

        // Exactly the calls with a number that is named fail.
        ensures fails { IsErrOf result FilesError.Failed
            ↔ IsTrue (is_named self.old.fails (next_number self.old.calls)) }
        ensures after { self.new ≡ after_call self.old (BytesOf path.now limit) }
    {
        if self.count_call(&Call::Read(path.as_bytes(), limit)) {
            return Err(FilesError::Failed);
        }
        bytes_of(self.files.as_slice(), path.as_bytes(), limit)
    }
}

/// What stands in a folder, if there are at most `limit` entries.
#[tactic(auto, unfolding(crate::specs::MemoryTrees::folder_of))]
fn list_of(
    alloc: Global,
    files: &[MemoryFile],
    folder: &[u8],
    limit: u32,
) -> Result<List<Entry>, FilesError>
    requires { are_paths files.now ≡ true }
    ensures found { IfOk result (λ entries. folder_of files.now folder.now ≡ Some entries) }
    ensures names { IfOk result (λ entries. AllByRecursion (λ entry. IsUtf8 entry.name) entries) }
    ensures named { IfOk result (λ entries. AreNamed (Some (tree_of files.now)) entries) }
    ensures plain { IfOk result (λ entries. ArePlain (Some (tree_of files.now)) entries) }
    ensures there { IfOk result (λ entries. AreThere (Some (tree_of files.now)) folder.now entries) }
    ensures folders { IfOk result
        (λ entries. FoldersAreThere (Some (tree_of files.now)) folder.now entries) }
    ensures within { IfOk result (λ entries. length entries ≤ limit) }
    ensures absent { IsErrOf result FilesError.Absent ↔ (folder_of files.now folder.now ≡ None) }
    ensures too_long { IsErrOf result FilesError.TooLong
        ↔ HasLongFolder (Some (tree_of files.now)) folder.now limit }
    ensures long_named { result ≡ Err FilesError.TooLong → (entries : List Entry) → folder_of files.now folder.now ≡ Some entries
        → AreNamed (Some (tree_of files.now)) entries }
    ensures failed { result ≢ Err FilesError.Failed }
{
    if !has_folder(files, folder) {
        return Err(FilesError::Absent);
    }
    // The entries are counted before any memory is taken for them.
    if count_of_entries(files, folder) > limit as usize {
        return Err(FilesError::TooLong);
    }
    Ok(entries_in(alloc, files, folder)?)
}

/// The bytes of a file, if there are at most `limit`.
fn bytes_of(files: &[MemoryFile], path: &[u8], limit: u32) -> Result<Bytes, FilesError>
    ensures found { IfOk result (λ bytes. file_of files.now path.now ≡ Some bytes) }
    ensures within { IfOk result (λ bytes. length bytes ≤ limit) }
    ensures absent { IsErrOf result FilesError.Absent ↔ (file_of files.now path.now ≡ None) }
    ensures too_long { IsErrOf result FilesError.TooLong
        ↔ HasLongFile (Some (tree_of files.now)) path.now limit }
    ensures failed { result ≢ Err FilesError.Failed }
{
    let Some(bytes) = found_bytes(files, path) else {
        return Err(FilesError::Absent);
    };
    if bytes.len() > limit as usize {
        return Err(FilesError::TooLong);
    }
    Ok(bytes.copied()?)
}

/// The bytes of the file at a path.
#[tactic(auto, unfolding(crate::specs::MemoryTrees::file_of))]
fn found_bytes<'a>(files: &'a [MemoryFile], path: &[u8]) -> Option<&'a Bytes>
    ensures { option_copied result ≡ file_of files.now path.now }
{
    files
        .iter()
        .find(|file| file.path.as_slice() == path)
        .map(|file| &file.bytes)
}

/// Whether a file is below a folder.
#[tactic(auto, unfolding(crate::specs::MemoryTrees::has_folder))]
fn has_folder(files: &[MemoryFile], folder: &[u8]) -> bool
    ensures { result ≡ has_folder files.now folder.now }
{
    files
        .iter()
        .any(|file| is_below(folder, file.path.as_slice()))
}

/// What stands in a folder, each name once.
fn entries_in(
    alloc: Global,
    files: &[MemoryFile],
    folder: &[u8],
) -> Result<List<Entry>, OutOfMemory>
    ensures { IfOk result (λ entries. entries ≡ entries_of folder.now files.now) }
{
    let mut entries = List::new(alloc);
    for i in 0..files.len() {
        if let Some((name, folder)) = entry_added_by(files, i, folder) {
            let name = Bytes::from_slice(alloc, name)?;
            entries.push(Entry { name, folder })?;
        }
    }
    Ok(entries)
}

/// How many entries a folder has.
fn count_of_entries(files: &[MemoryFile], folder: &[u8]) -> usize
    ensures { result ≡ length (entries_of folder.now files.now) }
{
    let mut count = 0;
    for i in 0..files.len() {
        if entry_added_by(files, i, folder).is_some() {
            count += 1;
        }
    }
    count
}

/// The entry that a file adds to a folder's list, if no file before it gives the name.
fn entry_added_by<'a>(files: &'a [MemoryFile], i: usize, folder: &[u8]) -> Option<(&'a [u8], bool)>
    requires { i < length files.now }
    ensures { MatchOption result
        (entries_of folder.now (take (i + 1) files.now) ≡ entries_of folder.now (take i files.now))
        (λ entry. entries_of folder.now (take (i + 1) files.now)
        ≡ entries_of folder.now (take i files.now) ++ record { name = entry.0.now; folder = entry.1 } ∷ []) }
{
    let entry = first_entry_below(folder, files[i].path.as_slice())?;
    if gives_name(&files[..i], folder, entry.0) {
        return None;
    }
    Some(entry)
}

/// Whether any of these files puts an entry of a name into a folder.
fn gives_name(files: &[MemoryFile], folder: &[u8], name: &[u8]) -> bool
    ensures { result ≡ list_any (λ file. puts_name folder.now file.path name.now) files.now }
{
    files
        .iter()
        .any(|file| puts_name(folder, file.path.as_slice(), name))
}

/// Whether the file at a path puts an entry of a name into a folder.
#[tactic(auto, unfolding(crate::specs::MemoryTrees::puts_name))]
fn puts_name(folder: &[u8], path: &[u8], name: &[u8]) -> bool
    ensures { result ≡ puts_name folder.now path.now name.now }
{
    match first_entry_below(folder, path) {
        Some((first, _)) => name == first,
        None => false,
    }
}

/// The first name after a folder in a path below it, and whether more names follow it.
fn first_entry_below<'a>(folder: &[u8], path: &'a [u8]) -> Option<(&'a [u8], bool)>
    ensures { MatchOption result (is_below folder.now path.now ≡ false)
        (λ entry. (is_below folder.now path.now ≡ true)
        × (record { name = entry.0.now; folder = entry.1 } ≡ entry_of (after_folder folder.now path.now))) }
{
    Some(first_name(strip_folder(folder, path)?))
}

/// The first name of a path, and whether more names follow it.
#[tactic(auto, unfolding(crate::specs::MemoryTrees::entry_of))]
fn first_name(path: &[u8]) -> (&[u8], bool)
    ensures name { result.0.now ≡ (entry_of path.now).name }
    ensures folder { result.1 ≡ (entry_of path.now).folder }
{
    match slash_of(path) {
        Some(slash) => (&path[..slash], true),
        None => (path, false),
    }
}

/// Where the first slash of a path stands.
#[tactic(auto, unfolding(crate::specs::MemoryTrees::slash_of))]
fn slash_of(path: &[u8]) -> Option<usize>
    ensures place { result ≡ slash_of path.now }
    ensures within { IfSome result (λ i. i < length path.now) }
{
    path.iter().position(|c| *c == b'/')
}

/// What stands in a path after a folder and its slash, if it begins so.
fn strip_folder<'a>(folder: &[u8], path: &'a [u8]) -> Option<&'a [u8]>
    ensures { MatchOption result (is_below folder.now path.now ≡ false)
        (λ rest. (is_below folder.now path.now ≡ true) × (rest.now ≡ after_folder folder.now path.now)) }
{
    path.strip_prefix(folder)?.strip_prefix(b"/")
}

/// Whether a path begins with a folder and a slash.
fn is_below(folder: &[u8], path: &[u8]) -> bool
    ensures { result ≡ is_below folder.now path.now }
{
    strip_folder(folder, path).is_some()
}

/// Whether a file may stand at a path beside these.
#[tactic(auto, unfolding(crate::specs::MemoryTrees::is_addable))]
fn may_stand(files: &[MemoryFile], path: &[u8]) -> bool
    ensures { result ≡ is_addable files.now path.now }
{
    has_full_names(path) && all_apart(files, path)
}

/// Whether no path of these runs through another one, nor that one through it.
#[tactic(auto, unfolding(crate::specs::MemoryTrees::all_apart))]
fn all_apart(files: &[MemoryFile], path: &[u8]) -> bool
    ensures { result ≡ all_apart files.now path.now }
{
    files
        .iter()
        .all(|file| stand_apart(path, file.path.as_slice()))
}

/// Whether neither of two paths runs through the other.
#[tactic(auto, unfolding(crate::specs::MemoryTrees::stand_apart))]
fn stand_apart(path: &[u8], other: &[u8]) -> bool
    ensures { result ≡ stand_apart path.now other.now }
{
    !is_below(path, other) && !is_below(other, path)
}

/// What is known of a name after some of its bytes.
#[derive(Clone, Copy)]
enum NameSoFar {
    Empty,
    Dot,
    DotDot,
    /// Neither of these, however it goes on.
    Name,
}

impl NameSoFar {
    /// What is known after one more byte.
    fn with_byte(self, c: u8) -> NameSoFar
        ensures { result ≡ with_byte self c }
    {
        match (self, c) {
            (NameSoFar::Empty, b'.') => NameSoFar::Dot,
            (NameSoFar::Dot, b'.') => NameSoFar::DotDot,
            _ => NameSoFar::Name,
        }
    }

    /// Whether it may be the name of an entry.
    fn is_full(self) -> bool
        ensures { result ≡ is_full self }
    {
        matches!(self, NameSoFar::Name)
    }
}

/// Whether a path is made of names joined by `/`, none of them empty, `.` or `..`.
fn has_full_names(path: &[u8]) -> bool
    ensures { result ≡ has_full_names NameSoFar.Empty path.now }
{
    let mut so_far = NameSoFar::Empty;
    for c in path {
        if *c == b'/' {
            if !so_far.is_full() {
                return false;
            }
            so_far = NameSoFar::Empty;
        } else {
            so_far = so_far.with_byte(*c);
        }
    }
    so_far.is_full()
}

/// Puts a file after the others, or in place of the one at its path.
#[tactic(auto, using(crate::proofs::PathsAreKept::are_paths_set, crate::proofs::PathsAreKept::are_paths_push), unfolding(crate::specs::MemoryTrees::placed))]
fn put_file(files: &mut List<MemoryFile>, file: MemoryFile) -> Result<(), OutOfMemory>
    ensures ok { OnOk result (files.new ≡ with_file files.old file.path file.bytes) }
    ensures err { OnErr result (files.new ≡ files.old) }
    ensures paths { are_paths files.old ≡ true → is_utf8 file.path ≡ true
        → has_full_names NameSoFar.Empty file.path ≡ true → are_paths files.new ≡ true }
{
    match place_of(files.as_slice(), file.path.as_slice()) {
        Some(i) => {
            let _old = files.replace(i, file);
            Ok(())
        }
        None => {
            files.push(file)?;
            Ok(())
        }
    }
}

/// Where the file with a path stands.
#[tactic(auto, unfolding(crate::specs::MemoryTrees::place_of))]
fn place_of(files: &[MemoryFile], path: &[u8]) -> Option<usize>
    ensures place { result ≡ place_of files.now path.now }
    ensures within { IfSome result (λ i. i < length files.now) }
{
    files.iter().position(|file| file.path.as_slice() == path)
}
