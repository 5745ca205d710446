//! Files of a system, as something that lists folders and reads files.

ghost use Rattle.std.specs.Prelude.{◌≡◌, ◌≢◌, ◌<◌, ◌≤◌, ◌⊎◌, ◌∷◌, ◌++◌, ◌-◌, ◌^◌, [], length, min, not, false, true, List, IfOk, OnOk, IsSome, Err};
ghost use Rattle.std.specs.List.{AllByRecursion};
ghost use Rattle.std.specs.Str.{IsUtf8};
ghost use Rattle.jk_model.specs.Outside.{ListOf, BytesOf, AreNamed, AreThere, FoldersAreThere, FolderIs, FileIs, FolderIsAbsent, FileIsAbsent, FolderIsLong, FileIsLong, HasNoFolder, HasNoFile, HasLongFolder, HasLongFile, HasRisen, HasRisenBy, NeverFalls};
ghost use Rattle.jk_model.specs.declared.entries.Entry.{Entry};
ghost use Rattle.jk_outside.specs.Counts.{min_fits, HasTaken};
ghost use Rattle.jk_outside.specs.DiskStates.{count_after, untold};
ghost use Rattle.jk_outside.specs.EntryNames.{ArePlain};
ghost use Rattle.jk_outside.specs.Systems.{AsksBelow, AsksFor, FileAtIs, FolderAtIs, GoesOn, HasNoFolderAt, HasNothing, HasToRead, LogsFault, LogsOnly, MayAsk};

use crate::asked::{Asked, Call};
use crate::files::{Files, FilesError};
use crate::folder_walk::list_folder;
use crate::reading::read_file;
use crate::system::System;
use jk_model::{Bytes, Entry, List};
use std::alloc::Global;
use std::marker::Model;

/// Files of a system, below the current folder or the root. As files they tell no tree: a folder or a file that
/// isn't there counts as a fault. A folder lists files and folders, hidden ones among them, and no pipes, sockets or
/// devices. A symbolic link counts as what it leads to. What is read may be a pipe until the first folder is listed.
#[derive(Drop)]
pub struct DiskFiles<S: System + Drop> {
    alloc: Global,
    system: S,
    listed: bool,
    faults: u64,
    taken: u64,
    asked: Asked,
}

impl<S: System + Drop> Model for DiskFiles<S> {
    ghost use Rattle.jk_outside.specs.DiskStates.{DiskState};

    ghost Value = { DiskState S };

    ghost view = { λ s. record { system = s.system; listed = s.listed; faults = s.faults; taken = s.taken; asked = s.asked.asks } };
}

impl<S: System + Drop> DiskFiles<S> {
    /// The files of a system, of which nothing was taken yet.
    pub fn new(alloc: Global, system: S) -> DiskFiles<S>
        ensures { result ≡ record { system = system; listed = false; faults = 0; taken = 0; asked = [] } }
    {
        DiskFiles {
            alloc,
            system,
            listed: false,
            faults: 0,
            taken: 0,
            asked: Asked::nothing(),
        }
    }

    /// How many faults there were.
    pub fn faults(&self) -> u64
        ensures { result ≡ self.now.faults }
    {
        self.faults
    }

    /// How many bytes and entries were taken.
    pub fn taken(&self) -> u64
        ensures { result ≡ self.now.taken }
    {
        self.taken
    }
}

impl<S: System + Drop> Files for DiskFiles<S> {
    ghost tree = { λ _. untold };

    ghost faults = { λ s. min s.faults (2 ^ 64 - 1) };

    ghost taken = { λ s. min s.taken (2 ^ 64 - 1) };

    ghost asked = { λ s. s.asked };

    ghost faults_fit = { λ s. min_fits s.faults };

    ghost taken_fits = { λ s. min_fits s.taken };

    fn list(&mut self, folder: &str, limit: u32) -> Result<List<Entry>, FilesError>
        ensures found { IfOk result (λ entries. FolderIs untold folder.now entries) }
        ensures within { IfOk result (λ entries. length entries ≤ limit) }
        ensures names { IfOk result (λ entries. AllByRecursion (λ entry. IsUtf8 entry.name) entries) }
        ensures named { IfOk result (λ entries. AreNamed untold entries) }
        ensures plain { IfOk result (λ entries. ArePlain untold entries) }
        ensures there { IfOk result (λ entries. AreThere untold folder.now entries) }
        ensures folders { IfOk result (λ entries. FoldersAreThere untold folder.now entries) }
        ensures counted { IfOk result
            (λ entries. HasTaken untold (length entries) (min self.old.taken (2 ^ 64 - 1)) (min self.new.taken (2 ^ 64 - 1))) }

        ensures failed { result ≡ Err FilesError.Failed
            → HasRisen (min self.old.faults (2 ^ 64 - 1)) (min self.new.faults (2 ^ 64 - 1)) }
        ensures absent { result ≡ Err FilesError.Absent
            → FolderIsAbsent untold folder.now (min self.old.faults (2 ^ 64 - 1)) (min self.new.faults (2 ^ 64 - 1)) }
        ensures too_long { result ≡ Err FilesError.TooLong
            → FolderIsLong untold folder.now limit (min self.old.taken (2 ^ 64 - 1)) (min self.new.taken (2 ^ 64 - 1)) }
        ensures long_named { result ≡ Err FilesError.TooLong
            → (entries : List Entry) → FolderIs untold folder.now entries → AreNamed untold entries }

        ensures missing { HasNoFolder untold folder.now
            → (result ≡ Err FilesError.Absent) ⊎ (result ≡ Err FilesError.Failed) }
        ensures over { HasLongFolder untold folder.now limit
            → (result ≡ Err FilesError.TooLong) ⊎ (result ≡ Err FilesError.Failed) }

        ensures calm { result ≢ Err FilesError.Failed
            → (result ≡ Err FilesError.Absent → IsSome untold)
            → min self.new.faults (2 ^ 64 - 1) ≡ min self.old.faults (2 ^ 64 - 1) }
        ensures stays { untold ≡ untold }
        ensures faults { NeverFalls (min self.old.faults (2 ^ 64 - 1)) (min self.new.faults (2 ^ 64 - 1)) }
        ensures taken { NeverFalls (min self.old.taken (2 ^ 64 - 1)) (min self.new.taken (2 ^ 64 - 1)) }
        ensures asked { self.new.asked ≡ self.old.asked ++ ListOf folder.now limit ∷ [] }

        // Where the system tells what stands there, the answer is just that.
        ensures told { IfOk result (λ entries. FolderAtIs (S.places self.old.system) folder.now (λ all. entries ≡ all)) }
        ensures told_long { result ≡ Err FilesError.TooLong
            → FolderAtIs (S.places self.old.system) folder.now (λ all. limit < length all) }
        ensures told_absent { result ≡ Err FilesError.Absent → HasNoFolderAt (S.places self.old.system) folder.now }
        // It fails where the system did, or where the count of what was taken is at its end.
        ensures cause { result ≡ Err FilesError.Failed
            → LogsFault (S.log self.old.system) (S.log self.new.system) ⊎ (self.new.taken ≡ 2 ^ 64 - 1) }
        // No other folder is opened, and nothing is looked at but what stands in it.
        ensures log { LogsOnly (λ step. AsksBelow folder.now step.asks) (S.log self.old.system) (S.log self.new.system) }
        // Where it is answered what stands there, or that it is too long, no call failed.
        ensures well { OnOk result (LogsOnly GoesOn (S.log self.old.system) (S.log self.new.system)) }
        ensures well_long { result ≡ Err FilesError.TooLong → LogsOnly GoesOn (S.log self.old.system) (S.log self.new.system) }
        ensures listed { self.new.listed ≡ true }
    {
        self.asked = self.asked.and(&Call::List(folder.as_bytes(), limit));
        self.listed = true;
        let listed = list_folder(self.alloc, &mut self.system, folder, limit, &mut self.taken);
        self.faults = faults_with(&listed, self.faults);
        listed
    }

    fn read(&mut self, path: &str, limit: u32) -> Result<Bytes, FilesError>
        ensures found { IfOk result (λ bytes. FileIs untold path.now bytes) }
        ensures within { IfOk result (λ bytes. length bytes ≤ limit) }
        ensures counted { IfOk result
            (λ bytes. HasTaken untold (length bytes) (min self.old.taken (2 ^ 64 - 1)) (min self.new.taken (2 ^ 64 - 1))) }

        ensures failed { result ≡ Err FilesError.Failed
            → HasRisen (min self.old.faults (2 ^ 64 - 1)) (min self.new.faults (2 ^ 64 - 1)) }
        ensures absent { result ≡ Err FilesError.Absent
            → FileIsAbsent untold path.now (min self.old.faults (2 ^ 64 - 1)) (min self.new.faults (2 ^ 64 - 1)) }
        ensures too_long { result ≡ Err FilesError.TooLong
            → FileIsLong untold path.now limit (min self.old.taken (2 ^ 64 - 1)) (min self.new.taken (2 ^ 64 - 1)) }

        ensures missing { HasNoFile untold path.now
            → (result ≡ Err FilesError.Absent) ⊎ (result ≡ Err FilesError.Failed) }
        ensures over { HasLongFile untold path.now limit
            → (result ≡ Err FilesError.TooLong) ⊎ (result ≡ Err FilesError.Failed) }

        ensures calm { result ≢ Err FilesError.Failed
            → (result ≡ Err FilesError.Absent → IsSome untold)
            → min self.new.faults (2 ^ 64 - 1) ≡ min self.old.faults (2 ^ 64 - 1) }
        ensures stays { untold ≡ untold }
        ensures faults { NeverFalls (min self.old.faults (2 ^ 64 - 1)) (min self.new.faults (2 ^ 64 - 1)) }
        ensures taken { NeverFalls (min self.old.taken (2 ^ 64 - 1)) (min self.new.taken (2 ^ 64 - 1)) }
        ensures asked { self.new.asked ≡ self.old.asked ++ BytesOf path.now limit ∷ [] }

        // Where the system tells what stands there, the answer is just that. Pipes are read before a folder is listed.
        ensures told { IfOk result
            (λ bytes. FileAtIs (not self.old.listed) (S.places self.old.system) path.now (λ all. bytes ≡ all)) }
        ensures told_long { result ≡ Err FilesError.TooLong
            → FileAtIs (not self.old.listed) (S.places self.old.system) path.now (λ all. limit < length all) }
        ensures told_absent { result ≡ Err FilesError.Absent → HasNothing (S.places self.old.system) path.now }
        // What is there to be read fails only where the system did.
        ensures cause { result ≡ Err FilesError.Failed
            → HasToRead (not self.old.listed) (S.places self.old.system) path.now
            → LogsFault (S.log self.old.system) (S.log self.new.system) }
        // No other path is looked at or opened.
        ensures log { LogsOnly (λ step. AsksFor path.now step.asks) (S.log self.old.system) (S.log self.new.system) }
        // What isn't to be read isn't opened.
        ensures opens { LogsOnly (λ step. MayAsk (not self.old.listed) (S.places self.old.system) path.now step.asks)
            (S.log self.old.system) (S.log self.new.system) }
        // Where it is answered what stands there, or that it is too long, no call failed, but for reads that were interrupted.
        ensures well { OnOk result (LogsOnly GoesOn (S.log self.old.system) (S.log self.new.system)) }
        ensures well_long { result ≡ Err FilesError.TooLong → LogsOnly GoesOn (S.log self.old.system) (S.log self.new.system) }
        ensures listed { self.new.listed ≡ self.old.listed }
    {
        self.asked = self.asked.and(&Call::Read(path.as_bytes(), limit));
        let pipes = !self.listed;
        let bytes = read_file(
            self.alloc,
            &mut self.system,
            path,
            pipes,
            limit,
            &mut self.taken,
        );
        self.faults = faults_with(&bytes, self.faults);
        bytes
    }
}

/// The count of faults after a call with this answer.
fn faults_with<T>(answer: &Result<T, FilesError>, faults: u64) -> u64
    ensures failed { answer.now ≡ Err FilesError.Failed → result ≡ count_after faults 1 }
    ensures absent { answer.now ≡ Err FilesError.Absent → result ≡ count_after faults 1 }
    ensures calm { answer.now ≢ Err FilesError.Failed → answer.now ≢ Err FilesError.Absent → result ≡ faults }
    ensures rises { faults ≤ result }
{
    match answer {
        Err(FilesError::Failed | FilesError::Absent) => faults.saturating_add(1),
        _ => faults,
    }
}
