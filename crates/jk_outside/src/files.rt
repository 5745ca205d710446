//! Files, as something that lists folders and reads files.

ghost use Rattle.std.specs.Prelude.{◌≡◌, ◌≢◌, ℕ, ◌<◌, ◌^◌, ◌≤◌, ◌⊎◌, ◌∷◌, ◌++◌, [], List, length, Option, IfOk, IsSome, Err, IsUtf8};
ghost use Rattle.std.specs.List.{AllByRecursion};
ghost use Rattle.jk_model.specs.declared.entries.Entry.{Entry};
ghost use Rattle.jk_model.specs.Outside.{Tree, Ask, ListOf, BytesOf, AreNamed, AreThere, FoldersAreThere, FolderIs, FileIs, FolderIsAbsent, FileIsAbsent, FolderIsLong, FileIsLong, HasNoFolder, HasNoFile, HasLongFolder, HasLongFile, HasRisen, NeverFalls};
ghost use Rattle.jk_outside.specs.Counts.{HasTaken};
ghost use Rattle.jk_outside.specs.EntryNames.{ArePlain};

use jk_model::{Bytes, Entry, List, OutOfMemory};
use thiserror::Error;

/// Why a folder was not listed, or a file not read.
#[derive(Clone, Copy, Debug, PartialEq, Eq, Error)]
pub enum FilesError {
    /// A fault of the files, which was counted.
    #[error("cannot read")]
    Failed,
    /// There is no such folder, or no such file.
    #[error("not there")]
    Absent,
    /// It has more entries, or more bytes, than the limit.
    #[error("too long")]
    TooLong,
    #[error("out of memory")]
    OutOfMemory,
}

impl From<OutOfMemory> for FilesError {
    ghost use Rattle.std.specs.Prelude.{◌≡◌};
    ghost use Rattle.jk_outside.specs.declared.files.FilesError.TheVariants.{OutOfMemory as Lacks};

    ghost from_gives = { λ _ e. e ≡ Lacks };

    fn from(_e: OutOfMemory) -> FilesError {
        FilesError::OutOfMemory
    }
}

/// Folders that can be listed and files that can be read. A path is made of names joined by `/`.
pub trait Files {
    /// The folders and files, where they are told. They never change.
    ghost tree: { Self → Option Tree };

    /// How many faults there were. At its last value, 2 ^ 64 - 1, it stands still.
    ghost faults: { Self → ℕ };

    /// How many bytes and entries were taken, which counts where no tree is told.
    ghost taken: { Self → ℕ };

    /// What was asked so far, told or not: each call asks one thing.
    ghost asked: { Self → List Ask };

    /// What stands in a folder, if there are at most `limit` entries. Each name is UTF-8. Where the
    /// tree is told, names differ, none is `.` or `..`, what is listed as a file is there to be read, and
    /// what is listed as a folder to be listed.
    fn list(&mut self, folder: &str, limit: u32) -> Result<List<Entry>, FilesError>
        ensures found { IfOk result (λ entries. FolderIs (tree self.old) folder.now entries) }
        ensures within { IfOk result (λ entries. length entries ≤ limit) }
        ensures names { IfOk result (λ entries. AllByRecursion (λ entry. IsUtf8 entry.name) entries) }
        ensures named { IfOk result (λ entries. AreNamed (tree self.old) entries) }
        ensures plain { IfOk result (λ entries. ArePlain (tree self.old) entries) }
        ensures there { IfOk result (λ entries. AreThere (tree self.old) folder.now entries) }
        ensures folders { IfOk result (λ entries. FoldersAreThere (tree self.old) folder.now entries) }
        ensures counted { IfOk result (λ entries. HasTaken (tree self.old) (length entries) (taken self.old) (taken self.new)) }

        ensures failed { result ≡ Err FilesError.Failed → HasRisen (faults self.old) (faults self.new) }
        ensures absent { result ≡ Err FilesError.Absent
            → FolderIsAbsent (tree self.old) folder.now (faults self.old) (faults self.new) }
        ensures too_long { result ≡ Err FilesError.TooLong
            → FolderIsLong (tree self.old) folder.now limit (taken self.old) (taken self.new) }
        // Where there are too many, each has its own name all the same.
        ensures long_named { result ≡ Err FilesError.TooLong
            → (entries : List Entry) → FolderIs (tree self.old) folder.now entries → AreNamed (tree self.old) entries }

        // Want of memory is no answer where the tree tells another.
        ensures missing { HasNoFolder (tree self.old) folder.now
            → (result ≡ Err FilesError.Absent) ⊎ (result ≡ Err FilesError.Failed) }
        ensures over { HasLongFolder (tree self.old) folder.now limit
            → (result ≡ Err FilesError.TooLong) ⊎ (result ≡ Err FilesError.Failed) }

        // An answer that names no fault counted none. An untold folder that is absent is a fault.
        ensures calm { result ≢ Err FilesError.Failed
            → (result ≡ Err FilesError.Absent → IsSome (tree self.old)) → faults self.new ≡ faults self.old }
        ensures stays { tree self.new ≡ tree self.old }
        ensures faults { NeverFalls (faults self.old) (faults self.new) }
        ensures taken { NeverFalls (taken self.old) (taken self.new) }
        ensures asked { asked self.new ≡ asked self.old ++ ListOf folder.now limit ∷ [] };

    /// The bytes of a file, if there are at most `limit`.
    fn read(&mut self, path: &str, limit: u32) -> Result<Bytes, FilesError>
        ensures found { IfOk result (λ bytes. FileIs (tree self.old) path.now bytes) }
        ensures within { IfOk result (λ bytes. length bytes ≤ limit) }
        ensures counted { IfOk result (λ bytes. HasTaken (tree self.old) (length bytes) (taken self.old) (taken self.new)) }

        ensures failed { result ≡ Err FilesError.Failed → HasRisen (faults self.old) (faults self.new) }
        ensures absent { result ≡ Err FilesError.Absent
            → FileIsAbsent (tree self.old) path.now (faults self.old) (faults self.new) }
        ensures too_long { result ≡ Err FilesError.TooLong
            → FileIsLong (tree self.old) path.now limit (taken self.old) (taken self.new) }

        ensures missing { HasNoFile (tree self.old) path.now
            → (result ≡ Err FilesError.Absent) ⊎ (result ≡ Err FilesError.Failed) }
        ensures over { HasLongFile (tree self.old) path.now limit
            → (result ≡ Err FilesError.TooLong) ⊎ (result ≡ Err FilesError.Failed) }

        ensures calm { result ≢ Err FilesError.Failed
            → (result ≡ Err FilesError.Absent → IsSome (tree self.old)) → faults self.new ≡ faults self.old }
        ensures stays { tree self.new ≡ tree self.old }
        ensures faults { NeverFalls (faults self.old) (faults self.new) }
        ensures taken { NeverFalls (taken self.old) (taken self.new) }
        ensures asked { asked self.new ≡ asked self.old ++ BytesOf path.now limit ∷ [] };

    /// Counts of 64 bits.
    ghost faults_fit: { (s : Self) → faults s < 2 ^ 64 };

    ghost taken_fits: { (s : Self) → taken s < 2 ^ 64 };
}
