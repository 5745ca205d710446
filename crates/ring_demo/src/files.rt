//! The files of the demo.

ghost use Rattle.std.specs.Prelude.{◌≡◌, ◌≢◌, ℕ, ◌<◌, ◌≤◌, ◌⊎◌, ◌^◌, ◌∷◌, ◌++◌, [], length, IfOk, IsSome, Some, Err, IsUtf8};
ghost use Rattle.std.specs.List.{AllByRecursion};
ghost use Rattle.jk_model.specs.declared.entries.Entry.{Entry};
ghost use Rattle.jk_model.specs.Outside.{ListOf, BytesOf, AreNamed, AreThere, FoldersAreThere, FolderIs, FileIs, FolderIsAbsent, FileIsAbsent, FolderIsLong, FileIsLong, HasNoFolder, HasNoFile, HasLongFolder, HasLongFile, HasRisen, NeverFalls};
ghost use Rattle.jk_outside.specs.Counts.{HasTaken, min_fits};
ghost use Rattle.jk_outside.specs.EntryNames.{ArePlain};
ghost use Rattle.jk_outside.specs.MemoryTrees.{tree_of};

use jk_model::{Bytes, Entry, List};
use jk_outside::{Files, FilesError, MemoryFiles};
use std::marker::Model;

/// Files in memory that never fail.
#[derive(Drop)]
pub struct DemoFiles {
    files: MemoryFiles,
}

impl Model for DemoFiles {
    ghost use Rattle.std.specs.Prelude.{◌≡◌, []};
    ghost use Rattle.jk_outside.specs.MemoryTrees.{FilesState};

    ghost Value = { FilesState };

    ghost view = { λ s. s.files };

    ghost invariant = { λ s. (s.files.fails ≡ []) × (s.files.faults ≡ 0) };
}

impl DemoFiles {
    /// Files of which no call is to fail, and none did.
    pub(crate) fn of(files: MemoryFiles) -> DemoFiles
        requires { (files.fails ≡ []) × (files.faults ≡ 0) }
        ensures { result ≡ files }
    {
        DemoFiles { files }
    }
}

impl Files for DemoFiles {
    ghost tree = { λ s. Some (tree_of s.files) };

    ghost faults = { λ s. 0 };

    ghost taken = { λ s. 0 };

    ghost asked = { λ s. s.asked };

    ghost faults_fit = { λ s. min_fits 0 };

    ghost taken_fits = { λ s. min_fits 0 };

    #[tactic(auto, using(crate::proofs::NeverFails::is_unnamed))]
    fn list(&mut self, folder: &str, limit: u32) -> Result<List<Entry>, FilesError>
        ensures found { IfOk result (λ entries. FolderIs (Some (tree_of self.old.files)) folder.now entries) }
        ensures within { IfOk result (λ entries. length entries ≤ limit) }
        ensures names { IfOk result (λ entries. AllByRecursion (λ entry. IsUtf8 entry.name) entries) }
        ensures named { IfOk result (λ entries. AreNamed (Some (tree_of self.old.files)) entries) }
        ensures plain { IfOk result (λ entries. ArePlain (Some (tree_of self.old.files)) entries) }
        ensures there { IfOk result (λ entries. AreThere (Some (tree_of self.old.files)) folder.now entries) }
        ensures folders { IfOk result (λ entries. FoldersAreThere (Some (tree_of self.old.files)) folder.now entries) }
        ensures counted { IfOk result (λ entries. HasTaken (Some (tree_of self.old.files)) (length entries) 0 0) }

        ensures failed { result ≡ Err FilesError.Failed → HasRisen 0 0 }
        ensures absent { result ≡ Err FilesError.Absent → FolderIsAbsent (Some (tree_of self.old.files)) folder.now 0 0 }
        ensures too_long { result ≡ Err FilesError.TooLong → FolderIsLong (Some (tree_of self.old.files)) folder.now limit 0 0 }
        ensures long_named { result ≡ Err FilesError.TooLong
            → (entries : List Entry) → FolderIs (Some (tree_of self.old.files)) folder.now entries
            → AreNamed (Some (tree_of self.old.files)) entries }

        ensures missing { HasNoFolder (Some (tree_of self.old.files)) folder.now
            → (result ≡ Err FilesError.Absent) ⊎ (result ≡ Err FilesError.Failed) }
        ensures over { HasLongFolder (Some (tree_of self.old.files)) folder.now limit
            → (result ≡ Err FilesError.TooLong) ⊎ (result ≡ Err FilesError.Failed) }

        ensures calm { result ≢ Err FilesError.Failed
            → (result ≡ Err FilesError.Absent → IsSome (Some (tree_of self.old.files))) → ◌≡◌ {A = ℕ} 0 0 }
        ensures stays { Some (tree_of self.new.files) ≡ Some (tree_of self.old.files) }
        ensures faults { NeverFalls 0 0 }
        ensures taken { NeverFalls 0 0 }
        ensures asked { self.new.asked ≡ self.old.asked ++ ListOf folder.now limit ∷ [] }
    {
        self.files.list(folder, limit)
    }

    #[tactic(auto, using(crate::proofs::NeverFails::is_unnamed))]
    fn read(&mut self, path: &str, limit: u32) -> Result<Bytes, FilesError>
        ensures found { IfOk result (λ bytes. FileIs (Some (tree_of self.old.files)) path.now bytes) }
        ensures within { IfOk result (λ bytes. length bytes ≤ limit) }
        ensures counted { IfOk result (λ bytes. HasTaken (Some (tree_of self.old.files)) (length bytes) 0 0) }

        ensures failed { result ≡ Err FilesError.Failed → HasRisen 0 0 }
        ensures absent { result ≡ Err FilesError.Absent → FileIsAbsent (Some (tree_of self.old.files)) path.now 0 0 }
        ensures too_long { result ≡ Err FilesError.TooLong → FileIsLong (Some (tree_of self.old.files)) path.now limit 0 0 }

        ensures missing { HasNoFile (Some (tree_of self.old.files)) path.now
            → (result ≡ Err FilesError.Absent) ⊎ (result ≡ Err FilesError.Failed) }
        ensures over { HasLongFile (Some (tree_of self.old.files)) path.now limit
            → (result ≡ Err FilesError.TooLong) ⊎ (result ≡ Err FilesError.Failed) }

        ensures calm { result ≢ Err FilesError.Failed
            → (result ≡ Err FilesError.Absent → IsSome (Some (tree_of self.old.files))) → ◌≡◌ {A = ℕ} 0 0 }
        ensures stays { Some (tree_of self.new.files) ≡ Some (tree_of self.old.files) }
        ensures faults { NeverFalls 0 0 }
        ensures taken { NeverFalls 0 0 }
        ensures asked { self.new.asked ≡ self.old.asked ++ BytesOf path.now limit ∷ [] }
    {
        self.files.read(path, limit)
    }
}
