//! The files of a folder that count.

ghost use Rattle.std.specs.Prelude.{◌≡◌, ◌≢◌, ◌+◌, ◌++◌, IfOk, Err, List, Some};
ghost use Rattle.std.specs.List.{AllByRecursion};
ghost use Rattle.jk_model.specs.Outside.{Ask, FolderIsAbsent, HasRisen, ListOf, NeverFalls, Tree};
ghost use Rattle.jk_model_folders.specs.FolderTrees.{AreFiles, AreToldFiles, MOST_ENTRIES, MOST_LEVELS};
ghost use Rattle.jk_outside.specs.Counts.{HasTaken};
ghost use Rattle.folder_reader.specs.AskedOnce.{AsksOnce};
ghost use Rattle.folder_reader.specs.FolderAnswers.{AskedFor, AsksWithin, IsLarge};
ghost use Rattle.folder_reader.specs.declared.reading.FolderError.TheVariants as Why;

use crate::class_files::{read_classes, read_resolver, sorted_paths};
use crate::walk::found_below;
use jk_model::OutOfMemory;
use jk_model_folders::FolderFiles;
use jk_outside::Files;
use std::alloc::Global;
use thiserror::Error;

/// Why the files of a folder aren't answered.
#[derive(Clone, Copy, Debug, PartialEq, Eq, Error)]
pub enum FolderError {
    /// There is no such folder: L2.
    #[error("no such folder")]
    NoFolder,
    /// The folder is too large, or too deep: L5.
    #[error("the folder is too large")]
    TooLarge,
    /// A fault of the files, which was counted.
    #[error("cannot read")]
    ReadFault,
    #[error("out of memory")]
    OutOfMemory,
}

impl From<OutOfMemory> for FolderError {
    ghost use Rattle.std.specs.Prelude.{◌≡◌};
    ghost use Rattle.folder_reader.specs.declared.reading.FolderError.TheVariants.{OutOfMemory as Lacks};

    ghost from_gives = { λ _ e. e ≡ Lacks };

    fn from(_e: OutOfMemory) -> FolderError {
        FolderError::OutOfMemory
    }
}

/// How many class files there may be.
const MOST_FILES: usize = 512;

/// The files of a folder that count. Where the tree is told, these are those that stand in it, `NoFolder` comes exactly where
/// it has no such folder, and `TooLarge` exactly where the folder breaks L5.
pub fn read_folder<F: Files>(
    alloc: Global,
    files: &mut F,
    root: &str,
) -> Result<FolderFiles, FolderError>
    ensures files { IfOk result (λ f. AreFiles f) }
    ensures told { IfOk result (λ f. AreToldFiles (F.tree files.old) root.now f) }

    // A folder that is missed was asked for, and where no tree is told, a fault was counted.
    ensures no_folder { result ≡ Err Why.NoFolder → FolderIsAbsent (F.tree files.old) root.now (F.faults files.old) (F.faults files.new) }
    ensures missed { result ≡ Err Why.NoFolder → AskedFor (F.asked files.old) (F.asked files.new) (ListOf root.now MOST_ENTRIES) }
    ensures too_large { result ≡ Err Why.TooLarge → IsLarge (F.tree files.old) root.now }
    // Of files that tell no tree more was taken than the least limit of L5 allows.
    ensures large { result ≡ Err Why.TooLarge → HasTaken (F.tree files.old) (MOST_LEVELS + 1) (F.taken files.old) (F.taken files.new) }
    ensures read_fault { result ≡ Err Why.ReadFault → HasRisen (F.faults files.old) (F.faults files.new) }
    // It is never answered before something was asked.
    ensures something { result ≡ Err Why.ReadFault → F.asked files.new ≢ F.asked files.old }

    // An answer other than `ReadFault` counted no fault of told files.
    ensures calm { (t : Tree) → F.tree files.old ≡ Some t → result ≢ Err Why.ReadFault → F.faults files.new ≡ F.faults files.old }
    ensures stays { F.tree files.new ≡ F.tree files.old }
    ensures faults { NeverFalls (F.faults files.old) (F.faults files.new) }
    ensures taken { NeverFalls (F.taken files.old) (F.taken files.new) }
    ensures asks { (more : List Ask) × (F.asked files.new ≡ F.asked files.old ++ more) × AllByRecursion (AsksWithin root.now) more }
    // Each file is asked for at most once, and each folder of a told tree.
    ensures once { AsksOnce (F.tree files.old) (F.asked files.old) (F.asked files.new) }
{
    let found = found_below(alloc, files, root)?;
    let paths = sorted_paths(alloc, found.as_slice())?;
    if paths.len() > MOST_FILES {
        return Err(FolderError::TooLarge);
    }
    let classes = read_classes(alloc, files, root, paths.as_slice())?;
    let resolver = read_resolver(alloc, files, root, found.as_slice())?;
    Ok(FolderFiles { classes, resolver })
}
