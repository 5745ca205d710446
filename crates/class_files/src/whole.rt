//! The class files of a folder.

ghost use Rattle.std.specs.Prelude.{◌≡◌, IfOk, Err};
ghost use Rattle.jk_model_classes.specs.OneClassRules.{one_class_rules};
ghost use Rattle.jk_model_folders.specs.FolderRules.{AreClassFiles, BreaksAlone, NoneBroken};
ghost use Rattle.jk_model_folders.specs.FolderTrees.{AreFiles};
ghost use Rattle.class_files.specs.Faults.{IsOwnFault};
ghost use Rattle.class_files.specs.FolderClasses.{AreReadClasses, files_of};
ghost use Rattle.class_files.specs.declared.faults.ClassFilesError.TheVariants as Why;

use crate::faults::{ClassFilesError, FileFault};
use crate::folder_class::FolderClass;
use crate::judging::judge;
use crate::reading::read_files;
use jk_model::List;
use jk_model_folders::FolderFiles;
use std::alloc::Global;

/// The class files of a folder with their texts, in the order of their paths, or the first of the rules C1 to C17 that one of
/// them breaks: of the files that break it the first, and in it the least number. A rule is asked only where those before it
/// hold for all files.
///
/// Each file is read and judged once, so it takes time and memory in proportion to all files, or a logarithm more in time.
pub fn class_files(alloc: Global, files: &FolderFiles) -> Result<List<FolderClass>, ClassFilesError>
    requires { AreFiles files.now }
    ensures classes { IfOk result (λ classes. AreClassFiles files.now (files_of classes)) }
    ensures none_alone { IfOk result (λ classes. NoneBroken one_class_rules (BreaksAlone files.now (files_of classes))) }
    // Each breaks none of these rules under its own path, and its texts are those of its pool.
    ensures read { IfOk result (λ classes. AreReadClasses classes) }
    ensures fault { (fault : FileFault) → result ≡ Err (Why.Broken fault) → IsOwnFault files.now fault }
{
    let classes = read_files(alloc, files)?;
    match judge(alloc, files, classes.as_slice()) {
        Ok(()) => Ok(classes),
        Err(e) => Err(e),
    }
}
