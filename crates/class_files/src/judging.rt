//! Judging each class file by itself: the first of C6 to C17 that one breaks.

ghost use Rattle.std.specs.Prelude.{◌≡◌, ◌<◌, IsUtf8, length, Err, IfOk, Some, slice_get};
ghost use Rattle.std.specs.List.{AllZip};
ghost use Rattle.jk_model_classes.specs.OneClassRules.{one_class_rules};
ghost use Rattle.jk_model_folders.specs.declared.files.FolderFile.{FolderFile as AFile};
ghost use Rattle.jk_model_folders.specs.FolderRules.{BreaksAlone, NoneBroken};
ghost use Rattle.jk_model_folders.specs.FolderTrees.{AreFiles};
ghost use Rattle.class_files.specs.Faults.{IsAloneFault};
ghost use Rattle.class_files.specs.FileAnswers.{IsReadOf};
ghost use Rattle.class_files.specs.FolderClasses.{files_of};
ghost use Rattle.class_files.specs.declared.faults.ClassFilesError.TheVariants as Why;

use crate::faults::{ClassFilesError, FileFault, earlier, fault_at};
use crate::folder_class::FolderClass;
use class_rules::first_fault;
use jk_model_folders::FolderFiles;
use std::alloc::Global;

/// The text in bytes of UTF-8.
fn text_of(bytes: &[u8]) -> &str
    requires { IsUtf8 bytes.now }
    ensures { result.now ≡ bytes.now }
{
    match str::from_utf8(bytes) {
        Ok(text) => text,
        Err(_) => unreachable!(),
    }
}

/// The path of the class file at a place.
fn path_at(files: &FolderFiles, place: usize) -> &str
    requires files { AreFiles files.now }
    requires there { place < length files.now.classes }
    ensures { (file : AFile) × (slice_get files.now.classes place ≡ Some file) × (result.now ≡ file.path) }
{
    let classes = files.classes.as_slice();
    text_of(classes[place].path.as_slice())
}

/// Whether the class files of a folder break none of C6 to C17, or else the first that one breaks.
pub(crate) fn judge(
    alloc: Global,
    files: &FolderFiles,
    classes: &[FolderClass],
) -> Result<(), ClassFilesError>
    requires files { AreFiles files.now }
    requires read { AllZip IsReadOf files.now.classes classes.now }
    ensures none { IfOk result (λ _. NoneBroken one_class_rules (BreaksAlone files.now (files_of classes.now))) }
    ensures fault { (fault : FileFault) → result ≡ Err (Why.Broken fault) → IsAloneFault files.now (files_of classes.now) fault }
{
    let mut first = None;
    for (place, class) in classes.iter().enumerate() {
        if let Some(fault) = first_fault(alloc, &class.file, path_at(files, place))? {
            first = Some(earlier(first, fault_at(place, fault)));
        }
    }
    match first {
        Some(fault) => Err(ClassFilesError::Broken(fault)),
        None => Ok(()),
    }
}
