//! Reading the class files: the first of C1 to C5 that one breaks.

ghost use Rattle.std.specs.Prelude.{◌≡◌, ◌<◌, ◌^◌, IfOk, length};
ghost use Rattle.std.specs.List.{AllByRecursion, AllZip};
ghost use Rattle.jk_model.specs.ClassFile.{IsEntry, IsGoodEntry};
ghost use Rattle.jk_model_folders.specs.FolderTrees.{AreFiles};
ghost use Rattle.class_texts.specs.PoolTexts.{AreTextsOf};
ghost use Rattle.class_files.specs.FileAnswers.{IsReading, IsReadOf, of_refusal};
ghost use Rattle.class_files.specs.Faults.{IsReadFault};
ghost use Rattle.class_files.specs.declared.faults.ClassFilesError.TheVariants as Why;

use crate::faults::{ClassFilesError, FileFault, earlier, fault_at};
use crate::folder_class::FolderClass;
use class_reader::{ReadRefusal, read_class};
use class_texts::ClassTexts;
use jk_model::{ClassFile, List, OutOfMemory, Rule};
use jk_model_classes::ClassFault;
use jk_model_folders::FolderFiles;
use std::alloc::Global;

/// Why bytes aren't read as a class file.
#[derive(Clone, Copy, Debug, PartialEq, Eq)]
enum NotRead {
    Broken(ClassFault),
    OutOfMemory,
}

/// The rule that bytes break which are no class file.
fn refused(refusal: ReadRefusal) -> NotRead
    ensures { result ≡ of_refusal refusal }
{
    let (rule, number) = match refusal {
        ReadRefusal::BadMagic => (Rule::C1, 0),
        ReadRefusal::BadVersion => (Rule::C2, 4),
        ReadRefusal::Truncated(len) => (Rule::C3, len),
        ReadRefusal::Trailing(place) => (Rule::C4, place),
        ReadRefusal::BadPool(index) => (Rule::C5, u32::from(index)),
        ReadRefusal::OutOfMemory => return NotRead::OutOfMemory,
    };
    NotRead::Broken(ClassFault { rule, number })
}

/// The class file that the bytes are, or the rule that they break.
fn class_of(alloc: Global, bytes: &[u8]) -> Result<ClassFile, NotRead>
    requires { length bytes.now < 2 ^ 31 }
    ensures { IsReading bytes.now result }
{
    match read_class(alloc, bytes) {
        Ok(class) => Ok(class),
        Err(refusal) => Err(refused(refusal)),
    }
}

/// A class file with the texts of its pool.
fn with_texts(alloc: Global, file: ClassFile) -> Result<FolderClass, OutOfMemory>
    requires good { AllByRecursion (IsGoodEntry file.pool) file.pool }
    requires entries { AllByRecursion IsEntry file.pool }
    ensures file { IfOk result (λ f. f.file ≡ file) }
    ensures texts { IfOk result (λ f. AreTextsOf file.pool f.texts) }
{
    let texts = ClassTexts::of(alloc, file.pool.as_slice())?;
    Ok(FolderClass { file, texts })
}

/// The class files of a folder with their texts, or the first of C1 to C5 that one breaks. All are read before one is
/// answered, since a later file may break an earlier rule.
pub(crate) fn read_files(
    alloc: Global,
    files: &FolderFiles,
) -> Result<List<FolderClass>, ClassFilesError>
    requires { AreFiles files.now }
    ensures read { IfOk result (λ classes. AllZip IsReadOf files.now.classes classes) }
    ensures fault { (fault : FileFault) → result ≡ Err (Why.Broken fault) → IsReadFault files.now fault }
{
    let mut classes = List::new(alloc);
    let mut first = None;
    for (place, file) in files.classes.as_slice().iter().enumerate() {
        match class_of(alloc, file.bytes.as_slice()) {
            Ok(class) => classes.push(with_texts(alloc, class)?)?,
            Err(NotRead::Broken(fault)) => first = Some(earlier(first, fault_at(place, fault))),
            Err(NotRead::OutOfMemory) => return Err(ClassFilesError::OutOfMemory),
        }
    }
    match first {
        Some(fault) => Err(ClassFilesError::Broken(fault)),
        None => Ok(classes),
    }
}
