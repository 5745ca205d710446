//! Judging the names of classes: C18 and C19.

ghost use Rattle.std.specs.Prelude.{◌≡◌, IfOk, IfNone, IfSome, Err};
ghost use Rattle.jk_model_folders.specs.FolderRules.{BreaksNames, IsFirstBroken, NoneBroken, name_rules};
ghost use Rattle.class_files.specs.FolderClasses.{AreReadClasses, files_of};
ghost use Rattle.class_files.specs.declared.faults.ClassFilesError.TheVariants as Why;
ghost use Rattle.class_files.specs.declared.faults.FileFault.{FileFault as AFault};
ghost use Rattle.name_rules.specs.FolderNames.{AreOwnNames};
ghost use Rattle.folder_loader.specs.OwnClasses.{AreAllKnown, IsFirstMissing};

use class_files::{ClassFilesError, FileFault, FolderClass};
use domain_resolver::{NameTable, World};
use jk_model::{OutOfMemory, Rule};
use name_rules::{first_bad_hierarchy, first_missing_class};
use std::alloc::Global;

/// The first class file that names a class that isn't known.
fn first_missing(
    alloc: Global,
    classes: &[FolderClass],
    outer: &NameTable,
    own: &NameTable,
) -> Result<Option<FileFault>, OutOfMemory>
    requires read { AreReadClasses classes.now }
    requires own { AreOwnNames (files_of classes.now) own.now }
    ensures fault { IfOk result (λ found. IfSome found (λ fault. IsFirstMissing (files_of classes.now) outer.now fault)) }
    ensures none { IfOk result (λ found. IfNone found (AreAllKnown (files_of classes.now) outer.now)) }
{
    for (file, class) in classes.iter().enumerate() {
        if let Some(number) = first_missing_class(alloc, class, outer, own)? {
            let rule = Rule::C18;
            return Ok(Some(FileFault { rule, file, number }));
        }
    }
    Ok(None)
}

/// Whether the class files of a folder break none of C18 and C19, or else the first that one breaks.
pub(crate) fn judge_names(
    alloc: Global,
    world: &World,
    classes: &[FolderClass],
    outer: &NameTable,
    own: &NameTable,
) -> Result<(), ClassFilesError>
    requires read { AreReadClasses classes.now }
    requires own { AreOwnNames (files_of classes.now) own.now }
    ensures none { IfOk result (λ _. NoneBroken name_rules (BreaksNames world.now (files_of classes.now) outer.now)) }
    ensures fault { (fault : AFault) → result ≡ Err (Why.Broken fault)
        → IsFirstBroken name_rules (BreaksNames world.now (files_of classes.now) outer.now) fault.rule fault.file fault.number }
{
    if let Some(fault) = first_missing(alloc, classes, outer, own)? {
        return Err(ClassFilesError::Broken(fault));
    }
    match first_bad_hierarchy(alloc, world.classes(), classes, outer, own)? {
        Some(file) => Err(ClassFilesError::Broken(FileFault {
            rule: Rule::C19,
            file,
            number: 0,
        })),
        None => Ok(()),
    }
}
