//! The names of a folder's own classes.

ghost use Rattle.std.specs.Prelude.{◌≤◌, IfOk, length};
ghost use Rattle.jk_model_folders.specs.FolderTrees.{MOST_FILES};
ghost use Rattle.class_files.specs.FolderClasses.{AreReadClasses, files_of};
ghost use Rattle.folder_loader.specs.OwnClasses.{NamesDiffer};
ghost use Rattle.name_rules.specs.FolderNames.{AreOwnNames};

use class_files::FolderClass;
use domain_resolver::NameTable;
use jk_model::{ClassId, OutOfMemory};
use std::alloc::Global;

/// What the names of the class files' classes mean among themselves: each the place of its file.
pub(crate) fn own_names(alloc: Global, classes: &[FolderClass]) -> Result<NameTable, OutOfMemory>
    requires read { AreReadClasses classes.now }
    requires few { length classes.now ≤ MOST_FILES }
    requires differ { NamesDiffer (files_of classes.now) }
    ensures { IfOk result (λ own. AreOwnNames (files_of classes.now) own) }
{
    let mut own = NameTable::new(alloc);
    for (place, class) in classes.iter().enumerate() {
        let pool = class.file.pool.as_slice();
        if let Some(name) = class.texts.class_name(pool, class.file.this_class) {
            let _ = own.give(name, ClassId(place as u32))?;
        }
    }
    Ok(own)
}
