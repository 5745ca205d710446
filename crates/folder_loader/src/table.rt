//! What names mean in the domain that is loaded.

ghost use Rattle.std.specs.Prelude.{◌≡◌, ◌+◌, ◌^◌, ◌<◌, ℕ, IfOk, Some, length, slice_get};
ghost use Rattle.class_files.specs.FolderClasses.{AreReadClasses, files_of};
ghost use Rattle.folder_loader.specs.FolderTables.{HasNoOwn, IsFolderTable};
ghost use Rattle.folder_loader.specs.OwnClasses.{NamesDiffer};

use class_files::FolderClass;
use domain_resolver::NameTable;
use jk_model::{ClassId, OutOfMemory};

/// What names mean in the domain: those that mean something outside of the folder, and those of the folder's classes, which
/// get their numbers in this order, from `first` on.
pub(crate) fn folder_table(
    classes: &[FolderClass],
    order: &[usize],
    mut names: NameTable,
    first: u32,
) -> Result<NameTable, OutOfMemory>
    requires read { AreReadClasses classes.now }
    requires room { first + length order.now < 2 ^ 32 }
    requires places { (k i : ℕ) → slice_get order.now k ≡ Some i → i < length classes.now }
    requires once { (k l i : ℕ) → slice_get order.now k ≡ Some i → slice_get order.now l ≡ Some i → k ≡ l }
    requires differ { NamesDiffer (files_of classes.now) }
    requires outer { HasNoOwn (files_of classes.now) names }
    ensures { IfOk result (λ t. IsFolderTable (files_of classes.now) order.now first names t) }
{
    for (place, file) in order.iter().enumerate() {
        let class = &classes[*file];
        let pool = class.file.pool.as_slice();
        if let Some(name) = class.texts.class_name(pool, class.file.this_class) {
            let _ = names.give(name, ClassId(first + place as u32))?;
        }
    }
    Ok(names)
}
