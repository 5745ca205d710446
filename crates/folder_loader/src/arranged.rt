//! The order of a folder's classes, and what names mean in the domain by it.

ghost use Rattle.std.specs.Prelude.{◌≤◌, IfOk, length};
ghost use Rattle.jk_model_classes.specs.declared.sharing.ResolverLine.{ResolverLine as ALine};
ghost use Rattle.std.specs.Prelude.{List};
ghost use Rattle.jk_model_folders.specs.FolderRules.{BreaksNames, NoneBroken, name_rules};
ghost use Rattle.jk_model_folders.specs.FolderTrees.{MOST_FILES};
ghost use Rattle.jk_model_folders.specs.Loads.{MayLoad};
ghost use Rattle.class_files.specs.FolderClasses.{AreReadClasses, files_of};
ghost use Rattle.name_rules.specs.FolderNames.{AreOwnNames};
ghost use Rattle.folder_loader.specs.ClassesInOrder.{IsArranged};
ghost use Rattle.folder_loader.specs.LinkedFolders.{AreLinkable};

use crate::table::folder_table;
use class_files::FolderClass;
use domain_resolver::{NameTable, World};
use jk_model::{ClassId, OutOfMemory};
use name_rules::class_order;
use std::alloc::Global;

/// The order of a folder's classes, which stand from `first` on, and what names mean in the domain.
#[derive(Drop)]
pub(crate) struct Arrangement {
    /// The number of the first of the classes.
    pub(crate) first: ClassId,
    /// The places of the class files in the order of their classes.
    pub(crate) order: Vec<usize>,
    pub(crate) names: NameTable,
}

/// Puts the class files of a folder in the order of their classes, and gives these their names.
pub(crate) fn arranged(
    alloc: Global,
    world: &World,
    classes: &[FolderClass],
    outer: NameTable,
    own: &NameTable,
) -> Result<Arrangement, OutOfMemory>
    requires may { MayLoad world.now }
    requires read { AreReadClasses classes.now }
    requires few { length classes.now ≤ MOST_FILES }
    requires linkable { (lines : List ALine) × AreLinkable world.now (files_of classes.now) lines outer }
    requires own { AreOwnNames (files_of classes.now) own.now }
    requires named { NoneBroken name_rules (BreaksNames world.now (files_of classes.now) outer) }
    ensures { IfOk result (λ x. IsArranged world.now (files_of classes.now) outer x) }
{
    let first = ClassId(world.classes().len() as u32);
    let order = class_order(alloc, classes, own)?;
    let names = folder_table(classes, order.as_slice(), outer, first.0)?;
    names.names_differ();
    Ok(Arrangement {
        first,
        order,
        names,
    })
}
