//! The records of a folder's classes, put behind those that are loaded.

ghost use Rattle.std.specs.Prelude.{◌≡◌, ◌+◌, ◌-◌, ◌^◌, ◌<◌, ◌++◌, ◌∷◌, [], ℕ, List, OnErr, OnOk, Some, length, slice_get};
ghost use Rattle.jk_model.specs.declared.class_file.ClassFile.{ClassFile as AClassFile};
ghost use Rattle.jk_model_classes.specs.declared.records.ClassRecord.{ClassRecord as ARecord};
ghost use Rattle.class_files.specs.FolderClasses.{AreReadClasses, IsReadClass, files_of};
ghost use Rattle.class_linker.specs.LinkedFiles.{IsLinkable};
ghost use Rattle.folder_loader.specs.ClassesInOrder.{HasRecords, IsAbove, IsRecordYet, StandInOrder};
ghost use Rattle.folder_loader.specs.LinkedFolders.{HasMoreClasses};

use class_files::FolderClass;
use class_linker::class_record;
use domain_resolver::{NameTable, World};
use jk_model::{DomainId, OutOfMemory};
use std::alloc::Global;

/// Puts the class of a class file behind all others, without links.
fn add_class(
    alloc: Global,
    class: &FolderClass,
    names: &NameTable,
    home: DomainId,
    world: &mut World,
) -> Result<(), OutOfMemory>
    requires read { IsReadClass class.now }
    requires linkable { IsLinkable class.now.file names.now }
    requires above { IsAbove names.now (length world.old.classes) class.now.file }
    requires few { length world.old.classes < 2 ^ 32 - 1 }
    ensures ok { OnOk result ((r : ARecord) × IsRecordYet names.now home class.now.file r
        × (world.new ≡ record world.old { classes = world.old.classes ++ r ∷ [] })) }
    ensures err { OnErr result (world.new ≡ world.old) }
{
    let record = class_record(alloc, &class.file, &class.texts, names, home)?;
    let _number = world.add_class(record)?;
    Ok(())
}

/// Puts the classes of a folder behind all others in this order, without links. After an error some may stand there.
pub(crate) fn add_classes(
    alloc: Global,
    classes: &[FolderClass],
    order: &[usize],
    names: &NameTable,
    home: DomainId,
    world: &mut World,
) -> Result<(), OutOfMemory>
    requires read { AreReadClasses classes.now }
    requires places { (k i : ℕ) → slice_get order.now k ≡ Some i → i < length classes.now }
    requires linkable { (i : ℕ) (c : AClassFile) → slice_get (files_of classes.now) i ≡ Some c → IsLinkable c names.now }
    requires stand { StandInOrder (files_of classes.now) order.now (length world.old.classes) names.now }
    requires room { length world.old.classes + length order.now < 2 ^ 32 - 1 }
    ensures ok { OnOk result (HasRecords names.now home (files_of classes.now) order.now world.old world.new) }
    ensures err { OnErr result (HasMoreClasses world.old world.new) }
{
    for place in order {
        add_class(alloc, &classes[*place], names, home, world)?;
    }
    Ok(())
}
