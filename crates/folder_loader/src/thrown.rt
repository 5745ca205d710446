//! What the methods of a folder's classes say they throw.

ghost use Rattle.std.specs.Prelude.{◌≡◌, ◌<◌, ℕ, IfOk, OnOk, Some, length, slice_get, ◌++◌};
ghost use Rattle.jk_model.specs.declared.class_file.ClassFile.{ClassFile as AClassFile};
ghost use Rattle.class_files.specs.FolderClasses.{AreReadClasses, files_of};
ghost use Rattle.class_linker.specs.LinkedFiles.{IsLinkable};
ghost use Rattle.folder_loader.specs.ClassesInOrder.{AreDeclared};

use class_files::FolderClass;
use class_linker::thrown_classes;
use domain_resolver::NameTable;
use jk_model::{ClassId, List, OutOfMemory};
use std::alloc::Global;

/// Puts second lists of the same classes at the end.
fn add_lists(declared: &mut List<List<ClassId>>, lists: &[List<ClassId>]) -> Result<(), OutOfMemory>
    ensures { OnOk result (declared.new ≡ declared.old ++ lists.now) }
{
    for list in lists {
        declared.push(list.copied()?)?;
    }
    Ok(())
}

/// What each method says it throws, in the order of classes and members.
pub(crate) fn declared_by(
    alloc: Global,
    classes: &[FolderClass],
    order: &[usize],
    names: &NameTable,
) -> Result<List<List<ClassId>>, OutOfMemory>
    requires read { AreReadClasses classes.now }
    requires places { (k i : ℕ) → slice_get order.now k ≡ Some i → i < length classes.now }
    requires linkable { (i : ℕ) (c : AClassFile) → slice_get (files_of classes.now) i ≡ Some c → IsLinkable c names.now }
    ensures { IfOk result (λ declared. AreDeclared names.now (files_of classes.now) order.now declared) }
{
    let mut declared = List::new(alloc);
    for place in order {
        let class = &classes[*place];
        let lists = thrown_classes(alloc, &class.file, &class.texts, names)?;
        add_lists(&mut declared, lists.as_slice())?;
    }
    Ok(declared)
}
