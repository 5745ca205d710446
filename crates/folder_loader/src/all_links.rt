//! What the entries of the pools of a folder's classes lead to.

ghost use Rattle.std.specs.Prelude.{◌≡◌, ◌+◌, ◌<◌, ◌≤◌, ◌^◌, ◌++◌, ℕ, List, IfOk, Some, length, map, slice_get};
ghost use Rattle.jk_model.specs.declared.class_file.ClassFile.{ClassFile as AClassFile};
ghost use Rattle.jk_model_classes.specs.declared.records.ClassRecord.{ClassRecord as ARecord};
ghost use Rattle.jk_model_folders.specs.LinkedClasses.{without_links};
ghost use Rattle.class_files.specs.FolderClasses.{AreReadClasses, files_of};
ghost use Rattle.class_linker.specs.LinkedFiles.{IsLinkable};
ghost use Rattle.folder_loader.specs.ClassesInOrder.{AreLinksAmong, AreOfFiles, links_in};

use class_files::FolderClass;
use class_linker::class_links;
use class_table::ClassTable;
use domain_resolver::{NameTable, World};
use jk_model::{ClassId, List, OutOfMemory};
use jk_model_classes::Link;
use std::alloc::Global;

/// What the entries of each class's pool lead to among all classes, in this order of the classes.
pub(crate) fn links_of(
    alloc: Global,
    t: &ClassTable,
    classes: &[FolderClass],
    order: &[usize],
    names: &NameTable,
) -> Result<List<List<Link>>, OutOfMemory>
    requires read { AreReadClasses classes.now }
    requires places { (k i : ℕ) → slice_get order.now k ≡ Some i → i < length classes.now }
    requires linkable { (i : ℕ) (c : AClassFile) → slice_get (files_of classes.now) i ≡ Some c → IsLinkable c names.now }
    ensures { IfOk result (λ links. AreOfFiles (AreLinksAmong names.now t.now) (files_of classes.now) order.now links) }
{
    let mut all = List::new(alloc);
    for place in order {
        let class = &classes[*place];
        let links = class_links(alloc, t, &class.file, &class.texts, names)?;
        all.push(links)?;
    }
    Ok(all)
}

/// Gives the classes from `first` on their links, which leaves none behind.
pub(crate) fn set_links(
    alloc: Global,
    world: &mut World,
    first: ClassId,
    mut links: List<List<Link>>,
)
    requires there { first.0 + length links ≤ length world.old.classes }
    requires few { length world.old.classes < 2 ^ 32 }
    ensures { (base added : List ARecord) → world.old.classes ≡ base ++ map without_links added → first.0 ≡ length base
        → links ≡ links_in added → world.new ≡ record world.old { classes = base ++ added } }
{
    for place in 0..links.len() {
        let own = links.replace(place, List::new(alloc));
        world.set_links(ClassId(first.0 + place as u32), own);
    }
}
