//! The classes of a folder behind those that are loaded, before they have their links.

ghost use Rattle.std.specs.Prelude.{◌≤◌, IfOk, OnErr, length};
ghost use Rattle.jk_model_folders.specs.FolderRules.{BreaksNames, NoneBroken, name_rules};
ghost use Rattle.jk_model_folders.specs.FolderTrees.{MOST_FILES};
ghost use Rattle.jk_model_folders.specs.Loads.{MayLoad};
ghost use Rattle.class_files.specs.FolderClasses.{AreReadClasses, files_of};
ghost use Rattle.name_rules.specs.FolderNames.{AreOwnNames};
ghost use Rattle.folder_loader.specs.ClassesInOrder.{StandsUnlinked};
ghost use Rattle.folder_loader.specs.LinkedFolders.{AreLinkable, HasMoreClasses};

use crate::all_links::links_of;
use crate::arranged::arranged;
use crate::offers::offers_of;
use crate::records::add_classes;
use crate::thrown::declared_by;
use class_files::FolderClass;
use domain_resolver::{NameTable, Offers, World};
use jk_model::{ClassId, DomainId, List, OutOfMemory};
use jk_model_classes::Link;
use resolver_rules::OuterNames;
use std::alloc::Global;

/// What is known of a folder's classes that stand behind the others.
#[derive(Drop)]
pub(crate) struct Placed {
    /// The number of the domain that is loaded.
    pub(crate) home: DomainId,
    /// The number of the first of the classes.
    pub(crate) first: ClassId,
    /// The places of the class files in the order of their classes.
    pub(crate) order: Vec<usize>,
    /// What names mean in the domain.
    pub(crate) names: NameTable,
    pub(crate) offers: Offers,
    /// What each method says it throws, in the order of classes and members.
    pub(crate) declared: List<List<ClassId>>,
}

/// Puts the class files of a folder, which break neither C18 nor C19, behind the classes that are loaded, without their links,
/// and answers these too, in the order of the classes. After an error some classes may stand behind the others.
pub(crate) fn placed_classes(
    alloc: Global,
    classes: &[FolderClass],
    outer: OuterNames,
    own: &NameTable,
    world: &mut World,
) -> Result<(Placed, List<List<Link>>), OutOfMemory>
    requires may { MayLoad world.old }
    requires read { AreReadClasses classes.now }
    requires few { length classes.now ≤ MOST_FILES }
    requires linkable { AreLinkable world.old (files_of classes.now) outer.lines outer.names }
    requires own { AreOwnNames (files_of classes.now) own.now }
    requires named { NoneBroken name_rules (BreaksNames world.old (files_of classes.now) outer.names) }
    ensures ok { IfOk result (λ r. StandsUnlinked world.old outer.lines (files_of classes.now) outer.names r.0 r.1 world.new) }
    ensures err { OnErr result (HasMoreClasses world.old world.new) }
{
    let home = DomainId(world.domain_count() as u32);
    let OuterNames { lines, names } = outer;
    let a = arranged(alloc, world, classes, names, own)?;
    let order = a.order.as_slice();
    let offers = offers_of(alloc, lines.as_slice(), &a.names)?;
    let declared = declared_by(alloc, classes, order, &a.names)?;
    add_classes(alloc, classes, order, &a.names, home, world)?;
    let links = links_of(alloc, world.classes(), classes, order, &a.names)?;
    let placed = Placed {
        home,
        first: a.first,
        order: a.order,
        names: a.names,
        offers,
        declared,
    };
    Ok((placed, links))
}
