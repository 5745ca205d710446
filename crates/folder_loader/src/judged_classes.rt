//! The rules on the classes of a folder where they stand among all others: C20 to C27.

ghost use Rattle.std.specs.Prelude.{◌≡◌, Err, IfOk};
ghost use Rattle.class_files.specs.FolderClasses.{AreReadClasses, files_of};
ghost use Rattle.class_files.specs.declared.faults.ClassFilesError.TheVariants as Why;
ghost use Rattle.class_files.specs.declared.faults.FileFault.{FileFault as AFault};
ghost use Rattle.folder_loader.specs.JudgedClasses.{AreLinked, AreUnlinked, IsFirstOf, KeepAll, WhereLinked, WhereShared, WhereUnlinked, code_rules, earlier_rules, link_rules, shared_rules};
ghost use Rattle.folder_loader.specs.LinkedFolders.{ArePathsInOrder, AreTypedFrom};

use crate::placed::Placed;
use class_files::{ClassFilesError, FolderClass};
use class_table::ClassTable;
use domain_resolver::World;
use jk_model::{List, OutOfMemory};
use jk_model_classes::Link;
use placed_rules::{code_fault, link_fault, shared_fault};
use std::alloc::Global;

/// Judges C20, C21 and C22 of the classes, which have no links yet.
pub(crate) fn judge_links(
    alloc: Global,
    t: &ClassTable,
    classes: &[FolderClass],
    placed: &Placed,
    links: &[List<Link>],
) -> Result<(), ClassFilesError>
    requires read { AreReadClasses classes.now }
    requires unlinked { AreUnlinked (files_of classes.now) placed.now links.now t.now }
    ensures none { IfOk result (λ _. WhereUnlinked (files_of classes.now) placed.now t.now (λ w p. KeepAll link_rules w (files_of classes.now) p)) }
    ensures fault { (fault : AFault) → result ≡ Err (Why.Broken fault)
        → WhereUnlinked (files_of classes.now) placed.now t.now (λ w p. IsFirstOf w (files_of classes.now) p fault) }
{
    let order = placed.order.as_slice();
    match link_fault(alloc, t, classes, order, placed.first, &placed.names, links) {
        Some(fault) => Err(ClassFilesError::Broken(fault)),
        None => Ok(()),
    }
}

/// Judges C24 and C23 of the classes, which break none of C20 to C22.
pub(crate) fn judge_code(
    alloc: Global,
    t: &ClassTable,
    classes: &[FolderClass],
    placed: &Placed,
) -> Result<(), ClassFilesError>
    requires read { AreReadClasses classes.now }
    requires linked { AreLinked (files_of classes.now) placed.now t.now }
    ensures none { IfOk result (λ _. WhereLinked (files_of classes.now) placed.now t.now (λ w p. KeepAll code_rules w (files_of classes.now) p)) }
    ensures fault { (fault : AFault) → result ≡ Err (Why.Broken fault) → WhereLinked (files_of classes.now) placed.now t.now
        (λ w p. KeepAll link_rules w (files_of classes.now) p → IsFirstOf w (files_of classes.now) p fault) }
    ensures typed { IfOk result (λ _. AreTypedFrom t.now placed.now.first) }
{
    let _classes = classes;
    match code_fault(alloc, t, placed.order.as_slice(), placed.first) {
        Ok(None) => Ok(()),
        Ok(Some(fault)) => Err(ClassFilesError::Broken(fault)),
        Err(OutOfMemory) => Err(ClassFilesError::OutOfMemory),
    }
}

/// Judges C25, C26 and C27 of the classes, which break none of C20 to C24.
pub(crate) fn judge_shared(
    world: &World,
    classes: &[FolderClass],
    placed: &Placed,
) -> Result<(), ClassFilesError>
    requires read { AreReadClasses classes.now }
    requires linked { AreLinked (files_of classes.now) placed.now world.now.classes }
    ensures none { IfOk result (λ _. WhereShared (files_of classes.now) placed.now world.now (λ w p. KeepAll shared_rules w (files_of classes.now) p)) }
    ensures fault { (fault : AFault) → result ≡ Err (Why.Broken fault) → ArePathsInOrder (files_of classes.now)
        → WhereShared (files_of classes.now) placed.now world.now
        (λ w p. KeepAll earlier_rules w (files_of classes.now) p → IsFirstOf w (files_of classes.now) p fault) }
{
    let _classes = classes;
    let order = placed.order.as_slice();
    let declared = placed.declared.as_slice();
    match shared_fault(
        world,
        placed.home,
        order,
        placed.first,
        &placed.offers,
        declared,
    ) {
        Some(fault) => Err(ClassFilesError::Broken(fault)),
        None => Ok(()),
    }
}
