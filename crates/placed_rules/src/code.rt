//! C24 and C23: the code of the folder's classes.

ghost use Rattle.std.specs.Prelude.{IfNone, IfOk, IfSome, List};
ghost use Rattle.jk_model.specs.declared.class_file.ClassFile.{ClassFile as AClassFile};
ghost use Rattle.jk_model_classes.specs.Worlds.{WorldRecord};
ghost use Rattle.jk_model_folders.specs.ClassOrder.{IsClassOrder};
ghost use Rattle.jk_model_folders.specs.FolderRules.{BreaksPlaced, IsFirstBroken, NoneBroken, PlacedFolder, placed_rules};
ghost use Rattle.placed_rules.specs.PlacedFaults.{AreRecorded, AreTypedFrom, IsLinkedAs, code_rules, link_rules};

use crate::by_file::first_broken;
use crate::sizes::CodeSizes;
use crate::typings::first_untyped_file;
use class_files::FileFault;
use class_table::ClassTable;
use jk_model::{ClassId, OutOfMemory, Rule};
use std::alloc::Global;

/// The first of C24 and C23 that a class of the folder breaks, where they break none of C20 to C22: of the files that break it
/// the first, and in it the least number; none where they break neither. The classes of the folder are those from `first` on in
/// the table, with their links, in the order that `order` gives of the places of their files. C23 is read only where C24 holds
/// for all.
///
/// For C24 it takes no memory, and the same time for each method; for C23 each method's code is verified once.
pub fn code_fault(
    alloc: Global,
    t: &ClassTable,
    order: &[usize],
    first: ClassId,
) -> Result<Option<FileFault>, OutOfMemory>
    requires recorded { (cs : List AClassFile) × IsClassOrder cs order.now × AreRecorded t.now first order.now cs }
    ensures fault { IfOk result (λ found. IfSome found (λ f. (w : WorldRecord) (cs : List AClassFile) (p : PlacedFolder) → IsClassOrder cs order.now
        → IsLinkedAs w p t.now order.now first → NoneBroken link_rules (BreaksPlaced w cs p)
        → IsFirstBroken placed_rules (BreaksPlaced w cs p) f.rule f.file f.number)) }
    ensures none { IfOk result (λ found. IfNone found ((w : WorldRecord) (cs : List AClassFile) (p : PlacedFolder) → IsClassOrder cs order.now
        → IsLinkedAs w p t.now order.now first → NoneBroken code_rules (BreaksPlaced w cs p))) }
    // Each method with code, of the classes of the folder, has a least typing.
    ensures typed { IfOk result (λ found. IfNone found (AreTypedFrom t.now first)) }
{
    let sizes = CodeSizes { t, order, first };
    if let Some(fault) = first_broken(Rule::C24, &sizes, order) {
        return Ok(Some(fault));
    }
    first_untyped_file(alloc, t, order, first)
}
