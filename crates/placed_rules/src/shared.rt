//! C25, C26 and C27: what the folder's classes share.

ghost use Rattle.std.specs.Prelude.{◌≡◌, ◌+◌, ◌-◌, ◌<◌, ◌≤◌, IfNone, IfSome, List, Some, length, slice_get};
ghost use Rattle.jk_model.specs.declared.class_file.ClassFile.{ClassFile as AClassFile};
ghost use Rattle.jk_model_classes.specs.SharedRules.{folder_methods};
ghost use Rattle.jk_model_classes.specs.Worlds.{WorldRecord};
ghost use Rattle.jk_model_folders.specs.ClassOrder.{IsClassOrder};
ghost use Rattle.jk_model_folders.specs.FolderRules.{BreaksPlaced, IsFirstBroken, NoneBroken, PlacedFolder, placed_rules};
ghost use Rattle.placed_rules.specs.PlacedFaults.{AreInPathOrder, AreRecorded, HasNoSharedFault, IsLinkedAs, IsSharedAs, IsSharedFault, earlier_rules, shared_rules};

use class_files::FileFault;
use domain_resolver::{Offers, World};
use jk_model::{ClassId, DomainId, List};
use jk_model_classes::ClassFault;
use shared_interfaces::{remote_fault, share_fault};

/// The first of C25, C26 and C27 that a class of the folder breaks, where they break none of C20 to C24: of the files that
/// break it the first, and in it the least number; none where they break none of them. The classes of the folder are those from
/// `first` on, in the order that `order` gives of the places of their files; `home` is the number of the domain that is loaded,
/// `offers` what it offers, and `declared` has, for each method of these classes in the order of classes and members, the
/// classes that it says it throws. The files are in the order of their paths.
///
/// It takes no memory, and the time of `share_fault` and `remote_fault`.
pub fn shared_fault(
    w: &World,
    home: DomainId,
    order: &[usize],
    first: ClassId,
    offers: &Offers,
    declared: &[List<ClassId>],
) -> Option<FileFault>
    requires count { length w.now.classes ≡ first.0 + length order.now }
    requires declared { length declared.now ≡ folder_methods w.now.classes first }
    ensures fault { IfSome result (λ f. (old : WorldRecord) (cs : List AClassFile) (p : PlacedFolder) → IsClassOrder cs order.now
        → AreRecorded w.now.classes first order.now cs → AreInPathOrder cs → IsLinkedAs old p w.now.classes order.now first
        → IsSharedAs old p w.now home offers.now declared.now → NoneBroken earlier_rules (BreaksPlaced old cs p)
        → IsFirstBroken placed_rules (BreaksPlaced old cs p) f.rule f.file f.number) }
    ensures none { IfNone result ((old : WorldRecord) (cs : List AClassFile) (p : PlacedFolder) → IsLinkedAs old p w.now.classes order.now first
        → IsSharedAs old p w.now home offers.now declared.now → NoneBroken shared_rules (BreaksPlaced old cs p)) }
{
    let (class, fault) = first_class(w, home, first, offers, declared)?;
    let file = file_of(order, first, class);
    Some(FileFault {
        rule: fault.rule,
        file,
        number: fault.number,
    })
}

/// The first of these rules that a class of the folder breaks, with the class whose file comes first and the least number.
fn first_class(
    w: &World,
    home: DomainId,
    first: ClassId,
    offers: &Offers,
    declared: &[List<ClassId>],
) -> Option<(ClassId, ClassFault)>
    requires { length declared.now ≡ folder_methods w.now.classes first }
    ensures fault { IfSome result (λ f. IsSharedFault w.now home first offers.now declared.now f.0 f.1) }
    ensures none { IfNone result (HasNoSharedFault w.now home first offers.now declared.now) }
{
    match share_fault(w, home, first, offers) {
        Some(found) => Some(found),
        None => remote_fault(w, first, declared),
    }
}

/// The place of the file of a class of the folder.
fn file_of(order: &[usize], first: ClassId, class: ClassId) -> usize
    requires of_folder { first.0 ≤ class.0 }
    requires within { class.0 < first.0 + length order.now }
    ensures { slice_get order.now (class.0 - first.0) ≡ Some result }
{
    order[(class.0 - first.0) as usize]
}
