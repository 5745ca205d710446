//! Whether the names of classes that are brought in mean something else already.

ghost use Rattle.std.specs.Prelude.{◌≡◌, ◌≢◌, ◌≤◌, ◌↔◌, length, Contains, IsTrue, MatchBool, Some};
ghost use Rattle.jk_model.specs.declared.identifiers.ClassId.{ClassId as AClassId};
ghost use Rattle.jk_model_classes.specs.SystemRecords.{system_meaning};
ghost use Rattle.jk_model_classes.specs.Worlds.{NamedClass};
ghost use Rattle.jk_model_folders.specs.FolderRules.{class_paths};
ghost use Rattle.domain_resolver.specs.Imports.{IsOwnName};
ghost use Rattle.resolver_rules.specs.Imported.{AreFreeFrom, HasOtherMeaning, HasTakenFrom, IsTakenClass};

use crate::folder::Folder;
use class_table::ClassTable;
use domain_resolver::NameTable;
use jk_model::ClassId;
use system_table::class_named;

/// Whether a system class other than this one has the name.
fn is_of_another_system_class(name: &[u16], class: ClassId) -> bool
    ensures { IsTrue result ↔ ((other : AClassId) × (system_meaning name.now ≡ Some other) × (other ≢ class)) }
{
    match class_named(name) {
        Some(number) => u32::from(number) != class.0,
        None => false,
    }
}

/// Whether the name of a class is that of a class file of the folder or of another system class.
fn is_taken(folder: &Folder, name: &[u16], class: ClassId) -> bool
    ensures { IsTrue result ↔ HasOtherMeaning (class_paths folder.now) name.now class }
{
    folder.has_class(name) || is_of_another_system_class(name, class)
}

/// Whether a class's own name is so taken; it isn't where there is no such class.
fn is_taken_class(folder: &Folder, classes: &ClassTable, class: ClassId) -> bool
    ensures { IsTrue result ↔ IsTakenClass (class_paths folder.now) classes.now class }
{
    match classes.class(class) {
        Some(record) => is_taken(folder, record.name.as_slice(), class),
        None => false,
    }
}

/// Whether the names from a place on, which are own names of classes, are free of other meanings. It takes time in
/// proportion to log n for each of them, for n class files.
pub(crate) fn are_free(
    folder: &Folder,
    classes: &ClassTable,
    names: &NameTable,
    first: usize,
) -> bool
    requires { (e : NamedClass) → Contains names.now e → IsOwnName classes.now e }
    ensures { MatchBool result (AreFreeFrom (class_paths folder.now) names.now first) (HasTakenFrom (class_paths folder.now) names.now first) }
{
    for place in first..names.len() {
        let Some(class) = names.class_at(place) else {
            unreachable!();
        };
        if is_taken_class(folder, classes, class) {
            return false;
        }
    }
    true
}
