//! What the names that a folder's classes say lead to.

ghost use Rattle.std.specs.Prelude.{◌↔◌, IsTrue};
ghost use Rattle.jk_model_classes.specs.References.{FlagsOfNamed, IsClosedNamed};
ghost use Rattle.name_rules.specs.BadHierarchies.{AnswersFlags, HasOwnNames, LoadedFlags, folder_scope};

use class_files::FolderClass;
use class_table::ClassTable;
use domain_resolver::NameTable;
use system_table::{class_named, system_class};

/// The classes that are loaded, those of the folder, and what names mean.
#[derive(Clone, Copy)]
pub(crate) struct Scope<'a> {
    pub(crate) table: &'a ClassTable,
    pub(crate) folder: &'a [FolderClass],
    /// The classes of the domain's other names: of system classes and imports.
    pub(crate) outer: &'a NameTable,
    /// The places of the folder's files by the names of their classes.
    pub(crate) own: &'a NameTable,
}

/// The flags of the loaded class that a name means.
fn loaded_flags(table: &ClassTable, names: &NameTable, name: &[u16]) -> Option<u16>
    ensures { AnswersFlags (LoadedFlags table.now names.now name.now) result }
{
    match names.resolve(name) {
        Some(class) => match table.class(class) {
            Some(record) => Some(record.flags),
            None => None,
        },
        None => None,
    }
}

/// The flags of the class that a name means: one of the folder, or else one that is loaded.
pub(crate) fn flags_of(x: &Scope, name: &[u16]) -> Option<u16>
    requires { HasOwnNames x.now }
    ensures { AnswersFlags (FlagsOfNamed (folder_scope x.now) name.now) result }
{
    match x.own.resolve(name) {
        Some(place) => match x.folder.get(place.0 as usize) {
            Some(f) => Some(f.file.flags),
            None => None,
        },
        None => loaded_flags(x.table, x.outer, name),
    }
}

/// Whether a name is that of a closed class of the system.
pub(crate) fn is_closed(name: &[u16]) -> bool
    ensures { IsTrue result ↔ IsClosedNamed name.now }
{
    match class_named(name) {
        Some(n) => system_class(n).closed,
        None => false,
    }
}
