//! The names of Class entries, and the classes that they mean.

ghost use Rattle.std.specs.Prelude.{◌↔◌, IsTrue};
ghost use Rattle.jk_model.specs.ClassFile.{IsClassEntry, NamesEntry};
ghost use Rattle.jk_model_classes.specs.ClassNames.{BeginsArray};
ghost use Rattle.class_linker.specs.Scopes.{IsScope};
ghost use Rattle.class_linker.specs.ThrownClasses.{IsClassOfEntry};

use crate::scope::Scope;
use jk_model::ClassId;

const BRACKET: u16 = b'[' as u16;

/// Whether units begin as the name of an array does.
pub(crate) fn begins_array(units: &[u16]) -> bool
    ensures { IsTrue result ↔ BeginsArray units.now }
{
    match units {
        [first, ..] => *first == BRACKET,
        [] => false,
    }
}

/// The class of the Class entry at an index; none where it is of an array.
pub(crate) fn class_of_entry(scope: &Scope, i: u16) -> Option<ClassId>
    requires scope { IsScope scope.now }
    requires class { NamesEntry IsClassEntry scope.now.file.now.pool i }
    ensures { IsClassOfEntry scope.now.names.now scope.now.file.now.pool i result }
{
    match scope.texts.class_name(scope.file.pool.as_slice(), i) {
        Some(name) => {
            if begins_array(name.as_slice()) {
                None
            } else {
                Some(scope.class(i))
            }
        }
        None => unreachable!(),
    }
}
