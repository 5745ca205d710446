//! The record of a class, made of its file.

ghost use Rattle.std.specs.Prelude.{◌↔◌, ◌<◌, length, IfOk, IsTrue};
ghost use Rattle.std.specs.List.{AllByRecursion};
ghost use Rattle.jk_model_classes.specs.Classes.{IsBelow, StandsAbove};

use crate::classes::LinkError;
use crate::members::{field_records, method_records};
use crate::scope::Scope;
use class_table::ClassTable;
use jk_model::{ClassFile, ClassId, DomainId, List};
use jk_model_classes::ClassRecord;
use shared_values::Text;

/// The most fields, or methods, of a class.
const MOST_MEMBERS: usize = 65_535;

/// The interfaces that a class lists.
fn interfaces(scope: &Scope<'_>, file: &ClassFile) -> Result<List<ClassId>, LinkError> {
    let mut interfaces = List::new(scope.alloc);
    for index in file.interfaces.as_slice() {
        interfaces.push(scope.class(*index)?)?;
    }
    Ok(interfaces)
}

/// The record of a class of the one domain that there is, without links.
pub(crate) fn class_record(scope: &Scope<'_>, file: &ClassFile) -> Result<ClassRecord, LinkError> {
    Ok(ClassRecord {
        name: Text::new(scope.alloc, scope.own_name)?,
        home: Some(DomainId(0)),
        flags: file.flags,
        parent: Some(scope.class(file.super_class)?),
        interfaces: interfaces(scope, file)?,
        fields: field_records(scope, file)?,
        methods: method_records(scope, file)?,
        links: List::new(scope.alloc),
        references: List::new(scope.alloc),
    })
}

/// Whether all of some classes are among the first so many.
fn are_below(count: usize, classes: &[ClassId]) -> bool
    ensures { IsTrue result ↔ AllByRecursion (IsBelow count) classes.now }
{
    classes.iter().all(|class| (class.0 as usize) < count)
}

/// Whether a class may stand at this place among all classes.
fn stands_above(count: usize, class: &ClassRecord) -> bool
    ensures { IsTrue result → StandsAbove count class.now }
{
    let parent_is_below = match class.parent {
        Some(parent) => (parent.0 as usize) < count,
        None => true,
    };
    parent_is_below && are_below(count, class.interfaces.as_slice())
}

/// Puts a class after all others, where it may stand there.
pub(crate) fn add(table: &mut ClassTable, class: ClassRecord) -> Result<ClassId, LinkError>
    ensures { IfOk result (λ n. n.0 < length table.new) }
{
    let count = table.len();
    if count >= u32::MAX as usize || !stands_above(count, &class) {
        return Err(LinkError::Unlinked(0));
    }
    if class.fields.len() > MOST_MEMBERS || class.methods.len() > MOST_MEMBERS {
        return Err(LinkError::Unlinked(0));
    }
    Ok(table.add(class)?)
}
