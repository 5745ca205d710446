//! The names of the system classes.

ghost use Rattle.std.specs.Prelude.{◌≡◌, ◌<◌, length, take, OnOk};
ghost use Rattle.jk_model.specs.SystemTable.{system_classes};
ghost use Rattle.jk_model_classes.specs.SystemRecords.{AreSystemRecords};
ghost use Rattle.resolver_rules.specs.SystemNames.{AddsSystemName, AgreesWithSystem, HasSystemNames};

use class_table::ClassTable;
use domain_resolver::NameTable;
use jk_model::{ClassId, OutOfMemory};
use system_table::count;

/// Gives the name of the system class of this number its meaning.
fn give_system_name(
    names: &mut NameTable,
    classes: &ClassTable,
    number: u16,
) -> Result<(), OutOfMemory>
    requires system { AreSystemRecords (take (length system_classes) classes.now) }
    requires number { number < length system_classes }
    requires agrees { AgreesWithSystem names.old }
    ensures { OnOk result (AddsSystemName number names.old names.new) }
{
    let class = ClassId(u32::from(number));
    match classes.class(class) {
        Some(record) => {
            names.give(&record.name, class)?;
            Ok(())
        }
        None => unreachable!(),
    }
}

/// Gives the names of the system classes their meaning, beside names that mean no other class.
pub(crate) fn give_system_names(
    names: &mut NameTable,
    classes: &ClassTable,
) -> Result<(), OutOfMemory>
    requires system { AreSystemRecords (take (length system_classes) classes.now) }
    requires agrees { AgreesWithSystem names.old }
    ensures { OnOk result (HasSystemNames (length system_classes) names.old names.new) }
{
    for number in 0..count() {
        give_system_name(names, classes, number)?;
    }
    Ok(())
}
