//! Classes of another domain are brought into a name table, with all that they refer to.

ghost use Rattle.std.specs.Prelude.{◌≡◌, ◌∷◌, [], Contains, IfOk, MatchBool, Some};
ghost use Rattle.std.specs.List.{AllByRecursion};
ghost use Rattle.jk_model.specs.declared.identifiers.ClassId.{ClassId as AClassId};
ghost use Rattle.jk_model_classes.specs.declared.records.ClassRecord.{ClassRecord as ARecord};
ghost use Rattle.jk_model_classes.specs.Classes.{HasClass, record_of};
ghost use Rattle.jk_model_classes.specs.Worlds.{IsNamed, NamesClasses};
ghost use Rattle.domain_resolver.specs.Imports.{Brings, Clashes, Imported, IsImport, IsClash, references_of};

use crate::name_table::NameTable;
use class_table::ClassTable;
use jk_model::{ClassId, OutOfMemory};

impl NameTable {
    /// Brings in a class, and every class that is reached from it through references, each under its own name. A
    /// class that some name means already is passed over with all that it reaches. False where a name means
    /// another class. What was brought in before it failed stays. It takes time in proportion to the references
    /// of the classes that are brought in, and no memory beyond that of the table.
    pub fn import(&mut self, classes: &ClassTable, class: ClassId) -> Result<bool, OutOfMemory>
        requires there { HasClass classes.now class }
        requires references { (c : AClassId) (r : ARecord) → record_of classes.now c ≡ Some r → NamesClasses classes.now r }
        ensures done { IfOk result (λ done. MatchBool done (IsImport classes.now self.old class self.new) (IsClash classes.now self.old class self.new)) }
        ensures some { Imported classes.now self.old class self.new }
    {
        let mut next = self.len();
        if !self.bring(classes, class)? {
            return Ok(false);
        }
        while next < self.len() {
            let Some(class) = self.class_at(next) else {
                unreachable!();
            };
            self.names_differ();
            if !self.bring_referred(classes, class)? {
                return Ok(false);
            }
            next += 1;
        }
        Ok(true)
    }

    /// Brings in the classes to which a class refers.
    fn bring_referred(&mut self, classes: &ClassTable, class: ClassId) -> Result<bool, OutOfMemory>
        requires { (r : ARecord) → record_of classes.now class ≡ Some r → NamesClasses classes.now r }
        ensures done { IfOk result (λ done. MatchBool done
            ((c : AClassId) → Contains (references_of classes.now class) c → IsNamed self.new c)
            (Clashes classes.now (references_of classes.now class) self.old self.new)) }
        ensures some { Brings classes.now (references_of classes.now class) self.old self.new }
    {
        match classes.class(class) {
            Some(record) => self.bring_each(classes, record.references.as_slice()),
            None => Ok(true),
        }
    }

    /// Brings in classes.
    fn bring_each(&mut self, classes: &ClassTable, wanted: &[ClassId]) -> Result<bool, OutOfMemory>
        requires { AllByRecursion (HasClass classes.now) wanted.now }
        ensures done { IfOk result (λ done. MatchBool done
            ((c : AClassId) → Contains wanted.now c → IsNamed self.new c)
            (Clashes classes.now wanted.now self.old self.new)) }
        ensures some { Brings classes.now wanted.now self.old self.new }
    {
        for class in wanted {
            if !self.bring(classes, *class)? {
                return Ok(false);
            }
        }
        Ok(true)
    }

    /// Brings in a class, where no name means it yet.
    fn bring(&mut self, classes: &ClassTable, class: ClassId) -> Result<bool, OutOfMemory>
        requires { HasClass classes.now class }
        ensures done { IfOk result (λ done. MatchBool done (IsNamed self.new class) (Clashes classes.now (class ∷ []) self.old self.new)) }
        ensures some { Brings classes.now (class ∷ []) self.old self.new }
    {
        if self.has_class(class) {
            return Ok(true);
        }
        match classes.class(class) {
            Some(record) => self.give(&record.name, class),
            None => unreachable!(),
        }
    }
}
