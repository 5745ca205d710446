//! The records of members, and whether a class is an interface.

ghost use Rattle.std.specs.Prelude.{◌≡◌, ◌↔◌, IsTrue, IfNone, IfSome};
ghost use Rattle.jk_model_classes.specs.declared.records.FieldRecord.{FieldRecord};
ghost use Rattle.jk_model_classes.specs.declared.records.MethodRecord.{MethodRecord};
ghost use Rattle.jk_model_classes.specs.Classes.{IsInterface, parents_of};
ghost use Rattle.std.specs.Option.{option_to_list};
ghost use Rattle.jk_model_classes.specs.Lookups.{FieldIs, MethodIs};

use class_table::ClassTable;
use jk_model::{AccessFlags, ClassId, MemberId, has};
use jk_model_classes::{FieldRecord, MethodRecord};

/// Whether there is such a class and it is an interface. It takes constant time.
pub fn is_interface(t: &ClassTable, c: ClassId) -> bool
    ensures { IsTrue result ↔ IsInterface t.now c }
{
    match t.class(c) {
        Some(r) => has(r.flags, AccessFlags::INTERFACE),
        None => false,
    }
}

/// The record of a field, in constant time; none where there is no such field.
pub fn field_record(t: &ClassTable, m: MemberId) -> Option<&FieldRecord>
    ensures none { IfNone result ((field : FieldRecord) → FieldIs t.now m field → ⊥) }
    ensures some { IfSome result (λ field. FieldIs t.now m field.now) }
{
    t.class(m.class)?.fields.get(usize::from(m.index))
}

/// The record of a method, in constant time; none where there is no such method.
pub fn method_record(t: &ClassTable, m: MemberId) -> Option<&MethodRecord>
    ensures none { IfNone result ((method : MethodRecord) → MethodIs t.now m method → ⊥) }
    ensures some { IfSome result (λ method. MethodIs t.now m method.now) }
{
    t.class(m.class)?.methods.get(usize::from(m.index))
}

/// The parent of a class; none where it has none, and where there is no such class.
pub(crate) fn parent_of(t: &ClassTable, c: ClassId) -> Option<ClassId>
    ensures { parents_of t.now c ≡ option_to_list result }
{
    t.class(c)?.parent
}
