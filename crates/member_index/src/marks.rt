//! The numbers by which members are put in order.

ghost use Rattle.std.specs.Prelude.{◌≡◌, ◌<◌, ◌^◌};
ghost use Rattle.member_index.specs.Marks.{base_number, type_number};

use jk_model_classes::{BaseRef, FieldRecord, MethodRecord, TypeRef};

/// What a member is put in order by. Members of one name and one type have the same marks.
#[derive(Clone, Copy, Debug, PartialEq, Eq, PartialOrd, Ord)]
pub(crate) struct Marks {
    /// The fingerprint of its name.
    pub(crate) name: u64,
    /// The number of a field's type, or the fingerprint of a method's.
    pub(crate) kind: u64,
}

/// A member that has marks.
pub(crate) trait Marked {
    ghost use Rattle.std.specs.Prelude.{◌≡◌};
    ghost use Rattle.member_index.specs.declared.marks.Marks.{Marks};

    ghost marks_of: { Self → Marks };

    fn marks(&self) -> Marks
        ensures { result ≡ marks_of self.now };
}

impl Marked for FieldRecord {
    ghost use Rattle.member_index.specs.Marks.{field_marks, field_sought};

    ghost marks_of = { λ field. field_marks (field_sought field) };

    fn marks(&self) -> Marks {
        Marks {
            name: self.name.fingerprint(),
            kind: type_number(&self.kind),
        }
    }
}

impl Marked for MethodRecord {
    ghost use Rattle.member_index.specs.Marks.{method_marks, method_sought};

    ghost marks_of = { λ method. method_marks (method_sought method) };

    fn marks(&self) -> Marks {
        Marks {
            name: self.name.fingerprint(),
            kind: self.kind.fingerprint(),
        }
    }
}

/// More than there are types that are no arrays.
const BASES: u64 = 1 << 33;

/// The number of a type. Different types have different numbers.
pub(crate) fn type_number(t: &TypeRef) -> u64
    ensures { result ≡ type_number t.now }
{
    u64::from(t.dims) * BASES + base_number(&t.base)
}

/// The number of a type that is no array.
fn base_number(base: &BaseRef) -> u64
    ensures number { result ≡ base_number base.now }
    ensures few { result < 2 ^ 33 }
{
    match base {
        BaseRef::Byte => 0,
        BaseRef::Char => 1,
        BaseRef::Int => 2,
        BaseRef::Long => 3,
        BaseRef::Short => 4,
        BaseRef::Bool => 5,
        BaseRef::Class(class) => 6 + u64::from(class.0),
    }
}
