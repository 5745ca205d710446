//! What a field or a method is looked for by.

ghost use Rattle.std.specs.Prelude.{◌≡◌};

use crate::entries::Sought;
use crate::marks::{Marks, type_number};
use jk_model::MethodType;
use jk_model_classes::{FieldRecord, MethodRecord, TypeRef};
use shared_values::{SharedKind, Text, fingerprint, kind_fingerprint};
use std::marker::Model;

/// A name and a type of a field, with the name's fingerprint worked out. A contract sees the name and the type.
/// One key serves for the search of many classes.
#[derive(Drop)]
pub struct FieldKey<'n> {
    name: &'n [u16],
    kind: TypeRef,
    marks: Marks,
}

impl<'n> Model for FieldKey<'n> {
    ghost use Rattle.std.specs.Prelude.{◌≡◌};
    ghost use Rattle.jk_model_classes.specs.Lookups.{FieldSought};
    ghost use Rattle.member_index.specs.Marks.{field_marks};

    ghost Value = { FieldSought };

    ghost view = { λ k. record { name = k.name.now; kind = k.kind } };

    ghost invariant = { λ k. k.marks ≡ field_marks (record { name = k.name.now; kind = k.kind }) };
}

impl<'n> FieldKey<'n> {
    ghost use Rattle.std.specs.Prelude.{◌≡◌};

    /// The key of a field of this name and type. It takes time in proportion to the name.
    pub fn new(name: &'n [u16], kind: TypeRef) -> FieldKey<'n>
        ensures { result ≡ record { name = name.now; kind = kind } }
    {
        let marks = Marks {
            name: fingerprint(name),
            kind: type_number(&kind),
        };
        FieldKey { name, kind, marks }
    }

    /// The key of a field of this name and type, in constant time, since a text keeps its fingerprint.
    pub fn of_text(name: &'n Text, kind: TypeRef) -> FieldKey<'n>
        ensures { result ≡ record { name = name.now; kind = kind } }
    {
        let marks = Marks {
            name: name.fingerprint(),
            kind: type_number(&kind),
        };
        FieldKey {
            name: name.as_slice(),
            kind,
            marks,
        }
    }

    /// The name.
    pub fn name(&self) -> &'n [u16]
        ensures { result.now ≡ self.now.name }
    {
        self.name
    }

    /// The type.
    pub fn kind(&self) -> TypeRef
        ensures { result ≡ self.now.kind }
    {
        self.kind
    }
}

impl Sought<FieldRecord> for FieldKey<'_> {
    ghost use Rattle.member_index.specs.MarksAgree.{field_marks_agree};
    ghost use Rattle.member_index.specs.Finding.{FieldSuits};
    ghost use Rattle.member_index.specs.Marks.{field_marks};

    ghost sought_marks = { field_marks };

    ghost Suits = { FieldSuits };

    fn marks(&self) -> Marks {
        self.marks
    }

    fn is(&self, field: &FieldRecord) -> bool {
        field.name.is(self.name) && field.kind == self.kind
    }

    ghost marks_agree = { field_marks_agree };
}

/// A name and a type of a method, with their fingerprints worked out. A contract sees the name and the type.
#[derive(Drop)]
pub struct MethodKey<'n> {
    name: &'n [u16],
    kind: &'n MethodType,
    marks: Marks,
}

impl<'n> Model for MethodKey<'n> {
    ghost use Rattle.std.specs.Prelude.{◌≡◌};
    ghost use Rattle.jk_model_classes.specs.Lookups.{MethodSought};
    ghost use Rattle.member_index.specs.Marks.{method_marks};

    ghost Value = { MethodSought };

    ghost view = { λ k. record { name = k.name.now; kind = k.kind.now } };

    ghost invariant = { λ k. k.marks ≡ method_marks (record { name = k.name.now; kind = k.kind.now }) };
}

impl<'n> MethodKey<'n> {
    ghost use Rattle.std.specs.Prelude.{◌≡◌};

    /// The key of a method of this name and type. It takes time in proportion to the name and the type's
    /// descriptor.
    pub fn new(name: &'n [u16], kind: &'n MethodType) -> MethodKey<'n>
        ensures { result ≡ record { name = name.now; kind = kind.now } }
    {
        let marks = Marks {
            name: fingerprint(name),
            kind: kind_fingerprint(kind),
        };
        MethodKey { name, kind, marks }
    }

    /// The key of a method of this name and type, in constant time, since both keep their fingerprints.
    pub fn of_shared(name: &'n Text, kind: &'n SharedKind) -> MethodKey<'n>
        ensures { result ≡ record { name = name.now; kind = kind.now } }
    {
        let marks = Marks {
            name: name.fingerprint(),
            kind: kind.fingerprint(),
        };
        MethodKey {
            name: name.as_slice(),
            kind: kind.get(),
            marks,
        }
    }

    /// The key of a method's own name and type, in constant time.
    pub fn of_method(method: &'n MethodRecord) -> MethodKey<'n>
        ensures { result ≡ record { name = method.now.name; kind = method.now.kind } }
    {
        MethodKey::of_shared(&method.name, &method.kind)
    }

    /// The name.
    pub fn name(&self) -> &'n [u16]
        ensures { result.now ≡ self.now.name }
    {
        self.name
    }

    /// The type.
    pub fn kind(&self) -> &'n MethodType
        ensures { result.now ≡ self.now.kind }
    {
        self.kind
    }
}

impl Sought<MethodRecord> for MethodKey<'_> {
    ghost use Rattle.member_index.specs.MarksAgree.{method_marks_agree};
    ghost use Rattle.member_index.specs.Finding.{MethodSuits};
    ghost use Rattle.member_index.specs.Marks.{method_marks};

    ghost sought_marks = { method_marks };

    ghost Suits = { MethodSuits };

    fn marks(&self) -> Marks {
        self.marks
    }

    fn is(&self, method: &MethodRecord) -> bool {
        method.name.is(self.name) && method.kind.is(self.kind)
    }

    ghost marks_agree = { method_marks_agree };
}
