//! Where the instance fields of a class stand, worked out of its fields.

ghost use Rattle.std.specs.Prelude.{◌≡◌, ◌+◌, ◌<◌, ◌≤◌, ◌++◌, ◌∷◌, [], List, length, not, if◌then◌else◌, IfOk, OnOk};
ghost use Rattle.jk_model.specs.Flags.{STATIC, has};
ghost use Rattle.jk_model.specs.declared.identifiers.ClassId.{ClassId};
ghost use Rattle.jk_model_classes.specs.declared.records.FieldRecord.{FieldRecord};
ghost use Rattle.jk_model_classes.specs.Layouts.{type_words};
ghost use Rattle.class_table.specs.Entries.{AreOwnPlaces};

use crate::entry::{OwnField, OwnPlaces};
use jk_model::{AccessFlags, List, OutOfMemory, has};
use jk_model_classes::{BaseRef, FieldRecord};
use std::alloc::Global;

/// Whether each object of the class has such a field.
pub(crate) fn is_instance_field(field: &FieldRecord) -> bool
    ensures { result ≡ not (has field.now.flags STATIC) }
{
    !has(field.flags, AccessFlags::STATIC)
}

/// Whether the field takes two words.
fn is_long(field: &FieldRecord) -> bool
    ensures { type_words field.now.kind ≡ (if result then 2 else 1) }
{
    field.kind.dims == 0 && matches!(field.kind.base, BaseRef::Long)
}

/// Where the instance fields among these stand. It takes time in proportion to the fields.
pub(crate) fn own_places(alloc: Global, fields: &[FieldRecord]) -> Result<OwnPlaces, OutOfMemory>
    requires { length fields.now ≤ 65535 }
    ensures { IfOk result (λ own. (c : ClassId) → AreOwnPlaces c fields.now own) }
{
    let mut own = OwnPlaces {
        fields: List::new(alloc),
        ranks: List::new(alloc),
        longs: 0,
    };
    for i in 0..fields.len() {
        add_field(&mut own, i as u16, &fields[i])?;
    }
    Ok(own)
}

/// Adds the field that stands after those that were added.
fn add_field(own: &mut OwnPlaces, place: u16, field: &FieldRecord) -> Result<(), OutOfMemory>
    requires few { length own.old.fields ≤ place }
    requires longs { own.old.longs ≤ place }
    requires place { place < 65535 }
    ensures few { OnOk result (length own.new.fields ≤ place + 1) }
    ensures longs { OnOk result (own.new.longs ≤ place + 1) }
    ensures added { OnOk result ((c : ClassId) (front : List FieldRecord) → length front ≡ place → AreOwnPlaces c front own.old
        → AreOwnPlaces c (front ++ field.now ∷ []) own.new) }
{
    own.ranks.push(own.fields.len() as u16)?;
    if is_instance_field(field) {
        own.fields.push(OwnField {
            place,
            longs: own.longs,
        })?;
        if is_long(field) {
            own.longs += 1;
        }
    }
    Ok(())
}
