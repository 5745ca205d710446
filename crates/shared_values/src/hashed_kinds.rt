//! Feeds the descriptor of a method's type to a hasher, part by part and without writing it out.

ghost use Rattle.std.specs.Prelude.{◌∷◌, [], flat_map, replicate};
ghost use Rattle.jk_model.specs.Descriptors.{base_text, field_text, method_text, result_text};
ghost use Rattle.shared_values.specs.Feeding.{Feeds};

use crate::hashed_units::feed_units;
use jk_model::{Base, FieldType, MethodType};
use sha2::{Digest, Sha256};

/// Adds the descriptor of a method's type to what the hasher holds.
pub(crate) fn feed_kind(hasher: &mut Sha256, kind: &MethodType)
    ensures { Feeds hasher.old hasher.new (method_text kind.now) }
{
    feed_letter(hasher, b'(');
    feed_fields(hasher, kind.params.as_slice());
    feed_letter(hasher, b')');
    feed_result(hasher, &kind.result);
}

/// Adds what is written of some types in turn.
fn feed_fields(hasher: &mut Sha256, types: &[FieldType])
    ensures { Feeds hasher.old hasher.new (flat_map field_text types.now) }
{
    for t in types {
        feed_field(hasher, t);
    }
}

/// Adds what is written of a method's result.
fn feed_result(hasher: &mut Sha256, result_type: &Option<FieldType>)
    ensures { Feeds hasher.old hasher.new (result_text result_type.now) }
{
    match result_type {
        Some(t) => feed_field(hasher, t),
        None => feed_letter(hasher, b'V'),
    }
}

/// Adds what is written of a type.
fn feed_field(hasher: &mut Sha256, t: &FieldType)
    ensures { Feeds hasher.old hasher.new (field_text t.now) }
{
    feed_dimensions(hasher, t.dims);
    feed_base(hasher, &t.base);
}

/// Adds a `[` for each dimension.
fn feed_dimensions(hasher: &mut Sha256, dims: u8)
    ensures { Feeds hasher.old hasher.new (replicate dims 91) }
{
    for _ in 0..dims {
        feed_letter(hasher, b'[');
    }
}

/// Adds what is written of a type that is no array.
fn feed_base(hasher: &mut Sha256, base: &Base)
    ensures { Feeds hasher.old hasher.new (base_text base.now) }
{
    match base {
        Base::Byte => feed_letter(hasher, b'B'),
        Base::Char => feed_letter(hasher, b'C'),
        Base::Double => feed_letter(hasher, b'D'),
        Base::Float => feed_letter(hasher, b'F'),
        Base::Int => feed_letter(hasher, b'I'),
        Base::Long => feed_letter(hasher, b'J'),
        Base::Short => feed_letter(hasher, b'S'),
        Base::Bool => feed_letter(hasher, b'Z'),
        Base::Class(name) => {
            feed_letter(hasher, b'L');
            feed_units(hasher, name.as_slice());
            feed_letter(hasher, b';');
        }
    }
}

/// Adds one unit below 256.
fn feed_letter(hasher: &mut Sha256, letter: u8)
    ensures { Feeds hasher.old hasher.new (letter ∷ []) }
{
    hasher.update([0, letter]);
}
