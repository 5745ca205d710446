//! The sections of a class file after its constant pool, and the kinds of fields in them.

ghost use Rattle.std.specs.Prelude.{◌≡◌};
ghost use Rattle.byte_fields.specs.Reading.{Gives, GivesInMemory};
ghost use Rattle.class_reader.specs.Reading.{handler_at, header_at, parts_at, sections_at};

use byte_fields::{EndsEarly, Field, ReadError, U2, counted_of, long_block_of, pair_of, u2_of};
use jk_model::{Attribute, Bytes, Handler, List, MemberInfo};
use std::alloc::Global;

/// An attribute, as a kind of field.
pub struct AttributeField;

impl Field for AttributeField {
    ghost use Rattle.byte_fields.specs.Reading.{GivesInMemory};
    ghost use Rattle.jk_model.specs.ClassFile.{attribute_bytes, IsAttribute};
    ghost use Rattle.class_reader.specs.Reading.{attribute_at};
    ghost use Rattle.class_reader.specs.SectionLaws.{attribute_reader, attribute_cut};

    type Value = Attribute;

    ghost read_at = { attribute_at };

    ghost value_bytes = { attribute_bytes };

    ghost is_value = { IsAttribute };

    #[tactic(auto, unfolding(crate::specs::Reading::attribute_at))]
    fn read(alloc: Global, bytes: &[u8]) -> Result<(Attribute, &[u8]), ReadError> {
        let (name, rest) = u2_of(bytes)?;
        let (body, rest) = long_block_of(rest)?;
        let body = Bytes::from_slice(alloc, body)?;
        Ok((Attribute { name, body }, rest))
    }

    ghost reads = { attribute_reader };

    ghost fails_within = { attribute_cut };
}

/// A field or a method, as a kind of field.
pub struct MemberField;

impl Field for MemberField {
    ghost use Rattle.byte_fields.specs.Reading.{GivesInMemory};
    ghost use Rattle.jk_model.specs.ClassFile.{member_bytes, IsMember};
    ghost use Rattle.class_reader.specs.Reading.{member_at};
    ghost use Rattle.class_reader.specs.SectionLaws.{member_reader, member_cut};

    type Value = MemberInfo;

    ghost read_at = { member_at };

    ghost value_bytes = { member_bytes };

    ghost is_value = { IsMember };

    #[tactic(auto, unfolding(crate::specs::Reading::member_at))]
    fn read(alloc: Global, bytes: &[u8]) -> Result<(MemberInfo, &[u8]), ReadError> {
        let (flags, rest) = u2_of(bytes)?;
        let ((name, descriptor), rest) = pair_of(rest)?;
        let (attributes, rest) = counted_of::<AttributeField>(alloc, rest)?;
        let member = MemberInfo {
            flags,
            name,
            descriptor,
            attributes,
        };
        Ok((member, rest))
    }

    ghost reads = { member_reader };

    ghost fails_within = { member_cut };
}

#[tactic(auto, unfolding(crate::specs::Reading::handler_at))]
fn handler_of(bytes: &[u8]) -> Result<(Handler, &[u8]), EndsEarly>
    ensures { Gives (λ x. (x.0, x.1.now)) result (handler_at bytes.now) }
{
    let ((start, end), rest) = pair_of(bytes)?;
    let ((handler, catch), rest) = pair_of(rest)?;
    let found = Handler {
        start,
        end,
        handler,
        catch,
    };
    Ok((found, rest))
}

/// An exception handler, as a kind of field.
pub struct HandlerField;

impl Field for HandlerField {
    ghost use Rattle.byte_fields.specs.Reading.{GivesInMemory};
    ghost use Rattle.jk_model.specs.ClassFile.{handler_bytes, IsHandler};
    ghost use Rattle.class_reader.specs.Reading.{handler_at};
    ghost use Rattle.class_reader.specs.SectionLaws.{handler_reader, handler_cut};

    type Value = Handler;

    ghost read_at = { handler_at };

    ghost value_bytes = { handler_bytes };

    ghost is_value = { IsHandler };

    fn read(_alloc: Global, bytes: &[u8]) -> Result<(Handler, &[u8]), ReadError> {
        Ok(handler_of(bytes)?)
    }

    ghost reads = { handler_reader };

    ghost fails_within = { handler_cut };
}

/// The flags, and the indices of the class and of its super class.
#[tactic(auto, unfolding(crate::specs::Reading::header_at))]
fn header_of(bytes: &[u8]) -> Result<((u16, (u16, u16)), &[u8]), EndsEarly>
    ensures { Gives (λ x. (x.0, x.1.now)) result (header_at bytes.now) }
{
    let (flags, rest) = u2_of(bytes)?;
    let (classes, rest) = pair_of(rest)?;
    Ok(((flags, classes), rest))
}

/// Interfaces, fields, methods and attributes.
#[derive(Drop)]
pub struct Parts {
    pub interfaces: List<u16>,
    pub fields: List<MemberInfo>,
    pub methods: List<MemberInfo>,
    pub attributes: List<Attribute>,
}

#[tactic(auto, unfolding(crate::specs::Reading::parts_at))]
fn parts_of(alloc: Global, bytes: &[u8]) -> Result<(Parts, &[u8]), ReadError>
    ensures { GivesInMemory
        (λ x. ((x.0.interfaces, (x.0.fields, (x.0.methods, x.0.attributes))), x.1.now))
        result (parts_at bytes.now) }
{
    let (interfaces, rest) = counted_of::<U2>(alloc, bytes)?;
    let (fields, rest) = counted_of::<MemberField>(alloc, rest)?;
    let (methods, rest) = counted_of::<MemberField>(alloc, rest)?;
    let (attributes, rest) = counted_of::<AttributeField>(alloc, rest)?;
    let parts = Parts {
        interfaces,
        fields,
        methods,
        attributes,
    };
    Ok((parts, rest))
}

/// The sections after the constant pool: flags, class and super class, and the parts.
#[tactic(auto, unfolding(crate::specs::Reading::sections_at))]
pub fn sections_of(
    alloc: Global,
    bytes: &[u8],
) -> Result<(((u16, (u16, u16)), Parts), &[u8]), ReadError>
    ensures { GivesInMemory
        (λ x. (
          (x.0.0, (x.0.1.interfaces, (x.0.1.fields, (x.0.1.methods, x.0.1.attributes)))),
          x.1.now,
        ))
        result (sections_at bytes.now) }
{
    let (header, rest) = header_of(bytes)?;
    let (parts, rest) = parts_of(alloc, rest)?;
    Ok(((header, parts), rest))
}
