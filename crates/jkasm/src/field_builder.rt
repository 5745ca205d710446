//! Builds fields.

ghost use Rattle.std.specs.Prelude.{◌≡◌, [], Err, IfOk, OnOk};
ghost use Rattle.std.specs.List.{AllByRecursion};
ghost use Rattle.jk_model.specs.ClassFile.{AreAttributes, IsMember};
ghost use Rattle.asm_reader.specs.declared.items.Item.TheVariants as item;
ghost use Rattle.jkasm.specs.Assembled.{HasConstantAttribute, IsFieldOf};
ghost use Rattle.jkasm.specs.Constants.{for_constant, for_item};
ghost use Rattle.jkasm.specs.PoolGrowth.{Takes, HasNoRoom, IsPoolText};
ghost use Rattle.jkasm.specs.Texts.{HasPoolTexts, texts_of_constant};

use crate::code_writer::LineStop;
use crate::pool::PoolBuilder;
use asm_reader::{Constant, FieldLine};
use jk_model::{Attribute, Bytes, List, MemberInfo};
use std::alloc::Global;

/// The attribute ConstantValue, where there is a constant.
fn constant_attributes(
    alloc: Global,
    pool: &mut PoolBuilder,
    constant: &Option<Constant>,
) -> Result<List<Attribute>, LineStop>
    requires { AllByRecursion IsPoolText (texts_of_constant constant.now) }
    ensures has { IfOk result (λ attributes. HasConstantAttribute pool.new constant.now attributes) }
    ensures fit { IfOk result (λ attributes. AreAttributes attributes) }
    ensures takes { OnOk result (Takes pool.old pool.new (for_constant constant.now)) }
    ensures fault { result ≡ Err LineStop.AtFault → HasNoRoom pool.old (for_constant constant.now) }
{
    let mut attributes = List::new(alloc);
    let Some(constant) = constant else {
        return Ok(attributes);
    };
    let name = pool.utf8(b"ConstantValue")?;
    let index = pool.value(constant)?;
    let body = Bytes::from_slice(alloc, &index.to_be_bytes())?;
    attributes.push(Attribute { name, body })?;
    Ok(attributes)
}

/// The member of these parts.
fn member_of(flags: u16, name: u16, descriptor: u16, attributes: List<Attribute>) -> MemberInfo
    requires { AreAttributes attributes }
    ensures parts { result ≡ record { flags = flags; name = name; descriptor = descriptor; attributes = attributes } }
    ensures fits { IsMember result }
{
    MemberInfo {
        flags,
        name,
        descriptor,
        attributes,
    }
}

/// The field of a line.
pub(crate) fn build_field(
    alloc: Global,
    pool: &mut PoolBuilder,
    line: &FieldLine,
) -> Result<MemberInfo, LineStop>
    requires { HasPoolTexts (item.Field line.now) }
    ensures says { IfOk result (λ m. IsFieldOf pool.new line.now m) }
    ensures fits { IfOk result (λ m. IsMember m) }
    ensures takes { OnOk result (Takes pool.old pool.new (for_item (item.Field line.now) [])) }
    ensures fault { result ≡ Err LineStop.AtFault → HasNoRoom pool.old (for_item (item.Field line.now) []) }
{
    let name = pool.utf8(line.name.as_slice())?;
    let descriptor = pool.utf8(line.descriptor.as_slice())?;
    let attributes = constant_attributes(alloc, pool, &line.constant)?;
    Ok(member_of(line.flags, name, descriptor, attributes))
}
