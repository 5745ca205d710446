//! What the texts of a pool say. Each is read once, so that it does not count how many entries name it.

ghost use Rattle.std.specs.Prelude.{◌<◌, ◌^◌, IfOk, length};
ghost use Rattle.jk_model.specs.declared.descriptors.Base.TheVariants as Base;
ghost use Rattle.jk_model.specs.Descriptors.{IsMethodText};
ghost use Rattle.jk_model_classes.specs.SystemRecords.{IsBaseFor, IsTypeFor};
ghost use Rattle.jk_model_classes.specs.Worlds.{class_named};
ghost use Rattle.class_texts.specs.PoolTexts.{AreTextsOf};
ghost use Rattle.class_linker.specs.LinkedFiles.{IsLinkable};
ghost use Rattle.class_linker.specs.TextsSaid.{Answers, AreSaid, IsFieldTextFor, IsSaid, IsSaidAt};

use class_texts::ClassTexts;
use descriptors::{DescriptorError, field_type, method_type};
use domain_resolver::NameTable;
use jk_model::{Base, ClassFile, ClassId, FieldType, List, OutOfMemory};
use jk_model_classes::{BaseRef, TypeRef};
use shared_values::{SharedKind, Text};
use std::alloc::Global;

/// What a text says.
#[derive(Drop)]
pub(crate) struct Said {
    /// The class of which it is the name.
    pub(crate) class: Option<ClassId>,
    /// The type of a field of which it is the descriptor, if its class is known.
    pub(crate) field: Option<TypeRef>,
    /// The type of a method of which it is the descriptor.
    pub(crate) method: Option<SharedKind>,
}

/// What each text of a class file says, in time and memory in proportion to the pool.
pub(crate) fn said_in(
    alloc: Global,
    c: &ClassFile,
    texts: &ClassTexts,
    names: &NameTable,
) -> Result<List<Said>, OutOfMemory>
    requires linkable { IsLinkable c.now names.now }
    requires texts { AreTextsOf c.now.pool texts.now }
    ensures { IfOk result (λ said. AreSaid names.now c.now.pool said) }
{
    let mut all = List::new(alloc);
    let end = c.pool.len() as u16;
    for i in 0..end {
        let said = said_at(alloc, c, texts, names, i)?;
        all.push(said)?;
    }
    Ok(all)
}

/// What the text at an index says: nothing where there is none.
fn said_at(
    alloc: Global,
    c: &ClassFile,
    texts: &ClassTexts,
    names: &NameTable,
    i: u16,
) -> Result<Said, OutOfMemory>
    requires linkable { IsLinkable c.now names.now }
    requires texts { AreTextsOf c.now.pool texts.now }
    ensures { IfOk result (λ said. IsSaidAt names.now c.now.pool i said) }
{
    let _pool = &c.pool;
    match texts.text(i) {
        Some(text) => said_by(alloc, names, text),
        None => Ok(Said {
            class: None,
            field: None,
            method: None,
        }),
    }
}

/// What a text says.
fn said_by(alloc: Global, names: &NameTable, text: &Text) -> Result<Said, OutOfMemory>
    requires { length text.now < 2 ^ 31 }
    ensures { IfOk result (λ said. IsSaid names.now text.now said) }
{
    let class = names.resolve_text(text);
    let field = field_said(alloc, names, text.as_slice())?;
    let method = method_said(alloc, text.as_slice())?;
    Ok(Said {
        class,
        field,
        method,
    })
}

/// The type of a field of which units are the descriptor.
fn field_said(
    alloc: Global,
    names: &NameTable,
    units: &[u16],
) -> Result<Option<TypeRef>, OutOfMemory>
    requires { length units.now < 2 ^ 31 }
    ensures { IfOk result (λ kind. Answers (IsFieldTextFor names.now units.now) kind) }
{
    match field_type(alloc, units) {
        Ok(t) => Ok(type_ref(names, &t)),
        Err(DescriptorError::BadDescriptor(_)) => Ok(None),
        Err(DescriptorError::OutOfMemory) => Err(OutOfMemory),
    }
}

/// The type of a method of which units are the descriptor.
fn method_said(alloc: Global, units: &[u16]) -> Result<Option<SharedKind>, OutOfMemory>
    requires { length units.now < 2 ^ 31 }
    ensures { IfOk result (λ kind. Answers (IsMethodText units.now) kind) }
{
    match method_type(alloc, units) {
        Ok(kind) => Ok(Some(SharedKind::new(alloc, kind)?)),
        Err(DescriptorError::BadDescriptor(_)) => Ok(None),
        Err(DescriptorError::OutOfMemory) => Err(OutOfMemory),
    }
}

/// A type with the number of its class; none where that isn't known, and of float and double.
fn type_ref(names: &NameTable, t: &FieldType) -> Option<TypeRef>
    ensures { Answers (IsTypeFor (class_named names.now) t.now) result }
{
    match base_ref(names, &t.base) {
        Some(base) => Some(TypeRef { dims: t.dims, base }),
        None => None,
    }
}

/// What an array's elements, or a value that is no array, are of; none where its class isn't known, and of float and double.
fn base_ref(names: &NameTable, base: &Base) -> Option<BaseRef>
    ensures { Answers (IsBaseFor (class_named names.now) base.now) result }
{
    match base {
        Base::Byte => Some(BaseRef::Byte),
        Base::Char => Some(BaseRef::Char),
        Base::Int => Some(BaseRef::Int),
        Base::Long => Some(BaseRef::Long),
        Base::Short => Some(BaseRef::Short),
        Base::Bool => Some(BaseRef::Bool),
        Base::Class(name) => class_ref(names, name.as_slice()),
        Base::Double | Base::Float => None,
    }
}

/// The class of a name, as what values are of.
fn class_ref(names: &NameTable, name: &[u16]) -> Option<BaseRef>
    ensures { Answers (IsBaseFor (class_named names.now) (Base.Class name.now)) result }
{
    match names.resolve(name) {
        Some(class) => Some(BaseRef::Class(class)),
        None => None,
    }
}
