//! What the entries of a class's pool say, where names of classes mean what they mean to that class.

use crate::classes::LinkError;
use descriptors::{DescriptorError, field_type, method_type};
use domain_resolver::NameTable;
use jk_model::{Base, ClassId, FieldType, List, MethodType, PoolEntry, Units};
use jk_model_classes::{BaseRef, TypeRef};
use std::alloc::Global;
use unit_text::{UnitsError, units_of};

/// A class that is being linked: its pool, and what names mean to it.
#[derive(Clone, Copy)]
pub(crate) struct Scope<'a> {
    pub(crate) alloc: Global,
    pub(crate) pool: &'a [PoolEntry],
    pub(crate) names: &'a NameTable,
    /// Its own name, which isn't among the others yet.
    pub(crate) own_name: &'a [u16],
    /// The number that it will have.
    pub(crate) own: ClassId,
}

/// A name and a descriptor, by the indices of their texts.
#[derive(Clone, Copy)]
pub(crate) struct NameAndType {
    pub(crate) name: u16,
    pub(crate) descriptor: u16,
}

/// A longer text doesn't stand in a pool.
const MOST_BYTES: usize = 65_535;

/// What the descriptor of an array begins with.
const BRACKET: u16 = b'[' as u16;

/// The units of the text at an index of a pool.
fn units_at(alloc: Global, pool: &[PoolEntry], index: u16) -> Result<Units, LinkError> {
    let Some(PoolEntry::Utf8(bytes)) = pool.get(usize::from(index)) else {
        return Err(LinkError::Unlinked(index));
    };
    if bytes.len() > MOST_BYTES {
        return Err(LinkError::Unlinked(index));
    }
    match units_of(alloc, bytes.as_slice()) {
        Ok(units) => Ok(units),
        Err(UnitsError::BadForm(_)) => Err(LinkError::Unlinked(index)),
        Err(UnitsError::OutOfMemory) => Err(LinkError::OutOfMemory),
    }
}

/// The units of the name of the Class entry at an index of a pool.
pub(crate) fn class_name_at(
    alloc: Global,
    pool: &[PoolEntry],
    index: u16,
) -> Result<Units, LinkError> {
    match pool.get(usize::from(index)) {
        Some(PoolEntry::Class(name)) => units_at(alloc, pool, *name),
        _ => Err(LinkError::Unlinked(index)),
    }
}

impl Scope<'_> {
    /// The units of the text at an index.
    pub(crate) fn units(&self, index: u16) -> Result<Units, LinkError> {
        units_at(self.alloc, self.pool, index)
    }

    /// The name and the descriptor of the NameAndType entry at an index.
    pub(crate) fn name_and_type(&self, index: u16) -> Result<NameAndType, LinkError> {
        match self.pool.get(usize::from(index)) {
            Some(PoolEntry::NameAndType(name, descriptor)) => Ok(NameAndType {
                name: *name,
                descriptor: *descriptor,
            }),
            _ => Err(LinkError::Unlinked(index)),
        }
    }

    /// What the name of a class means.
    fn class_named(&self, name: &[u16]) -> Option<ClassId> {
        if self.own_name == name {
            return Some(self.own);
        }
        self.names.resolve(name)
    }

    /// What an array's elements, or a value that is no array, are of.
    fn base_ref(&self, base: &Base) -> Option<BaseRef> {
        match base {
            Base::Byte => Some(BaseRef::Byte),
            Base::Char => Some(BaseRef::Char),
            Base::Int => Some(BaseRef::Int),
            Base::Long => Some(BaseRef::Long),
            Base::Short => Some(BaseRef::Short),
            Base::Bool => Some(BaseRef::Bool),
            Base::Class(name) => Some(BaseRef::Class(self.class_named(name.as_slice())?)),
            Base::Double | Base::Float => None,
        }
    }

    /// A type with the number of its class.
    fn type_ref(&self, t: &FieldType) -> Option<TypeRef> {
        Some(TypeRef {
            dims: t.dims,
            base: self.base_ref(&t.base)?,
        })
    }

    /// The type that units say.
    fn type_of_units(&self, units: &[u16], index: u16) -> Result<TypeRef, LinkError> {
        if units.len() > MOST_BYTES {
            return Err(LinkError::Unlinked(index));
        }
        match field_type(self.alloc, units) {
            Ok(t) => self.type_ref(&t).ok_or(LinkError::Unlinked(index)),
            Err(DescriptorError::BadDescriptor(_)) => Err(LinkError::Unlinked(index)),
            Err(DescriptorError::OutOfMemory) => Err(LinkError::OutOfMemory),
        }
    }

    /// The type that the descriptor at an index says.
    pub(crate) fn field_type(&self, index: u16) -> Result<TypeRef, LinkError> {
        let units = self.units(index)?;
        self.type_of_units(units.as_slice(), index)
    }

    /// The type of a method that the descriptor at an index says, with names of classes.
    pub(crate) fn method_type(&self, index: u16) -> Result<MethodType, LinkError> {
        let units = self.units(index)?;
        if units.len() > MOST_BYTES {
            return Err(LinkError::Unlinked(index));
        }
        match method_type(self.alloc, units.as_slice()) {
            Ok(kind) => Ok(kind),
            Err(DescriptorError::BadDescriptor(_)) => Err(LinkError::Unlinked(index)),
            Err(DescriptorError::OutOfMemory) => Err(LinkError::OutOfMemory),
        }
    }

    /// The types of the parameters of the descriptor at this index, with numbers of classes.
    pub(crate) fn param_refs(
        &self,
        kind: &MethodType,
        index: u16,
    ) -> Result<List<TypeRef>, LinkError> {
        let mut params = List::new(self.alloc);
        for param in kind.params.as_slice() {
            params.push(self.type_ref(param).ok_or(LinkError::Unlinked(index))?)?;
        }
        Ok(params)
    }

    /// The type of the result, if there is one.
    pub(crate) fn result_ref(
        &self,
        kind: &MethodType,
        index: u16,
    ) -> Result<Option<TypeRef>, LinkError> {
        match &kind.result {
            Some(t) => Ok(Some(self.type_ref(t).ok_or(LinkError::Unlinked(index))?)),
            None => Ok(None),
        }
    }

    /// The class or the array type that the Class entry at an index names.
    pub(crate) fn class_type(&self, index: u16) -> Result<TypeRef, LinkError> {
        let name = class_name_at(self.alloc, self.pool, index)?;
        let name = name.as_slice();
        if name.first().copied() == Some(BRACKET) {
            return self.type_of_units(name, index);
        }
        let class = self.class_named(name).ok_or(LinkError::Unlinked(index))?;
        Ok(TypeRef {
            dims: 0,
            base: BaseRef::Class(class),
        })
    }

    /// The class that the Class entry at an index names, which is no array.
    pub(crate) fn class(&self, index: u16) -> Result<ClassId, LinkError> {
        match self.class_type(index)? {
            TypeRef {
                dims: 0,
                base: BaseRef::Class(class),
            } => Ok(class),
            _ => Err(LinkError::Unlinked(index)),
        }
    }
}
