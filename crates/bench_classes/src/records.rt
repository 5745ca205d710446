//! Records of classes and members, as they would be made of class files.

use jk_model::{Base, ClassId, DomainId, FieldType, List, MethodType, OutOfMemory, Units};
use jk_model_classes::{
    BaseRef, Body, ClassRecord, FieldRecord, Link, LinkedCode, MethodRecord, TypeRef,
};
use shared_values::{Shared, SharedKind, Text};
use std::alloc::Global;

/// java/lang/Object is the first class.
pub const OBJECT: ClassId = ClassId(0);

/// Flags of a class: public, or a public interface, which is abstract.
pub const CLASS: u16 = 0x0001;

pub const INTERFACE: u16 = 0x0601;

/// Flags of a member: public, or public and abstract.
pub const PUBLIC: u16 = 0x0001;

pub const ABSTRACT: u16 = 0x0401;

/// int.
pub const INT: TypeRef = TypeRef {
    dims: 0,
    base: BaseRef::Int,
};

/// A class of the first domain, without members yet.
pub fn class_record(
    alloc: Global,
    name: &[u16],
    flags: u16,
    parent: ClassId,
) -> Result<ClassRecord, OutOfMemory> {
    Ok(ClassRecord {
        name: Text::new(alloc, name)?,
        home: Some(DomainId(0)),
        flags,
        parent: Some(parent),
        interfaces: List::new(alloc),
        fields: List::new(alloc),
        methods: List::new(alloc),
        links: List::new(alloc),
        references: List::new(alloc),
    })
}

/// A public field of type int.
pub fn field_record(name: Text) -> FieldRecord {
    FieldRecord {
        name,
        flags: PUBLIC,
        kind: INT,
        constant: Link::Nothing,
    }
}

/// What methods of one type share.
#[derive(Drop)]
pub struct Signature {
    pub kind: SharedKind,
    pub params: Shared<List<TypeRef>>,
}

impl Signature {
    /// That of a method without parameters and result.
    pub fn empty(alloc: Global) -> Result<Signature, OutOfMemory> {
        let params = List::new(alloc);
        let kind = SharedKind::new(
            alloc,
            MethodType {
                params,
                result: None,
            },
        )?;
        let params = Shared::new(alloc, List::new(alloc))?;
        Ok(Signature { kind, params })
    }

    /// That of a method with one parameter, of a class of this name. The record has java/lang/Object in its place.
    pub fn of_class(alloc: Global, name: &[u16]) -> Result<Signature, OutOfMemory> {
        let mut params = List::new(alloc);
        params.push(FieldType {
            dims: 0,
            base: Base::Class(Units::from_slice(alloc, name)?),
        })?;
        let kind = SharedKind::new(
            alloc,
            MethodType {
                params,
                result: None,
            },
        )?;
        let mut params = List::new(alloc);
        params.push(TypeRef {
            dims: 0,
            base: BaseRef::Class(OBJECT),
        })?;
        let params = Shared::new(alloc, params)?;
        Ok(Signature { kind, params })
    }

    /// An abstract method of this type.
    pub fn declared(&self, name: Text) -> Result<MethodRecord, OutOfMemory> {
        Ok(MethodRecord {
            name,
            flags: ABSTRACT,
            kind: self.kind.share()?,
            params: self.params.share()?,
            result: None,
            body: Body::Absent,
        })
    }

    /// A method of this type with a code.
    pub fn defined(&self, alloc: Global, name: Text) -> Result<MethodRecord, OutOfMemory> {
        let mut method = self.declared(name)?;
        method.flags = PUBLIC;
        method.body = Body::Linked(LinkedCode {
            max_stack: 0,
            max_locals: 2,
            instrs: List::new(alloc),
            handlers: List::new(alloc),
        });
        Ok(method)
    }
}
