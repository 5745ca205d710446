//! A class file as a record: the `ClassFile` structure of the Java Virtual Machine Specification,
//! chapter 4, with the bodies of attributes as bytes.

use crate::lists::{Bytes, List};

/// A class file. Indices into the constant pool stand as the file has them.
#[derive(Debug, Drop)]
pub struct ClassFile {
    pub minor: u16,
    pub major: u16,
    /// One entry per index from 0.
    pub pool: List<PoolEntry>,
    pub flags: u16,
    pub this_class: u16,
    pub super_class: u16,
    pub interfaces: List<u16>,
    pub fields: List<MemberInfo>,
    pub methods: List<MemberInfo>,
    pub attributes: List<Attribute>,
}

/// An entry of the constant pool, by its tag.
#[derive(Debug, Drop)]
pub enum PoolEntry {
    /// Index 0, and the index after a `Long` or `Double`.
    Unusable,
    /// Tag 1: modified UTF-8.
    Utf8(Bytes),
    /// Tag 3.
    Integer(u32),
    /// Tag 4, by its bits.
    Float(u32),
    /// Tag 5.
    Long(u64),
    /// Tag 6, by its bits.
    Double(u64),
    /// Tag 7: the index of its name.
    Class(u16),
    /// Tag 8: the index of its text.
    Str(u16),
    /// Tag 9: a class, and a name and type.
    FieldRef(u16, u16),
    /// Tag 10: a class, and a name and type.
    MethodRef(u16, u16),
    /// Tag 11: a class, and a name and type.
    InterfaceMethodRef(u16, u16),
    /// Tag 12: a name, and a descriptor.
    NameAndType(u16, u16),
}

/// A field or a method.
#[derive(Debug, Drop)]
pub struct MemberInfo {
    pub flags: u16,
    pub name: u16,
    pub descriptor: u16,
    pub attributes: List<Attribute>,
}

/// An attribute: the index of its name, and its body after the length.
#[derive(Debug, Drop)]
pub struct Attribute {
    pub name: u16,
    pub body: Bytes,
}

/// What the body of a Code attribute says.
#[derive(Debug, Drop)]
pub struct Code {
    pub max_stack: u16,
    pub max_locals: u16,
    pub code: Bytes,
    pub handlers: List<Handler>,
    pub attributes: List<Attribute>,
}

/// An exception handler of a Code attribute, by places in the code's bytes.
#[derive(Clone, Copy, Debug, PartialEq, Eq)]
pub struct Handler {
    pub start: u16,
    pub end: u16,
    pub handler: u16,
    /// The index of the class that is caught, 0 for any.
    pub catch: u16,
}
