//! The types of fields and methods, as their descriptors say them: the Java Virtual Machine
//! Specification, section 4.3.

use crate::lists::{List, Units};

/// What an array's elements, or a value that is no array, are of.
#[derive(Debug, Drop)]
pub enum Base {
    Byte,
    Char,
    Double,
    Float,
    Int,
    Long,
    Short,
    Bool,
    /// A class or an interface, by its name with `/` between the parts.
    Class(Units),
}

/// The type of a field, of a parameter or of a result.
#[derive(Debug, Drop)]
pub struct FieldType {
    /// How many dimensions an array of this type has, 0 where it is none.
    pub dims: u8,
    pub base: Base,
}

/// The type of a method: what it takes, and what it answers.
#[derive(Debug, Drop)]
pub struct MethodType {
    pub params: List<FieldType>,
    /// Nothing where the method is `void`.
    pub result: Option<FieldType>,
}
