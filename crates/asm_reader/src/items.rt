//! What the lines of an assembler's text say.

use jk_model::{Bytes, List};

/// A constant: of a field, or one that an instruction loads.
#[derive(Debug, Drop)]
pub enum Constant {
    Int(i32),
    Long(i64),
    /// A text of bytes from 32 to 126.
    Text(Bytes),
}

/// What a reference to a member refers to.
#[derive(Clone, Copy, Debug, PartialEq, Eq)]
pub enum MemberKind {
    Field,
    Method,
    InterfaceMethod,
}

/// A key of a switch, and the label where it leads.
#[derive(Debug, Drop)]
pub struct SwitchLine {
    pub key: i32,
    pub label: Bytes,
}

/// An instruction. `op` is its opcode, without `wide`. Labels stand for places in the code.
#[derive(Debug, Drop)]
pub enum Statement {
    /// Without operands.
    Simple(u8),
    /// `sipush`
    Push(i16),
    /// `ldc_w` of an int or a text, `ldc2_w` of a long.
    Load(Constant),
    /// The opcode, and a local.
    OnLocal(u8, u16),
    /// `iinc`: a local, and a step.
    Increment(u16, i16),
    /// The opcode, and a label.
    Jump(u8, Bytes),
    /// The opcode, and a reference: its kind, the class, the name and the descriptor.
    OnMember(u8, MemberKind, Bytes, Bytes, Bytes),
    /// The opcode, and a class.
    OnClass(u8, Bytes),
    /// `newarray`: the code of the type of its elements.
    NewArray(u8),
    /// `multianewarray`: a class, and how many dimensions are made.
    NewArrays(Bytes, u8),
    /// `lookupswitch`: the label of the default, and keys that rise.
    Switch(Bytes, List<SwitchLine>),
}

/// The line of the class.
#[derive(Debug, Drop)]
pub struct ClassLine {
    pub flags: u16,
    pub name: Bytes,
    pub parent: Bytes,
    pub interfaces: List<Bytes>,
}

/// The line of a field.
#[derive(Debug, Drop)]
pub struct FieldLine {
    pub flags: u16,
    pub name: Bytes,
    pub descriptor: Bytes,
    pub constant: Option<Constant>,
}

/// The line that a method begins with.
#[derive(Debug, Drop)]
pub struct MethodLine {
    pub flags: u16,
    pub name: Bytes,
    pub descriptor: Bytes,
    /// The most slots of its stack.
    pub stack: u16,
    /// The slots of its locals.
    pub locals: u16,
    /// The classes that it may throw.
    pub throws: List<Bytes>,
}

/// A label, an instruction, or both.
#[derive(Debug, Drop)]
pub struct CodeLine {
    pub label: Option<Bytes>,
    pub statement: Option<Statement>,
}

/// A handler, by three labels.
#[derive(Debug, Drop)]
pub struct CatchLine {
    pub from: Bytes,
    pub to: Bytes,
    pub handler: Bytes,
    /// The class that is caught, or none for any.
    pub class: Option<Bytes>,
}

/// What a line says.
#[derive(Debug, Drop)]
pub enum Item {
    Class(ClassLine),
    Field(FieldLine),
    Method(MethodLine),
    Code(CodeLine),
    Catch(CatchLine),
    /// The end of a method.
    End,
}

/// How a line reads, wherever it stands.
#[derive(Debug, Drop)]
pub enum LineReading {
    /// It has no words, or is a comment.
    Empty,
    /// It is an item, and none of its words has more than 65,535 bytes.
    Short(Item),
    /// It is an item, and one of its words is longer than that.
    Long(Item),
    /// It is none of these.
    Bad,
}
