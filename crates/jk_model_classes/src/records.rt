//! Classes as they are loaded: a record for each, in which names of other classes are their numbers. The
//! numbers are places in the list of all records, and a class stands after its parent and its interfaces.

use jk_model::{ClassId, DomainId, Instr, List, MemberId};
use shared_values::{Shared, SharedKind, Text};

/// A class or an interface.
#[derive(Drop)]
pub struct ClassRecord {
    /// Its name, with `/` between the parts.
    pub name: Text,
    /// The domain whose folder has it; none for a system class.
    pub home: Option<DomainId>,
    /// The flags of the class file, of which 0001 public, 0010 final, 0200 interface and 0400 abstract count.
    pub flags: u16,
    /// Its parent; java/lang/Object alone has none.
    pub parent: Option<ClassId>,
    /// The interfaces that it lists, in their order.
    pub interfaces: List<ClassId>,
    pub fields: List<FieldRecord>,
    pub methods: List<MethodRecord>,
    /// What each entry of the constant pool leads to.
    pub links: List<Link>,
    /// The classes that it refers to: those of its Class entries, arrays by what they are of in the end, and
    /// those in the descriptors of its members and NameAndType entries. In rising number, each once; none in
    /// a system class.
    pub references: List<ClassId>,
}

/// A field of a class, at its place in the class file.
#[derive(Drop)]
pub struct FieldRecord {
    pub name: Text,
    /// 0001 public, 0002 private, 0004 protected, 0008 static, 0010 final, 0080 transient.
    pub flags: u16,
    pub kind: TypeRef,
    /// The constant with which a static field begins, as a store into the field would leave it; `Nothing` where the
    /// class file gives none.
    pub constant: Link,
}

/// A method of a class, at its place in the class file.
#[derive(Drop)]
pub struct MethodRecord {
    pub name: Text,
    /// 0001 public, 0002 private, 0004 protected, 0008 static, 0010 final, 0400 abstract. `<clinit>` has
    /// 0008 alone.
    pub flags: u16,
    /// Its type as the descriptor says it, with names of classes.
    pub kind: SharedKind,
    /// The types of its parameters, with numbers of classes.
    pub params: Shared<List<TypeRef>>,
    /// The type of its result, with the number of a class.
    pub result: Option<TypeRef>,
    pub body: Body,
}

/// What a method runs.
#[derive(Drop)]
pub enum Body {
    /// Nothing: it is abstract.
    Absent,
    /// The method of the system classes with this number.
    System(u16),
    Linked(LinkedCode),
}

/// The code of a method. Places are places in `instrs`.
#[derive(Drop)]
pub struct LinkedCode {
    /// How many slots the operand stack may have.
    pub max_stack: u16,
    /// How many slots the locals have.
    pub max_locals: u16,
    /// The instructions, with places in place of byte offsets.
    pub instrs: List<Instr>,
    /// The catch entries, in their order.
    pub handlers: List<Caught>,
}

/// A catch entry: which throwables it catches, from which instructions, and where it goes on.
#[derive(Clone, Copy, Debug, PartialEq, Eq)]
pub struct Caught {
    /// The first place that it covers.
    pub start: u32,
    /// The place after the last that it covers, at most the number of instructions.
    pub end: u32,
    /// Where the handler begins.
    pub handler: u32,
    /// What it catches; any throwable where there is none.
    pub class: Option<ClassId>,
}

/// What an array's elements, or a value that is no array, are of.
#[derive(Clone, Copy, Debug, PartialEq, Eq)]
pub enum BaseRef {
    Byte,
    Char,
    Int,
    Long,
    Short,
    Bool,
    Class(ClassId),
}

/// The type of a field, a parameter or a result. Class files with float or double are refused before.
#[derive(Clone, Copy, Debug, PartialEq, Eq)]
pub struct TypeRef {
    /// How many dimensions an array of this type has, 0 where it is none.
    pub dims: u8,
    pub base: BaseRef,
}

/// What an entry of a constant pool leads to.
#[derive(Drop)]
pub enum Link {
    Nothing,
    Int(i32),
    Long(i64),
    Text(Text),
    Class(TypeRef),
    /// The class that the reference names, and the field that was found.
    Field(ClassId, MemberId),
    /// The class that the reference names, and the method that was found.
    Method(ClassId, MemberId),
}

/// A field or a method, by its place among the fields or the methods of its class.
#[derive(Clone, Copy, Debug, PartialEq, Eq)]
pub enum Member {
    Field(MemberId),
    Method(MemberId),
}
