//! What a pool's index is ordered by: the content of an entry.

ghost use Rattle.std.specs.Prelude.{◌≡◌, length, IfOk};
ghost use Rattle.jkasm.specs.Constants.{reference};
ghost use Rattle.jkasm.specs.PoolKeys.{entry_of, slots_of};

use asm_reader::MemberKind;
use jk_model::{List, OutOfMemory, PoolEntry};
use std::alloc::Global;

/// The content of an entry, with its kind.
#[derive(Drop, PartialEq, Eq, PartialOrd, Ord)]
pub(crate) enum Key {
    /// A text, by its bytes.
    Utf8(Vec<u8>),
    Integer(u32),
    Long(u64),
    /// A class, by the index of its name.
    Class(u16),
    /// A string, by the index of its text.
    Str(u16),
    /// A name and a descriptor.
    NameAndType(u16, u16),
    /// A class, and a name and type. So are the other two.
    Field(u16, u16),
    Method(u16, u16),
    InterfaceMethod(u16, u16),
}

impl Key {
    /// The content of a reference, by the indices of its class and of its name and type.
    pub(crate) fn reference(kind: MemberKind, class: u16, pair: u16) -> Key
        ensures entry { entry_of result ≡ reference kind class pair }
        ensures one { length (slots_of result) ≡ 1 }
    {
        match kind {
            MemberKind::Field => Key::Field(class, pair),
            MemberKind::Method => Key::Method(class, pair),
            MemberKind::InterfaceMethod => Key::InterfaceMethod(class, pair),
        }
    }

    /// The entry of this content.
    pub(crate) fn entry(&self, alloc: Global) -> Result<PoolEntry, OutOfMemory>
        ensures { IfOk result (λ entry. entry ≡ entry_of self.now) }
    {
        Ok(match self {
            Key::Utf8(bytes) => PoolEntry::Utf8(List::from_slice(alloc, bytes.as_slice())?),
            Key::Integer(n) => PoolEntry::Integer(*n),
            Key::Long(n) => PoolEntry::Long(*n),
            Key::Class(name) => PoolEntry::Class(*name),
            Key::Str(text) => PoolEntry::Str(*text),
            Key::NameAndType(name, descriptor) => PoolEntry::NameAndType(*name, *descriptor),
            Key::Field(class, pair) => PoolEntry::FieldRef(*class, *pair),
            Key::Method(class, pair) => PoolEntry::MethodRef(*class, *pair),
            Key::InterfaceMethod(class, pair) => PoolEntry::InterfaceMethodRef(*class, *pair),
        })
    }

    /// How many places of a pool its entry takes.
    pub(crate) fn places(&self) -> usize
        ensures { result ≡ length (slots_of self.now) }
    {
        match self {
            Key::Long(_) => 2,
            _ => 1,
        }
    }
}
