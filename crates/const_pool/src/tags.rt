//! The tags that entries begin with.

ghost use Rattle.std.specs.Prelude.{◌≡◌, ◌↔◌, ℕ, IsTrue, MatchOption};
ghost use Rattle.jk_model.specs.ConstantPool.{IsTag};
ghost use Rattle.const_pool.specs.Reading.{tag_number, is_wide};

/// What an entry is, by the byte in front of it.
#[derive(Clone, Copy, Debug, PartialEq, Eq)]
pub enum Tag {
    Utf8,
    Integer,
    Float,
    Long,
    Double,
    Class,
    Str,
    FieldRef,
    MethodRef,
    InterfaceMethodRef,
    NameAndType,
}

impl Tag {
    /// Whether the index after such an entry is unusable.
    pub fn is_wide(self) -> bool
        ensures { result ≡ is_wide self }
    {
        matches!(self, Tag::Long | Tag::Double)
    }
}

/// The tag that a byte is.
pub fn tag_of(byte: u8) -> Option<Tag>
    ensures { MatchOption result (IsTag byte → ⊥) (λ tag. byte ≡ tag_number tag) }
{
    match byte {
        1 => Some(Tag::Utf8),
        3 => Some(Tag::Integer),
        4 => Some(Tag::Float),
        5 => Some(Tag::Long),
        6 => Some(Tag::Double),
        7 => Some(Tag::Class),
        8 => Some(Tag::Str),
        9 => Some(Tag::FieldRef),
        10 => Some(Tag::MethodRef),
        11 => Some(Tag::InterfaceMethodRef),
        12 => Some(Tag::NameAndType),
        _ => None,
    }
}
