//! The letters that stand for a base alone: the Java Virtual Machine Specification, second edition, table 4.2.

ghost use Rattle.std.specs.Prelude.{◌≡◌, ◌∷◌, [], MatchOption};
ghost use Rattle.jk_model.specs.Descriptors.{IsBase, base_text};
ghost use Rattle.descriptors.specs.PartTexts.{IsNoLetter};

use jk_model::Base;

const BYTE: u16 = b'B' as u16;

const CHAR: u16 = b'C' as u16;

const DOUBLE: u16 = b'D' as u16;

const FLOAT: u16 = b'F' as u16;

const INT: u16 = b'I' as u16;

const LONG: u16 = b'J' as u16;

const SHORT: u16 = b'S' as u16;

const BOOL: u16 = b'Z' as u16;

/// The base that a letter alone stands for.
pub(crate) fn letter(unit: u16) -> Option<Base>
    ensures { MatchOption result (IsNoLetter unit) (λ base. IsBase base × (base_text base ≡ unit ∷ [])) }
{
    match unit {
        BYTE => Some(Base::Byte),
        CHAR => Some(Base::Char),
        DOUBLE => Some(Base::Double),
        FLOAT => Some(Base::Float),
        INT => Some(Base::Int),
        LONG => Some(Base::Long),
        SHORT => Some(Base::Short),
        BOOL => Some(Base::Bool),
        _ => None,
    }
}
