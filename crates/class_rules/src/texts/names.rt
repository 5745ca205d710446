//! Whether units have the form of a name (the Java Virtual Machine Specification, 4.2).

ghost use Rattle.std.specs.Prelude.{◌≡◌, ◌↔◌, ◌==◌, ◌||◌, IsTrue};
ghost use Rattle.std.specs.List.{list_any, slice_split, All};
ghost use Rattle.jk_model.specs.Descriptors.{IsNameUnit, IsName, IsClassName};
ghost use Rattle.jk_model_classes.specs.ClassNames.{BeginsArray};

const DOT: u16 = b'.' as u16;

const SLASH: u16 = b'/' as u16;

const SEMICOLON: u16 = b';' as u16;

const BRACKET: u16 = b'[' as u16;

const LESS: u16 = b'<' as u16;

const GREATER: u16 = b'>' as u16;

/// Whether a name may have this unit.
fn is_name_unit(unit: u16) -> bool
    ensures { IsTrue result ↔ IsNameUnit unit }
{
    !matches!(unit, DOT | SEMICOLON | BRACKET | SLASH)
}

/// Whether units are a name.
pub(crate) fn is_name(units: &[u16]) -> bool
    ensures { IsTrue result ↔ IsName units.now }
{
    !units.is_empty() && units.iter().all(|unit| is_name_unit(*unit))
}

/// Whether the units between slashes are names.
fn has_names(units: &[u16]) -> bool
    ensures { IsTrue result ↔ All IsName (slice_split (λ u. u == 47) units.now) }
{
    units.split(|unit| *unit == SLASH).all(is_name)
}

/// Whether units are the name of a class: names with a slash between them.
pub(crate) fn is_class_name(units: &[u16]) -> bool
    ensures { IsTrue result ↔ IsClassName units.now }
{
    has_names(units)
}

/// Whether one of the units is `<` or `>`.
pub(crate) fn has_angle(units: &[u16]) -> bool
    ensures { result ≡ list_any (λ u. u == 60 || u == 62) units.now }
{
    units.iter().any(|unit| *unit == LESS || *unit == GREATER)
}

/// Whether the first unit is `[`.
pub(crate) fn begins_array(units: &[u16]) -> bool
    ensures { IsTrue result ↔ BeginsArray units.now }
{
    matches!(units, [BRACKET, ..])
}
