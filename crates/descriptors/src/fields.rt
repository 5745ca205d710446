//! Reads the types of fields: the Java Virtual Machine Specification, second edition, 4.3.2.

ghost use Rattle.std.specs.Prelude.{◌≡◌, ℕ, ◌<◌, ◌≤◌, ◌⊎◌, ◌^◌, ◌∷◌, ◌++◌, List, length, MatchResult, IfOk, Err};
ghost use Rattle.jk_model.specs.declared.descriptors.FieldType.{FieldType};
ghost use Rattle.jk_model.specs.Descriptors.{IsClassName, IsFieldText, IsBadFieldText};
ghost use Rattle.descriptors.specs.Names.{IsNameText};
ghost use Rattle.descriptors.specs.Stops.{IsStop, StopsAt};
ghost use Rattle.descriptors.specs.PartTexts.{IsBaseText, ReadsName, ReadsBase, ReadsField, AreDimensions};
ghost use Rattle.jk_model.specs.Descriptors.{IsFieldDescriptor};
ghost use Rattle.descriptors.specs.TypeOrPlace.{IsFieldAnswer};

use crate::error::{DescriptorError, StopPlace, bad_before, place_before, rest_after};
use crate::letters::letter;
use crate::names::name_length;
use jk_model::{Base, FieldType, List};
use std::alloc::Global;

const BRACKET: u16 = b'[' as u16;

const CLASS: u16 = b'L' as u16;

const MOST_DIMENSIONS: u8 = 255;

/// The name of a class and what follows its `;`, in a descriptor of `whole` units.
fn next_name(units: &[u16], whole: usize) -> Result<(&[u16], &[u16]), StopPlace>
    requires within { length units.now ≤ whole }
    requires short { whole < 2 ^ 31 }
    ensures { MatchResult result (λ found. ReadsName units.now found.0.now found.1.now) (λ place. StopsAt IsNameText units.now whole place.0) }
{
    match name_length(units) {
        Ok(n) => Ok((&units[..n], &units[n + 1..])),
        Err(n) => Err(place_before(&units[n..], whole)),
    }
}

/// The base of a letter in front, which is not `L`, and what follows it.
fn next_letter(units: &[u16], whole: usize) -> Result<(Base, &[u16]), StopPlace>
    requires within { length units.now ≤ whole }
    requires short { whole < 2 ^ 31 }
    requires no_class { (more : List ℕ) → units.now ≡ 76 ∷ more → ⊥ }
    ensures { MatchResult result (λ found. ReadsBase units.now found.0 found.1.now) (λ place. StopsAt IsBaseText units.now whole place.0) }
{
    match units {
        [unit, rest @ ..] => match letter(*unit) {
            Some(base) => Ok((base, rest)),
            None => Err(place_before(units, whole)),
        },
        [] => Err(place_before(units, whole)),
    }
}

/// What a field is of that is no array, and what follows it.
fn next_base(alloc: Global, units: &[u16], whole: usize) -> Result<(Base, &[u16]), DescriptorError>
    requires within { length units.now ≤ whole }
    requires short { whole < 2 ^ 31 }
    ensures { MatchResult result (λ found. ReadsBase units.now found.0 found.1.now) (IsStop IsBaseText units.now whole) }
{
    if let Some(name_on) = rest_after(units, CLASS) {
        let (name, rest) = next_name(name_on, whole)?;
        return Ok((Base::Class(List::from_slice(alloc, name)?), rest));
    }
    Ok(next_letter(units, whole)?)
}

/// How many brackets stand in front, 255 at most.
fn dimensions(units: &[u16]) -> u8
    ensures { AreDimensions units.now result }
{
    let mut dims = 0;
    for unit in units {
        if *unit != BRACKET || dims == MOST_DIMENSIONS {
            break;
        }
        dims += 1;
    }
    dims
}

/// The type of a field in front, and what follows it.
pub(crate) fn next_field(
    alloc: Global,
    units: &[u16],
    whole: usize,
) -> Result<(FieldType, &[u16]), DescriptorError>
    requires within { length units.now ≤ whole }
    requires short { whole < 2 ^ 31 }
    ensures { MatchResult result (λ found. ReadsField units.now found.0 found.1.now) (IsStop IsFieldDescriptor units.now whole) }
{
    let dims = dimensions(units);
    let (base, rest) = next_base(alloc, &units[usize::from(dims)..], whole)?;
    Ok((FieldType { dims, base }, rest))
}

/// The type of a field, or where its descriptor stops being one.
fn read(alloc: Global, units: &[u16]) -> Result<FieldType, DescriptorError>
    requires { length units.now < 2 ^ 31 }
    ensures { IsFieldAnswer units.now result }
{
    let (found, rest) = next_field(alloc, units, units.len())?;
    if !rest.is_empty() {
        return Err(bad_before(rest, units.len()));
    }
    Ok(found)
}

/// The type of a field by its descriptor, in time linear in its units.
///
/// A descriptor has a `[` for each dimension, 255 at most, and then a letter or the name of a class between
/// `L` and `;`. The name has parts of one unit or more with `/` between them, and none of `.`, `;` and `[`.
/// Other units are refused with the length of the longest part of them, from the front on, that begins one.
pub fn field_type(alloc: Global, units: &[u16]) -> Result<FieldType, DescriptorError>
    requires { length units.now < 2 ^ 31 }
    ensures read { IfOk result (λ t. IsFieldText units.now t) }
    // A descriptor is of one type, and it is found unless memory runs out.
    ensures only { (t : FieldType) → IsFieldText units.now t
        → MatchResult result (λ found. found ≡ t) (λ e. e ≡ DescriptorError.OutOfMemory) }
    ensures bad { (n : ℕ) → result ≡ Err (DescriptorError.BadDescriptor n) → IsBadFieldText units.now n }
    // Other units are refused so, unless memory runs out.
    ensures only_bad { (n : ℕ) → IsBadFieldText units.now n
        → MatchResult result (λ _. ⊥) (λ e. (e ≡ DescriptorError.BadDescriptor n) ⊎ (e ≡ DescriptorError.OutOfMemory)) }
{
    read(alloc, units)
}
