//! Reads modified UTF-8.

ghost use Rattle.std.specs.Prelude.{◌≡◌, ℕ, ◌<◌, ◌⊎◌, ◌^◌, List, length, MatchOption, MatchResult, IfOk, Err};
ghost use Rattle.jk_model.specs.Text.{Spells, IsBadEncoding};
ghost use Rattle.unit_text.specs.Encodings.{BeginsWith, BeginsNoUnit, BeginsNoUnitOf};
ghost use Rattle.unit_text.specs.UnitsOrFault.{IsAnswer};

use jk_model::{List, OutOfMemory, Units};
use std::alloc::Global;
use thiserror::Error;

/// Why bytes were not read as a text.
#[derive(Clone, Copy, Debug, PartialEq, Eq, Error)]
pub enum UnitsError {
    /// The bytes in front of this place, counted from 0, are encodings of units, and none begins there.
    #[error("no encoding of a unit begins at byte {0}")]
    BadForm(u32),
    /// No memory was left. It says nothing of the bytes.
    #[error("out of memory")]
    OutOfMemory,
}

impl From<OutOfMemory> for UnitsError {
    ghost use Rattle.std.specs.Prelude.{◌≡◌};
    ghost use Rattle.unit_text.specs.declared.units.UnitsError.TheVariants as Error;

    ghost from_gives = { λ _ e. e ≡ Error.OutOfMemory };

    fn from(_e: OutOfMemory) -> UnitsError {
        UnitsError::OutOfMemory
    }
}

/// The unit that the first byte encodes, and what follows it.
fn one_byte(bytes: &[u8]) -> Option<(u16, &[u8])>
    ensures { MatchOption result (BeginsNoUnitOf 1 bytes.now) (λ found. BeginsWith bytes.now found.0 found.1.now) }
{
    match bytes {
        [a @ 0x01..=0x7f, rest @ ..] => Some((u16::from(*a), rest)),
        _ => None,
    }
}

/// The same of two bytes.
fn two_bytes(bytes: &[u8]) -> Option<(u16, &[u8])>
    ensures { MatchOption result (BeginsNoUnitOf 2 bytes.now) (λ found. BeginsWith bytes.now found.0 found.1.now) }
{
    match bytes {
        [a @ 0xc0..=0xdf, b @ 0x80..=0xbf, rest @ ..] => {
            Some((u16::from(*a - 0xc0) * 64 + u16::from(*b - 0x80), rest))
        }
        _ => None,
    }
}

/// The same of three bytes.
fn three_bytes(bytes: &[u8]) -> Option<(u16, &[u8])>
    ensures { MatchOption result (BeginsNoUnitOf 3 bytes.now) (λ found. BeginsWith bytes.now found.0 found.1.now) }
{
    match bytes {
        [a @ 0xe0..=0xef, b @ 0x80..=0xbf, c @ 0x80..=0xbf, rest @ ..] => {
            let high = u16::from(*a - 0xe0) * 4096 + u16::from(*b - 0x80) * 64;
            Some((high + u16::from(*c - 0x80), rest))
        }
        _ => None,
    }
}

/// The unit whose encoding the bytes begin with, and what follows it.
pub fn next_unit(bytes: &[u8]) -> Option<(u16, &[u8])>
    ensures { MatchOption result (BeginsNoUnit bytes.now) (λ found. BeginsWith bytes.now found.0 found.1.now) }
{
    if let Some(found) = one_byte(bytes) {
        return Some(found);
    }
    if let Some(found) = two_bytes(bytes) {
        return Some(found);
    }
    three_bytes(bytes)
}

/// The units of a text, or where it stops being one.
fn read(alloc: Global, bytes: &[u8]) -> Result<Units, UnitsError>
    requires { length bytes.now < 2 ^ 32 }
    ensures { IsAnswer bytes.now result }
{
    let mut units = List::new(alloc);
    let mut rest = bytes;
    while !rest.is_empty() {
        let Some((unit, after)) = next_unit(rest) else {
            return Err(UnitsError::BadForm((bytes.len() - rest.len()) as u32));
        };
        units.push(unit)?;
        rest = after;
    }
    Ok(units)
}

/// The units of a text in modified UTF-8, in time linear in its bytes.
///
/// A unit is encoded in one byte from 01 to 7f, or in two or three as in UTF-8. Longer encodings than
/// a unit needs are read, and a surrogate has one of its own. The bytes 00, 80 to bf and f0 to ff
/// begin none, and one that is cut is none (the Java Virtual Machine Specification, 4.4.7).
pub fn units_of(alloc: Global, bytes: &[u8]) -> Result<Units, UnitsError>
    requires { length bytes.now < 2 ^ 32 }
    ensures read { IfOk result (λ units. Spells bytes.now units) }
    // A text has one reading, and it is found unless memory runs out.
    ensures only { (units : List ℕ) → Spells bytes.now units
        → MatchResult result (λ found. found ≡ units) (λ e. e ≡ UnitsError.OutOfMemory) }
    ensures bad { (place : ℕ) → result ≡ Err (UnitsError.BadForm place) → IsBadEncoding bytes.now place }
    // Bytes without a reading are refused so, unless memory runs out.
    ensures only_bad { (place : ℕ) → IsBadEncoding bytes.now place
        → MatchResult result (λ _. ⊥) (λ e. (e ≡ UnitsError.BadForm place) ⊎ (e ≡ UnitsError.OutOfMemory)) }
{
    read(alloc, bytes)
}
