//! Lists of fields of one kind: so many, and a count and so many.

ghost use Rattle.std.specs.Prelude.{◌≡◌, ◌++◌, ℕ, List, Option, Err, IfOk, IsErr};
ghost use Rattle.std.specs.List.{flat_map};
ghost use Rattle.byte_fields.specs.Reading.{GivesInMemory, many_at, counted_at};
ghost use Rattle.byte_fields.specs.Layouts.{IsReader, FailsWithin, Completes, AreMany, counted_bytes, AreCounted};

use crate::errors::ReadError;
use crate::numbers::u2_of;
use jk_model::List;
use std::alloc::Global;

/// A kind of field, such as an attribute.
pub trait Field {
    /// What such a field stands for.
    type Value: Drop;

    // a value and the bytes after it, or none where the bytes end early
    ghost read_at: { List ℕ → Option (Self.Value × List ℕ) };

    // the bytes of a value
    ghost value_bytes: { Self.Value → List ℕ };

    // which values have bytes
    ghost is_value: { Self.Value → Type 0 };

    /// The field in front, and the bytes after it.
    fn read(alloc: Global, bytes: &[u8]) -> Result<(Self::Value, &[u8]), ReadError>
        ensures { GivesInMemory (λ x. (x.0, x.1.now)) result (read_at bytes.now) };

    // it reads the values that have bytes, and each by its own bytes
    ghost reads: { IsReader read_at value_bytes is_value };

    // it fails only where the bytes go on as those of a value
    ghost fails_within: { FailsWithin read_at value_bytes is_value };
}

/// So many fields, one after another.
pub fn many_of<F: Field>(
    alloc: Global,
    count: usize,
    bytes: &[u8],
) -> Result<(List<F::Value>, &[u8]), ReadError>
    ensures gives { GivesInMemory (λ x. (x.0, x.1.now)) result (many_at F.read_at count bytes.now) }
    ensures layout { IfOk result (λ x. bytes.now ≡ flat_map F.value_bytes x.0 ++ x.1.now) }
    ensures values { IfOk result (λ x. AreMany F.is_value count x.0) }
    ensures early { result ≡ Err ReadError.EndsEarly
        → Completes (flat_map F.value_bytes) (AreMany F.is_value count) bytes.now }
    ensures only_early { Completes (flat_map F.value_bytes) (AreMany F.is_value count) bytes.now
        → IsErr result }
{
    let mut values = List::new(alloc);
    let mut rest = bytes;
    for _ in 0..count {
        let (value, after) = F::read(alloc, rest)?;
        values.push(value)?;
        rest = after;
    }
    Ok((values, rest))
}

/// A count of two bytes, and so many fields.
#[tactic(auto, unfolding(crate::specs::Reading::counted_at))]
pub fn counted_of<F: Field>(
    alloc: Global,
    bytes: &[u8],
) -> Result<(List<F::Value>, &[u8]), ReadError>
    ensures gives { GivesInMemory (λ x. (x.0, x.1.now)) result (counted_at F.read_at bytes.now) }
    ensures layout { IfOk result (λ x. bytes.now ≡ counted_bytes F.value_bytes x.0 ++ x.1.now) }
    ensures values { IfOk result (λ x. AreCounted F.is_value x.0) }
    ensures early { result ≡ Err ReadError.EndsEarly
        → Completes (counted_bytes F.value_bytes) (AreCounted F.is_value) bytes.now }
    ensures only_early { Completes (counted_bytes F.value_bytes) (AreCounted F.is_value) bytes.now
        → IsErr result }
{
    let (count, rest) = u2_of(bytes)?;
    many_of::<F>(alloc, count as usize, rest)
}

/// Numbers of two bytes, as a kind of field.
pub struct U2;

impl Field for U2 {
    ghost use Rattle.std.specs.Int.{w16};
    ghost use Rattle.jk_model.specs.ClassFile.{u2, IsU2};
    ghost use Rattle.byte_fields.specs.Reading.{GivesInMemory, number_at};
    ghost use Rattle.byte_fields.specs.OneReading.{u2_reader};
    ghost use Rattle.byte_fields.specs.CutIsBeginning.{u2_cut};

    type Value = u16;

    ghost read_at = { number_at w16 };

    ghost value_bytes = { u2 };

    ghost is_value = { IsU2 };

    fn read(_alloc: Global, bytes: &[u8]) -> Result<(u16, &[u8]), ReadError> {
        Ok(u2_of(bytes)?)
    }

    ghost reads = { u2_reader };

    ghost fails_within = { u2_cut };
}
