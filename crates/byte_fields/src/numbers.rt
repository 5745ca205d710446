//! Numbers, pairs of numbers, and bytes, which take no memory: each call answers a value and the
//! bytes after it.

ghost use Rattle.std.specs.Prelude.{◌≡◌, ◌↔◌, ◌<◌, ◌^◌, ◌∷◌, ◌++◌, length, IfOk, IsErr};
ghost use Rattle.std.specs.Int.{w16, w32, w64};
ghost use Rattle.jk_model.specs.ClassFile.{u2, u4, u8};
ghost use Rattle.byte_fields.specs.Reading.{Gives, byte_at, number_at, pair_at, bytes_at, block_at};
ghost use Rattle.byte_fields.specs.Layouts.{Completes, pair_bytes, block_bytes, IsBlock};

use crate::errors::EndsEarly;
use byteorder::{BigEndian, ByteOrder};

/// A number of one byte.
pub fn u1_of(bytes: &[u8]) -> Result<(u8, &[u8]), EndsEarly>
    ensures gives { Gives (λ x. (x.0, x.1.now)) result (byte_at bytes.now) }
    ensures layout { IfOk result (λ x. bytes.now ≡ x.0 ∷ x.1.now) }
    ensures early { IsErr result ↔ (length bytes.now < 1) }
{
    match bytes {
        [] => Err(EndsEarly),
        [byte, rest @ ..] => Ok((*byte, rest)),
    }
}

/// A number of two bytes, the higher first.
pub fn u2_of(bytes: &[u8]) -> Result<(u16, &[u8]), EndsEarly>
    ensures gives { Gives (λ x. (x.0, x.1.now)) result (number_at w16 bytes.now) }
    ensures layout { IfOk result (λ x. bytes.now ≡ u2 x.0 ++ x.1.now) }
    ensures early { IsErr result ↔ (length bytes.now < 2) }
{
    let (front, rest) = bytes_of(2, bytes)?;
    Ok((BigEndian::read_u16(front), rest))
}

/// A number of four bytes, the highest first.
pub fn u4_of(bytes: &[u8]) -> Result<(u32, &[u8]), EndsEarly>
    ensures gives { Gives (λ x. (x.0, x.1.now)) result (number_at w32 bytes.now) }
    ensures layout { IfOk result (λ x. bytes.now ≡ u4 x.0 ++ x.1.now) }
    ensures early { IsErr result ↔ (length bytes.now < 4) }
{
    let (front, rest) = bytes_of(4, bytes)?;
    Ok((BigEndian::read_u32(front), rest))
}

/// A number of eight bytes, the highest first.
pub fn u8_of(bytes: &[u8]) -> Result<(u64, &[u8]), EndsEarly>
    ensures gives { Gives (λ x. (x.0, x.1.now)) result (number_at w64 bytes.now) }
    ensures layout { IfOk result (λ x. bytes.now ≡ u8 x.0 ++ x.1.now) }
    ensures early { IsErr result ↔ (length bytes.now < 8) }
{
    let (front, rest) = bytes_of(8, bytes)?;
    Ok((BigEndian::read_u64(front), rest))
}

/// Two numbers of two bytes.
#[tactic(auto, unfolding(crate::specs::Reading::pair_at))]
pub fn pair_of(bytes: &[u8]) -> Result<((u16, u16), &[u8]), EndsEarly>
    ensures gives { Gives (λ x. (x.0, x.1.now)) result (pair_at bytes.now) }
    ensures layout { IfOk result (λ x. bytes.now ≡ pair_bytes x.0 ++ x.1.now) }
    ensures early { IsErr result ↔ (length bytes.now < 4) }
{
    let (first, rest) = u2_of(bytes)?;
    let (second, rest) = u2_of(rest)?;
    Ok(((first, second), rest))
}

/// So many bytes.
pub fn bytes_of(len: usize, bytes: &[u8]) -> Result<(&[u8], &[u8]), EndsEarly>
    ensures gives { Gives (λ x. (x.0.now, x.1.now)) result (bytes_at len bytes.now) }
    ensures layout { IfOk result (λ x. bytes.now ≡ x.0.now ++ x.1.now) }
    ensures long { IfOk result (λ x. length x.0.now ≡ len) }
    ensures early { IsErr result ↔ (length bytes.now < len) }
{
    if bytes.len() < len {
        return Err(EndsEarly);
    }
    Ok(bytes.split_at(len))
}

/// Bytes after their length, which is a number of two bytes.
#[tactic(auto, unfolding(crate::specs::Reading::block_at))]
pub fn short_block_of(bytes: &[u8]) -> Result<(&[u8], &[u8]), EndsEarly>
    ensures gives { Gives (λ x. (x.0.now, x.1.now)) result (block_at w16 bytes.now) }
    ensures layout { IfOk result (λ x. bytes.now ≡ block_bytes w16 x.0.now ++ x.1.now) }
    ensures short { IfOk result (λ x. length x.0.now < 2 ^ 16) }
    ensures early { IsErr result ↔ Completes (block_bytes w16) (IsBlock (2 ^ 16)) bytes.now }
{
    let (len, rest) = u2_of(bytes)?;
    bytes_of(len as usize, rest)
}

/// Bytes after their length, which is a number of four bytes.
#[tactic(auto, unfolding(crate::specs::Reading::block_at))]
pub fn long_block_of(bytes: &[u8]) -> Result<(&[u8], &[u8]), EndsEarly>
    ensures gives { Gives (λ x. (x.0.now, x.1.now)) result (block_at w32 bytes.now) }
    ensures layout { IfOk result (λ x. bytes.now ≡ block_bytes w32 x.0.now ++ x.1.now) }
    ensures short { IfOk result (λ x. length x.0.now < 2 ^ 32) }
    ensures early { IsErr result ↔ Completes (block_bytes w32) (IsBlock (2 ^ 32)) bytes.now }
{
    let (len, rest) = u4_of(bytes)?;
    bytes_of(len as usize, rest)
}
