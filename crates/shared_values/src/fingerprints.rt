//! Fingerprints: 64 bits that a text determines. Strangers can't bring many texts to agree in all of them.

ghost use Rattle.std.specs.Prelude.{◌≡◌};
ghost use Rattle.jk_model.specs.Descriptors.{method_text};
ghost use Rattle.shared_values.specs.Fingerprints.{first_bits, fingerprint_of};

use crate::hashed_kinds::feed_kind;
use crate::hashed_units::feed_units;
use jk_model::MethodType;
use sha2::{Digest, Sha256};

/// The fingerprint of units: the first 64 bits, the highest first, of the SHA-256 digest of the units, each
/// as two bytes with the higher one first. It takes time in proportion to their number, and no memory.
///
/// The texts come from strangers, who would slow each search by fingerprint if they could bring many to
/// agree. For SHA-256 nobody knows a cheaper way than to try texts: some 2^32 of them for a pair that agrees,
/// and some 2^64 for a text that agrees with a given one. That holds of all 64 bits, and not of the fewer by
/// which a hashed map finds a place: what is kept by fingerprints of strangers' texts is kept in their order.
/// One costs some 100 instructions a unit, and some 3,000 at least.
pub fn fingerprint(units: &[u16]) -> u64
    ensures { result ≡ fingerprint_of units.now }
{
    let mut hasher = Sha256::new();
    feed_units(&mut hasher, units);
    first_eight(&hasher.finalize())
}

/// The fingerprint of a method's type, which is that of its descriptor. It takes time in proportion to the
/// descriptor's length, and no memory.
pub fn kind_fingerprint(kind: &MethodType) -> u64
    ensures { result ≡ fingerprint_of (method_text kind.now) }
{
    let mut hasher = Sha256::new();
    feed_kind(&mut hasher, kind);
    first_eight(&hasher.finalize())
}

/// The first eight bytes of a digest, as a number.
fn first_eight(digest: &[u8; 32]) -> u64
    ensures { result ≡ first_bits digest.now }
{
    u64::from_be_bytes([
        digest[0], digest[1], digest[2], digest[3], digest[4], digest[5], digest[6], digest[7],
    ])
}
