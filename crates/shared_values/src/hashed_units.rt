//! Feeds units to a hasher, block by block from a buffer of fixed size.

ghost use Rattle.std.specs.Prelude.{◌≡◌, ◌*◌, ◌≤◌, length, take};
ghost use Rattle.shared_values.specs.Feeding.{Feeds};
ghost use Rattle.shared_values.specs.Fingerprints.{unit_bytes};

use sha2::{Digest, Sha256};

/// How many units a block of the hash function takes, two bytes each.
const BLOCK_UNITS: usize = 32;

/// Adds units to what the hasher holds.
pub(crate) fn feed_units(hasher: &mut Sha256, units: &[u16])
    ensures { Feeds hasher.old hasher.new units.now }
{
    let mut rest = units;
    while rest.len() > BLOCK_UNITS {
        let (block, more) = rest.split_at(BLOCK_UNITS);
        feed_block(hasher, block);
        rest = more;
    }
    feed_block(hasher, rest);
}

/// Adds the units of one block to what the hasher holds.
fn feed_block(hasher: &mut Sha256, units: &[u16])
    requires { length units.now ≤ BLOCK_UNITS }
    ensures { Feeds hasher.old hasher.new units.now }
{
    let bytes = bytes_of_block(units);
    hasher.update(&bytes[..2 * units.len()]);
}

/// The bytes of the units of one block, from the front on.
fn bytes_of_block(units: &[u16]) -> [u8; 2 * BLOCK_UNITS]
    requires { length units.now ≤ BLOCK_UNITS }
    ensures { take (2 * length units.now) result ≡ unit_bytes units.now }
{
    let mut bytes = [0; 2 * BLOCK_UNITS];
    for i in 0..units.len() {
        let [high, low] = units[i].to_be_bytes();
        bytes[2 * i] = high;
        bytes[2 * i + 1] = low;
    }
    bytes
}
