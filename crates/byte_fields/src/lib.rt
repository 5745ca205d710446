//! Fields at the front of bytes: numbers with their highest byte first, bytes after their length,
//! and lists after their count.
#![tactic(auto)]

mod errors;
mod lists;
mod numbers;

pub use errors::{EndsEarly, ReadError};
pub use lists::{Field, U2, counted_of, many_of};
pub use numbers::{bytes_of, long_block_of, pair_of, short_block_of, u1_of, u2_of, u4_of, u8_of};
